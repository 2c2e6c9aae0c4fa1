//! The plain form of patterns. The bodies are empty: what is stated holds of the definitions.

ghost use Rattle.std.specs.Prelude.{◌≡◌, ℕ, ℤ, List, map};
ghost use Rattle.elm_base.specs.declared.term.Literal.TheVariants as literal;
ghost use Rattle.elm_base.specs.declared.token.At.{At};
ghost use Rattle.elm_base.specs.declared.tree.Spot.{Spot};
ghost use Rattle.elm_base.specs.declared.tree.Pattern.{Pattern};
ghost use Rattle.elm_base.specs.declared.tree.Pattern.TheVariants as p;
ghost use Rattle.typing_rules.specs.CorePatterns.{CorePattern};
ghost use Rattle.plain_form.specs.Naming.{Naming};
ghost use Rattle.plain_form.specs.PlainForm.{patterns, listed, made_of, label_of, plain_pattern};

/// Brackets are nothing, a list pattern is its elements in front of the empty list, and names are the numbers of their binders.
pub fn patterns_stand_form_by_form()
    ensures anything { (n : Naming) (at : At) → plain_pattern n (p.Anything at)
        ≡ CorePattern.Anything }
    ensures name { (n : Naming) (at : At) (name : List ℕ) → plain_pattern n (p.Variable at name)
        ≡ CorePattern.Local (n.number at) }
    ensures int { (n : Naming) (at : At) (value : ℤ) → plain_pattern n (p.Int at value)
        ≡ CorePattern.Literal (literal.Int value) }
    ensures char { (n : Naming) (at : At) (value : ℕ) → plain_pattern n (p.Char at value)
        ≡ CorePattern.Literal (literal.Char value) }
    ensures text { (n : Naming) (at : At) (value : List ℕ) → plain_pattern n (p.Text at value)
        ≡ CorePattern.Literal (literal.Text value) }
    ensures unit { (n : Naming) (at : At) → plain_pattern n (p.Unit at)
        ≡ CorePattern.Literal literal.Unit }
    ensures made { (n : Naming) (at : At) (constructor : List ℕ) (ps : List Pattern) →
        plain_pattern n (p.Made at constructor ps)
        ≡ made_of n (n.thing at) (map (plain_pattern n) ps) }
    ensures cons { (n : Naming) (at : At) (head tail : Pattern) → plain_pattern n
        (p.Cons at head tail)
        ≡ CorePattern.Cons (plain_pattern n head) (plain_pattern n tail) }
    ensures list { (n : Naming) (at : At) (ps : List Pattern) → plain_pattern n (p.List at ps)
        ≡ listed (map (plain_pattern n) ps) }
    ensures tuple { (n : Naming) (at : At) (ps : List Pattern) → plain_pattern n (p.Tuple at ps)
        ≡ CorePattern.Tuple (patterns (map (plain_pattern n) ps)) }
    ensures labels { (n : Naming) (at : At) (labels : List Spot) → plain_pattern n
        (p.Fields at labels)
        ≡ CorePattern.Fields (map (label_of n) labels) }
    ensures brackets { (n : Naming) (at : At) (inner : Pattern) → plain_pattern n
        (p.Brackets at inner)
        ≡ plain_pattern n inner }
    ensures named { (n : Naming) (at : At) (inner : Pattern) (name : Spot) → plain_pattern n
        (p.Named at inner name)
        ≡ CorePattern.Named (plain_pattern n inner) (n.number name.at) }
{}
