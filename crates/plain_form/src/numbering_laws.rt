//! The binders of each form of tree. The bodies are empty: what is stated holds of the definitions.

ghost use Rattle.std.specs.Prelude.{◌≡◌, ◌<◌, ℕ, List, map};
ghost use Rattle.std.specs.List.{Contains};
ghost use Rattle.elm_base.specs.declared.token.At.{At};
ghost use Rattle.elm_base.specs.declared.tree.Operator.{Operator};
ghost use Rattle.elm_base.specs.declared.tree.Spot.{Spot};
ghost use Rattle.elm_base.specs.declared.tree.Pattern.{Pattern};
ghost use Rattle.elm_base.specs.declared.tree.Pattern.TheVariants as p;
ghost use Rattle.elm_base.specs.declared.tree.Expr.{Expr};
ghost use Rattle.elm_base.specs.declared.tree.Expr.TheVariants as e;
ghost use Rattle.elm_base.specs.declared.tree.Declaration.{Declaration};
ghost use Rattle.elm_base.specs.declared.tree.Declaration.TheVariants as d;
ghost use Rattle.plain_form.specs.Naming.{Naming};
ghost use Rattle.plain_form.specs.Numbering.{Binders, no_binders, one, further, both, all, pattern_binders, use_binders, binders_of, definition_binders, numbered};

/// The binders that stand in an expression, and those that its field functions, tuple makers and makers want.
pub fn binders_stand_in_parts()
    ensures binary { (n : Naming) (at : At) (operator : Operator) (x y : Expr) → binders_of n
        (e.Binary at operator x y)
        ≡ both (binders_of n x) (binders_of n y) }
    ensures negate { (n : Naming) (at : At) (x : Expr) → binders_of n (e.Negate at x)
        ≡ binders_of n x }
    ensures call { (n : Naming) (at : At) (f : Expr) (xs : List Expr) → binders_of n
        (e.Call at f xs)
        ≡ both (binders_of n f) (all (map (binders_of n) xs)) }
    ensures variable { (n : Naming) (at : At) (name : List ℕ) → binders_of n (e.Variable at name)
        ≡ no_binders }
    ensures constructor { (n : Naming) (at : At) (name : List ℕ) → binders_of n
        (e.Constructor at name)
        ≡ use_binders n at (n.thing at) }
    ensures field_function { (n : Naming) (at : At) (label : List ℕ) → binders_of n
        (e.FieldFunction at label)
        ≡ further at 1 }
    ensures access { (n : Naming) (at : At) (x : Expr) (label : List ℕ) → binders_of n
        (e.Access at x label)
        ≡ binders_of n x }
    ensures tuple_maker { (n : Naming) (at : At) (parts : ℕ) → binders_of n
        (e.TupleMaker at parts)
        ≡ further at parts }
    ensures brackets { (n : Naming) (at : At) (x : Expr) → binders_of n (e.Brackets at x)
        ≡ binders_of n x }
    ensures tuple { (n : Naming) (at : At) (xs : List Expr) → binders_of n (e.Tuple at xs)
        ≡ all (map (binders_of n) xs) }
    ensures list { (n : Naming) (at : At) (xs : List Expr) → binders_of n (e.List at xs)
        ≡ all (map (binders_of n) xs) }
    ensures range { (n : Naming) (at : At) (x y : Expr) → binders_of n (e.Range at x y)
        ≡ both (binders_of n x) (binders_of n y) }
    ensures lambda { (n : Naming) (at : At) (ps : List Pattern) (x : Expr) → binders_of n
        (e.Lambda at ps x)
        ≡ both (all (map pattern_binders ps)) (binders_of n x) }
    ensures choice { (n : Naming) (at : At) (x y z : Expr) → binders_of n (e.If at x y z)
        ≡ both (binders_of n x) (both (binders_of n y) (binders_of n z)) }
    ensures guards { (n : Naming) (at : At) (bs : List (Expr × Expr)) → binders_of n
        (e.Guards at bs)
        ≡ all (map (λ b. both (binders_of n b.0) (binders_of n b.1)) bs) }
    ensures block { (n : Naming) (at : At) (ds : List Declaration) (x : Expr) → binders_of n
        (e.Let at ds x)
        ≡ both (all (map (definition_binders n) ds)) (binders_of n x) }
    ensures branches { (n : Naming) (at : At) (x : Expr) (bs : List (Pattern × Expr)) →
        binders_of n (e.Case at x bs)
        ≡ both (binders_of n x) (all (map (λ b. both (pattern_binders b.0)
        (binders_of n b.1)) bs)) }
    ensures definition { (n : Naming) (at : At) (name : List ℕ) (ps : List Pattern) (x : Expr) →
        definition_binders n (d.Definition at name ps x)
        ≡ both (one at) (both (all (map pattern_binders ps)) (binders_of n x)) }
    ensures pattern_definition { (n : Naming) (at : At) (p : Pattern) (x : Expr) →
        definition_binders n (d.PatternDefinition at p x)
        ≡ both (pattern_binders p) (binders_of n x) }
{}

/// The binders of a pattern are its names.
pub fn names_of_patterns_are_binders()
    ensures anything { (at : At) → pattern_binders (p.Anything at) ≡ no_binders }
    ensures name { (at : At) (name : List ℕ) → pattern_binders (p.Variable at name) ≡ one at }
    ensures made { (at : At) (constructor : List ℕ) (ps : List Pattern) → pattern_binders
        (p.Made at constructor ps) ≡ all (map pattern_binders ps) }
    ensures cons { (at : At) (head tail : Pattern) → pattern_binders (p.Cons at head tail)
        ≡ both (pattern_binders head) (pattern_binders tail) }
    ensures list { (at : At) (ps : List Pattern) → pattern_binders (p.List at ps) ≡ all
        (map pattern_binders ps) }
    ensures tuple { (at : At) (ps : List Pattern) → pattern_binders (p.Tuple at ps) ≡ all
        (map pattern_binders ps) }
    ensures labels { (at : At) (labels : List Spot) → pattern_binders (p.Fields at labels) ≡ all
        (map (λ label. one label.at) labels) }
    ensures brackets { (at : At) (inner : Pattern) → pattern_binders (p.Brackets at inner)
        ≡ pattern_binders inner }
    ensures named { (at : At) (inner : Pattern) (name : Spot) → pattern_binders
        (p.Named at inner name) ≡ both (pattern_binders inner) (one name.at) }
{}

/// Different binders have different numbers. So have those that forms want of their own, which come behind all others.
pub fn different_binders_have_different_numbers()
    ensures binders { (n : Naming) (b : Binders) (x y : At) → Contains b.places x → Contains
        b.places y → (numbered n b).number x ≡ (numbered n b).number y → x ≡ y }
    ensures further { (n : Naming) (b : Binders) (x y : At) (i j k m : ℕ) → Contains b.own (x, k)
        → Contains b.own (y, m) → i < k → j < m →
        (numbered n b).own x i ≡ (numbered n b).own y j → (x ≡ y) × (i ≡ j) }
    ensures behind { (n : Naming) (b : Binders) (x y : At) (i : ℕ) → Contains b.places x →
        (numbered n b).number x < (numbered n b).own y i }
{}
