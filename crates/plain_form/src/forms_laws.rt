//! The plain form of the other forms of expression. The bodies are empty: what is stated holds of the definitions.

ghost use Rattle.std.specs.Prelude.{◌≡◌, ℕ, ℤ, List, map};
ghost use Rattle.elm_base.specs.declared.term.Literal.TheVariants as literal;
ghost use Rattle.elm_base.specs.declared.token.At.{At};
ghost use Rattle.elm_base.specs.declared.tree.TypeTree.{TypeTree};
ghost use Rattle.elm_base.specs.declared.tree.Pattern.{Pattern};
ghost use Rattle.elm_base.specs.declared.tree.Set.{Set};
ghost use Rattle.elm_base.specs.declared.tree.Expr.{Expr};
ghost use Rattle.elm_base.specs.declared.tree.Expr.TheVariants as e;
ghost use Rattle.elm_base.specs.declared.tree.Declaration.{Declaration};
ghost use Rattle.elm_base.specs.declared.tree.Declaration.TheVariants as d;
ghost use Rattle.typing_rules.specs.Core.{Literal, If, Guards, Case, Tuple, ListOf, Range, Fields, Update, Extend, Remove, Field};
ghost use Rattle.plain_form.specs.Naming.{Naming};
ghost use Rattle.plain_form.specs.PlainForm.{cores, fields, guards, branches, plain_pattern, with_fields, Annotated, Apart, groups_before, plain, plain_definition, plain_set};

/// Brackets are nothing, and the other forms are those of their parts.
pub fn other_forms_keep_their_parts()
    ensures brackets { (n : Naming) (at : At) (x : Expr) → plain n (e.Brackets at x)
        ≡ plain n x }
    ensures int { (n : Naming) (at : At) (value : ℤ) → plain n (e.Int at value)
        ≡ Literal (literal.Int value) }
    ensures char { (n : Naming) (at : At) (value : ℕ) → plain n (e.Char at value)
        ≡ Literal (literal.Char value) }
    ensures text { (n : Naming) (at : At) (value : List ℕ) → plain n (e.Text at value)
        ≡ Literal (literal.Text value) }
    ensures unit { (n : Naming) (at : At) → plain n (e.Unit at)
        ≡ Literal literal.Unit }
    ensures tuple { (n : Naming) (at : At) (xs : List Expr) → plain n (e.Tuple at xs)
        ≡ Tuple (cores (map (plain n) xs)) }
    ensures list { (n : Naming) (at : At) (xs : List Expr) → plain n (e.List at xs)
        ≡ ListOf (cores (map (plain n) xs)) }
    ensures range { (n : Naming) (at : At) (x y : Expr) → plain n (e.Range at x y)
        ≡ Range (plain n x) (plain n y) }
    ensures access { (n : Naming) (at : At) (x : Expr) (label : List ℕ) → plain n
        (e.Access at x label)
        ≡ Field (plain n x) label }
    ensures choice { (n : Naming) (at : At) (x y z : Expr) → plain n (e.If at x y z)
        ≡ If (plain n x) (plain n y) (plain n z) }
    ensures guards { (n : Naming) (at : At) (bs : List (Expr × Expr)) → plain n (e.Guards at bs)
        ≡ Guards (guards (map (λ b. (plain n b.0, plain n b.1)) bs)) }
    ensures branches { (n : Naming) (at : At) (x : Expr) (bs : List (Pattern × Expr)) → plain n
        (e.Case at x bs)
        ≡ Case (plain n x) (branches (map (λ b. (plain_pattern n b.0, plain n b.1)) bs)) }
{}

/// Fields that stand behind a label taken away are put in front of what is left.
pub fn records_keep_their_fields()
    ensures fields { (n : Naming) (at : At) (sets : List Set) → plain n (e.Fields at sets)
        ≡ Fields (fields (map (plain_set n) sets)) }
    ensures extend { (n : Naming) (at : At) (x : Expr) (sets : List Set) → plain n
        (e.Extend at x sets)
        ≡ Extend (plain n x) (fields (map (plain_set n) sets)) }
    ensures update { (n : Naming) (at : At) (x : Expr) (sets : List Set) → plain n
        (e.Update at x sets)
        ≡ Update (plain n x) (fields (map (plain_set n) sets)) }
    ensures remove { (n : Naming) (at : At) (x : Expr) (label : List ℕ) (sets : List Set) →
        plain n (e.Remove at x label sets)
        ≡ with_fields (Remove (plain n x) label) (map (plain_set n) sets) }
{}

/// A `let` is its groups in order. A definition has its annotation, if there is one.
pub fn blocks_are_their_groups_in_order()
    ensures block { (n : Naming) (at : At) (ds : List Declaration) (x : Expr) → plain n
        (e.Let at ds x)
        ≡ groups_before n (n.groups at) (map (plain_definition n) ds) (plain n x) }
    ensures annotation { (n : Naming) (at : At) (name : List ℕ) (written : TypeTree) →
        plain_definition n (d.Annotation at name written)
        ≡ Annotated name (n.written written) }
    ensures pattern_definition { (n : Naming) (at : At) (p : Pattern) (x : Expr) →
        plain_definition n (d.PatternDefinition at p x)
        ≡ Apart at (plain_pattern n p) (plain n x) }
{}
