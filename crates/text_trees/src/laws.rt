//! A text spells at most one tree of each kind; worked cases.
ghost use Rattle.std.specs.Prelude.{◌≡◌, ℕ, List, [], ◌∷◌, codes};
ghost use Rattle.elm_base.specs.declared.tree.TypeTree.{TypeTree};
ghost use Rattle.elm_base.specs.declared.tree.TypeTree.TheVariants as t;
ghost use Rattle.elm_base.specs.declared.tree.Pattern.{Pattern};
ghost use Rattle.elm_base.specs.declared.tree.Pattern.TheVariants as p;
ghost use Rattle.elm_base.specs.declared.tree.Expr.{Expr};
ghost use Rattle.elm_base.specs.declared.tree.Expr.TheVariants as e;
ghost use Rattle.text_trees.specs.Spells.{SpellsType, SpellsPattern, SpellsExpr, first_line};

/// A text spells at most one type, at most one pattern and at most one expression.
pub fn one_tree()
    ensures one_type { (text : List ℕ) (x y : TypeTree) → SpellsType text x → SpellsType text y → x ≡ y }
    ensures one_pattern { (text : List ℕ) (x y : Pattern) → SpellsPattern text x → SpellsPattern text y → x ≡ y }
    ensures one_expr { (text : List ℕ) (x y : Expr) → SpellsExpr text x → SpellsExpr text y → x ≡ y }
{}

/// Worked texts: a type, a pattern and two expressions, with the places of their parts. A point directly behind a name reads
/// a field of it; behind white space it begins a function that reads one.
pub fn worked_texts()
    ensures arrow { SpellsType (codes "a -> b")
        (t.Arrow (first_line 1) (t.Variable (first_line 1) (codes "a")) (t.Variable (first_line 6) (codes "b"))) }
    ensures cons { SpellsPattern (codes "x :: y")
        (p.Cons (first_line 1) (p.Variable (first_line 1) (codes "x")) (p.Variable (first_line 6) (codes "y"))) }
    ensures access { SpellsExpr (codes "f.x")
        (e.Access (first_line 1) (e.Variable (first_line 1) (codes "f")) (codes "x")) }
    ensures argument { SpellsExpr (codes "f .x")
        (e.Call (first_line 1) (e.Variable (first_line 1) (codes "f"))
        (e.FieldFunction (first_line 3) (codes "x") ∷ [])) }
{}
