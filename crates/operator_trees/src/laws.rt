//! Laws of the trees of chains.
ghost use Rattle.std.specs.Prelude.{◌≡◌, ◌↔◌, suc, List, length};
ghost use Rattle.elm_base.specs.declared.tree.Operator.{Operator};
ghost use Rattle.elm_base.specs.declared.tree.Expr.{Expr};
ghost use Rattle.operator_trees.specs.Binds.{HasClash};
ghost use Rattle.operator_trees.specs.Chains.{binds};
ghost use Rattle.operator_trees.specs.Levels.{Declared};
ghost use Rattle.operator_trees.specs.Trees.{OperatorTree, IsTreeOf, HasNoTree};

/// A chain has at most one tree.
pub fn one_tree()
    ensures { (declared : Declared) (es : List Expr) (os : List Operator) (s t : OperatorTree Operator Expr)
        → IsTreeOf (binds declared) es os s → IsTreeOf (binds declared) es os t → s ≡ t }
{}

/// A chain has none exactly where two of its operators have one level, only higher levels between them, and differ in side
/// or group to none.
pub fn no_tree_where_operators_clash()
    ensures { (declared : Declared) (es : List Expr) (os : List Operator) → length es ≡ suc (length os)
        → HasNoTree (binds declared) es os ↔ HasClash (binds declared) os }
{}
