//! Laws of what a chain is fixed to.
ghost use Rattle.std.specs.Prelude.{◌≡◌, ◌↔◌, ◌||◌, ℕ, ℤ, true, false, List, length, map, None};
ghost use Rattle.elm_base.specs.declared.token.At.{At};
ghost use Rattle.elm_base.specs.declared.tree.Operator.{Operator};
ghost use Rattle.elm_base.specs.declared.tree.Declaration.{Declaration};
ghost use Rattle.elm_base.specs.declared.tree.Declaration.TheVariants as d;
ghost use Rattle.elm_base.specs.declared.tree.Expr.{Expr};
ghost use Rattle.elm_base.specs.declared.tree.Expr.TheVariants as e;
ghost use Rattle.elm_base.specs.declared.tree.Pattern.{Pattern};
ghost use Rattle.operator_trees.specs.Chains.{binds, expr_of, Stands};
ghost use Rattle.operator_trees.specs.Levels.{Declared};
ghost use Rattle.operator_trees.specs.Trees.{OperatorTree, IsTreeOf, HasNoTree};
ghost use Rattle.elm_base.specs.declared.project.Project.{Project};
ghost use Rattle.level_fixer.specs.ChainFree.{declaration_has_chain, expr_has_chain, has_chain};
ghost use Rattle.level_fixer.specs.Clashes.{any, has_no_tree};
ghost use Rattle.level_fixer.specs.FixedTrees.{fixed_project, of_chain};
ghost use Rattle.level_fixer.specs.ProjectLevels.{project_fault};

/// A chain has no tree exactly where the test says so.
pub fn a_chain_without_a_tree()
    ensures { (declared : Declared) (es : List Expr) (os : List Operator)
        → (has_no_tree declared (length es) os ≡ true) ↔ HasNoTree (binds declared) es os }
{}

/// A chain that has a tree is fixed to the expression of a tree of the chain.
pub fn a_chain_stands_for_its_tree()
    ensures { (declared : Declared) (at : At) (es : List Expr) (os : List Operator)
        → has_no_tree declared (length es) os ≡ false
        → Stands declared es os (of_chain declared at es os) }
{}

/// Each tree of a chain is the one that it is fixed to.
pub fn a_chain_has_no_other_tree()
    ensures { (declared : Declared) (at : At) (es : List Expr) (os : List Operator)
        (tree : OperatorTree Operator Expr) → IsTreeOf (binds declared) es os tree
        → of_chain declared at es os ≡ expr_of tree }
{}

/// A chain is one whatever stands in it, and other forms have those of their parts.
pub fn chains_are_seen()
    ensures chain { (at : At) (es : List Expr) (os : List Operator)
        → expr_has_chain (e.Chain at es os) ≡ true }
    ensures inside { (at : At) (ds : List Declaration) (body : Expr)
        → expr_has_chain (e.Let at ds body)
        ≡ (any (map declaration_has_chain ds) || expr_has_chain body) }
    ensures body { (at : At) (name : List ℕ) (patterns : List Pattern) (body : Expr)
        → declaration_has_chain (d.Definition at name patterns body) ≡ expr_has_chain body }
    ensures none { (at : At) (value : ℤ) → expr_has_chain (e.Int at value) ≡ false }
{}

/// No chain is left of a project without a fault.
pub fn no_chain_is_left()
    ensures { (project : Project) → project_fault project ≡ None
        → has_chain (fixed_project project) ≡ false }
{}
