//! Laws of the definitions. The bodies are empty: what is stated holds of the definitions alone.

ghost use Rattle.std.specs.Prelude.{◌≡◌, List, ℕ};
ghost use Rattle.elm_typing.specs.declared.flag.Flag.TheVariants.{Plain};
ghost use Rattle.elm_typing.specs.Ordered.{InOrder};
ghost use Rattle.type_terms.specs.declared.node.Node.{Node};
ghost use Rattle.type_terms.specs.declared.node.Node.TheVariants.{End};
ghost use Rattle.type_terms.specs.declared.shape.Shape.TheVariants as shape;
ghost use Rattle.type_terms.specs.Terms.{IsRest, node_at};
ghost use Rattle.type_terms.specs.Solutions.{AllowsChoice, Assignment, IsAsChosen, IsSolvable, MayBeRest, Solves};
ghost use Rattle.type_terms.specs.Depth.{IsSound};

/// A store has a solution where each rest of a row is a row, or a variable or opaque type without flag.
pub fn well_formed_rows_have_a_solution()
    ensures { (nodes : List Node) (bound : ℕ) → IsSound nodes bound
        → ((i : ℕ) → IsRest nodes i → MayBeRest (node_at nodes i)) → IsSolvable nodes }
{}

/// An unflagged variable that is no rest of a row may have any type, whatever the others have.
pub fn unflagged_variables_are_free()
    ensures { (nodes : List Node) (bound : ℕ) (one choice : Assignment) → IsSound nodes bound → Solves nodes one
        → ((i : ℕ) → InOrder (choice i)) → (s : Assignment) × Solves nodes s
        × ((i : ℕ) → node_at nodes i ≡ End (shape.Variable Plain) → (IsRest nodes i → ⊥) → s i ≡ choice i) }
{}

/// Each variable of a store that has a solution may be given any type with its flag, and one that is the rest of a row
/// any record, whatever the other variables are given.
pub fn variables_may_be_chosen()
    ensures { (nodes : List Node) (bound : ℕ) (one choice : Assignment) → IsSound nodes bound → Solves nodes one
        → ((i : ℕ) → InOrder (choice i)) → ((i : ℕ) → AllowsChoice nodes i (choice i) (node_at nodes i))
        → (s : Assignment) × Solves nodes s
        × ((i : ℕ) → IsAsChosen (one i) (choice i) (s i) (node_at nodes i)) }
{}
