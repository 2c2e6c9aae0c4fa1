//! Laws of the definitions. The bodies are empty: what is stated holds of the definitions alone.

ghost use Rattle.std.specs.Prelude.{List, ℕ};
ghost use Rattle.elm_typing.specs.Sorts.{Sort};
ghost use Rattle.type_terms.specs.declared.node.Node.{Node};
ghost use Rattle.type_terms.specs.Solutions.{Assignment, Solves};
ghost use Rattle.type_terms.specs.Depth.{IsSound};
ghost use Rattle.well_sorted.specs.Asking.{SortsVariables};

/// Each solution can be changed into one in which the types of variables are well sorted and each term has the sort that
/// it had, so that the same notes are met.
pub fn variables_can_be_sorted()
    ensures { (nodes : List Node) (bound : ℕ) (chosen : ℕ → Sort) (s : Assignment)
        → IsSound nodes bound → Solves nodes s → (r : Assignment) × SortsVariables nodes chosen s r }
{}
