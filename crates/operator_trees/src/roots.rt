//! The root of a chain.
ghost use Rattle.std.specs.Prelude.{◌≡◌};
ghost use Rattle.operator_trees.specs.Levels.{binding_of};
ghost use Rattle.operator_trees.specs.Roots as spec;

use crate::binding::{Below, Binding};
use crate::levels::Levels;
use elm_base::Operator;

/// With the root so far, and the number of operators from it on: that number for the root of all, where there is one.
fn rooted(levels: &Levels, root: Binding, left: usize, behind: &[Operator]) -> Option<usize>
    ensures { result ≡ spec.rooted (λ o. binding_of levels.now.declared o.name) root left behind.now }
{
    match behind {
        [] => Some(left),
        [next, rest @ ..] => {
            let binding = levels.binding(next.name.bytes());
            match root.which_below(binding) {
                Below::Second => rooted(levels, root, left, rest),
                Below::First => rooted(levels, binding, behind.len(), rest),
                Below::Neither => None,
            }
        }
    }
}

/// The number of operators from the root on; none where operators clash.
pub fn root(levels: &Levels, operators: &[Operator]) -> Option<usize>
    ensures { result ≡ spec.root (λ o. binding_of levels.now.declared o.name) operators.now }
{
    match operators {
        [] => None,
        [first, others @ ..] => {
            let binding = levels.binding(first.name.bytes());
            rooted(levels, binding, operators.len(), others)
        }
    }
}
