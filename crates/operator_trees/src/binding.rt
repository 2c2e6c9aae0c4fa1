//! The level and side of one operator, and how two of them stand to each other.
ghost use Rattle.std.specs.Prelude.{◌≡◌};
ghost use Rattle.operator_trees.specs.Roots as spec;

use elm_base::Side;

/// How tightly an operator binds, from 0 to 9, and to which side it groups with others of its level.
#[derive(Clone, Copy, Debug, PartialEq, Eq)]
pub struct Binding {
    pub level: u32,
    pub side: Side,
}

/// Which of two operators stands below the other in the tree of a chain.
#[derive(Clone, Copy, PartialEq, Eq)]
pub enum Below {
    First,
    Second,
    /// No tree has both.
    Neither,
}

/// Of equal levels.
fn grouped(first: Side, second: Side) -> Below
    ensures { result ≡ spec.grouped first second }
{
    match (first, second) {
        (Side::Left, Side::Left) => Below::First,
        (Side::Right, Side::Right) => Below::Second,
        _ => Below::Neither,
    }
}

impl Binding {
    /// Which of the two stands below the other, where the second stands behind this one.
    pub fn which_below(self, second: Binding) -> Below
        ensures { result ≡ spec.which_below self second }
    {
        if self.level < second.level {
            Below::Second
        } else if second.level < self.level {
            Below::First
        } else {
            grouped(self.side, second.side)
        }
    }
}
