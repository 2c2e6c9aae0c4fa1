//! The forms of values.
ghost use Rattle.std.specs.Prelude.{◌≡◌, ◌∷◌, [], IfOk};
ghost use Rattle.case_check.specs.Shapes.{holes};
ghost use Rattle.case_check.specs.Trees.{shapes_of};

use elm_base::{Name, NoMemory};
use sqlite_items::Items;
use std::alloc::Global;

/// The form of a value.
#[derive(Drop)]
pub enum Skeleton {
    /// Any value of its type, even of a type without values.
    Hole,
    /// Another literal than any that is written.
    OtherLiteral,
    /// A constructor with its arguments. Tuples and `()` are `()` with their parts, lists are `[]` and `::`.
    Made {
        constructor: Name,
        parts: Items<Skeleton>,
    },
}

#[cycle(copy)]
pub(crate) fn copies(alloc: Global, skeletons: &[Skeleton]) -> Result<Items<Skeleton>, NoMemory>
    ensures { IfOk result (λ copied. copied ≡ skeletons.now) }
{
    let mut copied = Items::new(alloc);
    for skeleton in skeletons {
        copied.push(skeleton.copy(alloc)?)?;
    }
    Ok(copied)
}

impl Skeleton {
    /// An equal skeleton of its own.
    #[cycle(copy)]
    pub fn copy(&self, alloc: Global) -> Result<Skeleton, NoMemory>
        ensures { IfOk result (λ copied. copied ≡ self.now) }
    {
        match self {
            Skeleton::Hole => Ok(Skeleton::Hole),
            Skeleton::OtherLiteral => Ok(Skeleton::OtherLiteral),
            Skeleton::Made { constructor, parts } => {
                let constructor = constructor.copy(alloc)?;
                let parts = copies(alloc, parts.as_slice())?;
                Ok(Skeleton::Made { constructor, parts })
            }
        }
    }
}

/// So many holes.
pub(crate) fn some_holes(alloc: Global, count: usize) -> Result<Items<Skeleton>, NoMemory>
    ensures { IfOk result (λ made. shapes_of made ≡ holes count) }
{
    let mut made = Items::new(alloc);
    for number in 0..count {
        made = in_front(alloc, &Skeleton::Hole, made.as_slice())?;
    }
    Ok(made)
}

/// A list of this one skeleton.
pub(crate) fn one(alloc: Global, skeleton: Skeleton) -> Result<Items<Skeleton>, NoMemory>
    ensures { IfOk result (λ made. made ≡ skeleton ∷ []) }
{
    let mut made = Items::new(alloc);
    made.push(skeleton)?;
    Ok(made)
}

/// The skeleton in front of the others.
pub(crate) fn in_front(
    alloc: Global,
    first: &Skeleton,
    others: &[Skeleton],
) -> Result<Items<Skeleton>, NoMemory>
    ensures { IfOk result (λ made. made ≡ first.now ∷ others.now) }
{
    let mut made = one(alloc, first.copy(alloc)?)?;
    for other in others {
        made.push(other.copy(alloc)?)?;
    }
    Ok(made)
}
