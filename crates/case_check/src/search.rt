//! The search for a missing case, pattern by pattern.
ghost use Rattle.std.specs.Prelude.{◌≡◌, ◌++◌, ◌∷◌, [], IfOk, OnOk, map};
ghost use Rattle.case_check.specs.Shapes.{Hole};
ghost use Rattle.case_check.specs.Search as spec;
ghost use Rattle.case_check.specs.Trees.{option_shape, shape_of, wanted_of};

use crate::belong::belongs_everywhere;
use crate::clash::clashes;
use crate::fill::push_filled;
use crate::form::Form;
use crate::skeleton::{Skeleton, one};
use elm_base::NoMemory;
use sqlite_items::Items;
use std::alloc::Global;

/// Appends the skeleton as it is where it clashes, or else filled in so that it does.
fn push_split(
    alloc: Global,
    skeleton: &Skeleton,
    form: &Form,
    out: &mut Items<Skeleton>,
) -> Result<(), NoMemory>
    ensures { OnOk result (map shape_of out.new ≡ map shape_of out.old
        ++ spec.split (shape_of skeleton.now) (wanted_of form.now)) }
{
    if clashes(skeleton, form) {
        out.push(skeleton.copy(alloc)?)?;
        Ok(())
    } else {
        push_filled(alloc, skeleton, form, out)
    }
}

fn split_all(
    alloc: Global,
    skeletons: &[Skeleton],
    form: &Form,
) -> Result<Items<Skeleton>, NoMemory>
    ensures { IfOk result (λ found. map shape_of found
        ≡ spec.split_all (map shape_of skeletons.now) (wanted_of form.now)) }
{
    let mut found = Items::new(alloc);
    for skeleton in skeletons {
        push_split(alloc, skeleton, form, &mut found)?;
    }
    Ok(found)
}

/// What is left of a hole after the patterns.
fn left_after(alloc: Global, forms: &[Form]) -> Result<Items<Skeleton>, NoMemory>
    ensures { IfOk result (λ found. map shape_of found
        ≡ spec.left_after (Hole ∷ []) (map wanted_of forms.now)) }
{
    let mut left = one(alloc, Skeleton::Hole)?;
    let mut rest = forms;
    while let [form, more @ ..] = rest {
        left = split_all(alloc, left.as_slice(), form)?;
        rest = more;
    }
    Ok(left)
}

/// The first whose constructors are of the patterns' unions.
fn first_of(
    alloc: Global,
    forms: &[Form],
    skeletons: &[Skeleton],
) -> Result<Option<Skeleton>, NoMemory>
    ensures { IfOk result (λ found. option_shape found
        ≡ spec.first_of (map wanted_of forms.now) (map shape_of skeletons.now)) }
{
    let mut rest = skeletons;
    while let [skeleton, more @ ..] = rest {
        if belongs_everywhere(skeleton, forms) {
            return Ok(Some(skeleton.copy(alloc)?));
        }
        rest = more;
    }
    Ok(None)
}

/// A skeleton that is missing in patterns of these forms.
pub(crate) fn missing_of(alloc: Global, forms: &[Form]) -> Result<Option<Skeleton>, NoMemory>
    ensures { IfOk result (λ found. option_shape found ≡ spec.missing_of (map wanted_of forms.now)) }
{
    let left = left_after(alloc, forms)?;
    first_of(alloc, forms, left.as_slice())
}
