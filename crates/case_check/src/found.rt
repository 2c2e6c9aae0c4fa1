//! A case that is missing.
ghost use Rattle.std.specs.Prelude.{◌≡◌, Ok, Some, None, map};
ghost use Rattle.case_check.specs.Asked.{asked};
ghost use Rattle.case_check.specs.Missing.{IsMissing};
ghost use Rattle.case_check.specs.Shapes.{Shape};
ghost use Rattle.case_check.specs.Trees.{shape_of};
ghost use Rattle.case_check.specs.declared.skeleton.Skeleton.{Skeleton as SkeletonOf};

use crate::asked::forms_of;
use crate::search::missing_of;
use crate::skeleton::Skeleton;
use elm_base::{Name, NoMemory, Pattern, Typed};
use std::alloc::Global;

/// A value form that clashes with each of these patterns of the module, or `None`, exactly where there is none.
#[tactic(auto, using(crate::proofs::Exact::found_is_missing, crate::proofs::Exact::none_is_missing))]
pub fn missing(
    alloc: Global,
    typed: &Typed,
    module: &Name,
    patterns: &[Pattern],
) -> Result<Option<Skeleton>, NoMemory>
    ensures found { (s : SkeletonOf) → result ≡ Ok (Some s) →
        IsMissing (shape_of s) (map (asked typed.now «module».now) patterns.now) }
    ensures nothing { (s : Shape) → result ≡ Ok None →
        IsMissing s (map (asked typed.now «module».now) patterns.now) → ⊥ }
{
    let forms = forms_of(alloc, typed, module, patterns)?;
    missing_of(alloc, forms.as_slice())
}
