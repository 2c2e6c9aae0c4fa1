//! Whether a skeleton clashes with a pattern.
ghost use Rattle.std.specs.Prelude.{◌≡◌, map};
ghost use Rattle.case_check.specs.Missing as spec;
ghost use Rattle.case_check.specs.Trees.{shape_of, shapes_of, wanted_of, wanteds_of};

use crate::form::Form;
use crate::skeleton::Skeleton;

/// Whether the pattern asks at some place for another constructor or literal than the skeleton has there.
#[cycle(clash)]
pub(crate) fn clashes(skeleton: &Skeleton, form: &Form) -> bool
    ensures { result ≡ spec.clashes (shape_of skeleton.now) (wanted_of form.now) }
{
    match (skeleton, form) {
        (
            Skeleton::Made { constructor, parts },
            Form::Made {
                constructor: wanted,
                parts: asked,
                ..
            },
        ) => {
            constructor.bytes() != wanted.bytes() || clash_at(parts.as_slice(), asked.as_slice())
        }
        (Skeleton::OtherLiteral, Form::Literal) => true,
        _ => false,
    }
}

#[cycle(clash)]
fn clash_at(skeletons: &[Skeleton], forms: &[Form]) -> bool
    ensures { result ≡ spec.clash_at (shapes_of skeletons.now) (wanteds_of forms.now) }
{
    match (skeletons, forms) {
        ([skeleton, skeletons @ ..], [form, forms @ ..]) => {
            clashes(skeleton, form) || clash_at(skeletons, forms)
        }
        _ => false,
    }
}
