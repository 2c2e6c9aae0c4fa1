//! Whether the constructors of a skeleton are of the unions that stand in a pattern.
ghost use Rattle.std.specs.Prelude.{◌≡◌, map};
ghost use Rattle.case_check.specs.Shapes.{count};
ghost use Rattle.case_check.specs.Missing as spec;
ghost use Rattle.case_check.specs.Search.{belongs_to_all};
ghost use Rattle.case_check.specs.Trees.{shape_of, shapes_of, wanted_of, wanteds_of};

use crate::form::Form;
use crate::skeleton::Skeleton;
use elm_base::Name;

fn is_choice(name: &Name, takes: usize, union: &[(Name, usize)]) -> bool
    ensures { result ≡ spec.is_choice name.now takes union.now }
{
    match union {
        [] => false,
        [choice, more @ ..] => {
            (choice.0.bytes() == name.bytes() && choice.1 == takes) || is_choice(name, takes, more)
        }
    }
}

/// Whether this constructor with these arguments is one of the union.
#[tactic(auto, using(crate::proofs::Counting::count_shapes))]
fn is_made(name: &Name, parts: &[Skeleton], union: &[(Name, usize)]) -> bool
    ensures { result ≡ spec.is_choice name.now (count (shapes_of parts.now)) union.now }
{
    is_choice(name, parts.len(), union)
}

/// Whether the skeleton's constructor is of the pattern's union wherever both have one.
#[cycle(belong)]
fn belongs(skeleton: &Skeleton, form: &Form) -> bool
    ensures { result ≡ spec.belongs (shape_of skeleton.now) (wanted_of form.now) }
{
    match (skeleton, form) {
        (
            Skeleton::Made { constructor, parts },
            Form::Made {
                union,
                constructor: wanted,
                parts: asked,
            },
        ) => {
            is_made(constructor, parts.as_slice(), union.as_slice())
                && (constructor.bytes() != wanted.bytes()
                    || belong_at(parts.as_slice(), asked.as_slice()))
        }
        _ => true,
    }
}

#[cycle(belong)]
fn belong_at(skeletons: &[Skeleton], forms: &[Form]) -> bool
    ensures { result ≡ spec.belong_at (shapes_of skeletons.now) (wanteds_of forms.now) }
{
    match (skeletons, forms) {
        ([skeleton, skeletons @ ..], [form, forms @ ..]) => {
            belongs(skeleton, form) && belong_at(skeletons, forms)
        }
        _ => true,
    }
}

/// Whether that holds of each pattern.
pub(crate) fn belongs_everywhere(skeleton: &Skeleton, forms: &[Form]) -> bool
    ensures { result ≡ belongs_to_all (shape_of skeleton.now) (map wanted_of forms.now) }
{
    match forms {
        [] => true,
        [form, more @ ..] => belongs(skeleton, form) && belongs_everywhere(skeleton, more),
    }
}
