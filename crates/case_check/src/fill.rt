//! Skeletons that are filled in at one place so that they clash with a pattern.
ghost use Rattle.std.specs.Prelude.{◌≡◌, ◌++◌, IfOk, OnOk, map};
ghost use Rattle.case_check.specs.Shapes.{AndShape, AndWanted, Shape};
ghost use Rattle.case_check.specs.Search as spec;
ghost use Rattle.case_check.specs.Trees.{filler, shape_of, shapes_of, wanted_of, wanteds_of};

use crate::form::Form;
use crate::skeleton::{Skeleton, copies, in_front, one, some_holes};
use elm_base::{Name, NoMemory};
use sqlite_items::Items;
use std::alloc::Global;

/// Appends the constructor with each of these lists of arguments.
fn push_made(
    alloc: Global,
    name: &Name,
    lists: &[Items<Skeleton>],
    out: &mut Items<Skeleton>,
) -> Result<(), NoMemory>
    ensures { OnOk result (map shape_of out.new ≡ map shape_of out.old
        ++ map (Shape.Made name.now) (map shapes_of lists.now)) }
{
    for list in lists {
        let constructor = name.copy(alloc)?;
        let parts = copies(alloc, list.as_slice())?;
        out.push(Skeleton::Made { constructor, parts })?;
    }
    Ok(())
}

/// Appends each of these in front of the others.
fn push_before(
    alloc: Global,
    firsts: &[Skeleton],
    others: &[Skeleton],
    out: &mut Items<Items<Skeleton>>,
) -> Result<(), NoMemory>
    ensures { OnOk result (map shapes_of out.new ≡ map shapes_of out.old
        ++ map (λ z. AndShape z (shapes_of others.now)) (map shape_of firsts.now)) }
{
    for first in firsts {
        out.push(in_front(alloc, first, others)?)?;
    }
    Ok(())
}

/// Appends this one in front of each of these.
fn push_behind(
    alloc: Global,
    first: &Skeleton,
    lists: &[Items<Skeleton>],
    out: &mut Items<Items<Skeleton>>,
) -> Result<(), NoMemory>
    ensures { OnOk result (map shapes_of out.new ≡ map shapes_of out.old
        ++ map (AndShape (shape_of first.now)) (map shapes_of lists.now)) }
{
    for list in lists {
        out.push(in_front(alloc, first, list.as_slice())?)?;
    }
    Ok(())
}

/// Each of the firsts in front of the others, and the skeleton in front of each of the lists.
fn all_filled(
    alloc: Global,
    skeleton: &Skeleton,
    others: &[Skeleton],
    firsts: &[Skeleton],
    lists: &[Items<Skeleton>],
) -> Result<Items<Items<Skeleton>>, NoMemory>
    ensures { IfOk result (λ found. map shapes_of found
        ≡ map (λ z. AndShape z (shapes_of others.now)) (map shape_of firsts.now)
        ++ map (AndShape (shape_of skeleton.now)) (map shapes_of lists.now)) }
{
    let mut found = Items::new(alloc);
    push_before(alloc, firsts, others, &mut found)?;
    push_behind(alloc, skeleton, lists, &mut found)?;
    Ok(found)
}

/// Appends the skeleton filled in at one place, in all ways in which it then clashes with the pattern.
#[cycle(fill)]
pub(crate) fn push_filled(
    alloc: Global,
    skeleton: &Skeleton,
    form: &Form,
    out: &mut Items<Skeleton>,
) -> Result<(), NoMemory>
    ensures { OnOk result (map shape_of out.new ≡ map shape_of out.old
        ++ spec.filled (shape_of skeleton.now) (wanted_of form.now)) }
{
    match (skeleton, form) {
        (
            Skeleton::Made { constructor, parts },
            Form::Made {
                constructor: wanted,
                parts: asked,
                ..
            },
        ) => push_filled_made(
            alloc,
            constructor,
            parts.as_slice(),
            wanted,
            asked.as_slice(),
            out,
        ),
        (
            Skeleton::Hole,
            Form::Made {
                union,
                constructor: wanted,
                parts: asked,
            },
        ) => push_filled_choices(alloc, union.as_slice(), wanted, asked.as_slice(), out),
        (Skeleton::Hole, Form::Literal) | (Skeleton::OtherLiteral, Form::Literal) => {
            out.push(Skeleton::OtherLiteral)?;
            Ok(())
        }
        _ => Ok(()),
    }
}

#[cycle(fill)]
fn push_filled_choices(
    alloc: Global,
    union: &[(Name, usize)],
    wanted: &Name,
    asked: &[Form],
    out: &mut Items<Skeleton>,
) -> Result<(), NoMemory>
    ensures { OnOk result (map shape_of out.new ≡ map shape_of out.old
        ++ spec.filled_choices union.now wanted.now (filler asked.now)) }
{
    match union {
        [] => Ok(()),
        [choice, more @ ..] => {
            push_filled_choice(alloc, choice, wanted, asked, out)?;
            push_filled_choices(alloc, more, wanted, asked, out)
        }
    }
}

/// The constructor with holes as its arguments, filled in.
#[cycle(fill)]
fn push_filled_choice(
    alloc: Global,
    choice: &(Name, usize),
    wanted: &Name,
    asked: &[Form],
    out: &mut Items<Skeleton>,
) -> Result<(), NoMemory>
    ensures { OnOk result (map shape_of out.new ≡ map shape_of out.old
        ++ spec.filled_choice choice.now wanted.now (filler asked.now)) }
{
    let holes = some_holes(alloc, choice.1)?;
    push_filled_made(alloc, &choice.0, holes.as_slice(), wanted, asked, out)
}

/// Where another constructor is asked for, it clashes as it is.
#[cycle(fill)]
fn push_filled_made(
    alloc: Global,
    name: &Name,
    skeletons: &[Skeleton],
    wanted: &Name,
    asked: &[Form],
    out: &mut Items<Skeleton>,
) -> Result<(), NoMemory>
    ensures { OnOk result (map shape_of out.new ≡ map shape_of out.old
        ++ spec.filled_made name.now (shapes_of skeletons.now) wanted.now (filler asked.now)) }
{
    if name.bytes() == wanted.bytes() {
        let lists = filled_at(alloc, skeletons, asked)?;
        push_made(alloc, name, lists.as_slice(), out)
    } else {
        let constructor = name.copy(alloc)?;
        let parts = copies(alloc, skeletons)?;
        out.push(Skeleton::Made { constructor, parts })?;
        Ok(())
    }
}

/// The arguments of a constructor, filled in at one place.
#[cycle(fill)]
fn filled_at(
    alloc: Global,
    skeletons: &[Skeleton],
    forms: &[Form],
) -> Result<Items<Items<Skeleton>>, NoMemory>
    ensures { IfOk result (λ found. map shapes_of found
        ≡ spec.filled_at (shapes_of skeletons.now) (wanteds_of forms.now)) }
{
    match (skeletons, forms) {
        ([skeleton, others @ ..], [form, more @ ..]) => {
            filled_first(alloc, skeleton, others, form, more)
        }
        _ => Ok(Items::new(alloc)),
    }
}

/// The first of them, or another one.
#[cycle(fill)]
fn filled_first(
    alloc: Global,
    skeleton: &Skeleton,
    others: &[Skeleton],
    form: &Form,
    more: &[Form],
) -> Result<Items<Items<Skeleton>>, NoMemory>
    ensures { IfOk result (λ found. map shapes_of found
        ≡ spec.filled_at (AndShape (shape_of skeleton.now) (shapes_of others.now))
        (AndWanted (wanted_of form.now) (wanteds_of more.now))) }
{
    let mut firsts = Items::new(alloc);
    push_filled(alloc, skeleton, form, &mut firsts)?;
    let lists = filled_at(alloc, others, more)?;
    all_filled(alloc, skeleton, others, firsts.as_slice(), lists.as_slice())
}
