//! The plain form of names, and of what stands for a function by its form alone.
ghost use Rattle.std.specs.Prelude.{◌≡◌, ◌+◌, ◌≤◌, map, take, drop, zero, IfOk};
ghost use Rattle.typing_rules.specs.Core.{Lambda, Field, Fields, Held, Local, Tuple};
ghost use Rattle.type_sense.specs.WrittenOf.{written_of};
ghost use Rattle.typing_rules.specs.CorePatterns.{CorePattern};
ghost use Rattle.plain_form.specs.PlainForm.{no_core, truth as true_core, falsehood as false_core, use_of as used, binders as binders_as, parameters as parameters_as, labelled as labelled_as, made_by as maker_of, cores, fields, count, lambdas as nested};
ghost use Rattle.plain_form.specs.Naming.{Maker};
ghost use Rattle.core_trees.specs.PatternReading.{pattern_of};
ghost use Rattle.core_trees.specs.Reading.{core_of};
ghost use Rattle.core_names.specs.Tables.{top_core, maker_in};
ghost use Rattle.core_names.specs.Binding.{names_of};
ghost use Rattle.core_parts.specs.Making as spec;

use core_names::{Made, Numbered, TopThing};
use core_trees::{CoreTree, PatternTree, lambdas};
use elm_base::{At, Name, NoMemory, Thing, TypeTree};
use sqlite_items::{Boxed, Items};
use std::alloc::Global;

/// A tree without a type. It stands for what no resolved tree has.
pub fn nothing(alloc: Global) -> Result<CoreTree, NoMemory>
    ensures { IfOk result (λ made. core_of made ≡ no_core) }
{
    let fields = Items::new(alloc);
    let from = Boxed::new(alloc, CoreTree::Fields { fields })?;
    let label = Name::of(alloc, b"")?;
    Ok(CoreTree::Field { from, label })
}

fn truth_named(alloc: Global, name: &[u8]) -> Result<CoreTree, NoMemory>
    ensures { IfOk result (λ made. core_of made ≡ spec.truth_named name.now) }
{
    let of_union = Name::of(alloc, b"Basics.Bool")?;
    let name = Name::of(alloc, name)?;
    Ok(CoreTree::Constructor {
        of_union,
        name,
        takes: 0,
    })
}

/// `True` of Basics, whatever is in scope.
pub fn truth(alloc: Global) -> Result<CoreTree, NoMemory>
    ensures { IfOk result (λ made. core_of made ≡ true_core) }
{
    truth_named(alloc, b"True")
}

/// `False` of Basics, whatever is in scope.
pub fn falsehood(alloc: Global) -> Result<CoreTree, NoMemory>
    ensures { IfOk result (λ made. core_of made ≡ false_core) }
{
    truth_named(alloc, b"False")
}

fn top_tree(alloc: Global, top: Option<TopThing>) -> Result<CoreTree, NoMemory>
    ensures { IfOk result (λ made. core_of made ≡ top_core top) }
{
    match top {
        Some(TopThing::Native { number }) => Ok(CoreTree::Native { number }),
        Some(TopThing::Value { number }) => Ok(CoreTree::Top { number }),
        None => nothing(alloc),
    }
}

/// So many further binders that are wanted at a place.
fn binders(
    alloc: Global,
    at: At,
    count: u32,
    of: &Numbered<'_>,
) -> Result<Items<PatternTree>, NoMemory>
    ensures { IfOk result (λ made. map pattern_of made
        ≡ binders_as (names_of of.now) at zero count) }
{
    let mut made = Items::new(alloc);
    for further in 0..count {
        let number = of.own(at, further)?;
        made.push(PatternTree::Local { number })?;
    }
    Ok(made)
}

/// The values of so many further binders.
fn parameters(
    alloc: Global,
    at: At,
    count: u32,
    of: &Numbered<'_>,
) -> Result<Items<CoreTree>, NoMemory>
    ensures { IfOk result (λ made. cores (map core_of made)
        ≡ parameters_as (names_of of.now) at zero count) }
{
    let mut made = Items::new(alloc);
    for further in 0..count {
        let number = of.own(at, further)?;
        made.push(CoreTree::Local { number })?;
    }
    Ok(made)
}

/// The function that makes a tuple of so many parts.
pub fn tuple_maker(
    alloc: Global,
    at: At,
    count: u32,
    of: &Numbered<'_>,
) -> Result<CoreTree, NoMemory>
    ensures { IfOk result (λ made. core_of made
        ≡ nested (binders_as (names_of of.now) at zero count)
        (Tuple (parameters_as (names_of of.now) at zero count))) }
{
    let patterns = binders(alloc, at, count, of)?;
    let parts = parameters(alloc, at, count, of)?;
    lambdas(alloc, patterns, CoreTree::Tuple { parts })
}

/// The function that takes a field of a record.
pub fn field_function(
    alloc: Global,
    at: At,
    label: &Name,
    of: &Numbered<'_>,
) -> Result<CoreTree, NoMemory>
    ensures { IfOk result (λ made. core_of made
        ≡ Lambda (CorePattern.Local ((names_of of.now).own at zero))
        (Field (Local ((names_of of.now).own at zero)) label.now)) }
{
    let number = of.own(at, 0)?;
    let pattern = Boxed::new(alloc, PatternTree::Local { number })?;
    let from = Boxed::new(alloc, CoreTree::Local { number })?;
    let label = label.copy(alloc)?;
    let body = Boxed::new(alloc, CoreTree::Field { from, label })?;
    Ok(CoreTree::Lambda {
        pattern,
        more: Items::new(alloc),
        body,
    })
}

/// A number that doesn't fit is want of memory.
fn after(number: u32) -> Result<u32, NoMemory>
    ensures { IfOk result (λ next. next ≡ number + 1) }
{
    number.checked_add(1).ok_or(NoMemory)
}

/// Each label with the value of a further binder.
fn labelled(
    alloc: Global,
    at: At,
    labels: &[Name],
    of: &Numbered<'_>,
) -> Result<Items<(Name, CoreTree)>, NoMemory>
    ensures { IfOk result (λ made. fields (map spec.field_of made)
        ≡ labelled_as (names_of of.now) at zero labels.now) }
{
    let mut made = Items::new(alloc);
    let mut further: u32 = 0;
    for label in labels {
        let number = of.own(at, further)?;
        made.push((label.copy(alloc)?, CoreTree::Local { number }))?;
        further = after(further)?;
    }
    Ok(made)
}

/// A further binder for each label.
fn label_binders(
    alloc: Global,
    at: At,
    labels: &[Name],
    of: &Numbered<'_>,
) -> Result<Items<PatternTree>, NoMemory>
    ensures { IfOk result (λ made. map pattern_of made
        ≡ binders_as (names_of of.now) at zero (count labels.now)) }
{
    if labels.len() > u32::MAX as usize {
        return Err(NoMemory);
    }
    binders(alloc, at, labels.len() as u32, of)
}

/// The function that makes a record of this alias, which is held to its written type.
fn made_by(alloc: Global, at: At, made: Made, of: &Numbered<'_>) -> Result<CoreTree, NoMemory>
    ensures { IfOk result (λ tree. core_of tree ≡ maker_of (names_of of.now) at (maker_in made)) }
{
    let Made { written, labels } = made;
    let patterns = label_binders(alloc, at, labels.as_slice(), of)?;
    let body = record_of(alloc, at, written, labels.as_slice(), of)?;
    lambdas(alloc, patterns, body)
}

/// A record whose fields have the values of further binders, held to a written type.
fn record_of(
    alloc: Global,
    at: At,
    written: TypeTree,
    labels: &[Name],
    of: &Numbered<'_>,
) -> Result<CoreTree, NoMemory>
    ensures { IfOk result (λ tree. core_of tree ≡ Held (written_of written)
        (Fields (labelled_as (names_of of.now) at zero labels.now))) }
{
    let fields = labelled(alloc, at, labels, of)?;
    let inner = Boxed::new(alloc, CoreTree::Fields { fields })?;
    let written = Boxed::new(alloc, written)?;
    Ok(CoreTree::Held { written, inner })
}

/// What the name at a place stands for.
pub fn use_of(alloc: Global, at: At, of: &Numbered<'_>) -> Result<CoreTree, NoMemory>
    ensures { IfOk result (λ made. core_of made
        ≡ used (names_of of.now) at ((names_of of.now).thing at)) }
{
    match of.thing(at) {
        Some(Thing::Local { binder }) => {
            let number = of.number(*binder)?;
            Ok(CoreTree::Local { number })
        }
        Some(Thing::Top { module, name }) => top_tree(alloc, of.top(module.bytes(), name.bytes())),
        Some(Thing::Constructor { module, name }) => {
            let (of_union, takes) = of.constructor(alloc, module.bytes(), name.bytes())?;
            let name = name.copy(alloc)?;
            Ok(CoreTree::Constructor {
                of_union,
                name,
                takes,
            })
        }
        Some(Thing::Maker { module, name }) => {
            let made = of.maker(alloc, module.bytes(), name.bytes())?;
            made_by(alloc, at, made, of)
        }
        None => nothing(alloc),
    }
}
