//! Definitions of a `let` as members of their groups: functions, or values.
ghost use Rattle.std.specs.Prelude.{◌≡◌, ◌<◌, List, ◌∷◌, Some, None, length, map, IfOk, option_map, option_copied};
ghost use Rattle.plain_form.specs.Naming.{Naming};
ghost use Rattle.plain_form.specs.PlainForm.{Defined, stands_at as stands, plain_definition, annotation_of as annotated_as, held_to as held_as, lambdas as nested};
ghost use Rattle.core_trees.specs.PatternReading.{pattern_of};
ghost use Rattle.core_trees.specs.Reading.{core_of, annotation_of};
ghost use Rattle.core_names.specs.Binding.{names_of};
ghost use Rattle.core_parts.specs.Members as spec;

use alias_expansion::Room;
use core_names::{Numbered, same_place};
use core_trees::{CoreTree, LetFunction, PatternTree, is_function};
use elm_base::{At, Declaration, Name, NoMemory, TypeTree};
use sqlite_items::{Boxed, Items};
use std::alloc::Global;

/// What becomes of a definition in its group.
#[derive(Drop)]
pub enum Member {
    Function(LetFunction),
    Value {
        pattern: PatternTree,
        value: CoreTree,
    },
    /// No group has such a definition.
    Nothing,
}

/// A function taken apart: its first parameter, the others, and its body.
#[derive(Drop)]
pub struct Abstraction {
    pattern: Boxed<PatternTree>,
    more: Items<PatternTree>,
    body: Boxed<CoreTree>,
}

/// Whether the definition stands at this place.
pub fn stands_at(definition: &Declaration, at: At) -> bool
    ensures { (n : Naming) → result ≡ stands at (plain_definition n definition.now) }
{
    match definition {
        Declaration::Definition { at: place, .. } => same_place(*place, at),
        Declaration::PatternDefinition { at: place, .. } => same_place(*place, at),
        _ => false,
    }
}

/// The type of an annotation for this name.
fn annotated<'a>(definition: &'a Declaration, name: &Name) -> Option<&'a TypeTree>
    ensures { (n : Naming) (others : List Defined) →
        annotated_as name.now (plain_definition n definition.now ∷ others)
        ≡ spec.first_of (option_map n.written (option_copied result))
        (annotated_as name.now others) }
{
    match definition {
        Declaration::Annotation {
            name: other,
            written,
            ..
        } => {
            if other.bytes() == name.bytes() {
                Some(written)
            } else {
                None
            }
        }
        _ => None,
    }
}

/// The first annotation for this name in the block, without aliases.
pub fn annotation(
    alloc: Global,
    name: &Name,
    definitions: &[Declaration],
    of: &Numbered<'_>,
    room: &mut Room,
) -> Result<Option<TypeTree>, NoMemory>
    ensures { IfOk result (λ found. annotation_of found
        ≡ annotated_as name.now (map (plain_definition (names_of of.now)) definitions.now)) }
{
    for definition in definitions {
        if let Some(written) = annotated(definition, name) {
            return Ok(Some(of.written(alloc, written, room)?));
        }
    }
    Ok(None)
}

/// The function that a tree is. A call without arguments is its function, and a `let` without groups its body.
fn apart(tree: CoreTree) -> Option<Abstraction>
    ensures { option_map spec.abstraction_of result ≡ spec.as_lambda (core_of tree) }
{
    match tree {
        CoreTree::Lambda {
            pattern,
            more,
            body,
        } => Some(Abstraction {
            pattern,
            more,
            body,
        }),
        CoreTree::Call {
            function,
            arguments,
        } => {
            if arguments.is_empty() {
                apart(function.into_inner())
            } else {
                None
            }
        }
        CoreTree::Let { groups, body } => {
            if groups.is_empty() {
                apart(body.into_inner())
            } else {
                None
            }
        }
        _ => None,
    }
}

fn boxed(alloc: Global, annotation: Option<TypeTree>) -> Result<Option<Boxed<TypeTree>>, NoMemory>
    ensures { IfOk result (λ made. made ≡ annotation) }
{
    match annotation {
        None => Ok(None),
        Some(written) => Ok(Some(Boxed::new(alloc, written)?)),
    }
}

/// A value that is held to its annotation, where it has one.
fn held_to(
    alloc: Global,
    annotation: Option<TypeTree>,
    value: CoreTree,
) -> Result<CoreTree, NoMemory>
    ensures { IfOk result (λ made. core_of made
        ≡ held_as (annotation_of annotation) (core_of value)) }
{
    match annotation {
        None => Ok(value),
        Some(written) => {
            let written = Boxed::new(alloc, written)?;
            let inner = Boxed::new(alloc, value)?;
            Ok(CoreTree::Held { written, inner })
        }
    }
}

fn value_of(
    alloc: Global,
    number: u32,
    annotation: Option<TypeTree>,
    value: CoreTree,
) -> Result<Member, NoMemory>
    ensures { IfOk result (λ made. spec.member_of made
        ≡ spec.named_where None number (annotation_of annotation) (core_of value)) }
{
    let value = held_to(alloc, annotation, value)?;
    let pattern = PatternTree::Local { number };
    Ok(Member::Value { pattern, value })
}

fn function_of(
    alloc: Global,
    number: u32,
    annotation: Option<TypeTree>,
    function: Abstraction,
) -> Result<Member, NoMemory>
    ensures { IfOk result (λ made. spec.member_of made
        ≡ spec.function_from (spec.abstraction_of function) number (annotation_of annotation)) }
{
    let annotation = boxed(alloc, annotation)?;
    let Abstraction {
        pattern,
        more,
        body,
    } = function;
    Ok(Member::Function(LetFunction {
        number,
        annotation,
        pattern,
        more,
        body,
    }))
}

/// A definition without parameters of its own.
fn alone(
    alloc: Global,
    number: u32,
    annotation: Option<TypeTree>,
    value: CoreTree,
) -> Result<Member, NoMemory>
    ensures { IfOk result (λ made. spec.member_of made
        ≡ spec.named number (annotation_of annotation) (core_of value)) }
{
    if !is_function(&value) {
        return value_of(alloc, number, annotation, value);
    }
    match apart(value) {
        Some(function) => function_of(alloc, number, annotation, function),
        None => Ok(Member::Nothing),
    }
}

/// The function of these parameters, of which there is one at least.
fn opened(
    alloc: Global,
    parameters: Items<PatternTree>,
    body: CoreTree,
) -> Result<Abstraction, NoMemory>
    requires { 0 < length parameters }
    ensures { IfOk result (λ function. Some (spec.abstraction_of function)
        ≡ spec.as_lambda (nested (map pattern_of parameters) (core_of body))) }
{
    let mut more = parameters;
    let pattern = Boxed::new(alloc, more.remove(0))?;
    let body = Boxed::new(alloc, body)?;
    Ok(Abstraction {
        pattern,
        more,
        body,
    })
}

/// A definition of a name, by the number of the name, its annotation, its parameters and its body.
pub fn named(
    alloc: Global,
    number: u32,
    annotation: Option<TypeTree>,
    parameters: Items<PatternTree>,
    body: CoreTree,
) -> Result<Member, NoMemory>
    ensures { IfOk result (λ made. spec.member_of made
        ≡ spec.named number (annotation_of annotation)
        (nested (map pattern_of parameters) (core_of body))) }
{
    if parameters.is_empty() {
        return alone(alloc, number, annotation, body);
    }
    let function = opened(alloc, parameters, body)?;
    function_of(alloc, number, annotation, function)
}
