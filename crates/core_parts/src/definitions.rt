//! Definitions of a `let` whose bodies have their plain form.
ghost use Rattle.std.specs.Prelude.{◌≡◌, map, IfOk};
ghost use Rattle.plain_form.specs.PlainForm.{plain_definition, plain_pattern as wanted, lambdas as nested, annotation_of as annotated_as};
ghost use Rattle.core_trees.specs.PatternReading.{pattern_of};
ghost use Rattle.core_trees.specs.Reading.{core_of, annotation_of};
ghost use Rattle.core_names.specs.Binding.{names_of};
ghost use Rattle.core_parts.specs.Members as spec;

use crate::members::{Member, annotation, named};
use crate::patterns::{plain_pattern, plain_patterns};
use alias_expansion::Room;
use core_names::Numbered;
use core_trees::{CoreTree, PatternTree};
use elm_base::{At, Declaration, Name, NoMemory, Pattern, TypeTree};
use sqlite_items::Items;
use std::alloc::Global;

/// What stands before the equals sign of a definition of a name.
#[derive(Clone, Copy)]
struct Head<'a> {
    at: At,
    name: &'a Name,
    patterns: &'a [Pattern],
}

fn with_number(
    alloc: Global,
    at: At,
    written: Option<TypeTree>,
    parameters: Items<PatternTree>,
    value: CoreTree,
    of: &Numbered<'_>,
) -> Result<Member, NoMemory>
    ensures { IfOk result (λ made. spec.member_of made
        ≡ spec.named ((names_of of.now).number at) (annotation_of written)
        (nested (map pattern_of parameters) (core_of value))) }
{
    let number = of.number(at)?;
    named(alloc, number, written, parameters, value)
}

fn with_annotation(
    alloc: Global,
    head: &Head<'_>,
    parameters: Items<PatternTree>,
    value: CoreTree,
    block: &[Declaration],
    of: &Numbered<'_>,
    room: &mut Room,
) -> Result<Member, NoMemory>
    ensures { IfOk result (λ made. spec.member_of made
        ≡ spec.named ((names_of of.now).number head.now.at)
        (annotated_as head.now.name.now (map (plain_definition (names_of of.now)) block.now))
        (nested (map pattern_of parameters) (core_of value))) }
{
    let written = annotation(alloc, head.name, block, of, room)?;
    with_number(alloc, head.at, written, parameters, value, of)
}

fn with_parameters(
    alloc: Global,
    head: &Head<'_>,
    value: CoreTree,
    block: &[Declaration],
    of: &Numbered<'_>,
    room: &mut Room,
) -> Result<Member, NoMemory>
    ensures { IfOk result (λ made. spec.member_of made
        ≡ spec.named ((names_of of.now).number head.now.at)
        (annotated_as head.now.name.now (map (plain_definition (names_of of.now)) block.now))
        (nested (map (wanted (names_of of.now)) head.now.patterns.now) (core_of value))) }
{
    let parameters = plain_patterns(alloc, head.patterns, of)?;
    with_annotation(alloc, head, parameters, value, block, of, room)
}

fn with_pattern(
    alloc: Global,
    pattern: &Pattern,
    value: CoreTree,
    of: &Numbered<'_>,
) -> Result<Member, NoMemory>
    ensures { IfOk result (λ made. spec.member_of made
        ≡ spec.AValue (wanted (names_of of.now) pattern.now) (core_of value)) }
{
    let pattern = plain_pattern(alloc, pattern, of)?;
    Ok(Member::Value { pattern, value })
}

/// The definition with this plain form of its body, as a member of its group.
pub fn member_with(
    alloc: Global,
    definition: &Declaration,
    value: CoreTree,
    block: &[Declaration],
    of: &Numbered<'_>,
    room: &mut Room,
) -> Result<Member, NoMemory>
    ensures { IfOk result (λ made. spec.member_of made
        ≡ spec.member_from (names_of of.now)
        (map (plain_definition (names_of of.now)) block.now)
        (spec.with_body (names_of of.now) definition.now (core_of value))) }
{
    match definition {
        Declaration::Definition {
            at,
            name,
            patterns,
            ..
        } => {
            let head = Head {
                at: *at,
                name,
                patterns: patterns.as_slice(),
            };
            with_parameters(alloc, &head, value, block, of, room)
        }
        Declaration::PatternDefinition { pattern, .. } => with_pattern(alloc, pattern, value, of),
        _ => Ok(Member::Nothing),
    }
}
