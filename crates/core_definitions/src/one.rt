//! One definition of a project.
ghost use Rattle.std.specs.Prelude.{◌≡◌, IfOk, option_copied};
ghost use Rattle.type_sense.specs.WrittenOf.{written_of};
ghost use Rattle.core_trees.specs.Reading.{core_of, annotation_of};
ghost use Rattle.core_names.specs.Tables.{naming, tables_of};
ghost use Rattle.core_definitions.specs.Definitions as spec;

use alias_expansion::Room;
use core_names::{Binders, Names, Numbered};
use core_parts::nothing;
use core_plain::plain_definition;
use core_trees::CoreTree;
use elm_base::{At, Declaration, Name, NoMemory, TypeTree};
use std::alloc::Global;

/// What stands on the right side of a definition, in its plain form, and the type that it is annotated with, without aliases.
#[derive(Drop)]
pub struct RightSide {
    pub annotation: Option<TypeTree>,
    pub body: CoreTree,
}

/// A top-level definition in its plain form.
#[derive(Drop)]
pub struct CoreDefinition {
    pub module: Name,
    /// Where it stands in its module.
    pub at: At,
    pub name: Name,
    /// The number of its top value: its place among all, in the order of groups.
    pub top: u32,
    pub right: RightSide,
}

/// The right side of the definition that this declaration is.
pub fn right_side(
    alloc: Global,
    names: &Names<'_>,
    input: u32,
    declaration: &Declaration,
    room: &mut Room,
) -> Result<CoreTree, NoMemory>
    ensures { IfOk result (λ made. core_of made
        ≡ spec.right_side (naming (tables_of names.now)) input declaration.now) }
{
    match declaration {
        Declaration::Definition { patterns, body, .. } => {
            plain_definition(alloc, names, patterns.as_slice(), body, room)
        }
        Declaration::PortDefinition { body, .. } => {
            plain_definition(alloc, names, &[], body, room)
        }
        Declaration::PortAnnotation { .. } => Ok(CoreTree::Input { number: input }),
        Declaration::Device { .. } => Ok(CoreTree::Input { number: input }),
        _ => nothing(alloc),
    }
}

fn where_named<'a>(other: &[u8], name: &[u8], written: &'a TypeTree) -> Option<&'a TypeTree>
    ensures { option_copied result ≡ spec.where_named other.now name.now written.now }
{
    if other == name { Some(written) } else { None }
}

/// The type text with which the declaration annotates this name.
fn text_in<'a>(declaration: &'a Declaration, name: &[u8]) -> Option<&'a TypeTree>
    ensures { option_copied result ≡ spec.text_in name.now declaration.now }
{
    match declaration {
        Declaration::Annotation {
            name: other,
            written,
            ..
        } => where_named(other.bytes(), name, written),
        Declaration::PortAnnotation {
            name: other,
            written,
            ..
        } => where_named(other.name.bytes(), name, written),
        _ => None,
    }
}

fn text_for<'a>(declarations: &'a [Declaration], name: &[u8]) -> Option<&'a TypeTree>
    ensures { option_copied result ≡ spec.text_for name.now declarations.now }
{
    let mut left = declarations;
    while let [declaration, more @ ..] = left {
        if let Some(written) = text_in(declaration, name) {
            return Some(written);
        }
        left = more;
    }
    None
}

/// A type text of a module without aliases.
#[tactic(auto, unfolding(core_names::specs::Binding::names_of))]
fn written_in(
    alloc: Global,
    names: &Names<'_>,
    text: &TypeTree,
    room: &mut Room,
) -> Result<TypeTree, NoMemory>
    ensures { IfOk result (λ written. written_of written
        ≡ (naming (tables_of names.now)).written text.now) }
{
    let binders = Binders::new(alloc);
    let of = Numbered {
        names: *names,
        binders: &binders,
    };
    of.written(alloc, text, room)
}

/// What these declarations annotate a name with, without aliases.
fn annotation_for(
    alloc: Global,
    names: &Names<'_>,
    name: &[u8],
    declarations: &[Declaration],
    room: &mut Room,
) -> Result<Option<TypeTree>, NoMemory>
    ensures { IfOk result (λ found. annotation_of found
        ≡ spec.annotation_for (naming (tables_of names.now)) name.now declarations.now) }
{
    match text_for(declarations, name) {
        None => Ok(None),
        Some(text) => Ok(Some(written_in(alloc, names, text, room)?)),
    }
}

/// The annotation of the definition that this declaration of the module is.
pub fn annotation_in(
    alloc: Global,
    names: &Names<'_>,
    declarations: &[Declaration],
    declaration: &Declaration,
    room: &mut Room,
) -> Result<Option<TypeTree>, NoMemory>
    ensures { IfOk result (λ found. annotation_of found
        ≡ spec.annotation_in (naming (tables_of names.now)) declarations.now declaration.now) }
{
    match declaration {
        Declaration::Definition { name, .. } => {
            annotation_for(alloc, names, name.bytes(), declarations, room)
        }
        Declaration::PortDefinition { name, .. } => {
            annotation_for(alloc, names, name.name.bytes(), declarations, room)
        }
        _ => Ok(None),
    }
}
