//! The functions that aliases of closed records make, and written types.
ghost use Rattle.std.specs.Prelude.{◌≡◌, IfOk, map};
ghost use Rattle.type_names.specs.Answers.{places_of};
ghost use Rattle.type_sense.specs.WrittenOf.{written_of};
ghost use Rattle.alias_expansion.specs.Expansion.{plain as plain_of};
ghost use Rattle.plain_form.specs.PlainForm.{count};
ghost use Rattle.core_names.specs.Tables as spec;

use alias_expansion::{PlainAlias, Room, plain};
use elm_base::{At, Name, NoMemory, Spot, TypeTree};
use let_annotations::copy_type;
use sqlite_items::Items;
use std::alloc::Global;
use type_names::TypeScope;

/// The function that an alias of a closed record makes: the record's type, and the labels in their order.
#[derive(Drop)]
pub struct Made {
    pub written: TypeTree,
    pub labels: Items<Name>,
}

fn nothing() -> TypeTree
    ensures { written_of result ≡ spec.nothing }
{
    TypeTree::Unit {
        at: At { line: 0, column: 0 },
    }
}

/// The fields of a closed record, and none of another type.
fn closed_fields(tree: &TypeTree) -> &[(Spot, TypeTree)]
    ensures { result.now ≡ spec.closed_fields tree.now }
{
    match tree {
        TypeTree::Fields {
            before: None,
            fields,
            ..
        } => fields.as_slice(),
        _ => &[],
    }
}

fn labels_of(alloc: Global, fields: &[(Spot, TypeTree)]) -> Result<Items<Name>, NoMemory>
    ensures { IfOk result (λ labels. labels ≡ map (λ field. field.0.name) fields.now) }
{
    let mut labels = Items::new(alloc);
    for (label, _) in fields {
        labels.push(label.name.copy(alloc)?)?;
    }
    Ok(labels)
}

fn made_of(alloc: Global, tree: &TypeTree) -> Result<Made, NoMemory>
    ensures { IfOk result (λ made. spec.maker_in made ≡ spec.maker_of tree.now) }
{
    let labels = labels_of(alloc, closed_fields(tree))?;
    let written = copy_type(alloc, tree)?;
    Ok(Made { written, labels })
}

fn made_where(alloc: Global, written: &Option<TypeTree>) -> Result<Made, NoMemory>
    ensures { IfOk result (λ made. spec.maker_in made ≡ spec.maker_where written.now) }
{
    match written {
        None => Ok(Made {
            written: nothing(),
            labels: Items::new(alloc),
        }),
        Some(tree) => made_of(alloc, tree),
    }
}

/// The function that the module's alias makes.
pub fn maker_called(
    alloc: Global,
    aliases: &[PlainAlias],
    module: &[u8],
    name: &[u8],
) -> Result<Made, NoMemory>
    ensures { IfOk result (λ made. spec.maker_in made
        ≡ spec.maker_called aliases.now «module».now name.now) }
{
    let mut left = aliases;
    while let [alias, more @ ..] = left {
        if alias.module.bytes() == module && alias.name.bytes() == name {
            return made_where(alloc, &alias.written);
        }
        left = more;
    }
    made_where(alloc, &None)
}

fn labels_in(written: &Option<TypeTree>) -> usize
    ensures { result ≡ count (spec.maker_where written.now).labels }
{
    match written {
        None => 0,
        Some(tree) => closed_fields(tree).len(),
    }
}

/// How many labels the function that the module's alias makes has.
pub fn label_count(aliases: &[PlainAlias], module: &[u8], name: &[u8]) -> usize
    ensures { result ≡ count (spec.maker_called aliases.now «module».now name.now).labels }
{
    let mut left = aliases;
    while let [alias, more @ ..] = left {
        if alias.module.bytes() == module && alias.name.bytes() == name {
            return labels_in(&alias.written);
        }
        left = more;
    }
    0
}

/// A type written in the module, without aliases. A type that isn't there is the empty tuple.
pub fn written_type(
    alloc: Global,
    tree: &TypeTree,
    aliases: &[PlainAlias],
    scope: &TypeScope<'_>,
    room: &mut Room,
) -> Result<TypeTree, NoMemory>
    ensures { IfOk result (λ written. written_of written
        ≡ spec.written_where (plain_of aliases.now (places_of scope.now) tree.now)) }
{
    match plain(alloc, tree, aliases, scope, room)? {
        None => Ok(nothing()),
        Some(written) => Ok(written),
    }
}
