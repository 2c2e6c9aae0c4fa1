//! Which union a constructor belongs to, and how many arguments it takes.
ghost use Rattle.std.specs.Prelude.{◌≡◌, IfOk};
ghost use Rattle.core_names.specs.Tables as spec;

use elm_base::{Name, NoMemory, TypeTree, UnionOf};
use sqlite_items::Items;
use std::alloc::Global;

/// How many arguments the constructor of this name takes, if it is among these.
fn count_among(name: &[u8], constructors: &[(Name, Items<TypeTree>)]) -> Option<usize>
    ensures { result ≡ spec.count_among name.now constructors.now }
{
    let mut left = constructors;
    while let [(own, arguments), more @ ..] = left {
        if own.bytes() == name {
            return Some(arguments.len());
        }
        left = more;
    }
    None
}

fn dotted(alloc: Global, module: &[u8], name: &[u8]) -> Result<Name, NoMemory>
    ensures { IfOk result (λ made. made ≡ spec.dotted «module».now name.now) }
{
    let mut bytes = Vec::from_slice(alloc, module)?;
    bytes.extend_from_slice(b".")?;
    bytes.extend_from_slice(name)?;
    Ok(Name::from_vec(bytes))
}

fn counted(alloc: Global, of: &UnionOf, count: usize) -> Result<(Name, usize), NoMemory>
    ensures { IfOk result (λ made. made ≡ (spec.dotted of.now.«module» of.now.name, count)) }
{
    let name = dotted(alloc, of.module.bytes(), of.name.bytes())?;
    Ok((name, count))
}

/// The first union of the module that has the constructor. A union without a name where there is none.
fn made_among(
    alloc: Global,
    unions: &[UnionOf],
    module: &[u8],
    name: &[u8],
) -> Result<(Name, usize), NoMemory>
    ensures { IfOk result (λ made. made ≡ spec.made_among unions.now «module».now name.now) }
{
    let mut left = unions;
    while let [of, more @ ..] = left {
        if of.module.bytes() == module {
            if let Some(count) = count_among(name, of.constructors.as_slice()) {
                return counted(alloc, of, count);
            }
        }
        left = more;
    }
    Ok((Name::of(alloc, b"")?, 0))
}

/// The union of a module's constructor, by its name behind that of its module, and how many arguments the constructor takes.
/// `::` is that of lists, which no text declares.
pub fn constructor_of(
    alloc: Global,
    unions: &[UnionOf],
    module: &[u8],
    name: &[u8],
) -> Result<(Name, usize), NoMemory>
    ensures { IfOk result (λ made. made ≡ spec.constructor_of unions.now «module».now name.now) }
{
    if name == b"::".as_slice() {
        return Ok((Name::of(alloc, b"Basics.List")?, 2));
    }
    made_among(alloc, unions, module, name)
}
