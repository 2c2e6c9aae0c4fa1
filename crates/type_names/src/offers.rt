//! What a module and its imports give for the name of a type.
ghost use Rattle.std.specs.Prelude.{◌≡◌, ◌++◌, OnOk, IfOk};
ghost use Rattle.module_names.specs.Lookup.{reach_by as reached_by};
ghost use Rattle.type_names.specs.Answers as spec;

use crate::known::{KnownType, shows_type};
use elm_base::{Exposing, Import, Name, NoMemory};
use sqlite_items::Items;
use std::alloc::Global;

/// A name behind that of a module, and a point.
fn dotted(alloc: Global, module: &[u8], name: &[u8]) -> Result<Name, NoMemory>
    ensures { IfOk result (λ made. made ≡ spec.dotted «module».now name.now) }
{
    let mut bytes = Vec::from_slice(alloc, module)?;
    bytes.extend_from_slice(b".")?;
    bytes.extend_from_slice(name)?;
    Ok(Name::from_vec(bytes))
}

/// By which name the import's module is reached.
fn reach_of(import: &Import) -> &[u8]
    ensures { result.now ≡ reached_by import.now.alias import.now.«module» }
{
    match &import.alias {
        None => import.module.bytes(),
        Some(alias) => alias.bytes(),
    }
}

fn is_offered(module: &Name, ty: &KnownType) -> bool
    ensures { result ≡ spec.is_offered «module».now ty.now }
{
    ty.module.bytes() == module.bytes() && ty.shown
}

fn picks(exposes: &Option<Exposing>, name: &[u8]) -> bool
    ensures { result ≡ spec.picks exposes.now name.now }
{
    match exposes {
        None => false,
        Some(exposes) => shows_type(exposes, name),
    }
}

fn is_opened(exposes: &Option<Exposing>, ty: &[u8], name: &[u8]) -> bool
    ensures { result ≡ spec.is_opened exposes.now ty.now name.now }
{
    name == ty && picks(exposes, ty)
}

/// Whether the import gives the type for a name.
fn gives(alloc: Global, import: &Import, name: &[u8], ty: &KnownType) -> Result<bool, NoMemory>
    ensures { IfOk result (λ given. given ≡ spec.gives import.now name.now ty.now) }
{
    if !is_offered(&import.module, ty) {
        return Ok(false);
    }
    let full = dotted(alloc, reach_of(import), ty.name.bytes())?;
    Ok(is_opened(&import.exposes, ty.name.bytes(), name) || name == full.bytes())
}

/// Appends what an import gives for a name.
fn push_given(
    alloc: Global,
    types: &[KnownType],
    name: &[u8],
    import: &Import,
    out: &mut Items<KnownType>,
) -> Result<(), NoMemory>
    ensures { OnOk result (out.new ≡ out.old ++ spec.given types.now name.now import.now) }
{
    for ty in types {
        if gives(alloc, import, name, ty)? {
            out.push(ty.copy(alloc)?)?;
        }
    }
    Ok(())
}

/// Appends what imports give for a name.
pub fn push_imported(
    alloc: Global,
    types: &[KnownType],
    imports: &[Import],
    name: &[u8],
    out: &mut Items<KnownType>,
) -> Result<(), NoMemory>
    ensures { OnOk result (out.new ≡ out.old ++ spec.imported types.now imports.now name.now) }
{
    for import in imports {
        push_given(alloc, types, name, import, out)?;
    }
    Ok(())
}

fn is_own(module: &Name, name: &[u8], ty: &KnownType) -> bool
    ensures { result ≡ spec.is_own «module».now name.now ty.now }
{
    ty.module.bytes() == module.bytes() && ty.name.bytes() == name
}

/// Appends what the module itself declares by a name.
pub fn push_own(
    alloc: Global,
    types: &[KnownType],
    module: &Name,
    name: &[u8],
    out: &mut Items<KnownType>,
) -> Result<(), NoMemory>
    ensures { OnOk result (out.new ≡ out.old ++ spec.own types.now «module».now name.now) }
{
    for ty in types {
        if is_own(module, name, ty) {
            out.push(ty.copy(alloc)?)?;
        }
    }
    Ok(())
}
