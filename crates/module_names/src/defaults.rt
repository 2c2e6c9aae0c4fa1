//! The imports with which each module begins.
ghost use Rattle.std.specs.Prelude.{◌≡◌, ◌∷◌, [], ◌++◌, OnOk, IfOk, Some, bytes_eq};
ghost use Rattle.elm_base.specs.declared.tree.Exposing.TheVariants as exposing;
ghost use Rattle.module_names.specs.Defaults as spec;

use elm_base::{At, Constructors, Exposing, Import, Item, Name, NoMemory};
use sqlite_items::Items;
use std::alloc::Global;

/// No place in a file.
fn nowhere() -> At
    ensures { result ≡ spec.nowhere }
{
    At { line: 0, column: 0 }
}

fn is(name: &[u8], text: &[u8]) -> bool
    ensures { result ≡ bytes_eq name.now text.now }
{
    name == text
}

/// The place of a module in the order of the library; the project's own stand behind.
fn library_place(name: &[u8]) -> usize
    ensures { result ≡ spec.library_place name.now }
{
    if is(name, b"Basics") {
        return 0;
    }
    if is(name, b"Maybe") {
        return 1;
    }
    if is(name, b"Result") {
        return 2;
    }
    if is(name, b"List") {
        return 3;
    }
    if is(name, b"Char") {
        return 4;
    }
    if is(name, b"String") {
        return 5;
    }
    later_place(name)
}

fn later_place(name: &[u8]) -> usize
    ensures { result ≡ spec.later_place name.now }
{
    if is(name, b"Debug") {
        return 6;
    }
    if is(name, b"Signal") {
        return 7;
    }
    if is(name, b"Mouse") {
        return 8;
    }
    if is(name, b"Keyboard") {
        return 9;
    }
    if is(name, b"Window") {
        return 10;
    }
    if is(name, b"Graphics.Element") {
        return 11;
    }
    12
}

/// A list of this entry alone.
fn only(alloc: Global, item: Item) -> Result<Option<Exposing>, NoMemory>
    ensures { IfOk result (λ made. made ≡ Some (exposing.Items (item ∷ []))) }
{
    let mut items = Items::new(alloc);
    items.push(item)?;
    Ok(Some(Exposing::Items(items)))
}

/// The entry of an operator.
fn operator(alloc: Global, name: &[u8]) -> Result<Option<Exposing>, NoMemory>
    ensures { IfOk result (λ made. made ≡ spec.operator name.now) }
{
    let at = nowhere();
    let name = Name::of(alloc, name)?;
    only(alloc, Item::Operator { at, name })
}

/// The entry of a type, with its constructors.
fn named(
    alloc: Global,
    name: &[u8],
    constructors: Constructors,
) -> Result<Option<Exposing>, NoMemory>
    ensures { IfOk result (λ made. made ≡ spec.named name.now constructors) }
{
    let at = nowhere();
    let name = Name::of(alloc, name)?;
    only(
        alloc,
        Item::Named {
            at,
            name,
            constructors,
        },
    )
}

/// Appends the import of a module, if it stands before the one for which it is.
fn push_default(
    alloc: Global,
    of: &[u8],
    module: &[u8],
    exposes: Option<Exposing>,
    out: &mut Items<Import>,
) -> Result<(), NoMemory>
    ensures { OnOk result (out.new ≡ out.old ++ spec.default_of of.now «module».now exposes) }
{
    if library_place(module) >= library_place(of) {
        return Ok(());
    }
    let module = Name::of(alloc, module)?;
    out.push(Import {
        at: nowhere(),
        module,
        alias: None,
        exposes,
    })?;
    Ok(())
}

fn push_first(alloc: Global, of: &[u8], out: &mut Items<Import>) -> Result<(), NoMemory>
    ensures { OnOk result (out.new ≡ out.old ++ spec.first_defaults of.now) }
{
    push_default(alloc, of, b"Basics", Some(Exposing::All), out)?;
    push_default(alloc, of, b"List", operator(alloc, b"::")?, out)
}

fn push_second(alloc: Global, of: &[u8], out: &mut Items<Import>) -> Result<(), NoMemory>
    ensures { OnOk result (out.new ≡ out.old ++ spec.second_defaults of.now) }
{
    push_default(
        alloc,
        of,
        b"Maybe",
        named(alloc, b"Maybe", Constructors::All)?,
        out,
    )?;
    push_default(
        alloc,
        of,
        b"Result",
        named(alloc, b"Result", Constructors::All)?,
        out,
    )
}

fn push_third(alloc: Global, of: &[u8], out: &mut Items<Import>) -> Result<(), NoMemory>
    ensures { OnOk result (out.new ≡ out.old ++ spec.third_defaults of.now) }
{
    push_default(
        alloc,
        of,
        b"Signal",
        named(alloc, b"Signal", Constructors::Hidden)?,
        out,
    )?;
    push_default(alloc, of, b"Debug", None, out)?;
    push_default(alloc, of, b"String", None, out)
}

/// The imports with which the module of this name begins.
pub fn defaults_for(alloc: Global, of: &[u8]) -> Result<Items<Import>, NoMemory>
    ensures { IfOk result (λ imports. imports ≡ spec.defaults_for of.now) }
{
    let mut imports = Items::new(alloc);
    push_first(alloc, of, &mut imports)?;
    push_second(alloc, of, &mut imports)?;
    push_third(alloc, of, &mut imports)?;
    Ok(imports)
}
