//! The types that the modules of a project declare.
ghost use Rattle.std.specs.Prelude.{◌≡◌, ◌∷◌, [], ◌++◌, OnOk, IfOk};
ghost use Rattle.std.specs.List.{flat_map};
ghost use Rattle.module_names.specs.Faces as faces;
ghost use Rattle.type_names.specs.Known as spec;

use elm_base::{Declaration, Exposing, Item, Module, Name, NoMemory};
use sqlite_items::Items;
use std::alloc::Global;

/// A type that a module of a project declares.
#[derive(Drop)]
pub struct KnownType {
    pub module: Name,
    pub name: Name,
    /// How many arguments it takes.
    pub takes: usize,
    /// Whether it is an alias, and no union or type without structure.
    pub alias: bool,
    /// Whether its module shows it to those that import the module.
    pub shown: bool,
}

impl KnownType {
    /// An equal one of its own.
    pub fn copy(&self, alloc: Global) -> Result<KnownType, NoMemory>
        ensures { IfOk result (λ copied. copied ≡ self.now) }
    {
        let module = self.module.copy(alloc)?;
        let name = self.name.copy(alloc)?;
        Ok(KnownType {
            module,
            name,
            takes: self.takes,
            alias: self.alias,
            shown: self.shown,
        })
    }
}

fn picks_type(item: &Item, name: &[u8]) -> bool
    ensures { result ≡ faces.picks_type item.now name.now }
{
    match item {
        Item::Named { name: written, .. } => written.bytes() == name,
        _ => false,
    }
}

fn some_picks_type(items: &[Item], name: &[u8]) -> bool
    ensures { result ≡ faces.some_picks_type items.now name.now }
{
    for item in items {
        if picks_type(item, name) {
            return true;
        }
    }
    false
}

/// Whether the list of exposed names shows the type.
pub fn shows_type(exposes: &Exposing, name: &[u8]) -> bool
    ensures { result ≡ faces.shows_type exposes.now name.now }
{
    match exposes {
        Exposing::All => true,
        Exposing::Items(items) => some_picks_type(items.as_slice(), name),
    }
}

/// Appends a type of the module.
fn push_as(
    alloc: Global,
    module: &Module,
    name: &Name,
    takes: usize,
    alias: bool,
    out: &mut Items<KnownType>,
) -> Result<(), NoMemory>
    ensures { OnOk result (out.new ≡ out.old
        ++ spec.known_as «module».now.name «module».now.exposes name.now takes alias ∷ []) }
{
    let shown = shows_type(&module.exposes, name.bytes());
    let module = module.name.copy(alloc)?;
    let name = name.copy(alloc)?;
    out.push(KnownType {
        module,
        name,
        takes,
        alias,
        shown,
    })?;
    Ok(())
}

/// Appends the type that a declaration of the module declares, if it declares one.
fn push_declared(
    alloc: Global,
    module: &Module,
    declaration: &Declaration,
    out: &mut Items<KnownType>,
) -> Result<(), NoMemory>
    ensures { OnOk result (out.new ≡ out.old
        ++ spec.known_by «module».now.name «module».now.exposes declaration.now) }
{
    match declaration {
        Declaration::Union {
            name,
            parameters,
            ..
        } => push_as(alloc, module, &name.name, parameters.len(), false, out),
        Declaration::Alias {
            name,
            parameters,
            ..
        } => push_as(alloc, module, &name.name, parameters.len(), true, out),
        Declaration::Opaque {
            name,
            parameters,
            ..
        } => push_as(alloc, module, name, parameters.len(), false, out),
        _ => Ok(()),
    }
}

fn push_known(alloc: Global, home: &Module, out: &mut Items<KnownType>) -> Result<(), NoMemory>
    ensures { OnOk result (out.new ≡ out.old ++ spec.known_of home.now) }
{
    let declarations = home.declarations.as_slice();
    for declaration in declarations {
        push_declared(alloc, home, declaration, out)?;
    }
    Ok(())
}

/// The types that these modules declare, in their order.
pub fn known_types(alloc: Global, modules: &[Module]) -> Result<Items<KnownType>, NoMemory>
    ensures { IfOk result (λ types. types ≡ spec.known_in modules.now) }
{
    let mut known = Items::new(alloc);
    for home in modules {
        push_known(alloc, home, &mut known)?;
    }
    Ok(known)
}
