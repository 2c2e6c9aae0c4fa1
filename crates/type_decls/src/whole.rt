//! All modules of a project.
ghost use Rattle.std.specs.Prelude.{◌≡◌, ◌++◌, ◌∷◌, [], IfOk, IfErr};
ghost use Rattle.std.specs.List.{flat_map};
ghost use Rattle.elm_base.specs.declared.fault.ProjectFault.{ProjectFault};
ghost use Rattle.elm_base.specs.declared.memory.Halt.TheVariants as halt;
ghost use Rattle.decl_faults.specs.Sense.{by_table};
ghost use Rattle.decl_faults.specs.Faults.{IsDeclFault};
ghost use Rattle.type_decls.specs.Unions as unions;
ghost use Rattle.type_decls.specs.Aliases as aliases;
ghost use Rattle.type_decls.specs.Ports as ports;
ghost use Rattle.type_decls.specs.Declaring as spec;

use crate::basics::built_in;
use crate::one_module::push_declared;
use alias_expansion::{PlainAlias, Room, plain_aliases};
use decl_faults::decl_fault;
use elm_base::{Decls, Halt, Module, NoMemory, ProjectFault, Resolved};
use sqlite_items::Items;
use std::alloc::Global;
use type_names::{KnownType, known_types};

/// What these modules declare, where their project declares these types and has these aliases.
fn declared(
    alloc: Global,
    types: &[KnownType],
    plains: &[PlainAlias],
    modules: &[Module],
) -> Result<Decls, NoMemory>
    ensures unions { IfOk result (λ decls. decls.unions ≡ unions.bool_union ∷ unions.order_union
        ∷ flat_map (unions.unions_of (by_table plains.now) types.now) modules.now) }
    ensures aliases { IfOk result (λ decls. decls.aliases
        ≡ flat_map (aliases.aliases_of (by_table plains.now) types.now) modules.now) }
    ensures ports { IfOk result (λ decls. decls.ports
        ≡ flat_map (ports.ports_of (by_table plains.now) types.now) modules.now) }
{
    let mut room = Room::new();
    let mut decls = Decls {
        unions: built_in(alloc)?,
        aliases: Items::new(alloc),
        ports: Items::new(alloc),
    };
    for home in modules {
        push_declared(alloc, types, plains, home, &mut room, &mut decls)?;
    }
    Ok(decls)
}

/// The declared types and ports of a project whose modules have no fault in them.
fn declared_of(alloc: Global, modules: &[Module]) -> Result<Decls, NoMemory>
    ensures { IfOk result (λ decls. spec.AreDeclared modules.now decls) }
{
    let types = known_types(alloc, modules)?;
    let plains = plain_aliases(alloc, types.as_slice(), modules)?;
    declared(alloc, types.as_slice(), plains.as_slice(), modules)
}

/// The declared types and ports of a project, or their first fault. Unions are Bool and Order of Basics, then those that the
/// modules declare, in the order of the modules, by line; aliases and ports stand in the same order. Each alias in their types
/// is written out, and each type is named with its module.
pub fn declare(alloc: Global, resolved: &Resolved) -> Result<Decls, Halt<ProjectFault>>
    ensures declared { IfOk result (λ decls. spec.IsDeclared resolved.now.project.modules decls) }
    ensures refused { IfErr result (λ cause. (fault : ProjectFault) → cause ≡ halt.Because fault
        → IsDeclFault resolved.now.project.modules fault) }
{
    let modules = resolved.project.modules.as_slice();
    match decl_fault(alloc, modules)? {
        Some(fault) => Err(Halt::Because(fault)),
        None => {
            let decls = declared_of(alloc, modules)?;
            Ok(decls)
        }
    }
}
