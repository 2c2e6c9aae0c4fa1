//! All modules of a project.
ghost use Rattle.std.specs.Prelude.{◌≡◌, IfOk, length};
ghost use Rattle.bit_rows.specs.Table.{bit_of};
ghost use Rattle.module_scope.specs.Finding.{first_in};
ghost use Rattle.type_faults.specs.Finding.{first_by};
ghost use Rattle.decl_faults.specs.Flaws as flaws;
ghost use Rattle.decl_faults.specs.Faults as spec;
ghost use Rattle.decl_faults.specs.Sense.{by_table};
ghost use Rattle.decl_faults.specs.Deciding.{sensible};

use crate::one_module::faults_in;
use alias_cycles::{AliasText, aliases, reached};
use alias_expansion::{PlainAlias, Room, plain_aliases};
use bit_rows::BitRows;
use elm_base::{Module, NoMemory, ProjectFault};
use std::alloc::Global;
use type_faults::first_fault;
use type_names::{KnownType, known_types};

fn first_of_one(
    alloc: Global,
    types: &[KnownType],
    aliases: &[AliasText],
    reached: &BitRows,
    plains: &[PlainAlias],
    home: &Module,
    room: &mut Room,
) -> Result<Option<ProjectFault>, NoMemory>
    requires height { length reached.now.rows ≡ length aliases.now }
    requires width { reached.now.bits ≡ length aliases.now }
    ensures { IfOk result (λ found. found ≡ first_in home.now.name (flaws.faults_in
        sensible types.now aliases.now (bit_of reached.now) (by_table plains.now) home.now)) }
{
    let faults = faults_in(alloc, types, aliases, reached, plains, home, room)?;
    first_fault(alloc, &home.name, faults.as_slice())
}

fn first_of(
    alloc: Global,
    types: &[KnownType],
    aliases: &[AliasText],
    reached: &BitRows,
    plains: &[PlainAlias],
    modules: &[Module],
) -> Result<Option<ProjectFault>, NoMemory>
    requires height { length reached.now.rows ≡ length aliases.now }
    requires width { reached.now.bits ≡ length aliases.now }
    ensures { IfOk result (λ found. found ≡ first_by (flaws.faults_in
        sensible types.now aliases.now (bit_of reached.now) (by_table plains.now)) modules.now) }
{
    let mut room = Room::new();
    let mut left = modules;
    while let [home, more @ ..] = left {
        let first = first_of_one(alloc, types, aliases, reached, plains, home, &mut room)?;
        if let Some(fault) = first {
            return Ok(Some(fault));
        }
        left = more;
    }
    Ok(None)
}

/// The first fault of the types and ports that a project with these modules declares, if there is one, by module, line and
/// column. It stands at the declaration.
///
/// A type is bad where something is wrong in its text, where an alias reaches itself, or where no sorts of its variables allow
/// what is written, or something other than a record or a variable without flag stands before a bar. A port is bad outside
/// Main, where it isn't of a port's type under one `Signal`, beyond a limit, and where it is the 257th that comes in. At one
/// place a bad type comes before a bad port.
pub fn decl_fault(alloc: Global, modules: &[Module]) -> Result<Option<ProjectFault>, NoMemory>
    ensures { IfOk result (λ found. spec.Finds modules.now found) }
{
    let types = known_types(alloc, modules)?;
    let aliases = aliases(alloc, types.as_slice(), modules)?;
    let table = reached(alloc, aliases.as_slice())?;
    let plains = plain_aliases(alloc, types.as_slice(), modules)?;
    let found = first_of(
        alloc,
        types.as_slice(),
        aliases.as_slice(),
        &table,
        plains.as_slice(),
        modules,
    )?;
    Ok(found)
}
