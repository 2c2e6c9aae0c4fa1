//! All modules of a project.
ghost use Rattle.std.specs.Prelude.{◌≡◌, IfOk, length};
ghost use Rattle.bit_rows.specs.Table.{bit_of};
ghost use Rattle.type_faults.specs.Finding as spec;

use crate::first::first_fault;
use crate::flaws::faults_in;
use alias_cycles::{AliasText, aliases, reached};
use bit_rows::BitRows;
use elm_base::{Module, NoMemory, ProjectFault};
use std::alloc::Global;
use type_names::{KnownType, known_types};

fn first_of_one(
    alloc: Global,
    types: &[KnownType],
    aliases: &[AliasText],
    reached: &BitRows,
    home: &Module,
) -> Result<Option<ProjectFault>, NoMemory>
    requires height { length reached.now.rows ≡ length aliases.now }
    requires width { reached.now.bits ≡ length aliases.now }
    ensures { IfOk result (λ found. found
        ≡ spec.first_of_one types.now aliases.now (bit_of reached.now) home.now) }
{
    let faults = faults_in(alloc, types, aliases, reached, home)?;
    first_fault(alloc, &home.name, faults.as_slice())
}

fn first_of(
    alloc: Global,
    types: &[KnownType],
    aliases: &[AliasText],
    reached: &BitRows,
    modules: &[Module],
) -> Result<Option<ProjectFault>, NoMemory>
    requires height { length reached.now.rows ≡ length aliases.now }
    requires width { reached.now.bits ≡ length aliases.now }
    ensures { IfOk result (λ found. found
        ≡ spec.first_of types.now aliases.now (bit_of reached.now) modules.now) }
{
    let mut left = modules;
    while let [home, more @ ..] = left {
        if let Some(fault) = first_of_one(alloc, types, aliases, reached, home)? {
            return Ok(Some(fault));
        }
        left = more;
    }
    Ok(None)
}

/// The first fault in the texts of the types of a project with these modules, if there is one, by module, line and column. It
/// stands at the declaration: a name of a type that is unknown or ambiguous, or has the wrong number of arguments; a variable of
/// a union or an alias that isn't among its parameters; a variable in an annotation of a `let` that doesn't stand for Int; an
/// alias that reaches itself.
pub fn text_fault(alloc: Global, modules: &[Module]) -> Result<Option<ProjectFault>, NoMemory>
    ensures { IfOk result (λ found. spec.Finds modules.now found) }
{
    let types = known_types(alloc, modules)?;
    let aliases = aliases(alloc, types.as_slice(), modules)?;
    let table = reached(alloc, aliases.as_slice())?;
    let found = first_of(alloc, types.as_slice(), aliases.as_slice(), &table, modules)?;
    Ok(found)
}
