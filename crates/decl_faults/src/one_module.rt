//! One module of a project.
ghost use Rattle.std.specs.Prelude.{◌≡◌, ◌++◌, OnOk, IfOk, length};
ghost use Rattle.bit_rows.specs.Table.{bit_of};
ghost use Rattle.decl_faults.specs.Flaws as spec;
ghost use Rattle.decl_faults.specs.Sense.{by_table};
ghost use Rattle.decl_faults.specs.Deciding.{sensible};

use crate::judging::push_senseless_in;
use crate::ports::{push_portless_in, push_surplus};
use alias_cycles::AliasText;
use alias_expansion::{PlainAlias, Room};
use bit_rows::BitRows;
use elm_base::{Module, NoMemory};
use module_names::{Flaw, defaults_for};
use sqlite_items::Items;
use std::alloc::Global;
use type_faults::faults_in as faults_in_texts;
use type_names::{KnownType, TypeScope};

fn push_beside_texts(
    alloc: Global,
    types: &[KnownType],
    plains: &[PlainAlias],
    home: &Module,
    room: &mut Room,
    out: &mut Items<Flaw>,
) -> Result<(), NoMemory>
    ensures { OnOk result (out.new ≡ out.old
        ++ spec.beside_texts sensible types.now (by_table plains.now) home.now) }
{
    let defaults = defaults_for(alloc, home.name.bytes())?;
    let scope = TypeScope {
        types,
        name: &home.name,
        defaults: defaults.as_slice(),
        imports: home.imports.as_slice(),
    };
    let declarations = home.declarations.as_slice();
    push_senseless_in(alloc, declarations, plains, &scope, room, out)?;
    push_portless_in(alloc, declarations, plains, &scope, room, out)?;
    push_surplus(alloc, declarations, out)
}

/// What is wrong with the types and ports that a module declares, where its project declares these types and has these aliases.
pub fn faults_in(
    alloc: Global,
    types: &[KnownType],
    aliases: &[AliasText],
    reached: &BitRows,
    plains: &[PlainAlias],
    home: &Module,
    room: &mut Room,
) -> Result<Items<Flaw>, NoMemory>
    requires height { length reached.now.rows ≡ length aliases.now }
    requires width { reached.now.bits ≡ length aliases.now }
    ensures { IfOk result (λ faults. faults ≡ spec.faults_in
        sensible types.now aliases.now (bit_of reached.now) (by_table plains.now) home.now) }
{
    let mut faults = faults_in_texts(alloc, types, aliases, reached, home)?;
    push_beside_texts(alloc, types, plains, home, room, &mut faults)?;
    Ok(faults)
}
