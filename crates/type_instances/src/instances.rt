//! The instances of a written type.
ghost use Rattle.std.specs.Prelude.{◌≡◌, IfOk, true};
ghost use Rattle.typing_rules.specs.WrittenTypes.{IsInstance};
ghost use Rattle.written_sorts.specs.Sorting.{bars_hold};
ghost use Rattle.type_sense.specs.WrittenOf.{written_of};
ghost use Rattle.type_conditions.specs.Judging.{Adds, IsWell};
ghost use Rattle.type_instances.specs.Building.{Chooses};
ghost use Rattle.type_instances.specs.Tables.{EachVariable, IsUsed, Serves};
ghost use Rattle.type_instances.specs.Uses.{uses};

use crate::building::build;
use crate::table::{Variable, choose};
use crate::uses::push_uses;
use elm_base::{NoMemory, TypeTree};
use sqlite_items::Items;
use std::alloc::Global;
use type_conditions::Conditions;
use type_terms::TermId;

/// New terms for the variables of the type, which has no aliases: of each name any type that the name allows, and a record
/// where it stands before a bar.
pub fn variables_of(
    alloc: Global,
    tree: &TypeTree,
    conditions: &mut Conditions,
) -> Result<Items<Variable>, NoMemory>
    ensures chooses { IfOk result (Chooses conditions.old conditions.new) }
    ensures serves { IfOk result (λ table. Serves table (uses (written_of tree.now))) }
    ensures used { IfOk result (EachVariable (IsUsed (uses (written_of tree.now)))) }
{
    let mut uses = Items::new(alloc);
    push_uses(alloc, tree, &mut uses)?;
    choose(alloc, uses.as_slice(), conditions)
}

/// A new term for an instance of the type, which has no aliases, and no variable before a bar whose name restricts it.
pub fn instance(
    alloc: Global,
    tree: &TypeTree,
    conditions: &mut Conditions,
) -> Result<TermId, NoMemory>
    requires { bars_hold (written_of tree.now) ≡ true }
    ensures { IfOk result (Adds conditions.old conditions.new
        (λ chosen s type. IsWell chosen type × IsInstance (written_of tree.now) type)) }
{
    let table = variables_of(alloc, tree, conditions)?;
    build(alloc, tree, table.as_slice(), conditions)
}
