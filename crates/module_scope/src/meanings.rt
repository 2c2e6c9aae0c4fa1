//! What the names that a module uses stand for.
ghost use Rattle.std.specs.Prelude.{◌≡◌, ◌++◌, OnOk, IfOk};
ghost use Rattle.module_scope.specs.Meanings as spec;

use elm_base::{Meaning, Name, NoMemory, Thing};
use module_names::{Answer, Use};
use sqlite_items::Items;
use std::alloc::Global;

fn copy_thing(alloc: Global, thing: &Thing) -> Result<Thing, NoMemory>
    ensures { IfOk result (λ copied. copied ≡ thing.now) }
{
    match thing {
        Thing::Local { binder } => Ok(Thing::Local { binder: *binder }),
        Thing::Top { module, name } => {
            let module = module.copy(alloc)?;
            let name = name.copy(alloc)?;
            Ok(Thing::Top { module, name })
        }
        Thing::Constructor { module, name } => {
            let module = module.copy(alloc)?;
            let name = name.copy(alloc)?;
            Ok(Thing::Constructor { module, name })
        }
        Thing::Maker { module, name } => {
            let module = module.copy(alloc)?;
            let name = name.copy(alloc)?;
            Ok(Thing::Maker { module, name })
        }
    }
}

/// Appends the meaning of a use. One that stands for nothing has none.
fn push_meaning(
    alloc: Global,
    module: &Name,
    used: &Use,
    out: &mut Items<Meaning>,
) -> Result<(), NoMemory>
    ensures { OnOk result (out.new ≡ out.old ++ spec.meaning_of «module».now used.now) }
{
    match &used.answer {
        Answer::Stands { thing } => {
            let thing = copy_thing(alloc, thing)?;
            let module = module.copy(alloc)?;
            let at = used.spot.at;
            out.push(Meaning { module, at, thing })?;
            Ok(())
        }
        Answer::Unknown | Answer::Ambiguous => Ok(()),
    }
}

/// Appends the meanings of a module's uses.
pub fn push_meanings(
    alloc: Global,
    module: &Name,
    uses: &[Use],
    out: &mut Items<Meaning>,
) -> Result<(), NoMemory>
    ensures { OnOk result (out.new ≡ out.old ++ spec.meanings_of «module».now uses.now) }
{
    for used in uses {
        push_meaning(alloc, module, used, out)?;
    }
    Ok(())
}
