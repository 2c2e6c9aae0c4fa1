//! The places of a project at which a case is missing.
ghost use Rattle.std.specs.Prelude.{◌≡◌, ◌++◌, IfOk, OnOk};
ghost use Rattle.std.specs.List.Sorted.{IsPermutation, IsNonDecreasingBy};
ghost use Rattle.case_check.specs.Warnings as spec;

use crate::asked::forms_of;
use crate::search::missing_of;
use case_places::{Place, push_places};
use elm_base::{Module, Name, NoMemory, Typed, Warning};
use sqlite_items::Items;
use std::alloc::Global;

/// Appends a warning where something is missing at the place.
fn push_warning(
    alloc: Global,
    typed: &Typed,
    module: &Name,
    place: &Place,
    out: &mut Vec<Warning>,
) -> Result<(), NoMemory>
    ensures { OnOk result (out.new.items ≡ out.old.items ++ spec.warning_at typed.now «module».now place.now) }
{
    let forms = forms_of(alloc, typed, module, place.patterns.as_slice())?;
    match missing_of(alloc, forms.as_slice())? {
        None => Ok(()),
        Some(_) => {
            let module = module.copy(alloc)?;
            out.push(Warning {
                module,
                line: place.at.line,
                column: place.at.column,
            })?;
            Ok(())
        }
    }
}

fn push_all_warnings(
    alloc: Global,
    typed: &Typed,
    module: &Name,
    places: &[Place],
    out: &mut Vec<Warning>,
) -> Result<(), NoMemory>
    ensures { OnOk result (out.new.items ≡ out.old.items ++ spec.warnings_at typed.now «module».now places.now) }
{
    for place in places {
        push_warning(alloc, typed, module, place, out)?;
    }
    Ok(())
}

fn number(line: u32, column: u32) -> u64
    ensures { result ≡ spec.number line column }
{
    u64::from(line) * (1 << 32) + u64::from(column)
}

fn sort(warnings: &mut Vec<Warning>) -> Result<(), NoMemory>
    ensures all { OnOk result (IsPermutation warnings.old.items warnings.new.items) }
    ensures sorted { OnOk result (IsNonDecreasingBy spec.place_number warnings.new.items) }
{
    warnings.sort_by_key(|warning| number(warning.line, warning.column))?;
    Ok(())
}

/// The warnings of a module, by line and column.
fn warnings_in(alloc: Global, typed: &Typed, module: &Module) -> Result<Items<Warning>, NoMemory>
    ensures { IfOk result (λ found. spec.AreWarningsIn typed.now «module».now found) }
{
    let mut places = Items::new(alloc);
    push_places(alloc, module, &mut places)?;
    let mut found = Vec::new(alloc);
    push_all_warnings(alloc, typed, &module.name, places.as_slice(), &mut found)?;
    sort(&mut found)?;
    Ok(Items::from_vec(found))
}

/// A warning at each place at which something is missing, in the order of modules, in each by line and column.
pub fn warnings(alloc: Global, typed: &Typed) -> Result<Items<Warning>, NoMemory>
    ensures { IfOk result (λ found. spec.AreWarnings typed.now found) }
{
    let mut found = Items::new(alloc);
    for module in typed.resolved.project.modules.as_slice() {
        let more = warnings_in(alloc, typed, module)?;
        found.append(more)?;
    }
    Ok(found)
}
