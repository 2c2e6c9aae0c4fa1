//! The visits of a project's modules, depth first from Main.
ghost use Rattle.std.specs.Prelude.{◌≡◌, ◌<◌, ◌≤◌, ◌+◌, ◌∷◌, ℕ, List, drop, length, IfSome, IfOk, IfErr, OnOk};
ghost use Rattle.module_visits.specs.Answers.{AgreesAs, CountsLoad, LoadsAs};
ghost use Rattle.module_visits.specs.Opening.{most_modules};
ghost use Rattle.module_visits.specs.Reading.{asker};
ghost use Rattle.module_visits.specs.Stack.{Asks, GivesNext, StopsAs, Turns, begun, behind_passed, modules, turns, visits_of, with_done};
ghost use Rattle.module_visits.specs.Visits as spec;
ghost use Rattle.module_visits.specs.Visits.{Loads, Outcome, with_module};
ghost use Rattle.module_visits.specs.declared.stop.LoadStop.TheVariants as stop;
ghost use Rattle.reactor_outside.specs.Shelf.{Files};

use crate::opening::{Importer, open, stop_in};
use crate::stack::{Stack, Visit, is_among};
use crate::stop::LoadStop;
use elm_base::{FaultKind, Import, Module, Project};
use reactor_outside::Shelf;
use sqlite_items::Items;
use std::alloc::Global;

/// The modules of the library.
const LIBRARY: [&[u8]; 12] = [
    b"Basics",
    b"Maybe",
    b"Result",
    b"List",
    b"Char",
    b"String",
    b"Debug",
    b"Signal",
    b"Mouse",
    b"Keyboard",
    b"Window",
    b"Graphics.Element",
];

fn is_library(name: &[u8]) -> bool
    ensures { result ≡ spec.is_library name.now }
{
    for other in LIBRARY {
        if other == name {
            return true;
        }
    }
    false
}

/// Whether the import visits nothing.
fn is_passed(ended: &[Module], import: &Import) -> bool
    ensures { result ≡ spec.is_passed ended.now import.now }
{
    is_library(import.module.bytes()) || is_among(ended, import.module.bytes())
}

/// The place of the first import, from this one on, that visits something; or how many imports there are.
fn next_place(ended: &[Module], imports: &Items<Import>, from: usize) -> usize
    ensures { drop result imports.now ≡ behind_passed ended.now (drop from imports.now) }
{
    let mut at = from;
    'imports: while at < imports.len() {
        let Some(import) = imports.get(at) else {
            return at;
        };
        if !is_passed(ended, import) {
            return at;
        }
        at += 1;
    }
    at
}

/// Who asks by the import, a place of the newest visit's module.
fn importer<'a>(module: &'a Module, import: &Import) -> Importer<'a>
    ensures { asker result ≡ spec.asked_by «module».now import.now }
{
    Importer {
        name: module.name.bytes(),
        line: import.at.line,
    }
}

/// The module that the import asks for, which is none that has been visited; it is read, or closes a cycle.
fn asked<H: Shelf>(
    alloc: Global,
    shelf: &mut H,
    folder: &str,
    under: &Stack,
    count: usize,
    module: &Module,
    import: &Import,
) -> Result<Module, LoadStop>
    ensures room { IfOk result (λ _. count < most_modules) }
    ensures count { CountsLoad (H.faults shelf.old) (H.faults shelf.new) result }
    ensures asks { IfSome (H.files shelf.old) (λ files.
        Asks files folder.now «module».now (modules (visits_of under.now)) count import.now result) }
    ensures same { H.files shelf.new ≡ H.files shelf.old }
{
    let name = import.module.bytes();
    if module.name.bytes() == name || under.holds(name) {
        let kind = FaultKind::ImportCycle;
        return Err(stop_in(alloc, module.name.bytes(), import.at.line, kind, name));
    }
    open(alloc, shelf, folder, count, importer(module, import), name)
}

/// The visit's next module: how many of its imports are done then, and the module; nothing, where all of them are done.
fn next_module<H: Shelf>(
    alloc: Global,
    shelf: &mut H,
    folder: &str,
    visit: &Visit,
    under: &Stack,
    ended: &[Module],
) -> Result<Option<(usize, Module)>, LoadStop>
    requires few { length (visits_of under.now) + 1 + length ended.now ≤ most_modules }
    ensures room { IfOk result (λ next. IfSome next (λ found.
        length (visits_of under.now) + 1 + length ended.now < most_modules)) }
    ensures count { CountsLoad (H.faults shelf.old) (H.faults shelf.new) result }
    ensures next { IfSome (H.files shelf.old) (λ files.
        GivesNext files folder.now visit.now (visits_of under.now) ended.now result) }
    ensures same { H.files shelf.new ≡ H.files shelf.old }
{
    let imports = &visit.module.imports;
    let at = next_place(ended, imports, visit.next);
    if at >= imports.len() {
        return Ok(None);
    }
    let Some(import) = imports.get(at) else {
        return Ok(None);
    };
    let count = under.len() + 1 + ended.len();
    match asked(alloc, shelf, folder, under, count, &visit.module, import) {
        Ok(found) => Ok(Some((at + 1, found))),
        Err(stop) => Err(stop),
    }
}

/// The visit ends: its module stands behind those whose visits have ended.
fn end_visit(visit: Visit, ended: &mut Items<Module>) -> Result<(), LoadStop>
    ensures ends { OnOk result (ended.new ≡ with_module visit.module ended.old) }
    ensures memory { IfErr result (λ cause. cause ≡ stop.NoMemory) }
{
    ended.push(visit.module)?;
    Ok(())
}

/// A visit begins above the one that asks for it, of which so many imports are done then.
fn begin_visit(visit: Visit, done: usize, module: Module, under: &mut Stack) -> Result<(), LoadStop>
    ensures begins { OnOk result (visits_of under.new
        ≡ begun «module» ∷ with_done done visit ∷ visits_of under.old) }
    ensures memory { IfErr result (λ cause. cause ≡ stop.NoMemory) }
{
    under.push(visit.module, done)?;
    under.push(module, 0)?;
    Ok(())
}

/// What the newest visit's next module leads to: its visit begins, or the newest visit ends, or all visits stop.
fn follow(
    next: Result<Option<(usize, Module)>, LoadStop>,
    visit: Visit,
    under: &mut Stack,
    ended: &mut Items<Module>,
) -> Result<(), LoadStop>
    requires few { length (visits_of under.old) + 1 + length ended.old ≤ most_modules }
    requires room { IfOk next (λ found. IfSome found (λ _.
        length (visits_of under.old) + 1 + length ended.old < most_modules)) }
    ensures few { OnOk result (length (visits_of under.new) + length ended.new ≤ most_modules) }
    ensures smaller { OnOk result
        (turns (visits_of under.new) ended.new < turns (visit ∷ visits_of under.old) ended.old) }
    ensures stops { StopsAs next result }
    ensures turns { (files : Files) (folder : List ℕ)
        → GivesNext files folder visit (visits_of under.old) ended.old next
        → Turns files folder (visit ∷ visits_of under.old) ended.old result (visits_of under.new) ended.new }
{
    match next {
        Err(stop) => Err(stop),
        Ok(None) => end_visit(visit, ended),
        Ok(Some((done, module))) => begin_visit(visit, done, module, under),
    }
}

/// One turn: the newest visit asks for its next module, whose visit begins, or it ends.
fn turn<H: Shelf>(
    alloc: Global,
    shelf: &mut H,
    folder: &str,
    visit: Visit,
    under: &mut Stack,
    ended: &mut Items<Module>,
) -> Result<(), LoadStop>
    requires few { length (visits_of under.old) + 1 + length ended.old ≤ most_modules }
    ensures few { OnOk result (length (visits_of under.new) + length ended.new ≤ most_modules) }
    ensures smaller { OnOk result
        (turns (visits_of under.new) ended.new < turns (visit ∷ visits_of under.old) ended.old) }
    ensures count { CountsLoad (H.faults shelf.old) (H.faults shelf.new) result }
    ensures turns { IfSome (H.files shelf.old) (λ files. Turns files folder.now
        (visit ∷ visits_of under.old) ended.old result (visits_of under.new) ended.new) }
    ensures same { H.files shelf.new ≡ H.files shelf.old }
{
    let next = next_module(alloc, shelf, folder, &visit, under, ended.as_slice());
    follow(next, visit, under, ended)
}

/// What comes of the project's visits, that of `Main` first.
fn visit_all<H: Shelf>(alloc: Global, shelf: &mut H, folder: &str) -> Result<Project, LoadStop>
    ensures count { CountsLoad (H.faults shelf.old) (H.faults shelf.new) result }
    ensures loads { IfSome (H.files shelf.old) (λ files. LoadsAs files folder.now result) }
    ensures same { H.files shelf.new ≡ H.files shelf.old }
{
    let main = Importer {
        name: b"Main",
        line: 0,
    };
    let first = open(alloc, shelf, folder, 0, main, b"Main")?;
    let mut under = Stack::new(alloc);
    under.push(first, 0)?;
    let mut ended = Items::new(alloc);
    'turns: while let Some(visit) = under.pop() {
        match turn(alloc, shelf, folder, visit, &mut under, &mut ended) {
            Ok(()) => {}
            Err(stop) => return Err(stop),
        }
    }
    Ok(Project { modules: ended })
}

/// The modules of the project in this folder of the shelf, in the order in which their visits end; or its first fault.
/// Modules are visited depth first from `Main`, in the order of import lines: the file is read, its module found, and
/// then its imports are visited. What the library has is read from no file. Where a call on the shelf fails, the answer
/// names the file: no visit before it has a fault.
pub fn load<H: Shelf>(alloc: Global, shelf: &mut H, folder: &str) -> Result<Project, LoadStop>
    ensures count { CountsLoad (H.faults shelf.old) (H.faults shelf.new) result }
    ensures loads { IfSome (H.files shelf.old) (λ files. LoadsAs files folder.now result) }
    // There is no other outcome.
    ensures exact { IfSome (H.files shelf.old) (λ files. (o : Outcome)
        → Loads files folder.now o → AgreesAs o result) }
    ensures same { H.files shelf.new ≡ H.files shelf.old }
{
    visit_all(alloc, shelf, folder)
}
