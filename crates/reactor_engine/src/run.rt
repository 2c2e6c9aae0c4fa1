//! The top call.
ghost use Rattle.std.specs.Prelude.{◌≡◌, ◌≢◌, ◌⊎◌, ◌<◌, ◌≤◌, length, Err, IfSome, IsNone};
ghost use Rattle.elm_base.specs.declared.fault.ProjectFault.{ProjectFault};
ghost use Rattle.frame_text.specs.Faults.{fault_line, shelf_line};
ghost use Rattle.reactor_outside.specs.Count.{Rose};
ghost use Rattle.reactor_outside.specs.Sink.{with_bytes};
ghost use Rattle.reactor_engine.specs.Project.{Compiles, main_file};
ghost use Rattle.reactor_engine.specs.Words.{project_of};
ghost use Rattle.reactor_engine.specs.Serving.{max_script};
ghost use Rattle.reactor_engine.specs.Run.{Quiet, Ends, Run, ProjectRun, AsksFor, HasFault, IsRefusal};
ghost use Rattle.reactor_engine.specs.Run.{Tells, Reports, UntilFault, UpToLimit, usage_text};

use crate::project::{LoadStop, load};
use crate::serve::serve;
use crate::status::Status;
use crate::words::Words;
use elm_base::{Name, NoMemory, ProjectFault, Steps};
use frame_text::{write_fault, write_shelf_failure};
use reactor_outside::{Failed, Shelf, Sink, Source, put};
use std::alloc::Global;
use std::sync::ledger::Ledger;

const USAGE: &[u8] = b"usage: reactor run PROJECT\n";

/// Runs the project that the words ask for: shows its first frame, and then answers the script line by line. The
/// answers to all whole lines that were read are written before the next read.
#[tactic(auto, using(crate::proofs::Running::refused_always))]
pub fn reactor_run<H: Shelf, S: Source, K: Sink, L: Ledger>(
    alloc: Global,
    words: &Words,
    shelf: &mut H,
    script: &mut S,
    screen: &mut K,
    steps: &mut Steps<L>,
) -> Status
    // While memory suffices and nothing outside fails, what is written is the transcript of a fresh run of the
    // project, or the fault of the project, or the usage text: for every script of at most 2^30 bytes, and in whatever
    // pieces it is read.
    ensures headline { Quiet (H.faults shelf.old) (H.faults shelf.new)
        → Quiet (S.faults script.old) (S.faults script.new)
        → Quiet (K.faults screen.old) (K.faults screen.new) → result ≢ Status.NoMemory
        → IfSome (H.files shelf.old) (λ files. IfSome (S.left script.old) (λ text. length text ≤ max_script
        → Ends (project_of words.now) files text (K.taken screen.old) result (K.taken screen.new))) }

    // The words are of no form exactly where this is the answer, or its text could not be written.
    ensures usage { result ≡ Status.Usage → IsNone (project_of words.now) }
    ensures usage_always { IsNone (project_of words.now)
        → (result ≡ Status.Usage) ⊎ (result ≡ Status.WriteFault) }

    // The project has a fault exactly where this is the answer, save that a failure or want of memory may come first.
    ensures project_refused { result ≡ Status.ProjectRefused
        → AsksFor (project_of words.now) (HasFault (H.files shelf.old)) }
    ensures project_refused_always { IfSome (project_of words.now) (λ project.
        IfSome (H.files shelf.old) (λ files. (fault : ProjectFault)
        → Compiles files project (Err fault) → IsRefusal result)) }

    // A failure is answered only where the count of the object that failed shows it.
    ensures read_fault { result ≡ Status.ReadFault
        → Rose (S.faults script.old) (S.faults script.new) }
    ensures write_fault { result ≡ Status.WriteFault
        → Rose (K.faults screen.old) (K.faults screen.new) }
    ensures shelf_fault { result ≡ Status.ShelfFault
        → Rose (H.faults shelf.old) (H.faults shelf.new) }

    // And no failure is passed over: where another status is answered, the count stands as it did. A shelf's failure
    // is reported, unless its line can't be made or written.
    ensures reads_kept { result ≢ Status.ReadFault → S.faults script.new ≡ S.faults script.old }
    ensures writes_kept { result ≢ Status.WriteFault → K.faults screen.new ≡ K.faults screen.old }
    ensures shelf_kept { result ≢ Status.ShelfFault → result ≢ Status.WriteFault
        → result ≢ Status.NoMemory → H.faults shelf.new ≡ H.faults shelf.old }

    // Where a read fails, the first frame and the answers to all whole lines of the bytes before it were written; where
    // a shelf fails, the line that says so.
    ensures read_fault_wrote { result ≡ Status.ReadFault → AsksFor (project_of words.now)
        (UntilFault (H.files shelf.old) (S.left script.old) (S.left script.new)
        (K.taken screen.old) (K.taken screen.new)) }
    ensures shelf_fault_wrote { result ≡ Status.ShelfFault → AsksFor (project_of words.now) (λ project.
        K.taken screen.new ≡ with_bytes (shelf_line (main_file project)) (K.taken screen.old)) }

    // A script is too long exactly where it has more than 2^30 bytes, save for other ends before. Then the first frame
    // and the answers to all whole lines of its first 2^30 bytes were written.
    ensures script_too_long { result ≡ Status.ScriptTooLong
        → IfSome (S.left script.old) (λ text. max_script < length text) }
    ensures script_within { result ≡ Status.Done
        → IfSome (S.left script.old) (λ text. length text ≤ max_script) }
    ensures script_too_long_wrote { result ≡ Status.ScriptTooLong → AsksFor (project_of words.now)
        (UpToLimit (H.files shelf.old) (S.left script.old) (K.taken screen.old) (K.taken screen.new)) }

    // No file changes, and no step is taken: no program that is served takes one.
    ensures files { H.files shelf.new ≡ H.files shelf.old }
    ensures steps { steps.new ≡ steps.old }
{
    run(alloc, words, shelf, script, screen)
}

/// The run, in what each of its ends says.
fn run<H: Shelf, S: Source, K: Sink>(
    alloc: Global,
    words: &Words,
    shelf: &mut H,
    script: &mut S,
    screen: &mut K,
) -> Status
    ensures ends { Run (project_of words.now) (H.files shelf.old) (H.faults shelf.old)
        (H.faults shelf.new)
        (record { reads = S.faults script.old; writes = K.faults screen.old; left = S.left script.old; taken = K.taken screen.old })
        (record { reads = S.faults script.new; writes = K.faults screen.new; left = S.left script.new; taken = K.taken screen.new })
        result }
    ensures reads_kept { result ≢ Status.ReadFault → S.faults script.new ≡ S.faults script.old }
    ensures writes_kept { result ≢ Status.WriteFault → K.faults screen.new ≡ K.faults screen.old }
    ensures shelf_kept { result ≢ Status.ShelfFault → result ≢ Status.WriteFault
        → result ≢ Status.NoMemory → H.faults shelf.new ≡ H.faults shelf.old }
    ensures files { H.files shelf.new ≡ H.files shelf.old }
{
    match words.project() {
        None => show_usage(screen),
        Some(project) => run_project(alloc, project, shelf, script, screen),
    }
}

/// Writes how the program is called.
fn show_usage<K: Sink>(screen: &mut K) -> Status
    ensures told { Tells Status.Usage usage_text (K.faults screen.old) (K.faults screen.new)
        (K.taken screen.old) (K.taken screen.new) result }
    ensures kept { result ≢ Status.WriteFault → K.faults screen.new ≡ K.faults screen.old }
{
    match put(screen, USAGE) {
        Ok(()) => Status::Usage,
        Err(Failed) => Status::WriteFault,
    }
}

/// Runs a project.
fn run_project<H: Shelf, S: Source, K: Sink>(
    alloc: Global,
    project: &str,
    shelf: &mut H,
    script: &mut S,
    screen: &mut K,
) -> Status
    ensures ends { ProjectRun project.now (H.files shelf.old) (H.faults shelf.old)
        (H.faults shelf.new)
        (record { reads = S.faults script.old; writes = K.faults screen.old; left = S.left script.old; taken = K.taken screen.old })
        (record { reads = S.faults script.new; writes = K.faults screen.new; left = S.left script.new; taken = K.taken screen.new })
        result }
    ensures reads_kept { result ≢ Status.ReadFault → S.faults script.new ≡ S.faults script.old }
    ensures writes_kept { result ≢ Status.WriteFault → K.faults screen.new ≡ K.faults screen.old }
    ensures shelf_kept { result ≢ Status.ShelfFault → result ≢ Status.WriteFault
        → result ≢ Status.NoMemory → H.faults shelf.new ≡ H.faults shelf.old }
    ensures files { H.files shelf.new ≡ H.files shelf.old }
{
    match load(alloc, shelf, project) {
        Ok(port) => serve(alloc, port, script, screen),
        Err(LoadStop::Fault(fault)) => refuse(alloc, &fault, screen),
        Err(LoadStop::Shelf(file)) => report_shelf(alloc, &file, screen),
        Err(LoadStop::NoMemory) => Status::NoMemory,
    }
}

/// Writes which fault the project has.
fn refuse<K: Sink>(alloc: Global, fault: &ProjectFault, screen: &mut K) -> Status
    ensures told { Reports Status.ProjectRefused (fault_line fault.now)
        (K.faults screen.old) (K.faults screen.new)
        (K.taken screen.old) (K.taken screen.new) result }
    ensures kept { result ≢ Status.WriteFault → K.faults screen.new ≡ K.faults screen.old }
{
    let mut out = Vec::new(alloc);
    match write_fault(alloc, fault, &mut out) {
        Ok(()) => report(&out, Status::ProjectRefused, screen),
        Err(NoMemory) => Status::NoMemory,
    }
}

/// Writes which file could not be read.
fn report_shelf<K: Sink>(alloc: Global, file: &Name, screen: &mut K) -> Status
    ensures told { Reports Status.ShelfFault (shelf_line file.now)
        (K.faults screen.old) (K.faults screen.new)
        (K.taken screen.old) (K.taken screen.new) result }
    ensures kept { result ≢ Status.WriteFault → K.faults screen.new ≡ K.faults screen.old }
{
    let mut out = Vec::new(alloc);
    match write_shelf_failure(alloc, file, &mut out) {
        Ok(()) => report(&out, Status::ShelfFault, screen),
        Err(NoMemory) => Status::NoMemory,
    }
}

/// Writes a text that ends the run, and gives this status where it was written.
fn report<K: Sink>(text: &[u8], status: Status, screen: &mut K) -> Status
    ensures told { Tells status text.now (K.faults screen.old) (K.faults screen.new)
        (K.taken screen.old) (K.taken screen.new) result }
    ensures kept { result ≢ Status.WriteFault → K.faults screen.new ≡ K.faults screen.old }
{
    match put(screen, text) {
        Ok(()) => status,
        Err(Failed) => Status::WriteFault,
    }
}
