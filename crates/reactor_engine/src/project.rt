//! The project: its one file, and the program that it gives.
ghost use Rattle.std.specs.Prelude.{◌≡◌, IfSome, IfOk, string_bytes};
ghost use Rattle.reactor_engine.specs.Project as spec;
ghost use Rattle.reactor_engine.specs.Loading.{Loads, CountsLoad, NamesMain, ReadsText, IsFaultOrMemory};

use crate::form::port_of;
use elm_base::{FaultKind, Halt, Name, NoMemory, ProjectFault};
use layout_lexer::tokens;
use reactor_outside::{Shelf, ShelfRefusal};
use std::alloc::{AllocError, Global};

/// How many bytes a source file has at most.
const MAX_FILE: usize = 262_144;

/// Why a project gives no program.
#[derive(Drop)]
pub enum LoadStop {
    /// The project has this fault.
    Fault(ProjectFault),
    /// A call on the shelf failed, on this file.
    Shelf(Name),
    NoMemory,
}

impl From<NoMemory> for LoadStop {
    ghost use Rattle.std.specs.Prelude.{◌≡◌};
    ghost use Rattle.reactor_engine.specs.declared.project.LoadStop.TheVariants as stop;

    ghost from_gives = { λ _ given. given ≡ stop.NoMemory };

    fn from(_: NoMemory) -> LoadStop {
        LoadStop::NoMemory
    }
}

impl From<AllocError> for LoadStop {
    ghost use Rattle.std.specs.Prelude.{◌≡◌};
    ghost use Rattle.reactor_engine.specs.declared.project.LoadStop.TheVariants as stop;

    ghost from_gives = { λ _ given. given ≡ stop.NoMemory };

    fn from(_: AllocError) -> LoadStop {
        LoadStop::NoMemory
    }
}

/// The program of a project, known by its port, or why there is none.
pub fn load<H: Shelf>(alloc: Global, shelf: &mut H, project: &str) -> Result<Name, LoadStop>
    ensures count { CountsLoad (H.faults shelf.old) (H.faults shelf.new) result }
    ensures answer { IfSome (H.files shelf.old) (λ files. Loads files project.now result) }
    ensures named { NamesMain project.now result }
    ensures same { H.files shelf.new ≡ H.files shelf.old }
{
    let file = main_file(alloc, project)?;
    match shelf.read(alloc, file.as_str(), MAX_FILE) {
        Ok(text) => read_program(alloc, &text),
        Err(ShelfRefusal::Missing) => Err(main_fault(alloc, 0, FaultKind::MissingModule, b"Main")),
        Err(ShelfRefusal::TooLong) => Err(main_fault(alloc, 0, FaultKind::TooLarge, b"")),
        Err(ShelfRefusal::Failed) => { Err(LoadStop::Shelf(Name::from_vec(file.into_bytes()))) }
        Err(ShelfRefusal::NoMemory) => Err(LoadStop::NoMemory),
    }
}

fn main_file(alloc: Global, project: &str) -> Result<String, AllocError>
    ensures { IfOk result (λ file. string_bytes file ≡ spec.main_file project.now) }
{
    let mut file = String::from_str(alloc, project)?;
    file.push_str("/Main.elm")?;
    Ok(file)
}

/// The program of the text of Main, or the text's fault.
fn read_program(alloc: Global, text: &[u8]) -> Result<Name, LoadStop>
    ensures { ReadsText text.now result }
{
    match tokens(alloc, text) {
        Ok(found) => match port_of(&found) {
            Some(port) => Ok(Name::of(alloc, port)?),
            None => Err(main_fault(alloc, 0, FaultKind::Unsupported, b"")),
        },
        Err(Halt::Because(fault)) => Err(main_fault(alloc, fault.line, fault.kind, b"")),
        Err(Halt::NoMemory) => Err(LoadStop::NoMemory),
    }
}

/// The stop for a fault of the module Main, or for want of memory.
fn main_fault(alloc: Global, line: u32, kind: FaultKind, name: &[u8]) -> LoadStop
    ensures { IsFaultOrMemory (spec.main_fault line kind name.now) result }
{
    match fault_of(alloc, line, kind, name) {
        Ok(fault) => LoadStop::Fault(fault),
        Err(NoMemory) => LoadStop::NoMemory,
    }
}

fn fault_of(
    alloc: Global,
    line: u32,
    kind: FaultKind,
    name: &[u8],
) -> Result<ProjectFault, NoMemory>
    ensures { IfOk result (λ fault. fault ≡ spec.main_fault line kind name.now) }
{
    let module = Name::of(alloc, b"Main")?;
    let name = Name::of(alloc, name)?;
    Ok(ProjectFault {
        module,
        line,
        kind,
        name,
    })
}
