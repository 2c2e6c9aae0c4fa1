//! The beginning of a visit: the file of a module is read, and its module found.
ghost use Rattle.std.specs.Prelude.{◌≡◌, ◌<◌, ◌≤◌, ℕ, List, length, Option, Some, None, if◌then◌else◌, IfOk, IfSome};
ghost use Rattle.std.specs.Option.{option_copied};
ghost use Rattle.module_visits.specs.Answers.{CountsLoad, OpensAs};
ghost use Rattle.module_visits.specs.Files as spec;
ghost use Rattle.module_visits.specs.Opening.{most_modules};
ghost use Rattle.module_visits.specs.Reading.{Parses, IsText, ReadsFile, ReadsModule, IsNamed, OpensFile, FailsInside, IsFaultOrMemory, asker};

use crate::stop::LoadStop;
use elm_base::{FaultKind, Halt, Module, Name, NoMemory, ProjectFault};
use layout_lexer::{TextFault, tokens};
use module_parser::module;
use reactor_outside::{Shelf, ShelfRefusal};
use script_lines::is_file_name;
use std::alloc::{AllocError, Global};
use std::str;

/// How many bytes a source file has at most.
const MAX_FILE: usize = 262_144;

/// How many modules a project has at most, the library's aside.
pub const MAX_MODULES: usize = 100;

/// By whom a module is asked for: a module, at a line.
#[derive(Clone, Copy)]
pub struct Importer<'a> {
    pub name: &'a [u8],
    pub line: u32,
}

/// What stands in the folder for a module.
#[derive(Drop)]
enum FileText {
    Missing,
    TooLong,
    Text(Vec<u8>),
}

fn slashed(byte: u8) -> u8
    ensures { result ≡ spec.slash_for byte }
{
    if byte == b'.' { b'/' } else { byte }
}

/// The file of the module in the folder: `A.B` stands in `A/B.elm`.
fn path_of(alloc: Global, folder: &str, name: &[u8]) -> Result<Vec<u8>, NoMemory>
    ensures { IfOk result (λ path. path.items ≡ spec.file_of folder.now name.now) }
{
    let mut path = Vec::from_slice(alloc, folder.as_bytes())?;
    path.push(b'/')?;
    for byte in name {
        path.push(slashed(*byte))?;
    }
    path.extend_from_slice(b".elm")?;
    Ok(path)
}

/// The path as the name of a file, if it is one.
fn as_file_name(path: &[u8]) -> Option<&str>
    ensures { option_copied result ≡ (if spec.names_file path.now then Some path.now else None) }
{
    match str::from_utf8(path) {
        Ok(name) => if_named(name, is_file_name(path)),
        Err(_) => None,
    }
}

/// The name, where the test passes.
fn if_named(name: &str, passes: bool) -> Option<&str>
    ensures { option_copied result ≡ (if passes then Some name.now else None) }
{
    if passes { Some(name) } else { None }
}

/// What stands in the folder for the module. What isn't the name of a file is missing.
fn read_file<H: Shelf>(
    alloc: Global,
    shelf: &mut H,
    folder: &str,
    name: &[u8],
) -> Result<FileText, LoadStop>
    ensures count { CountsLoad (H.faults shelf.old) (H.faults shelf.new) result }
    ensures file { IfSome (H.files shelf.old) (λ files. ReadsFile files folder.now name.now result) }
    ensures same { H.files shelf.new ≡ H.files shelf.old }
{
    let path = path_of(alloc, folder, name)?;
    let Some(file) = as_file_name(&path) else {
        return Ok(FileText::Missing);
    };
    match shelf.read(alloc, file, MAX_FILE) {
        Ok(text) => Ok(FileText::Text(text)),
        Err(ShelfRefusal::Missing) => Ok(FileText::Missing),
        Err(ShelfRefusal::TooLong) => Ok(FileText::TooLong),
        Err(ShelfRefusal::Failed) => Err(LoadStop::Shelf(Name::from_vec(path))),
        Err(ShelfRefusal::NoMemory) => Err(LoadStop::NoMemory),
    }
}

/// The one module of the text, or its first fault.
fn parsed(alloc: Global, text: &[u8]) -> Result<Module, Halt<TextFault>>
    ensures { Parses text.now result }
{
    match tokens(alloc, text) {
        Ok(found) => module(alloc, found.as_slice()),
        Err(halt) => Err(halt),
    }
}

fn fault_in(
    alloc: Global,
    module: &[u8],
    line: u32,
    kind: FaultKind,
    name: &[u8],
) -> Result<ProjectFault, NoMemory>
    ensures { IfOk result (λ fault. fault ≡ spec.fault_in «module».now line kind name.now) }
{
    let module = Name::of(alloc, module)?;
    let name = Name::of(alloc, name)?;
    Ok(ProjectFault {
        module,
        line,
        kind,
        name,
    })
}

/// The stop for a fault of this module, or for want of memory.
pub fn stop_in(alloc: Global, module: &[u8], line: u32, kind: FaultKind, name: &[u8]) -> LoadStop
    ensures { IsFaultOrMemory (spec.fault_in «module».now line kind name.now) result }
{
    match fault_in(alloc, module, line, kind, name) {
        Ok(fault) => LoadStop::Fault(fault),
        Err(NoMemory) => LoadStop::NoMemory,
    }
}

/// The module of the text, which was read for the module of this name.
fn read_module(alloc: Global, name: &[u8], text: &[u8]) -> Result<Module, LoadStop>
    ensures reads { length text.now ≤ spec.most_bytes → ReadsModule name.now text.now result }
    ensures inside { FailsInside result }
{
    match parsed(alloc, text) {
        Ok(found) => named(alloc, name, found),
        Err(Halt::Because(fault)) => Err(stop_in(alloc, name, fault.line, fault.kind, b"")),
        Err(Halt::NoMemory) => Err(LoadStop::NoMemory),
    }
}

/// The module, where it has this name.
fn named(alloc: Global, name: &[u8], found: Module) -> Result<Module, LoadStop>
    ensures { IsNamed name.now found result }
{
    if found.name.bytes() == name {
        return Ok(found);
    }
    let kind = FaultKind::NameMismatch;
    Err(stop_in(alloc, name, found.at.line, kind, found.name.bytes()))
}

/// The module of what stands in its file, as one more than so many that are visited.
fn opened(
    alloc: Global,
    file: FileText,
    count: usize,
    by: Importer<'_>,
    name: &[u8],
) -> Result<Module, LoadStop>
    ensures room { IfOk result (λ _. count < most_modules) }
    ensures inside { FailsInside result }
    ensures opens { (held : Option (List ℕ)) → IsText held file
        → OpensFile held count (asker by.entry) name.now result }
{
    match file {
        FileText::Missing => {
            let kind = FaultKind::MissingModule;
            Err(stop_in(alloc, by.name, by.line, kind, name))
        }
        _ if count >= MAX_MODULES => {
            let kind = FaultKind::TooLarge;
            Err(stop_in(alloc, by.name, by.line, kind, name))
        }
        FileText::TooLong => Err(stop_in(alloc, name, 0, FaultKind::TooLarge, b"")),
        FileText::Text(text) => read_module(alloc, name, &text),
    }
}

/// The module of this name, read for the one that asks, as one more than so many that are visited.
pub fn open<H: Shelf>(
    alloc: Global,
    shelf: &mut H,
    folder: &str,
    count: usize,
    by: Importer<'_>,
    name: &[u8],
) -> Result<Module, LoadStop>
    ensures room { IfOk result (λ _. count < most_modules) }
    ensures count { CountsLoad (H.faults shelf.old) (H.faults shelf.new) result }
    ensures opens { IfSome (H.files shelf.old) (λ files.
        OpensAs files folder.now count (asker by.entry) name.now result) }
    ensures same { H.files shelf.new ≡ H.files shelf.old }
{
    let file = read_file(alloc, shelf, folder, name)?;
    opened(alloc, file, count, by, name)
}
