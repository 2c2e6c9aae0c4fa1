//! What loading a project gives, as a text.
use elm_base::{FaultKind, Module, Name, ProjectFault};
use module_scope::{LoadStop, load};
use reactor_outside::{MemShelf, Shelf};
use std::alloc::{AllocError, Global};
use std::fmt::Write;
use std::str;
use std::test::Fail;

fn put_name(out: &mut String, name: &Name) -> Result<(), AllocError> {
    let name = name.bytes();
    let shown = if name.is_empty() { b"-" } else { name };
    out.push_str(str::from_utf8(shown).unwrap_or("?"))
}

fn kind_text(kind: FaultKind) -> &'static str {
    match kind {
        FaultKind::MissingModule => "MissingModule",
        FaultKind::TooLarge => "TooLarge",
        FaultKind::NotUtf8 => "NotUtf8",
        FaultKind::Tab => "Tab",
        FaultKind::BadChar => "BadChar",
        FaultKind::OpenString => "OpenString",
        FaultKind::OpenComment => "OpenComment",
        FaultKind::IntTooWide => "IntTooWide",
        FaultKind::Excluded => "Excluded",
        FaultKind::BadHeader => "BadHeader",
        FaultKind::BadDeclaration => "BadDeclaration",
        FaultKind::NameMismatch => "NameMismatch",
        FaultKind::ImportCycle => "ImportCycle",
        _ => "?",
    }
}

fn put_fault(out: &mut String, fault: &ProjectFault) -> Result<(), AllocError> {
    put_name(out, &fault.module)?;
    let line = fault.line;
    let kind = kind_text(fault.kind);
    write!(out, " {line} {kind} ")?;
    put_name(out, &fault.name)
}

fn put_modules(out: &mut String, modules: &[Module]) -> Result<(), AllocError> {
    for module in modules {
        put_name(out, &module.name)?;
        out.push_str(";")?;
    }
    Ok(())
}

fn put_stop(out: &mut String, stop: &LoadStop) -> Result<(), AllocError> {
    match stop {
        LoadStop::Fault(fault) => put_fault(out, fault),
        LoadStop::Shelf(file) => {
            out.push_str("failed ")?;
            put_name(out, file)
        }
        LoadStop::NoMemory => out.push_str("out of memory"),
    }
}

/// The names of the modules of the project in this folder of the shelf, or its fault.
pub fn outcome<H: Shelf>(alloc: Global, shelf: &mut H, folder: &str) -> Result<String, Fail> {
    let mut out = String::new(alloc);
    match load(alloc, shelf, folder) {
        Ok(project) => put_modules(&mut out, project.modules.as_slice())?,
        Err(stop) => put_stop(&mut out, &stop)?,
    }
    Ok(out)
}

/// A shelf with the files of a text: a line `= NAME` stands before each file of the folder `p`.
pub fn shelf_of(alloc: Global, failing: Vec<u64>, text: &str) -> Result<MemShelf, Fail> {
    let mut shelf = MemShelf::new(alloc, failing);
    for file in text.split("= ") {
        let (name, lines) = file.split_once('\n').unwrap_or((file, ""));
        let mut path = String::from_str(alloc, "p/")?;
        path.push_str(name)?;
        shelf.add(path.as_str(), lines.as_bytes())?;
    }
    Ok(shelf)
}
