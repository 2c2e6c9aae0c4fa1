//! Projects from texts, with a few types of a library before them, and the first fault of each as a text.
use elm_base::{FaultKind, Module, Name, NoMemory, ProjectFault};
use layout_lexer::tokens;
use module_parser::module;
use sqlite_items::Items;
use std::alloc::Global;
use std::fmt::Write;
use std::process::Abort;
use std::str;
use std::test::Fail;
use type_faults::text_fault;

/// Types of the library that the rows name.
const LIBRARY: [&str; 3] = [
    "module Basics where\ntype Bool = False | True\ntype Int = AnInt\ntype Char = AChar\ntype String = AString\ntype List a = AList a",
    "module Maybe where\ntype Maybe a = Nothing | Just a",
    "module Signal where\ntype Signal a = ASignal a",
];

fn read(alloc: Global, text: &str) -> Result<Module, Fail> {
    let cut = tokens(alloc, text.as_bytes())?;
    let tree = module(alloc, cut.as_slice())?;
    Ok(tree)
}

pub fn put_modules(alloc: Global, text: &str, out: &mut Items<Module>) -> Result<(), Fail> {
    for part in LIBRARY {
        out.push(read(alloc, part)?)?;
    }
    for part in text.split("---\n") {
        out.push(read(alloc, part)?)?;
    }
    Ok(())
}

pub fn put_name(text: &mut String, name: &Name) -> Result<(), NoMemory> {
    text.push_str(str::from_utf8(name.bytes()).unwrap_or("?"))?;
    Ok(())
}

/// The module, the line, the kind and the name.
fn put_fault(text: &mut String, fault: &ProjectFault) -> Result<(), NoMemory> {
    put_name(text, &fault.module)?;
    let line = fault.line;
    write!(text, " {line} ")?;
    let kind = if fault.kind == FaultKind::BadType {
        "BadType "
    } else {
        "another kind "
    };
    text.push_str(kind)?;
    put_name(text, &fault.name)
}

fn put_first(alloc: Global, modules: &[Module], text: &mut String) -> Result<(), NoMemory> {
    match text_fault(alloc, modules)? {
        None => text.push_str("clear")?,
        Some(fault) => put_fault(text, &fault)?,
    }
    Ok(())
}

fn put_outcome(alloc: Global, given: &str, text: &mut String) -> Result<(), Fail> {
    let mut modules = Items::new(alloc);
    put_modules(alloc, given, &mut modules)?;
    put_first(alloc, modules.as_slice(), text)?;
    Ok(())
}

/// Each project's modules, in their order, with a line of hyphens between them; and its first fault.
pub type Row = (&'static str, &'static str);

/// Ends the test where the project that this text says has another first fault.
pub fn expect_first(rt: &impl Abort, alloc: Global, given: &str, wanted: &str) -> Result<(), Fail> {
    let mut text = String::new(alloc);
    put_outcome(alloc, given, &mut text)?;
    assert_eq!(rt; text.as_str(), wanted, "in {given}");
    Ok(())
}

pub fn go_through(rt: &impl Abort, alloc: Global, rows: &[Row]) -> Result<(), Fail> {
    for (given, wanted) in rows {
        expect_first(rt, alloc, given, wanted)?;
    }
    Ok(())
}
