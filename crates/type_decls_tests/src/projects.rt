//! Projects as texts.
use crate::shown::put_decls;
use decl_faults::decl_fault;
use elm_base::{Decls, Halt, Module, NoMemory, Project, ProjectFault, Resolved};
use elm_library::{Source, read};
use frame_text::write_fault;
use layout_lexer::tokens;
use module_parser::module;
use sqlite_items::Items;
use std::alloc::Global;
use std::fmt::Write;
use std::process::Abort;
use std::str;
use std::test::Fail;
use type_decls::declare;

/// The part of the library that each project of the rows has.
const LIBRARY: [Source; 3] = [
    Source {
        name: "Basics",
        text: "opaque Int\nopaque Char\nopaque String\nopaque List a\nmodule Basics where\ntype Bool = True | False\ntype Order = LT | EQ | GT\n",
    },
    Source {
        name: "Maybe",
        text: "module Maybe where\ntype Maybe a = Just a | Nothing\n",
    },
    Source {
        name: "Signal",
        text: "opaque Signal a\nmodule Signal where\n",
    },
];

fn push_module(alloc: Global, text: &str, out: &mut Items<Module>) -> Result<(), Fail> {
    let cut = tokens(alloc, text.as_bytes())?;
    let tree = module(alloc, cut.as_slice())?;
    out.push(tree)?;
    Ok(())
}

fn push_modules(alloc: Global, text: &str, out: &mut Items<Module>) -> Result<(), Fail> {
    for part in text.split("---\n") {
        push_module(alloc, part, out)?;
    }
    Ok(())
}

/// The modules of a text, in their order, with a line of hyphens between them, behind those of the library.
pub fn modules_of(alloc: Global, text: &str) -> Result<Items<Module>, Fail> {
    let mut modules = read(alloc, &LIBRARY)?;
    push_modules(alloc, text, &mut modules)?;
    Ok(modules)
}

fn put_fault(alloc: Global, fault: &ProjectFault, text: &mut String) -> Result<(), NoMemory> {
    let mut line = Vec::new(alloc);
    write_fault(alloc, fault, &mut line)?;
    text.push_str(str::from_utf8(&line).unwrap_or("?"))?;
    Ok(())
}

fn put_first(alloc: Global, modules: &[Module], text: &mut String) -> Result<(), NoMemory> {
    match decl_fault(alloc, modules)? {
        None => Ok(()),
        Some(fault) => put_fault(alloc, &fault, text),
    }
}

/// The line of a project's first fault; empty where it has none.
fn put_fault_of(alloc: Global, given: &str, text: &mut String) -> Result<(), Fail> {
    let modules = modules_of(alloc, given)?;
    put_first(alloc, modules.as_slice(), text)?;
    Ok(())
}

/// Each project, and its first fault: module, line, kind and name; or nothing.
pub type Row = (&'static str, &'static str);

/// Ends the test where the project that this text says has another first fault.
pub fn expect_fault(rt: &impl Abort, alloc: Global, given: &str, wanted: &str) -> Result<(), Fail> {
    let mut text = String::new(alloc);
    put_fault_of(alloc, given, &mut text)?;
    let mut line = String::new(alloc);
    if !wanted.is_empty() {
        write!(line, "refused ProjectRefused {wanted}\n")?;
    }
    assert_eq!(rt; text.as_str(), line.as_str(), "in {given}");
    Ok(())
}

fn put_result(
    alloc: Global,
    answer: Result<Decls, Halt<ProjectFault>>,
    all: bool,
    text: &mut String,
) -> Result<(), NoMemory> {
    match answer {
        Ok(decls) => put_decls(alloc, text, &decls, all),
        Err(Halt::Because(fault)) => put_fault(alloc, &fault, text),
        Err(Halt::NoMemory) => Ok(text.push_str("no memory")?),
    }
}

/// What a project with these modules declares, or its first fault: of unions all, or those alone that aren't of the library.
pub fn put_declared(
    alloc: Global,
    modules: Items<Module>,
    all: bool,
    text: &mut String,
) -> Result<(), NoMemory> {
    let resolved = Resolved {
        project: Project { modules },
        groups: Items::new(alloc),
        meanings: Items::new(alloc),
    };
    put_result(alloc, declare(alloc, &resolved), all, text)
}
