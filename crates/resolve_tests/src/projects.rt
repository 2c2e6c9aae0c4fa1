//! Projects from texts, and what is found of them as a text.
use crate::show::{put_fault, put_groups, put_meanings};
use elm_base::{Halt, Module, Project, Resolved};
use layout_lexer::tokens;
use module_parser::module;
use module_scope::resolve;
use sqlite_items::Items;
use std::alloc::Global;
use std::test::Fail;

/// A module's text as its tree.
fn read(alloc: Global, text: &str) -> Result<Module, Fail> {
    let cut = tokens(alloc, text.as_bytes())?;
    let tree = module(alloc, cut.as_slice())?;
    Ok(tree)
}

/// The modules of a project, in their order, with a line of hyphens between them.
fn project(alloc: Global, text: &str) -> Result<Project, Fail> {
    let mut modules = Items::new(alloc);
    for part in text.split("---\n") {
        modules.push(read(alloc, part)?)?;
    }
    Ok(Project { modules })
}

/// What is shown of a project that is resolved.
#[derive(Clone, Copy)]
pub enum Part {
    Nothing,
    Groups,
    Meanings,
}

fn put(part: Part, resolved: &Resolved, text: &mut String) -> Result<(), Fail> {
    match part {
        Part::Nothing => text.push_str("resolved")?,
        Part::Groups => put_groups(text, resolved.groups.as_slice())?,
        Part::Meanings => put_meanings(text, resolved.meanings.as_slice())?,
    }
    Ok(())
}

/// What is found of a project, or its fault.
fn found(alloc: Global, part: Part, project: Project) -> Result<String, Fail> {
    let mut text = String::new(alloc);
    match resolve(alloc, project) {
        Ok(resolved) => put(part, &resolved, &mut text)?,
        Err(Halt::Because(fault)) => put_fault(&mut text, &fault)?,
        Err(Halt::NoMemory) => text.push_str("no memory")?,
    }
    Ok(text)
}

/// What is found of the project that this text says.
pub fn outcome(alloc: Global, part: Part, text: &str) -> Result<String, Fail> {
    let project = project(alloc, text)?;
    found(alloc, part, project)
}
