//! Reads two numbers from standard input, and resolves two projects: as many definitions as the first in a chain of
//! references, and as many as the second that all reach each other. `bench/bench.py groups` times it.
#![tactic(auto)]

use anyhow::{Context, Result};
use elm_base::{At, Declaration, Exposing, Expr, Halt, Module, Name, NoMemory, Pattern, Project};
use module_scope::resolve;
use sqlite_items::Items;
use std::alloc::Global;
use std::io::Read;

fn name_of(alloc: Global, number: u32) -> Result<Name, NoMemory> {
    let text = format!(in alloc; "f{number}")?;
    Ok(Name::from_vec(text.into_bytes()))
}

/// A parameter.
fn parameters(alloc: Global, line: u32) -> Result<Items<Pattern>, NoMemory> {
    let name = Name::of(alloc, b"x")?;
    let mut patterns = Items::new(alloc);
    patterns.push(Pattern::Variable {
        at: At { line, column: 9 },
        name,
    })?;
    Ok(patterns)
}

/// A definition that refers to another.
fn definition(alloc: Global, number: u32, other: u32) -> Result<Declaration, NoMemory> {
    let line = number.saturating_add(1);
    let name = name_of(alloc, number)?;
    let patterns = parameters(alloc, line)?;
    let body = Expr::Variable {
        at: At { line, column: 20 },
        name: name_of(alloc, other)?,
    };
    Ok(Declaration::Definition {
        at: At { line, column: 1 },
        name,
        patterns,
        body,
    })
}

/// So many definitions, each of which refers to the next one. The last refers to this one.
fn definitions(alloc: Global, count: u32, end: u32) -> Result<Items<Declaration>, NoMemory> {
    let mut declarations = Items::new(alloc);
    for number in 0..count {
        let next = number.saturating_add(1);
        let other = if next == count { end } else { next };
        declarations.push(definition(alloc, number, other)?)?;
    }
    Ok(declarations)
}

fn project(alloc: Global, declarations: Items<Declaration>) -> Result<Project, NoMemory> {
    let mut modules = Items::new(alloc);
    modules.push(Module {
        at: At { line: 1, column: 1 },
        name: Name::of(alloc, b"Main")?,
        exposes: Exposing::All,
        imports: Items::new(alloc),
        declarations,
    })?;
    Ok(Project { modules })
}

/// How many groups there are, and none where the project has a fault.
fn groups(alloc: Global, count: u32, end: u32) -> Result<usize, NoMemory> {
    let declarations = definitions(alloc, count, end)?;
    match resolve(alloc, project(alloc, declarations)?) {
        Ok(resolved) => Ok(resolved.groups.len()),
        Err(Halt::Because(_)) => Ok(0),
        Err(Halt::NoMemory) => Err(NoMemory),
    }
}

fn number(word: Option<&str>) -> Result<u32> {
    word.context("two numbers are wanted")?
        .parse::<u32>()
        .context("a number is wanted")
}

fn main(rt: HostRuntime) -> Result<()> {
    let mut text = String::new(rt.alloc());
    rt.reader().read_to_string(&mut text)?;
    let mut words = text.as_str().split_whitespace();
    let chain = number(words.next())?;
    let ring = number(words.next())?;
    let chained = groups(rt.alloc(), chain, chain.saturating_sub(1))?;
    println!(rt; "{chain} definitions in a chain, {chained} groups")?;
    let together = groups(rt.alloc(), ring, 0)?;
    println!(rt; "{ring} definitions that all reach each other, {together} groups")?;
    Ok(())
}
