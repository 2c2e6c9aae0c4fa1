//! Reads a text from standard input, parses it as one module and fixes its levels a fixed number of times, and prints how many
//! tokens it has and how many declarations. `bench/bench.py modules` times it.
#![tactic(auto)]

use elm_base::{Module, NoMemory, Project, Token};
use layout_lexer::tokens;
use level_fixer::fix;
use module_parser::module;
use sqlite_items::Items;
use std::alloc::Global;
use std::io::{self, Read};

/// How often the tokens are parsed, so that the time of one run can be told from that of starting a program.
const ROUNDS: usize = 16;

/// The module alone as a project, with its levels applied: how many declarations it has, if it has no fault.
fn fixed(alloc: Global, tree: Module) -> Result<Option<usize>, NoMemory> {
    let mut modules = Items::new(alloc);
    modules.push(tree)?;
    match fix(alloc, Project { modules }) {
        Ok(project) => Ok(project.modules.get(0).map(|tree| tree.declarations.len())),
        Err(_) => Ok(None),
    }
}

/// The declarations of the tokens' module, if it is one and has no fault.
fn count(alloc: Global, tokens: &[Token<'_>]) -> Result<Option<usize>, NoMemory> {
    match module(alloc, tokens) {
        Ok(tree) => fixed(alloc, tree),
        Err(_) => Ok(None),
    }
}

/// The same, after as many rounds.
fn rounds(alloc: Global, tokens: &[Token<'_>]) -> Result<Option<usize>, NoMemory> {
    for _ in 1..ROUNDS {
        let _ = count(alloc, tokens)?;
    }
    count(alloc, tokens)
}

fn main(rt: HostRuntime) -> io::Result<()> {
    let mut text = Vec::new(rt.alloc());
    rt.reader().read_to_end(&mut text)?;
    let bytes = text.len();
    match tokens(rt.alloc(), text.as_slice()) {
        Ok(found) => {
            let count = found.len();
            match rounds(rt.alloc(), found.as_slice()) {
                Ok(Some(declarations)) => println!(rt;
                    "{bytes} bytes, {count} tokens, {declarations} declarations, {ROUNDS} rounds"
                ),
                _ => println!(rt; "{bytes} bytes, {count} tokens, no module, {ROUNDS} rounds"),
            }
        }
        Err(_) => println!(rt; "{bytes} bytes, no tokens"),
    }
}
