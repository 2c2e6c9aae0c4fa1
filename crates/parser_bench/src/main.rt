//! Reads a text from standard input, parses it as one expression a fixed number of times, and prints how many tokens it has
//! and whether it has a tree. `bench/bench.py parser` times it, and `stack` measures how much stack it takes.
#![tactic(auto)]

use elm_base::{Expr, Halt, Token};
use expr_parser::{NoTree, expr};
use layout_lexer::tokens;
use std::alloc::Global;
use std::io::{self, Read};

/// How often the tokens are parsed, so that the time of one run can be told from that of starting a program.
const ROUNDS: usize = 16;

fn parse(alloc: Global, tokens: &[Token<'_>]) -> Result<Expr, Halt<NoTree>> {
    for _ in 1..ROUNDS {
        let _ = expr(alloc, tokens)?;
    }
    expr(alloc, tokens)
}

fn said(outcome: &Result<Expr, Halt<NoTree>>) -> &'static str {
    match outcome {
        Ok(_) => "a tree",
        Err(Halt::Because(NoTree)) => "no tree",
        Err(Halt::NoMemory) => "out of memory",
    }
}

fn main(rt: HostRuntime) -> io::Result<()> {
    let mut text = Vec::new(rt.alloc());
    rt.reader().read_to_end(&mut text)?;
    let bytes = text.len();
    match tokens(rt.alloc(), text.as_slice()) {
        Ok(found) => {
            let count = found.len();
            let outcome = parse(rt.alloc(), found.as_slice());
            let said = said(&outcome);
            println!(rt; "{bytes} bytes, {count} tokens, {said}, {ROUNDS} rounds")
        }
        Err(_) => println!(rt; "{bytes} bytes, no tokens"),
    }
}
