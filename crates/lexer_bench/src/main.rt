//! Reads a text from standard input, lexes it a fixed number of times, and prints how many tokens it has,
//! or the line and kind of its first fault. `bench/bench.py lexer` times it.
#![tactic(auto)]

use elm_base::{Halt, Token};
use layout_lexer::{TextFault, tokens};
use std::alloc::Global;
use std::io::{self, Read};

/// How often the text is lexed, so that the time of one run can be told from that of starting a program.
const ROUNDS: usize = 64;

fn lex(alloc: Global, text: &[u8]) -> Result<Vec<Token<'_>>, Halt<TextFault>> {
    for _ in 1..ROUNDS {
        let _ = tokens(alloc, text)?;
    }
    tokens(alloc, text)
}

fn main(rt: HostRuntime) -> io::Result<()> {
    let mut text = Vec::new(rt.alloc());
    rt.reader().read_to_end(&mut text)?;
    let bytes = text.len();
    match lex(rt.alloc(), text.as_slice()) {
        Ok(found) => {
            let count = found.len();
            println!(rt; "{bytes} bytes, {count} tokens, {ROUNDS} rounds")
        }
        Err(Halt::Because(fault)) => {
            let line = fault.line;
            let kind = fault.kind;
            println!(rt; "{bytes} bytes, {kind:?} at line {line}")
        }
        Err(Halt::NoMemory) => println!(rt; "out of memory"),
    }
}
