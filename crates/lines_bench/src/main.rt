//! Reads a script from standard input in pieces of 4,096 bytes, cuts it into lines and reads their commands, and prints
//! how many there are of each kind. `bench/bench.py lines` times it.
#![tactic(auto)]

use elm_base::NoMemory;
use reactor_outside::{Failed, ReaderSource, Source};
use script_lines::{Line, Lines};
use std::alloc::Global;
use std::io;

/// How many lines there are of each kind. Counts stand still at their ends.
#[derive(Drop)]
struct Counts {
    commands: u64,
    nothing: u64,
    bad: u64,
    too_long: u64,
}

impl Counts {
    fn add(&mut self, line: &Line) {
        match line {
            Line::Command(_) => self.commands = self.commands.saturating_add(1),
            Line::Nothing => self.nothing = self.nothing.saturating_add(1),
            Line::Bad => self.bad = self.bad.saturating_add(1),
            Line::TooLong => self.too_long = self.too_long.saturating_add(1),
        }
    }
}

fn take_piece(lines: &mut Lines, counts: &mut Counts, piece: &[u8]) -> Result<(), NoMemory> {
    lines.feed(piece)?;
    while let Some(line) = lines.next()? {
        counts.add(&line);
    }
    Ok(())
}

fn read_all<S: Source>(alloc: Global, source: &mut S, counts: &mut Counts) -> Result<(), NoMemory> {
    let mut lines = Lines::new(alloc)?;
    let mut input = [0u8; 4096];
    for _ in 0..u64::MAX {
        match source.read(&mut input) {
            Ok(0) | Err(Failed) => break,
            Ok(count) => take_piece(&mut lines, counts, &input[..count])?,
        }
    }
    Ok(())
}

fn main(rt: HostRuntime) -> io::Result<()> {
    let mut counts = Counts {
        commands: 0,
        nothing: 0,
        bad: 0,
        too_long: 0,
    };
    let mut source = ReaderSource::new(rt.stdin());
    match read_all(rt.alloc(), &mut source, &mut counts) {
        Ok(()) => {
            let Counts {
                commands,
                nothing,
                bad,
                too_long,
            } = counts;
            println!(rt; "{commands} commands, {nothing} nothing, {bad} bad, {too_long} too long")
        }
        Err(NoMemory) => println!(rt; "out of memory"),
    }
}
