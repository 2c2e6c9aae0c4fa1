//! Runs over memory.
ghost use Rattle.std.specs.Prelude.{◌≡◌, ◌<◌, All, IfOk};

use elm_base::{NoMemory, Steps};
use reactor_engine::{Status, Words, reactor_run};
use reactor_outside::{MemShelf, MemSink, MemSource};
use std::alloc::Global;
use std::fmt::Debug;
use std::marker::Brand;
use std::process::Abort;
use std::str;
use std::sync::ledger::{Blank, Ledger};

/// The bytes of a script: a text in pieces of one size, or a line again and again, up to so many bytes.
#[derive(Clone, Copy)]
pub enum Script<'a> {
    Pieces(&'a [u8], usize),
    Repeated(&'a [u8], u64),
}

/// A run of the program: its words, the Main.elm of the project `first` if it is there, its script, and which reads, writes
/// and calls of the shelf fail, by their numbers from 1.
#[derive(Clone, Copy)]
pub struct Case<'a> {
    pub words: &'a [&'a str],
    pub main: Option<&'a [u8]>,
    pub script: Script<'a>,
    pub reads: &'a [u64],
    pub writes: &'a [u64],
    pub calls: &'a [u64],
}

/// How a run ended, and what was written.
#[derive(Drop)]
pub struct Ran {
    pub status: Status,
    pub written: Vec<u8>,
}

fn run_on<L: Ledger>(
    alloc: Global,
    words: &Words,
    shelf: &mut MemShelf,
    script: &mut MemSource,
    screen: &mut MemSink,
    blank: Blank,
) -> Status
    requires name { blank.name ≡ L.name }
    requires parts { blank.parts ≡ L.parts }
    requires some_parts { 0 < blank.parts }
{
    let mut steps = Steps::<L>::from_blank(blank);
    reactor_run(alloc, words, shelf, script, screen, &mut steps)
}

fn run_counted(
    alloc: Global,
    words: &Words,
    shelf: &mut MemShelf,
    script: &mut MemSource,
    screen: &mut MemSink,
) -> Status {
    run_on::<Brand>(alloc, words, shelf, script, screen, Blank::new(1))
}

fn add_words(given: &[&str], words: &mut Words) -> Result<(), NoMemory> {
    for word in given {
        words.add(word)?;
    }
    Ok(())
}

// Pieces of this size, more than a text here has bytes.
fn sizes_of(alloc: Global, size: usize) -> Result<Vec<usize>, NoMemory>
    ensures { IfOk result (λ sizes. All (λ n. 0 < n) sizes.items) }
{
    let size = size.max(1);
    let mut sizes = Vec::new(alloc);
    for _ in 0..300 {
        sizes.push(size)?;
    }
    Ok(sizes)
}

fn in_pieces(
    alloc: Global,
    text: &[u8],
    size: usize,
    reads: Vec<u64>,
) -> Result<MemSource, NoMemory> {
    let sizes = sizes_of(alloc, size)?;
    let text = text.to_vec(alloc)?;
    Ok(MemSource::new(text, sizes, reads))
}

fn repeated(
    alloc: Global,
    line: &[u8],
    total: u64,
    reads: Vec<u64>,
) -> Result<MemSource, NoMemory> {
    let mut piece = line.to_vec(alloc)?;
    piece.push(b'\n')?;
    Ok(MemSource::repeating(piece, total, reads))
}

fn source_of(alloc: Global, case: &Case<'_>) -> Result<MemSource, NoMemory> {
    let reads = case.reads.to_vec(alloc)?;
    match case.script {
        Script::Pieces(text, size) => in_pieces(alloc, text, size, reads),
        Script::Repeated(line, total) => repeated(alloc, line, total, reads),
    }
}

fn add_main(case: &Case<'_>, shelf: &mut MemShelf) -> Result<(), NoMemory> {
    match case.main {
        Some(main) => shelf.add("first/Main.elm", main),
        None => Ok(()),
    }
}

fn result_of(status: Status, alloc: Global, sink: &MemSink) -> Result<Ran, NoMemory> {
    let written = sink.bytes().to_vec(alloc)?;
    Ok(Ran { status, written })
}

// The run of these words on this shelf.
fn run_from(
    alloc: Global,
    words: &Words,
    shelf: &mut MemShelf,
    case: &Case<'_>,
) -> Result<Ran, NoMemory> {
    let mut sink = MemSink::new(alloc, case.writes.to_vec(alloc)?);
    let mut source = source_of(alloc, case)?;
    let status = run_counted(alloc, words, shelf, &mut source, &mut sink);
    result_of(status, alloc, &sink)
}

// The run of these words.
fn run_words(alloc: Global, words: &Words, case: &Case<'_>) -> Result<Ran, NoMemory> {
    let mut shelf = MemShelf::new(alloc, case.calls.to_vec(alloc)?);
    add_main(case, &mut shelf)?;
    run_from(alloc, words, &mut shelf, case)
}

pub fn run(alloc: Global, case: &Case<'_>) -> Result<Ran, NoMemory> {
    let mut words = Words::new(alloc)?;
    add_words(case.words, &mut words)?;
    run_words(alloc, &words, case)
}

// Both are equal.
pub fn same<T: PartialEq + Debug + Drop>(rt: &impl Abort, found: T, wanted: T, label: &str) {
    assert_eq!(rt; found, wanted, "{label}");
}

/// The run ends with this status, and writes this text in front, and this one behind it.
pub fn check(
    rt: &impl Abort,
    alloc: Global,
    case: &Case<'_>,
    wanted: (Status, &str, &str),
    label: &str,
) -> Result<(), NoMemory> {
    let (status, front, back) = wanted;
    let ran = run(alloc, case)?;
    same(rt, ran.status, status, label);
    let text = str::from_utf8(ran.written.as_slice()).unwrap_or("no text");
    let (found, rest) = text.split_at_checked(front.len()).unwrap_or((text, ""));
    same(rt, found, front, label);
    same(rt, rest, back, label);
    Ok(())
}
