//! Reads two numbers from standard input, how many modules there are and how many bytes each has at least, and loads such a
//! project from memory, in which each module imports the next one. `bench/bench.py load` times it.
#![tactic(auto)]

use anyhow::{Context, Result};
use module_scope::load;
use reactor_outside::MemShelf;
use std::alloc::{AllocError, Global};
use std::fmt::Write;
use std::io::Read;

fn path_of(alloc: Global, number: u32) -> Result<String, AllocError> {
    let mut path = String::new(alloc);
    if number == 0 {
        path.push_str("p/Main.elm")?;
    } else {
        write!(&mut path, "p/M{number}.elm")?;
    }
    Ok(path)
}

/// The header of the module with this number, and the import of the next one, where there is one.
fn front_of(alloc: Global, number: u32, count: u32) -> Result<String, AllocError> {
    let mut text = String::new(alloc);
    if number > 0 {
        writeln!(&mut text, "module M{number} where")?;
    }
    let next = number.saturating_add(1);
    if next < count {
        writeln!(&mut text, "import M{next}")?;
    }
    Ok(text)
}

/// A module's text, filled up with definitions.
fn text_of(alloc: Global, number: u32, count: u32, bytes: usize) -> Result<String, AllocError> {
    let mut text = front_of(alloc, number, count)?;
    for line in 0..bytes {
        if text.len() < bytes {
            writeln!(&mut text, "f{line} x = x + {line}")?;
        }
    }
    Ok(text)
}

fn shelf_of(alloc: Global, count: u32, bytes: usize) -> Result<MemShelf> {
    let mut shelf = MemShelf::new(alloc, Vec::new(alloc));
    for number in 0..count {
        let path = path_of(alloc, number)?;
        let text = text_of(alloc, number, count, bytes)?;
        shelf.add(path.as_str(), text.as_bytes())?;
    }
    Ok(shelf)
}

/// How many modules were loaded, and none where the project has a fault.
fn loaded(alloc: Global, shelf: &mut MemShelf) -> usize {
    match load(alloc, shelf, "p") {
        Ok(project) => project.modules.len(),
        Err(_) => 0,
    }
}

fn number(word: Option<&str>) -> Result<u32> {
    word.context("two numbers are wanted")?
        .parse::<u32>()
        .context("a number is wanted")
}

fn main(rt: HostRuntime) -> Result<()> {
    let mut text = String::new(rt.alloc());
    rt.reader().read_to_string(&mut text)?;
    let mut words = text.as_str().split_whitespace();
    let count = number(words.next())?;
    let bytes = number(words.next())?;
    let mut shelf = shelf_of(rt.alloc(), count, bytes as usize)?;
    let found = loaded(rt.alloc(), &mut shelf);
    println!(rt; "{count} modules of {bytes} bytes, {found} loaded")?;
    Ok(())
}
