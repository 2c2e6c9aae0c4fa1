//! Limits: the bytes of a file, the modules of a project.
use crate::outcome::outcome;
use crate::same;
use reactor_outside::MemShelf;
use std::alloc::{AllocError, Global};
use std::fmt::Write;
use std::test::Fail;

// So many bytes of Main: a comment as long as it must be.
fn long_main(alloc: Global, bytes: usize) -> Result<String, AllocError> {
    let mut text = String::from_str(alloc, "--")?;
    for _ in text.len()..bytes {
        text.push_str("x")?;
    }
    Ok(text)
}

const SIZES: [(usize, &str); 3] = [
    (2, "Main;"),
    (262_144, "Main;"),
    (262_145, "Main 0 TooLarge -"),
];

#[test]
fn a_file_has_at_most_262_144_bytes(rt: HostRuntime) -> Result<(), Fail> {
    let alloc = rt.alloc();
    for (bytes, wanted) in SIZES {
        let text = long_main(alloc, bytes)?;
        let mut shelf = MemShelf::new(alloc, Vec::new(alloc));
        shelf.add("p/Main.elm", text.as_bytes())?;
        let found = outcome(alloc, &mut shelf, "p")?;
        same(&rt, found.as_str(), wanted, wanted);
    }
    Ok(())
}

// The module with this number in a chain: it imports the next one, where there is one more.
fn link(alloc: Global, number: u32, last: u32) -> Result<String, AllocError> {
    let mut text = String::new(alloc);
    if number > 0 {
        writeln!(&mut text, "module M{number} where")?;
    }
    if number < last {
        let next = number + 1;
        writeln!(&mut text, "import M{next}")?;
    }
    Ok(text)
}

fn path(alloc: Global, number: u32) -> Result<String, AllocError> {
    let mut path = String::new(alloc);
    if number == 0 {
        path.push_str("p/Main.elm")?;
    } else {
        write!(&mut path, "p/M{number}.elm")?;
    }
    Ok(path)
}

// Main and so many modules behind it, each imported by the one before it.
fn chain(alloc: Global, files: u32, last: u32) -> Result<MemShelf, Fail> {
    let mut shelf = MemShelf::new(alloc, Vec::new(alloc));
    for number in 0..files {
        let path = path(alloc, number)?;
        let text = link(alloc, number, last)?;
        shelf.add(path.as_str(), text.as_bytes())?;
    }
    Ok(shelf)
}

// How many files there are, the number of the last module that is imported, and how the outcome begins.
const CHAINS: [(u32, u32, &str); 5] = [
    (3, 2, "M2;M1;Main;"),
    (100, 99, "M99;M98;M97;"),
    (101, 100, "M99 2 TooLarge M100"),
    (100, 100, "M99 2 MissingModule M100"),
    (99, 99, "M98 2 MissingModule M99"),
];

#[test]
fn a_project_has_at_most_100_modules(rt: HostRuntime) -> Result<(), Fail> {
    let alloc = rt.alloc();
    for (files, last, wanted) in CHAINS {
        let mut shelf = chain(alloc, files, last)?;
        let found = outcome(alloc, &mut shelf, "p")?;
        let front = found.as_str().get(..wanted.len()).unwrap_or("");
        same(&rt, front, wanted, wanted);
    }
    Ok(())
}
