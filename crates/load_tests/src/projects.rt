//! Rows of projects.
use crate::outcome::{outcome, shelf_of};
use crate::same;
use reactor_outside::MemShelf;
use std::test::Fail;

// The files of each project, and what loading it gives. No definition may have the two characters with which a file begins.
const PROJECTS: [(&str, &str); 27] = [
    // a file without header is Main
    ("= Main.elm\n", "Main;"),
    (
        "= Main.elm\nmodule Main where\nimport List\nimport Basics exposing (..)\n",
        "Main;",
    ),
    // depth first, in the order of import lines; each module once
    (
        "= Main.elm\nimport A\nimport B\n= A.elm\nmodule A where\n= B.elm\nmodule B where\n",
        "A;B;Main;",
    ),
    (
        "= Main.elm\nimport B\nimport A\n= A.elm\nmodule A where\n= B.elm\nmodule B where\n",
        "B;A;Main;",
    ),
    (
        "= Main.elm\nimport A\nimport B\nimport A\n= A.elm\nmodule A where\nimport B\n= B.elm\nmodule B where\n",
        "B;A;Main;",
    ),
    (
        "= Main.elm\nimport A.B\n= A/B.elm\nmodule A.B where\nimport A\n= A.elm\nmodule A where\n",
        "A;A.B;Main;",
    ),
    // a library's module is read from no file
    (
        "= Main.elm\nimport Mouse\n= Mouse.elm\nno module\n",
        "Main;",
    ),
    // missing modules
    ("= Other.elm\n", "Main 0 MissingModule Main"),
    ("= Main.elm\nimport A\n", "Main 1 MissingModule A"),
    (
        "= Main.elm\nimport A\n= A.elm\nmodule A where\n\nimport B.C\n= B.elm\nmodule B where\n",
        "A 3 MissingModule B.C",
    ),
    // an apostrophe stands in no name of a file
    (
        "= Main.elm\nimport A'\n= A'.elm\nmodule A' where\n",
        "Main 1 MissingModule A'",
    ),
    // faults of a file: its tokens, its declarations by line, its name, and then its imports
    ("= Main.elm\n\n\tx\n", "Main 2 Tab -"),
    (
        "= Main.elm\nimport A\nx y\n= A.elm\n\t\n",
        "Main 2 BadDeclaration -",
    ),
    ("= Main.elm\nx =\ny =\n 1\n", "Main 1 BadDeclaration -"),
    ("= Main.elm\nimport a\nimport A\n", "Main 1 BadHeader -"),
    (
        "= Main.elm\nmodule B where\nimport A\nx\n",
        "Main 3 BadDeclaration -",
    ),
    (
        "= Main.elm\n\nmodule B where\nimport A\n",
        "Main 2 NameMismatch B",
    ),
    (
        "= Main.elm\nimport A\n= A.elm\nx where\n",
        "A 1 BadDeclaration -",
    ),
    (
        "= Main.elm\nimport A\n= A.elm\nimport B\n",
        "A 1 NameMismatch Main",
    ),
    (
        "= Main.elm\nimport A\n= A.elm\nmodule A.B where\nimport B\n",
        "A 1 NameMismatch A.B",
    ),
    // cycles
    (
        "= Main.elm\nimport A\n= A.elm\nmodule A where\nimport Main\n",
        "A 2 ImportCycle Main",
    ),
    ("= Main.elm\nimport Main\n", "Main 1 ImportCycle Main"),
    (
        "= Main.elm\nimport A\n= A.elm\nmodule A where\nimport B\n= B.elm\nmodule B where\nimport C\n= C.elm\nmodule C where\nimport A\n",
        "C 2 ImportCycle A",
    ),
    // the fault of an import's file comes before that of a later line, which is behind it
    (
        "= Main.elm\nimport A\nimport B\n= A.elm\nmodule A where\nimport C\n",
        "A 2 MissingModule C",
    ),
    (
        "= Main.elm\nimport A\nimport B\n= A.elm\nmodule A where\n",
        "Main 2 MissingModule B",
    ),
    (
        "= Main.elm\nimport A\nimport B\n= A.elm\nmodule A where\nimport Main\n= B.elm\n\t\n",
        "A 2 ImportCycle Main",
    ),
    (
        "= Main.elm\nimport B\nimport A\n= A.elm\nmodule A where\nimport Main\n= B.elm\n\t\n",
        "B 1 Tab -",
    ),
];

#[test]
fn projects_are_loaded_or_refused(rt: HostRuntime) -> Result<(), Fail> {
    let alloc = rt.alloc();
    for (files, wanted) in PROJECTS {
        let mut shelf = shelf_of(alloc, Vec::new(alloc), files)?;
        let found = outcome(alloc, &mut shelf, "p")?;
        same(&rt, found.as_str(), wanted, files);
    }
    Ok(())
}

// Each fault of tokens, with a later one behind it, and with one of the declarations, of the name or of an import beside it.
const TOKENS: [(&str, &str); 12] = [
    ("= Main.elm\nx\n\ny=;\n", "Main 3 BadChar -"),
    ("= Main.elm\nx=;\n\t\n", "Main 2 Tab -"),
    ("= Main.elm\nx=;\ny=\"\n", "Main 1 BadChar -"),
    ("= Main.elm\nx=\"\ny=;\n", "Main 1 OpenString -"),
    ("= Main.elm\nx=1\n{- {- -}\n\n", "Main 2 OpenComment -"),
    (
        "= Main.elm\nx=9223372036854775808\ny=1.5\n",
        "Main 1 IntTooWide -",
    ),
    (
        "= Main.elm\nx=9223372036854775807\ny=1.5\n",
        "Main 2 Excluded -",
    ),
    (
        "= Main.elm\nmodule B where\nimport C\nx=1a\n",
        "Main 3 Excluded -",
    ),
    (
        "= Main.elm\nimport A\n= A.elm\nmodule B where\nx='\n",
        "A 2 BadChar -",
    ),
    (
        "= Main.elm\nimport A\nimport C\n= A.elm\nmodule A where\nx=\"\n",
        "A 2 OpenString -",
    ),
    (
        "= Main.elm\nimport A\nx=;\n= A.elm\n\t\n",
        "Main 2 BadChar -",
    ),
    (
        "= Main.elm\nx=1\nimport A\nmodule Main where\n",
        "Main 2 BadHeader -",
    ),
];

#[test]
fn faults_of_tokens_come_first_in_their_file(rt: HostRuntime) -> Result<(), Fail> {
    let alloc = rt.alloc();
    for (files, wanted) in TOKENS {
        let mut shelf = shelf_of(alloc, Vec::new(alloc), files)?;
        let found = outcome(alloc, &mut shelf, "p")?;
        same(&rt, found.as_str(), wanted, files);
    }
    Ok(())
}

#[test]
fn bytes_that_are_no_text_come_before_tabs(rt: HostRuntime) -> Result<(), Fail> {
    let alloc = rt.alloc();
    let mut shelf = MemShelf::new(alloc, Vec::new(alloc));
    shelf.add("p/Main.elm", b"\t\nx = \"\xc3\"\n")?;
    let found = outcome(alloc, &mut shelf, "p")?;
    same(&rt, found.as_str(), "Main 2 NotUtf8 -", "half a char");
    Ok(())
}

const THREE: &str = "= Main.elm\nimport A\nimport B\n= A.elm\nmodule A where\n= B.elm\n\t\n";

// A read that fails is told with its file, unless a fault stands before it.
const FAILING: [(u64, &str); 4] = [
    (1, "failed p/Main.elm"),
    (2, "failed p/A.elm"),
    (3, "failed p/B.elm"),
    (4, "B 1 Tab -"),
];

#[test]
fn failed_reads_are_no_faults(rt: HostRuntime) -> Result<(), Fail> {
    let alloc = rt.alloc();
    for (call, wanted) in FAILING {
        let mut failing = Vec::new(alloc);
        failing.push(call)?;
        let mut shelf = shelf_of(alloc, failing, THREE)?;
        let found = outcome(alloc, &mut shelf, "p")?;
        same(&rt, found.as_str(), wanted, wanted);
    }
    Ok(())
}
