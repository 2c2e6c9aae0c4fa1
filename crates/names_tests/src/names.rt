//! What the names of a module stand for, and its faults.
use crate::modules::{Sketch, empty_module, fill};
use crate::same;
use crate::show::put_named;
use elm_base::Module;
use module_names::{Face, face_of, named_module};
use sqlite_items::Items;
use std::alloc::Global;
use std::process::Abort;
use std::test::Fail;

// Modules that are imported, each with what it exposes, its definitions and its union: A and B.C both show a `b` and a
// type T, C shows a part of what it defines, and List is the library's.
const IMPORTED: [(&str, &str, &str, &str); 4] = [
    ("A", "..", "let a = 1\n    b = 2\nin a", "T P Q"),
    ("B.C", "b T(..)", "let b = 1\n    d = 2\nin b", "T P R"),
    ("C", "c U", "let c = 1\n    hidden = 2\nin c", "U V W"),
    ("List", "..", "()", ""),
];

// The face of a module that is empty so far.
fn push_face(
    alloc: Global,
    sketch: Sketch<'_>,
    module: &mut Module,
    faces: &mut Items<Face>,
) -> Result<(), Fail> {
    fill(alloc, sketch, module)?;
    faces.push(face_of(alloc, module)?)?;
    Ok(())
}

fn push_imported(alloc: Global, faces: &mut Items<Face>) -> Result<(), Fail> {
    for (name, entries, text, union) in IMPORTED {
        let sketch = Sketch {
            name,
            entries,
            imports: "",
            text,
            union,
        };
        let mut module = empty_module(alloc)?;
        push_face(alloc, sketch, &mut module, faces)?;
    }
    Ok(())
}

// What Main exposes, its imports, its definitions; what its uses stand for, and behind a bar its faults.
const ROWS: [(&str, &str, &str, &str); 28] = [
    (
        "..",
        "",
        "let f x = g x\n    g = f\nin f",
        "g=Main.g x=1:7 f=Main.f | ",
    ),
    ("..", "", "let f x x = x\nin f", "x=1:9 | "),
    (
        "..",
        "",
        "let f (x, x) = x\nin f",
        "x=1:11 | 1 Duplicate x;",
    ),
    (
        "..",
        "",
        "let f x = x\n    f = 1\nin f",
        "x=1:7 | 2 Duplicate f;",
    ),
    (
        "..",
        "",
        "let f = \\x -> let y = x\n                  z = y\n              in z\nin f",
        "x=1:10 y=1:19 z=2:19 | ",
    ),
    (
        "..",
        "",
        "let f x = let x = x in x\nin f",
        "x=1:15 x=1:15 | ",
    ),
    (
        "..",
        "",
        "let f x = let y = 1\n              y = 2 in x\nin f",
        "x=1:7 | 2 Duplicate y;",
    ),
    (
        "..",
        "",
        "let f = { x = 1, x = 2 }\nin f",
        "| 1 Duplicate x;",
    ),
    (
        "..",
        "",
        "let f m = case m of x :: y -> x\n                    z -> z\nin f",
        "m=1:7 x=1:21 z=2:21 | ",
    ),
    ("..", "", "let f = x\nin f", "x=? | 1 UnknownName x;"),
    ("..", "A:..", "let f = a\nin f", "a=A.a | "),
    ("..", "A:-", "let f = a\nin f", "a=? | 1 UnknownName a;"),
    ("..", "A:-", "let f = A.a\nin f", "A.a=A.a | "),
    (
        "..",
        "A X:-",
        "let f = A.a X.a\nin f",
        "A.a=? X.a=A.a | 1 UnknownName A.a;",
    ),
    (
        "..",
        "A:..;B.C:..",
        "let f = b\nin f",
        "b=?? | 1 Ambiguous b;",
    ),
    ("..", "A:..;B.C:..", "let f = a\nin f", "a=A.a | "),
    ("..", "A:..;B.C:..", "let f b = b\nin f", "b=1:7 | "),
    (
        "..",
        "A:..;B.C:..",
        "let f = b\n    b = 1\nin f",
        "b=Main.b | ",
    ),
    (
        "..",
        "A:..;B.C:-",
        "let f = b B.C.b\nin f",
        "b=A.b B.C.b=B.C.b | ",
    ),
    (
        "..",
        "A:T;B.C:T(..)",
        "let f = P R\nin f",
        "P=B.C.P! R=B.C.R! | ",
    ),
    (
        "..",
        "A:T(..)",
        "let f m = case m of P -> Q\nin f",
        "m=1:7 P=A.P! Q=A.Q! | ",
    ),
    (
        "..",
        "C:U(..) c hidden",
        "let f = V c\nin f",
        "V=? c=C.c | 1 NotExposed hidden;1 UnknownName V;",
    ),
    (
        "..",
        "B.C:d b V",
        "let f = (::) d\nin f",
        "::=List.::! d=? | 1 NotExposed d;1 NotExposed V;1 UnknownName d;",
    ),
    (
        "..",
        "",
        "let f = 1\n    g = f `h` f\nin f",
        "f=Main.f f=Main.f h=? | 2 UnknownName h;",
    ),
    ("f", "A:..", "let f = 1\nin f", "| "),
    ("f f", "A:..", "let f = 1\nin f", "| "),
    ("a f", "A:..", "let f = 1\nin f", "| 1 UnknownName a;"),
    ("T", "A:..", "let f = 1\nin f", "| 1 UnknownName T;"),
];

// What is found in a Main that is empty so far.
fn put_main(
    alloc: Global,
    faces: &[Face],
    sketch: Sketch<'_>,
    main: &mut Module,
    out: &mut String,
) -> Result<(), Fail> {
    fill(alloc, sketch, main)?;
    let named = named_module(alloc, faces, main)?;
    put_named(out, named.uses.as_slice(), named.flaws.as_slice())?;
    Ok(())
}

fn found(alloc: Global, faces: &[Face], sketch: Sketch<'_>) -> Result<String, Fail> {
    let mut out = String::new(alloc);
    let mut main = empty_module(alloc)?;
    put_main(alloc, faces, sketch, &mut main, &mut out)?;
    Ok(out)
}

fn check_rows(rt: &impl Abort, alloc: Global, faces: &[Face]) -> Result<(), Fail> {
    for (entries, imports, text, wanted) in ROWS {
        let sketch = Sketch {
            name: "Main",
            entries,
            imports,
            text,
            union: "",
        };
        let shown = found(alloc, faces, sketch)?;
        same(rt, shown.as_str(), wanted, text);
    }
    Ok(())
}

#[test]
fn names_of_modules(rt: HostRuntime) -> Result<(), Fail> {
    let mut faces = Items::new(rt.alloc());
    push_imported(rt.alloc(), &mut faces)?;
    check_rows(&rt, rt.alloc(), faces.as_slice())
}
