//! The first fault of a project.
use crate::projects::{Part, outcome};
use std::test::Fail;

/// Each project's modules with a line of hyphens between them, and its fault.
type Row = (&'static str, &'static str);

const DUPLICATES: [Row; 24] = [
    ("f = 1\nf = 2\nf = 3", "Main 2 Duplicate f"),
    ("f x = x\ng = 1\nf = x", "Main 3 Duplicate f"),
    (
        "f =\n  let\n    a = 1\n    a = 2\n  in a",
        "Main 4 Duplicate a",
    ),
    (
        "f =\n  let\n    (a, b) = b\n    b = 2\n  in a",
        "Main 4 Duplicate b",
    ),
    ("f (x, x) = y", "Main 1 Duplicate x"),
    ("f ((x, y) as y) = y", "Main 1 Duplicate y"),
    ("f { x, y, x } = x", "Main 1 Duplicate x"),
    ("f = \\[x, x] -> x", "Main 1 Duplicate x"),
    ("f m =\n  case m of\n    x :: x -> 1", "Main 3 Duplicate x"),
    ("f = { a = 1, b = 2, a = 3 }", "Main 1 Duplicate a"),
    ("f r =\n  { r | a = 1\n  , a = 2 }", "Main 3 Duplicate a"),
    ("f r =\n  { r | a <- 1\n  , a <- 2 }", "Main 3 Duplicate a"),
    (
        "f r =\n  { r - x | a = 1\n  , a = 2 }",
        "Main 3 Duplicate a",
    ),
    ("f r = { r - x | x = 1 }", "resolved"),
    ("f x x = x", "resolved"),
    ("f = \\x x -> let x = 1 in x", "resolved"),
    ("type T a b a = A", "Main 1 Duplicate a"),
    ("type alias T a a = ()", "Main 1 Duplicate a"),
    ("type T = A\ntype T = B", "Main 2 Duplicate T"),
    ("type T = A | B | A", "Main 1 Duplicate A"),
    ("type T = A\ntype U = B | A", "Main 2 Duplicate A"),
    ("type T = T\ntype alias U = T", "resolved"),
    (
        "type alias P = { x : () }\ntype T = P",
        "Main 2 Duplicate P",
    ),
    ("type alias P a = { a | x : () }\ntype T = P", "resolved"),
];

const UNKNOWN: [Row; 14] = [
    ("f = x", "Main 1 UnknownName x"),
    ("f x = g x y", "Main 1 UnknownName g"),
    ("f (A x) = x", "Main 1 UnknownName A"),
    ("f x = case x of A -> B", "Main 1 UnknownName A"),
    ("f x = x `g` x", "Main 1 UnknownName g"),
    ("f = (+)", "Main 1 UnknownName +"),
    ("f = A.x", "Main 1 UnknownName A.x"),
    ("f = Main.f", "Main 1 UnknownName Main.f"),
    ("f = let x = 1 in x\ng = x", "Main 2 UnknownName x"),
    ("f x = x\ng = x", "Main 2 UnknownName x"),
    ("module Main (g) where\nf = x", "Main 1 UnknownName g"),
    ("module Main (T) where\ntype U = T", "Main 1 UnknownName T"),
    (
        "module Main (T(B)) where\ntype T = A\ntype U = B",
        "Main 1 UnknownName B",
    ),
    ("module Main (f, f) where\nf = 1", "resolved"),
];

#[test]
fn names_twice_in_one_place(rt: HostRuntime) -> Result<(), Fail> {
    for (text, wanted) in DUPLICATES {
        let shown = outcome(rt.alloc(), Part::Nothing, text)?;
        assert_eq!(rt; shown.as_str(), wanted, "in {text}");
    }
    Ok(())
}

#[test]
fn names_of_nothing(rt: HostRuntime) -> Result<(), Fail> {
    for (text, wanted) in UNKNOWN {
        let shown = outcome(rt.alloc(), Part::Nothing, text)?;
        assert_eq!(rt; shown.as_str(), wanted, "in {text}");
    }
    Ok(())
}

// Imports of A, and of B beside it.
const IMPORTED: [Row; 22] = [
    (
        "module A where\nx = 1\n---\nmodule B where\nx = 1\n---\nimport A exposing (..)\nimport B exposing (..)\nf = x",
        "Main 3 Ambiguous x",
    ),
    (
        "module A where\nx = 1\n---\nmodule B where\nx = 1\n---\nimport A exposing (..)\nimport B exposing (..)\nf = 1",
        "resolved",
    ),
    (
        "module A where\nx = 1\n---\nmodule B where\nx = 1\n---\nimport A exposing (..)\nimport B exposing (..)\nf x = x",
        "resolved",
    ),
    (
        "module A where\nx = 1\n---\nmodule B where\nx = 1\n---\nimport A exposing (..)\nimport B exposing (..)\nf = x\nx = 1",
        "resolved",
    ),
    (
        "module A where\nx = 1\n---\nmodule B where\nx = 1\n---\nimport A as M\nimport B as M\nf = M.x",
        "Main 3 Ambiguous M.x",
    ),
    (
        "module A where\nx = 1\n---\nmodule B where\nx = 1\n---\nimport A exposing (..)\nimport B\nf = x",
        "resolved",
    ),
    (
        "module A where\nx = 1\n---\nimport A exposing (x, x)\nimport A exposing (..)\nf = x",
        "resolved",
    ),
    (
        "module A (x, x) where\nx = 1\n---\nimport A exposing (..)\nf = x",
        "resolved",
    ),
    (
        "module A (x) where\nx = 1\ny = 1\n---\nimport A exposing (..)\nf = y",
        "Main 2 UnknownName y",
    ),
    (
        "module A (x) where\nx = 1\ny = 1\n---\nimport A exposing (x, y, z)\nf = y",
        "Main 1 NotExposed y",
    ),
    (
        "module A where\nx = 1\n---\nimport A\nf = x",
        "Main 2 UnknownName x",
    ),
    (
        "module A where\nx = 1\n---\nimport A as B\nf = A.x",
        "Main 2 UnknownName A.x",
    ),
    (
        "module A where\nx = 1\n---\nimport A as B\nf = B.x",
        "resolved",
    ),
    (
        "module A where\nx = 1\n---\nimport A as B\nimport A\nf = A.x",
        "resolved",
    ),
    (
        "module A (T) where\ntype T = K\n---\nimport A exposing (..)\nf = K",
        "Main 2 UnknownName K",
    ),
    (
        "module A (T) where\ntype T = K\n---\nimport A exposing (T(..))\nf = K",
        "Main 2 UnknownName K",
    ),
    (
        "module A (T) where\ntype T = K\n---\nimport A exposing (T(K))\nf = K",
        "Main 1 NotExposed K",
    ),
    (
        "module A where\ntype T = K\n---\nimport A exposing (T)\nf = K",
        "Main 2 UnknownName K",
    ),
    (
        "module A where\ntype T = K\n---\nimport A exposing (T(..))\nf K = K",
        "resolved",
    ),
    (
        "module A where\ntype T = K | L\n---\nimport A exposing (T(L))\nf K = L",
        "Main 2 UnknownName K",
    ),
    (
        "module A where\ntype T = K\n---\nimport A exposing (U, T)\nf = 1",
        "Main 1 NotExposed U",
    ),
    (
        "module A where\ntype T = K\n---\nimport A exposing (K)\nf = 1",
        "Main 1 NotExposed K",
    ),
];

#[test]
fn names_of_imports(rt: HostRuntime) -> Result<(), Fail> {
    for (text, wanted) in IMPORTED {
        let shown = outcome(rt.alloc(), Part::Nothing, text)?;
        assert_eq!(rt; shown.as_str(), wanted, "in {text}");
    }
    Ok(())
}

// Faults with others before and behind them.
const FIRST: [Row; 12] = [
    ("f = y x\ng = z", "Main 1 UnknownName y"),
    ("f = x\ng = 1\ng = 2", "Main 1 UnknownName x"),
    ("f = 1\nf = 2\ng = x", "Main 2 Duplicate f"),
    ("f = 1\ng = x\nf = 2", "Main 2 UnknownName x"),
    (
        "module Main (g) where\nimport A exposing (y)\nf = x",
        "Main 1 UnknownName g",
    ),
    (
        "module A where\nx = 1\n---\nimport A exposing (y)\nf = z\nf = 1",
        "Main 1 NotExposed y",
    ),
    (
        "module A where\nx = 1\ny = 2\nz = w\n---\nf = z",
        "A 4 UnknownName w",
    ),
    (
        "module A where\nx = 1\ny = 2\nx = 3\n---\nmodule B where\nf = z\n---\nf = z",
        "A 4 Duplicate x",
    ),
    (
        "module B where\nf = z\n---\nmodule A where\nx = 1\nx = 3\n---\nf = z",
        "B 2 UnknownName z",
    ),
    ("x = x\nf = y", "Main 2 UnknownName y"),
    (
        "module A where\nx = x\n---\nf = 1\nf = 2",
        "Main 2 Duplicate f",
    ),
    (
        "module A where\nx = x\n---\nmodule B where\ny = y\n---\nf = 1",
        "A 2 CyclicValue x",
    ),
];

#[test]
fn the_first_of_several_faults(rt: HostRuntime) -> Result<(), Fail> {
    for (text, wanted) in FIRST {
        let shown = outcome(rt.alloc(), Part::Nothing, text)?;
        assert_eq!(rt; shown.as_str(), wanted, "in {text}");
    }
    Ok(())
}

const CYCLES: [Row; 24] = [
    (
        "module Graphics.Element where\nshow x = x\n---\nimport Graphics.Element exposing (..)\nx = y\ny = x\nmain = show x",
        "Main 2 CyclicValue x",
    ),
    ("x = x", "Main 1 CyclicValue x"),
    ("a = 1\nx = y\ny = z\nz = x", "Main 2 CyclicValue x"),
    ("f x = f x", "resolved"),
    ("f = \\x -> f x", "resolved"),
    ("f = (\\x -> f x)", "resolved"),
    ("f = [\\x -> f x]", "Main 1 CyclicValue f"),
    ("f x = g x\ng = \\x -> f x", "resolved"),
    ("f x = v\nv = f ()", "Main 1 CyclicValue f"),
    ("v = f ()\nf x = g x\ng x = v", "Main 1 CyclicValue v"),
    ("f x = v\nv = g ()\ng x = 1", "resolved"),
    ("x = let z = y in z\ny = x", "Main 1 CyclicValue x"),
    ("x = let x = 1 in x", "resolved"),
    ("x = (\\x -> x) 1", "resolved"),
    (
        "f =\n  let a = b\n      b = a\n  in 1",
        "Main 2 CyclicValue a",
    ),
    (
        "f =\n  let\n    (a, b) = (b, 1)\n  in a",
        "Main 3 CyclicValue -",
    ),
    (
        "f =\n  let\n    (a, b) = (1, c)\n    c = a\n  in a",
        "Main 3 CyclicValue -",
    ),
    (
        "f =\n  let\n    c = a\n    (a, b) = (1, c)\n  in a",
        "Main 3 CyclicValue c",
    ),
    (
        "f =\n  let\n    (a, b) = g\n    g = \\x -> a\n  in a",
        "Main 3 CyclicValue -",
    ),
    (
        "f =\n  let\n    (a, b) = (1, 2)\n    c = a\n  in b",
        "resolved",
    ),
    ("f =\n  let\n    a = a\n  in f", "Main 1 CyclicValue f"),
    (
        "f x =\n  let\n    a = a\n  in f\nb = b",
        "Main 3 CyclicValue a",
    ),
    ("port p : Signal ()\nport p = p", "Main 2 CyclicValue p"),
    (
        "port p : Signal ()\nport q : Signal ()\nport q = p",
        "resolved",
    ),
];

#[test]
fn values_in_cycles(rt: HostRuntime) -> Result<(), Fail> {
    for (text, wanted) in CYCLES {
        let shown = outcome(rt.alloc(), Part::Nothing, text)?;
        assert_eq!(rt; shown.as_str(), wanted, "in {text}");
    }
    Ok(())
}
