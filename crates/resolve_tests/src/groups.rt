//! Groups and meanings of projects.
use crate::projects::{Part, outcome};
use std::test::Fail;

/// Each project's modules with a line of hyphens between them, and what is found of it.
type Row = (&'static str, &'static str);

const GROUPS: [Row; 12] = [
    ("a = 1\nb = 2", "Main 0:0 1:1; Main 0:0 2:1; "),
    (
        "a = b\nb = c\nc = 1",
        "Main 0:0 3:1; Main 0:0 2:1; Main 0:0 1:1; ",
    ),
    (
        "b = c\nd = 1\nc = 2\na = d",
        "Main 0:0 2:1; Main 0:0 3:1; Main 0:0 1:1; Main 0:0 4:1; ",
    ),
    (
        "v = f 1\nf x = g x\ng x = f x",
        "Main 0:0 2:1 3:1; Main 0:0 1:1; ",
    ),
    (
        "a x = let z = b x in z\nb x = c x\nk = a\nc x = d x\nd x = e x\ne x = a x",
        "Main 0:0 1:1 2:1 4:1 5:1 6:1; Main 0:0 3:1; Main 1:7 1:11; ",
    ),
    (
        "a = let c = b\n        b = 1\n        d x = e x\n        e x = d x\n    in c",
        "Main 0:0 1:1; Main 1:5 2:9; Main 1:5 1:9; Main 1:5 3:9 4:9; ",
    ),
    (
        "a = let b = let c = 1 in c\n    in b\nd = let e = 2 in e",
        "Main 0:0 1:1; Main 0:0 3:1; Main 1:5 1:9; Main 1:13 1:17; Main 3:5 3:9; ",
    ),
    (
        "a = let (b, c) = d\n        d = (1, 2)\n        e = c\n    in b",
        "Main 0:0 1:1; Main 1:5 2:9; Main 1:5 1:9; Main 1:5 3:9; ",
    ),
    (
        "module A where\nx = y\ny = 1\n---\nmodule B where\nx = 1\n---\nimport A\nx = A.x",
        "A 0:0 3:1; A 0:0 2:1; B 0:0 2:1; Main 0:0 2:1; ",
    ),
    (
        "f : ()\nf = g\ntype T = A\nport p : Signal ()\nport q : Signal ()\nport q = p\ng = 1",
        "Main 0:0 4:1; Main 0:0 6:1; Main 0:0 7:1; Main 0:0 2:1; ",
    ),
    ("type T = A", ""),
    ("(+.) a b = a\nc = 1 +. 2", "Main 0:0 1:1; Main 0:0 2:1; "),
];

#[test]
fn groups_in_order(rt: HostRuntime) -> Result<(), Fail> {
    for (text, wanted) in GROUPS {
        let shown = outcome(rt.alloc(), Part::Groups, text)?;
        assert_eq!(rt; shown.as_str(), wanted, "in {text}");
    }
    Ok(())
}

const MEANINGS: [Row; 9] = [
    ("f x = x", "Main 1:7=1:3; "),
    ("f x x = x", "Main 1:9=1:5; "),
    ("f x = let x = 1 in x", "Main 1:20=1:11; "),
    (
        "f m = case m of\n  (x, y) -> g x\n  z -> z\ng = 1",
        "Main 1:12=1:3; Main 2:13=Main.g; Main 2:15=2:4; Main 3:8=3:3; ",
    ),
    (
        "type T = A T | B\nf (A x) = B",
        "Main 2:4=Main.A!; Main 2:11=Main.B!; ",
    ),
    ("type alias P = { x : () }\nf = P", "Main 2:5=Main.P#; "),
    (
        "module A where\nx = 1\ntype T = K\n---\nimport A exposing (..)\nf = (x, A.x, K)",
        "Main 2:6=A.x; Main 2:9=A.x; Main 2:14=A.K!; ",
    ),
    (
        "module A where\nx = y\ny = 1\n---\nimport A exposing (y)\nx = y\nz = x",
        "A 2:5=A.y; Main 2:5=A.y; Main 3:5=Main.x; ",
    ),
    (
        "f { a, b } = let (c, d) = (a, b) in \\(e as g) -> [c, e, g]",
        "Main 1:28=1:5; Main 1:31=1:8; Main 1:51=1:19; Main 1:54=1:39; Main 1:57=1:44; ",
    ),
];

#[test]
fn what_names_stand_for(rt: HostRuntime) -> Result<(), Fail> {
    for (text, wanted) in MEANINGS {
        let shown = outcome(rt.alloc(), Part::Meanings, text)?;
        assert_eq!(rt; shown.as_str(), wanted, "in {text}");
    }
    Ok(())
}
