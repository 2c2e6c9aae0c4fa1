//! What projects declare.
use crate::projects::{modules_of, put_declared};
use std::alloc::{AllocError, Global};
use std::fmt::Write;
use std::process::Abort;
use std::test::Fail;

/// Each project, and the unions, aliases and ports that it declares, those of the library aside; or its first fault.
const DECLARED: [(&str, &str); 15] = [
    ("type T = K", "Main.T | K; "),
    (
        "type T a b = K a (Maybe b) | L { x : T b a } (a -> ())",
        "Main.T a b | K[a][Maybe.Maybe[b]] | L[record x[Main.T[b][a]]][function[a][unit]]; ",
    ),
    (
        "type B = L A\ntype alias A = (Int, C)\ntype alias C = List Bool\ntype T = K",
        "Main.B | L[tuple[Basics.Int][Basics.List[Basics.Bool]]]; Main.T | K; Main.A = tuple[Basics.Int][Basics.List[Basics.Bool]]; Main.C = Basics.List[Basics.Bool]; ",
    ),
    (
        "type alias P a b = { a | x : b, y : (Int) }\ntype alias Q = P { z : Char } ()",
        "Main.P a b = a x[b] y[Basics.Int]; Main.Q = record x[unit] y[Basics.Int] z[Basics.Char]; ",
    ),
    (
        "module A where\ntype T = K\ntype alias U = T\n---\nmodule B where\ntype T = L\ntype alias U = T\n---\nimport A\nimport B\ntype T = M A.U B.T\ntype alias U = A.T",
        "A.T | K; B.T | L; Main.T | M[A.T][B.T]; A.U = A.T; B.U = B.T; Main.U = A.T; ",
    ),
    (
        "port b : Signal Int\nport a : Signal String\nport a = b\ntype alias S = Signal (List (Int, Bool))\nport c : S",
        "Main.S = Signal.Signal[Basics.List[tuple[Basics.Int][Basics.Bool]]]; in 1 b : Int; out 2 a : String; in 5 c : List (Int,Bool); ",
    ),
    (
        "port p : Signal { y : Int, x : Maybe number }",
        "in 1 p : { x : Maybe Int, y : Int }; ",
    ),
    (
        "port p : Signal ()\nport q : Signal ()\nport q = p",
        "in 1 p : (); out 2 q : (); ",
    ),
    (
        "type Bool = No | Yes\nport p : Signal Basics.Bool",
        "Main.Bool | No | Yes; in 2 p : Bool; ",
    ),
    (
        "type T = K Foo",
        "refused ProjectRefused Main 1 BadType Foo\n",
    ),
    (
        "import Graphics.Element exposing (..)\nimport Mouse\nport p : Signal { x : Int, y : Int }\nmain = Signal.map show (Signal.foldp (\\_ n -> n + 1) 0 (Signal.dropRepeats p))",
        "in 3 p : { x : Int, y : Int }; ",
    ),
    (
        "import Graphics.Element exposing (..)\nimport Mouse\nport p : Signal (Maybe (List Int))\nf m = case m of\n  Nothing -> 0\n  Just [] -> 1\n  Just (x :: []) -> x\nmain = Signal.map (\\m -> show (f m)) p",
        "in 3 p : Maybe (List Int); ",
    ),
    (
        "import Graphics.Element exposing (..)\nimport Mouse\nport p : Signal Int\nmain = Signal.map (\\n -> show (n - 1)) p",
        "in 3 p : Int; ",
    ),
    (
        "import Graphics.Element exposing (..)\nimport Mouse\nport doubled : Signal Int\nport doubled = Signal.map (\\n -> n * 2) Mouse.x\nmain = flow down [text \"ab\", flow right [text \"c\", spacer 2 1, show 5]]",
        "out 3 doubled : Int; ",
    ),
    ("port p : Int", "refused ProjectRefused Main 1 BadPort p\n"),
];

fn expect_declared(rt: &impl Abort, alloc: Global, given: &str, wanted: &str) -> Result<(), Fail> {
    let modules = modules_of(alloc, given)?;
    let mut text = String::new(alloc);
    put_declared(alloc, modules, false, &mut text)?;
    assert_eq!(rt; text.as_str(), wanted, "in {given}");
    Ok(())
}

#[test]
fn types_and_ports_of_projects(rt: HostRuntime) -> Result<(), Fail> {
    let alloc = rt.alloc();
    for (given, wanted) in DECLARED {
        expect_declared(&rt, alloc, given, wanted)?;
    }
    Ok(())
}

/// An alias of Int, and thirty of which each is a pair of the one before.
fn put_doubled(text: &mut String) -> Result<(), AllocError> {
    text.push_str("type alias A0 = Int")?;
    for next in 1..31u32 {
        let last = next - 1;
        write!(text, "\ntype alias A{next} = (A{last}, A{last})")?;
    }
    Ok(())
}

#[test]
fn an_alias_that_doubles_thirty_times(rt: HostRuntime) -> Result<(), Fail> {
    let alloc = rt.alloc();
    let mut text = String::new(alloc);
    put_doubled(&mut text)?;
    expect_declared(&rt, alloc, text.as_str(), "no memory")
}
