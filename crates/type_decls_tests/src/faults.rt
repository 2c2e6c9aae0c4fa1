//! The first fault of a project's declared types and ports.
use crate::projects::{Row, expect_fault};
use std::alloc::{AllocError, Global};
use std::fmt::Write;
use std::process::Abort;
use std::test::Fail;

/// Types that make no sense by their sorts, each beside one that does.
const SENSE: [Row; 15] = [
    ("f : Signal (Signal Int)\nf = f", "Main 1 BadType f"),
    ("f : Signal Int\nf = f", ""),
    ("f : (Signal Int, Int)\nf = f", "Main 1 BadType f"),
    ("f : (Int, Int)\nf = f", ""),
    ("f : Signal Int -> Int\nf = f", "Main 1 BadType f"),
    ("f : Signal Int -> a\nf = f", ""),
    ("f : Signal Int -> comparable\nf = f", "Main 1 BadType f"),
    ("f : { comparable | x : Int }\nf = f", "Main 1 BadType f"),
    ("f : { number | x : Int }\nf = f", "Main 1 BadType f"),
    ("f : { a | x : Int }\nf = f", ""),
    (
        "f =\n  let\n    g : Signal (Signal Int)\n    g = g\n  in g",
        "Main 3 BadType g",
    ),
    ("f =\n  let\n    g : Signal Int\n    g = g\n  in g", ""),
    ("port p : Signal (Signal Int)", "Main 1 BadType p"),
    ("port p : Signal Int", ""),
    ("port p : (Signal Int, Int)\nport p = p", "Main 1 BadType p"),
];

/// Types with aliases, which are judged written out.
const ALIASES: [Row; 16] = [
    (
        "type alias S a = Signal a\nf : S (S Int)\nf = f",
        "Main 2 BadType f",
    ),
    ("type alias S a = Signal a\nf : S Int\nf = f", ""),
    (
        "type alias P a = { a | x : Int }\nf : P Int\nf = f",
        "Main 2 BadType f",
    ),
    (
        "type alias P a = { a | x : Int }\nf : P { y : Int }\nf = f",
        "",
    ),
    ("type alias P a = { a | x : Int }\nf : P b\nf = f", ""),
    (
        "type alias P a = { a | x : Int }\nf : P comparable\nf = f",
        "Main 2 BadType f",
    ),
    (
        "type alias P a = { a | x : Int }\ntype alias Q = P Int",
        "Main 2 BadType Q",
    ),
    ("type alias A = Signal (Signal Int)", "Main 1 BadType A"),
    (
        "f : A\nf = f\ntype alias A = Signal (Signal Int)",
        "Main 1 BadType f",
    ),
    ("type alias A number = { number | x : Int }", ""),
    (
        "type alias A comparable = { comparable | x : Int }",
        "Main 1 BadType A",
    ),
    (
        "type alias D a b = b\nf : D (Signal (Signal Int)) Int\nf = f",
        "",
    ),
    (
        "type alias D a b = b\nf : D Int (Signal (Signal Int))\nf = f",
        "Main 2 BadType f",
    ),
    (
        "type alias D a b = b\nf : D Foo Int\nf = f",
        "Main 2 BadType Foo",
    ),
    (
        "type alias D a b = b\nf : D Maybe Int\nf = f",
        "Main 2 BadType Maybe",
    ),
    (
        "f : (B, Signal (Signal Int))\nf = f\ntype alias B = Foo",
        "Main 3 BadType Foo",
    ),
];

/// Unions, by the functions of their constructors.
const UNIONS: [Row; 13] = [
    ("type T = K (Signal Int)", "Main 1 BadType T"),
    ("type T = K (Int -> Int)", ""),
    ("type T = K (Int -> Signal Int)", "Main 1 BadType T"),
    ("type T a = K a (List a) (T a)", ""),
    ("type T a = K Int (Signal a)", "Main 1 BadType T"),
    ("type T a = K | L (Signal Int -> a)", "Main 1 BadType T"),
    ("type T a = K | L (a -> a)", ""),
    ("type T a = K { a | x : Int }", ""),
    (
        "type T comparable = K { comparable | x : Int }",
        "Main 1 BadType T",
    ),
    ("type T number = K { number | x : Int }", "Main 1 BadType T"),
    ("type T number = K number", ""),
    (
        "type T = K B (Signal Int)\ntype alias B = Foo",
        "Main 2 BadType Foo",
    ),
    (
        "type alias S = Signal Int\ntype T = K Int S",
        "Main 2 BadType T",
    ),
];

/// Ports that can't be, each beside one that can.
const PORTS: [Row; 18] = [
    ("port p : Int", "Main 1 BadPort p"),
    ("port p : Signal Char", "Main 1 BadPort p"),
    ("port p : Signal Bool", ""),
    ("port p : Signal (Int -> Int)", "Main 1 BadPort p"),
    ("port p : Signal a", "Main 1 BadPort p"),
    ("port p : Signal number", ""),
    ("port p : Signal { x : Int, x : Int }", "Main 1 BadPort p"),
    ("port p : Signal { y : Int, x : Int }", ""),
    ("port p : Signal { a | x : Int }", "Main 1 BadPort p"),
    ("port p : Signal T\ntype T = K", "Main 1 BadPort p"),
    ("type alias A = Signal (Maybe Int)\nport p : A", ""),
    ("port p : Signal Char\nport p = p", "Main 1 BadPort p"),
    ("port p : Signal String\nport p = p", ""),
    (
        "module A where\nport p : Signal Int\n---\nf = 1",
        "A 2 BadPort p",
    ),
    ("port p : Signal A\ntype alias A = Foo", "Main 1 BadPort p"),
    (
        "type alias A = Foo\nport p : Signal A",
        "Main 1 BadType Foo",
    ),
    ("port p : Signal A\ntype alias A = A", "Main 1 BadPort p"),
    (
        "port p : Signal (D Int A)\ntype alias D a b = a\ntype alias A = Foo",
        "Main 1 BadPort p",
    ),
];

/// Which of two faults is the first.
const ORDER: [Row; 13] = [
    ("f : Signal (Signal Foo)\nf = f", "Main 1 BadType Foo"),
    (
        "type alias A = (A, Signal (Signal Int))",
        "Main 1 BadType A",
    ),
    ("type T a = K b (Signal Int)", "Main 1 BadType b"),
    ("port p : Signal Foo", "Main 1 BadType Foo"),
    (
        "module A where\nport p : Signal (Signal Int)\n---\nf = 1",
        "A 2 BadType p",
    ),
    (
        "port p : Int\nf : Signal (Signal Int)\nf = f",
        "Main 1 BadPort p",
    ),
    (
        "f : Signal (Signal Int)\nf = f\nport p : Int",
        "Main 1 BadType f",
    ),
    ("port p : Int\nport q : Char", "Main 1 BadPort p"),
    ("port p : Int\ntype T = K Foo", "Main 1 BadPort p"),
    ("type T = K Foo\nport p : Int", "Main 1 BadType Foo"),
    (
        "f =\n  let\n    g : Signal (Signal Int)\n    g = g\n  in g\nh : Foo\nh = h",
        "Main 3 BadType g",
    ),
    (
        "f =\n  let\n    g : Foo\n    g = g\n  in g\nh : Signal (Signal Int)\nh = h",
        "Main 3 BadType Foo",
    ),
    (
        "module A where\nport p : Int\n---\nf : Foo\nf = f",
        "A 2 BadPort p",
    ),
];

fn go_through(rt: &impl Abort, alloc: Global, rows: &[Row]) -> Result<(), Fail> {
    for (given, wanted) in rows {
        expect_fault(rt, alloc, given, wanted)?;
    }
    Ok(())
}

#[test]
fn types_without_sense(rt: HostRuntime) -> Result<(), Fail> {
    go_through(&rt, rt.alloc(), &SENSE)
}

#[test]
fn types_with_aliases(rt: HostRuntime) -> Result<(), Fail> {
    go_through(&rt, rt.alloc(), &ALIASES)
}

#[test]
fn constructors_of_unions(rt: HostRuntime) -> Result<(), Fail> {
    go_through(&rt, rt.alloc(), &UNIONS)
}

#[test]
fn ports_that_can_be(rt: HostRuntime) -> Result<(), Fail> {
    go_through(&rt, rt.alloc(), &PORTS)
}

#[test]
fn first_of_two(rt: HostRuntime) -> Result<(), Fail> {
    go_through(&rt, rt.alloc(), &ORDER)
}

/// A port that goes out, and behind it one that comes in on each line from the third to this one.
fn put_ports(text: &mut String, last: u32) -> Result<(), AllocError> {
    text.push_str("port p0 : Signal Int\nport p0 = p1\n")?;
    for line in 3..=last {
        write!(text, "port p{line} : Signal Int\n")?;
    }
    Ok(())
}

fn expect_ports(rt: &impl Abort, alloc: Global, last: u32, wanted: &str) -> Result<(), Fail> {
    let mut text = String::new(alloc);
    put_ports(&mut text, last)?;
    expect_fault(rt, alloc, text.as_str(), wanted)
}

#[test]
fn ports_that_come_in_are_counted(rt: HostRuntime) -> Result<(), Fail> {
    let alloc = rt.alloc();
    expect_ports(&rt, alloc, 258, "")?;
    expect_ports(&rt, alloc, 260, "Main 259 BadPort p259")
}
