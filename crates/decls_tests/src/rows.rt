//! The first fault of a project's types.
use crate::projects::{Row, expect_first, go_through};
use std::alloc::{AllocError, Global};
use std::fmt::Write;
use std::test::Fail;

/// A name of a type that stands for none, in each form of a type and of a declaration, beside one that stands for one.
const NAMES: [Row; 24] = [
    ("f : Foo\nf = f", "Main 1 BadType Foo"),
    ("f : Int\nf = f", "clear"),
    ("f : Maybe Foo\nf = f", "Main 1 BadType Foo"),
    ("f : Maybe Int\nf = f", "clear"),
    ("f : Int -> Foo\nf = f", "Main 1 BadType Foo"),
    ("f : Foo -> Int\nf = f", "Main 1 BadType Foo"),
    ("f : (Int, Foo)\nf = f", "Main 1 BadType Foo"),
    ("f : (Foo)\nf = f", "Main 1 BadType Foo"),
    ("f : { x : Int, y : Foo }\nf = f", "Main 1 BadType Foo"),
    ("f : { a | x : Foo }\nf = f", "Main 1 BadType Foo"),
    ("f : ((Int), { x : Int } -> ())\nf = f", "clear"),
    ("type T = A Foo", "Main 1 BadType Foo"),
    ("type T = A | B Int Foo", "Main 1 BadType Foo"),
    ("type T = A | B Int (List T)", "clear"),
    ("type alias T = (Int, Foo)", "Main 1 BadType Foo"),
    ("type alias T = (Int, Bool)", "clear"),
    ("port p : Signal Foo", "Main 1 BadType Foo"),
    ("port p : Signal Int", "clear"),
    (
        "port p : Signal Int\nport p = p\nport q : Foo\nport q = q",
        "Main 3 BadType Foo",
    ),
    ("f : T\nf = f\ntype T = A", "clear"),
    ("f : A\nf = f\ntype T = A", "Main 1 BadType A"),
    ("type T = A\nf : Main.T\nf = f", "Main 2 BadType Main.T"),
    ("f : Maybe.Maybe Basics.Int\nf = f", "clear"),
    ("f : List.List Int\nf = f", "Main 1 BadType List.List"),
];

/// Types of other modules.
const IMPORTS: [Row; 18] = [
    (
        "module A where\ntype T = K\n---\nimport A exposing (T)\nf : T\nf = f",
        "clear",
    ),
    (
        "module A where\ntype T = K\n---\nimport A exposing (..)\nf : T\nf = f",
        "clear",
    ),
    (
        "module A where\ntype T = K\n---\nimport A\nf : T\nf = f",
        "Main 2 BadType T",
    ),
    (
        "module A where\ntype T = K\n---\nimport A\nf : A.T\nf = f",
        "clear",
    ),
    (
        "module A where\ntype T = K\n---\nf : A.T\nf = f",
        "Main 1 BadType A.T",
    ),
    (
        "module A where\ntype T = K\n---\nimport A as B\nf : B.T\nf = f",
        "clear",
    ),
    (
        "module A where\ntype T = K\n---\nimport A as B\nf : A.T\nf = f",
        "Main 2 BadType A.T",
    ),
    (
        "module A where\ntype T = K\ntype U = L\n---\nimport A exposing (T)\nf : U\nf = f",
        "Main 2 BadType U",
    ),
    (
        "module A (U) where\ntype T = K\ntype U = L\n---\nimport A\nf : A.T\nf = f",
        "Main 2 BadType A.T",
    ),
    (
        "module A (U) where\ntype T = K\ntype U = L\n---\nimport A\nf : A.U\nf = f",
        "clear",
    ),
    (
        "module A.B where\ntype T = K\n---\nimport A.B\nf : A.B.T\nf = f",
        "clear",
    ),
    (
        "module A where\ntype alias T a = (a, a)\n---\nimport A exposing (T)\nf : T Int\nf = f",
        "clear",
    ),
    (
        "module A where\ntype T = K\n---\nmodule B where\ntype T = K\n---\nimport A exposing (..)\nimport B exposing (T)\nf : T\nf = f",
        "Main 3 BadType T",
    ),
    (
        "module A where\ntype T = K\n---\nmodule B where\ntype T = K\n---\nimport A exposing (..)\nimport B\nf : T\nf = f",
        "clear",
    ),
    (
        "module A where\ntype T = K\n---\nmodule B where\ntype T = K\n---\nimport A as M\nimport B as M\nf : M.T\nf = f",
        "Main 3 BadType M.T",
    ),
    (
        "module A where\ntype T = K\n---\nmodule B where\ntype T = K\n---\nimport A exposing (..)\nimport B exposing (..)\ntype T = L\nf : T\nf = f",
        "clear",
    ),
    (
        "module A where\ntype T = K\n---\nimport A exposing (T)\nimport A exposing (..)\nf : T\nf = f",
        "clear",
    ),
    ("type Maybe = A\nf : Maybe\nf = f", "clear"),
];

/// Numbers of arguments, and variables.
const ARGUMENTS: [Row; 26] = [
    ("f : Maybe\nf = f", "Main 1 BadType Maybe"),
    ("f : Maybe Int Int\nf = f", "Main 1 BadType Maybe"),
    ("f : Int Int\nf = f", "Main 1 BadType Int"),
    ("f : List Maybe\nf = f", "Main 1 BadType Maybe"),
    ("type T a b = A a b\nf : T Int Bool\nf = f", "clear"),
    ("type T a b = A a b\nf : T Int\nf = f", "Main 2 BadType T"),
    ("type alias P a = (a, a)\nf : P Int\nf = f", "clear"),
    ("type alias P a = (a, a)\nf : P\nf = f", "Main 2 BadType P"),
    ("type T a = A a", "clear"),
    ("type T a = A b", "Main 1 BadType b"),
    ("type T = A a", "Main 1 BadType a"),
    ("type T number = A number", "clear"),
    ("type T = A number", "Main 1 BadType number"),
    ("type alias T a = a -> a", "clear"),
    ("type alias T a = a -> b", "Main 1 BadType b"),
    ("type alias T a = { a | x : Int }", "clear"),
    ("type alias T a = { b | x : Int }", "Main 1 BadType b"),
    ("type alias T a = { x : b }", "Main 1 BadType b"),
    ("f : a -> { b | x : comparable }\nf = f", "clear"),
    (
        "f =\n  let\n    g : a\n    g = g\n  in g",
        "Main 3 BadType a",
    ),
    (
        "f =\n  let\n    g : number -> number2\n    g = g\n  in g",
        "clear",
    ),
    (
        "f =\n  let\n    g : num\n    g = g\n  in g",
        "Main 3 BadType num",
    ),
    (
        "f =\n  let\n    g : { r | x : Int }\n    g = g\n  in g",
        "Main 3 BadType r",
    ),
    (
        "f =\n  let\n    g : Int -> Foo\n    g = g\n  in g",
        "Main 3 BadType Foo",
    ),
    (
        "f : a\nf =\n  let\n    g : Maybe Int\n    g = g\n  in g",
        "clear",
    ),
    (
        "port p : Signal Int\nport p =\n  let\n    g : a\n    g = g\n  in g",
        "Main 4 BadType a",
    ),
];

/// A `let` in each form of an expression.
const PLACES: [Row; 19] = [
    ("f = 1 + let\n  g : a\n  g = g\n in g", "Main 2 BadType a"),
    ("f = -(let\n  g : a\n  g = g\n in g)", "Main 2 BadType a"),
    ("f = f (let\n  g : a\n  g = g\n in g)", "Main 2 BadType a"),
    ("f = (let\n  g : a\n  g = g\n in g) f", "Main 2 BadType a"),
    ("f = (let\n  g : a\n  g = g\n in g).x", "Main 2 BadType a"),
    ("f = (1, let\n  g : a\n  g = g\n in g)", "Main 2 BadType a"),
    ("f = [let\n  g : a\n  g = g\n in g]", "Main 2 BadType a"),
    (
        "f = [1 .. let\n  g : a\n  g = g\n in g]",
        "Main 2 BadType a",
    ),
    (
        "f = { x = let\n  g : a\n  g = g\n in g }",
        "Main 2 BadType a",
    ),
    (
        "f r = { r | x = let\n  g : a\n  g = g\n in g }",
        "Main 2 BadType a",
    ),
    (
        "f r = { r | x <- let\n  g : a\n  g = g\n in g }",
        "Main 2 BadType a",
    ),
    (
        "f r = { r - x | x = let\n  g : a\n  g = g\n in g }",
        "Main 2 BadType a",
    ),
    (
        "f = \\x -> let\n  g : a\n  g = g\n in g",
        "Main 2 BadType a",
    ),
    (
        "f = if 1 then 2 else let\n  g : a\n  g = g\n in g",
        "Main 2 BadType a",
    ),
    (
        "f = if | 1 -> let\n  g : a\n  g = g\n in g",
        "Main 2 BadType a",
    ),
    (
        "f = case 1 of\n  x -> let\n    g : a\n    g = g\n   in g",
        "Main 3 BadType a",
    ),
    (
        "f = let\n  h = let\n    g : a\n    g = g\n   in g\n in h",
        "Main 3 BadType a",
    ),
    (
        "f = let\n  (h, i) = let\n    g : a\n    g = g\n   in g\n in h",
        "Main 3 BadType a",
    ),
    (
        "f = let\n  h = 1\n in let\n    g : a\n    g = g\n   in g",
        "Main 4 BadType a",
    ),
];

/// Aliases that reach themselves, beside such that don't.
const CYCLES: [Row; 16] = [
    ("type alias A = A", "Main 1 BadType A"),
    ("type alias A = Int", "clear"),
    ("type alias A = B\ntype alias B = A", "Main 1 BadType A"),
    ("type alias A = B\ntype alias B = Int", "clear"),
    ("type alias A = (Int, Maybe A)", "Main 1 BadType A"),
    ("type alias A = { x : A }", "Main 1 BadType A"),
    ("type alias A = Int -> (A)", "Main 1 BadType A"),
    ("type T = K A\ntype alias A = T", "clear"),
    ("type T = K T", "clear"),
    (
        "type alias A = B\ntype alias B = C\ntype alias C = B",
        "Main 2 BadType B",
    ),
    (
        "type alias A = B\ntype alias B = C\ntype alias C = D\ntype alias D = A",
        "Main 1 BadType A",
    ),
    (
        "type alias D a = Int\ntype alias A = D A",
        "Main 2 BadType A",
    ),
    ("f : A\nf = f\ntype alias A = A", "Main 3 BadType A"),
    ("port p : Signal A\ntype alias A = A", "Main 2 BadType A"),
    (
        "module A where\ntype alias T = Int\n---\nimport A\ntype alias T = A.T",
        "clear",
    ),
    (
        "type alias A0 = Int\ntype alias A1 = (A0, A0)\ntype alias A2 = (A1, A1)\ntype alias A3 = (A2, A2)",
        "clear",
    ),
];

/// Which of two faults is the first.
const ORDER: [Row; 16] = [
    ("f : Foo -> Bar\nf = f", "Main 1 BadType Foo"),
    ("f : Maybe Foo Bar\nf = f", "Main 1 BadType Maybe"),
    ("f : Maybe (Maybe Foo Bar)\nf = f", "Main 1 BadType Maybe"),
    ("type T a = A b Foo", "Main 1 BadType b"),
    ("type T a = A Foo b", "Main 1 BadType Foo"),
    ("type T a = A a | B b | C Foo", "Main 1 BadType b"),
    ("type alias T a = { b | x : Foo }", "Main 1 BadType b"),
    ("type alias A = (A, Foo)", "Main 1 BadType Foo"),
    ("type alias A = A Int", "Main 1 BadType A"),
    ("f : Foo\nf = f\ng : Bar\ng = g", "Main 1 BadType Foo"),
    ("type alias A = A\ntype T = B Foo", "Main 1 BadType A"),
    ("type T = B Foo\ntype alias A = A", "Main 1 BadType Foo"),
    (
        "type alias B = (A, Foo)\ntype alias A = B",
        "Main 1 BadType Foo",
    ),
    (
        "type alias A = B\ntype alias B = (A, Foo)",
        "Main 1 BadType A",
    ),
    (
        "f =\n  let\n    g : Foo\n    g = g\n  in g\nh : Bar\nh = h",
        "Main 3 BadType Foo",
    ),
    (
        "module A where\nf = 1\ng : Foo\ng = g\n---\nimport A\nh : Bar\nh = h",
        "A 3 BadType Foo",
    ),
];

#[test]
fn names_of_types(rt: HostRuntime) -> Result<(), Fail> {
    go_through(&rt, rt.alloc(), &NAMES)
}

#[test]
fn types_of_imports(rt: HostRuntime) -> Result<(), Fail> {
    go_through(&rt, rt.alloc(), &IMPORTS)
}

#[test]
fn arguments_and_variables(rt: HostRuntime) -> Result<(), Fail> {
    go_through(&rt, rt.alloc(), &ARGUMENTS)
}

#[test]
fn annotations_in_each_form(rt: HostRuntime) -> Result<(), Fail> {
    go_through(&rt, rt.alloc(), &PLACES)
}

#[test]
fn aliases_that_reach_themselves(rt: HostRuntime) -> Result<(), Fail> {
    go_through(&rt, rt.alloc(), &CYCLES)
}

#[test]
fn first_of_two(rt: HostRuntime) -> Result<(), Fail> {
    go_through(&rt, rt.alloc(), &ORDER)
}

/// An alias of Int, and thirty of which each is a pair of the one before.
fn put_doubled(text: &mut String) -> Result<(), AllocError> {
    text.push_str("type alias A0 = Int")?;
    for next in 1..31u32 {
        let last = next - 1;
        write!(text, "\ntype alias A{next} = (A{last}, A{last})")?;
    }
    Ok(())
}

pub fn doubled(alloc: Global) -> Result<String, AllocError> {
    let mut text = String::new(alloc);
    put_doubled(&mut text)?;
    Ok(text)
}

#[test]
fn aliases_that_double(rt: HostRuntime) -> Result<(), Fail> {
    let text = doubled(rt.alloc())?;
    expect_first(&rt, rt.alloc(), text.as_str(), "clear")
}
