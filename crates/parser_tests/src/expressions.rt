use crate::form::{check_along, check_around};
use crate::reading::{Reading, check_rows, written};
use crate::same;
use expr_parser::one_expr;
use std::alloc::AllocError;

const ACCEPTED: [(&str, &str); 93] = [
    ("1", "1"),
    ("'a'", "'a'"),
    ("\"a\"", "\"a\""),
    ("x", "x"),
    ("A.b", "A.b"),
    ("A.B", "A.B"),
    (".x", ".x"),
    ("(.x)", "(in .x)"),
    ("(+ )", "op +"),
    ("(-)", "op -"),
    ("(::)", "op ::"),
    ("(,)", "tuple2"),
    ("(,,,,,,,,)", "tuple9"),
    ("()", "()"),
    ("(a)", "(in a)"),
    ("(-a)", "(in (neg a))"),
    ("(a, b, c, d, e, f, g, h, i)", "(tuple a b c d e f g h i)"),
    ("[]", "(list)"),
    ("[a]", "(list a)"),
    ("[a, -b]", "(list a (neg b))"),
    ("[a .. b + c]", "(range a (chain + of b c))"),
    ("{}", "(fields)"),
    ("{ x = 1, y = a b }", "(fields x=1 y=(call a b))"),
    ("{ x = 1, x = 2 }", "(fields x=1 x=2)"),
    ("{ r | x = 1 }", "(extend r x=1)"),
    ("{ f.r | x = 1, y = 2 }", "(extend f!r x=1 y=2)"),
    (
        "{ (f a) | x <- 1, y <- 2 }",
        "(update (in (call f a)) x=1 y=2)",
    ),
    ("{ {} | x <- 1 }", "(update (fields) x=1)"),
    ("{ r - x }", "(without x r)"),
    ("{ r - x | y = 1, z = 2 }", "(without x r y=1 z=2)"),
    ("f a b", "(call f a b)"),
    ("A.B c", "(call A.B c)"),
    (
        "f (g a) [b] {}",
        "(call f (in (call g a)) (list b) (fields))",
    ),
    ("f .x", "(call f .x)"),
    ("f.x", "f!x"),
    ("f a.x", "(call f a!x)"),
    ("a.b.c", "a!b!c"),
    ("A.b.c", "A.b!c"),
    (".x.y", "(call .x .y)"),
    ("(a).x.y", "(in a)!x!y"),
    ("{}.x", "(fields)!x"),
    ("[a].x", "(call (list a) .x)"),
    ("x\ny", "(call x y)"),
    ("a + b * c", "(chain + * of a b c)"),
    ("a - -b", "(chain - of a (neg b))"),
    ("-f x", "(neg (call f x))"),
    ("f -1", "(chain - of f 1)"),
    ("f - 1", "(chain - of f 1)"),
    ("a :: b :: []", "(chain :: :: of a b (list))"),
    ("a `f` b `A.g` c", "(chain f A.g of a b c)"),
    (
        "a + \\x -> x + 1",
        "(chain + of a (\\ x -> (chain + of x 1)))",
    ),
    (
        "a + b * if c then d else e + f",
        "(chain + * of a b (if c d (chain + of e f)))",
    ),
    ("(\\x -> x) + 1", "(chain + of (in (\\ x -> x)) 1)"),
    ("\\x -> x", "(\\ x -> x)"),
    (
        "\\A _ (B y) { z } [] -> x",
        "(\\ <A> _ (<B y>) { z} [] -> x)",
    ),
    ("\\(x as y) {z} -> x", "(\\ (<x as y>) { z} -> x)"),
    ("if a then b else c", "(if a b c)"),
    ("if a then if b then c else d else e", "(if a (if b c d) e)"),
    ("if | a -> 1 | b -> 2", "(if | a -> 1 | b -> 2)"),
    ("if | a -> (if | b -> 1)", "(if | a -> (in (if | b -> 1)))"),
    ("if | if | a -> b -> 1", "(if | (if | a -> b) -> 1)"),
    ("if | a -> if b then c else d", "(if | a -> (if b c d))"),
    (
        "if | a -> if b then (if | c -> 1) else d | e -> f",
        "(if | a -> (if b (in (if | c -> 1)) d) | e -> f)",
    ),
    ("let x = 1 in x", "(let x = 1; in x)"),
    ("let x = 1\nin x", "(let x = 1; in x)"),
    ("let x = 1\n    in x", "(let x = 1; in x)"),
    ("let x = 1\n      in x", "(let x = 1; in x)"),
    ("let x =\n     1\nin x", "(let x = 1; in x)"),
    ("let x = 1\n    y = 2\nin x", "(let x = 1; y = 2; in x)"),
    (
        "let a = let b = 1\n     in b\nin a",
        "(let a = (let b = 1; in b); in a)",
    ),
    (
        "let a = let b = 1\n            c = 2\n        in b\n    d = 3\nin a",
        "(let a = (let b = 1; c = 2; in b); d = 3; in a)",
    ),
    (
        "let x = case m of\n     A -> 1\nin x",
        "(let x = (case m | <A> -> 1); in x)",
    ),
    ("let f x (A y) = x in f", "(let f x (<A y>) = x; in f)"),
    (
        "let f : A -> (B)\n    f x = x\nin f",
        "(let f : ..; f x = x; in f)",
    ),
    (
        "let f : { r | x : A (B c) }\n    f = x in f",
        "(let f : ..; f = x; in f)",
    ),
    ("let (a, b) = c in a", "(let (, a b) = c; in a)"),
    ("let {x, y} = r in x", "(let { x y} = r; in x)"),
    ("let () = r in x", "(let () = r; in x)"),
    ("case m of A -> 1", "(case m | <A> -> 1)"),
    (
        "case m of\n  A -> 1\n  _ -> 2",
        "(case m | <A> -> 1 | _ -> 2)",
    ),
    (
        "case m of A -> 1\n          B -> 2",
        "(case m | <A> -> 1 | <B> -> 2)",
    ),
    (
        "case f m of\n0 -> 1\n1 -> 2",
        "(case (call f m) | 0 -> 1 | 1 -> 2)",
    ),
    ("case m of x as y -> x", "(case m | <x as y> -> x)"),
    ("case m of (x as y) -> x", "(case m | (<x as y>) -> x)"),
    (
        "case m of x :: y as z -> x",
        "(case m | <<x :: y> as z> -> x)",
    ),
    ("case m of A.B c -> c", "(case m | <A.B c> -> c)"),
    ("case m of [1, x] -> x", "(case m | [ 1 x] -> x)"),
    ("case m of \"a\" -> 'b'", "(case m | \"a\" -> 'b')"),
    (
        "case m of\n  A -> case n of\n    B -> 1\n    C -> 2\n  D -> 3",
        "(case m | <A> -> (case n | <B> -> 1 | <C> -> 2) | <D> -> 3)",
    ),
    ("case m of A -> 1 + 2", "(case m | <A> -> (chain + of 1 2))"),
    (
        "(case m of A -> 1) + 2",
        "(chain + of (in (case m | <A> -> 1)) 2)",
    ),
    ("f (let x = 1 in x)", "(call f (in (let x = 1; in x)))"),
    (
        "a + case m of\n  A -> 1\n  B -> 2",
        "(chain + of a (case m | <A> -> 1 | <B> -> 2))",
    ),
];

#[test]
fn texts_have_their_trees(rt: HostRuntime) -> Result<(), AllocError> {
    check_rows(&rt, rt.alloc(), Reading::Expression, &ACCEPTED)?;
    one_expr();
    Ok(())
}

const REFUSED: [&str; 91] = [
    "",
    "a)",
    "(a",
    "(a b",
    "type",
    "_",
    "a = b",
    "a , b",
    "(`f`)",
    "(+ a)",
    "(+",
    "(,,,,,,,,,)",
    "(,",
    "(a,)",
    "(, a)",
    "(a, b, c, d, e, f, g, h, i, j)",
    "[a,]",
    "[a .. b, c]",
    "[.. b]",
    "[a ..]",
    "[a",
    "{ x }",
    "{x}",
    "{ r | }",
    "{ x = 1, x <- 2 }",
    "{ x <- 1 }",
    "{ x = }",
    "{ x = 1, }",
    "{ A.x = 1 }",
    "{ r | x = 1, y <- 2 }",
    "{ r | x <- 1, y = 2 }",
    "{ r | x = 1",
    "{ f a | x = 1 }",
    "{ r - }",
    "{ r - X }",
    "{ r - x | }",
    "{ r - x | y <- 1 }",
    "{ r - x - y }",
    "- -1",
    "--1",
    "-",
    "a +",
    "+ a",
    "a + + b",
    "a `F` b",
    "a `f b",
    "a `f` `g` b",
    "f \\x -> x",
    "f if a then b else c",
    "f let x = 1 in x",
    "\\ -> 1",
    "\\x",
    "\\x y",
    "\\x ->",
    "\\x as y -> x",
    "\\x + y -> x",
    "if a then b",
    "if a else b",
    "if a then b else",
    "if then b else c",
    "if |",
    "if | a",
    "if | a ->",
    "if | a -> if | b -> 1",
    "if | a -> 1 | b -> if | c -> 2",
    "if | a -> \\x -> if | b -> 1",
    "if | a -> let x = 1 in if | b -> 1",
    "if | a -> if b then c else if | d -> 1",
    "if | a -> case m of A -> if | b -> 1",
    "if | a -> 1 + if | b -> 1",
    "let in 1",
    "let x = 1",
    "let x in x",
    "let x = 1\n     y = 2\nin x",
    "let x = 1\n   y = 2\nin x",
    "let x =\n    1\nin x",
    "let x = let y = 1\n        z = 2 in y\nin x",
    "let x = case m of\n    A -> 1\nin x",
    "let a = let b = 1\n    in b\nin a",
    "let f : A\nin f",
    "let f : A\n    g = 1\nin g",
    "let f : A\n    f : A\n    f = 1\nin f",
    "let f : { x }\n    f = 1\nin f",
    "let f :\n    f = 1\nin f",
    "let A.f = 1 in 1",
    "let (+) a b = a in 1",
    "let (a) = c in a",
    "let [a] = c in a",
    "let A a = c in a",
    "case m of",
    "case m of A -> 1 B -> 2",
];

const REFUSED_IN_LINES: [&str; 9] = [
    "case m of\n  A -> 1\n B -> 2",
    "case m of\n  A -> 1\n   B -> 2",
    "case m of\n  A ->\n  1",
    "case m of\n  A -> case n of\n  B -> 1",
    "case m of -1 -> 2",
    "case m of x + y -> 2",
    "case m of A -> 1\n  in 2",
    "case of A -> 1",
    "let _ = c in a",
];

#[test]
fn other_texts_have_none(rt: HostRuntime) -> Result<(), AllocError> {
    for text in REFUSED.iter().chain(&REFUSED_IN_LINES) {
        let found = written(rt.alloc(), Reading::Expression, text)?;
        same(&rt, found.as_str(), "NoTree", text);
    }
    Ok(())
}

/// What may stand in front and behind, and how often at most.
const AROUND: [(&str, &str, usize); 18] = [
    ("(", ")", 100),
    ("[", "]", 100),
    ("(b, ", ")", 100),
    ("[b .. ", "]", 100),
    ("{ x = ", " }", 100),
    ("{ b | x <- ", " }", 100),
    ("{ b - x | y = ", " }", 100),
    ("-(", ")", 50),
    ("f (", ")", 50),
    ("b + (", ")", 50),
    ("\\b -> ", "", 100),
    ("\\b c -> ", "", 50),
    ("if b then c else ", "", 100),
    ("if | b -> (", ")", 50),
    ("let x = 1 in ", "", 100),
    ("let x = ", " in b", 100),
    ("case b of c -> ", "", 100),
    ("", ".x", 100),
];

/// What may stand first, the part that may stand often, what stands last, and how often the part may stand.
const ALONG: [(&str, &str, &str, usize); 4] = [
    ("f", " a", "", 100),
    ("a", " + a", "", 100),
    ("\\", "a ", "-> a", 100),
    ("let f ", "a ", "= a in f", 99),
];

#[test]
fn expressions_nest_at_most_100_deep(rt: HostRuntime) -> Result<(), AllocError> {
    check_around(&rt, rt.alloc(), Reading::Expression, &AROUND)?;
    check_along(&rt, rt.alloc(), Reading::Expression, &ALONG)
}
