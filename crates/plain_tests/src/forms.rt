//! Each form of expression and pattern in its plain form.
use crate::projects::{Row, put_form};
use std::alloc::Global;
use std::process::Abort;
use std::test::Fail;

const EXPRESSIONS: [Row; 17] = [
    ("f = 1 + 2\n", " !(#0)(1)(2);"),
    (
        "f x y = x && y\n",
        " \\(_0)(_1)(if(_0)(_1)(Basics.Bool|False/0));",
    ),
    (
        "f x y = x || y\n",
        " \\(_0)(_1)(if(_0)(Basics.Bool|True/0)(_1));",
    ),
    ("f = (&&)\n", " $0;"),
    ("f x = -x\n", " \\(_0)(!(#6)(_0));"),
    ("f = [1, 2]\n", " [](1)(2);"),
    (
        "f x = (x, 'a', \"b\", ())\n",
        " \\(_0)(,(_0)('a')(\"b\")(()));",
    ),
    ("f = [1..g]\ng = 2\n", " 2; ..(1)($3);"),
    ("f = 1 :: []\n", " !(Basics.List|::/2)(1)([]);"),
    ("f = Just\n", " Maybe.Maybe|Just/1;"),
    ("f = g .x\ng h = h\n", " \\(_0)(_0); !($3)(\\(_0)(.(_0)x));"),
    (
        "f b a = (,) (.x b) a\n",
        " \\(_0)(_1)(!(\\(_2)(_3)(,(_2)(_3)))(!(\\(_4)(.(_4)x))(_0))(_1));",
    ),
    ("f r = { r | x = 1 }\n", " \\(_0)({=}(_0)(x=1));"),
    ("f r = { r | x <- 1 }\n", " \\(_0)({<-}(_0)(x=1));"),
    ("f r = { r - x | x = 2 }\n", " \\(_0)({=}({-}(_0)x)(x=2));"),
    ("f r = { r - x }\n", " \\(_0)({-}(_0)x);"),
    ("f r = { x = r.x, y = 1 }\n", " \\(_0)({}(x=.(_0)x)(y=1));"),
];

const CHOICES: [Row; 6] = [
    ("f x = if x then 1 else 2\n", " \\(_0)(if(_0)(1)(2));"),
    (
        "f x = if | x -> 1\n         | True -> 2\n",
        " \\(_0)(guards(_0->1)(Basics.Bool|True/0->2));",
    ),
    (
        "f x = case x of\n  Just y -> y\n  Nothing -> 0\n",
        " \\(_0)(case(_0)(Maybe.Maybe|Just(_1)->_1)(Maybe.Maybe|Nothing->0));",
    ),
    (
        "f x = case x of\n  y :: [] -> y\n  [a, b] -> a\n  _ -> 0\n",
        " \\(_0)(case(_0)(::(_1)([])->_1)([](_2)(_3)->_2)(_->0));",
    ),
    (
        "f (x, y) {a, b} = (\\((c) as d) -> d)\n",
        " \\(,(_0)(_1))(.a_2.b_3)(\\((_4)@_5)(_5));",
    ),
    (
        "f x = case x of\n  ('a', 1, \"s\", ()) -> 1\n",
        " \\(_0)(case(_0)(,('a')(1)(\"s\")(())->1));",
    ),
];

const BLOCKS: [Row; 8] = [
    ("f x = let y = x\n      in y\n", " \\(_0)(let(_1(_0))(_1));"),
    (
        "f x = let y = z\n          z = x\n      in y\n",
        " \\(_0)(let(_2(_0))(_1(_2))(_1));",
    ),
    (
        "f x = let h a b = a\n      in h\n",
        " \\(_0)(let(_1=\\(_2)(_3)(_2))(_1));",
    ),
    (
        "f x = let h = (\\a -> a)\n      in h\n",
        " \\(_0)(let(_1=\\(_2)(_2))(_1));",
    ),
    (
        "f x = let h a = k a\n          k b = h b\n      in h\n",
        " \\(_0)(let(_1=\\(_2)(!(_3)(_2))_3=\\(_4)(!(_1)(_4)))(_1));",
    ),
    (
        "f x = let (a, b) = x\n      in b\n",
        " \\(_0)(let(,(_1)(_2)(_0))(_2));",
    ),
    (
        "type alias N = Int\nf x = let y : N\n          y = x\n      in y\n",
        " \\(_0)(let(_1((_0):(Basics.Int)))(_1));",
    ),
    (
        "f x = let h : Int -> Int\n          h y = y\n      in h\n",
        " \\(_0)(let(_1=\\(_2)(_2):(->(Basics.Int)(Basics.Int)))(_1));",
    ),
];

const NAMES: [Row; 4] = [
    (
        "type alias P = { x : Int, y : Int }\nf a = P a\n",
        " \\(_0)(!(\\(_1)(_2)(({}(x=_1)(y=_2)):(.x Basics.Int.y Basics.Int)))(_0));",
    ),
    (
        "type T = A | B Int\nf = (A, B)\n",
        " ,(Main.T|A/0)(Main.T|B/1);",
    ),
    ("f = p\np = 1\n", " 1; $3;"),
    ("port p : Signal Int\nf = p\n", " ?1; $3;"),
];

const GROUPS: [Row; 8] = [
    (
        "f x = g x\ng x = f x\n",
        " \\(_0)(!($4)(_0)) \\(_0)(!($3)(_0));",
    ),
    ("f = 1\ng = h\nh = f\n", " 1; $3; $4;"),
    (
        "f : Int -> Int\nf x = x\n",
        " \\(_0)(_0) : ->(Basics.Int)(Basics.Int);",
    ),
    (
        "type alias N = Int\ng = 2\nf : N\nf = 1\n",
        " 2; 1 : Basics.Int;",
    ),
    (
        "port q : Signal Int\nport q = g\ng = 1\n",
        " 1; $3 : Signal.Signal Basics.Int;",
    ),
    (
        "port p : Signal Int\nport q : Signal Int\nf = (q, p)\n",
        " ?1; ?2; ,($4)($3);",
    ),
    (
        "port p : Signal Int\nport q : Signal Int\nport q = p\nport r : Signal Int\n",
        " ?1; $3 : Signal.Signal Basics.Int; ?2;",
    ),
    ("import Signal\nf = Signal.clicks\n", " $2;"),
];

/// Ends the test where a plain form of these modules is another.
fn expect_all(rt: &impl Abort, alloc: Global, rows: &[Row]) -> Result<(), Fail> {
    let mut found = String::new(alloc);
    let mut all = String::new(alloc);
    for (given, wanted) in rows {
        put_form(alloc, given, &mut found)?;
        all.push_str(wanted)?;
        all.push_str("\n")?;
    }
    assert_eq!(rt; found.as_str(), all.as_str(), "plain forms");
    Ok(())
}

#[test]
fn expressions_have_plain_forms(rt: HostRuntime) -> Result<(), Fail> {
    expect_all(&rt, rt.alloc(), &EXPRESSIONS)
}

#[test]
fn choices_have_plain_forms(rt: HostRuntime) -> Result<(), Fail> {
    expect_all(&rt, rt.alloc(), &CHOICES)
}

#[test]
fn blocks_have_plain_forms(rt: HostRuntime) -> Result<(), Fail> {
    expect_all(&rt, rt.alloc(), &BLOCKS)
}

#[test]
fn names_have_plain_forms(rt: HostRuntime) -> Result<(), Fail> {
    expect_all(&rt, rt.alloc(), &NAMES)
}

#[test]
fn groups_have_their_definitions(rt: HostRuntime) -> Result<(), Fail> {
    expect_all(&rt, rt.alloc(), &GROUPS)
}
