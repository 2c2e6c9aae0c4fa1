//! Each form of pattern with values that fit and values that don't, and the slots that are pushed.
ghost use Rattle.std.specs.Prelude.{◌<◌, length};
ghost use Rattle.value_slots.specs.Operands.{Stands};

use crate::{patterns, same, stock};
use elm_base::{NoMemory, Ref, TermPattern};
use pattern_match::bind_pattern;
use sqlite_items::Items;
use std::alloc::Global;
use std::process::Abort;
use std::test::Fail;
use value_arena::Arena;
use value_slots::{Operand, Slot};

/// A label, a pattern, a value's place, and the names that it gives places, where it fits.
type Row = (&'static str, usize, Ref, Option<&'static [(u32, Ref)]>);

const SIMPLE: [Row; 12] = [
    ("_", patterns::ANYTHING, stock::PAIR, Some(&[])),
    (
        "a name",
        patterns::NAME,
        stock::TWO,
        Some(&[(1, stock::TWO)]),
    ),
    ("3 and 3", patterns::THREE, stock::THREE, Some(&[])),
    ("3 and 4", patterns::THREE, stock::FOUR, None),
    ("3 and a list", patterns::THREE, stock::ONE, None),
    ("'a'", patterns::CHAR, stock::CHAR, Some(&[])),
    ("'a' and a number", patterns::CHAR, stock::THREE, None),
    ("a text", patterns::TEXT, stock::TEXT, Some(&[])),
    ("a text and ()", patterns::TEXT, stock::UNIT, None),
    ("()", patterns::UNIT, stock::UNIT, Some(&[])),
    ("() and []", patterns::UNIT, stock::NIL, None),
    ("True", patterns::TRUE, stock::TRUE, Some(&[])),
];

const LISTS: [Row; 8] = [
    ("[]", patterns::NIL, stock::NIL, Some(&[])),
    ("[] and [3]", patterns::NIL, stock::ONE, None),
    (
        "x :: xs and [3]",
        patterns::CONS,
        stock::ONE,
        Some(&[(1, stock::THREE), (2, stock::NIL)]),
    ),
    (
        "x :: xs and [4, 3]",
        patterns::CONS,
        stock::TWO,
        Some(&[(1, stock::FOUR), (2, stock::ONE)]),
    ),
    ("x :: xs and []", patterns::CONS, stock::NIL, None),
    (
        "[x] and [3]",
        patterns::ONE_ELEMENT,
        stock::ONE,
        Some(&[(1, stock::THREE)]),
    ),
    ("[x] and [4, 3]", patterns::ONE_ELEMENT, stock::TWO, None),
    ("[x] and []", patterns::ONE_ELEMENT, stock::NIL, None),
];

const PARTS: [Row; 11] = [
    (
        "(x, y)",
        patterns::PAIR,
        stock::PAIR,
        Some(&[(1, stock::THREE), (2, stock::FOUR)]),
    ),
    (
        "(x, y) and three parts",
        patterns::PAIR,
        stock::TRIPLE,
        None,
    ),
    ("(x, y) and a list", patterns::PAIR, stock::TWO, None),
    (
        "Just x",
        patterns::JUST,
        stock::JUST,
        Some(&[(1, stock::FOUR)]),
    ),
    ("Just x and Nothing", patterns::JUST, stock::NOTHING, None),
    ("Just x and True", patterns::JUST, stock::TRUE, None),
    ("True and Nothing", patterns::TRUE, stock::NOTHING, None),
    (
        "{ x, y }",
        patterns::FIELDS,
        stock::RECORD,
        Some(&[(1, stock::FOUR), (2, stock::THREE)]),
    ),
    ("{ x, y } without y", patterns::FIELDS, stock::NARROW, None),
    (
        "Just x as y",
        patterns::NAMED,
        stock::JUST,
        Some(&[(1, stock::FOUR), (2, stock::JUST)]),
    ),
    (
        "Just x as y and Nothing",
        patterns::NAMED,
        stock::NOTHING,
        None,
    ),
];

/// What was pushed, as numbers and places.
fn is_wanted(slots: &[Slot], wanted: &[(u32, Ref)]) -> bool {
    if slots.len() != wanted.len() {
        return false;
    }
    for at in 0..slots.len() {
        let (number, place) = wanted[at];
        let value = Operand::Node(place);
        if slots[at] != (Slot { number, value }) {
            return false;
        }
    }
    true
}

/// A pattern is tried on a value behind a slot that was there.
fn check(
    rt: &impl Abort,
    alloc: Global,
    arena: &Arena,
    pattern: &TermPattern,
    operand: Operand,
    wanted: Option<&[(u32, Ref)]>,
    label: &str,
) -> Result<(), NoMemory>
    requires { Stands (length arena.now) operand }
{
    let mut slots = Vec::new(alloc);
    let fits = bind_pattern(pattern, operand, arena, &mut slots)?;
    same(rt, fits, wanted.is_some(), label);
    let same_slots = is_wanted(slots.as_slice(), wanted.unwrap_or(&[]));
    same(rt, same_slots, true, label);
    Ok(())
}

fn check_rows(
    rt: &impl Abort,
    alloc: Global,
    arena: &Arena,
    all: &Items<TermPattern>,
    rows: &[Row],
) -> Result<(), NoMemory> {
    for (label, pattern, at, wanted) in rows {
        match all.get(*pattern) {
            Some(pattern) if stock::stands(arena, *at) => {
                check(
                    rt,
                    alloc,
                    arena,
                    pattern,
                    Operand::Node(*at),
                    *wanted,
                    label,
                )?;
            }
            _ => same(rt, false, true, label),
        }
    }
    Ok(())
}

/// Values without nodes.
fn check_operands(
    rt: &impl Abort,
    alloc: Global,
    arena: &Arena,
    all: &Items<TermPattern>,
) -> Result<(), NoMemory> {
    let rows = [
        ("3", patterns::THREE, Operand::Int(3), true),
        ("not 3", patterns::THREE, Operand::Int(4), false),
        ("truth", patterns::TRUE, Operand::Truth(true), true),
        ("not truth", patterns::TRUE, Operand::Truth(false), false),
        ("a native", patterns::ANYTHING, Operand::Native(0), true),
        ("no pair", patterns::PAIR, Operand::Native(0), false),
        ("no list", patterns::CONS, Operand::Int(3), false),
    ];
    for (label, pattern, operand, fits) in rows {
        let wanted: Option<&[(u32, Ref)]> = if fits { Some(&[]) } else { None };
        if let Some(pattern) = all.get(pattern) {
            if let Operand::Node(_) = operand {
                continue;
            }
            check(rt, alloc, arena, pattern, operand, wanted, label)?;
        }
    }
    Ok(())
}

#[test]
fn patterns_fit_values(rt: HostRuntime) -> Result<(), Fail> {
    let mut arena = Arena::new(rt.alloc())?;
    stock::fill(rt.alloc(), &mut arena)?;
    let mut all = Items::new(rt.alloc());
    patterns::push_all(rt.alloc(), &mut all)?;
    check_rows(&rt, rt.alloc(), &arena, &all, &SIMPLE)?;
    check_rows(&rt, rt.alloc(), &arena, &all, &LISTS)?;
    check_rows(&rt, rt.alloc(), &arena, &all, &PARTS)?;
    check_operands(&rt, rt.alloc(), &arena, &all)?;
    Ok(())
}
