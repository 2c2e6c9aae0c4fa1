ghost use Rattle.std.specs.Prelude.{IsTrue};
ghost use Rattle.value_prims.specs.Planning.{PlanStands};

use crate::same;
use elm_base::{Name, NoMemory, RunFault};
use sqlite_items::Items;
use std::alloc::Global;
use std::cmp::Ordering;
use std::process::Abort;
use value_arena::{Arena, Node};
use value_prims::{
    Plan, Planned, char_of_code, code, crashed, height, joined_texts, negated, settle, stuck,
    text_length, text_list, text_reversed, value_text, width,
};
use value_text::to_text;

/// Whether a plan names nothing of an arena and no cells.
fn stands(planned: &Planned) -> bool
    ensures { IsTrue result → PlanStands 0 planned.now.plan }
{
    match planned.plan {
        Plan::Element(_) | Plan::Front { heads: _, back: _ } => false,
        _ => true,
    }
}

/// The units that ten leave, and the text of the value, or none where there is none.
fn settled(
    alloc: Global,
    arena: &mut Arena,
    planned: Planned,
    text: &mut Vec<u8>,
) -> Result<u32, NoMemory> {
    if !stands(&planned) {
        return Ok(u32::MAX);
    }
    let done = settle(alloc, arena, planned, 10)?;
    if let Ok(at) = done.outcome {
        if at < arena.mark().below {
            let _whole = to_text(alloc, arena, at, 100, text)?;
        }
    }
    Ok(done.left)
}

/// Ten units give a value with this text and leave so many; without text there is no value.
fn check(
    rt: &impl Abort,
    alloc: Global,
    planned: Planned,
    wanted: &str,
    left: u32,
) -> Result<(), NoMemory> {
    let mut arena = Arena::new(alloc)?;
    let mut text = Vec::new(alloc);
    let found = settled(alloc, &mut arena, planned, &mut text)?;
    same(
        rt,
        (text.as_slice(), found),
        (wanted.as_bytes(), left),
        wanted,
    );
    Ok(())
}

/// The name of the fault that is planned.
fn fault_of(planned: Planned) -> &'static str {
    match planned.plan {
        Plan::Fault(RunFault::IntRange) => "IntRange",
        Plan::Fault(RunFault::CharRange) => "CharRange",
        Plan::Fault(RunFault::Crash { text: _ }) => "Crash",
        _ => "none",
    }
}

fn planned(work: u64, plan: Plan) -> Planned {
    Planned { work, plan }
}

#[test]
fn plans_are_made(rt: HostRuntime) -> Result<(), NoMemory> {
    let alloc = rt.alloc();
    check(&rt, alloc, planned(10, Plan::Int(-3)), "-3", 0)?;
    check(&rt, alloc, planned(11, Plan::Int(-3)), "", 0)?;
    check(&rt, alloc, planned(1, Plan::Truth(false)), "False", 9)?;
    check(&rt, alloc, planned(1, Plan::Order(Ordering::Less)), "LT", 9)?;
    check(&rt, alloc, stuck(), "", 10)
}

#[test]
fn plans_with_parts_are_made(rt: HostRuntime) -> Result<(), NoMemory> {
    let alloc = rt.alloc();
    check(&rt, alloc, planned(2, Plan::Read(7)), "Ok 7", 8)?;
    let word = Name::of(alloc, b"no")?;
    check(&rt, alloc, planned(2, Plan::Unread(word)), "Err \"no\"", 8)?;
    let codes = Items::from_slice(alloc, &['a', 'b'])?;
    check(&rt, alloc, planned(2, Plan::Chars(codes)), "['a','b']", 8)
}

#[test]
fn natives_on_numbers_and_chars_are_planned(rt: HostRuntime) -> Result<(), NoMemory> {
    let alloc = rt.alloc();
    let least = fault_of(negated(&Node::Int(i64::MIN)));
    same(&rt, least, "IntRange", "the least number");
    let surrogate = fault_of(char_of_code(&Node::Int(55296)));
    same(&rt, surrogate, "CharRange", "a surrogate");
    check(&rt, alloc, negated(&Node::Int(3)), "-3", 10)?;
    check(&rt, alloc, code(&Node::Char('a')), "97", 10)?;
    check(&rt, alloc, char_of_code(&Node::Int(97)), "'a'", 10)
}

fn check_text(rt: &impl Abort, alloc: Global, text: &Node) -> Result<(), NoMemory> {
    check(rt, alloc, text_length(text), "2", 8)?;
    check(rt, alloc, text_reversed(alloc, text)?, "\"b\u{e4}\"", 8)?;
    check(rt, alloc, text_list(alloc, text)?, "['\u{e4}','b']", 8)
}

#[test]
fn natives_on_texts_are_planned(rt: HostRuntime) -> Result<(), NoMemory> {
    let alloc = rt.alloc();
    check(&rt, alloc, joined_texts(alloc, b"ab", b"c")?, "\"abc\"", 7)?;
    let text = Node::Text(Name::of(alloc, b"\xc3\xa4b")?);
    check_text(&rt, alloc, &text)
}

fn check_broken(rt: &impl Abort, alloc: Global, text: &Node) -> Result<(), NoMemory> {
    let stopped = fault_of(crashed(alloc, text)?);
    same(rt, stopped, "Crash", "crash");
    check(rt, alloc, text_list(alloc, text)?, "[]", 10)?;
    check(rt, alloc, text_reversed(alloc, text)?, "\"\"", 10)
}

#[test]
fn natives_on_broken_texts_are_planned(rt: HostRuntime) -> Result<(), NoMemory> {
    let broken = Node::Text(Name::of(rt.alloc(), b"a\xc3")?);
    check_broken(&rt, rt.alloc(), &broken)
}

fn check_size(rt: &impl Abort, alloc: Global, cells: &Node) -> Result<(), NoMemory> {
    check(rt, alloc, width(cells), "3", 10)?;
    check(rt, alloc, height(cells), "0", 10)
}

#[test]
fn sizes_are_planned(rt: HostRuntime) -> Result<(), NoMemory> {
    let rows = Items::new(rt.alloc());
    let cells = Node::Cells {
        width: 3,
        height: 0,
        rows,
    };
    check_size(&rt, rt.alloc(), &cells)
}

fn check_value_text(rt: &impl Abort, alloc: Global, arena: &mut Arena) -> Result<(), NoMemory> {
    let number = arena.push(alloc, Node::Int(-12))?;
    let dear = value_text(alloc, arena, number, 2)?.work;
    same(rt, dear, 3, "the work of a text that is too dear");
    check(
        rt,
        alloc,
        value_text(alloc, arena, number, 3)?,
        "\"-12\"",
        7,
    )
}

#[test]
fn texts_of_values_are_planned(rt: HostRuntime) -> Result<(), NoMemory> {
    let mut arena = Arena::new(rt.alloc())?;
    check_value_text(&rt, rt.alloc(), &mut arena)
}
