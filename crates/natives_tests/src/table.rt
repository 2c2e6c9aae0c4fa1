//! Each native, called with what it costs, with more, and with one unit too few.
ghost use Rattle.std.specs.Prelude.{◌<◌, length};
ghost use Rattle.value_prims.specs.Planning.{IsPlaced};

use crate::same;
use crate::stock::{fill, stands};
use elm_base::{Name, NoMemory, NoteKind, Notes, Ref, RunFault, native};
use sqlite_items::Items;
use std::alloc::Global;
use std::process::Abort;
use value_arena::{Arena, Node};
use value_natives::native as call;
use value_text::to_text;

/// A label, a native with its arguments, what it costs, and the text of what it gives.
type Row = (&'static str, u32, &'static [Ref], u32, &'static str);

const NUMBERS: [Row; 15] = [
    ("2 + 3", native::ADD, &[2, 3], 0, "5"),
    ("a sum past 64 bits", native::ADD, &[7, 1], 0, "IntRange"),
    ("2 - 3", native::SUBTRACT, &[2, 3], 0, "-1"),
    (
        "a difference past 64 bits",
        native::SUBTRACT,
        &[8, 1],
        0,
        "IntRange",
    ),
    ("2 * 3", native::MULTIPLY, &[2, 3], 0, "6"),
    (
        "a product past 64 bits",
        native::MULTIPLY,
        &[8, 4],
        0,
        "IntRange",
    ),
    ("-7 // 2", native::DIVIDE, &[6, 2], 0, "-3"),
    ("1 // 0", native::DIVIDE, &[1, 0], 0, "DivideByZero"),
    (
        "a quotient past 64 bits",
        native::DIVIDE,
        &[8, 4],
        0,
        "IntRange",
    ),
    ("-1 % 4", native::MODULO, &[4, 5], 0, "3"),
    ("1 % 0", native::MODULO, &[1, 0], 0, "DivideByZero"),
    ("rem -1 4", native::REMAINDER, &[4, 5], 0, "-1"),
    ("rem 1 0", native::REMAINDER, &[1, 0], 0, "DivideByZero"),
    ("negate 1", native::NEGATE, &[1], 0, "-1"),
    ("negate the least", native::NEGATE, &[8], 0, "IntRange"),
];

const COMPARISONS: [Row; 17] = [
    ("[1,2] == [1,2]", native::EQUAL, &[35, 35], 5, "True"),
    ("[1,2] == [1,3]", native::EQUAL, &[35, 37], 4, "False"),
    (
        "functions ==",
        native::EQUAL,
        &[32, 32],
        1,
        "FunctionEquality",
    ),
    ("1 == ()", native::EQUAL, &[1, 33], 1, "False"),
    ("1 /= 2", native::NOT_EQUAL, &[1, 2], 1, "True"),
    (
        "functions /=",
        native::NOT_EQUAL,
        &[32, 32],
        1,
        "FunctionEquality",
    ),
    ("\"\" < \"ab\"", native::LESS, &[16, 17], 1, "True"),
    (
        "functions <",
        native::LESS,
        &[32, 32],
        1,
        "FunctionEquality",
    ),
    ("() < ()", native::LESS, &[33, 33], 1, "Stuck"),
    ("[1,2] > [1,3]", native::GREATER, &[35, 37], 4, "False"),
    ("2 > 1", native::GREATER, &[2, 1], 1, "True"),
    ("1 > 1", native::GREATER, &[1, 1], 1, "False"),
    ("[1,2] <= [1,2]", native::AT_MOST, &[35, 35], 5, "True"),
    ("1 >= 2", native::AT_LEAST, &[1, 2], 1, "False"),
    ("compare 'a' '\u{e4}'", native::COMPARE, &[14, 15], 1, "LT"),
    ("compare 2 1", native::COMPARE, &[2, 1], 1, "GT"),
    ("compare [] []", native::COMPARE, &[31, 31], 1, "EQ"),
];

const TEXTS: [Row; 18] = [
    ("texts ++", native::JOIN, &[17, 19], 3, "\"ab\u{e4}\""),
    ("lists ++", native::JOIN, &[35, 37], 2, "[1,2,1,3]"),
    ("no list ++", native::JOIN, &[40, 35], 0, "Stuck"),
    ("text ++ list", native::JOIN, &[17, 35], 0, "Stuck"),
    ("toString [1,2]", native::TO_STRING, &[35], 5, "\"[1,2]\""),
    ("toCode", native::CHAR_TO_CODE, &[14], 0, "97"),
    ("fromCode", native::CHAR_FROM_CODE, &[9], 0, "'A'"),
    (
        "fromCode of a surrogate",
        native::CHAR_FROM_CODE,
        &[11],
        0,
        "CharRange",
    ),
    ("length", native::STRING_LENGTH, &[18], 4, "4"),
    ("reverse", native::STRING_REVERSE, &[17], 2, "\"ba\""),
    ("toList", native::STRING_TO_LIST, &[19], 1, "['\u{e4}']"),
    (
        "fromList",
        native::STRING_FROM_LIST,
        &[39],
        2,
        "\"a\u{e4}\"",
    ),
    (
        "fromList of a number behind another",
        native::STRING_FROM_LIST,
        &[40],
        1,
        "Stuck",
    ),
    (
        "fromList of numbers",
        native::STRING_FROM_LIST,
        &[35],
        2,
        "Stuck",
    ),
    ("toInt -12", native::STRING_TO_INT, &[20], 3, "Ok -12"),
    (
        "toInt x",
        native::STRING_TO_INT,
        &[21],
        1,
        "Err \"could not convert string 'x' to an Int\"",
    ),
    (
        "toInt past 64 bits",
        native::STRING_TO_INT,
        &[22],
        19,
        "Err \"could not convert string '9223372036854775808' to an Int\"",
    ),
    (
        "toInt of nothing",
        native::STRING_TO_INT,
        &[16],
        0,
        "Err \"could not convert string '' to an Int\"",
    ),
];

const ELEMENTS: [Row; 20] = [
    ("text", native::TEXT, &[18], 8, "c |de"),
    (
        "a text too wide",
        native::TEXT,
        &[23],
        2002,
        "ElementTooLarge",
    ),
    ("spacer 2 1", native::SPACER, &[2, 1], 2, "  "),
    (
        "spacer 0 1001",
        native::SPACER,
        &[0, 10],
        0,
        "ElementTooLarge",
    ),
    ("spacer -1 1", native::SPACER, &[4, 1], 0, ""),
    ("flow down", native::FLOW, &[25, 45], 8, "ab|c |de"),
    ("flow up", native::FLOW, &[24, 45], 8, "c |de|ab"),
    ("flow right", native::FLOW, &[27, 45], 10, "abc |  de"),
    ("flow left", native::FLOW, &[26, 45], 10, "c ab|de  "),
    (
        "a flow too wide",
        native::FLOW,
        &[27, 47],
        1202,
        "ElementTooLarge",
    ),
    ("flow down []", native::FLOW, &[25, 31], 0, ""),
    ("a flow of numbers", native::FLOW, &[25, 35], 0, "Stuck"),
    (
        "a flow towards a position",
        native::FLOW,
        &[29, 45],
        0,
        "Stuck",
    ),
    (
        "container 5 3 middle",
        native::CONTAINER,
        &[13, 3, 29, 41],
        15,
        "     | ab  |     ",
    ),
    (
        "container 3 1 topLeft",
        native::CONTAINER,
        &[3, 1, 28, 41],
        3,
        "ab ",
    ),
    (
        "container 3 1 bottomRight",
        native::CONTAINER,
        &[3, 1, 30, 41],
        3,
        " ab",
    ),
    (
        "a container too wide",
        native::CONTAINER,
        &[10, 1, 29, 41],
        1001,
        "ElementTooLarge",
    ),
    (
        "a container of a number",
        native::CONTAINER,
        &[1, 1, 29, 1],
        0,
        "Stuck",
    ),
    ("widthOf", native::WIDTH_OF, &[42], 0, "2"),
    ("heightOf", native::HEIGHT_OF, &[42], 0, "2"),
];

const OTHERS: [Row; 8] = [
    ("watch", native::WATCH, &[17, 35], 5, "[1,2]"),
    ("log", native::LOG, &[17, 1], 1, "1"),
    ("crash", native::CRASH, &[17], 0, "Crash ab"),
    ("one argument of two", native::ADD, &[1], 0, "Stuck"),
    ("two arguments of one", native::NEGATE, &[1, 1], 0, "Stuck"),
    ("no argument of one", native::NEGATE, &[], 0, "Stuck"),
    ("a note under a number", native::WATCH, &[1, 1], 0, "Stuck"),
    ("a note of nothing", native::LOG, &[17], 0, "Stuck"),
];

const NODES: [Row; 22] = [
    ("constant", native::CONSTANT, &[1], 0, "Stuck"),
    ("map", native::MAP, &[1, 1], 0, "Stuck"),
    ("map2", native::MAP2, &[1, 1, 1], 0, "Stuck"),
    ("map3", native::MAP3, &[1, 1, 1, 1], 0, "Stuck"),
    ("map4", native::MAP4, &[1, 1, 1, 1, 1], 0, "Stuck"),
    ("map5", native::MAP5, &[1, 1, 1, 1, 1, 1], 0, "Stuck"),
    ("foldp", native::FOLDP, &[1, 1, 1], 0, "Stuck"),
    ("merge", native::MERGE, &[1, 1], 0, "Stuck"),
    ("filter", native::FILTER, &[1, 1, 1], 0, "Stuck"),
    ("filter_map", native::FILTER_MAP, &[1, 1, 1], 0, "Stuck"),
    ("drop_repeats", native::DROP_REPEATS, &[1], 0, "Stuck"),
    ("sample_on", native::SAMPLE_ON, &[1, 1], 0, "Stuck"),
    ("async", native::ASYNC, &[1], 0, "Stuck"),
    ("empty", native::EMPTY, &[], 0, "Stuck"),
    ("up", native::UP, &[], 0, "Stuck"),
    ("down", native::DOWN, &[], 0, "Stuck"),
    ("left", native::LEFT, &[], 0, "Stuck"),
    ("right", native::RIGHT, &[], 0, "Stuck"),
    ("top_left", native::TOP_LEFT, &[], 0, "Stuck"),
    ("middle", native::MIDDLE, &[], 0, "Stuck"),
    ("bottom_right", native::BOTTOM_RIGHT, &[], 0, "Stuck"),
    ("natives", native::NATIVES, &[], 0, "Stuck"),
];

#[test]
fn numbers(rt: HostRuntime) -> Result<(), NoMemory> {
    check_table(&rt, rt.alloc(), &NUMBERS)
}

#[test]
fn comparisons(rt: HostRuntime) -> Result<(), NoMemory> {
    check_table(&rt, rt.alloc(), &COMPARISONS)
}

#[test]
fn texts_and_lists(rt: HostRuntime) -> Result<(), NoMemory> {
    check_table(&rt, rt.alloc(), &TEXTS)
}

#[test]
fn elements(rt: HostRuntime) -> Result<(), NoMemory> {
    check_table(&rt, rt.alloc(), &ELEMENTS)
}

#[test]
fn notes_and_wrong_arguments(rt: HostRuntime) -> Result<(), NoMemory> {
    check_table(&rt, rt.alloc(), &OTHERS)
}

#[test]
fn makers_of_nodes_and_values(rt: HostRuntime) -> Result<(), NoMemory> {
    check_table(&rt, rt.alloc(), &NODES)
}

fn check_table(rt: &impl Abort, alloc: Global, rows: &[Row]) -> Result<(), NoMemory> {
    let mut arena = Arena::new(alloc)?;
    check_rows(rt, alloc, &mut arena, rows)
}

fn check_rows(
    rt: &impl Abort,
    alloc: Global,
    arena: &mut Arena,
    rows: &[Row],
) -> Result<(), NoMemory> {
    fill(alloc, arena)?;
    for (label, number, arguments, work, wanted) in rows {
        check_row(
            rt,
            alloc,
            arena,
            (*label, *number, *arguments),
            (*work, *wanted),
        )?;
    }
    Ok(())
}

fn check_row(
    rt: &impl Abort,
    alloc: Global,
    arena: &mut Arena,
    row: (&str, u32, &[Ref]),
    wanted: (u32, &str),
) -> Result<(), NoMemory> {
    let (work, said) = wanted;
    check(rt, alloc, arena, row, work, (said, 0))?;
    check(rt, alloc, arena, row, work.saturating_add(3), (said, 3))?;
    if work > 0 {
        check(rt, alloc, arena, row, work - 1, ("OutOfFuel", 0))?;
    }
    Ok(())
}

/// The call gives this with this fuel, leaves so many units, and records a note where it should.
fn check(
    rt: &impl Abort,
    alloc: Global,
    arena: &mut Arena,
    row: (&str, u32, &[Ref]),
    fuel: u32,
    wanted: (&str, u32),
) -> Result<(), NoMemory> {
    let mut notes = Notes {
        list: Items::new(alloc),
    };
    let mut text = Vec::new(alloc);
    let (label, number, arguments) = row;
    let left = put_answer(
        alloc,
        arena,
        (number, arguments),
        fuel,
        &mut notes,
        &mut text,
    )?;
    let (said, units) = wanted;
    let is_it = text.as_slice() == said.as_bytes();
    let noted = (number == native::WATCH || number == native::LOG)
        && said != "OutOfFuel"
        && said != "Stuck";
    let found = (is_it, left, notes.list.len());
    same(rt, found, (true, Some(units), usize::from(noted)), label);
    Ok(())
}

/// Appends the text of what a call gives; the units that it leaves. None where no value stands at an argument's place.
fn put_answer(
    alloc: Global,
    arena: &mut Arena,
    row: (u32, &[Ref]),
    fuel: u32,
    notes: &mut Notes,
    out: &mut Vec<u8>,
) -> Result<Option<u32>, NoMemory> {
    let (number, arguments) = row;
    if !stands(arena.mark().below, arguments) {
        return Ok(None);
    }
    let done = call(alloc, arena, number, arguments, fuel, notes)?;
    put_outcome(alloc, arena, &done.outcome, out)?;
    Ok(Some(done.left))
}

fn put_outcome(
    alloc: Global,
    arena: &Arena,
    outcome: &Result<Ref, RunFault>,
    out: &mut Vec<u8>,
) -> Result<(), NoMemory>
    requires { IsPlaced arena.now outcome.now }
{
    match outcome {
        Ok(at) => put_value(alloc, arena, *at, out),
        Err(fault) => put_fault(fault, out),
    }
}

/// Appends a value's text; of an Element its rows with bars between them.
fn put_value(alloc: Global, arena: &Arena, at: Ref, out: &mut Vec<u8>) -> Result<(), NoMemory>
    requires { at < length arena.now }
{
    match arena.node(at) {
        Node::Cells {
            width: _,
            height: _,
            rows,
        } => put_rows(rows.as_slice(), out),
        _ => {
            let _whole = to_text(alloc, arena, at, 100, out)?;
            Ok(())
        }
    }
}

fn put_rows(rows: &[Name], out: &mut Vec<u8>) -> Result<(), NoMemory> {
    let mut first = true;
    for row in rows {
        if !first {
            out.push(b'|')?;
        }
        first = false;
        out.extend_from_slice(row.bytes())?;
    }
    Ok(())
}

fn put_fault(fault: &RunFault, out: &mut Vec<u8>) -> Result<(), NoMemory> {
    let name: &[u8] = match fault {
        RunFault::OutOfFuel => b"OutOfFuel",
        RunFault::IntRange => b"IntRange",
        RunFault::DivideByZero => b"DivideByZero",
        RunFault::CharRange => b"CharRange",
        RunFault::FunctionEquality => b"FunctionEquality",
        RunFault::ElementTooLarge => b"ElementTooLarge",
        RunFault::Crash { text: _ } => b"Crash ",
        RunFault::Stuck => b"Stuck",
        _ => b"another",
    };
    out.extend_from_slice(name)?;
    if let RunFault::Crash { text } = fault {
        out.extend_from_slice(text.bytes())?;
    }
    Ok(())
}

#[test]
fn notes_have_tag_and_text(rt: HostRuntime) -> Result<(), NoMemory> {
    let mut arena = Arena::new(rt.alloc())?;
    let mut notes = Notes {
        list: Items::new(rt.alloc()),
    };
    check_note(&rt, rt.alloc(), &mut arena, &mut notes)
}

fn check_note(
    rt: &impl Abort,
    alloc: Global,
    arena: &mut Arena,
    notes: &mut Notes,
) -> Result<(), NoMemory> {
    let tag = arena.push(alloc, Node::Text(Name::of(alloc, b"tag")?))?;
    let value = arena.push(alloc, Node::Int(-3))?;
    if stands(arena.mark().below, &[tag, value]) {
        call(alloc, arena, native::WATCH, &[tag, value], 2, notes)?;
    }
    let found = match notes.list.as_slice() {
        [note] => note.tag.is(b"tag") && note.text.is(b"-3") && note.kind == NoteKind::Watch,
        _ => false,
    };
    same(rt, found, true, "the note");
    Ok(())
}
