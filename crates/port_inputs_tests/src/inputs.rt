//! Events held against inputs, and values placed in an arena and written.
use elm_base::{Code, Event, Halt, Name, NoMemory, PortType, PortValue, Program};
use port_inputs::{Misfit, fits, place};
use port_literals::{is_port, read_value};
use port_texts::read_type;
use sqlite_items::Items;
use std::alloc::Global;
use value_arena::Arena;
use value_text::to_text;

/// The type of a text, and `()` where it is that of none.
fn type_of(alloc: Global, text: &str) -> Result<PortType, NoMemory> {
    match read_type(alloc, text.as_bytes()) {
        Ok(port) => Ok(port),
        Err(Halt::Because(_)) => Ok(PortType::Unit),
        Err(Halt::NoMemory) => Err(NoMemory),
    }
}

/// The value of a literal, and `()` where it is that of none.
fn value_of(alloc: Global, port: &PortType, literal: &str) -> Result<PortValue, NoMemory> {
    if !is_port(port) {
        return Ok(PortValue::Unit);
    }
    match read_value(alloc, literal.as_bytes(), port) {
        Ok(value) => Ok(value),
        Err(Halt::Because(_)) => Ok(PortValue::Unit),
        Err(Halt::NoMemory) => Err(NoMemory),
    }
}

/// An event of a row.
#[derive(Clone, Copy)]
enum Told {
    /// A name, the text of a type and a literal.
    Input(&'static str, &'static str, &'static str),
    Deliver(u32),
}

fn input(alloc: Global, name: &str, port: &str, literal: &str) -> Result<Event, NoMemory> {
    let name = Name::of(alloc, name.as_bytes())?;
    let port = type_of(alloc, port)?;
    let value = value_of(alloc, &port, literal)?;
    Ok(Event::Input { name, port, value })
}

fn event(alloc: Global, told: Told) -> Result<Event, NoMemory> {
    match told {
        Told::Input(name, port, literal) => input(alloc, name, port, literal),
        Told::Deliver(number) => Ok(Event::Deliver { number }),
    }
}

fn push_events(alloc: Global, events: &mut Vec<Event>, row: &[Told]) -> Result<(), NoMemory> {
    for told in row {
        events.push(event(alloc, *told)?)?;
    }
    Ok(())
}

const INPUTS: &[(&str, &str)] = &[
    ("Mouse.position", "(Int,Int)"),
    ("Mouse.x", "Int"),
    ("p", "Maybe (List Int)"),
    ("q", "{ x : Int, y : Bool }"),
];

fn push_inputs(
    alloc: Global,
    inputs: &mut Vec<(Name, PortType)>,
    row: &[(&str, &str)],
) -> Result<(), NoMemory> {
    for (name, port) in row {
        let name = Name::of(alloc, name.as_bytes())?;
        inputs.push((name, type_of(alloc, port)?))?;
    }
    Ok(())
}

/// A program with these inputs and nothing else.
fn program(alloc: Global, row: &[(&str, &str)]) -> Result<Program, NoMemory> {
    let mut inputs = Vec::new(alloc);
    push_inputs(alloc, &mut inputs, row)?;
    let code = Code {
        tops: Items::new(alloc),
        terms: Items::new(alloc),
    };
    Ok(Program {
        inputs: Items::from_vec(inputs),
        outputs: Items::new(alloc),
        warnings: Items::new(alloc),
        code,
    })
}

/// Events, and how they fit the inputs.
type FitRow = (&'static [Told], Result<(), Misfit>);

const FITTING: &[FitRow] = &[
    (&[], Ok(())),
    (&[Told::Deliver(0), Told::Deliver(999999999)], Ok(())),
    (
        &[
            Told::Input("Mouse.position", "(Int,Int)", "(1,2)"),
            Told::Deliver(7),
            Told::Input("p", "Maybe (List Int)", "Just [1]"),
            Told::Input("q", "{ x : Int, y : Bool }", "{ x = 1, y = True }"),
            Told::Input("Mouse.x", "Int", "-5"),
            Told::Input("Mouse.x", "Int", "5"),
        ],
        Ok(()),
    ),
    (
        &[Told::Input("Mouse.y", "Int", "5")],
        Err(Misfit::Missing { event: 1 }),
    ),
    (
        &[Told::Input("Mouse", "Int", "5")],
        Err(Misfit::Missing { event: 1 }),
    ),
    (
        &[Told::Input("Mouse.x", "Bool", "True")],
        Err(Misfit::Differs { event: 1 }),
    ),
    (
        &[Told::Input("Mouse.position", "(Int,Int,Int)", "(1,2,3)")],
        Err(Misfit::Differs { event: 1 }),
    ),
    (
        &[Told::Input("p", "Maybe (List Bool)", "Nothing")],
        Err(Misfit::Differs { event: 1 }),
    ),
    (
        &[Told::Input("q", "{ x : Int, z : Bool }", "{ x = 1, z = True }")],
        Err(Misfit::Differs { event: 1 }),
    ),
    (
        &[Told::Input("q", "{ x : Int }", "{ x = 1 }")],
        Err(Misfit::Differs { event: 1 }),
    ),
    (
        &[
            Told::Input("Mouse.x", "Int", "5"),
            Told::Deliver(0),
            Told::Input("p", "List Int", "[]"),
            Told::Input("Mouse.y", "Int", "5"),
        ],
        Err(Misfit::Differs { event: 3 }),
    ),
    (
        &[
            Told::Input("Mouse.x", "Int", "5"),
            Told::Input("Mouse.y", "Int", "5"),
            Told::Input("p", "List Int", "[]"),
        ],
        Err(Misfit::Missing { event: 2 }),
    ),
];

fn found_of(
    alloc: Global,
    program: &Program,
    row: &[Told],
) -> Result<Result<(), Misfit>, NoMemory> {
    let mut events = Vec::new(alloc);
    push_events(alloc, &mut events, row)?;
    Ok(fits(program, events.as_slice()))
}

/// The place of the first row that fits otherwise, and the number of the rows where none does.
fn first_wrong(alloc: Global, program: &Program, rows: &[FitRow]) -> Result<usize, NoMemory> {
    for (at, (row, wanted)) in rows.iter().enumerate() {
        if found_of(alloc, program, row)? != *wanted {
            return Ok(at);
        }
    }
    Ok(rows.len())
}

fn first_wrong_fit(alloc: Global) -> Result<usize, NoMemory> {
    let program = program(alloc, INPUTS)?;
    first_wrong(alloc, &program, FITTING)
}

#[test]
fn the_first_misfit_is_named(rt: HostRuntime) -> Result<(), NoMemory> {
    let wrong = first_wrong_fit(rt.alloc())?;
    assert_eq!(rt; wrong, FITTING.len());
    Ok(())
}

/// Types, literals of them, and the texts of the values that are placed.
const PLACED: &[(&str, &str, &str)] = &[
    ("()", "()", "()"),
    ("Int", "-5", "-5"),
    ("Bool", "True", "True"),
    ("Bool", "False", "False"),
    ("String", "\"a\\n\"", "\"a\\n\""),
    ("Maybe Int", "Nothing", "Nothing"),
    ("Maybe (Maybe Int)", "Just (Just 5)", "Just (Just 5)"),
    ("List Int", "[]", "[]"),
    ("List Int", "[1,2,3]", "[1,2,3]"),
    ("(Int,String,Bool)", "(1,\"b\",True)", "(1,\"b\",True)"),
    ("{}", "{}", "{}"),
    (
        "{ x : Int, y : List Bool }",
        "{ y = [False], x = 1 }",
        "{ x = 1, y = [False] }",
    ),
];

/// Places a value and writes what stands at the place.
fn put_placed(
    alloc: Global,
    arena: &mut Arena,
    value: &PortValue,
    out: &mut Vec<u8>,
) -> Result<bool, NoMemory> {
    let at = place(alloc, arena, value)?;
    to_text(alloc, arena, at, 99, out)
}

fn placed(
    alloc: Global,
    arena: &mut Arena,
    port: &str,
    literal: &str,
) -> Result<Vec<u8>, NoMemory> {
    let port = type_of(alloc, port)?;
    let value = value_of(alloc, &port, literal)?;
    let mut out = Vec::new(alloc);
    put_placed(alloc, arena, &value, &mut out)?;
    Ok(out)
}

/// The literal of the first row with another text. All are placed in one arena.
fn first_wrong_place(
    alloc: Global,
    arena: &mut Arena,
    rows: &[(&'static str, &'static str, &'static str)],
) -> Result<&'static str, NoMemory> {
    for (port, literal, wanted) in rows {
        let found = placed(alloc, arena, port, literal)?;
        if found.as_slice() != wanted.as_bytes() {
            return Ok(*literal);
        }
    }
    Ok("none is wrong")
}

#[test]
fn values_are_placed(rt: HostRuntime) -> Result<(), NoMemory> {
    let mut arena = Arena::new(rt.alloc())?;
    let wrong = first_wrong_place(rt.alloc(), &mut arena, PLACED)?;
    assert_eq!(rt; wrong, "none is wrong");
    Ok(())
}
