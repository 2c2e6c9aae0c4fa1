//! Frames, types and refusals as texts.
use crate::same;
use elm_base::{CommandRefusal, FaultKind, Name, NoMemory, PortType, ProjectFault};
use frame_text::{Parts, write_fault, write_frame, write_refusal, write_shelf_failure, write_type};
use sqlite_items::{Boxed, Items};
use std::alloc::Global;
use std::process::Abort;

fn name(alloc: Global, text: &str) -> Result<Name, NoMemory> {
    Name::of(alloc, text.as_bytes())
}

fn push_name(alloc: Global, text: &str, names: &mut Items<Name>) -> Result<(), NoMemory> {
    names.push(name(alloc, text)?)?;
    Ok(())
}

fn push_pair(
    alloc: Global,
    first: &str,
    second: &str,
    pairs: &mut Items<(Name, Name)>,
) -> Result<(), NoMemory> {
    let first = name(alloc, first)?;
    let second = name(alloc, second)?;
    pairs.push((first, second))?;
    Ok(())
}

fn empty_parts(alloc: Global) -> Parts {
    Parts {
        cursor: 2,
        events: 1_000_000,
        rows: Items::new(alloc),
        outs: Items::new(alloc),
        pending: Items::new(alloc),
        watches: Items::new(alloc),
        logs: Items::new(alloc),
        stop: None,
    }
}

// Something of each kind.
fn fill(alloc: Global, parts: &mut Parts) -> Result<(), NoMemory> {
    push_name(alloc, " a  ", &mut parts.rows)?;
    push_name(alloc, "  ", &mut parts.rows)?;
    parts.pending.push((0, 1))?;
    parts.pending.push((12, 4_294_967_295))?;
    push_pair(alloc, "doubled", "8", &mut parts.outs)?;
    push_pair(alloc, "a\"b\\c\nd\te\rf'", "2", &mut parts.watches)?;
    push_pair(alloc, "", "\"x\"", &mut parts.logs)?;
    parts.stop = Some(name(alloc, "2 node 10 DivideByZero")?);
    Ok(())
}

fn write_full(alloc: Global, out: &mut Vec<u8>) -> Result<(), NoMemory> {
    let mut parts = empty_parts(alloc);
    fill(alloc, &mut parts)?;
    write_frame(alloc, &parts, out)
}

const FULL: &str = "at 2 of 1000000\n|  a\n|\nout doubled 8\npending 0 1\npending 12 4294967295\n\
    watch \"a\\\"b\\\\c\\nd\\te\\rf'\" 2\nlog \"\" \"x\"\nstopped 2 node 10 DivideByZero\n.\n";

#[test]
fn a_frame_has_its_lines_in_order(rt: HostRuntime) -> Result<(), NoMemory> {
    let mut out = b"before ".to_vec(rt.alloc())?;
    write_full(rt.alloc(), &mut out)?;
    let behind = out.as_slice().strip_prefix(b"before ");
    same(&rt, behind, Some(FULL.as_bytes()), "a frame");
    Ok(())
}

fn boxed<T: Drop>(alloc: Global, inner: Result<T, NoMemory>) -> Result<Boxed<T>, NoMemory> {
    Ok(Boxed::new(alloc, inner?)?)
}

fn push_part<T: Drop>(parts: &mut Items<T>, part: Result<T, NoMemory>) -> Result<(), NoMemory> {
    parts.push(part?)?;
    Ok(())
}

fn push_field<T: Drop>(
    alloc: Global,
    label: &str,
    value: T,
    fields: &mut Items<(Name, T)>,
) -> Result<(), NoMemory> {
    let label = name(alloc, label)?;
    fields.push((label, value))?;
    Ok(())
}

// A type, unless there is no memory.
type Made = Result<PortType, NoMemory>;

fn listed(alloc: Global, inner: Made) -> Made {
    Ok(PortType::List(boxed(alloc, inner)?))
}

fn perhaps(alloc: Global, inner: Made) -> Made {
    Ok(PortType::Maybe(boxed(alloc, inner)?))
}

fn both<T: Drop>(
    alloc: Global,
    first: Result<T, NoMemory>,
    second: Result<T, NoMemory>,
) -> Result<Items<T>, NoMemory> {
    let mut parts = Items::new(alloc);
    push_part(&mut parts, first)?;
    push_part(&mut parts, second)?;
    Ok(parts)
}

fn tuple(alloc: Global, first: PortType, second: Made) -> Made {
    Ok(PortType::Tuple(both(alloc, Ok(first), second)?))
}

// Fields that are all of type Int.
fn record(alloc: Global, labels: &[&str]) -> Made {
    let mut fields = Items::new(alloc);
    for label in labels {
        push_field(alloc, label, PortType::Int, &mut fields)?;
    }
    Ok(PortType::Fields(fields))
}

fn text_of<T: Written + Drop>(
    alloc: Global,
    value: Result<T, NoMemory>,
) -> Result<Vec<u8>, NoMemory> {
    let value = value?;
    let mut out = Vec::new(alloc);
    value.write(alloc, &mut out)?;
    Ok(out)
}

/// What has a text of its own.
trait Written {
    fn write(&self, alloc: Global, out: &mut Vec<u8>) -> Result<(), NoMemory>;
}

impl Written for PortType {
    fn write(&self, alloc: Global, out: &mut Vec<u8>) -> Result<(), NoMemory> {
        write_type(alloc, self, out)
    }
}

fn check(rt: &impl Abort, alloc: Global, port: Made, wanted: &str) -> Result<(), NoMemory> {
    let out = text_of(alloc, port)?;
    same(rt, out.as_slice(), wanted.as_bytes(), wanted);
    Ok(())
}

#[test]
fn types_are_written_as_in_programs(rt: HostRuntime) -> Result<(), NoMemory> {
    use PortType::{Bool, Int, Text, Unit};
    let alloc = rt.alloc();
    check(&rt, alloc, Ok(Unit), "()")?;
    check(&rt, alloc, Ok(Bool), "Bool")?;
    check(&rt, alloc, Ok(Text), "String")?;
    check(&rt, alloc, perhaps(alloc, Ok(Int)), "Maybe Int")?;
    check(
        &rt,
        alloc,
        tuple(alloc, Int, listed(alloc, Ok(Text))),
        "(Int,List String)",
    )?;
    check(&rt, alloc, record(alloc, &[]), "{}")?;
    check(&rt, alloc, record(alloc, &["x"]), "{ x : Int }")
}

#[test]
fn types_in_types_stand_in_brackets(rt: HostRuntime) -> Result<(), NoMemory> {
    use PortType::{Bool, Int, Unit};
    let alloc = rt.alloc();
    let list = listed(alloc, Ok(Int));
    check(&rt, alloc, perhaps(alloc, list), "Maybe (List Int)")?;
    let option = perhaps(alloc, Ok(Unit));
    check(&rt, alloc, listed(alloc, option), "List (Maybe ())")?;
    let pair = tuple(alloc, Int, Ok(Bool));
    check(&rt, alloc, listed(alloc, pair), "List (Int,Bool)")?;
    let fields = record(alloc, &["x", "y"]);
    check(
        &rt,
        alloc,
        perhaps(alloc, fields),
        "Maybe { x : Int, y : Int }",
    )
}

fn write_bad_value(alloc: Global, out: &mut Vec<u8>) -> Result<(), NoMemory> {
    let name = name(alloc, "Mouse.position")?;
    let port = tuple(alloc, PortType::Int, Ok(PortType::Int))?;
    write_refusal(alloc, &CommandRefusal::BadValue { name, port }, out)
}

fn write_ill_typed(alloc: Global, out: &mut Vec<u8>) -> Result<(), NoMemory> {
    let module = name(alloc, "Main")?;
    let nothing = name(alloc, "")?;
    let fault = ProjectFault {
        module,
        line: 3,
        kind: FaultKind::IllTyped,
        name: nothing,
    };
    write_fault(alloc, &fault, out)
}

fn write_failed_file(alloc: Global, out: &mut Vec<u8>) -> Result<(), NoMemory> {
    let file = name(alloc, "a/Main.elm")?;
    write_shelf_failure(alloc, &file, out)
}

#[test]
fn refusals_and_faults(rt: HostRuntime) -> Result<(), NoMemory> {
    let mut out = Vec::new(rt.alloc());
    write_bad_value(rt.alloc(), &mut out)?;
    write_ill_typed(rt.alloc(), &mut out)?;
    write_failed_file(rt.alloc(), &mut out)?;
    same(&rt, out.as_slice(), REFUSALS.as_bytes(), "refusals");
    Ok(())
}

const REFUSALS: &str = "refused BadValue Mouse.position (Int,Int)\n\
    refused ProjectRefused Main 3 IllTyped -\nrefused Shelf a/Main.elm\n";
