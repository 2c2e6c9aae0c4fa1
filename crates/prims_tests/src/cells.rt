ghost use Rattle.std.specs.Prelude.{◌≤◌, length, IfOk, IfSome};
ghost use Rattle.cell_rows.specs.Elements.{IsWhole};

use crate::same;
use elm_base::NoMemory;
use frame_text::{
    Cells, Direction, Position, Size, container, flow, grown, spacer, text_cells, text_size,
};
use std::alloc::Global;
use std::process::Abort;

/// A text laid out, where that is within the limit.
fn laid_out(alloc: Global, text: &[u8]) -> Result<Option<Cells>, NoMemory>
    ensures { IfOk result (λ cells. IfSome cells IsWhole) }
{
    let size = text_size(alloc, text)?;
    if size.width > 1000 || size.height > 1000 {
        return Ok(None);
    }
    let cells = text_cells(alloc, text)?;
    Ok(Some(cells))
}

/// Two items one after the other, where each is small.
fn flowed(
    alloc: Global,
    direction: Direction,
    first: Cells,
    second: Cells,
) -> Result<Option<Cells>, NoMemory>
    requires first { IsWhole first }
    requires second { IsWhole second }
    ensures { IfOk result (λ cells. IfSome cells IsWhole) }
{
    let widest = first.width.max(second.width);
    let highest = first.height.max(second.height);
    if widest > 500 || highest > 500 {
        return Ok(None);
    }
    let cells = flow(alloc, direction, &[first, second])?;
    Ok(Some(cells))
}

/// Two texts one after the other, where each is small.
fn flowed_texts(
    alloc: Global,
    direction: Direction,
    first: &[u8],
    second: &[u8],
) -> Result<Option<Cells>, NoMemory> {
    match (laid_out(alloc, first)?, laid_out(alloc, second)?) {
        (Some(first), Some(second)) => flowed(alloc, direction, first, second),
        _ => Ok(None),
    }
}

/// Whether the Element has these rows.
fn shows(cells: &Cells, wanted: &[&[u8]]) -> bool {
    let rows = cells.rows.as_slice();
    rows.len() == wanted.len()
        && rows
            .iter()
            .zip(wanted.iter())
            .all(|(row, wanted)| row.bytes() == *wanted)
}

/// There is an Element, of this size and with these rows.
fn check(rt: &impl Abort, cells: &Option<Cells>, width: u32, wanted: &[&[u8]], label: &str) {
    let found = match cells {
        Some(cells) => (cells.width, shows(cells, wanted)),
        None => (u32::MAX, false),
    };
    same(rt, found, (width, true), label);
}

fn check_text(
    rt: &impl Abort,
    alloc: Global,
    text: &[u8],
    width: u32,
    wanted: &[&[u8]],
) -> Result<(), NoMemory> {
    let cells = laid_out(alloc, text)?;
    check(rt, &cells, width, wanted, "text");
    Ok(())
}

#[test]
fn texts_are_rows(rt: HostRuntime) -> Result<(), NoMemory> {
    let alloc = rt.alloc();
    check_text(&rt, alloc, b"a\t\nbcd\n", 3, &[b"a? ", b"bcd", b"   "])?;
    check_text(&rt, alloc, b"", 0, &[b""])?;
    check_text(&rt, alloc, b"a\xc3", 0, &[b""])
}

#[test]
fn spacers_are_blank(rt: HostRuntime) -> Result<(), NoMemory> {
    let cells = Some(spacer(rt.alloc(), 2, 2)?);
    check(&rt, &cells, 2, &[b"  ", b"  "], "spacer");
    Ok(())
}

#[test]
fn flows_grow(rt: HostRuntime) {
    let none = Size {
        width: 0,
        height: 0,
    };
    let rows = [
        (Direction::Down, 3, 3),
        (Direction::Up, 3, 3),
        (Direction::Right, 5, 2),
        (Direction::Left, 5, 2),
    ];
    for (direction, width, height) in rows {
        let one = grown(direction, none, 2, 1);
        assert!(rt;
            one == Size {
                width: 2,
                height: 1
            }
        );
        let two = grown(direction, one, 3, 2);
        same(&rt, (two.width, two.height), (width, height), "grown");
    }
}

fn check_flow(
    rt: &impl Abort,
    alloc: Global,
    direction: Direction,
    width: u32,
    wanted: &[&[u8]],
) -> Result<(), NoMemory> {
    let cells = flowed_texts(alloc, direction, b"ab", b"c\nd")?;
    check(rt, &cells, width, wanted, "flow");
    Ok(())
}

#[test]
fn items_flow(rt: HostRuntime) -> Result<(), NoMemory> {
    let alloc = rt.alloc();
    check_flow(&rt, alloc, Direction::Down, 2, &[b"ab", b"c ", b"d "])?;
    check_flow(&rt, alloc, Direction::Up, 2, &[b"c ", b"d ", b"ab"])?;
    check_flow(&rt, alloc, Direction::Right, 3, &[b"abc", b"  d"])?;
    check_flow(&rt, alloc, Direction::Left, 3, &[b"cab", b"d  "])
}

fn check_container(
    rt: &impl Abort,
    alloc: Global,
    text: &[u8],
    position: Position,
    width: u32,
    wanted: &[&[u8]],
) -> Result<(), NoMemory>
    requires wide { width ≤ 1000 }
    requires high { length wanted.now ≤ 1000 }
{
    if let Some(inner) = laid_out(alloc, text)? {
        let cells = Some(container(alloc, width, wanted.len() as u32, position, &inner)?);
        check(rt, &cells, width, wanted, "container");
    }
    Ok(())
}

#[test]
fn containers_frame(rt: HostRuntime) -> Result<(), NoMemory> {
    let alloc = rt.alloc();
    let middle = Position::Middle;
    check_container(
        &rt,
        alloc,
        b"ab",
        middle,
        5,
        &[b"     ", b" ab  ", b"     "],
    )?;
    check_container(&rt, alloc, b"abcde", middle, 2, &[b"cd"])?;
    let last = Position::BottomRight;
    check_container(&rt, alloc, b"abcde", last, 3, &[b"   ", b"cde"])?;
    check_container(
        &rt,
        alloc,
        b"abcde",
        Position::TopLeft,
        3,
        &[b"abc", b"   "],
    )
}
