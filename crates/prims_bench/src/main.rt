//! Reads two numbers from standard input, makes a list of as many numbers as the first, and writes how many bytes its
//! text has; then joins two texts of as many bytes as the second, and writes what that cost. `bench/bench.py prims` times
//! it.
#![tactic(auto)]

ghost use Rattle.std.specs.Prelude.{◌<◌, ◌≤◌, length, IfOk};

use anyhow::{Context, Result};
use elm_base::native::JOIN;
use elm_base::{Name, NoMemory, Notes, Ref};
use sqlite_items::Items;
use std::alloc::Global;
use std::io::Read;
use value_arena::{Arena, Node};
use value_natives::native;
use value_text::to_text;

/// A list of as many numbers.
fn list(arena: &mut Arena, alloc: Global, elements: u32) -> Result<Ref, NoMemory>
    ensures place { IfOk result (λ at. at < length arena.new) }
    ensures grows { length arena.old ≤ length arena.new }
{
    let mut tail = arena.push(alloc, Node::Nil)?;
    for number in 0..elements {
        let head = arena.push(alloc, Node::Int(i64::from(number)))?;
        tail = arena.push(alloc, Node::Cons { head, tail })?;
    }
    Ok(tail)
}

/// A text of as many bytes.
fn text(arena: &mut Arena, alloc: Global, bytes: u32) -> Result<Ref, NoMemory>
    ensures place { IfOk result (λ at. at < length arena.new) }
    ensures grows { length arena.old ≤ length arena.new }
{
    let mut out = Vec::new(alloc);
    for at in 0..bytes {
        out.push(b'x')?;
    }
    arena.push(alloc, Node::Text(Name::from_vec(out)))
}

/// What the joining of two texts of as many bytes costs.
fn joined(alloc: Global, bytes: u32) -> Result<u32, NoMemory> {
    let mut arena = Arena::new(alloc)?;
    let first = text(&mut arena, alloc, bytes)?;
    let second = text(&mut arena, alloc, bytes)?;
    let mut notes = Notes {
        list: Items::new(alloc),
    };
    let done = native(
        alloc,
        &mut arena,
        JOIN,
        &[first, second],
        u32::MAX,
        &mut notes,
    )?;
    Ok(u32::MAX - done.left)
}

fn number(word: Option<&str>) -> Result<u32> {
    word.context("two numbers are wanted")?
        .parse::<u32>()
        .context("a number is wanted")
}

fn main(rt: HostRuntime) -> Result<()> {
    let mut input = String::new(rt.alloc());
    rt.reader().read_to_string(&mut input)?;
    let mut words = input.as_str().split_whitespace();
    let elements = number(words.next())?;
    let bytes = number(words.next())?;

    let mut arena = Arena::new(rt.alloc())?;
    let numbers = list(&mut arena, rt.alloc(), elements)?;
    let mut out = Vec::new(rt.alloc());
    let whole = to_text(rt.alloc(), &arena, numbers, u32::MAX, &mut out)?;
    let size = out.len();
    println!(rt; "{size} bytes, {whole}")?;

    let units = joined(rt.alloc(), bytes)?;
    println!(rt; "joined for {units} units")?;
    Ok(())
}
