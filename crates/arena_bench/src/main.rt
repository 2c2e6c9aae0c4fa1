//! Reads two numbers from standard input, compares two lists of as many elements as the first, then pushes
//! as many nodes as the second and cuts them off again. `bench/bench.py arena` times it.
#![tactic(auto)]

ghost use Rattle.std.specs.Prelude.{◌<◌, ◌≤◌, length, IfOk};

use anyhow::{Context, Result};
use elm_base::{NoMemory, Ref};
use std::alloc::Global;
use std::io::Read;
use value_arena::{Arena, Node};

/// A list of as many numbers.
fn list(arena: &mut Arena, alloc: Global, elements: u32) -> Result<Ref, NoMemory>
    ensures place { IfOk result (λ at. at < length arena.new) }
    ensures grows { length arena.old ≤ length arena.new }
{
    let mut tail = arena.push(alloc, Node::Nil)?;
    for number in 0..elements {
        let head = arena.push(alloc, Node::Int(i64::from(number)))?;
        tail = arena.push(alloc, Node::Cons { head, tail })?;
    }
    Ok(tail)
}

/// Pushes as many numbers.
fn fill(arena: &mut Arena, alloc: Global, nodes: u32) -> Result<(), NoMemory>
    ensures { length arena.old ≤ length arena.new }
{
    for number in 0..nodes {
        arena.push(alloc, Node::Int(i64::from(number)))?;
    }
    Ok(())
}

fn number(word: Option<&str>) -> Result<u32> {
    word.context("two numbers are wanted")?
        .parse::<u32>()
        .context("a number is wanted")
}

fn main(rt: HostRuntime) -> Result<()> {
    let mut text = String::new(rt.alloc());
    rt.reader().read_to_string(&mut text)?;
    let mut words = text.as_str().split_whitespace();
    let elements = number(words.next())?;
    let nodes = number(words.next())?;

    let mut arena = Arena::new(rt.alloc())?;
    let first = list(&mut arena, rt.alloc(), elements)?;
    let second = list(&mut arena, rt.alloc(), elements)?;
    let found = arena.equal(rt.alloc(), first, second, u32::MAX)?;
    let (outcome, work) = (found.outcome, found.work);
    println!(rt; "{outcome:?} after {work} pairs")?;

    let mark = arena.mark();
    fill(&mut arena, rt.alloc(), nodes)?;
    let full = arena.mark().below;
    arena.cut(mark);
    let left = arena.mark().below;
    println!(rt; "{full} nodes, cut to {left}")?;
    Ok(())
}
