//! The patterns of the rows, by their places.
use elm_base::{Literal, Name, NoMemory, TermPattern};
use sqlite_items::{Boxed, Items};
use std::alloc::Global;

pub const ANYTHING: usize = 0;

pub const NAME: usize = 1;

pub const THREE: usize = 2;

pub const CHAR: usize = 3;

pub const TEXT: usize = 4;

pub const UNIT: usize = 5;

pub const NIL: usize = 6;

pub const CONS: usize = 7;

pub const ONE_ELEMENT: usize = 8;

pub const PAIR: usize = 9;

pub const JUST: usize = 10;

pub const TRUE: usize = 11;

pub const FIELDS: usize = 12;

pub const NAMED: usize = 13;

fn name(number: u32) -> TermPattern {
    TermPattern::Local { number }
}

fn boxed(alloc: Global, pattern: TermPattern) -> Result<Boxed<TermPattern>, NoMemory> {
    Ok(Boxed::new(alloc, pattern)?)
}

/// Patterns that are names with these numbers.
fn names(alloc: Global, numbers: &[u32]) -> Result<Items<TermPattern>, NoMemory> {
    let mut parts = Items::new(alloc);
    for number in numbers {
        parts.push(name(*number))?;
    }
    Ok(parts)
}

/// `head :: tail`.
fn push_cons(
    out: &mut Items<TermPattern>,
    head: Boxed<TermPattern>,
    tail: Boxed<TermPattern>,
) -> Result<(), NoMemory> {
    Ok(out.push(TermPattern::Cons { head, tail })?)
}

/// A constructor with names for its arguments.
fn push_made(
    alloc: Global,
    out: &mut Items<TermPattern>,
    constructor: &[u8],
    numbers: &[u32],
) -> Result<(), NoMemory> {
    let constructor = Name::of(alloc, constructor)?;
    let parts = names(alloc, numbers)?;
    Ok(out.push(TermPattern::Made { constructor, parts })?)
}

fn push_literals(alloc: Global, out: &mut Items<TermPattern>) -> Result<(), NoMemory> {
    let text = Name::of(alloc, b"ab")?;
    let literals = [
        Literal::Int(3),
        Literal::Char('a'),
        Literal::Text(text),
        Literal::Unit,
    ];
    for value in literals {
        out.push(TermPattern::Literal { value })?;
    }
    Ok(())
}

fn push_lists(alloc: Global, out: &mut Items<TermPattern>) -> Result<(), NoMemory> {
    out.push(TermPattern::Nil)?;
    push_cons(out, boxed(alloc, name(1))?, boxed(alloc, name(2))?)?;
    push_cons(out, boxed(alloc, name(1))?, boxed(alloc, TermPattern::Nil)?)
}

/// A record pattern with these labels, numbered from 1.
fn push_fields(
    alloc: Global,
    out: &mut Items<TermPattern>,
    labels: &[&str],
) -> Result<(), NoMemory> {
    let mut numbered = Items::new(alloc);
    let mut number = 0u32;
    for label in labels {
        number = number.saturating_add(1);
        let label = Name::of(alloc, label.as_bytes())?;
        numbered.push((label, number))?;
    }
    Ok(out.push(TermPattern::Fields { labels: numbered })?)
}

/// `Just a as b`.
fn push_named(alloc: Global, out: &mut Items<TermPattern>) -> Result<(), NoMemory> {
    let constructor = Name::of(alloc, b"Just")?;
    let parts = names(alloc, &[1])?;
    let inner = boxed(alloc, TermPattern::Made { constructor, parts })?;
    Ok(out.push(TermPattern::Named { inner, number: 2 })?)
}

fn push_parts(alloc: Global, out: &mut Items<TermPattern>) -> Result<(), NoMemory> {
    let parts = names(alloc, &[1, 2])?;
    out.push(TermPattern::Tuple { parts })?;
    push_made(alloc, out, b"Just", &[1])?;
    push_made(alloc, out, b"True", &[])?;
    push_fields(alloc, out, &["x", "y"])?;
    push_named(alloc, out)
}

/// All of them, in the order of their places.
pub fn push_all(alloc: Global, out: &mut Items<TermPattern>) -> Result<(), NoMemory> {
    out.push(TermPattern::Anything)?;
    out.push(name(1))?;
    push_literals(alloc, out)?;
    push_lists(alloc, out)?;
    push_parts(alloc, out)
}
