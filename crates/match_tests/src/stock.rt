//! The values of the rows, by their places.
ghost use Rattle.std.specs.Prelude.{◌<◌, ◌≤◌, length, ◌↔◌, IsTrue};

use elm_base::{Name, NoMemory, Ref};
use sqlite_items::Items;
use std::alloc::Global;
use value_arena::{Arena, Node};

pub const THREE: Ref = 0;

pub const FOUR: Ref = 1;

pub const CHAR: Ref = 2;

pub const TEXT: Ref = 3;

pub const UNIT: Ref = 4;

pub const NIL: Ref = 5;
/// `[3]`
pub const ONE: Ref = 6;
/// `[4, 3]`
pub const TWO: Ref = 7;
/// `(3, 4)`
pub const PAIR: Ref = 8;
/// `(3, 4, 3)`
pub const TRIPLE: Ref = 9;
/// `Just 4`
pub const JUST: Ref = 10;
/// `Nothing`
pub const NOTHING: Ref = 11;
/// `True`
pub const TRUE: Ref = 12;
/// `{ x = 4, x = 3, y = 3 }`, of which the first field is the newest.
pub const RECORD: Ref = 13;
/// `{ x = 3 }`
pub const NARROW: Ref = 14;

/// Whether a place stands in the arena.
pub fn stands(arena: &Arena, at: Ref) -> bool
    ensures { IsTrue result ↔ (at < length arena.now) }
{
    at < arena.mark().below
}

/// Adds a node whose parts stand at these places, if they do.
fn push_tuple(alloc: Global, arena: &mut Arena, parts: &[Ref; 2]) -> Result<(), NoMemory> {
    if stands(arena, parts[0]) && stands(arena, parts[1]) {
        let parts = Items::from_slice(alloc, parts)?;
        arena.push(alloc, Node::Tuple { parts })?;
    }
    Ok(())
}

fn push_triple(alloc: Global, arena: &mut Arena, parts: &[Ref; 3]) -> Result<(), NoMemory> {
    if stands(arena, parts[0]) && stands(arena, parts[1]) && stands(arena, parts[2]) {
        let parts = Items::from_slice(alloc, parts)?;
        arena.push(alloc, Node::Tuple { parts })?;
    }
    Ok(())
}

fn push_cons(alloc: Global, arena: &mut Arena, head: Ref, tail: Ref) -> Result<(), NoMemory> {
    if stands(arena, head) && stands(arena, tail) {
        arena.push(alloc, Node::Cons { head, tail })?;
    }
    Ok(())
}

/// A constructor without arguments.
fn push_name(alloc: Global, arena: &mut Arena, name: &[u8]) -> Result<(), NoMemory> {
    let constructor = Name::of(alloc, name)?;
    let arguments = Items::new(alloc);
    arena.push(
        alloc,
        Node::Made {
            constructor,
            arguments,
        },
    )?;
    Ok(())
}

fn push_just(alloc: Global, arena: &mut Arena, at: Ref) -> Result<(), NoMemory> {
    if stands(arena, at) {
        let constructor = Name::of(alloc, b"Just")?;
        let arguments = Items::from_slice(alloc, &[at])?;
        arena.push(
            alloc,
            Node::Made {
                constructor,
                arguments,
            },
        )?;
    }
    Ok(())
}

/// `{ x = 4, x = 3, y = 3 }`
fn push_record(alloc: Global, arena: &mut Arena) -> Result<(), NoMemory> {
    if stands(arena, FOUR) {
        let newest = (Name::of(alloc, b"x")?, FOUR);
        let hidden = (Name::of(alloc, b"x")?, THREE);
        let other = (Name::of(alloc, b"y")?, THREE);
        let fields = Items::from_vec(vec![in alloc; newest, hidden, other]?);
        arena.push(alloc, Node::Fields { fields })?;
    }
    Ok(())
}

/// `{ x = 3 }`
fn push_narrow(alloc: Global, arena: &mut Arena) -> Result<(), NoMemory> {
    if stands(arena, THREE) {
        let field = (Name::of(alloc, b"x")?, THREE);
        let fields = Items::from_vec(vec![in alloc; field]?);
        arena.push(alloc, Node::Fields { fields })?;
    }
    Ok(())
}

fn push_text(alloc: Global, arena: &mut Arena) -> Result<(), NoMemory> {
    let text = Name::of(alloc, b"ab")?;
    arena.push(alloc, Node::Text(text))?;
    Ok(())
}

/// Puts the values into an empty arena.
pub fn fill(alloc: Global, arena: &mut Arena) -> Result<(), NoMemory> {
    arena.push(alloc, Node::Int(3))?;
    arena.push(alloc, Node::Int(4))?;
    arena.push(alloc, Node::Char('a'))?;
    push_text(alloc, arena)?;
    arena.push(alloc, Node::Unit)?;
    arena.push(alloc, Node::Nil)?;
    push_cons(alloc, arena, THREE, NIL)?;
    push_cons(alloc, arena, FOUR, ONE)?;
    push_tuple(alloc, arena, &[THREE, FOUR])?;
    push_triple(alloc, arena, &[THREE, FOUR, THREE])?;
    push_just(alloc, arena, FOUR)?;
    push_name(alloc, arena, b"Nothing")?;
    push_name(alloc, arena, b"True")?;
    push_record(alloc, arena)?;
    push_narrow(alloc, arena)
}
