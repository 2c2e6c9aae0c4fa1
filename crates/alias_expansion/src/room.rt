//! A bound on what aliases may be written out to.
ghost use Rattle.std.specs.Prelude.{◌≡◌, ◌+◌, OnOk};

use elm_base::{NoMemory, Spot, TypeTree};

/// As many parts of types as aliases may add in all.
const LARGEST: usize = 524_288;

/// So deep may nest what an alias adds.
const DEEPEST: usize = 1000;

/// How many parts of types aliases may still add. An alias that doubles itself again and again has no end of them; it is want of
/// memory where there is no more room.
#[derive(Drop)]
pub struct Room {
    left: usize,
}

impl Room {
    pub fn new() -> Room {
        Room { left: LARGEST }
    }

    /// Takes the room of one part.
    pub fn take(&mut self) -> Result<(), NoMemory>
        ensures { OnOk result (self.new.left + 1 ≡ self.old.left) }
    {
        if self.left == 0 {
            return Err(NoMemory);
        }
        self.left -= 1;
        Ok(())
    }
}

/// Takes the room of a type that is at most so deep.
#[cycle(rooms)]
fn take_within(tree: &TypeTree, depth: usize, room: &mut Room) -> Result<(), NoMemory> {
    if depth == 0 {
        return Err(NoMemory);
    }
    room.take()?;
    match tree {
        TypeTree::Named { arguments, .. } => take_each(arguments.as_slice(), depth - 1, room),
        TypeTree::Arrow { from, to, .. } => {
            take_within(from.get(), depth - 1, room)?;
            take_within(to.get(), depth - 1, room)
        }
        TypeTree::Tuple { parts, .. } => take_each(parts.as_slice(), depth - 1, room),
        TypeTree::Brackets { inner, .. } => take_within(inner.get(), depth - 1, room),
        TypeTree::Fields { fields, .. } => take_fields(fields.as_slice(), depth - 1, room),
        TypeTree::Variable { .. } | TypeTree::Unit { .. } => Ok(()),
    }
}

#[cycle(rooms)]
fn take_each(trees: &[TypeTree], depth: usize, room: &mut Room) -> Result<(), NoMemory> {
    for tree in trees {
        take_within(tree, depth, room)?;
    }
    Ok(())
}

#[cycle(rooms)]
fn take_fields(fields: &[(Spot, TypeTree)], depth: usize, room: &mut Room) -> Result<(), NoMemory> {
    for (_, tree) in fields {
        take_within(tree, depth, room)?;
    }
    Ok(())
}

/// Takes the room of a whole type. It is want of memory, too, where the type is too deep for those that go through it.
pub fn take_all(tree: &TypeTree, room: &mut Room) -> Result<(), NoMemory> {
    take_within(tree, DEEPEST, room)
}
