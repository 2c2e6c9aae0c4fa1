//! Values that the rows name by their places.
ghost use Rattle.std.specs.Prelude.{IsTrue};
ghost use Rattle.value_arena.specs.Soundness.{RefsBelow};

use elm_base::{Name, NoMemory, Notes, Ref, native};
use sqlite_items::Items;
use std::alloc::Global;
use value_arena::{Arena, Callee, Node};
use value_natives::native as call;

const NUMBERS: [i64; 14] = [
    0,
    1,
    2,
    3,
    -1,
    4,
    -7,
    i64::MAX,
    i64::MIN,
    65,
    1001,
    55296,
    600,
    5,
];

const CHARS: [char; 2] = ['a', '\u{e4}'];

const TEXTS: [&str; 7] = [
    "",
    "ab",
    "c\nde",
    "\u{e4}",
    "-12",
    "x",
    "9223372036854775808",
];

const NAMES: [&str; 7] = [
    "up",
    "down",
    "left",
    "right",
    "topLeft",
    "middle",
    "bottomRight",
];

/// The head and the tail of each list, by their places.
const LISTS: [(Ref, Ref); 7] = [
    (2, 31),
    (1, 34),
    (3, 31),
    (1, 36),
    (15, 31),
    (14, 38),
    (1, 0),
];

/// What `text` and `spacer` are called with, by their places.
const ELEMENTS: [(u32, &[Ref]); 3] = [
    (native::TEXT, &[17]),
    (native::TEXT, &[18]),
    (native::SPACER, &[12, 1]),
];

/// Lists of Elements.
const LISTS_OF_ELEMENTS: [(Ref, Ref); 4] = [(42, 31), (41, 44), (43, 31), (43, 46)];

/// Puts the values into an empty arena.
pub fn fill(alloc: Global, arena: &mut Arena) -> Result<(), NoMemory> {
    push_numbers(alloc, arena)?;
    push_texts(alloc, arena)?;
    push_names(alloc, arena)?;
    push_lists(alloc, arena, &LISTS)?;
    push_elements(alloc, arena)?;
    push_lists(alloc, arena, &LISTS_OF_ELEMENTS)
}

fn push_numbers(alloc: Global, arena: &mut Arena) -> Result<(), NoMemory> {
    for number in NUMBERS {
        arena.push(alloc, Node::Int(number))?;
    }
    for code in CHARS {
        arena.push(alloc, Node::Char(code))?;
    }
    Ok(())
}

fn push_texts(alloc: Global, arena: &mut Arena) -> Result<(), NoMemory> {
    for text in TEXTS {
        arena.push(alloc, Node::Text(Name::of(alloc, text.as_bytes())?))?;
    }
    arena.push(alloc, Node::Text(Name::of(alloc, &[b'x'; 1001])?))?;
    Ok(())
}

fn push_names(alloc: Global, arena: &mut Arena) -> Result<(), NoMemory> {
    for name in NAMES {
        let constructor = Name::of(alloc, name.as_bytes())?;
        let arguments = Items::new(alloc);
        arena.push(
            alloc,
            Node::Made {
                constructor,
                arguments,
            },
        )?;
    }
    arena.push(alloc, Node::Nil)?;
    let callee = Callee::Native {
        number: native::NEGATE,
    };
    let arguments = Items::new(alloc);
    arena.push(alloc, Node::Partial { callee, arguments })?;
    arena.push(alloc, Node::Unit)?;
    Ok(())
}

fn push_lists(alloc: Global, arena: &mut Arena, lists: &[(Ref, Ref)]) -> Result<(), NoMemory> {
    for (head, tail) in lists {
        let below = arena.mark().below;
        if *head < below && *tail < below {
            arena.push(
                alloc,
                Node::Cons {
                    head: *head,
                    tail: *tail,
                },
            )?;
        }
    }
    Ok(())
}

fn push_elements(alloc: Global, arena: &mut Arena) -> Result<(), NoMemory> {
    for (number, arguments) in ELEMENTS {
        if stands(arena.mark().below, arguments) {
            let mut notes = Notes {
                list: Items::new(alloc),
            };
            call(alloc, arena, number, arguments, u32::MAX, &mut notes)?;
        }
    }
    Ok(())
}

/// Whether all places are below.
pub fn stands(below: Ref, refs: &[Ref]) -> bool
    ensures { IsTrue result → RefsBelow below refs.now }
{
    for at in refs {
        if *at >= below {
            return false;
        }
    }
    true
}
