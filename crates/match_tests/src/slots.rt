//! Names as slots: the last of a number counts, captured values come back under their names, and each kind of value gets
//! its node.
ghost use Rattle.std.specs.Prelude.{◌≡◌, []};

use crate::same;
use elm_base::{NoMemory, Ref};
use std::alloc::Global;
use std::process::Abort;
use std::test::Fail;
use value_arena::{Arena, Node};
use value_slots::{
    Operand, Slot, captured, find, named_truth, placed, push_captured, truth_name, truth_of,
};

const SLOTS: [Slot; 4] = [
    Slot {
        number: 1,
        value: Operand::Int(7),
    },
    Slot {
        number: 2,
        value: Operand::Truth(true),
    },
    Slot {
        number: 1,
        value: Operand::Int(8),
    },
    Slot {
        number: 3,
        value: Operand::Native(0),
    },
];

fn find_names(rt: &impl Abort) {
    same(rt, find(&SLOTS, 1), Some(Operand::Int(8)), "the later slot");
    same(
        rt,
        find(&SLOTS, 2),
        Some(Operand::Truth(true)),
        "the only slot",
    );
    same(rt, find(&SLOTS, 4), None, "no slot");
    same(rt, find(&[], 1), None, "no slots");
}

fn capture_names(rt: &impl Abort, alloc: Global, arena: &mut Arena) -> Result<(), NoMemory>
    requires { arena.old ≡ [] }
{
    let refs = captured(alloc, arena, &SLOTS, &[2, 1])?;
    let mut slots = Vec::new(alloc);
    push_captured(&mut slots, &[2, 1], refs.as_slice())?;
    let two = find(slots.as_slice(), 2);
    let one = find(slots.as_slice(), 1);
    same(rt, two, Some(Operand::Node(0)), "the first name");
    same(rt, one, Some(Operand::Node(1)), "the second name");
    Ok(())
}

/// The number at a place, where one stands there.
fn number_at(arena: &Arena, at: Ref) -> Option<i64> {
    if at >= arena.mark().below {
        return None;
    }
    match arena.node(at) {
        Node::Int(number) => Some(*number),
        _ => None,
    }
}

fn truths(rt: &impl Abort, alloc: Global, arena: &mut Arena) -> Result<(), NoMemory> {
    let at = placed(alloc, arena, Operand::Truth(false))?;
    same(
        rt,
        truth_of(arena, Operand::Node(at)),
        Some(false),
        "a node",
    );
    same(
        rt,
        truth_of(arena, Operand::Truth(true)),
        Some(true),
        "no node",
    );
    same(rt, truth_of(arena, Operand::Int(1)), None, "a number");
    same(rt, named_truth(truth_name(true)), Some(true), "a name");
    same(rt, named_truth(b"Just"), None, "another name");
    let at = placed(alloc, arena, Operand::Int(9))?;
    same(rt, number_at(arena, at), Some(9), "a number's node");
    let again = placed(alloc, arena, Operand::Node(at))?;
    same(rt, again, at, "a node's place");
    Ok(())
}

#[test]
fn names_are_slots(rt: HostRuntime) -> Result<(), Fail> {
    find_names(&rt);
    let mut arena = Arena::new(rt.alloc())?;
    capture_names(&rt, rt.alloc(), &mut arena)?;
    truths(&rt, rt.alloc(), &mut arena)?;
    Ok(())
}
