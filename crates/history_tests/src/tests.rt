ghost use Rattle.std.specs.Prelude.{◌≡◌, ◌<◌};

use crate::{Counter, record};
use elm_base::{NoMemory, Steps};
use snapshots::History;
use std::alloc::Global;
use std::marker::Brand;
use std::sync::ledger::{Blank, Ledger};
use std::test::Fail;

// A history's cursor, the count of its replay, and the steps that the last command took.
#[derive(Clone, Copy, Debug, PartialEq, Eq)]
struct Shown {
    cursor: usize,
    count: u64,
    steps: u64,
}

fn state_of(history: &History<Counter>, before: u64) -> Shown {
    let replay = history.replay();
    Shown {
        cursor: history.cursor(),
        count: replay.count,
        steps: replay.asked.wrapping_sub(before),
    }
}

// What is shown after a rewind to each of these cursors, and then to the end.
fn rewinds<L: Ledger>(
    alloc: Global,
    events: u32,
    every: u32,
    cursors: &[usize],
    blank: Blank,
) -> Result<Vec<Shown>, NoMemory>
    requires name { blank.name ≡ L.name }
    requires parts { blank.parts ≡ L.parts }
    requires some_parts { 0 < blank.parts }
    requires spaced { 0 < every }
{
    let mut steps = Steps::<L>::from_blank(blank);
    let mut history = History::new(alloc, Counter::new(0), every)?;
    for event in 0..events {
        record(&mut history, event, &mut steps)?;
    }
    let mut found = Vec::new(alloc);
    for cursor in cursors.iter() {
        let before = history.replay().asked;
        if *cursor <= history.events().len() {
            history.goto(*cursor, &mut steps)?;
        }
        found.push(state_of(&history, before))?;
    }
    let before = history.replay().asked;
    history.latest();
    found.push(state_of(&history, before))?;
    Ok(found)
}

// Numbers that look drawn.
#[derive(Drop)]
struct Draws {
    seed: u32,
}

impl Draws {
    fn below(&mut self, limit: usize) -> usize
        requires { 0 < limit }
        ensures { result < limit }
    {
        self.seed = self.seed.wrapping_mul(1664525).wrapping_add(1013904223);
        (self.seed >> 8) as usize % limit
    }
}

// The events and the cursor, kept by hand.
#[derive(Drop)]
struct Kept {
    events: Vec<u32>,
    cursor: usize,
}

// One command, drawn, of the history and of what is kept by hand. After want of memory the second stays as it is.
fn act<L: Ledger>(
    history: &mut History<Counter>,
    kept: &mut Kept,
    draws: &mut Draws,
    steps: &mut Steps<L>,
) -> Result<(), NoMemory> {
    let end = history.events().len();
    match draws.below(64) {
        0..8 => {
            let cursor = draws.below(end + 1);
            if history.goto(cursor, steps).is_ok() {
                kept.cursor = cursor;
            }
        }
        8..11 => {
            if history.resume(steps).is_ok() {
                kept.events.truncate(kept.cursor);
            }
        }
        _ => {
            if history.cursor() < end {
                history.latest();
            } else {
                let event = draws.seed;
                if history.push(event, steps).is_ok() {
                    kept.events.push(event)?;
                }
            }
            kept.cursor = kept.events.len();
        }
    }
    Ok(())
}

fn agrees(history: &History<Counter>, kept: &Kept) -> bool {
    history.cursor() == kept.cursor
        && history.replay().count == kept.cursor as u64
        && history.events() == kept.events.as_slice()
}

// After how many of a thousand commands both agreed, and the most events that there were.
fn drive<L: Ledger>(
    alloc: Global,
    every: u32,
    failing: u64,
    blank: Blank,
) -> Result<(u32, usize), NoMemory>
    requires name { blank.name ≡ L.name }
    requires parts { blank.parts ≡ L.parts }
    requires some_parts { 0 < blank.parts }
    requires spaced { 0 < every }
{
    let mut steps = Steps::<L>::from_blank(blank);
    let mut history = History::new(alloc, Counter::new(failing), every)?;
    let mut kept = Kept {
        events: Vec::new(alloc),
        cursor: 0,
    };
    let mut draws = Draws { seed: every };
    let mut agreed = 0u32;
    let mut most = 0;
    for _turn in 0..1000 {
        act(&mut history, &mut kept, &mut draws, &mut steps)?;
        if agrees(&history, &kept) {
            agreed = agreed.wrapping_add(1);
        }
        most = kept.events.len().max(most);
    }
    Ok((agreed, most))
}

#[test]
fn marks_bound_the_steps(rt: HostRuntime) -> Result<(), Fail> {
    let found = rewinds::<Brand>(rt.alloc(), 33, 16, &[15, 16, 17], Blank::new(1))?;
    let expected = [(15, 15, 15), (16, 16, 0), (17, 17, 1), (33, 33, 0)];
    for (at, (cursor, count, steps)) in expected.iter().enumerate() {
        let shown = Shown {
            cursor: *cursor,
            count: *count,
            steps: *steps,
        };
        assert_eq!(rt; found.get(at), Some(&shown));
    }
    Ok(())
}

#[test]
fn a_thousand_commands(rt: HostRuntime) -> Result<(), Fail> {
    for every in [1, 2, 16, 64] {
        for failing in [0, 7] {
            let (agreed, most) = drive::<Brand>(rt.alloc(), every, failing, Blank::new(1))?;
            assert_eq!(rt; agreed, 1000);
            assert!(rt; most > 64);
        }
    }
    Ok(())
}
