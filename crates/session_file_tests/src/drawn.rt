//! Sessions by draws. Their compact texts are made here, byte for byte, without the crate that is tested.
ghost use Rattle.std.specs.Prelude.{◌<◌};

use crate::rewriting::{outcome, rewritten};
use crate::rows::Seen;
use elm_base::NoMemory;
use itoa::Buffer;
use std::alloc::Global;
use std::test::Fail;

/// Draws by a linear congruence.
#[derive(Drop)]
struct Draws {
    state: u64,
}

impl Draws {
    /// A number below the bound.
    fn below(&mut self, bound: u64) -> u64
        requires { 0 < bound }
        ensures { result < bound }
    {
        self.state = self
            .state
            .wrapping_mul(6364136223846793005)
            .wrapping_add(1442695040888963407);
        (self.state >> 33) % bound
    }
}

/// An input with four values, all as they stand in a file.
#[derive(Clone, Copy)]
struct Port {
    named: &'static str,
    values: [&'static str; 4],
}

const PORTS: [Port; 8] = [
    Port {
        named: "[\"Mouse.clicks\",\"()\"]",
        values: ["()", "()", "()", "()"],
    },
    Port {
        named: "[\"b\",\"Int\"]",
        values: ["0", "-1", "9223372036854775807", "-9223372036854775808"],
    },
    Port {
        named: "[\"a\",\"Bool\"]",
        values: ["True", "False", "True", "False"],
    },
    Port {
        named: "[\"z.z'\",\"String\"]",
        values: [
            "\\\"\\\"",
            "\\\"a\\\\\\\"b\\\\\\\\\\\"",
            "\\\"\\\\n\\u0001/\\\"",
            "\\\"ü€😀\\\"",
        ],
    },
    Port {
        named: "[\"m\",\"Maybe (Maybe Int)\"]",
        values: ["Nothing", "Just Nothing", "Just (Just 5)", "Just (Just -5)"],
    },
    Port {
        named: "[\"l\",\"List (List Bool)\"]",
        values: ["[]", "[[]]", "[[True],[]]", "[[True,False]]"],
    },
    Port {
        named: "[\"t\",\"(Int,(),String)\"]",
        values: [
            "(0,(),\\\"\\\")",
            "(-7,(),\\\"x y\\\")",
            "(1,(),\\\",\\\")",
            "(2,(),\\\"]\\\")",
        ],
    },
    Port {
        named: "[\"r\",\"{ x : Int, y : List Int }\"]",
        values: [
            "{ x = 0, y = [] }",
            "{ x = -1, y = [1,2] }",
            "{ x = 10, y = [3] }",
            "{ x = 2, y = [0,0,0] }",
        ],
    },
];

/// A session that is made event by event.
#[derive(Drop)]
struct Making {
    events: Vec<u8>,
    inputs: Vec<u8>,
    /// The ports that were used, in the order of their first use.
    used: Vec<usize>,
}

fn push_number(out: &mut Vec<u8>, number: u64) -> Result<(), NoMemory> {
    let mut buffer = Buffer::new();
    out.extend_from_slice(buffer.format(number).as_bytes())?;
    Ok(())
}

impl Making {
    /// The place of a port among the inputs. It is added where it is new.
    fn place(&mut self, port: usize) -> Result<u64, NoMemory> {
        for (place, own) in self.used.iter().enumerate() {
            if *own == port {
                return Ok(place as u64);
            }
        }
        let place = self.used.len() as u64;
        if place > 0 {
            self.inputs.push(b',')?;
        }
        self.inputs
            .extend_from_slice(PORTS[port % 8].named.as_bytes())?;
        self.used.push(port)?;
        Ok(place)
    }

    fn input(&mut self, port: usize, value: usize) -> Result<(), NoMemory> {
        let place = self.place(port)?;
        push_number(&mut self.events, place)?;
        self.events.extend_from_slice(b",\"")?;
        self.events
            .extend_from_slice(PORTS[port % 8].values[value % 4].as_bytes())?;
        self.events.push(b'"')?;
        Ok(())
    }

    fn event(&mut self, draws: &mut Draws) -> Result<(), NoMemory> {
        self.events.push(b'[')?;
        if draws.below(3) == 0 {
            push_number(&mut self.events, draws.below(1_000_000_000))?;
        } else {
            self.input(draws.below(8) as usize, draws.below(4) as usize)?;
        }
        self.events.push(b']')?;
        Ok(())
    }
}

/// The compact text of a drawn session of so many events.
fn drawn(alloc: Global, draws: &mut Draws, events: u64, cursor: u64) -> Result<Vec<u8>, NoMemory> {
    let mut making = Making {
        events: Vec::new(alloc),
        inputs: Vec::new(alloc),
        used: Vec::new(alloc),
    };
    for number in 0..events {
        if number > 0 {
            making.events.push(b',')?;
        }
        making.event(draws)?;
    }
    let mut out = Vec::new(alloc);
    out.extend_from_slice(b"{\"cursor\":")?;
    push_number(&mut out, cursor)?;
    out.extend_from_slice(b",\"events\":[")?;
    out.extend_from_slice(&making.events)?;
    out.extend_from_slice(b"],\"format\":\"reactor-session\",\"inputs\":[")?;
    out.extend_from_slice(&making.inputs)?;
    out.extend_from_slice(b"],\"version\":1}")?;
    Ok(out)
}

/// How many of the drawn sessions are read with their cursor and events, and written as they were drawn.
fn kept(alloc: Global, rounds: u64) -> Result<u64, NoMemory> {
    let mut draws = Draws { state: 15 };
    let mut count = 0u64;
    for _ in 0..rounds {
        let events = draws.below(20);
        let cursor = draws.below(events + 1);
        let text = drawn(alloc, &mut draws, events, cursor)?;
        let seen = outcome(alloc, &text)?;
        let wanted = Seen::Session(cursor as u32, events as usize);
        if seen == wanted && rewritten(alloc, &text)? == text {
            count = count.saturating_add(1);
        }
    }
    Ok(count)
}

#[test]
fn drawn_sessions_are_written_as_they_were(rt: HostRuntime) -> Result<(), Fail> {
    assert_eq!(rt; kept(rt.alloc(), 1_000)?, 1_000);
    Ok(())
}
