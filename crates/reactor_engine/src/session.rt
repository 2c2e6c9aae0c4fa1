//! One session: a program, the events so far, and what is shown after them.
ghost use Rattle.std.specs.Prelude.{◌≡◌, ◌++◌, ◌∷◌, ◌&&◌, ◌==◌, [], Some, None, not, nat_le, IfOk, OnOk, OnErr, length, ◌≤◌, ◌<◌};
ghost use Rattle.std.specs.List.{list_all};
ghost use Rattle.std.specs.Fmt.{signed_decimal};
ghost use Rattle.elm_base.specs.declared.command.Command.TheVariants as command;
ghost use Rattle.elm_base.specs.declared.event.Event.TheVariants as event;
ghost use Rattle.elm_base.specs.declared.event.PortType.TheVariants as type;
ghost use Rattle.elm_base.specs.declared.event.PortValue.TheVariants as value;
ghost use Rattle.reactor_meaning.specs.Program.{value_of};
ghost use Rattle.reactor_meaning.specs.Command.{is_served};

use crate::literal::integer_of;
use elm_base::{Command, CommandRefusal, Event, Name, NoMemory, PortType, PortValue};
use frame_text::{Parts, write_frame};
use itoa::Buffer;
use reactor_meaning::Answer;
use script_lines::Line;
use sqlite_items::Items;
use std::alloc::Global;

/// How many events are recorded at most.
const MAX_EVENTS: u32 = 1_000_000;

/// A program of one inbound port, and the events that were recorded. The cursor is at their end.
#[derive(Drop)]
pub struct Session {
    port: Name,
    events: Vec<Event>,
    shown: i64,
    ghost agrees: { value_of port events.items ≡ shown },
    ghost few: { length events.items ≤ 1000000 },
}

impl Session {
    ghost use Rattle.reactor_outside.specs.Shelf.{Files};
    ghost use Rattle.reactor_meaning.specs.Command.{begun, input, input_value, next};
    ghost use Rattle.reactor_meaning.specs.Transcript.{frame_of};
    ghost use Rattle.reactor_engine.specs.Session.{state_of, IsKept, Makes, Obeys};

    /// The session of the program that shows this port, without events.
    pub fn begin(alloc: Global, port: Name) -> Session
        ensures { (files : Files) → state_of result files ≡ begun (record { port = port }) files }
    {
        Session {
            port,
            events: Vec::new(alloc),
            shown: 0,
        }
    }

    /// Appends the frame at the cursor.
    pub fn write_frame(&self, alloc: Global, out: &mut Vec<u8>) -> Result<(), NoMemory>
        ensures written { OnOk result ((files : Files) → out.new.items ≡ out.old.items
            ++ frame_of (state_of self.now files)) }
        ensures kept { OnErr result (out.new.items ≡ out.old.items) }
    {
        let mut rows = Items::new(alloc);
        rows.push(decimal(alloc, self.shown)?)?;
        let count = self.events.len() as u32;
        let parts = Parts {
            cursor: count,
            events: count,
            rows,
            outs: Items::new(alloc),
            pending: Items::new(alloc),
            watches: Items::new(alloc),
            logs: Items::new(alloc),
            stop: None,
        };
        write_frame(alloc, &parts, out)
    }

    /// Does what a line says, and gives the answer. What is no command that is served is refused.
    pub fn obey(&mut self, line: Line) -> Result<Answer, NoMemory>
        ensures obeyed { IfOk result (λ answer. Obeys self.old line self.new answer) }
        ensures kept { OnErr result (IsKept self.old self.new) }
    {
        match line {
            Line::Command(Command::Input { name, text }) => self.input(name, &text),
            _ => Ok(Answer::Refused(CommandRefusal::Unsupported)),
        }
    }

    /// Lets an input take a value, if that is served.
    fn input(&mut self, name: Name, text: &Name) -> Result<Answer, NoMemory>
        ensures made { IfOk result (λ answer.
            Makes (λ state. next state (command.Input name text.now) None) self.old self.new answer) }
        ensures kept { OnErr result (IsKept self.old self.new) }
    {
        if is_served(name.bytes(), text.bytes()) {
            self.served_input(name, text)
        } else {
            Ok(Answer::Refused(CommandRefusal::Unsupported))
        }
    }

    /// Lets an input take a value, if the program has the input.
    fn served_input(&mut self, name: Name, text: &Name) -> Result<Answer, NoMemory>
        ensures made { IfOk result (λ answer. Makes (λ state. input state name text.now)
            self.old self.new answer) }
        ensures kept { OnErr result (IsKept self.old self.new) }
    {
        if self.port.is(name.bytes()) {
            self.accept(name, integer_of(text.bytes()))
        } else {
            Ok(Answer::Refused(CommandRefusal::UnknownInput { name }))
        }
    }

    /// Records that the port takes this integer, if there is one and an event more may be recorded.
    fn accept(&mut self, name: Name, number: Option<i64>) -> Result<Answer, NoMemory>
        requires { self.old.port ≡ name }
        ensures made { IfOk result (λ answer. Makes (λ state. input_value state name number)
            self.old self.new answer) }
        ensures kept { OnErr result (IsKept self.old self.new) }
    {
        match number {
            None => {
                let port = PortType::Int;
                Ok(Answer::Refused(CommandRefusal::BadValue { name, port }))
            }
            Some(number) => self.record(name, number),
        }
    }

    /// Records that the port takes this integer, if an event more may be recorded.
    fn record(&mut self, name: Name, number: i64) -> Result<Answer, NoMemory>
        requires { self.old.port ≡ name }
        ensures made { IfOk result (λ answer. Makes (λ state. input_value state name (Some number))
            self.old self.new answer) }
        ensures kept { OnErr result (IsKept self.old self.new) }
    {
        if self.events.len() < MAX_EVENTS as usize {
            self.push(name, number)?;
            Ok(Answer::Shown)
        } else {
            Ok(Answer::Refused(CommandRefusal::TooManyEvents { limit: MAX_EVENTS }))
        }
    }

    /// Adds the event that the port of this name takes the number.
    #[tactic(auto, using(crate::proofs::Values::agrees_after))]
    fn push(&mut self, name: Name, number: i64) -> Result<(), NoMemory>
        requires port { self.old.port ≡ name }
        requires few { length self.old.events.items < 1000000 }
        ensures port { self.new.port ≡ self.old.port }
        ensures ok { OnOk result (self.new.events.items ≡ self.old.events.items
            ++ event.Input name type.Int (value.Int number) ∷ []) }
        ensures kept { OnErr result (IsKept self.old self.new) }
    {
        self.events.push(Event::Input {
            name,
            port: PortType::Int,
            value: PortValue::Int(number),
        })?;
        self.shown = number;
        Ok(())
    }
}

/// An integer as it is shown.
fn decimal(alloc: Global, number: i64) -> Result<Name, NoMemory>
    ensures { IfOk result (λ text. text ≡ signed_decimal number) }
{
    let mut buffer = Buffer::new();
    Name::of(alloc, buffer.format(number).as_bytes())
}

/// Whether an input of this name and a value of this text are served.
fn is_served(name: &[u8], text: &[u8]) -> bool
    ensures { result ≡ is_served name.now text.now }
{
    has_no_point(name) && is_plain(text)
}

fn has_no_point(name: &[u8]) -> bool
    ensures { result ≡ list_all (λ byte. not (byte == 46)) name.now }
{
    name.iter().all(|byte| *byte != b'.')
}

fn is_plain(text: &[u8]) -> bool
    ensures { result ≡ list_all (λ byte. nat_le 32 byte && nat_le byte 126 && not (byte == 40))
        text.now }
{
    text.iter().all(|byte| is_plain_byte(*byte))
}

fn is_plain_byte(byte: u8) -> bool
    ensures { result ≡ (nat_le 32 byte && nat_le byte 126 && not (byte == 40)) }
{
    byte >= 32 && byte <= 126 && byte != b'('
}
