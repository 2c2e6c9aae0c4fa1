//! The inputs that events use, in the order of their first use.
ghost use Rattle.std.specs.Prelude.{◌≡◌, IfOk, OnOk, length};
ghost use Rattle.port_literals.specs.Ports as ports;
ghost use Rattle.session_file.specs.Written as spec;

use elm_base::{Event, Name, NoMemory, PortType};
use std::alloc::Global;
use std::marker::Model;

/// An input that events use. Contracts see it as its name and its type.
#[derive(Drop)]
pub struct Used<'a> {
    name: &'a Name,
    port: &'a PortType,
}

impl<'a> Model for Used<'a> {
    ghost use Rattle.std.specs.Prelude.{List, ℕ};
    ghost use Rattle.std.specs.Coded.{codes};
    ghost use Rattle.elm_base.specs.declared.event.PortType.{PortType};
    ghost use Rattle.elm_base.specs.contracts.event.PortType as port_type;

    ghost Value = { List ℕ × PortType };

    ghost view = { λ used. (used.name.now, used.port.now) };

    ghost coded = { Prim.hlevel (codes, port_type.the_row.coded) };
}

impl<'a> Used<'a> {
    pub fn name(&self) -> &'a Name
        ensures { result.now ≡ self.now.0 }
    {
        self.name
    }

    pub fn port(&self) -> &'a PortType
        ensures { result.now ≡ self.now.1 }
    {
        self.port
    }
}

/// Whether none of the inputs has the name.
fn is_new(name: &[u8], inputs: &[Used<'_>]) -> bool
    ensures { result ≡ ports.is_new name.now inputs.now }
{
    for input in inputs {
        if name == input.name.bytes() {
            return false;
        }
    }
    true
}

/// Adds an input where its name is new.
fn add_use<'a>(
    inputs: &mut Vec<Used<'a>>,
    name: &'a Name,
    port: &'a PortType,
) -> Result<(), NoMemory>
    ensures { OnOk result (inputs.new.items
        ≡ spec.with_input name.now port.now inputs.old.items) }
{
    if is_new(name.bytes(), inputs) {
        inputs.push(Used { name, port })?;
    }
    Ok(())
}

/// Adds the input of an event where its name is new.
fn add_event<'a>(inputs: &mut Vec<Used<'a>>, event: &'a Event) -> Result<(), NoMemory>
    ensures { OnOk result (inputs.new.items ≡ spec.with_event event.now inputs.old.items) }
{
    match event {
        Event::Input { name, port, .. } => add_use(inputs, name, port),
        Event::Deliver { .. } => Ok(()),
    }
}

/// The inputs that the events use, in the order of their first use.
pub fn inputs_of(alloc: Global, events: &[Event]) -> Result<Vec<Used<'_>>, NoMemory>
    ensures { IfOk result (λ inputs. inputs.items ≡ spec.inputs_of events.now) }
{
    let mut inputs = Vec::new(alloc);
    for event in events {
        add_event(&mut inputs, event)?;
    }
    Ok(inputs)
}

/// The place of the first input with this name; where none has it, how many there are.
pub fn place_of(name: &[u8], inputs: &[Used<'_>]) -> usize
    ensures { result ≡ spec.place_of name.now inputs.now }
{
    for (place, input) in inputs.iter().enumerate() {
        if name == input.name.bytes() {
            return place;
        }
    }
    inputs.len()
}
