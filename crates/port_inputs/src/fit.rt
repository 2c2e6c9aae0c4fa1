//! Whether events fit a program.
ghost use Rattle.std.specs.Prelude.{◌≡◌};
ghost use Rattle.std.specs.Option.{option_copied};
ghost use Rattle.port_inputs.specs.Fit as spec;

use crate::types::same_type;
use elm_base::{Event, Name, PortType, Program};

/// The first event that doesn't fit. Events count from 1.
#[derive(Clone, Copy, Debug, PartialEq, Eq)]
pub enum Misfit {
    /// The program has no input of the event's name.
    Missing { event: usize },
    /// The program's input has another type.
    Differs { event: usize },
}

/// How an event stands to a program.
#[derive(Clone, Copy, Debug, PartialEq, Eq)]
pub enum Standing {
    Fits,
    Missing,
    Differs,
}

/// The type of the input with this name.
fn type_of<'a>(inputs: &'a [(Name, PortType)], name: &[u8]) -> Option<&'a PortType>
    ensures { option_copied result ≡ spec.type_of inputs.now name.now }
{
    for (own, port) in inputs {
        if name == own.bytes() {
            return Some(port);
        }
    }
    None
}

/// How an input of a name and a type stands to the program's inputs.
fn standing_of(inputs: &[(Name, PortType)], name: &Name, port: &PortType) -> Standing
    ensures { spec.Stands inputs.now name.now port.now result }
{
    match type_of(inputs, name.bytes()) {
        None => Standing::Missing,
        Some(own) => {
            if same_type(own, port) {
                Standing::Fits
            } else {
                Standing::Differs
            }
        }
    }
}

fn event_standing(inputs: &[(Name, PortType)], event: &Event) -> Standing
    ensures { spec.StandsOf inputs.now event.now result }
{
    match event {
        Event::Input { name, port, .. } => standing_of(inputs, name, port),
        Event::Deliver { .. } => Standing::Fits,
    }
}

fn first_misfit(inputs: &[(Name, PortType)], events: &[Event]) -> Result<(), Misfit>
    ensures { spec.Judges inputs.now events.now result }
{
    for (at, event) in events.iter().enumerate() {
        match event_standing(inputs, event) {
            Standing::Fits => {}
            Standing::Missing => return Err(Misfit::Missing { event: at + 1 }),
            Standing::Differs => return Err(Misfit::Differs { event: at + 1 }),
        }
    }
    Ok(())
}

/// Whether the events fit the program, and else the first that doesn't. A delivery fits every program, and an input
/// fits exactly where the program's inputs have its name at its type.
pub fn fits(program: &Program, events: &[Event]) -> Result<(), Misfit>
    ensures { spec.Judges program.now.inputs events.now result }
{
    first_misfit(program.inputs.as_slice(), events)
}
