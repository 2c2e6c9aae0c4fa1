//! Names that differ, and inputs that are used in their order.
ghost use Rattle.std.specs.Prelude.{◌≡◌, ◌≤◌, IsTrue, length, map};
ghost use Rattle.serde_json.specs.View.{view};
ghost use Rattle.port_literals.specs.Ports as ports;
ghost use Rattle.session_file.specs.Sessions as spec;

use elm_base::{Name, PortType};
use serde_json::Value;
use session_form::place_of;

/// Whether none of the inputs has the name.
fn is_new(name: &[u8], inputs: &[(Name, PortType)]) -> bool
    ensures { result ≡ ports.is_new name.now inputs.now }
{
    inputs.iter().all(|(other, _)| name != other.bytes())
}

/// Whether no name stands twice.
pub fn are_different(inputs: &[(Name, PortType)]) -> bool
    ensures { result ≡ spec.are_different inputs.now }
{
    let mut left = inputs;
    while let [(name, _), rest @ ..] = left {
        if !is_new(name.bytes(), rest) {
            return false;
        }
        left = rest;
    }
    true
}

/// Whether the place is one that was used, or the next.
fn is_usable(used: u64, place: Option<u64>) -> bool
    ensures { result ≡ spec.is_usable used place }
{
    match place {
        None => true,
        Some(place) => place <= used,
    }
}

/// How many inputs are used behind this place.
fn used_after(used: u64, place: Option<u64>) -> u64
    requires few { used ≤ spec.max_events }
    requires usable { IsTrue (spec.is_usable used place) }
    ensures { result ≡ spec.used_after used place }
{
    match place {
        None => used,
        Some(place) => used.max(place + 1),
    }
}

/// Whether events make use of so many inputs, in their order.
pub fn in_order(count: usize, values: &[Value]) -> bool
    requires { length values.now ≤ spec.max_events }
    ensures { result ≡ spec.in_order count 0 (map view values.now) }
{
    let mut used = 0u64;
    for value in values {
        let place = place_of(value);
        if !is_usable(used, place) {
            return false;
        }
        used = used_after(used, place);
    }
    used == count as u64
}
