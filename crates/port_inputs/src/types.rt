//! Whether two types of ports are the same.
ghost use Rattle.std.specs.Prelude.{◌≡◌, ◌↔◌, IsTrue, map};
ghost use Rattle.port_inputs.specs.SameType as spec;

use elm_base::{Name, PortType};

/// Whether two types of ports are the same.
pub fn same_type(first: &PortType, second: &PortType) -> bool
    ensures { IsTrue result ↔ (first.now ≡ second.now) }
{
    is_same(first, second)
}

#[cycle(types)]
fn is_same(first: &PortType, second: &PortType) -> bool
    ensures { result ≡ spec.same_type first.now second.now }
{
    match (first, second) {
        (PortType::Unit, PortType::Unit) => true,
        (PortType::Int, PortType::Int) => true,
        (PortType::Bool, PortType::Bool) => true,
        (PortType::Text, PortType::Text) => true,
        (PortType::Maybe(one), PortType::Maybe(other)) => is_same(one.get(), other.get()),
        (PortType::List(one), PortType::List(other)) => is_same(one.get(), other.get()),
        (PortType::Tuple(some), PortType::Tuple(others)) => {
            are_same(some.as_slice(), others.as_slice())
        }
        (PortType::Fields(some), PortType::Fields(others)) => {
            fields_same(some.as_slice(), others.as_slice())
        }
        _ => false,
    }
}

#[cycle(types)]
fn are_same(some: &[PortType], others: &[PortType]) -> bool
    ensures { result ≡ spec.all_same (map spec.same_type some.now) others.now }
{
    let mut left = others;
    for one in some {
        let [other, rest @ ..] = left else {
            return false;
        };
        if !is_same(one, other) {
            return false;
        }
        left = rest;
    }
    left.is_empty()
}

#[cycle(types)]
fn fields_same(some: &[(Name, PortType)], others: &[(Name, PortType)]) -> bool
    ensures { result ≡ spec.fields_same (map spec.tested some.now) others.now }
{
    let mut left = others;
    for (label, one) in some {
        let [(own, other), rest @ ..] = left else {
            return false;
        };
        if label.bytes() != own.bytes() || !is_same(one, other) {
            return false;
        }
        left = rest;
    }
    left.is_empty()
}
