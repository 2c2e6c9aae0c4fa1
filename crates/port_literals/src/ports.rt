//! The types whose literals are told apart.
ghost use Rattle.std.specs.Prelude.{◌≡◌, ◌&&◌, map};
ghost use Rattle.std.specs.List.{list_all};
ghost use Rattle.elm_base.specs.Letters as letters;
ghost use Rattle.port_literals.specs.Ports as spec;

use crate::forms::is_name_byte;
use elm_base::{Name, PortType};

/// Whether tuples have two parts or more, and records have names for labels, which differ.
#[cycle(ports)]
pub fn is_port(port: &PortType) -> bool
    ensures { result ≡ spec.is_port port.now }
{
    match port {
        PortType::Maybe(inner) => is_port(inner.get()),
        PortType::List(inner) => is_port(inner.get()),
        PortType::Tuple(parts) => parts.len() > 1 && all_ports(parts.as_slice()),
        PortType::Fields(fields) => are_port_fields(fields.as_slice()),
        _ => true,
    }
}

#[cycle(ports)]
fn all_ports(parts: &[PortType]) -> bool
    ensures { result ≡ list_all (λ part. part) (map spec.is_port parts.now) }
{
    for part in parts {
        if !is_port(part) {
            return false;
        }
    }
    true
}

#[cycle(ports)]
fn are_port_fields(fields: &[(Name, PortType)]) -> bool
    ensures { result ≡ (spec.are_labels fields.now
        && list_all (λ field. field.1) (map spec.passed_field fields.now)) }
{
    are_labels(fields) && all_fields(fields)
}

#[cycle(ports)]
fn all_fields(fields: &[(Name, PortType)]) -> bool
    ensures { result ≡ list_all (λ field. field.1) (map spec.passed_field fields.now) }
{
    for (_, port) in fields {
        if !is_port(port) {
            return false;
        }
    }
    true
}

/// Whether the labels are names that differ.
fn are_labels(fields: &[(Name, PortType)]) -> bool
    ensures { result ≡ spec.are_labels fields.now }
{
    let mut left = fields;
    while let [(label, _), rest @ ..] = left {
        if !is_label(label.bytes()) || !is_new(label.bytes(), rest) {
            return false;
        }
        left = rest;
    }
    true
}

fn are_name_bytes(label: &[u8]) -> bool
    ensures { result ≡ list_all letters.is_name_byte label.now }
{
    label.iter().all(|byte| is_name_byte(*byte))
}

fn is_label(label: &[u8]) -> bool
    ensures { result ≡ spec.is_label label.now }
{
    !label.is_empty() && are_name_bytes(label)
}

/// Whether none of the fields has the label.
fn is_new(label: &[u8], fields: &[(Name, PortType)]) -> bool
    ensures { result ≡ spec.is_new label.now fields.now }
{
    fields.iter().all(|(other, _)| label != other.bytes())
}
