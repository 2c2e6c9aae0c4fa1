//! Which types are types of ports.
ghost use Rattle.std.specs.Prelude.{◌≡◌, ◌++◌, IfOk, OnOk, Option, Some, None};
ghost use Rattle.elm_base.specs.declared.event.PortType.TheVariants as port;
ghost use Rattle.port_types.specs.PortTypes as spec;

use crate::fields::place;
use crate::limits::is_within;
use elm_base::{Name, NoMemory, PortType, Spot, TypeTree};
use sqlite_items::{Boxed, Items};
use std::alloc::Global;

fn leaf(name: &[u8]) -> Option<PortType>
    ensures { result ≡ spec.leaf name.now }
{
    if name == b"Basics.Int".as_slice() {
        Some(PortType::Int)
    } else if name == b"Basics.Bool".as_slice() {
        Some(PortType::Bool)
    } else if name == b"Basics.String".as_slice() {
        Some(PortType::Text)
    } else {
        None
    }
}

/// A type of one argument.
fn of_one(alloc: Global, name: &[u8], part: Option<PortType>) -> Result<Option<PortType>, NoMemory>
    ensures { IfOk result (λ found. found ≡ spec.of_one name.now part) }
{
    match part {
        None => Ok(None),
        Some(part) => {
            if name == b"Maybe.Maybe".as_slice() {
                Ok(Some(PortType::Maybe(Boxed::new(alloc, part)?)))
            } else if name == b"Basics.List".as_slice() {
                Ok(Some(PortType::List(Boxed::new(alloc, part)?)))
            } else {
                Ok(None)
            }
        }
    }
}

fn variable(name: &[u8]) -> Option<PortType>
    ensures { result ≡ spec.variable name.now }
{
    if name.starts_with(b"number") {
        Some(PortType::Int)
    } else {
        None
    }
}

fn given(whole: bool, port: PortType) -> Option<PortType>
    ensures { result ≡ spec.given whole port }
{
    if whole { Some(port) } else { None }
}

/// Appends the type, if it is there, and answers whether it is.
fn push_those(port: Option<PortType>, out: &mut Items<PortType>) -> Result<bool, NoMemory>
    ensures there { IfOk result (λ there. there ≡ spec.is_there port) }
    ensures grown { OnOk result (out.new ≡ out.old ++ spec.those port) }
{
    match port {
        None => Ok(false),
        Some(port) => {
            out.push(port)?;
            Ok(true)
        }
    }
}

/// The type of a port that a type without aliases is, if it is one.
#[cycle(ports)]
fn port_type(alloc: Global, tree: &TypeTree) -> Result<Option<PortType>, NoMemory>
    ensures { IfOk result (λ found. found ≡ spec.port_type tree.now) }
{
    match tree {
        TypeTree::Variable { name, .. } => Ok(variable(name.bytes())),
        TypeTree::Named {
            name,
            arguments,
            ..
        } => match arguments.as_slice() {
            [] => Ok(leaf(name.bytes())),
            [only] => of_one(alloc, name.bytes(), port_type(alloc, only)?),
            [_, _, ..] => Ok(None),
        },
        TypeTree::Arrow { .. } => Ok(None),
        TypeTree::Unit { .. } => Ok(Some(PortType::Unit)),
        TypeTree::Tuple { parts, .. } => {
            let mut found = Items::new(alloc);
            let whole = push_parts(alloc, parts.as_slice(), &mut found)?;
            Ok(given(whole, PortType::Tuple(found)))
        }
        TypeTree::Brackets { inner, .. } => port_type(alloc, inner.get()),
        TypeTree::Fields { before, fields, .. } => record_type(alloc, fields.as_slice(), before),
    }
}

/// Appends those that are there, and answers whether all are.
#[cycle(ports)]
fn push_parts(
    alloc: Global,
    trees: &[TypeTree],
    out: &mut Items<PortType>,
) -> Result<bool, NoMemory>
    ensures whole { IfOk result (λ whole. whole ≡ spec.all_there (spec.port_types trees.now)) }
    ensures grown { OnOk result (out.new ≡ out.old ++ spec.found_among (spec.port_types trees.now)) }
{
    let mut whole = true;
    for tree in trees {
        let there = push_those(port_type(alloc, tree)?, out)?;
        whole = whole && there;
    }
    Ok(whole)
}

/// A record, which has no bar.
#[cycle(ports)]
#[tactic(auto, using(crate::proofs::RecordLaws::none_stays))]
fn record_type(
    alloc: Global,
    fields: &[(Spot, TypeTree)],
    before: &Option<Spot>,
) -> Result<Option<PortType>, NoMemory>
    ensures { IfOk result (λ found. found ≡ spec.closed before.now (spec.port_fields fields.now)) }
{
    match before {
        Some(_) => return Ok(None),
        None => {}
    }
    let mut placed = Vec::new(alloc);
    for (label, tree) in fields {
        let label = label.name.copy(alloc)?;
        if !place(label, port_type(alloc, tree)?, &mut placed)? {
            return Ok(None);
        }
    }
    Ok(Some(PortType::Fields(Items::from_vec(placed))))
}

fn where_within(alloc: Global, port: PortType) -> Result<Option<PortType>, NoMemory>
    ensures { IfOk result (λ found. found ≡ spec.where_within (Some port)) }
{
    let within = is_within(alloc, &port)?;
    Ok(given(within, port))
}

fn limited(alloc: Global, port: Option<PortType>) -> Result<Option<PortType>, NoMemory>
    ensures { IfOk result (λ found. found ≡ spec.where_within port) }
{
    match port {
        None => Ok(None),
        Some(port) => where_within(alloc, port),
    }
}

fn of_signal(
    alloc: Global,
    name: &[u8],
    arguments: &[TypeTree],
) -> Result<Option<PortType>, NoMemory>
    ensures { IfOk result (λ found. found ≡ spec.of_signal name.now arguments.now) }
{
    match arguments {
        [only] => {
            if name == b"Signal.Signal".as_slice() {
                limited(alloc, port_type(alloc, only)?)
            } else {
                Ok(None)
            }
        }
        _ => Ok(None),
    }
}

/// What a port of this type, in which no alias stands, carries: the one argument of `Signal`, where that is the type of a port, nests
/// at most 32 deep and has at most 4,096 bytes of text. `number..` stands for Int, and the labels of a record stand in byte order.
pub fn carried(alloc: Global, tree: &TypeTree) -> Result<Option<PortType>, NoMemory>
    ensures { IfOk result (λ found. found ≡ spec.carried tree.now) }
{
    match tree {
        TypeTree::Named {
            name,
            arguments,
            ..
        } => of_signal(alloc, name.bytes(), arguments.as_slice()),
        _ => Ok(None),
    }
}
