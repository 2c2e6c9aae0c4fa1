//! Heads and parts of terms.

ghost use Rattle.std.specs.Prelude.{◌≡◌, ◌↔◌, ◌<◌, ◌++◌, length, slice_index, IsTrue, OnOk};
ghost use Rattle.type_unify.specs.Heads.{SameHead, IsVariableShape, IsRowShape, zipped};
ghost use Rattle.type_terms.specs.Terms.{parts};

use crate::pair::Pair;
use elm_base::NoMemory;
use sqlite_items::Items;
use type_terms::{Shape, TermId};

pub fn is_variable(shape: &Shape) -> bool
    ensures { IsTrue result ↔ IsVariableShape shape.now }
{
    match shape {
        Shape::Variable { flag: _ } => true,
        _ => false,
    }
}

pub fn is_row(shape: &Shape) -> bool
    ensures { IsTrue result ↔ IsRowShape shape.now }
{
    match shape {
        Shape::Row { fields: _, rest: _ } => true,
        _ => false,
    }
}

/// Whether both are opaque types of one number and flag, or are made in the same way of as many parts.
/// Rows and variables aren't.
pub fn same_head(first: &Shape, second: &Shape) -> bool
    ensures { IsTrue result ↔ SameHead first.now second.now }
{
    match first {
        Shape::Opaque { number, flag } => match second {
            Shape::Opaque {
                number: other,
                flag: other_flag,
            } => *number == *other && *flag == *other_flag,
            _ => false,
        },
        Shape::Named { name, arguments } => match second {
            Shape::Named {
                name: other,
                arguments: others,
            } => name.is(other.bytes()) && arguments.len() == others.len(),
            _ => false,
        },
        Shape::Arrow { from: _, to: _ } => match second {
            Shape::Arrow { from: _, to: _ } => true,
            _ => false,
        },
        Shape::Tuple { parts } => match second {
            Shape::Tuple { parts: others } => parts.len() == others.len(),
            _ => false,
        },
        _ => false,
    }
}

/// How many terms a shape is made of, the rest of a row with them.
pub fn part_count(shape: &Shape) -> usize
    ensures { result ≡ length (parts shape.now) }
{
    match shape {
        Shape::Variable { flag: _ } => 0,
        Shape::Opaque { number: _, flag: _ } => 0,
        Shape::Named { name: _, arguments } => arguments.len(),
        Shape::Arrow { from: _, to: _ } => 2,
        Shape::Tuple { parts } => parts.len(),
        Shape::Row { fields, rest } => {
            let count = fields.as_slice().len();
            match rest {
                None => count,
                Some(_) => count + 1,
            }
        }
    }
}

/// One of the terms that a shape is made of.
pub fn part(shape: &Shape, at: usize) -> TermId
    requires { at < length (parts shape.now) }
    ensures { result ≡ slice_index (parts shape.now) at }
{
    match shape {
        Shape::Variable { flag: _ } => 0,
        Shape::Opaque { number: _, flag: _ } => 0,
        Shape::Named { name: _, arguments } => arguments.as_slice()[at],
        Shape::Arrow { from, to } => { if at == 0 { *from } else { *to } }
        Shape::Tuple { parts } => parts.as_slice()[at],
        Shape::Row { fields, rest } => match rest {
            None => fields.as_slice()[at].1,
            Some(rest) => {
                if at == 0 {
                    *rest
                } else {
                    fields.as_slice()[at - 1].1
                }
            }
        },
    }
}

/// Adds the terms that a shape is made of behind the others.
pub fn push_parts(shape: &Shape, terms: &mut Items<TermId>) -> Result<(), NoMemory>
    ensures { OnOk result (terms.new ≡ terms.old ++ parts shape.now) }
{
    for at in 0..part_count(shape) {
        terms.push(part(shape, at))?;
    }
    Ok(())
}

/// Puts the parts of two shapes in wait, each with that at its place.
pub fn push_pairs(first: &Shape, second: &Shape, waiting: &mut Items<Pair>) -> Result<(), NoMemory>
    requires { length (parts first.now) ≡ length (parts second.now) }
    ensures { OnOk result
        (waiting.new ≡ waiting.old ++ zipped (parts first.now) (parts second.now)) }
{
    for at in 0..part_count(first) {
        waiting.push(Pair {
            first: part(first, at),
            second: part(second, at),
        })?;
    }
    Ok(())
}
