//! The parts of a shape, and what their sorts are to meet.

ghost use Rattle.std.specs.Prelude.{◌≡◌, ◌++◌, OnOk};
ghost use Rattle.type_terms.specs.Terms.{parts, terms_of};
ghost use Rattle.well_sorted.specs.Asking.{asked, each_simple};

use elm_base::{Name, NoMemory};
use sqlite_items::Items;
use type_terms::{Shape, TermId};

/// Adds the terms behind the others.
pub fn push_all(terms: &[TermId], out: &mut Items<TermId>) -> Result<(), NoMemory>
    ensures { OnOk result (out.new ≡ out.old ++ terms.now) }
{
    for term in terms {
        out.push(*term)?;
    }
    Ok(())
}

// Adds the terms of the fields behind the others.
fn push_fields(fields: &[(Name, TermId)], out: &mut Items<TermId>) -> Result<(), NoMemory>
    ensures { OnOk result (out.new ≡ out.old ++ terms_of fields.now) }
{
    for (_, term) in fields {
        out.push(*term)?;
    }
    Ok(())
}

/// Adds the terms that a shape is made of behind the others.
pub fn push_parts(shape: &Shape, out: &mut Items<TermId>) -> Result<(), NoMemory>
    ensures { OnOk result (out.new ≡ out.old ++ parts shape.now) }
{
    match shape {
        Shape::Variable { .. } | Shape::Opaque { .. } => Ok(()),
        Shape::Named { arguments, .. } => push_all(arguments.as_slice(), out),
        Shape::Tuple { parts } => push_all(parts.as_slice(), out),
        Shape::Arrow { from, to } => push_all(&[*from, *to], out),
        Shape::Row { fields, rest } => {
            if let Some(rest) = rest {
                out.push(*rest)?;
            }
            push_fields(fields.as_slice(), out)
        }
    }
}

// Notes that each of the terms is simple.
fn note_all(
    terms: &[TermId],
    simple: TermId,
    out: &mut Items<(TermId, TermId)>,
) -> Result<(), NoMemory>
    ensures { OnOk result (out.new ≡ out.old ++ each_simple simple terms.now) }
{
    for term in terms {
        out.push((*term, simple))?;
    }
    Ok(())
}

// Notes that each field is simple.
fn note_fields(
    fields: &[(Name, TermId)],
    simple: TermId,
    out: &mut Items<(TermId, TermId)>,
) -> Result<(), NoMemory>
    ensures { OnOk result (out.new ≡ out.old ++ each_simple simple (terms_of fields.now)) }
{
    for (_, term) in fields {
        out.push((*term, simple))?;
    }
    Ok(())
}

/// Adds what the sorts of the shape's parts are to meet.
pub fn note_parts(
    shape: &Shape,
    simple: TermId,
    out: &mut Items<(TermId, TermId)>,
) -> Result<(), NoMemory>
    ensures { OnOk result (out.new ≡ out.old ++ asked simple shape.now) }
{
    match shape {
        Shape::Variable { .. } | Shape::Opaque { .. } => Ok(()),
        Shape::Named { arguments, .. } => note_all(arguments.as_slice(), simple, out),
        Shape::Tuple { parts } => note_all(parts.as_slice(), simple, out),
        Shape::Arrow { from, to } => {
            out.push((*from, *to))?;
            Ok(())
        }
        Shape::Row { fields, .. } => note_fields(fields.as_slice(), simple, out),
    }
}
