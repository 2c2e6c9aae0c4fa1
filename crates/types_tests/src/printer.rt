//! Terms of a store as text, and what became of named variables. What can't be written finds no memory.
ghost use Rattle.std.specs.Prelude.{◌<◌, IfOk};

use crate::reader::Variable;
use elm_base::Name;
use std::alloc::AllocError;
use std::str;
use type_terms::{Flag, Shape, Store, TermId};

// How deep types of tests nest at most.
const DEPTH: u32 = 40;

// What a type stands in: nothing that asks for brackets, the left side of an arrow, or a call.
#[derive(Clone, Copy, PartialEq, Eq)]
enum Inside {
    Nothing,
    Arrow,
    Call,
}

/// Prints terms behind a text. A variable that no text named is `new`.
#[derive(Clone, Copy)]
pub struct Printer<'a> {
    pub store: &'a Store,
    pub variables: &'a [Variable],
}

impl<'a> Printer<'a> {
    /// What became of the variables, in the order in which they were named: `r = { y : Bool }; p is comparable`. Nothing,
    /// where each is as it was.
    pub fn put_changes(self, out: &mut String) -> Result<(), AllocError> {
        for variable in self.variables {
            self.put_change(variable, out)?;
        }
        Ok(())
    }

    fn put_change(self, variable: &Variable, out: &mut String) -> Result<(), AllocError> {
        let end = self.end(variable.term)?;
        let flag = self.flag(end);
        if end != variable.term {
            begin(&variable.name, out)?;
            out.push_str(" = ")?;
            self.put_type(end, out)
        } else if flag != variable.flag {
            begin(&variable.name, out)?;
            out.push_str(flag_text(flag))
        } else {
            Ok(())
        }
    }

    /// The text of a term.
    pub fn put_type(self, term: TermId, out: &mut String) -> Result<(), AllocError> {
        self.put(term, Inside::Nothing, DEPTH, out)
    }

    fn end(self, term: TermId) -> Result<TermId, AllocError> {
        if (term as usize) < self.store.terms() {
            Ok(self.store.find(term))
        } else {
            Err(AllocError)
        }
    }

    fn shape(self, term: TermId) -> Result<&'a Shape, AllocError> {
        if (term as usize) < self.store.terms() {
            Ok(self.store.shape(term))
        } else {
            Err(AllocError)
        }
    }

    fn flag(self, term: TermId) -> Flag {
        match self.shape(term) {
            Ok(Shape::Variable { flag }) => *flag,
            _ => Flag::Plain,
        }
    }

    fn put_name(self, end: TermId, out: &mut String) -> Result<(), AllocError> {
        for variable in self.variables {
            if variable.term == end {
                return put_bytes(variable.name.bytes(), out);
            }
        }
        out.push_str("new")
    }

    #[cycle(prints)]
    fn put(
        self,
        term: TermId,
        inside: Inside,
        depth: u32,
        out: &mut String,
    ) -> Result<(), AllocError> {
        let less = one_less(depth)?;
        let end = self.end(term)?;
        match self.shape(end)? {
            Shape::Variable { .. } | Shape::Opaque { .. } => self.put_name(end, out),
            Shape::Named { name, arguments } => {
                let brackets = inside == Inside::Call && !arguments.is_empty();
                put_where(brackets, "(", out)?;
                put_bytes(last_segment(name.bytes()), out)?;
                self.put_all(arguments.as_slice(), " ", Inside::Call, less, out)?;
                put_where(brackets, ")", out)
            }
            Shape::Arrow { from, to } => {
                let brackets = inside != Inside::Nothing;
                put_where(brackets, "(", out)?;
                self.put(*from, Inside::Arrow, less, out)?;
                out.push_str(" -> ")?;
                self.put(*to, Inside::Nothing, less, out)?;
                put_where(brackets, ")", out)
            }
            Shape::Tuple { parts } => self.put_tuple(parts.as_slice(), less, out),
            Shape::Row { .. } => self.put_row(end, less, out),
        }
    }

    // The terms, each behind the same text.
    #[cycle(prints)]
    fn put_all(
        self,
        terms: &[TermId],
        front: &str,
        inside: Inside,
        depth: u32,
        out: &mut String,
    ) -> Result<(), AllocError> {
        let less = one_less(depth)?;
        for term in terms {
            out.push_str(front)?;
            self.put(*term, inside, less, out)?;
        }
        Ok(())
    }

    #[cycle(prints)]
    fn put_tuple(self, parts: &[TermId], depth: u32, out: &mut String) -> Result<(), AllocError> {
        let less = one_less(depth)?;
        out.push_str("(")?;
        if let [first, others @ ..] = parts {
            self.put(*first, Inside::Nothing, less, out)?;
            self.put_all(others, ", ", Inside::Nothing, less, out)?;
        }
        out.push_str(")")
    }

    // A record: the rest behind all its fields, where it has one, and then all fields.
    #[cycle(prints)]
    fn put_row(self, row: TermId, depth: u32, out: &mut String) -> Result<(), AllocError> {
        let less = one_less(depth)?;
        out.push_str("{")?;
        self.put_rest(row, out)?;
        self.put_fields(row, less, out)?;
        out.push_str(" }")
    }

    // The fields of a row, and of the rows that are its rest.
    #[cycle(prints)]
    fn put_fields(self, row: TermId, depth: u32, out: &mut String) -> Result<(), AllocError> {
        let less = one_less(depth)?;
        let mut next = Some(row);
        let mut first = true;
        for _ in 0..DEPTH {
            let Some(at) = next else {
                return Ok(());
            };
            let Shape::Row { fields, rest } = self.shape(at)? else {
                return Ok(());
            };
            self.put_labelled(fields.as_slice(), first, less, out)?;
            first = first && fields.is_empty();
            next = *rest;
        }
        Err(AllocError)
    }

    // The fields, which are the first ones or stand behind others.
    #[cycle(prints)]
    fn put_labelled(
        self,
        fields: &[(Name, TermId)],
        first: bool,
        depth: u32,
        out: &mut String,
    ) -> Result<(), AllocError> {
        let less = one_less(depth)?;
        let mut first = first;
        for (label, term) in fields {
            out.push_str(separator(first))?;
            put_bytes(label.bytes(), out)?;
            out.push_str(" : ")?;
            self.put(*term, Inside::Nothing, less, out)?;
            first = false;
        }
        Ok(())
    }

    // What stands before the bar of a row, and the bar, where it has a rest that is no row.
    fn put_rest(self, row: TermId, out: &mut String) -> Result<(), AllocError> {
        let mut next = Some(row);
        for _ in 0..DEPTH {
            let Some(at) = next else {
                return Ok(());
            };
            let Shape::Row { rest, .. } = self.shape(at)? else {
                out.push_str(" ")?;
                self.put_name(self.end(at)?, out)?;
                return out.push_str(" |");
            };
            next = *rest;
        }
        Err(AllocError)
    }
}

// A depth below this one, if there is one.
pub fn one_less(depth: u32) -> Result<u32, AllocError>
    ensures { IfOk result (λ less. less < depth) }
{
    match depth {
        0 => Err(AllocError),
        _ => Ok(depth - 1),
    }
}

// What stands before a field.
fn separator(first: bool) -> &'static str {
    if first { " " } else { ", " }
}

// Begins what became of a variable.
fn begin(name: &Name, out: &mut String) -> Result<(), AllocError> {
    put_where(!out.is_empty(), "; ", out)?;
    put_bytes(name.bytes(), out)
}

fn put_bytes(bytes: &[u8], out: &mut String) -> Result<(), AllocError> {
    out.push_str(str::from_utf8(bytes).unwrap_or("?"))
}

fn put_where(wanted: bool, text: &str, out: &mut String) -> Result<(), AllocError> {
    if wanted {
        out.push_str(text)?;
    }
    Ok(())
}

// What follows the last point.
fn last_segment(name: &[u8]) -> &[u8] {
    let mut segment = name;
    for (place, byte) in name.iter().enumerate() {
        if *byte == b'.' && place < name.len() {
            segment = &name[place + 1..];
        }
    }
    segment
}

fn flag_text(flag: Flag) -> &'static str {
    match flag {
        Flag::Plain => " is plain",
        Flag::Comparable => " is comparable",
        Flag::Appendable => " is appendable",
        Flag::Both => " is both",
    }
}
