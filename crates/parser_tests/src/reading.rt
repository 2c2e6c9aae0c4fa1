//! A text as a type, a pattern or an expression, and what is written of its tree.
use crate::same;
use crate::show::{Printed, put_expr, put_pattern, put_type};
use elm_base::{Expr, Halt, Pattern, Token, TypeTree};
use expr_parser::{NoTree, expr, pattern, type_text};
use layout_lexer::tokens;
use std::alloc::{AllocError, Global};
use std::process::Abort;

/// What a text is read as.
#[derive(Clone, Copy)]
pub enum Reading {
    Type,
    Pattern,
    Expression,
}

/// A tree that can be written.
trait Put {
    fn put(&self, out: &mut Printed) -> Result<(), AllocError>;
}

impl Put for TypeTree {
    fn put(&self, out: &mut Printed) -> Result<(), AllocError> {
        put_type(out, self)
    }
}

impl Put for Pattern {
    fn put(&self, out: &mut Printed) -> Result<(), AllocError> {
        put_pattern(out, self)
    }
}

impl Put for Expr {
    fn put(&self, out: &mut Printed) -> Result<(), AllocError> {
        put_expr(out, self)
    }
}

/// Writes the tree, or why there is none.
fn put_read<T: Put + Drop>(
    out: &mut Printed,
    read: Result<T, Halt<NoTree>>,
) -> Result<(), AllocError> {
    match read {
        Ok(tree) => tree.put(out),
        Err(Halt::Because(NoTree)) => out.put("NoTree"),
        Err(Halt::NoMemory) => out.put("NoMemory"),
    }
}

/// Reads the tokens, and writes their tree.
fn put_tree(
    out: &mut Printed,
    alloc: Global,
    reading: Reading,
    tokens: &[Token<'_>],
) -> Result<(), AllocError> {
    match reading {
        Reading::Type => put_read(out, type_text(alloc, tokens)),
        Reading::Pattern => put_read(out, pattern(alloc, tokens)),
        Reading::Expression => put_read(out, expr(alloc, tokens)),
    }
}

fn put_text(
    out: &mut Printed,
    alloc: Global,
    reading: Reading,
    text: &str,
) -> Result<(), AllocError> {
    match tokens(alloc, text.as_bytes()) {
        Err(_) => out.put("no tokens"),
        Ok(tokens) => put_tree(out, alloc, reading, tokens.as_slice()),
    }
}

/// The text's tree, or why it has none. Places are written for types and patterns.
pub fn written(alloc: Global, reading: Reading, text: &str) -> Result<String, AllocError> {
    let places = !matches!(reading, Reading::Expression);
    let mut out = Printed::new(alloc, places);
    put_text(&mut out, alloc, reading, text)?;
    Ok(out.into_text())
}

/// Each text has its tree.
pub fn check_rows(
    rt: &impl Abort,
    alloc: Global,
    reading: Reading,
    rows: &[(&str, &str)],
) -> Result<(), AllocError> {
    for (text, wanted) in rows {
        let found = written(alloc, reading, text)?;
        same(rt, found.as_str(), *wanted, text);
    }
    Ok(())
}
