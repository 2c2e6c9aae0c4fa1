//! The text of a value, piece by piece. The pieces that are still to be written wait on a stack of their own, so it
//! doesn't matter how deep the value is.
ghost use Rattle.std.specs.Prelude.{◌≡◌, ◌<◌, ◌++◌, suc, length, nat_le, slice_get, Some, None, IfOk, OnOk, OnErr, OnSome, MatchOption, [], codes, if◌then◌else◌};
ghost use Rattle.elm_meaning.specs.Texts.{char_count};
ghost use Rattle.elm_meaning.specs.ValueText.{text_of};
ghost use Rattle.value_arena.specs.Unfolding.{Lambdas, unfolded};
ghost use Rattle.value_text.specs.Pieces.{refs_of as refs_in, fields_of as fields_in, opening, opening_fields, element_opening, more_of_list, inner, first_part, first_field, comma_or, then_part, argument_opening, then_argument, bracketed, field_opening, then_field, shown_field, shown_value, has_arguments, written, next, PieceBelow, AreNone};
ghost use Rattle.value_arena.specs.Soundness.{RefsBelow};
ghost use Rattle.value_text.specs.Answers.{Says, Appends};

use crate::budget::{Budget, spent};
use crate::literal::{push_char, push_number, push_quoted};
use crate::piece::Piece;
use elm_base::{Name, NoMemory, Ref};
use std::alloc::Global;
use value_arena::{Arena, Node};

/// Appends the text of a value and says true, where it has at most `limit` chars; else appends nothing and says false.
pub fn to_text(
    alloc: Global,
    arena: &Arena,
    at: Ref,
    limit: u32,
    out: &mut Vec<u8>,
) -> Result<bool, NoMemory>
    requires { at < length arena.now }
    ensures answer { IfOk result (λ said. (lambdas : Lambdas) → said
        ≡ nat_le (char_count (text_of (unfolded lambdas arena.now at))) limit) }
    ensures text { IfOk result (λ said. (lambdas : Lambdas) → Appends said
        (text_of (unfolded lambdas arena.now at)) out.old.items out.new.items) }
    ensures kept { OnErr result (out.new.items ≡ out.old.items) }
{
    let mut text = Vec::new(alloc);
    let within = write(alloc, arena, at, limit, &mut text)?;
    if within {
        out.extend_from_slice(text.as_slice())?;
    }
    Ok(within)
}

fn write(
    alloc: Global,
    arena: &Arena,
    at: Ref,
    limit: u32,
    text: &mut Vec<u8>,
) -> Result<bool, NoMemory>
    requires at { at < length arena.now }
    requires empty { text.old.items ≡ [] }
    ensures { IfOk result (λ within. (lambdas : Lambdas) → Says within limit
        (text_of (unfolded lambdas arena.now at)) text.new.items) }
{
    arena.unfolds();
    let mut pending = Vec::new(alloc);
    pending.push(Piece::Whole { at })?;
    let mut budget = Budget {
        left: limit,
        following: 0,
    };
    'pieces: while let Some(piece) = pending.pop() {
        let before = text.len();
        visit(arena, piece, text, &mut pending)?;
        let (_, written) = text.as_slice().split_at(before);
        match spent(budget, written) {
            Some(after) => budget = after,
            None => return Ok(false),
        }
    }
    Ok(true)
}

/// Writes what is written at once of a piece, and lets the others wait.
fn visit(
    arena: &Arena,
    piece: Piece,
    text: &mut Vec<u8>,
    pending: &mut Vec<Piece>,
) -> Result<(), NoMemory>
    requires { PieceBelow (length arena.now) piece }
    ensures text { OnOk result (text.new.items ≡ text.old.items ++ written arena.now piece) }
    ensures pending { OnOk result (pending.new.items ≡ pending.old.items ++ next arena.now piece) }
{
    match piece {
        Piece::Whole { at } => {
            let node = arena.node(at);
            open(node, text)?;
            push_inner(at, node, pending)
        }
        Piece::Rest { at } => rest(arena.node(at), text, pending),
        Piece::Parts { at, from } => { part(refs_of(arena.node(at)), (at, from), text, pending) }
        Piece::Arguments { at, from } => {
            argument(arena, refs_of(arena.node(at)), (at, from), text, pending)
        }
        Piece::Fields { at, last } => {
            field(fields_of(arena.node(at)), (at, last), text, pending)
        }
        Piece::Closing => {
            text.push(b')')?;
            Ok(())
        }
    }
}

/// What is written of a value before its parts.
fn open(node: &Node, text: &mut Vec<u8>) -> Result<(), NoMemory>
    ensures { OnOk result (text.new.items ≡ text.old.items ++ opening node.now) }
{
    match node {
        Node::Int(number) => push_number(*number, text)?,
        Node::Char(code) => push_char(*code, text)?,
        Node::Text(bytes) => push_quoted(b'"', bytes.bytes(), text)?,
        Node::Unit => text.extend_from_slice(b"()")?,
        Node::Nil => text.extend_from_slice(b"[]")?,
        Node::Cons { head: _, tail: _ } => text.push(b'[')?,
        Node::Tuple { parts: _ } => text.push(b'(')?,
        Node::Made {
            constructor,
            arguments: _,
        } => text.extend_from_slice(constructor.bytes())?,
        Node::Fields { fields } => open_fields(fields.as_slice(), text)?,
        Node::Closure {
            lambda: _,
            captured: _,
        }
        | Node::Partial {
            callee: _,
            arguments: _,
        } => text.extend_from_slice(b"<function>")?,
        Node::Cells {
            width: _,
            height: _,
            rows: _,
        } => text.extend_from_slice(b"<element>")?,
        Node::Signal { number: _ } => text.extend_from_slice(b"<signal>")?,
    }
    Ok(())
}

fn open_fields(fields: &[(Name, Ref)], text: &mut Vec<u8>) -> Result<(), NoMemory>
    ensures { OnOk result (text.new.items ≡ text.old.items ++ opening_fields fields.now) }
{
    match fields.first() {
        None => text.extend_from_slice(b"{}")?,
        Some(field) => {
            text.extend_from_slice(b"{ ")?;
            text.extend_from_slice(field.0.bytes())?;
            text.extend_from_slice(b" = ")?;
        }
    }
    Ok(())
}

/// Lets the parts of a value wait, the last of them first.
fn push_inner(at: Ref, node: &Node, pending: &mut Vec<Piece>) -> Result<(), NoMemory>
    ensures { OnOk result (pending.new.items ≡ pending.old.items ++ inner at (Some node.now)) }
{
    match node {
        Node::Cons { head, tail } => {
            pending.push(Piece::Rest { at: *tail })?;
            pending.push(Piece::Whole { at: *head })?;
        }
        Node::Tuple { parts } => push_first_part(at, parts.as_slice(), pending)?,
        Node::Made {
            constructor: _,
            arguments: _,
        } => pending.push(Piece::Arguments { at, from: 0 })?,
        Node::Fields { fields } => push_first_field(at, fields.as_slice(), pending)?,
        _ => {}
    }
    Ok(())
}

fn push_first_part(at: Ref, parts: &[Ref], pending: &mut Vec<Piece>) -> Result<(), NoMemory>
    ensures { OnOk result (pending.new.items ≡ pending.old.items ++ first_part at parts.now) }
{
    match parts.first() {
        None => pending.push(Piece::Parts { at, from: 0 })?,
        Some(first) => {
            pending.push(Piece::Parts { at, from: 1 })?;
            pending.push(Piece::Whole { at: *first })?;
        }
    }
    Ok(())
}

fn push_first_field(
    at: Ref,
    fields: &[(Name, Ref)],
    pending: &mut Vec<Piece>,
) -> Result<(), NoMemory>
    ensures { OnOk result (pending.new.items ≡ pending.old.items ++ first_field at fields.now) }
{
    match fields.first() {
        None => {}
        Some(first) => {
            pending.push(Piece::Fields { at, last: 0 })?;
            pending.push(Piece::Whole { at: first.1 })?;
        }
    }
    Ok(())
}

/// A further element of a list, or its end.
fn rest(node: &Node, text: &mut Vec<u8>, pending: &mut Vec<Piece>) -> Result<(), NoMemory>
    ensures text { OnOk result (text.new.items ≡ text.old.items ++ element_opening (Some node.now)) }
    ensures pending { OnOk result
        (pending.new.items ≡ pending.old.items ++ more_of_list (Some node.now)) }
{
    match node {
        Node::Cons { head, tail } => {
            text.push(b',')?;
            pending.push(Piece::Rest { at: *tail })?;
            pending.push(Piece::Whole { at: *head })?;
        }
        _ => text.push(b']')?,
    }
    Ok(())
}

fn refs_of(node: &Node) -> &[Ref]
    ensures { result.now ≡ refs_in (Some node.now) }
{
    match node {
        Node::Tuple { parts } => parts.as_slice(),
        Node::Made {
            constructor: _,
            arguments,
        } => arguments.as_slice(),
        _ => &[],
    }
}

fn fields_of(node: &Node) -> &[(Name, Ref)]
    ensures { result.now ≡ fields_in (Some node.now) }
{
    match node {
        Node::Fields { fields } => fields.as_slice(),
        _ => &[],
    }
}

/// The part at a place and the place behind it, where there is one.
fn part_at(refs: &[Ref], from: usize) -> Option<(Ref, usize)>
    ensures { MatchOption result (slice_get refs.now from ≡ None)
        (λ p. (slice_get refs.now from ≡ Some p.0) × (p.1 ≡ suc from)) }
{
    if from >= refs.len() {
        return None;
    }
    Some((refs[from], from + 1))
}

/// A further part of the tuple at a place, or its end.
fn part(
    refs: &[Ref],
    place: (Ref, usize),
    text: &mut Vec<u8>,
    pending: &mut Vec<Piece>,
) -> Result<(), NoMemory>
    ensures text { OnOk result
        (text.new.items ≡ text.old.items ++ comma_or (codes ")") (slice_get refs.now place.1)) }
    ensures pending { OnOk result
        (pending.new.items ≡ pending.old.items ++ then_part place.0 place.1 (slice_get refs.now place.1)) }
{
    let (at, from) = place;
    match part_at(refs, from) {
        None => text.push(b')')?,
        Some((part, behind)) => {
            text.push(b',')?;
            pending.push(Piece::Parts { at, from: behind })?;
            pending.push(Piece::Whole { at: part })?;
        }
    }
    Ok(())
}

/// A further argument of the constructor at a place, or nothing.
fn argument(
    arena: &Arena,
    refs: &[Ref],
    place: (Ref, usize),
    text: &mut Vec<u8>,
    pending: &mut Vec<Piece>,
) -> Result<(), NoMemory>
    requires { RefsBelow (length arena.now) refs.now }
    ensures text { OnOk result
        (text.new.items ≡ text.old.items ++ argument_opening arena.now (slice_get refs.now place.1)) }
    ensures pending { OnOk result
        (pending.new.items
        ≡ pending.old.items ++ then_argument arena.now place.0 place.1 (slice_get refs.now place.1)) }
{
    let (at, from) = place;
    match part_at(refs, from) {
        None => {}
        Some((argument, behind)) => {
            pending.push(Piece::Arguments { at, from: behind })?;
            push_argument(argument, arena.node(argument), text, pending)?;
        }
    }
    Ok(())
}

/// An argument, in brackets where it is a constructor with arguments.
fn push_argument(
    at: Ref,
    node: &Node,
    text: &mut Vec<u8>,
    pending: &mut Vec<Piece>,
) -> Result<(), NoMemory>
    ensures text { OnOk result (text.new.items
        ≡ text.old.items ++ (if has_arguments (Some node.now) then codes " (" else codes " ")) }
    ensures pending { OnOk result
        (pending.new.items ≡ pending.old.items ++ bracketed (has_arguments (Some node.now)) at) }
{
    if takes_brackets(node) {
        text.extend_from_slice(b" (")?;
        pending.push(Piece::Closing)?;
    } else {
        text.push(b' ')?;
    }
    pending.push(Piece::Whole { at })?;
    Ok(())
}

fn takes_brackets(node: &Node) -> bool
    ensures { result ≡ has_arguments (Some node.now) }
{
    match node {
        Node::Made {
            constructor: _,
            arguments,
        } => !arguments.as_slice().is_empty(),
        _ => false,
    }
}

/// The fields at a place and behind it, where there are both.
fn neighbours(fields: &[(Name, Ref)], last: usize) -> Option<(&(Name, Ref), &(Name, Ref))>
    ensures found { MatchOption result (AreNone (slice_get fields.now last) (slice_get fields.now (suc last)))
        (λ p. (slice_get fields.now last ≡ Some p.0.now)
        × (slice_get fields.now (suc last) ≡ Some p.1.now)) }
    ensures within { OnSome result (last < 18446744073709551615) }
{
    if last >= fields.len() || last + 1 >= fields.len() {
        return None;
    }
    Some((&fields[last], &fields[last + 1]))
}

/// The field behind another one of the record at a place, or its end. Of one label only the first field is seen.
fn field(
    fields: &[(Name, Ref)],
    place: (Ref, usize),
    text: &mut Vec<u8>,
    pending: &mut Vec<Piece>,
) -> Result<(), NoMemory>
    ensures text { OnOk result (text.new.items
        ≡ text.old.items ++ field_opening (slice_get fields.now place.1) (slice_get fields.now (suc place.1))) }
    ensures pending { OnOk result (pending.new.items ≡ pending.old.items
        ++ then_field place.0 place.1 (slice_get fields.now place.1)
        (slice_get fields.now (suc place.1))) }
{
    let (at, last) = place;
    match neighbours(fields, last) {
        None => text.extend_from_slice(b" }")?,
        Some((before, behind)) => {
            let hidden = before.0.bytes() == behind.0.bytes();
            pending.push(Piece::Fields { at, last: last + 1 })?;
            push_field(hidden, behind, text, pending)?;
        }
    }
    Ok(())
}

/// A field, unless it is hidden.
fn push_field(
    hidden: bool,
    field: &(Name, Ref),
    text: &mut Vec<u8>,
    pending: &mut Vec<Piece>,
) -> Result<(), NoMemory>
    ensures text { OnOk result (text.new.items ≡ text.old.items ++ shown_field hidden field.now.0) }
    ensures pending { OnOk result
        (pending.new.items ≡ pending.old.items ++ shown_value hidden field.now.1) }
{
    if hidden {
        return Ok(());
    }
    text.extend_from_slice(b", ")?;
    text.extend_from_slice(field.0.bytes())?;
    text.extend_from_slice(b" = ")?;
    pending.push(Piece::Whole { at: field.1 })?;
    Ok(())
}
