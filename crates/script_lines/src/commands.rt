//! The commands that texts spell.
ghost use Rattle.std.specs.Prelude.{◌≡◌, ◌<◌, ◌≤◌, length, true, IfOk, Some};
ghost use Rattle.std.specs.List.{list_all, position, position_or_len};
ghost use Rattle.std.specs.Str.{is_utf8};
ghost use Rattle.std.specs.Str.Parse.{digits_value};
ghost use Rattle.elm_base.specs.Letters.{is_digit};
ghost use Rattle.script_lines.specs.Commands as spec;

use crate::names::{is_file_name, is_input_name};
use crate::verb::{Verb, verb_of};
use elm_base::{Command, Name, NoMemory, trim_start};
use std::alloc::Global;
use std::str;

/// The command of a text without spaces at its ends, if it spells one.
pub fn command_of(alloc: Global, text: &[u8]) -> Result<Option<Command>, NoMemory>
    ensures { IfOk result (λ found. found ≡ spec.command_of text.now) }
{
    let (word, rest) = split_word(text);
    match verb_of(word) {
        None => Ok(None),
        Some(verb) => command_with(alloc, verb, rest),
    }
}

/// The command of a verb and what is written behind it.
fn command_with(alloc: Global, verb: Verb, rest: &[u8]) -> Result<Option<Command>, NoMemory>
    ensures { IfOk result (λ found. found ≡ spec.command_with verb rest.now) }
{
    match verb {
        Verb::Input => input_of(alloc, rest),
        Verb::Deliver => Ok(number_of(rest).map(|number| Command::Deliver { number })),
        Verb::Goto => Ok(number_of(rest).map(|cursor| Command::Goto { cursor })),
        Verb::Latest => Ok(alone(Command::Latest, rest)),
        Verb::Resume => Ok(alone(Command::Resume, rest)),
        Verb::Swap => Ok(file_of(alloc, rest)?.map(|project| Command::Swap { project })),
        Verb::Save => Ok(file_of(alloc, rest)?.map(|file| Command::Save { file })),
        Verb::Load => Ok(file_of(alloc, rest)?.map(|file| Command::Load { file })),
        Verb::Show => Ok(alone(Command::Show, rest)),
        Verb::Quit => Ok(alone(Command::Quit, rest)),
    }
}

/// A command that stands alone.
fn alone(command: Command, rest: &[u8]) -> Option<Command>
    ensures { result ≡ spec.alone command rest.now }
{
    if rest.is_empty() { Some(command) } else { None }
}

/// A name, and behind it the text of a value.
fn input_of(alloc: Global, rest: &[u8]) -> Result<Option<Command>, NoMemory>
    ensures { IfOk result (λ found. found ≡ spec.input_of (spec.first_word rest.now)
        (spec.after_word rest.now)) }
{
    let (name, value) = split_word(rest);
    if !is_input_name(name) || !is_value(value) {
        return Ok(None);
    }
    let name = Name::of(alloc, name)?;
    let text = Name::of(alloc, value)?;
    Ok(Some(Command::Input { name, text }))
}

fn is_value(value: &[u8]) -> bool
    ensures { result ≡ spec.is_value value.now }
{
    !value.is_empty() && is_utf8(value)
}

fn is_utf8(text: &[u8]) -> bool
    ensures { result ≡ is_utf8 text.now }
{
    match str::from_utf8(text) {
        Ok(_) => true,
        Err(_) => false,
    }
}

/// A name of a file or a project.
fn file_of(alloc: Global, name: &[u8]) -> Result<Option<Name>, NoMemory>
    ensures { IfOk result (λ found. found ≡ spec.file_of name.now) }
{
    if is_file_name(name) {
        Ok(Some(Name::of(alloc, name)?))
    } else {
        Ok(None)
    }
}

/// A number of one to nine digits.
fn number_of(digits: &[u8]) -> Option<u32>
    ensures { result ≡ spec.number_of digits.now }
{
    if digits.is_empty() || digits.len() > 9 || !are_digits(digits) {
        return None;
    }
    value_of(digits)
}

/// The number that one to nine digits write.
fn value_of(digits: &[u8]) -> Option<u32>
    requires all { list_all is_digit digits.now ≡ true }
    requires some { 0 < length digits.now }
    requires few { length digits.now ≤ 9 }
    ensures { result ≡ Some (digits_value 10 digits.now) }
{
    match str::from_utf8(digits) {
        Ok(digits) => parsed(digits),
        Err(_) => None,
    }
}

fn parsed(digits: &str) -> Option<u32>
    requires all { list_all is_digit digits.now ≡ true }
    requires some { 0 < length digits.now }
    requires few { length digits.now ≤ 9 }
    ensures { result ≡ Some (digits_value 10 digits.now) }
{
    digits.parse::<u32>().ok()
}

fn are_digits(digits: &[u8]) -> bool
    ensures { result ≡ list_all is_digit digits.now }
{
    digits.iter().all(|byte| byte.is_ascii_digit())
}

/// The first word of a text, and what follows it and the spaces behind it.
fn split_word(text: &[u8]) -> (&[u8], &[u8])
    ensures word { result.0.now ≡ spec.first_word text.now }
    ensures rest { result.1.now ≡ spec.after_word text.now }
{
    let end = word_len(text);
    let word = &text[..end];
    if end < text.len() {
        (word, trim_start(&text[end + 1..]))
    } else {
        (word, &[])
    }
}

fn word_len(text: &[u8]) -> usize
    ensures { result ≡ position_or_len spec.is_space text.now }
{
    match space_in(text) {
        Some(at) => at,
        None => text.len(),
    }
}

fn space_in(text: &[u8]) -> Option<usize>
    ensures { result ≡ position spec.is_space text.now }
{
    text.iter().position(|byte| *byte == b' ')
}
