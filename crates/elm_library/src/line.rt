//! What a line in front of a header declares.
ghost use Rattle.std.specs.Prelude.{◌≡◌, ℕ, map, IfOk};
ghost use Rattle.elm_base.specs.Lexemes.{lexeme};
ghost use Rattle.elm_library.specs.Answers.{GivesType, PushesLine, typed_as};
ghost use Rattle.elm_library.specs.Reading.{bad_line};
ghost use Rattle.elm_library.specs.declared.mark.Mark.TheVariants.{Native, Device, Opaque};
ghost use Rattle.elm_library.specs.Marks as spec;

use crate::mark::Mark;
use elm_base::{At, Declaration, FaultKind, Halt, Name, NativeId, NoMemory, Token, TypeTree};
use grammar::NoTree;
use layout_lexer::TextFault;
use pattern_parser::type_text;
use sqlite_items::Items;
use std::alloc::Global;

/// A name and the tokens of its type.
#[derive(Clone, Copy)]
struct Typed<'b, 'a> {
    name: &'b Token<'a>,
    written: &'b [Token<'a>],
}

/// The name and its type, where a colon stands between.
fn parts_of<'b, 'a>(line: &'b [Token<'a>]) -> Option<Typed<'b, 'a>>
    ensures { typed_as result ≡ spec.typed (map lexeme line.now) }
{
    match line {
        [name, colon, written @ ..] if colon.text == b":".as_slice() => Some(Typed {
            name,
            written,
        }),
        _ => None,
    }
}

/// The name and the type that a line gives it.
#[derive(Drop)]
struct Named {
    name: Name,
    written: TypeTree,
}

/// The name and the type of a line, or the fault where it has none.
fn read_type(alloc: Global, line: &[Token<'_>], fault: TextFault) -> Result<Named, Halt<TextFault>>
    ensures { GivesType (spec.typed (map lexeme line.now)) fault result }
{
    let Some(parts) = parts_of(line) else {
        return Err(Halt::Because(fault));
    };
    let name = Name::of(alloc, parts.name.text)?;
    match type_text(alloc, parts.written) {
        Ok(written) => Ok(Named { name, written }),
        Err(Halt::Because(NoTree)) => Err(Halt::Because(fault)),
        Err(Halt::NoMemory) => Err(Halt::NoMemory),
    }
}

fn push_native(
    alloc: Global,
    at: At,
    number: NativeId,
    line: &[Token<'_>],
    fault: TextFault,
    out: &mut Items<Declaration>,
) -> Result<(), Halt<TextFault>>
    ensures { PushesLine Native at number (map lexeme line.now) fault out.old out.new result }
{
    let Named { name, written } = read_type(alloc, line, fault)?;
    out.push(Declaration::Native {
        at,
        name,
        written,
        number,
    })?;
    Ok(())
}

fn push_device(
    alloc: Global,
    at: At,
    line: &[Token<'_>],
    fault: TextFault,
    out: &mut Items<Declaration>,
) -> Result<(), Halt<TextFault>>
    ensures { (number : ℕ) → PushesLine Device at number (map lexeme line.now) fault out.old out.new result }
{
    let Named { name, written } = read_type(alloc, line, fault)?;
    out.push(Declaration::Device { at, name, written })?;
    Ok(())
}

fn names_of(alloc: Global, tokens: &[Token<'_>]) -> Result<Items<Name>, NoMemory>
    ensures { IfOk result (λ names. names ≡ map (λ t. t.text) (map lexeme tokens.now)) }
{
    let mut names = Items::new(alloc);
    for token in tokens {
        names.push(Name::of(alloc, token.text)?)?;
    }
    Ok(names)
}

fn push_opaque(
    alloc: Global,
    at: At,
    line: &[Token<'_>],
    fault: TextFault,
    out: &mut Items<Declaration>,
) -> Result<(), Halt<TextFault>>
    ensures { (number : ℕ) → PushesLine Opaque at number (map lexeme line.now) fault out.old out.new result }
{
    let [name, parameters @ ..] = line else {
        return Err(Halt::Because(fault));
    };
    let name = Name::of(alloc, name.text)?;
    let parameters = names_of(alloc, parameters)?;
    out.push(Declaration::Opaque {
        at,
        name,
        parameters,
    })?;
    Ok(())
}

/// Appends what the line of a mark declares, as the native of this number where it is one.
pub fn push_declared(
    alloc: Global,
    mark: Mark,
    first: &Token<'_>,
    line: &[Token<'_>],
    number: NativeId,
    out: &mut Items<Declaration>,
) -> Result<(), Halt<TextFault>>
    ensures { PushesLine mark (lexeme first.now).at number (map lexeme line.now)
        (bad_line (lexeme first.now)) out.old out.new result }
{
    let at = At {
        line: first.line,
        column: first.column,
    };
    let fault = TextFault {
        line: first.line,
        kind: FaultKind::BadDeclaration,
    };
    match mark {
        Mark::Native => push_native(alloc, at, number, line, fault, out),
        Mark::Device => push_device(alloc, at, line, fault, out),
        Mark::Opaque => push_opaque(alloc, at, line, fault, out),
    }
}
