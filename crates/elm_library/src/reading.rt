//! The texts of the library, read in order.
ghost use Rattle.std.specs.Prelude.{◌≡◌, map, IfOk, IfErr};
ghost use Rattle.elm_base.specs.Lexemes.{lexeme};
ghost use Rattle.layout_lexer.specs.Tokens.{OnBecause};
ghost use Rattle.elm_library.specs.Reading as spec;
ghost use Rattle.elm_library.specs.Reaching.{IsNextLine, PushesModule, ReadsLines, ReadsText, RefusesFor};

use crate::line::push_declared;
use crate::mark::{Mark, line_len, mark_of, number_behind};
use crate::source::Source;
use elm_base::{Declaration, Halt, Module, Name, NativeId, NoMemory, ProjectFault, Token};
use layout_lexer::{TextFault, tokens};
use module_parser::module;
use sqlite_items::Items;
use std::alloc::Global;

/// The first line, and the tokens behind it.
#[derive(Clone, Copy)]
struct Line<'b, 'a> {
    mark: Mark,
    first: &'b Token<'a>,
    line: &'b [Token<'a>],
    behind: &'b [Token<'a>],
}

/// The first line, where the tokens begin with one.
fn next_line<'b, 'a>(tokens: &'b [Token<'a>]) -> Option<Line<'b, 'a>>
    ensures { IsNextLine (map lexeme tokens.now) result }
{
    let [first, more @ ..] = tokens else {
        return None;
    };
    let mark = mark_of(first)?;
    let (line, behind) = more.split_at(line_len(more));
    Some(Line {
        mark,
        first,
        line,
        behind,
    })
}

/// Appends what the lines in front declare, and gives the tokens behind them. It goes as deep as there are lines.
fn read_lines<'b, 'a>(
    alloc: Global,
    tokens: &'b [Token<'a>],
    number: &mut NativeId,
    out: &mut Items<Declaration>,
) -> Result<&'b [Token<'a>], Halt<TextFault>>
    ensures { ReadsLines number.old (map lexeme tokens.now) out.old number.new out.new result }
{
    match next_line(tokens) {
        None => Ok(tokens),
        Some(next) => {
            push_declared(alloc, next.mark, next.first, next.line, *number, out)?;
            *number = number_behind(next.mark, *number);
            read_lines(alloc, next.behind, number, out)
        }
    }
}

/// The module with these declarations in front of its own.
fn with_lines(mut lines: Items<Declaration>, mut own: Module) -> Result<Module, NoMemory>
    ensures { IfOk result (λ found. found ≡ spec.with_lines lines own) }
{
    lines.append(own.declarations)?;
    own.declarations = lines;
    Ok(own)
}

/// The module of a text, whose natives are numbered from a number on, or its first fault.
fn read_text(alloc: Global, text: &[u8], number: &mut NativeId) -> Result<Module, Halt<TextFault>>
    ensures { ReadsText number.old text.now number.new result }
{
    let found = tokens(alloc, text)?;
    let mut lines = Items::new(alloc);
    let rest = read_lines(alloc, found.as_slice(), number, &mut lines)?;
    let own = module(alloc, rest)?;
    Ok(with_lines(lines, own)?)
}

fn fault_in(alloc: Global, source: &Source, fault: TextFault) -> Result<ProjectFault, NoMemory>
    ensures { IfOk result (λ found. found ≡ spec.fault_in source.now fault) }
{
    Ok(ProjectFault {
        module: Name::of(alloc, source.name.as_bytes())?,
        line: fault.line,
        kind: fault.kind,
        name: Name::of(alloc, b"")?,
    })
}

// The text's fault as one of the project, in the module of its name.
fn refused(alloc: Global, source: &Source, halt: Halt<TextFault>) -> Halt<ProjectFault>
    ensures { RefusesFor source.now halt result }
{
    match halt {
        Halt::Because(fault) => match fault_in(alloc, source, fault) {
            Ok(fault) => Halt::Because(fault),
            Err(NoMemory) => Halt::NoMemory,
        },
        Halt::NoMemory => Halt::NoMemory,
    }
}

/// Appends the module of a text.
fn push_module(
    alloc: Global,
    source: &Source,
    number: &mut NativeId,
    out: &mut Items<Module>,
) -> Result<(), Halt<ProjectFault>>
    ensures { PushesModule number.old source.now number.new out.old out.new result }
{
    match read_text(alloc, source.text.as_bytes(), number) {
        Ok(found) => {
            out.push(found)?;
            Ok(())
        }
        Err(halt) => Err(refused(alloc, source, halt)),
    }
}

/// The modules of these texts, in order; natives are numbered through all of them. Or the fault of the first text that has
/// one, in the module of its name: of its tokens, of a line in front of its header, or of the module.
pub fn read(alloc: Global, sources: &[Source]) -> Result<Items<Module>, Halt<ProjectFault>>
    ensures modules { IfOk result (λ found. spec.AreModules 0 sources.now found) }
    ensures refused { IfErr result (λ halt. OnBecause halt (spec.IsLibraryFault 0 sources.now)) }
{
    let mut number = 0;
    let mut found = Items::new(alloc);
    for source in sources {
        push_module(alloc, source, &mut number, &mut found)?;
    }
    Ok(found)
}
