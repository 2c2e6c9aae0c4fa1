//! Whole chunks of tokens, each from column 1 on, as one header, import or declaration.
ghost use Rattle.std.specs.Prelude.{◌≡◌};
ghost use Rattle.grammar.specs.Reader.{Reads};
ghost use Rattle.module_grammar.specs.DeclarationReader as spec;
ghost use Rattle.module_grammar.specs.ModuleReader as reading;

use crate::declarations::Declarations;
use crate::heads::{header, import};
use elm_base::{Declaration, Halt, Import};
use grammar::{Cursor, NoTree, verified};
use module_grammar::Header;
use std::alloc::Global;
use tree_nesting::{MOST_NESTING, declaration_nests_within};

/// A header that takes all of the chunk.
pub fn header_line(alloc: Global, chunk: &mut Cursor<'_>) -> Result<Header, Halt<NoTree>>
    ensures { Reads (spec.line spec.header chunk.old) result chunk.new }
{
    if !chunk.stands_in(1) {
        return Err(Halt::Because(NoTree));
    }
    let found = header(alloc, chunk)?;
    verified(found, chunk.is_empty(), Halt::Because(NoTree))
}

/// An import that takes all of the chunk.
pub fn import_line(alloc: Global, chunk: &mut Cursor<'_>) -> Result<Import, Halt<NoTree>>
    ensures { Reads (spec.line spec.import_ chunk.old) result chunk.new }
{
    if !chunk.stands_in(1) {
        return Err(Halt::Because(NoTree));
    }
    let found = import(alloc, chunk)?;
    verified(found, chunk.is_empty(), Halt::Because(NoTree))
}

/// A declaration that takes all of the chunk and nests within the limit. Types and expressions of it are read to the depth.
#[tactic(auto, unfolding(module_grammar::specs::ModuleReader::declaration_line))]
pub fn declaration_line(
    alloc: Global,
    depth: usize,
    chunk: &mut Cursor<'_>,
) -> Result<Declaration, Halt<NoTree>>
    ensures { Reads (reading.declaration_line depth chunk.old) result chunk.new }
{
    if !chunk.stands_in(1) {
        return Err(Halt::Because(NoTree));
    }
    let found = Declarations { alloc, depth }.declaration(chunk)?;
    let passes = chunk.is_empty() && declaration_nests_within(&found, MOST_NESTING);
    verified(found, passes, Halt::Because(NoTree))
}
