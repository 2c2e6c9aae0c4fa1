//! A module, chunk by chunk.
ghost use Rattle.std.specs.Prelude.{◌≡◌, ◌≢◌, ◌+◌, [], ◌∷◌, true, false, length, map, Some, None, IfOk, IfErr, MatchResult};
ghost use Rattle.elm_base.specs.declared.fault.FaultKind.TheVariants as kind;
ghost use Rattle.elm_base.specs.declared.memory.Halt.TheVariants as halt;
ghost use Rattle.elm_base.specs.declared.tree.Module.{Module};
ghost use Rattle.elm_base.specs.Lexemes.{lexeme};
ghost use Rattle.layout_lexer.specs.declared.place.TextFault.{TextFault};
ghost use Rattle.grammar.specs.Reader.{is_done};
ghost use Rattle.block_sizes.specs.BlockSizes.{defined_at, most_definitions, present};
ghost use Rattle.module_grammar.specs.Chunks.{chunks};
ghost use Rattle.module_grammar.specs.DeclarationReader.{line as line_parser, header as header_parser, import_ as import_parser};
ghost use Rattle.module_grammar.specs.Modules as modules;
ghost use Rattle.module_grammar.specs.Modules.{DerivesModule, FirstFault, Fit, Nest};
ghost use Rattle.module_grammar.specs.ModuleReader as spec;
ghost use Rattle.module_grammar.specs.ModuleReader.{Says, SaysOf};
ghost use Rattle.module_parser.specs.Saying.{Faulted, Passes, GivesNext, ImportsNext};

use block_sizes::{MOST_DEFINITIONS, defined_at, large_declaration, left_behind};
use declaration_parser::{declaration_line, header_line, import_line, own_name};
use elm_base::{At, Declaration, Exposing, FaultKind, Halt, Import, Module, Name, NoMemory, Token};
use grammar::{Cursor, NoTree, Terminal, paired};
use layout_lexer::TextFault;
use module_grammar::Header;
use sqlite_items::Items;
use std::alloc::Global;

/// Of a declaration that nests within the limit, so many whole types and expressions stand inside each other at most.
const DEPTH: usize = 101;

/// The line of the chunk's first token.
#[tactic(auto, unfolding(grammar::specs::Reader::here))]
fn line_of(chunk: &Cursor<'_>) -> Result<u32, NoMemory>
    ensures { IfOk result (λ line. line ≡ modules.line_of chunk.now) }
{
    match chunk.here() {
        Ok(at) => Ok(at.line),
        Err(Halt::Because(NoTree)) => Ok(0),
        Err(Halt::NoMemory) => Err(NoMemory),
    }
}

/// What was read, or the fault of this kind at the line.
fn or_fault<T: Drop>(
    read: Result<T, Halt<NoTree>>,
    line: u32,
    kind: FaultKind,
) -> Result<T, Halt<TextFault>>
    ensures { Faulted read line kind result }
{
    match read {
        Ok(found) => Ok(found),
        Err(Halt::Because(NoTree)) => Err(Halt::Because(TextFault { line, kind })),
        Err(Halt::NoMemory) => Err(Halt::NoMemory),
    }
}

/// The next chunk, which is passed over.
#[tactic(auto, using(crate::proofs::Steps::cut_off))]
fn next_chunk<'a>(tokens: &mut Cursor<'a>) -> Cursor<'a>
    requires { is_done tokens.old ≡ false }
    ensures { chunks tokens.old ≡ result ∷ chunks tokens.new }
{
    let len = tokens.extent(1);
    let chunk = tokens.front(len);
    tokens.advance(len);
    chunk
}

/// The chunk as a header.
fn header_of(alloc: Global, chunk: &mut Cursor<'_>) -> Result<Header, Halt<TextFault>>
    ensures { Says (spec.or_fault chunk.old kind.BadHeader
        (line_parser header_parser chunk.old)) result }
{
    let line = line_of(chunk)?;
    let read = header_line(alloc, chunk);
    or_fault(read, line, FaultKind::BadHeader)
}

/// The chunk as an import.
fn import_of(alloc: Global, chunk: &mut Cursor<'_>) -> Result<Import, Halt<TextFault>>
    ensures { Says (spec.or_fault chunk.old kind.BadHeader
        (line_parser import_parser chunk.old)) result }
{
    let line = line_of(chunk)?;
    let read = import_line(alloc, chunk);
    or_fault(read, line, FaultKind::BadHeader)
}

/// The chunk as a declaration.
fn declaration_of(
    alloc: Global,
    depth: usize,
    chunk: &mut Cursor<'_>,
) -> Result<Declaration, Halt<TextFault>>
    ensures { Says (spec.or_fault chunk.old kind.BadDeclaration
        (spec.declaration_line depth chunk.old)) result }
{
    let line = line_of(chunk)?;
    let read = declaration_line(alloc, depth, chunk);
    or_fault(read, line, FaultKind::BadDeclaration)
}

/// What stands for a header where there is none.
fn no_header(alloc: Global) -> Result<Header, NoMemory>
    ensures { IfOk result (λ header. header ≡ modules.no_header) }
{
    let name = Name::of(alloc, b"Main")?;
    Ok(Header {
        at: At { line: 1, column: 1 },
        name,
        exposes: Exposing::All,
    })
}

/// The header, if one stands there.
fn headed(alloc: Global, depth: usize, tokens: &mut Cursor<'_>) -> Result<Header, Halt<TextFault>>
    ensures { SaysOf (spec.headed depth (chunks tokens.old)) result tokens.new }
{
    if !tokens.sees(Terminal::Module) {
        return Ok(no_header(alloc)?);
    }
    let mut chunk = next_chunk(tokens);
    header_of(alloc, &mut chunk)
}

/// The next chunk as an import.
fn next_import(alloc: Global, tokens: &mut Cursor<'_>) -> Result<Import, Halt<TextFault>>
    requires { is_done tokens.old ≡ false }
    ensures { ImportsNext (chunks tokens.old) result (chunks tokens.new) }
{
    let mut chunk = next_chunk(tokens);
    import_of(alloc, &mut chunk)
}

/// The imports that stand next.
fn imports(
    alloc: Global,
    depth: usize,
    tokens: &mut Cursor<'_>,
) -> Result<Items<Import>, Halt<TextFault>>
    ensures { SaysOf (spec.imports depth (chunks tokens.old)) result tokens.new }
{
    let mut found = Items::new(alloc);
    'turns: while tokens.sees(Terminal::Import) {
        found.push(next_import(alloc, tokens)?)?;
    }
    Ok(found)
}

/// Whether both names are the same, and no colon stands next.
fn is_defined(name: &Name, found: &Name, tokens: &Cursor<'_>) -> bool
    ensures { result ≡ modules.is_named name.now (Some (found.now, tokens.now)) }
{
    name.bytes() == found.bytes() && !tokens.sees(Terminal::Colon)
}

/// Whether the next chunk begins with the name, and is no annotation.
fn begins_definition(alloc: Global, name: &Name, behind: &Cursor<'_>) -> Result<bool, NoMemory>
    ensures { IfOk result (λ begins.
        begins ≡ modules.begins_definition name.now (chunks behind.now)) }
{
    if behind.is_empty() {
        return Ok(false);
    }
    let mut next = behind.front(behind.extent(1));
    match own_name(alloc, &mut next) {
        Ok(found) => Ok(is_defined(name, &found, &next)),
        Err(Halt::Because(NoTree)) => Ok(false),
        Err(Halt::NoMemory) => Err(NoMemory),
    }
}

/// Whether it gives a port of this name its type.
fn is_port(tree: &Declaration, name: &Name) -> bool
    ensures { result ≡ modules.is_port name.now tree.now }
{
    match tree {
        Declaration::PortAnnotation { name: port, .. } => name.bytes() == port.name.bytes(),
        _ => false,
    }
}

/// Whether the last of the declarations gives a port of this name its type.
fn ends_in_port(before: &[Declaration], name: &Name) -> bool
    ensures { result ≡ modules.ends_in_port name.now before.now }
{
    match before {
        [] => false,
        [.., last] => is_port(last, name),
    }
}

/// Whether the declaration stands where it may.
fn stands(
    alloc: Global,
    before: &[Declaration],
    tree: &Declaration,
    behind: &Cursor<'_>,
) -> Result<bool, NoMemory>
    ensures { IfOk result (λ stands.
        stands ≡ modules.stands before.now (chunks behind.now) tree.now) }
{
    match tree {
        Declaration::Annotation { name, .. } => begins_definition(alloc, name, behind),
        Declaration::PortDefinition { name, .. } => Ok(ends_in_port(before, &name.name)),
        _ => Ok(true),
    }
}

/// How many more definitions may come behind the declaration, or the line at which one is too many.
fn room_behind(before: &[Declaration], left: usize, tree: &Declaration) -> Result<usize, u32>
    requires { left + modules.definitions before.now ≡ most_definitions }
    ensures { MatchResult result (λ next. (modules.too_large before.now tree.now ≡ None)
        × (next + length (present (defined_at tree.now ∷ [])) ≡ left))
        (λ line. modules.too_large before.now tree.now ≡ Some line) }
{
    let line = defined_at(tree);
    match left_behind(left, line) {
        None => Err(line.unwrap_or(0)),
        Some(next) => match large_declaration(tree) {
            None => Ok(next),
            Some(line) => Err(line),
        },
    }
}

/// How many more definitions may come behind the declaration, which is at the line, or its fault.
fn judged(
    alloc: Global,
    before: &[Declaration],
    left: usize,
    line: u32,
    tree: &Declaration,
    behind: &Cursor<'_>,
) -> Result<usize, Halt<TextFault>>
    requires { left + modules.definitions before.now ≡ most_definitions }
    ensures { Passes (spec.judged before.now line (chunks behind.now) tree.now)
        left tree.now result }
{
    if !stands(alloc, before, tree, behind)? {
        let kind = FaultKind::BadDeclaration;
        return Err(Halt::Because(TextFault { line, kind }));
    }
    match room_behind(before, left, tree) {
        Ok(next) => Ok(next),
        Err(line) => {
            let kind = FaultKind::TooLarge;
            Err(Halt::Because(TextFault { line, kind }))
        }
    }
}

/// The next chunk as a declaration behind those before it, and how many more definitions may come behind it.
fn next_declaration(
    alloc: Global,
    depth: usize,
    before: &[Declaration],
    left: usize,
    tokens: &mut Cursor<'_>,
) -> Result<(Declaration, usize), Halt<TextFault>>
    requires unread { is_done tokens.old ≡ false }
    requires room { left + modules.definitions before.now ≡ most_definitions }
    ensures { GivesNext (spec.declared depth before.now) left (chunks tokens.old)
        result (chunks tokens.new) }
{
    let mut chunk = next_chunk(tokens);
    let line = line_of(&chunk)?;
    if chunk.sees_any(&[Terminal::Module, Terminal::Import]) {
        let kind = FaultKind::BadHeader;
        return Err(Halt::Because(TextFault { line, kind }));
    }
    let found = declaration_of(alloc, depth, &mut chunk)?;
    let verdict = judged(alloc, before, left, line, &found, tokens);
    paired(found, verdict)
}

/// The declarations that are left.
fn declarations(
    alloc: Global,
    depth: usize,
    tokens: &mut Cursor<'_>,
) -> Result<Items<Declaration>, Halt<TextFault>>
    ensures { Says (spec.declarations depth [] (chunks tokens.old)) result }
{
    let mut found = Items::new(alloc);
    let mut left = MOST_DEFINITIONS;
    'turns: while !tokens.is_empty() {
        let (next, room) = next_declaration(alloc, depth, found.as_slice(), left, tokens)?;
        found.push(next)?;
        left = room;
    }
    Ok(found)
}

/// A module to a depth.
fn read(alloc: Global, depth: usize, tokens: &[Token<'_>]) -> Result<Module, Halt<TextFault>>
    ensures { Says (spec.read depth (chunks (map lexeme tokens.now))) result }
{
    let mut left = Cursor::new(tokens);
    let header = headed(alloc, depth, &mut left)?;
    let imports = imports(alloc, depth, &mut left)?;
    let declarations = declarations(alloc, depth, &mut left)?;
    let Header { at, name, exposes } = header;
    Ok(Module {
        at,
        name,
        exposes,
        imports,
        declarations,
    })
}

/// The one module that the tokens stand for, where its declarations nest at most 100 deep and no block has more than 5,000
/// definitions; or the fault of the first chunk that is wrong. Each token in column 1 begins a chunk.
pub fn module(alloc: Global, tokens: &[Token<'_>]) -> Result<Module, Halt<TextFault>>
    ensures derives { IfOk result (λ tree. DerivesModule (map lexeme tokens.now) tree) }
    ensures nests { IfOk result (λ tree. Nest tree.declarations) }
    ensures fits { IfOk result (λ tree. Fit tree.declarations) }
    // A module that derives within the limits is given, unless memory runs out.
    ensures found { (tree : Module) → DerivesModule (map lexeme tokens.now) tree
        → Nest tree.declarations → Fit tree.declarations
        → MatchResult result (λ found. found ≡ tree) (λ cause. cause ≡ halt.NoMemory) }
    // What is refused is the first fault, and the first fault is refused.
    ensures refused { IfErr result (λ cause. (fault : TextFault) → cause ≡ halt.Because fault
        → FirstFault (map lexeme tokens.now) fault) }
    ensures faulty { (fault : TextFault) → FirstFault (map lexeme tokens.now) fault
        → MatchResult result (λ found. ⊥)
        (λ cause. cause ≢ halt.NoMemory → cause ≡ halt.Because fault) }
{
    read(alloc, DEPTH, tokens)
}
