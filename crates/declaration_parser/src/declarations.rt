//! Declarations, each as one tree.
ghost use Rattle.std.specs.Prelude.{◌≡◌, true, false, [], ◌∷◌, MatchOption};
ghost use Rattle.grammar.specs.declared.terminal.Terminal.TheVariants as k;
ghost use Rattle.grammar.specs.Reader as reader;
ghost use Rattle.grammar.specs.Reader.{Reads, many, with_front};
ghost use Rattle.pattern_parser.specs.TypeReader as types;
ghost use Rattle.expr_grammar.specs.ExprReader as exprs;
ghost use Rattle.expr_grammar.specs.ExprReader.{below};
ghost use Rattle.expr_parser.specs.Places.{placed, placed_round};
ghost use Rattle.module_grammar.specs.Declarations as grammar;
ghost use Rattle.module_grammar.specs.DeclarationReader as spec;

use crate::names::{own_name, upper, upper_spot, variables};
use elm_base::{At, Constructor, Declaration, Expr, Halt, Name, Pattern, Side, Spot, TypeTree};
use expr_parser::{operator, tree_at};
use grammar::{Cursor, NoTree, Terminal, many, many_more};
use pattern_parser::{arguments_at, part_at, type_at};
use sqlite_items::Items;
use std::alloc::Global;

/// What a parameter begins with.
const PATTERNS: [Terminal; 9] = [
    Terminal::Upper,
    Terminal::Underscore,
    Terminal::Lower,
    Terminal::Int,
    Terminal::Char,
    Terminal::Text,
    Terminal::LeftBracket,
    Terminal::LeftParen,
    Terminal::LeftBrace,
];

/// What the declaration of a level begins with.
const LEVELS: [Terminal; 3] = [Terminal::Infixl, Terminal::Infixr, Terminal::Infix];

/// The level that the number is, if it is one.
fn level_of(value: i64) -> Option<u32>
    ensures { MatchOption result (grammar.is_level value ≡ false)
        (λ level. (grammar.is_level value ≡ true) × (level ≡ grammar.level_of value)) }
{
    match value {
        0..=9 => Some(value as u32),
        _ => None,
    }
}

#[tactic(auto, unfolding(module_grammar::specs::DeclarationReader::level))]
fn level(tokens: &mut Cursor<'_>) -> Result<u32, Halt<NoTree>>
    ensures { Reads (spec.level tokens.old) result tokens.new }
{
    let value = tokens.int()?;
    match level_of(value) {
        None => Err(Halt::Because(NoTree)),
        Some(level) => Ok(level),
    }
}

#[tactic(auto, unfolding(module_grammar::specs::DeclarationReader::left_grouping))]
fn left_grouping(tokens: &mut Cursor<'_>) -> Result<Side, Halt<NoTree>>
    ensures { Reads (spec.left_grouping tokens.old) result tokens.new }
{
    tokens.expect(Terminal::Infixl)?;
    Ok(Side::Left)
}

#[tactic(auto, unfolding(module_grammar::specs::DeclarationReader::right_grouping))]
fn right_grouping(tokens: &mut Cursor<'_>) -> Result<Side, Halt<NoTree>>
    ensures { Reads (spec.right_grouping tokens.old) result tokens.new }
{
    tokens.expect(Terminal::Infixr)?;
    Ok(Side::Right)
}

#[tactic(auto, unfolding(module_grammar::specs::DeclarationReader::no_grouping))]
fn no_grouping(tokens: &mut Cursor<'_>) -> Result<Side, Halt<NoTree>>
    ensures { Reads (spec.no_grouping tokens.old) result tokens.new }
{
    tokens.expect(Terminal::Infix)?;
    Ok(Side::Neither)
}

#[tactic(auto, unfolding(module_grammar::specs::DeclarationReader::grouping))]
fn grouping(tokens: &mut Cursor<'_>) -> Result<Side, Halt<NoTree>>
    ensures { Reads (spec.grouping tokens.old) result tokens.new }
{
    if tokens.sees(Terminal::Infixl) {
        left_grouping(tokens)
    } else if tokens.sees(Terminal::Infixr) {
        right_grouping(tokens)
    } else {
        no_grouping(tokens)
    }
}

/// The level and side of an operator.
#[tactic(auto, unfolding(module_grammar::specs::DeclarationReader::levels))]
fn levels(alloc: Global, tokens: &mut Cursor<'_>) -> Result<Declaration, Halt<NoTree>>
    ensures { Reads (spec.levels tokens.old) result tokens.new }
{
    let at = tokens.here()?;
    let side = grouping(tokens)?;
    let level = level(tokens)?;
    let operator = operator(alloc, tokens)?;
    Ok(Declaration::Levels {
        at,
        side,
        level,
        operator,
    })
}

/// The declarations in which types and expressions may nest to a depth.
#[derive(Clone, Copy)]
pub struct Declarations {
    pub alloc: Global,
    pub depth: usize,
}

impl Declarations {
    fn type_behind(
        &self,
        symbol: Terminal,
        tokens: &mut Cursor<'_>,
    ) -> Result<TypeTree, Halt<NoTree>>
        ensures { Reads
            ((reader.◌▷◌ (reader.mark symbol) (types.type_at self.now.depth)) tokens.old)
            result tokens.new }
    {
        tokens.expect(symbol)?;
        type_at(self.alloc, self.depth, tokens)
    }

    fn body(&self, tokens: &mut Cursor<'_>) -> Result<Expr, Halt<NoTree>>
        ensures { Reads
            ((reader.◌▷◌ (reader.mark k.Equals) (exprs.tree_at false self.now.depth)) tokens.old)
            result tokens.new }
    {
        tokens.expect(Terminal::Equals)?;
        tree_at(self.alloc, false, self.depth, tokens)
    }

    #[tactic(auto, unfolding(module_grammar::specs::DeclarationReader::constructor))]
    fn constructor(&self, tokens: &mut Cursor<'_>) -> Result<Constructor, Halt<NoTree>>
        ensures { Reads (spec.constructor (below self.now.depth) tokens.old) result tokens.new }
    {
        let at = tokens.here()?;
        let name = upper(self.alloc, tokens)?;
        let arguments = arguments_at(self.alloc, self.depth, tokens)?;
        Ok(Constructor {
            at,
            name,
            arguments,
        })
    }

    #[tactic(auto, unfolding(module_grammar::specs::DeclarationReader::next_constructor))]
    fn next_constructor(&self, tokens: &mut Cursor<'_>) -> Result<Constructor, Halt<NoTree>>
        ensures { Reads (spec.next_constructor (below self.now.depth) tokens.old)
            result tokens.new }
    {
        tokens.expect(Terminal::Bar)?;
        self.constructor(tokens)
    }

    /// The first constructor, and those behind it, each after a bar.
    fn constructors_from(
        &self,
        first: Constructor,
        tokens: &mut Cursor<'_>,
    ) -> Result<Items<Constructor>, Halt<NoTree>>
        ensures { Reads (with_front (first ∷ []) (many (k.Bar ∷ [])
            (spec.next_constructor (below self.now.depth)) tokens.old)) result tokens.new }
    {
        let mut found = Items::new(self.alloc);
        found.push(first)?;
        let next = |tokens: &mut Cursor<'_>| self.next_constructor(tokens);
        many_more(found, &[Terminal::Bar], next, tokens)
    }

    #[tactic(auto, unfolding(module_grammar::specs::DeclarationReader::constructors))]
    fn constructors(&self, tokens: &mut Cursor<'_>) -> Result<Items<Constructor>, Halt<NoTree>>
        ensures { Reads (spec.constructors (below self.now.depth) tokens.old) result tokens.new }
    {
        let first = self.constructor(tokens)?;
        self.constructors_from(first, tokens)
    }

    #[tactic(auto, unfolding(module_grammar::specs::DeclarationReader::union))]
    fn union(&self, at: At, tokens: &mut Cursor<'_>) -> Result<Declaration, Halt<NoTree>>
        ensures { Reads (placed at (spec.union (below self.now.depth)) tokens.old)
            result tokens.new }
    {
        let name = upper_spot(self.alloc, tokens)?;
        let parameters = variables(self.alloc, tokens)?;
        tokens.expect(Terminal::Equals)?;
        let constructors = self.constructors(tokens)?;
        Ok(Declaration::Union {
            at,
            name,
            parameters,
            constructors,
        })
    }

    #[tactic(auto, unfolding(module_grammar::specs::DeclarationReader::alias))]
    fn alias(&self, at: At, tokens: &mut Cursor<'_>) -> Result<Declaration, Halt<NoTree>>
        ensures { Reads (placed at (spec.alias (below self.now.depth)) tokens.old)
            result tokens.new }
    {
        tokens.expect(Terminal::Alias)?;
        let name = upper_spot(self.alloc, tokens)?;
        let parameters = variables(self.alloc, tokens)?;
        let written = self.type_behind(Terminal::Equals, tokens)?;
        Ok(Declaration::Alias {
            at,
            name,
            parameters,
            written,
        })
    }

    #[tactic(auto, unfolding(module_grammar::specs::DeclarationReader::type_declaration))]
    fn type_declaration(&self, tokens: &mut Cursor<'_>) -> Result<Declaration, Halt<NoTree>>
        ensures { Reads (spec.type_declaration (below self.now.depth) tokens.old)
            result tokens.new }
    {
        let at = tokens.here()?;
        tokens.expect(Terminal::Type)?;
        if tokens.sees(Terminal::Alias) {
            self.alias(at, tokens)
        } else {
            self.union(at, tokens)
        }
    }

    /// Behind the name of a port: its type.
    #[tactic(auto, unfolding(module_grammar::specs::DeclarationReader::port_annotated))]
    fn port_annotated(
        &self,
        at: At,
        name: Spot,
        tokens: &mut Cursor<'_>,
    ) -> Result<Declaration, Halt<NoTree>>
        ensures { Reads (placed_round at name
            (spec.port_annotated (below self.now.depth)) tokens.old) result tokens.new }
    {
        let written = self.type_behind(Terminal::Colon, tokens)?;
        Ok(Declaration::PortAnnotation { at, name, written })
    }

    /// Behind the name of a port: what it carries.
    #[tactic(auto, unfolding(module_grammar::specs::DeclarationReader::port_defined))]
    fn port_defined(
        &self,
        at: At,
        name: Spot,
        tokens: &mut Cursor<'_>,
    ) -> Result<Declaration, Halt<NoTree>>
        ensures { Reads (placed_round at name
            (spec.port_defined (below self.now.depth)) tokens.old) result tokens.new }
    {
        let body = self.body(tokens)?;
        Ok(Declaration::PortDefinition { at, name, body })
    }

    #[tactic(auto, unfolding(module_grammar::specs::DeclarationReader::port))]
    fn port(&self, tokens: &mut Cursor<'_>) -> Result<Declaration, Halt<NoTree>>
        ensures { Reads (spec.port (below self.now.depth) tokens.old) result tokens.new }
    {
        let at = tokens.here()?;
        tokens.expect(Terminal::Port)?;
        let name = tokens.spot(self.alloc)?;
        if tokens.sees(Terminal::Colon) {
            self.port_annotated(at, name, tokens)
        } else {
            self.port_defined(at, name, tokens)
        }
    }

    fn parameters(&self, tokens: &mut Cursor<'_>) -> Result<Items<Pattern>, Halt<NoTree>>
        ensures { Reads (exprs.parameters (below self.now.depth) tokens.old) result tokens.new }
    {
        let alloc = self.alloc;
        let depth = self.depth;
        let next = |tokens: &mut Cursor<'_>| part_at(alloc, depth, tokens);
        many(alloc, &PATTERNS, next, tokens)
    }

    /// Behind a name: the type that it is to have.
    #[tactic(auto, unfolding(expr_grammar::specs::ExprReader::annotated))]
    fn annotated(
        &self,
        at: At,
        name: Name,
        tokens: &mut Cursor<'_>,
    ) -> Result<Declaration, Halt<NoTree>>
        ensures { Reads (placed_round at name
            (exprs.annotated (below self.now.depth)) tokens.old) result tokens.new }
    {
        let written = self.type_behind(Terminal::Colon, tokens)?;
        Ok(Declaration::Annotation { at, name, written })
    }

    /// Behind a name: the parameters and the body of its definition.
    #[tactic(auto, unfolding(expr_grammar::specs::ExprReader::defined))]
    fn defined(
        &self,
        at: At,
        name: Name,
        tokens: &mut Cursor<'_>,
    ) -> Result<Declaration, Halt<NoTree>>
        ensures { Reads (placed_round at name
            (exprs.defined (below self.now.depth)) tokens.old) result tokens.new }
    {
        let patterns = self.parameters(tokens)?;
        let body = self.body(tokens)?;
        Ok(Declaration::Definition {
            at,
            name,
            patterns,
            body,
        })
    }

    #[tactic(auto, unfolding(module_grammar::specs::DeclarationReader::named_declaration))]
    fn named_declaration(&self, tokens: &mut Cursor<'_>) -> Result<Declaration, Halt<NoTree>>
        ensures { Reads (spec.named_declaration (below self.now.depth) tokens.old)
            result tokens.new }
    {
        let at = tokens.here()?;
        let name = own_name(self.alloc, tokens)?;
        if tokens.sees(Terminal::Colon) {
            self.annotated(at, name, tokens)
        } else {
            self.defined(at, name, tokens)
        }
    }

    #[tactic(auto, unfolding(module_grammar::specs::DeclarationReader::declaration))]
    pub fn declaration(&self, tokens: &mut Cursor<'_>) -> Result<Declaration, Halt<NoTree>>
        ensures { Reads (spec.declaration (below self.now.depth) tokens.old) result tokens.new }
    {
        if tokens.sees(Terminal::Type) {
            self.type_declaration(tokens)
        } else if tokens.sees(Terminal::Port) {
            self.port(tokens)
        } else if tokens.sees_any(&LEVELS) {
            levels(self.alloc, tokens)
        } else {
            self.named_declaration(tokens)
        }
    }
}
