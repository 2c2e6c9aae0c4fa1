//! Patterns as trees.
ghost use Rattle.std.specs.Prelude.{◌≡◌, ◌≢◌, ◌≤◌, [], ◌∷◌, List, Option, Some, None, map, IfOk, IfErr, MatchResult};
ghost use Rattle.elm_base.specs.declared.memory.Halt.TheVariants as halt;
ghost use Rattle.elm_base.specs.declared.tree.Pattern.{Pattern};
ghost use Rattle.elm_base.specs.Lexemes.{Lexeme, lexeme};
ghost use Rattle.grammar.specs.Terminals.{starts};
ghost use Rattle.grammar.specs.Reader.{Reads, with_front};
ghost use Rattle.grammar.specs.Lists as list;
ghost use Rattle.grammar.specs.Reader as reader;
ghost use Rattle.tree_nesting.specs.Nesting.{max_nesting, pattern_nesting};
ghost use Rattle.pattern_parser.specs.Patterns as grammar;
ghost use Rattle.pattern_parser.specs.Patterns.{DerivesPattern};
ghost use Rattle.pattern_parser.specs.PatternReader as spec;
ghost use Rattle.pattern_parser.specs.PatternCalls.{ReadsPatterns};

use elm_base::{At, Halt, Pattern, Spot, Token};
use grammar::{
    Cursor, MOST_PARTS, NoTree, Terminal, boxed_pair, entire, many, paired, separated, terminated,
    verified,
};
use sqlite_items::{Boxed, Items};
use std::alloc::{AllocError, Global};
use tree_nesting::{MOST_NESTING, pattern_nests_within};

/// What a pattern begins with, as well as a part of one.
const PATTERNS: [Terminal; 9] = [
    Terminal::Upper,
    Terminal::Underscore,
    Terminal::Lower,
    Terminal::Int,
    Terminal::Char,
    Terminal::Text,
    Terminal::LeftBracket,
    Terminal::LeftParen,
    Terminal::LeftBrace,
];

const LITERALS: [Terminal; 3] = [Terminal::Int, Terminal::Char, Terminal::Text];

/// Of a pattern that nests within the limit, so many patterns without `as` stand inside each other at most.
const DEPTH: usize = 101;

#[tactic(auto, unfolding(crate::specs::PatternReader::anything))]
fn anything(tokens: &mut Cursor<'_>) -> Result<Pattern, Halt<NoTree>>
    ensures { Reads (spec.anything tokens.old) result tokens.new }
{
    let at = tokens.here()?;
    tokens.expect(Terminal::Underscore)?;
    Ok(Pattern::Anything { at })
}

#[tactic(auto, unfolding(crate::specs::PatternReader::variable))]
fn variable(alloc: Global, tokens: &mut Cursor<'_>) -> Result<Pattern, Halt<NoTree>>
    ensures { Reads (spec.variable tokens.old) result tokens.new }
{
    let at = tokens.here()?;
    let name = tokens.name(alloc, Terminal::Lower)?;
    Ok(Pattern::Variable { at, name })
}

#[tactic(auto, unfolding(crate::specs::PatternReader::int))]
fn int(tokens: &mut Cursor<'_>) -> Result<Pattern, Halt<NoTree>>
    ensures { Reads (spec.int tokens.old) result tokens.new }
{
    let at = tokens.here()?;
    let value = tokens.int()?;
    Ok(Pattern::Int { at, value })
}

#[tactic(auto, unfolding(crate::specs::PatternReader::char_))]
fn character(alloc: Global, tokens: &mut Cursor<'_>) -> Result<Pattern, Halt<NoTree>>
    ensures { Reads (spec.char_ tokens.old) result tokens.new }
{
    let at = tokens.here()?;
    let value = tokens.character(alloc)?;
    Ok(Pattern::Char { at, value })
}

#[tactic(auto, unfolding(crate::specs::PatternReader::text))]
fn text(alloc: Global, tokens: &mut Cursor<'_>) -> Result<Pattern, Halt<NoTree>>
    ensures { Reads (spec.text tokens.old) result tokens.new }
{
    let at = tokens.here()?;
    let value = tokens.text(alloc)?;
    Ok(Pattern::Text { at, value })
}

#[tactic(auto, unfolding(crate::specs::PatternReader::literal))]
fn literal(alloc: Global, tokens: &mut Cursor<'_>) -> Result<Pattern, Halt<NoTree>>
    ensures { Reads (spec.literal tokens.old) result tokens.new }
{
    if tokens.sees(Terminal::Int) {
        int(tokens)
    } else if tokens.sees(Terminal::Char) {
        character(alloc, tokens)
    } else {
        text(alloc, tokens)
    }
}

/// A constructor without parts.
#[tactic(auto, unfolding(crate::specs::PatternReader::bare))]
fn bare(alloc: Global, tokens: &mut Cursor<'_>) -> Result<Pattern, Halt<NoTree>>
    ensures { Reads (spec.bare tokens.old) result tokens.new }
{
    let at = tokens.here()?;
    let constructor = tokens.name(alloc, Terminal::Upper)?;
    let parts = Items::new(alloc);
    Ok(Pattern::Made {
        at,
        constructor,
        parts,
    })
}

/// One or more names with commas between.
fn spots(alloc: Global, tokens: &mut Cursor<'_>) -> Result<Items<Spot>, Halt<NoTree>>
    ensures { Reads (list.separated reader.spot tokens.old) result tokens.new }
{
    let spot = |tokens: &mut Cursor<'_>| tokens.spot(alloc);
    separated(alloc, spot, tokens)
}

/// The labels of a record.
#[tactic(auto, unfolding(crate::specs::PatternReader::labels))]
pub fn labels(alloc: Global, tokens: &mut Cursor<'_>) -> Result<Pattern, Halt<NoTree>>
    ensures { Reads (spec.labels tokens.old) result tokens.new }
{
    let at = tokens.here()?;
    tokens.expect(Terminal::LeftBrace)?;
    let labels = terminated(spots(alloc, tokens)?, tokens, Terminal::RightBrace)?;
    Ok(Pattern::Fields { at, labels })
}

/// The name behind `as`, if one stands there.
#[tactic(auto, unfolding(crate::specs::PatternReader::alias))]
fn alias(alloc: Global, tokens: &mut Cursor<'_>) -> Result<Option<Spot>, Halt<NoTree>>
    ensures { Reads (spec.alias tokens.old) result tokens.new }
{
    if tokens.sees(Terminal::As) {
        tokens.expect(Terminal::As)?;
        Ok(Some(tokens.spot(alloc)?))
    } else {
        Ok(None)
    }
}

/// Whether the next token begins a pattern, as well as a part of one.
pub fn begins_pattern(tokens: &Cursor<'_>) -> bool
    ensures { result ≡ starts spec.patterns_begin tokens.now }
{
    tokens.sees_any(&PATTERNS)
}

/// What brackets round these patterns make.
fn enclosed(alloc: Global, at: At, mut parts: Items<Pattern>) -> Result<Pattern, AllocError>
    ensures { IfOk result (λ tree. tree ≡ grammar.enclosed (at, parts)) }
{
    if parts.is_empty() {
        return Ok(Pattern::Unit { at });
    }
    if parts.len() == 1 {
        let inner = Boxed::new(alloc, parts.remove(0))?;
        return Ok(Pattern::Brackets { at, inner });
    }
    Ok(Pattern::Tuple { at, parts })
}

fn consed(
    alloc: Global,
    at: At,
    head: Pattern,
    tail: Option<Pattern>,
) -> Result<Pattern, AllocError>
    ensures { IfOk result (λ tree. tree ≡ grammar.consed (at, (head, tail))) }
{
    match tail {
        None => Ok(head),
        Some(tail) => {
            let (head, tail) = boxed_pair(alloc, head, tail)?;
            Ok(Pattern::Cons { at, head, tail })
        }
    }
}

fn named(alloc: Global, at: At, inner: Pattern, name: Option<Spot>) -> Result<Pattern, AllocError>
    ensures { IfOk result (λ tree. tree ≡ grammar.named (at, (inner, name))) }
{
    match name {
        None => Ok(inner),
        Some(name) => {
            let inner = Boxed::new(alloc, inner)?;
            Ok(Pattern::Named { at, inner, name })
        }
    }
}

/// The rules of patterns over `cons`, which reads a pattern without `as` that needs at most `depth` such patterns inside
/// each other.
#[derive(Clone, Copy)]
pub struct Patterns<F> {
    alloc: Global,
    depth: usize,
    cons: F,
}

/// A pattern without `as` that needs at most `depth` such patterns inside each other.
pub fn cons_at(
    alloc: Global,
    depth: usize,
    tokens: &mut Cursor<'_>,
) -> Result<Pattern, Halt<NoTree>>
    ensures { Reads (spec.cons_at depth tokens.old) result tokens.new }
{
    if depth == 0 {
        return Err(Halt::Because(NoTree));
    }
    Patterns {
        alloc,
        depth: depth - 1,
        cons: cons_at,
    }
    .level(tokens)
}

/// A pattern that needs at most `depth` patterns without `as` inside each other.
pub fn pattern_at(
    alloc: Global,
    depth: usize,
    tokens: &mut Cursor<'_>,
) -> Result<Pattern, Halt<NoTree>>
    ensures { Reads (spec.whole (spec.cons_at depth) tokens.old) result tokens.new }
{
    Patterns {
        alloc,
        depth,
        cons: cons_at,
    }
    .whole(tokens)
}

/// A pattern that may stand as a part of a constructor, and so as a parameter, to the same depth.
pub fn part_at(
    alloc: Global,
    depth: usize,
    tokens: &mut Cursor<'_>,
) -> Result<Pattern, Halt<NoTree>>
    ensures { Reads (spec.part (spec.cons_at depth) tokens.old) result tokens.new }
{
    Patterns {
        alloc,
        depth,
        cons: cons_at,
    }
    .part(tokens)
}

/// `()`, a pattern in brackets, or a tuple, to the same depth.
pub fn brackets_at(
    alloc: Global,
    depth: usize,
    tokens: &mut Cursor<'_>,
) -> Result<Pattern, Halt<NoTree>>
    ensures { Reads (spec.brackets (spec.cons_at depth) tokens.old) result tokens.new }
{
    Patterns {
        alloc,
        depth,
        cons: cons_at,
    }
    .brackets(tokens)
}

impl<F: Fn(Global, usize, &mut Cursor<'_>) -> Result<Pattern, Halt<NoTree>>> Patterns<F> {
    fn cons(&self, tokens: &mut Cursor<'_>) -> Result<Pattern, Halt<NoTree>>
        requires { ReadsPatterns self.now.depth (F.pre self.now.cons) (F.post self.now.cons) }
        ensures { Reads (spec.cons_at self.now.depth tokens.old) result tokens.new }
    {
        (self.cons)(self.alloc, self.depth, tokens)
    }

    /// A pattern, with `as` or without.
    #[tactic(auto, unfolding(crate::specs::PatternReader::whole))]
    fn whole(&self, tokens: &mut Cursor<'_>) -> Result<Pattern, Halt<NoTree>>
        requires { ReadsPatterns self.now.depth (F.pre self.now.cons) (F.post self.now.cons) }
        ensures { Reads (spec.whole (spec.cons_at self.now.depth) tokens.old) result tokens.new }
    {
        let at = tokens.here()?;
        let (inner, name) = paired(self.cons(tokens)?, alias(self.alloc, tokens))?;
        Ok(named(self.alloc, at, inner, name)?)
    }

    /// One or more patterns with commas between.
    fn patterns(&self, tokens: &mut Cursor<'_>) -> Result<Items<Pattern>, Halt<NoTree>>
        requires { ReadsPatterns self.now.depth (F.pre self.now.cons) (F.post self.now.cons) }
        ensures { Reads (list.separated (spec.whole (spec.cons_at self.now.depth)) tokens.old) result tokens.new }
    {
        let whole = |tokens: &mut Cursor<'_>| self.whole(tokens);
        separated(self.alloc, whole, tokens)
    }

    #[tactic(auto, unfolding(crate::specs::PatternReader::any_patterns))]
    fn any_patterns(&self, tokens: &mut Cursor<'_>) -> Result<Items<Pattern>, Halt<NoTree>>
        requires { ReadsPatterns self.now.depth (F.pre self.now.cons) (F.post self.now.cons) }
        ensures { Reads (spec.any_patterns (spec.cons_at self.now.depth) tokens.old) result tokens.new }
    {
        if begins_pattern(tokens) {
            self.patterns(tokens)
        } else {
            Ok(Items::new(self.alloc))
        }
    }

    #[tactic(auto, unfolding(crate::specs::PatternReader::list))]
    fn list(&self, tokens: &mut Cursor<'_>) -> Result<Pattern, Halt<NoTree>>
        requires { ReadsPatterns self.now.depth (F.pre self.now.cons) (F.post self.now.cons) }
        ensures { Reads (spec.list (spec.cons_at self.now.depth) tokens.old) result tokens.new }
    {
        let at = tokens.here()?;
        tokens.expect(Terminal::LeftBracket)?;
        let parts = terminated(self.any_patterns(tokens)?, tokens, Terminal::RightBracket)?;
        Ok(Pattern::List { at, parts })
    }

    #[tactic(auto, unfolding(crate::specs::PatternReader::inside_brackets))]
    fn inside_brackets(&self, tokens: &mut Cursor<'_>) -> Result<Items<Pattern>, Halt<NoTree>>
        requires { ReadsPatterns self.now.depth (F.pre self.now.cons) (F.post self.now.cons) }
        ensures { Reads (spec.inside_brackets (spec.cons_at self.now.depth) tokens.old) result tokens.new }
    {
        let found = self.any_patterns(tokens)?;
        let is_tuple = found.len() <= MOST_PARTS;
        verified(found, is_tuple, Halt::Because(NoTree))
    }

    /// `()`, a pattern in brackets, or a tuple.
    #[tactic(auto, unfolding(crate::specs::PatternReader::brackets))]
    fn brackets(&self, tokens: &mut Cursor<'_>) -> Result<Pattern, Halt<NoTree>>
        requires { ReadsPatterns self.now.depth (F.pre self.now.cons) (F.post self.now.cons) }
        ensures { Reads (spec.brackets (spec.cons_at self.now.depth) tokens.old) result tokens.new }
    {
        let at = tokens.here()?;
        tokens.expect(Terminal::LeftParen)?;
        let parts = terminated(self.inside_brackets(tokens)?, tokens, Terminal::RightParen)?;
        Ok(enclosed(self.alloc, at, parts)?)
    }

    #[tactic(auto, unfolding(crate::specs::PatternReader::other))]
    fn other(&self, tokens: &mut Cursor<'_>) -> Result<Pattern, Halt<NoTree>>
        requires { ReadsPatterns self.now.depth (F.pre self.now.cons) (F.post self.now.cons) }
        ensures { Reads (spec.other (spec.cons_at self.now.depth) tokens.old) result tokens.new }
    {
        if tokens.sees(Terminal::Underscore) {
            anything(tokens)
        } else if tokens.sees(Terminal::Lower) {
            variable(self.alloc, tokens)
        } else if tokens.sees_any(&LITERALS) {
            literal(self.alloc, tokens)
        } else if tokens.sees(Terminal::LeftBracket) {
            self.list(tokens)
        } else if tokens.sees(Terminal::LeftParen) {
            self.brackets(tokens)
        } else {
            labels(self.alloc, tokens)
        }
    }

    /// A pattern that may stand as a part of a constructor.
    #[tactic(auto, unfolding(crate::specs::PatternReader::part))]
    fn part(&self, tokens: &mut Cursor<'_>) -> Result<Pattern, Halt<NoTree>>
        requires { ReadsPatterns self.now.depth (F.pre self.now.cons) (F.post self.now.cons) }
        ensures { Reads (spec.part (spec.cons_at self.now.depth) tokens.old) result tokens.new }
    {
        if tokens.sees(Terminal::Upper) {
            bare(self.alloc, tokens)
        } else {
            self.other(tokens)
        }
    }

    fn parts(&self, tokens: &mut Cursor<'_>) -> Result<Items<Pattern>, Halt<NoTree>>
        requires { ReadsPatterns self.now.depth (F.pre self.now.cons) (F.post self.now.cons) }
        ensures { Reads (spec.parts (spec.cons_at self.now.depth) tokens.old) result tokens.new }
    {
        let part = |tokens: &mut Cursor<'_>| self.part(tokens);
        many(self.alloc, &PATTERNS, part, tokens)
    }

    /// A constructor with its parts.
    #[tactic(auto, unfolding(crate::specs::PatternReader::made))]
    fn made(&self, tokens: &mut Cursor<'_>) -> Result<Pattern, Halt<NoTree>>
        requires { ReadsPatterns self.now.depth (F.pre self.now.cons) (F.post self.now.cons) }
        ensures { Reads (spec.made (spec.cons_at self.now.depth) tokens.old) result tokens.new }
    {
        let at = tokens.here()?;
        let constructor = tokens.name(self.alloc, Terminal::Upper)?;
        let (constructor, parts) = paired(constructor, self.parts(tokens))?;
        Ok(Pattern::Made {
            at,
            constructor,
            parts,
        })
    }

    #[tactic(auto, unfolding(crate::specs::PatternReader::operand))]
    fn operand(&self, tokens: &mut Cursor<'_>) -> Result<Pattern, Halt<NoTree>>
        requires { ReadsPatterns self.now.depth (F.pre self.now.cons) (F.post self.now.cons) }
        ensures { Reads (spec.operand (spec.cons_at self.now.depth) tokens.old) result tokens.new }
    {
        if tokens.sees(Terminal::Upper) {
            self.made(tokens)
        } else {
            self.other(tokens)
        }
    }

    /// What stands behind `::`, if it stands there.
    #[tactic(auto, unfolding(crate::specs::PatternReader::tail))]
    fn tail(&self, tokens: &mut Cursor<'_>) -> Result<Option<Pattern>, Halt<NoTree>>
        requires { ReadsPatterns self.now.depth (F.pre self.now.cons) (F.post self.now.cons) }
        ensures { Reads (spec.tail (spec.cons_at self.now.depth) tokens.old) result tokens.new }
    {
        if tokens.sees(Terminal::Cons) {
            tokens.expect(Terminal::Cons)?;
            Ok(Some(self.cons(tokens)?))
        } else {
            Ok(None)
        }
    }

    #[tactic(auto, unfolding(crate::specs::PatternReader::level))]
    fn level(&self, tokens: &mut Cursor<'_>) -> Result<Pattern, Halt<NoTree>>
        requires { ReadsPatterns self.now.depth (F.pre self.now.cons) (F.post self.now.cons) }
        ensures { Reads (spec.level (spec.cons_at self.now.depth) tokens.old) result tokens.new }
    {
        let at = tokens.here()?;
        let (head, tail) = paired(self.operand(tokens)?, self.tail(tokens))?;
        Ok(consed(self.alloc, at, head, tail)?)
    }
}

/// The one pattern that all the tokens stand for, if it nests at most 100 deep. `NoTree` is the answer exactly where no
/// such pattern derives. A pattern without parts has nesting 0, and any other one more than the most of its parts.
pub fn pattern(alloc: Global, tokens: &[Token<'_>]) -> Result<Pattern, Halt<NoTree>>
    ensures derives { IfOk result (λ tree. DerivesPattern (map lexeme tokens.now) tree) }
    ensures nests { IfOk result (λ tree. pattern_nesting tree ≤ max_nesting) }
    // A pattern that derives and nests so is given, unless memory runs out.
    ensures found { (tree : Pattern) → DerivesPattern (map lexeme tokens.now) tree →
        pattern_nesting tree ≤ max_nesting →
        MatchResult result (λ found. found ≡ tree) (λ cause. cause ≡ halt.NoMemory) }
    ensures refused { IfErr result (λ cause. cause ≢ halt.NoMemory → (tree : Pattern) →
        DerivesPattern (map lexeme tokens.now) tree → pattern_nesting tree ≤ max_nesting → ⊥) }
{
    let mut cursor = Cursor::new(tokens);
    let found = pattern_at(alloc, DEPTH, &mut cursor)?;
    let nests = pattern_nests_within(&found, MOST_NESTING);
    entire(found, &cursor, nests)
}

/// A list of tokens stands for at most one pattern, however deep it nests.
pub fn one_pattern()
    ensures { (ts : List Lexeme) (x y : Pattern) → DerivesPattern ts x → DerivesPattern ts y → x ≡ y }
{}
