//! Types as trees.
ghost use Rattle.std.specs.Prelude.{◌≡◌, ◌≢◌, ◌≤◌, [], ◌∷◌, List, Option, Some, None, map, IfOk, IfErr, MatchResult};
ghost use Rattle.elm_base.specs.declared.memory.Halt.TheVariants as halt;
ghost use Rattle.elm_base.specs.declared.tree.TypeTree.{TypeTree};
ghost use Rattle.elm_base.specs.Lexemes.{Lexeme, lexeme};
ghost use Rattle.grammar.specs.Terminals.{starts};
ghost use Rattle.grammar.specs.Reader.{Reads, with_front};
ghost use Rattle.grammar.specs.Lists as list;
ghost use Rattle.tree_nesting.specs.Nesting.{max_nesting, type_nesting};
ghost use Rattle.pattern_parser.specs.Types as grammar;
ghost use Rattle.pattern_parser.specs.Types.{DerivesType};
ghost use Rattle.pattern_parser.specs.TypeReader as spec;
ghost use Rattle.pattern_parser.specs.TypeReader.{named_by};
ghost use Rattle.pattern_parser.specs.TypeCalls.{ReadsTypes};

use elm_base::{At, Halt, Spot, Token, TypeTree};
use grammar::{
    Cursor, MOST_PARTS, NoTree, Terminal, boxed_pair, entire, many, many_more, paired, separated,
    terminated, verified,
};
use sqlite_items::{Boxed, Items};
use std::alloc::{AllocError, Global};
use tree_nesting::{MOST_NESTING, type_nests_within};

/// What an argument begins with, and so a type.
const ARGUMENTS: [Terminal; 4] = [
    Terminal::Upper,
    Terminal::Lower,
    Terminal::LeftParen,
    Terminal::LeftBrace,
];

/// Of a type that nests within the limit, so many whole types stand inside each other at most.
const DEPTH: usize = 101;

type FieldOfType = (Spot, TypeTree);

/// The variable before a bar, if there is one, and the fields.
type Inside = (Option<Spot>, Items<FieldOfType>);

#[tactic(auto, unfolding(crate::specs::TypeReader::variable))]
fn variable(alloc: Global, tokens: &mut Cursor<'_>) -> Result<TypeTree, Halt<NoTree>>
    ensures { Reads (spec.variable tokens.old) result tokens.new }
{
    let at = tokens.here()?;
    let name = tokens.name(alloc, Terminal::Lower)?;
    Ok(TypeTree::Variable { at, name })
}

/// A named type without arguments.
#[tactic(auto, unfolding(crate::specs::TypeReader::bare))]
fn bare(alloc: Global, tokens: &mut Cursor<'_>) -> Result<TypeTree, Halt<NoTree>>
    ensures { Reads (spec.bare tokens.old) result tokens.new }
{
    let at = tokens.here()?;
    let name = tokens.name(alloc, Terminal::Upper)?;
    let arguments = Items::new(alloc);
    Ok(TypeTree::Named {
        at,
        name,
        arguments,
    })
}

/// What brackets round these types make.
fn enclosed(alloc: Global, at: At, mut parts: Items<TypeTree>) -> Result<TypeTree, AllocError>
    ensures { IfOk result (λ tree. tree ≡ grammar.enclosed (at, parts)) }
{
    if parts.is_empty() {
        return Ok(TypeTree::Unit { at });
    }
    if parts.len() == 1 {
        let inner = Boxed::new(alloc, parts.remove(0))?;
        return Ok(TypeTree::Brackets { at, inner });
    }
    Ok(TypeTree::Tuple { at, parts })
}

fn arrow(
    alloc: Global,
    at: At,
    from: TypeTree,
    to: Option<TypeTree>,
) -> Result<TypeTree, AllocError>
    ensures { IfOk result (λ tree. tree ≡ grammar.arrow (at, (from, to))) }
{
    match to {
        None => Ok(from),
        Some(to) => {
            let (from, to) = boxed_pair(alloc, from, to)?;
            Ok(TypeTree::Arrow { at, from, to })
        }
    }
}

/// The rules of types over `whole`, which reads a type that needs at most `depth` whole types inside each other.
#[derive(Clone, Copy)]
pub struct Types<F> {
    alloc: Global,
    depth: usize,
    whole: F,
}

/// A type that needs at most `depth` whole types inside each other.
pub fn type_at(
    alloc: Global,
    depth: usize,
    tokens: &mut Cursor<'_>,
) -> Result<TypeTree, Halt<NoTree>>
    ensures { Reads (spec.type_at depth tokens.old) result tokens.new }
{
    if depth == 0 {
        return Err(Halt::Because(NoTree));
    }
    Types {
        alloc,
        depth: depth - 1,
        whole: type_at,
    }
    .level(tokens)
}

/// The types that stand next as arguments, each to the same depth.
pub fn arguments_at(
    alloc: Global,
    depth: usize,
    tokens: &mut Cursor<'_>,
) -> Result<Items<TypeTree>, Halt<NoTree>>
    ensures { Reads (spec.arguments (spec.type_at depth) tokens.old) result tokens.new }
{
    Types {
        alloc,
        depth,
        whole: type_at,
    }
    .arguments(tokens)
}

impl<F: Fn(Global, usize, &mut Cursor<'_>) -> Result<TypeTree, Halt<NoTree>>> Types<F> {
    fn whole(&self, tokens: &mut Cursor<'_>) -> Result<TypeTree, Halt<NoTree>>
        requires { ReadsTypes self.now.depth (F.pre self.now.whole) (F.post self.now.whole) }
        ensures { Reads (spec.type_at self.now.depth tokens.old) result tokens.new }
    {
        (self.whole)(self.alloc, self.depth, tokens)
    }

    /// One or more types with commas between.
    fn types(&self, tokens: &mut Cursor<'_>) -> Result<Items<TypeTree>, Halt<NoTree>>
        requires { ReadsTypes self.now.depth (F.pre self.now.whole) (F.post self.now.whole) }
        ensures { Reads (list.separated (spec.type_at self.now.depth) tokens.old) result tokens.new }
    {
        let whole = |tokens: &mut Cursor<'_>| self.whole(tokens);
        separated(self.alloc, whole, tokens)
    }

    #[tactic(auto, unfolding(crate::specs::TypeReader::inside_brackets))]
    fn inside_brackets(&self, tokens: &mut Cursor<'_>) -> Result<Items<TypeTree>, Halt<NoTree>>
        requires { ReadsTypes self.now.depth (F.pre self.now.whole) (F.post self.now.whole) }
        ensures { Reads (spec.inside_brackets (spec.type_at self.now.depth) tokens.old) result tokens.new }
    {
        if !tokens.sees_any(&ARGUMENTS) {
            return Ok(Items::new(self.alloc));
        }
        let found = self.types(tokens)?;
        let is_tuple = found.len() <= MOST_PARTS;
        verified(found, is_tuple, Halt::Because(NoTree))
    }

    /// `()`, a type in brackets, or a tuple.
    #[tactic(auto, unfolding(crate::specs::TypeReader::brackets))]
    fn brackets(&self, tokens: &mut Cursor<'_>) -> Result<TypeTree, Halt<NoTree>>
        requires { ReadsTypes self.now.depth (F.pre self.now.whole) (F.post self.now.whole) }
        ensures { Reads (spec.brackets (spec.type_at self.now.depth) tokens.old) result tokens.new }
    {
        let at = tokens.here()?;
        tokens.expect(Terminal::LeftParen)?;
        let parts = terminated(self.inside_brackets(tokens)?, tokens, Terminal::RightParen)?;
        Ok(enclosed(self.alloc, at, parts)?)
    }

    #[tactic(auto, unfolding(crate::specs::TypeReader::field))]
    fn field(&self, tokens: &mut Cursor<'_>) -> Result<FieldOfType, Halt<NoTree>>
        requires { ReadsTypes self.now.depth (F.pre self.now.whole) (F.post self.now.whole) }
        ensures { Reads (spec.field (spec.type_at self.now.depth) tokens.old) result tokens.new }
    {
        let label = terminated(tokens.spot(self.alloc)?, tokens, Terminal::Colon)?;
        paired(label, self.whole(tokens))
    }

    #[tactic(auto, unfolding(crate::specs::TypeReader::next_field))]
    fn next_field(&self, tokens: &mut Cursor<'_>) -> Result<FieldOfType, Halt<NoTree>>
        requires { ReadsTypes self.now.depth (F.pre self.now.whole) (F.post self.now.whole) }
        ensures { Reads (spec.next_field (spec.type_at self.now.depth) tokens.old) result tokens.new }
    {
        tokens.expect(Terminal::Comma)?;
        self.field(tokens)
    }

    /// Reads `first` and the fields behind it, each after a comma.
    fn fields_from(
        &self,
        first: FieldOfType,
        tokens: &mut Cursor<'_>,
    ) -> Result<Items<FieldOfType>, Halt<NoTree>>
        requires { ReadsTypes self.now.depth (F.pre self.now.whole) (F.post self.now.whole) }
        ensures { Reads (with_front (first ∷ []) (spec.more_fields (spec.type_at self.now.depth) tokens.old))
            result tokens.new }
    {
        let mut found = Items::new(self.alloc);
        found.push(first)?;
        let next = |tokens: &mut Cursor<'_>| self.next_field(tokens);
        many_more(found, &[Terminal::Comma], next, tokens)
    }

    /// One or more fields with commas between.
    fn fields(&self, tokens: &mut Cursor<'_>) -> Result<Items<FieldOfType>, Halt<NoTree>>
        requires { ReadsTypes self.now.depth (F.pre self.now.whole) (F.post self.now.whole) }
        ensures { Reads (list.separated (spec.field (spec.type_at self.now.depth)) tokens.old) result tokens.new }
    {
        let field = |tokens: &mut Cursor<'_>| self.field(tokens);
        separated(self.alloc, field, tokens)
    }

    /// The fields behind a bar, which stands behind the variable.
    #[tactic(auto, unfolding(crate::specs::TypeReader::behind_variable))]
    fn behind_variable(
        &self,
        variable: Spot,
        tokens: &mut Cursor<'_>,
    ) -> Result<Inside, Halt<NoTree>>
        requires { ReadsTypes self.now.depth (F.pre self.now.whole) (F.post self.now.whole) }
        ensures { Reads (named_by variable (spec.behind_variable (spec.type_at self.now.depth) tokens.old))
            result tokens.new }
    {
        tokens.expect(Terminal::Bar)?;
        paired(Some(variable), self.fields(tokens))
    }

    /// The type of the first field and more fields, behind the label of the first.
    #[tactic(auto, unfolding(crate::specs::TypeReader::behind_label))]
    fn behind_label(&self, label: Spot, tokens: &mut Cursor<'_>) -> Result<Inside, Halt<NoTree>>
        requires { ReadsTypes self.now.depth (F.pre self.now.whole) (F.post self.now.whole) }
        ensures { Reads (named_by label (spec.behind_label (spec.type_at self.now.depth) tokens.old))
            result tokens.new }
    {
        tokens.expect(Terminal::Colon)?;
        let first = paired(label, self.whole(tokens))?;
        paired(None, self.fields_from(first, tokens))
    }

    /// The variable before a bar, if the name is one, and the fields.
    #[tactic(auto, unfolding(crate::specs::TypeReader::named_fields))]
    fn named_fields(&self, tokens: &mut Cursor<'_>) -> Result<Inside, Halt<NoTree>>
        requires { ReadsTypes self.now.depth (F.pre self.now.whole) (F.post self.now.whole) }
        ensures { Reads (spec.named_fields (spec.type_at self.now.depth) tokens.old) result tokens.new }
    {
        let name = tokens.spot(self.alloc)?;
        if tokens.sees(Terminal::Bar) {
            self.behind_variable(name, tokens)
        } else {
            self.behind_label(name, tokens)
        }
    }

    #[tactic(auto, unfolding(crate::specs::TypeReader::inside_braces))]
    fn inside_braces(&self, tokens: &mut Cursor<'_>) -> Result<Inside, Halt<NoTree>>
        requires { ReadsTypes self.now.depth (F.pre self.now.whole) (F.post self.now.whole) }
        ensures { Reads (spec.inside_braces (spec.type_at self.now.depth) tokens.old) result tokens.new }
    {
        if tokens.sees(Terminal::Lower) {
            self.named_fields(tokens)
        } else {
            Ok((None, Items::new(self.alloc)))
        }
    }

    /// A record.
    #[tactic(auto, unfolding(crate::specs::TypeReader::braces))]
    fn braces(&self, tokens: &mut Cursor<'_>) -> Result<TypeTree, Halt<NoTree>>
        requires { ReadsTypes self.now.depth (F.pre self.now.whole) (F.post self.now.whole) }
        ensures { Reads (spec.braces (spec.type_at self.now.depth) tokens.old) result tokens.new }
    {
        let at = tokens.here()?;
        tokens.expect(Terminal::LeftBrace)?;
        let (before, fields) = terminated(
            self.inside_braces(tokens)?,
            tokens,
            Terminal::RightBrace,
        )?;
        Ok(TypeTree::Fields { at, before, fields })
    }

    #[tactic(auto, unfolding(crate::specs::TypeReader::other))]
    fn other(&self, tokens: &mut Cursor<'_>) -> Result<TypeTree, Halt<NoTree>>
        requires { ReadsTypes self.now.depth (F.pre self.now.whole) (F.post self.now.whole) }
        ensures { Reads (spec.other (spec.type_at self.now.depth) tokens.old) result tokens.new }
    {
        if tokens.sees(Terminal::Lower) {
            variable(self.alloc, tokens)
        } else if tokens.sees(Terminal::LeftParen) {
            self.brackets(tokens)
        } else {
            self.braces(tokens)
        }
    }

    /// A type that may stand as an argument.
    #[tactic(auto, unfolding(crate::specs::TypeReader::argument))]
    fn argument(&self, tokens: &mut Cursor<'_>) -> Result<TypeTree, Halt<NoTree>>
        requires { ReadsTypes self.now.depth (F.pre self.now.whole) (F.post self.now.whole) }
        ensures { Reads (spec.argument (spec.type_at self.now.depth) tokens.old) result tokens.new }
    {
        if tokens.sees(Terminal::Upper) {
            bare(self.alloc, tokens)
        } else {
            self.other(tokens)
        }
    }

    fn arguments(&self, tokens: &mut Cursor<'_>) -> Result<Items<TypeTree>, Halt<NoTree>>
        requires { ReadsTypes self.now.depth (F.pre self.now.whole) (F.post self.now.whole) }
        ensures { Reads (spec.arguments (spec.type_at self.now.depth) tokens.old) result tokens.new }
    {
        let argument = |tokens: &mut Cursor<'_>| self.argument(tokens);
        many(self.alloc, &ARGUMENTS, argument, tokens)
    }

    #[tactic(auto, unfolding(crate::specs::TypeReader::applied))]
    fn applied(&self, tokens: &mut Cursor<'_>) -> Result<TypeTree, Halt<NoTree>>
        requires { ReadsTypes self.now.depth (F.pre self.now.whole) (F.post self.now.whole) }
        ensures { Reads (spec.applied (spec.type_at self.now.depth) tokens.old) result tokens.new }
    {
        let at = tokens.here()?;
        let name = tokens.name(self.alloc, Terminal::Upper)?;
        let (name, arguments) = paired(name, self.arguments(tokens))?;
        Ok(TypeTree::Named {
            at,
            name,
            arguments,
        })
    }

    #[tactic(auto, unfolding(crate::specs::TypeReader::operand))]
    fn operand(&self, tokens: &mut Cursor<'_>) -> Result<TypeTree, Halt<NoTree>>
        requires { ReadsTypes self.now.depth (F.pre self.now.whole) (F.post self.now.whole) }
        ensures { Reads (spec.operand (spec.type_at self.now.depth) tokens.old) result tokens.new }
    {
        if tokens.sees(Terminal::Upper) {
            self.applied(tokens)
        } else {
            self.other(tokens)
        }
    }

    /// What stands behind an arrow, if one stands there.
    #[tactic(auto, unfolding(crate::specs::TypeReader::target))]
    fn target(&self, tokens: &mut Cursor<'_>) -> Result<Option<TypeTree>, Halt<NoTree>>
        requires { ReadsTypes self.now.depth (F.pre self.now.whole) (F.post self.now.whole) }
        ensures { Reads (spec.target (spec.type_at self.now.depth) tokens.old) result tokens.new }
    {
        if tokens.sees(Terminal::Arrow) {
            tokens.expect(Terminal::Arrow)?;
            Ok(Some(self.whole(tokens)?))
        } else {
            Ok(None)
        }
    }

    #[tactic(auto, unfolding(crate::specs::TypeReader::level))]
    fn level(&self, tokens: &mut Cursor<'_>) -> Result<TypeTree, Halt<NoTree>>
        requires { ReadsTypes self.now.depth (F.pre self.now.whole) (F.post self.now.whole) }
        ensures { Reads (spec.level (spec.type_at self.now.depth) tokens.old) result tokens.new }
    {
        let at = tokens.here()?;
        let (from, to) = paired(self.operand(tokens)?, self.target(tokens))?;
        Ok(arrow(self.alloc, at, from, to)?)
    }
}

/// The one type that all the tokens stand for, if it nests at most 100 deep. `NoTree` is the answer exactly where no such
/// type derives. A type without parts has nesting 0, and any other one more than the most of its parts.
pub fn type_text(alloc: Global, tokens: &[Token<'_>]) -> Result<TypeTree, Halt<NoTree>>
    ensures derives { IfOk result (λ tree. DerivesType (map lexeme tokens.now) tree) }
    ensures nests { IfOk result (λ tree. type_nesting tree ≤ max_nesting) }
    // A type that derives and nests so is given, unless memory runs out.
    ensures found { (tree : TypeTree) → DerivesType (map lexeme tokens.now) tree → type_nesting tree ≤ max_nesting →
        MatchResult result (λ found. found ≡ tree) (λ cause. cause ≡ halt.NoMemory) }
    ensures refused { IfErr result (λ cause. cause ≢ halt.NoMemory → (tree : TypeTree) →
        DerivesType (map lexeme tokens.now) tree → type_nesting tree ≤ max_nesting → ⊥) }
{
    let mut cursor = Cursor::new(tokens);
    let found = type_at(alloc, DEPTH, &mut cursor)?;
    let nests = type_nests_within(&found, MOST_NESTING);
    entire(found, &cursor, nests)
}

/// A list of tokens stands for at most one type, however deep it nests.
pub fn one_type()
    ensures { (ts : List Lexeme) (x y : TypeTree) → DerivesType ts x → DerivesType ts y → x ≡ y }
{}
