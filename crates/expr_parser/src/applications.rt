//! Atoms with accesses, applications, and operands.
ghost use Rattle.std.specs.Prelude.{◌≡◌, [], ◌∷◌, IfOk};
ghost use Rattle.grammar.specs.declared.terminal.Terminal.TheVariants as k;
ghost use Rattle.grammar.specs.Reader.{Reads, many, spelled};
ghost use Rattle.grammar.specs.Spelling.{label_of};
ghost use Rattle.expr_grammar.specs.Expressions as grammar;
ghost use Rattle.expr_grammar.specs.ExprReader as spec;
ghost use Rattle.expr_parser.specs.ExprCalls.{ReadsExprs};

use crate::atoms::{character, constructor, field_function, int, text, variable};
use crate::begins::ATOMS;
use crate::exprs::Exprs;
use elm_base::{At, Expr, Halt, Name};
use grammar::{Cursor, NoTree, Terminal, many, paired};
use sqlite_items::{Boxed, Items};
use std::alloc::{AllocError, Global};

/// The labels of the accesses that stand next.
fn labels(alloc: Global, tokens: &mut Cursor<'_>) -> Result<Items<Name>, Halt<NoTree>>
    ensures { Reads (many (k.Access ∷ []) (spelled k.Access label_of) tokens.old)
        result tokens.new }
{
    let next = |tokens: &mut Cursor<'_>| tokens.label(alloc, Terminal::Access);
    many(alloc, &[Terminal::Access], next, tokens)
}

/// The fields of these labels, each of what the ones before it give.
fn accessed(alloc: Global, at: At, whole: Expr, mut labels: Items<Name>) -> Result<Expr, AllocError>
    ensures { IfOk result (λ tree. tree ≡ grammar.accessed (at, (whole, labels))) }
{
    let mut tree = whole;
    'turns: while !labels.is_empty() {
        let from = Boxed::new(alloc, tree)?;
        let label = labels.remove(0);
        tree = Expr::Access { at, from, label };
    }
    Ok(tree)
}

/// A call of these arguments, or the function alone where there is none.
fn applied(
    alloc: Global,
    at: At,
    function: Expr,
    arguments: Items<Expr>,
) -> Result<Expr, AllocError>
    ensures { IfOk result (λ tree. tree ≡ grammar.applied (at, (function, arguments))) }
{
    if arguments.is_empty() {
        return Ok(function);
    }
    let function = Boxed::new(alloc, function)?;
    Ok(Expr::Call {
        at,
        function,
        arguments,
    })
}

impl<F: Fn(Global, bool, usize, &mut Cursor<'_>) -> Result<Expr, Halt<NoTree>>> Exprs<F> {
    fn with_parts(&self, tokens: &mut Cursor<'_>) -> Result<Expr, Halt<NoTree>>
        requires { ReadsExprs self.now.depth (F.pre self.now.below) (F.post self.now.below) }
        ensures { Reads (spec.with_parts (spec.below self.now.depth) tokens.old) result tokens.new }
    {
        if tokens.sees(Terminal::LeftParen) {
            self.brackets(tokens)
        } else if tokens.sees(Terminal::LeftBracket) {
            self.list(tokens)
        } else {
            self.braces(tokens)
        }
    }

    /// An atom without accesses.
    #[tactic(auto, unfolding(expr_grammar::specs::ExprReader::primary))]
    fn primary(&self, tokens: &mut Cursor<'_>) -> Result<Expr, Halt<NoTree>>
        requires { ReadsExprs self.now.depth (F.pre self.now.below) (F.post self.now.below) }
        ensures { Reads (spec.primary (spec.below self.now.depth) tokens.old) result tokens.new }
    {
        if tokens.sees(Terminal::Int) {
            int(tokens)
        } else if tokens.sees(Terminal::Char) {
            character(self.alloc, tokens)
        } else if tokens.sees(Terminal::Text) {
            text(self.alloc, tokens)
        } else if tokens.sees(Terminal::Lower) || tokens.sees(Terminal::QualifiedLower) {
            variable(self.alloc, tokens)
        } else if tokens.sees(Terminal::Upper) {
            constructor(self.alloc, tokens)
        } else if tokens.sees(Terminal::FieldFunction) {
            field_function(self.alloc, tokens)
        } else {
            self.with_parts(tokens)
        }
    }

    /// The labels of accesses, at most as many as the depth has levels.
    #[tactic(auto, unfolding(expr_grammar::specs::ExprReader::accesses))]
    fn accesses(&self, tokens: &mut Cursor<'_>) -> Result<Items<Name>, Halt<NoTree>>
        requires { ReadsExprs self.now.depth (F.pre self.now.below) (F.post self.now.below) }
        ensures { Reads (spec.accesses (spec.below self.now.depth) tokens.old) result tokens.new }
    {
        let found = labels(self.alloc, tokens)?;
        if found.len() <= self.depth {
            Ok(found)
        } else {
            Err(Halt::Because(NoTree))
        }
    }

    /// An atom with its accesses.
    #[tactic(auto, unfolding(expr_grammar::specs::ExprReader::atom))]
    pub fn atom(&self, tokens: &mut Cursor<'_>) -> Result<Expr, Halt<NoTree>>
        requires { ReadsExprs self.now.depth (F.pre self.now.below) (F.post self.now.below) }
        ensures { Reads (spec.atom (spec.below self.now.depth) tokens.old) result tokens.new }
    {
        let at = tokens.here()?;
        let (whole, labels) = paired(self.primary(tokens)?, self.accesses(tokens))?;
        Ok(accessed(self.alloc, at, whole, labels)?)
    }

    fn arguments(&self, tokens: &mut Cursor<'_>) -> Result<Items<Expr>, Halt<NoTree>>
        requires { ReadsExprs self.now.depth (F.pre self.now.below) (F.post self.now.below) }
        ensures { Reads (spec.arguments (spec.below self.now.depth) tokens.old) result tokens.new }
    {
        many(
            self.alloc,
            &ATOMS,
            |tokens: &mut Cursor<'_>| self.atom(tokens),
            tokens,
        )
    }

    #[tactic(auto, unfolding(expr_grammar::specs::ExprReader::application))]
    fn application(&self, tokens: &mut Cursor<'_>) -> Result<Expr, Halt<NoTree>>
        requires { ReadsExprs self.now.depth (F.pre self.now.below) (F.post self.now.below) }
        ensures { Reads (spec.application (spec.below self.now.depth) tokens.old)
            result tokens.new }
    {
        let at = tokens.here()?;
        let (function, arguments) = paired(self.atom(tokens)?, self.arguments(tokens))?;
        Ok(applied(self.alloc, at, function, arguments)?)
    }

    #[tactic(auto, unfolding(expr_grammar::specs::ExprReader::negation))]
    fn negation(&self, tokens: &mut Cursor<'_>) -> Result<Expr, Halt<NoTree>>
        requires { ReadsExprs self.now.depth (F.pre self.now.below) (F.post self.now.below) }
        ensures { Reads (spec.negation (spec.below self.now.depth) tokens.old) result tokens.new }
    {
        let at = tokens.here()?;
        tokens.expect(Terminal::Minus)?;
        let inner = Boxed::new(self.alloc, self.application(tokens)?)?;
        Ok(Expr::Negate { at, inner })
    }

    /// What stands between operators: an application, or the negation of one.
    #[tactic(auto, unfolding(expr_grammar::specs::ExprReader::operand))]
    pub fn operand(&self, tokens: &mut Cursor<'_>) -> Result<Expr, Halt<NoTree>>
        requires { ReadsExprs self.now.depth (F.pre self.now.below) (F.post self.now.below) }
        ensures { Reads (spec.operand (spec.below self.now.depth) tokens.old) result tokens.new }
    {
        if tokens.sees(Terminal::Minus) {
            self.negation(tokens)
        } else {
            self.application(tokens)
        }
    }
}
