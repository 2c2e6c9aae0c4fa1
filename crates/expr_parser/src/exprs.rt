//! The parser of expressions over a function for the level below.
ghost use Rattle.std.specs.Prelude.{true, false};
ghost use Rattle.grammar.specs.Reader.{Reads};
ghost use Rattle.expr_grammar.specs.ExprReader as spec;
ghost use Rattle.expr_parser.specs.ExprCalls.{ReadsExprs};

use elm_base::{Expr, Halt};
use grammar::{Cursor, NoTree, Terminal};
use sqlite_items::Boxed;
use std::alloc::Global;

/// The rules of expressions over `below`, which reads an expression, or an atom where its flag says so, that needs at most
/// `depth` levels inside each other.
#[derive(Clone, Copy)]
pub struct Exprs<F> {
    pub alloc: Global,
    pub depth: usize,
    pub below: F,
}

impl<F: Fn(Global, bool, usize, &mut Cursor<'_>) -> Result<Expr, Halt<NoTree>>> Exprs<F> {
    /// An expression of the level below.
    pub fn whole(&self, tokens: &mut Cursor<'_>) -> Result<Expr, Halt<NoTree>>
        requires { ReadsExprs self.now.depth (F.pre self.now.below) (F.post self.now.below) }
        ensures { Reads (spec.tree_at false self.now.depth tokens.old) result tokens.new }
    {
        (self.below)(self.alloc, false, self.depth, tokens)
    }

    /// An atom of the level below.
    pub fn inner_atom(&self, tokens: &mut Cursor<'_>) -> Result<Expr, Halt<NoTree>>
        requires { ReadsExprs self.now.depth (F.pre self.now.below) (F.post self.now.below) }
        ensures { Reads (spec.tree_at true self.now.depth tokens.old) result tokens.new }
    {
        (self.below)(self.alloc, true, self.depth, tokens)
    }

    /// An expression of the level below, in a box.
    pub fn boxed(&self, tokens: &mut Cursor<'_>) -> Result<Boxed<Expr>, Halt<NoTree>>
        requires { ReadsExprs self.now.depth (F.pre self.now.below) (F.post self.now.below) }
        ensures { Reads (spec.tree_at false self.now.depth tokens.old) result tokens.new }
    {
        Ok(Boxed::new(self.alloc, self.whole(tokens)?)?)
    }

    /// An expression of the level below, behind this token.
    pub fn behind(&self, symbol: Terminal, tokens: &mut Cursor<'_>) -> Result<Expr, Halt<NoTree>>
        requires { ReadsExprs self.now.depth (F.pre self.now.below) (F.post self.now.below) }
        ensures { Reads (spec.behind (spec.below self.now.depth) symbol tokens.old)
            result tokens.new }
    {
        tokens.expect(symbol)?;
        self.whole(tokens)
    }

    /// An expression of the level below, behind this token, in a box.
    pub fn boxed_behind(
        &self,
        symbol: Terminal,
        tokens: &mut Cursor<'_>,
    ) -> Result<Boxed<Expr>, Halt<NoTree>>
        requires { ReadsExprs self.now.depth (F.pre self.now.below) (F.post self.now.below) }
        ensures { Reads (spec.behind (spec.below self.now.depth) symbol tokens.old)
            result tokens.new }
    {
        tokens.expect(symbol)?;
        self.boxed(tokens)
    }
}
