//! Lists and ranges.
ghost use Rattle.std.specs.Prelude.{[], ◌∷◌};
ghost use Rattle.grammar.specs.Reader.{Reads, with_front};
ghost use Rattle.expr_grammar.specs.ExprReader as spec;
ghost use Rattle.expr_parser.specs.ExprCalls.{ReadsExprs};
ghost use Rattle.expr_parser.specs.Places.{placed, placed_round};

use crate::begins::EXPRESSIONS;
use crate::exprs::Exprs;
use elm_base::{At, Expr, Halt};
use grammar::{Cursor, NoTree, Terminal, many_more, terminated};
use sqlite_items::{Boxed, Items};
use std::alloc::Global;

impl<F: Fn(Global, bool, usize, &mut Cursor<'_>) -> Result<Expr, Halt<NoTree>>> Exprs<F> {
    /// The first expression, and those behind it, each after a comma.
    fn parts_from(&self, first: Expr, tokens: &mut Cursor<'_>) -> Result<Items<Expr>, Halt<NoTree>>
        requires { ReadsExprs self.now.depth (F.pre self.now.below) (F.post self.now.below) }
        ensures { Reads (with_front (first ∷ []) (spec.more (spec.below self.now.depth) tokens.old))
            result tokens.new }
    {
        let mut found = Items::new(self.alloc);
        found.push(first)?;
        let next = |tokens: &mut Cursor<'_>| self.behind(Terminal::Comma, tokens);
        many_more(found, &[Terminal::Comma], next, tokens)
    }

    /// The end of a range behind its beginning.
    #[tactic(auto, unfolding(expr_grammar::specs::ExprReader::behind_low))]
    fn behind_low(
        &self,
        at: At,
        low: Boxed<Expr>,
        tokens: &mut Cursor<'_>,
    ) -> Result<Expr, Halt<NoTree>>
        requires { ReadsExprs self.now.depth (F.pre self.now.below) (F.post self.now.below) }
        ensures { Reads (placed_round at low
            (spec.behind_low (spec.below self.now.depth)) tokens.old) result tokens.new }
    {
        let high = self.boxed_behind(Terminal::DotDot, tokens)?;
        Ok(Expr::Range { at, low, high })
    }

    /// The other parts of a list behind the first.
    #[tactic(auto, unfolding(expr_grammar::specs::ExprReader::behind_part))]
    fn behind_part(
        &self,
        at: At,
        first: Boxed<Expr>,
        tokens: &mut Cursor<'_>,
    ) -> Result<Expr, Halt<NoTree>>
        requires { ReadsExprs self.now.depth (F.pre self.now.below) (F.post self.now.below) }
        ensures { Reads (placed_round at first
            (spec.behind_part (spec.below self.now.depth)) tokens.old) result tokens.new }
    {
        let parts = self.parts_from(first.into_inner(), tokens)?;
        Ok(Expr::List { at, parts })
    }

    /// What stands in square brackets.
    #[tactic(auto, unfolding(expr_grammar::specs::ExprReader::inside_list))]
    fn inside_list(&self, at: At, tokens: &mut Cursor<'_>) -> Result<Expr, Halt<NoTree>>
        requires { ReadsExprs self.now.depth (F.pre self.now.below) (F.post self.now.below) }
        ensures { Reads (placed at (spec.inside_list (spec.below self.now.depth)) tokens.old)
            result tokens.new }
    {
        if !tokens.sees_any(&EXPRESSIONS) {
            let parts = Items::new(self.alloc);
            return Ok(Expr::List { at, parts });
        }
        let first = self.boxed(tokens)?;
        if tokens.sees(Terminal::DotDot) {
            self.behind_low(at, first, tokens)
        } else {
            self.behind_part(at, first, tokens)
        }
    }

    /// A list or a range.
    #[tactic(auto, unfolding(expr_grammar::specs::ExprReader::list))]
    pub fn list(&self, tokens: &mut Cursor<'_>) -> Result<Expr, Halt<NoTree>>
        requires { ReadsExprs self.now.depth (F.pre self.now.below) (F.post self.now.below) }
        ensures { Reads (spec.list (spec.below self.now.depth) tokens.old) result tokens.new }
    {
        let at = tokens.here()?;
        tokens.expect(Terminal::LeftBracket)?;
        terminated(
            self.inside_list(at, tokens)?,
            tokens,
            Terminal::RightBracket,
        )
    }
}
