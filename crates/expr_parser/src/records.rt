//! Records.
ghost use Rattle.grammar.specs.Reader.{Reads};
ghost use Rattle.expr_grammar.specs.ExprReader as spec;
ghost use Rattle.expr_parser.specs.ExprCalls.{ReadsExprs};
ghost use Rattle.expr_parser.specs.Places.{placed, placed_round};

use crate::begins::ATOMS;
use crate::exprs::Exprs;
use elm_base::{At, Expr, Halt, Set};
use grammar::{Cursor, NoTree, Terminal, separated, terminated};
use sqlite_items::{Boxed, Items};
use std::alloc::Global;

impl<F: Fn(Global, bool, usize, &mut Cursor<'_>) -> Result<Expr, Halt<NoTree>>> Exprs<F> {
    /// A field with its value, or with the value that it changes to, as the token between says.
    #[tactic(auto, unfolding(expr_grammar::specs::ExprReader::set))]
    fn set(&self, symbol: Terminal, tokens: &mut Cursor<'_>) -> Result<Set, Halt<NoTree>>
        requires { ReadsExprs self.now.depth (F.pre self.now.below) (F.post self.now.below) }
        ensures { Reads (spec.set (spec.below self.now.depth) symbol tokens.old) result tokens.new }
    {
        let at = tokens.here()?;
        let label = tokens.name(self.alloc, Terminal::Lower)?;
        let value = self.behind(symbol, tokens)?;
        Ok(Set { at, label, value })
    }

    /// One or more of them with commas between.
    fn sets(&self, symbol: Terminal, tokens: &mut Cursor<'_>) -> Result<Items<Set>, Halt<NoTree>>
        requires { ReadsExprs self.now.depth (F.pre self.now.below) (F.post self.now.below) }
        ensures { Reads (spec.sets (spec.below self.now.depth) symbol tokens.old)
            result tokens.new }
    {
        separated(
            self.alloc,
            |tokens: &mut Cursor<'_>| self.set(symbol, tokens),
            tokens,
        )
    }

    #[tactic(auto, unfolding(expr_grammar::specs::ExprReader::fields))]
    fn fields(&self, at: At, tokens: &mut Cursor<'_>) -> Result<Expr, Halt<NoTree>>
        requires { ReadsExprs self.now.depth (F.pre self.now.below) (F.post self.now.below) }
        ensures { Reads (placed at (spec.fields (spec.below self.now.depth)) tokens.old)
            result tokens.new }
    {
        let fields = self.sets(Terminal::Equals, tokens)?;
        Ok(Expr::Fields { at, fields })
    }

    /// New fields over a record.
    #[tactic(auto, unfolding(expr_grammar::specs::ExprReader::extended))]
    fn extended(
        &self,
        at: At,
        from: Boxed<Expr>,
        tokens: &mut Cursor<'_>,
    ) -> Result<Expr, Halt<NoTree>>
        requires { ReadsExprs self.now.depth (F.pre self.now.below) (F.post self.now.below) }
        ensures { Reads (placed_round at from
            (spec.extended (spec.below self.now.depth)) tokens.old) result tokens.new }
    {
        let fields = self.sets(Terminal::Equals, tokens)?;
        Ok(Expr::Extend { at, from, fields })
    }

    /// New values in fields of a record.
    #[tactic(auto, unfolding(expr_grammar::specs::ExprReader::updated))]
    fn updated(
        &self,
        at: At,
        from: Boxed<Expr>,
        tokens: &mut Cursor<'_>,
    ) -> Result<Expr, Halt<NoTree>>
        requires { ReadsExprs self.now.depth (F.pre self.now.below) (F.post self.now.below) }
        ensures { Reads (placed_round at from (spec.updated (spec.below self.now.depth)) tokens.old)
            result tokens.new }
    {
        let fields = self.sets(Terminal::LeftArrow, tokens)?;
        Ok(Expr::Update { at, from, fields })
    }

    #[tactic(auto, unfolding(expr_grammar::specs::ExprReader::behind_bar))]
    fn behind_bar(
        &self,
        at: At,
        from: Boxed<Expr>,
        tokens: &mut Cursor<'_>,
    ) -> Result<Expr, Halt<NoTree>>
        requires { ReadsExprs self.now.depth (F.pre self.now.below) (F.post self.now.below) }
        ensures { Reads (placed_round at from
            (spec.behind_bar (spec.below self.now.depth)) tokens.old) result tokens.new }
    {
        tokens.expect(Terminal::Bar)?;
        if tokens.sees(Terminal::Lower) && tokens.sees_second(Terminal::Equals) {
            self.extended(at, from, tokens)
        } else {
            self.updated(at, from, tokens)
        }
    }

    /// The fields behind a bar, if one stands there.
    #[tactic(auto, unfolding(expr_grammar::specs::ExprReader::new_fields))]
    fn new_fields(&self, tokens: &mut Cursor<'_>) -> Result<Items<Set>, Halt<NoTree>>
        requires { ReadsExprs self.now.depth (F.pre self.now.below) (F.post self.now.below) }
        ensures { Reads (spec.new_fields (spec.below self.now.depth) tokens.old) result tokens.new }
    {
        if tokens.sees(Terminal::Bar) {
            tokens.expect(Terminal::Bar)?;
            self.sets(Terminal::Equals, tokens)
        } else {
            Ok(Items::new(self.alloc))
        }
    }

    /// A record without a field, perhaps with new ones.
    #[tactic(auto, unfolding(expr_grammar::specs::ExprReader::removed))]
    fn removed(
        &self,
        at: At,
        from: Boxed<Expr>,
        tokens: &mut Cursor<'_>,
    ) -> Result<Expr, Halt<NoTree>>
        requires { ReadsExprs self.now.depth (F.pre self.now.below) (F.post self.now.below) }
        ensures { Reads (placed_round at from (spec.removed (spec.below self.now.depth)) tokens.old)
            result tokens.new }
    {
        tokens.expect(Terminal::Minus)?;
        let label = tokens.name(self.alloc, Terminal::Lower)?;
        let fields = self.new_fields(tokens)?;
        Ok(Expr::Remove {
            at,
            from,
            label,
            fields,
        })
    }

    #[tactic(auto, unfolding(expr_grammar::specs::ExprReader::over_record))]
    fn over_record(&self, at: At, tokens: &mut Cursor<'_>) -> Result<Expr, Halt<NoTree>>
        requires { ReadsExprs self.now.depth (F.pre self.now.below) (F.post self.now.below) }
        ensures { Reads (placed at (spec.over_record (spec.below self.now.depth)) tokens.old)
            result tokens.new }
    {
        let from = Boxed::new(self.alloc, self.inner_atom(tokens)?)?;
        if tokens.sees(Terminal::Bar) {
            self.behind_bar(at, from, tokens)
        } else {
            self.removed(at, from, tokens)
        }
    }

    #[tactic(auto, unfolding(expr_grammar::specs::ExprReader::filled_braces))]
    fn filled_braces(&self, at: At, tokens: &mut Cursor<'_>) -> Result<Expr, Halt<NoTree>>
        requires { ReadsExprs self.now.depth (F.pre self.now.below) (F.post self.now.below) }
        ensures { Reads (placed at (spec.filled_braces (spec.below self.now.depth)) tokens.old)
            result tokens.new }
    {
        if tokens.sees(Terminal::Lower) && tokens.sees_second(Terminal::Equals) {
            self.fields(at, tokens)
        } else {
            self.over_record(at, tokens)
        }
    }

    #[tactic(auto, unfolding(expr_grammar::specs::ExprReader::inside_braces))]
    fn inside_braces(&self, at: At, tokens: &mut Cursor<'_>) -> Result<Expr, Halt<NoTree>>
        requires { ReadsExprs self.now.depth (F.pre self.now.below) (F.post self.now.below) }
        ensures { Reads (placed at (spec.inside_braces (spec.below self.now.depth)) tokens.old)
            result tokens.new }
    {
        if tokens.sees_any(&ATOMS) {
            self.filled_braces(at, tokens)
        } else {
            let fields = Items::new(self.alloc);
            Ok(Expr::Fields { at, fields })
        }
    }

    /// A record.
    #[tactic(auto, unfolding(expr_grammar::specs::ExprReader::braces))]
    pub fn braces(&self, tokens: &mut Cursor<'_>) -> Result<Expr, Halt<NoTree>>
        requires { ReadsExprs self.now.depth (F.pre self.now.below) (F.post self.now.below) }
        ensures { Reads (spec.braces (spec.below self.now.depth) tokens.old) result tokens.new }
    {
        let at = tokens.here()?;
        tokens.expect(Terminal::LeftBrace)?;
        terminated(
            self.inside_braces(at, tokens)?,
            tokens,
            Terminal::RightBrace,
        )
    }
}
