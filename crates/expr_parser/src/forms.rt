//! Lambdas and conditional expressions.
ghost use Rattle.grammar.specs.Reader.{Reads};
ghost use Rattle.expr_grammar.specs.ExprReader as spec;
ghost use Rattle.expr_parser.specs.ExprCalls.{ReadsExprs};
ghost use Rattle.expr_parser.specs.Places.{placed};

use crate::begins::{EXPRESSIONS, PATTERNS};
use crate::exprs::Exprs;
use crate::shapes::ends_in_guards;
use elm_base::{At, Expr, Halt, Pattern};
use grammar::{Cursor, NoTree, Terminal, many, paired, some, verified};
use pattern_parser::part_at;
use sqlite_items::Items;
use std::alloc::Global;

impl<F: Fn(Global, bool, usize, &mut Cursor<'_>) -> Result<Expr, Halt<NoTree>>> Exprs<F> {
    /// A pattern that may stand as a parameter.
    fn parameter(&self, tokens: &mut Cursor<'_>) -> Result<Pattern, Halt<NoTree>>
        requires { ReadsExprs self.now.depth (F.pre self.now.below) (F.post self.now.below) }
        ensures { Reads (spec.parameter (spec.below self.now.depth) tokens.old) result tokens.new }
    {
        part_at(self.alloc, self.depth, tokens)
    }

    pub fn parameters(&self, tokens: &mut Cursor<'_>) -> Result<Items<Pattern>, Halt<NoTree>>
        requires { ReadsExprs self.now.depth (F.pre self.now.below) (F.post self.now.below) }
        ensures { Reads (spec.parameters (spec.below self.now.depth) tokens.old) result tokens.new }
    {
        many(
            self.alloc,
            &PATTERNS,
            |tokens: &mut Cursor<'_>| self.parameter(tokens),
            tokens,
        )
    }

    /// One or more parameters.
    fn some_parameters(&self, tokens: &mut Cursor<'_>) -> Result<Items<Pattern>, Halt<NoTree>>
        requires { ReadsExprs self.now.depth (F.pre self.now.below) (F.post self.now.below) }
        ensures { Reads (spec.some_parameters (spec.below self.now.depth) tokens.old)
            result tokens.new }
    {
        some(
            self.alloc,
            &PATTERNS,
            |tokens: &mut Cursor<'_>| self.parameter(tokens),
            tokens,
        )
    }

    #[tactic(auto, unfolding(expr_grammar::specs::ExprReader::lambda))]
    pub fn lambda(&self, tokens: &mut Cursor<'_>) -> Result<Expr, Halt<NoTree>>
        requires { ReadsExprs self.now.depth (F.pre self.now.below) (F.post self.now.below) }
        ensures { Reads (spec.lambda (spec.below self.now.depth) tokens.old) result tokens.new }
    {
        let at = tokens.here()?;
        tokens.expect(Terminal::Backslash)?;
        let patterns = self.some_parameters(tokens)?;
        let body = self.boxed_behind(Terminal::Arrow, tokens)?;
        Ok(Expr::Lambda { at, patterns, body })
    }

    /// Behind `if`: a condition and an expression for either case.
    #[tactic(auto, unfolding(expr_grammar::specs::ExprReader::two_way))]
    fn two_way(&self, at: At, tokens: &mut Cursor<'_>) -> Result<Expr, Halt<NoTree>>
        requires { ReadsExprs self.now.depth (F.pre self.now.below) (F.post self.now.below) }
        ensures { Reads (placed at (spec.two_way (spec.below self.now.depth)) tokens.old)
            result tokens.new }
    {
        let condition = self.boxed(tokens)?;
        let yes = self.boxed_behind(Terminal::Then, tokens)?;
        let no = self.boxed_behind(Terminal::Else, tokens)?;
        Ok(Expr::If {
            at,
            condition,
            yes,
            no,
        })
    }

    /// An expression that doesn't end in a multi-way `if`.
    fn closed(&self, tokens: &mut Cursor<'_>) -> Result<Expr, Halt<NoTree>>
        requires { ReadsExprs self.now.depth (F.pre self.now.below) (F.post self.now.below) }
        ensures { Reads (spec.closed (spec.below self.now.depth) tokens.old) result tokens.new }
    {
        let tree = self.whole(tokens)?;
        let passes = !ends_in_guards(&tree);
        verified(tree, passes, Halt::Because(NoTree))
    }

    fn chosen(&self, tokens: &mut Cursor<'_>) -> Result<Expr, Halt<NoTree>>
        requires { ReadsExprs self.now.depth (F.pre self.now.below) (F.post self.now.below) }
        ensures { Reads (spec.chosen (spec.below self.now.depth) tokens.old) result tokens.new }
    {
        tokens.expect(Terminal::Arrow)?;
        self.closed(tokens)
    }

    /// A branch of a multi-way `if`. It doesn't end in another, since the next branch would be of either.
    #[tactic(auto, unfolding(expr_grammar::specs::ExprReader::guard))]
    fn guard(&self, tokens: &mut Cursor<'_>) -> Result<(Expr, Expr), Halt<NoTree>>
        requires { ReadsExprs self.now.depth (F.pre self.now.below) (F.post self.now.below) }
        ensures { Reads (spec.guard (spec.below self.now.depth) tokens.old) result tokens.new }
    {
        paired(self.behind(Terminal::Bar, tokens)?, self.chosen(tokens))
    }

    fn guards(&self, tokens: &mut Cursor<'_>) -> Result<Items<(Expr, Expr)>, Halt<NoTree>>
        requires { ReadsExprs self.now.depth (F.pre self.now.below) (F.post self.now.below) }
        ensures { Reads (spec.guards (spec.below self.now.depth) tokens.old) result tokens.new }
    {
        some(
            self.alloc,
            &[Terminal::Bar],
            |tokens: &mut Cursor<'_>| self.guard(tokens),
            tokens,
        )
    }

    #[tactic(auto, unfolding(expr_grammar::specs::ExprReader::multi_way))]
    fn multi_way(&self, at: At, tokens: &mut Cursor<'_>) -> Result<Expr, Halt<NoTree>>
        requires { ReadsExprs self.now.depth (F.pre self.now.below) (F.post self.now.below) }
        ensures { Reads (placed at (spec.multi_way (spec.below self.now.depth)) tokens.old)
            result tokens.new }
    {
        let branches = self.guards(tokens)?;
        Ok(Expr::Guards { at, branches })
    }

    #[tactic(auto, unfolding(expr_grammar::specs::ExprReader::conditional))]
    pub fn conditional(&self, tokens: &mut Cursor<'_>) -> Result<Expr, Halt<NoTree>>
        requires { ReadsExprs self.now.depth (F.pre self.now.below) (F.post self.now.below) }
        ensures { Reads (spec.conditional (spec.below self.now.depth) tokens.old)
            result tokens.new }
    {
        let at = tokens.here()?;
        tokens.expect(Terminal::If)?;
        if tokens.sees_any(&EXPRESSIONS) {
            self.two_way(at, tokens)
        } else {
            self.multi_way(at, tokens)
        }
    }
}
