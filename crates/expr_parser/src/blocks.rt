//! Definitions of a `let` and branches of a `case`, each in one column.
ghost use Rattle.grammar.specs.Reader.{Reads};
ghost use Rattle.expr_grammar.specs.ExprReader as spec;
ghost use Rattle.expr_parser.specs.ExprCalls.{ReadsExprs};
ghost use Rattle.expr_parser.specs.Places.{placed_round};

use crate::begins::{DEFINITIONS, PATTERNS};
use crate::exprs::Exprs;
use crate::shapes::{annotations_stand, is_brackets};
use elm_base::{At, Declaration, Expr, Halt, Name, Pattern};
use grammar::{Cursor, NoTree, Terminal, block, paired, verified};
use pattern_parser::{brackets_at, labels, pattern_at, type_at};
use sqlite_items::Items;
use std::alloc::Global;

impl<F: Fn(Global, bool, usize, &mut Cursor<'_>) -> Result<Expr, Halt<NoTree>>> Exprs<F> {
    /// A pattern that may stand left of `=`.
    #[tactic(auto, unfolding(expr_grammar::specs::ExprReader::compound))]
    fn compound(&self, tokens: &mut Cursor<'_>) -> Result<Pattern, Halt<NoTree>>
        requires { ReadsExprs self.now.depth (F.pre self.now.below) (F.post self.now.below) }
        ensures { Reads (spec.compound (spec.below self.now.depth) tokens.old) result tokens.new }
    {
        if !tokens.sees(Terminal::LeftParen) {
            return labels(self.alloc, tokens);
        }
        let pattern = brackets_at(self.alloc, self.depth, tokens)?;
        let passes = !is_brackets(&pattern);
        verified(pattern, passes, Halt::Because(NoTree))
    }

    /// Behind a name: the type that it is to have.
    #[tactic(auto, unfolding(expr_grammar::specs::ExprReader::annotated))]
    fn annotated(
        &self,
        at: At,
        name: Name,
        tokens: &mut Cursor<'_>,
    ) -> Result<Declaration, Halt<NoTree>>
        requires { ReadsExprs self.now.depth (F.pre self.now.below) (F.post self.now.below) }
        ensures { Reads (placed_round at name
            (spec.annotated (spec.below self.now.depth)) tokens.old) result tokens.new }
    {
        tokens.expect(Terminal::Colon)?;
        let written = type_at(self.alloc, self.depth, tokens)?;
        Ok(Declaration::Annotation { at, name, written })
    }

    /// Behind a name: the parameters and the body of its definition.
    #[tactic(auto, unfolding(expr_grammar::specs::ExprReader::defined))]
    fn defined(
        &self,
        at: At,
        name: Name,
        tokens: &mut Cursor<'_>,
    ) -> Result<Declaration, Halt<NoTree>>
        requires { ReadsExprs self.now.depth (F.pre self.now.below) (F.post self.now.below) }
        ensures { Reads (placed_round at name (spec.defined (spec.below self.now.depth)) tokens.old)
            result tokens.new }
    {
        let patterns = self.parameters(tokens)?;
        let body = self.behind(Terminal::Equals, tokens)?;
        Ok(Declaration::Definition {
            at,
            name,
            patterns,
            body,
        })
    }

    #[tactic(auto, unfolding(expr_grammar::specs::ExprReader::named_definition))]
    fn named_definition(&self, tokens: &mut Cursor<'_>) -> Result<Declaration, Halt<NoTree>>
        requires { ReadsExprs self.now.depth (F.pre self.now.below) (F.post self.now.below) }
        ensures { Reads (spec.named_definition (spec.below self.now.depth) tokens.old)
            result tokens.new }
    {
        let at = tokens.here()?;
        let name = tokens.name(self.alloc, Terminal::Lower)?;
        if tokens.sees(Terminal::Colon) {
            self.annotated(at, name, tokens)
        } else {
            self.defined(at, name, tokens)
        }
    }

    #[tactic(auto, unfolding(expr_grammar::specs::ExprReader::pattern_definition))]
    fn pattern_definition(&self, tokens: &mut Cursor<'_>) -> Result<Declaration, Halt<NoTree>>
        requires { ReadsExprs self.now.depth (F.pre self.now.below) (F.post self.now.below) }
        ensures { Reads (spec.pattern_definition (spec.below self.now.depth) tokens.old)
            result tokens.new }
    {
        let at = tokens.here()?;
        let (pattern, body) = paired(
            self.compound(tokens)?,
            self.behind(Terminal::Equals, tokens),
        )?;
        Ok(Declaration::PatternDefinition { at, pattern, body })
    }

    #[tactic(auto, unfolding(expr_grammar::specs::ExprReader::definition))]
    fn definition(&self, tokens: &mut Cursor<'_>) -> Result<Declaration, Halt<NoTree>>
        requires { ReadsExprs self.now.depth (F.pre self.now.below) (F.post self.now.below) }
        ensures { Reads (spec.definition (spec.below self.now.depth) tokens.old) result tokens.new }
    {
        if tokens.sees(Terminal::Lower) {
            self.named_definition(tokens)
        } else {
            self.pattern_definition(tokens)
        }
    }

    /// One or more definitions, each begun in the column of the first.
    fn definition_block(&self, tokens: &mut Cursor<'_>) -> Result<Items<Declaration>, Halt<NoTree>>
        requires { ReadsExprs self.now.depth (F.pre self.now.below) (F.post self.now.below) }
        ensures { Reads (spec.definition_block (spec.below self.now.depth) tokens.old)
            result tokens.new }
    {
        block(
            self.alloc,
            &DEFINITIONS,
            |tokens: &mut Cursor<'_>| self.definition(tokens),
            tokens,
        )
    }

    #[tactic(auto, unfolding(expr_grammar::specs::ExprReader::definitions))]
    fn definitions(&self, tokens: &mut Cursor<'_>) -> Result<Items<Declaration>, Halt<NoTree>>
        requires { ReadsExprs self.now.depth (F.pre self.now.below) (F.post self.now.below) }
        ensures { Reads (spec.definitions (spec.below self.now.depth) tokens.old)
            result tokens.new }
    {
        let found = self.definition_block(tokens)?;
        if annotations_stand(found.as_slice()) {
            Ok(found)
        } else {
            Err(Halt::Because(NoTree))
        }
    }

    #[tactic(auto, unfolding(expr_grammar::specs::ExprReader::let_in))]
    pub fn let_in(&self, tokens: &mut Cursor<'_>) -> Result<Expr, Halt<NoTree>>
        requires { ReadsExprs self.now.depth (F.pre self.now.below) (F.post self.now.below) }
        ensures { Reads (spec.let_in (spec.below self.now.depth) tokens.old) result tokens.new }
    {
        let at = tokens.here()?;
        tokens.expect(Terminal::Let)?;
        let definitions = self.definitions(tokens)?;
        let body = self.boxed_behind(Terminal::In, tokens)?;
        Ok(Expr::Let {
            at,
            definitions,
            body,
        })
    }

    #[tactic(auto, unfolding(expr_grammar::specs::ExprReader::branch))]
    fn branch(&self, tokens: &mut Cursor<'_>) -> Result<(Pattern, Expr), Halt<NoTree>>
        requires { ReadsExprs self.now.depth (F.pre self.now.below) (F.post self.now.below) }
        ensures { Reads (spec.branch (spec.below self.now.depth) tokens.old) result tokens.new }
    {
        paired(
            pattern_at(self.alloc, self.depth, tokens)?,
            self.behind(Terminal::Arrow, tokens),
        )
    }

    /// One or more branches, each begun in the column of the first.
    fn branches(&self, tokens: &mut Cursor<'_>) -> Result<Items<(Pattern, Expr)>, Halt<NoTree>>
        requires { ReadsExprs self.now.depth (F.pre self.now.below) (F.post self.now.below) }
        ensures { Reads (spec.branches (spec.below self.now.depth) tokens.old) result tokens.new }
    {
        block(
            self.alloc,
            &PATTERNS,
            |tokens: &mut Cursor<'_>| self.branch(tokens),
            tokens,
        )
    }

    #[tactic(auto, unfolding(expr_grammar::specs::ExprReader::case_of))]
    pub fn case_of(&self, tokens: &mut Cursor<'_>) -> Result<Expr, Halt<NoTree>>
        requires { ReadsExprs self.now.depth (F.pre self.now.below) (F.post self.now.below) }
        ensures { Reads (spec.case_of (spec.below self.now.depth) tokens.old) result tokens.new }
    {
        let at = tokens.here()?;
        tokens.expect(Terminal::Case)?;
        let scrutinee = self.boxed(tokens)?;
        tokens.expect(Terminal::Of)?;
        let branches = self.branches(tokens)?;
        Ok(Expr::Case {
            at,
            scrutinee,
            branches,
        })
    }
}
