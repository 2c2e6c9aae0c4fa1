//! All of a list of tokens as one expression.
ghost use Rattle.std.specs.Prelude.{◌≡◌, ◌≢◌, ◌≤◌, map, IfOk, IfErr, MatchResult};
ghost use Rattle.elm_base.specs.declared.memory.Halt.TheVariants as halt;
ghost use Rattle.elm_base.specs.declared.tree.Expr.{Expr};
ghost use Rattle.elm_base.specs.Lexemes.{lexeme};
ghost use Rattle.expr_grammar.specs.Expressions.{DerivesExpr};
ghost use Rattle.tree_nesting.specs.Nesting.{max_nesting};
ghost use Rattle.tree_nesting.specs.ExpressionNesting.{expr_nesting};

use crate::chains::tree_at;
use elm_base::{Expr, Halt, Token};
use grammar::{Cursor, NoTree, entire};
use std::alloc::Global;
use tree_nesting::{MOST_NESTING, expr_nests_within};

/// Of an expression that nests within the limit, so many levels stand inside each other at most.
const DEPTH: usize = 101;

/// The one expression that all the tokens stand for, if it nests at most 100 deep. `NoTree` is the answer exactly where no
/// such expression derives. An expression without parts has nesting 0, and any other one more than the most of its parts,
/// save that the parts of a chain count deeper by the number of its operators, those of a call by the number of its
/// arguments, and a body by the number of its parameters.
pub fn expr(alloc: Global, tokens: &[Token<'_>]) -> Result<Expr, Halt<NoTree>>
    ensures derives { IfOk result (λ tree. DerivesExpr (map lexeme tokens.now) tree) }
    ensures nests { IfOk result (λ tree. expr_nesting tree ≤ max_nesting) }
    // An expression that derives and nests so is given, unless memory runs out.
    ensures found { (tree : Expr) → DerivesExpr (map lexeme tokens.now) tree
        → expr_nesting tree ≤ max_nesting
        → MatchResult result (λ found. found ≡ tree) (λ cause. cause ≡ halt.NoMemory) }
    ensures refused { IfErr result (λ cause. cause ≢ halt.NoMemory → (tree : Expr)
        → DerivesExpr (map lexeme tokens.now) tree → expr_nesting tree ≤ max_nesting → ⊥) }
{
    let mut cursor = Cursor::new(tokens);
    let found = tree_at(alloc, false, DEPTH, &mut cursor)?;
    let nests = expr_nests_within(&found, MOST_NESTING);
    entire(found, &cursor, nests)
}
