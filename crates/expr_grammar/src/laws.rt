//! What holds of the grammar of expressions, whatever reads it.
ghost use Rattle.std.specs.Prelude.{◌≡◌, List};
ghost use Rattle.elm_base.specs.Lexemes.{Lexeme};
ghost use Rattle.elm_base.specs.declared.tree.Expr.{Expr};
ghost use Rattle.expr_grammar.specs.Expressions.{DerivesExpr};

/// A list of tokens stands for at most one expression, however deep it nests.
pub fn one_expr()
    ensures { (ts : List Lexeme) (x y : Expr) → DerivesExpr ts x → DerivesExpr ts y → x ≡ y }
{}
