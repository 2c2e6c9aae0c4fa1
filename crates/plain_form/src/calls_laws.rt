//! The plain form of operators and calls. The bodies are empty: what is stated holds of the definitions.

ghost use Rattle.std.specs.Prelude.{◌≡◌, ◌≢◌, List, map, codes};
ghost use Rattle.elm_base.specs.declared.native.TheConstants.{NEGATE};
ghost use Rattle.elm_base.specs.declared.token.At.{At};
ghost use Rattle.elm_base.specs.declared.tree.Operator.{Operator};
ghost use Rattle.elm_base.specs.declared.tree.Expr.{Expr};
ghost use Rattle.elm_base.specs.declared.tree.Expr.TheVariants as e;
ghost use Rattle.typing_rules.specs.Core.{Native, Call, If};
ghost use Rattle.plain_form.specs.Naming.{Naming};
ghost use Rattle.plain_form.specs.PlainForm.{call, use_of, truth, falsehood, plain};

/// An operator is a call of two arguments, but `a && b` and `a || b` are `if`, by their spelling alone. `-e` is `negate e`.
pub fn operators_are_calls()
    ensures both { (n : Naming) (at : At) (operator : Operator) (x y : Expr) →
        operator.name ≡ codes "&&" →
        plain n (e.Binary at operator x y) ≡ If (plain n x) (plain n y) falsehood }
    ensures either { (n : Naming) (at : At) (operator : Operator) (x y : Expr) →
        operator.name ≡ codes "||" →
        plain n (e.Binary at operator x y) ≡ If (plain n x) truth (plain n y) }
    ensures operator { (n : Naming) (at : At) (operator : Operator) (x y : Expr) →
        operator.name ≢ codes "&&" → operator.name ≢ codes "||" →
        plain n (e.Binary at operator x y)
        ≡ Call (Call (use_of n operator.at (n.thing operator.at)) (plain n x)) (plain n y) }
    ensures negate { (n : Naming) (at : At) (x : Expr) → plain n (e.Negate at x)
        ≡ Call (Native NEGATE) (plain n x) }
{}

/// A call takes its arguments one after the other.
pub fn calls_take_one_argument_each()
    ensures { (n : Naming) (at : At) (f : Expr) (xs : List Expr) → plain n (e.Call at f xs)
        ≡ call (plain n f) (map (plain n) xs) }
{}
