//! The plain form of names. The bodies are empty: what is stated holds of the definitions.

ghost use Rattle.std.specs.Prelude.{◌≡◌, ℕ, List};
ghost use Rattle.elm_base.specs.declared.token.At.{At};
ghost use Rattle.elm_base.specs.declared.tree.Operator.{Operator};
ghost use Rattle.elm_base.specs.declared.tree.Expr.TheVariants as e;
ghost use Rattle.plain_form.specs.Naming.{Naming};
ghost use Rattle.plain_form.specs.PlainForm.{use_of, plain};

/// A name is what it stands for at its place: the number of its binder, a top-level name, a constructor, a maker.
pub fn names_stand_for_their_things()
    ensures variable { (n : Naming) (at : At) (name : List ℕ) → plain n (e.Variable at name)
        ≡ use_of n at (n.thing at) }
    ensures constructor { (n : Naming) (at : At) (name : List ℕ) → plain n (e.Constructor at name)
        ≡ use_of n at (n.thing at) }
    ensures operator_name { (n : Naming) (at : At) (name : List ℕ) → plain n
        (e.OperatorName at name)
        ≡ use_of n at (n.thing at) }
{}
