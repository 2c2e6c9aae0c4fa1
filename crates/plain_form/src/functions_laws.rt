//! The plain form of functions. The bodies are empty: what is stated holds of the definitions.

ghost use Rattle.std.specs.Prelude.{◌≡◌, ℕ, List, map};
ghost use Rattle.elm_base.specs.declared.token.At.{At};
ghost use Rattle.elm_base.specs.declared.tree.Pattern.{Pattern};
ghost use Rattle.elm_base.specs.declared.tree.Expr.{Expr};
ghost use Rattle.elm_base.specs.declared.tree.Expr.TheVariants as e;
ghost use Rattle.elm_base.specs.declared.tree.Declaration.TheVariants as d;
ghost use Rattle.typing_rules.specs.CorePatterns.{CorePattern};
ghost use Rattle.typing_rules.specs.Core.{Local, Lambda, Tuple, Field};
ghost use Rattle.plain_form.specs.Naming.{Naming};
ghost use Rattle.plain_form.specs.PlainForm.{lambdas, plain_pattern, parameters, binders, Named, plain, plain_definition};

/// Several parameters are nested lambdas. Field functions and tuple makers are lambdas with binders of their own.
pub fn functions_have_one_parameter_each()
    ensures lambda { (n : Naming) (at : At) (ps : List Pattern) (x : Expr) → plain n
        (e.Lambda at ps x)
        ≡ lambdas (map (plain_pattern n) ps) (plain n x) }
    ensures field_function { (n : Naming) (at : At) (label : List ℕ) → plain n
        (e.FieldFunction at label)
        ≡ Lambda (CorePattern.Local (n.own at 0)) (Field (Local (n.own at 0)) label) }
    ensures tuple_maker { (n : Naming) (at : At) (parts : ℕ) → plain n (e.TupleMaker at parts)
        ≡ lambdas (binders n at 0 parts) (Tuple (parameters n at 0 parts)) }
    ensures definition { (n : Naming) (at : At) (name : List ℕ) (ps : List Pattern) (x : Expr) →
        plain_definition n (d.Definition at name ps x)
        ≡ Named at name (lambdas (map (plain_pattern n) ps) (plain n x)) }
{}
