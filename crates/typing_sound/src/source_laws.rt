//! What is rewritten has the types of what it is rewritten to, on the trees of a program's text. The bodies are empty: what
//! is stated holds of the definitions.

ghost use Rattle.std.specs.Prelude.{◌≡◌, ◌≢◌, ℕ, List, [], ◌∷◌, Some, None, map, codes};
ghost use Rattle.elm_base.specs.declared.project.Thing.TheVariants as thing;
ghost use Rattle.elm_base.specs.declared.token.At.{At};
ghost use Rattle.elm_base.specs.declared.tree.Pattern.{Pattern};
ghost use Rattle.elm_base.specs.declared.tree.Pattern.TheVariants as q;
ghost use Rattle.elm_base.specs.declared.tree.Operator.{Operator};
ghost use Rattle.elm_base.specs.declared.tree.Expr.{Expr};
ghost use Rattle.elm_base.specs.declared.tree.Expr.TheVariants as e;
ghost use Rattle.elm_base.specs.declared.tree.Declaration.{Declaration};
ghost use Rattle.elm_base.specs.declared.tree.Declaration.TheVariants as d;
ghost use Rattle.elm_typing.specs.Ground.{Ground};
ghost use Rattle.elm_typing.specs.Names.{list_of};
ghost use Rattle.typing_rules.specs.Core.{Core, CoreGroup};
ghost use Rattle.typing_rules.specs.CorePatterns.{CorePattern, Fits};
ghost use Rattle.typing_rules.specs.CoreTypes.{names_in, CoreHas, CoreGroupHas};
ghost use Rattle.typing_rules.specs.Rules.{Well, Defined as DefinedBy, Grouped};
ghost use Rattle.typing_rules.specs.Worlds.{Bound};
ghost use Rattle.plain_form.specs.Naming.{Naming};
ghost use Rattle.plain_form.specs.PlainForm.{plain, plain_pattern, plain_definition, use_of, Defined, Named, Apart, functions_of, defined_at, annotation_of, held_to, groups_before};
ghost use Rattle.typing_sound.specs.Rewritings.{SameTypes, types_of, OfTwoBools, OfOneInt, CalledWithTwo, EachFits, Rest};
ghost use Rattle.typing_sound.specs.Settings.{Setting, Scope, world_of, types_in};

/// `a && b` and `a || b` have the type Bool where both sides have it. Any other operator is called with two arguments. `-e`
/// has the type Int where e has it.
pub fn operators_have_the_types_of_calls()
    ensures both { (p : Setting) (scope : Scope) (n : Naming) (at : At) (operator : Operator)
        (x y : Expr) → operator.name ≡ codes "&&" →
        SameTypes (types_of p scope (plain n (e.Binary at operator x y)))
        (OfTwoBools (types_of p scope (plain n x)) (types_of p scope (plain n y))) }
    ensures either { (p : Setting) (scope : Scope) (n : Naming) (at : At) (operator : Operator)
        (x y : Expr) → operator.name ≡ codes "||" →
        SameTypes (types_of p scope (plain n (e.Binary at operator x y)))
        (OfTwoBools (types_of p scope (plain n x)) (types_of p scope (plain n y))) }
    ensures operator { (p : Setting) (scope : Scope) (n : Naming) (at : At) (operator : Operator)
        (x y : Expr) → operator.name ≢ codes "&&" → operator.name ≢ codes "||" →
        SameTypes (types_of p scope (plain n (e.Binary at operator x y)))
        (CalledWithTwo (types_of p scope (use_of n operator.at (n.thing operator.at)))
        (types_of p scope (plain n x)) (types_of p scope (plain n y))) }
    ensures negate { (p : Setting) (scope : Scope) (n : Naming) (at : At) (x : Expr) →
        SameTypes (types_of p scope (plain n (e.Negate at x)))
        (OfOneInt (types_of p scope (plain n x))) }
{}

/// Several parameters are those of nested lambdas, and several arguments those of nested calls. A definition with
/// parameters is one of a lambda.
pub fn functions_have_the_types_of_nested_lambdas()
    ensures lambda { (p : Setting) (scope : Scope) (n : Naming) (at : At) (first : Pattern)
        (more : List Pattern) (x : Expr) →
        SameTypes (types_of p scope (plain n (e.Lambda at (first ∷ more) x)))
        (types_of p scope (plain n (e.Lambda at (first ∷ []) (e.Lambda at more x)))) }
    ensures call { (p : Setting) (scope : Scope) (n : Naming) (at : At) (f first : Expr)
        (more : List Expr) →
        SameTypes (types_of p scope (plain n (e.Call at f (first ∷ more))))
        (types_of p scope (plain n (e.Call at (e.Call at f (first ∷ [])) more))) }
    ensures definition { (n : Naming) (at : At) (name : List ℕ) (ps : List Pattern) (x : Expr) →
        plain_definition n (d.Definition at name ps x)
        ≡ plain_definition n (d.Definition at name [] (e.Lambda at ps x)) }
{}

/// Brackets change nothing. A name has the types of what it stands for: a local one those that its binder's number has.
pub fn names_have_the_types_of_their_things()
    ensures brackets { (p : Setting) (scope : Scope) (n : Naming) (at : At) (x : Expr) →
        SameTypes (types_of p scope (plain n (e.Brackets at x))) (types_of p scope (plain n x)) }
    ensures local { (p : Setting) (scope : Scope) (n : Naming) (at binder : At) (name : List ℕ) →
        n.thing at ≡ Some (thing.Local binder) →
        SameTypes (types_of p scope (plain n (e.Variable at name)))
        (Well (world_of p) (types_in (world_of p) scope (n.number binder))) }
    ensures top { (p : Setting) (scope : Scope) (n : Naming) (at : At)
        (name module_name top : List ℕ) →
        n.thing at ≡ Some (thing.Top module_name top) →
        SameTypes (types_of p scope (plain n (e.Variable at name)))
        (types_of p scope (n.top module_name top)) }
{}

/// A list pattern fits the lists whose elements have a type that each of its parts fits. Brackets round a pattern change
/// nothing.
pub fn list_patterns_fit_lists()
    ensures list { (p : Setting) (n : Naming) (at : At) (ps : List Pattern) (t : Ground)
        (bound : Bound) →
        Fits (world_of p).unions (plain_pattern n (q.List at ps)) t bound →
        (element : Ground) × (t ≡ list_of element)
        × EachFits (world_of p).unions (map (plain_pattern n) ps) element bound }
    ensures elements { (p : Setting) (n : Naming) (at : At) (ps : List Pattern) (element : Ground)
        (bound : Bound) →
        EachFits (world_of p).unions (map (plain_pattern n) ps) element bound →
        Fits (world_of p).unions (plain_pattern n (q.List at ps)) (list_of element) bound }
    ensures brackets { (n : Naming) (at : At) (inner : Pattern) →
        plain_pattern n (q.Brackets at inner) ≡ plain_pattern n inner }
{}

/// A `let` has the types of its groups one after the other, and then of its body: a group of functions is generalised as a
/// whole, a definition by the rule of its pattern.
pub fn blocks_have_the_types_of_their_groups()
    ensures block { (p : Setting) (scope : Scope) (n : Naming) (at : At) (ds : List Declaration)
        (x : Expr) →
        SameTypes (types_of p scope (plain n (e.Let at ds x)))
        (types_of p scope (groups_before n (n.groups at) (map (plain_definition n) ds)
        (plain n x))) }
    ensures functions { (p : Setting) (scope : Scope) (n : Naming) (group : List At)
        (more : List (List At)) (all : List Defined) (body : Core) (g : CoreGroup) →
        functions_of n group all ≡ Some g →
        SameTypes (types_of p scope (groups_before n (group ∷ more) all body))
        (Well (world_of p) (Grouped (world_of p) (names_in g)
        (λ s. CoreGroupHas (world_of p) s g)
        (Rest p n more all body) (types_in (world_of p) scope))) }
    ensures value { (p : Setting) (scope : Scope) (n : Naming) (at place : At)
        (more : List (List At)) (all : List Defined) (body value : Core) (name : List ℕ) →
        functions_of n (at ∷ []) all ≡ None → defined_at at all ≡ Named place name value →
        SameTypes (types_of p scope (groups_before n ((at ∷ []) ∷ more) all body))
        (Well (world_of p) (DefinedBy (world_of p) (CorePattern.Local (n.number place))
        (λ s. CoreHas (world_of p) s (held_to (annotation_of name all) value))
        (Rest p n more all body) (types_in (world_of p) scope))) }
    ensures pattern { (p : Setting) (scope : Scope) (n : Naming) (at place : At)
        (more : List (List At)) (all : List Defined) (body value : Core)
        (pattern : CorePattern) →
        functions_of n (at ∷ []) all ≡ None → defined_at at all ≡ Apart place pattern value →
        SameTypes (types_of p scope (groups_before n ((at ∷ []) ∷ more) all body))
        (Well (world_of p) (DefinedBy (world_of p) pattern
        (λ s. CoreHas (world_of p) s value)
        (Rest p n more all body) (types_in (world_of p) scope))) }
{}
