//! What patterns bind. The bodies are empty: what is stated holds of the definitions.

ghost use Rattle.std.specs.Prelude.{◌≡◌, Some};
ghost use Rattle.elm_typing.specs.Ground.{Ground};
ghost use Rattle.elm_meaning.specs.Values.{Value};
ghost use Rattle.elm_meaning.specs.Matching.{Bindings, matching};
ghost use Rattle.typing_rules.specs.CorePatterns.{CorePattern, erased_pattern, Fits};
ghost use Rattle.typing_rules.specs.TermTypes.{ValueHas};
ghost use Rattle.typing_rules.specs.Worlds.{Bound};
ghost use Rattle.typing_sound.specs.SafeEndings.{BindsTyped};
ghost use Rattle.typing_sound.specs.Settings.{Setting, world_of};

/// A pattern that fits a type binds, where it fits a value of that type too, values of the types that its names have.
pub fn patterns_bind_typed_values()
    ensures { (p : Setting) (pattern : CorePattern) (v : Value) (t : Ground) (bound : Bound)
        (bindings : Bindings) →
        Fits (world_of p).unions pattern t bound → ValueHas (world_of p) v t →
        matching (erased_pattern pattern) v ≡ Some bindings →
        BindsTyped (world_of p) bindings bound }
{}
