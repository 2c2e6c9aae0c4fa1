//! Laws of surroundings. The bodies are empty: what is stated holds of the definitions.

ghost use Rattle.std.specs.Prelude.{◌≡◌, ℕ, true};
ghost use Rattle.elm_typing.specs.Ground.{Ground};
ghost use Rattle.elm_meaning.specs.Values.{Tree};
ghost use Rattle.elm_meaning.specs.FreeNames.{free_names, is_among};
ghost use Rattle.elm_meaning.specs.Substitution.{Names, fill};
ghost use Rattle.typing_rules.specs.TermTypes.{TermHas};
ghost use Rattle.typing_sound.specs.SafeEndings.{Fills};
ghost use Rattle.typing_sound.specs.Settings.{Setting, Scope, world_of, types_in};

/// More surroundings type no less: a term has each of its types also where its names have more.
pub fn more_surroundings_type_no_less()
    ensures { (p : Setting) (inner outer : Scope) (e : Tree) (t : Ground) →
        ((y : ℕ) (u : Ground) → types_in (world_of p) inner y u → types_in
        (world_of p) outer y u) →
        TermHas (world_of p) (types_in (world_of p) inner) e t →
        TermHas (world_of p) (types_in (world_of p) outer) e t }
{}

/// Names may be replaced by values of their types, and the term has its type.
pub fn substitution_keeps_types()
    ensures { (p : Setting) (before after : Scope) (σ : Names) (e : Tree) (t : Ground) →
        Fills (world_of p) (types_in (world_of p) before) σ (types_in (world_of p) after) →
        TermHas (world_of p) (types_in (world_of p) before) e t →
        TermHas (world_of p) (types_in (world_of p) after) (fill e σ) t }
{}

/// Only the names that stand free in a term matter.
pub fn only_used_names_matter()
    ensures { (p : Setting) (inner outer : Scope) (e : Tree) (t : Ground) →
        ((y : ℕ) → is_among y (free_names e) ≡ true →
        (u : Ground) → types_in (world_of p) inner y u → types_in (world_of p) outer y u) →
        TermHas (world_of p) (types_in (world_of p) inner) e t →
        TermHas (world_of p) (types_in (world_of p) outer) e t }
{}
