//! Laws of what evaluation forgets. The bodies are empty: what is stated holds of the definitions.

ghost use Rattle.elm_typing.specs.Ground.{Ground};
ghost use Rattle.typing_rules.specs.Core.{Core, erased};
ghost use Rattle.typing_rules.specs.CoreTypes.{CoreHas};
ghost use Rattle.typing_rules.specs.TermTypes.{TermHas};
ghost use Rattle.typing_sound.specs.Settings.{Setting, Scope, world_of, types_in};

/// What a tree of a program's text has as a type, the plain term that is left of it has too, whatever its free names have.
pub fn erasing_keeps_types()
    ensures { (p : Setting) (scope : Scope) (e : Core) (t : Ground) →
        CoreHas (world_of p) (types_in (world_of p) scope) e t →
        TermHas (world_of p) (types_in (world_of p) scope) (erased e) t }
{}
