//! What is well typed names nothing that has no type. The bodies are empty: what is stated holds of the definitions.
ghost use Rattle.std.specs.Prelude.{◌≡◌, List, []};
ghost use Rattle.elm_base.specs.declared.term.Code.{Code};
ghost use Rattle.elm_meaning.specs.FreeNames.{free_names};
ghost use Rattle.elm_meaning.specs.Lowered.{IsLowered};
ghost use Rattle.elm_typing.specs.Ground.{Ground};
ghost use Rattle.typing_rules.specs.Core.{Core};
ghost use Rattle.typing_rules.specs.CoreTypes.{CoreHas};
ghost use Rattle.typing_rules.specs.Worlds.{no_surroundings};
ghost use Rattle.typing_sound.specs.Settings.{Setting, world_of};
ghost use Rattle.core_definitions.specs.declared.one.CoreDefinition.{CoreDefinition};
ghost use Rattle.code_lower.specs.Lowered.{lowered};
ghost use Rattle.code_lower.specs.Whole.{IsCodeOf, all_of};
ghost use Rattle.typed_names.specs.Typed.{AllTyped};

/// What a definition at the top level is lowered to has no free names, where the definition has a type.
pub fn typed_terms_have_no_free_names()
    ensures { (p : Setting) (e : Core) (t : Ground) →
        CoreHas (world_of p) no_surroundings e t → free_names (lowered e) ≡ [] }
{}

/// The code of definitions that have types is all that an evaluator asks of code.
pub fn code_of_typed_definitions_is_lowered()
    ensures { (p : Setting) (groups : List (List CoreDefinition)) (code : Code) →
        IsCodeOf groups code → AllTyped p (all_of groups) → IsLowered code }
{}
