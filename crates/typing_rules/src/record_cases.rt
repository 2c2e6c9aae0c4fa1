//! Worked cases of records: of one label the newest field counts. The bodies are empty: what is stated holds of the
//! definitions.

ghost use Rattle.std.specs.Prelude.{◌≡◌, [], ◌∷◌, codes};
ghost use Rattle.elm_typing.specs.Spelling.{int, string, record_of};
ghost use Rattle.typing_rules.specs.Core.{Core, Update, Remove, Field};
ghost use Rattle.typing_rules.specs.TypingExamples.{number, text, sets, Has, HasNone, two_fields};

/// A new field stands over the old one of its label, is read and updated, and taken away shows the old one.
pub fn the_newest_field_counts()
    ensures both { Has two_fields (record_of (("x", string) ∷ ("x", int) ∷ [])) }
    ensures read { Has (Field two_fields (codes "x")) string }
    ensures removed { Has (Field (Remove two_fields (codes "x")) (codes "x")) int }
    ensures updated { Has (Update two_fields (sets (("x", text "b") ∷ []))) (record_of
        (("x", string) ∷ ("x", int) ∷ [])) }
    ensures hidden { HasNone (Update two_fields (sets (("x", number 2) ∷ []))) }
    ensures missing { HasNone (Field two_fields (codes "y")) }
{}
