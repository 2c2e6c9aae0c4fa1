//! Worked cases of schemes. The bodies are empty: what is stated holds of the definitions.

ghost use Rattle.std.specs.Prelude.{◌≡◌, [], ◌∷◌, Some, None, codes};
ghost use Rattle.elm_typing.specs.Ground.{Ground, Function, Record, Ends};
ghost use Rattle.elm_typing.specs.Names.{signal_of};
ghost use Rattle.elm_typing.specs.Spelling.{int, char, record_of, all_simple};
ghost use Rattle.type_schemes.specs.Schemes.{HasScheme};
ghost use Rattle.type_schemes.specs.Examples.{any_to_any, ordered, over_rest, same_to_same, simple_alone, with_x};

/// A variable has one type wherever it stands, and two variables may have two.
pub fn variables_have_one_type()
    ensures same { HasScheme all_simple same_to_same (Function int int) }
    ensures other { HasScheme all_simple same_to_same (Function int char) → ⊥ }
    ensures two { HasScheme all_simple any_to_any (Function int char) }
{}

/// A variable has only types with its flag.
pub fn flags_are_kept()
    ensures order { HasScheme all_simple ordered int }
    ensures none { HasScheme all_simple ordered (Function int int) → ⊥ }
{}

/// Types are well sorted, and as the notes ask.
pub fn sorts_are_kept()
    ensures signal { HasScheme all_simple same_to_same (Function (signal_of int) (signal_of int)) }
    ensures hidden { HasScheme all_simple any_to_any (Function (signal_of int) int) → ⊥ }
    ensures noted { HasScheme all_simple simple_alone int }
    ensures refused { HasScheme all_simple simple_alone (signal_of int) → ⊥ }
{}

/// What ends a row is any record, or the one opaque rest.
pub fn rests_are_records()
    ensures field { HasScheme all_simple with_x (record_of (("x", int) ∷ ("y", char) ∷ [])) }
    ensures no_record { HasScheme all_simple with_x int → ⊥ }
    ensures rigid { HasScheme all_simple (over_rest 3) (Record (Ends (Some 3))) }
    ensures other { HasScheme all_simple (over_rest 3) (Record (Ends None)) → ⊥ }
{}
