//! Worked cases of the library's types. The bodies are empty: what is stated holds of the definitions.

ghost use Rattle.std.specs.Prelude.{◌≡◌, length, [], ◌∷◌};
ghost use Rattle.elm_base.specs.declared.native.TheConstants.{ADD, EQUAL, LESS, JOIN, CRASH, FOLDP, FILTER_MAP, UP, MAP2};
ghost use Rattle.elm_meaning.specs.NativeTable.{natives};
ghost use Rattle.elm_typing.specs.Ground.{Ground};
ghost use Rattle.elm_typing.specs.Names.{list_of, signal_of};
ghost use Rattle.elm_typing.specs.Spelling.{int, string, bool, maybe, tuple};
ghost use Rattle.typing_rules.specs.Library.{signatures};
ghost use Rattle.typing_rules.specs.Rules.{NativeGives};
ghost use Rattle.typing_rules.specs.TypingExamples.{functions};

/// Each native has a type.
pub fn natives_have_types()
    ensures as_many { length signatures ≡ length natives }
    ensures add { NativeGives ADD (functions (int ∷ int ∷ []) int) }
    ensures texts { NativeGives ADD (functions (string ∷ string ∷ []) string) → ⊥ }
{}

/// Natives of order take what is comparable.
pub fn an_order_is_of_comparable_types()
    ensures int { NativeGives LESS (functions (int ∷ int ∷ []) bool) }
    ensures pair { NativeGives LESS (functions (tuple (int ∷ string ∷ []) ∷ tuple (int ∷ string ∷
        []) ∷ []) bool) }
    ensures function { NativeGives LESS
        (functions (Ground.Function int int ∷ Ground.Function int int ∷ []) bool) → ⊥ }
    ensures unit { NativeGives LESS (functions (tuple [] ∷ tuple [] ∷ []) bool) → ⊥ }
    ensures different { NativeGives LESS (functions (int ∷ string ∷ []) bool) → ⊥ }
{}

/// Equality is of any two values of one type.
pub fn an_equality_is_of_any_type()
    ensures unit { NativeGives EQUAL (functions (tuple [] ∷ tuple [] ∷ []) bool) }
    ensures function { NativeGives EQUAL
        (functions (Ground.Function int int ∷ Ground.Function int int ∷ []) bool) }
    ensures different { NativeGives EQUAL (functions (int ∷ string ∷ []) bool) → ⊥ }
{}

/// Texts and lists can be joined.
pub fn a_joining_is_of_appendable_types()
    ensures list { NativeGives JOIN (functions (list_of bool ∷ list_of bool ∷ [])
        (list_of bool)) }
    ensures text { NativeGives JOIN (functions (string ∷ string ∷ []) string) }
    ensures int { NativeGives JOIN (functions (int ∷ int ∷ []) int) → ⊥ }
{}

/// What a filter gives where it has no value yet is of the type that it gives.
pub fn a_default_has_the_type_of_what_is_given()
    ensures same { NativeGives FILTER_MAP
        (functions (Ground.Function int (maybe string) ∷ string ∷ signal_of int ∷ [])
        (signal_of string)) }
    ensures apart { NativeGives FILTER_MAP
        (functions (Ground.Function int (maybe string) ∷ int ∷ signal_of int ∷ [])
        (signal_of string)) → ⊥ }
    ensures swapped { NativeGives FOLDP
        (functions (functions (string ∷ int ∷ []) string ∷ string ∷ signal_of int ∷ [])
        (signal_of string)) → ⊥ }
    ensures folded { NativeGives FOLDP
        (functions (functions (int ∷ string ∷ []) string ∷ string ∷ signal_of int ∷ [])
        (signal_of string)) }
{}
