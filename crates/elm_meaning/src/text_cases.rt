//! Worked cases of the texts of values. The bodies are empty: what is stated holds of the definitions by computation.

ghost use Rattle.std.specs.Prelude.{◌≡◌, true, false, [], ◌∷◌};
ghost use Rattle.elm_base.specs.declared.native.TheConstants.{ADD};
ghost use Rattle.elm_meaning.specs.Values.{Unit, Signal};
ghost use Rattle.elm_meaning.specs.Answers.{truth};
ghost use Rattle.elm_meaning.specs.ValueText.{text_of};
ghost use Rattle.elm_meaning.specs.Spelling.{int, minus, char, text, list, tuple, made, record_of, element, native_value, bytes};

/// Numbers, `()`, lists, tuples, and what has no text of its own.
pub fn values_have_texts()
    ensures int { text_of (int 120) ≡ bytes "120" }
    ensures negative { text_of (minus 12) ≡ bytes "-12" }
    ensures truth { text_of (truth true) ≡ bytes "True" }
    ensures falsehood { text_of (truth false) ≡ bytes "False" }
    ensures unit { text_of Unit ≡ bytes "()" }
    ensures empty { text_of (list []) ≡ bytes "[]" }
    ensures one { text_of (list (int 1 ∷ [])) ≡ bytes "[1]" }
    ensures list { text_of (list (minus 1 ∷ int 12 ∷ [])) ≡ bytes "[-1,12]" }
    ensures tuple { text_of (tuple (text "a" ∷ int 1 ∷ tuple (int 1 ∷ text "a" ∷ []) ∷ []))
        ≡ bytes "(\"a\",1,(1,\"a\"))" }
    ensures function { text_of (native_value ADD) ≡ bytes "<function>" }
    ensures signal { text_of (Signal 3) ≡ bytes "<signal>" }
    ensures element { text_of (element 1 1 ("a" ∷ [])) ≡ bytes "<element>" }
{}

/// A text stands in double quotes and a char in single ones, each with its own quote escaped.
pub fn quotes_are_escaped()
    ensures text { text_of (text "a\"b'c") ≡ bytes "\"a\\\"b'c\"" }
    ensures char { text_of (char "'") ≡ bytes "'\\''" }
    ensures double { text_of (char "\"") ≡ bytes "'\"'" }
    ensures backslash { text_of (text "\\") ≡ bytes "\"\\\\\"" }
    ensures newline { text_of (text "\n") ≡ bytes "\"\\n\"" }
    ensures tab { text_of (text "\t") ≡ bytes "\"\\t\"" }
    ensures carriage_return { text_of (text "\r") ≡ bytes "\"\\r\"" }
    ensures newline_char { text_of (char "\n") ≡ bytes "'\\n'" }
    ensures other { text_of (text "ä\u{7}") ≡ bytes "\"ä\u{7}\"" }
{}

/// Of a record the visible fields are written, by label.
pub fn visible_fields_are_written()
    ensures fields { text_of (record_of (("x", int 0) ∷ ("y", int 0) ∷ []))
        ≡ bytes "{ x = 0, y = 0 }" }
    ensures none { text_of (record_of []) ≡ bytes "{}" }
    ensures hidden { text_of (record_of (("x", int 2) ∷ ("x", int 1) ∷ [])) ≡ bytes "{ x = 2 }" }
    ensures behind { text_of (record_of (("x", int 2) ∷ ("x", int 1) ∷ ("y", int 3) ∷ ("y", int 4) ∷ []))
        ≡ bytes "{ x = 2, y = 3 }" }
{}

/// An argument stands in brackets exactly where it is a constructor with arguments.
pub fn arguments_stand_in_brackets()
    ensures alone { text_of (made "Nothing" []) ≡ bytes "Nothing" }
    ensures plain { text_of (made "Just" (minus 5 ∷ [])) ≡ bytes "Just -5" }
    ensures nested { text_of (made "Just" (made "Just" (minus 5 ∷ []) ∷ []))
        ≡ bytes "Just (Just -5)" }
    ensures name { text_of (made "Just" (made "Nothing" [] ∷ [])) ≡ bytes "Just Nothing" }
    ensures both { text_of (made "P" (made "Just" (int 1 ∷ []) ∷ tuple (int 2 ∷ int 3 ∷ []) ∷ []))
        ≡ bytes "P (Just 1) (2,3)" }
    ensures inside { text_of (list (made "Just" (int 1 ∷ []) ∷ [])) ≡ bytes "[Just 1]" }
{}
