//! Worked cases of the natives on numbers, chars, texts and lists, and of those that compare or note: the work, then
//! the answer or the fault. The bodies are empty: what is stated holds of the definitions by computation.

ghost use Rattle.std.specs.Prelude.{◌≡◌, true, false, codes, [], ◌∷◌};
ghost use Rattle.elm_base.specs.declared.native.TheConstants.{ADD, SUBTRACT, MULTIPLY, DIVIDE, MODULO, REMAINDER, NEGATE, EQUAL, NOT_EQUAL, LESS, GREATER, AT_MOST, AT_LEAST, COMPARE, JOIN, TO_STRING, CHAR_TO_CODE, CHAR_FROM_CODE, STRING_LENGTH, STRING_REVERSE, STRING_TO_LIST, STRING_FROM_LIST, STRING_TO_INT, WATCH, LOG, CRASH};
ghost use Rattle.elm_base.specs.declared.term.RunFault.TheVariants.{IntRange, DivideByZero, CharRange, FunctionEquality, Crash};
ghost use Rattle.elm_meaning.specs.Values.{Unit, Text};
ghost use Rattle.elm_meaning.specs.Answers.{Answer, Gives, Faults, free, after, no_reply, truth};
ghost use Rattle.elm_meaning.specs.NativeTable.{reply};
ghost use Rattle.elm_meaning.specs.Spelling.{int, minus, char, text, list, tuple, made, native_value, bytes, watched, logged};

/// `+`, `-`, `*` and `negate` cost nothing and are a fault outside 64 bits.
pub fn numbers_have_64_bits()
    ensures add { reply ADD (int 2 ∷ int 3 ∷ []) ≡ free (Gives (int 5)) }
    ensures most { reply ADD (int 9223372036854775806 ∷ int 1 ∷ [])
        ≡ free (Gives (int 9223372036854775807)) }
    ensures above { reply ADD (int 9223372036854775807 ∷ int 1 ∷ []) ≡ free (Faults IntRange) }
    ensures below { reply ADD (minus 9223372036854775808 ∷ minus 1 ∷ []) ≡ free (Faults IntRange) }
    ensures subtract { reply SUBTRACT (int 2 ∷ int 5 ∷ []) ≡ free (Gives (minus 3)) }
    ensures least { reply SUBTRACT (minus 9223372036854775807 ∷ int 1 ∷ [])
        ≡ free (Gives (minus 9223372036854775808)) }
    ensures less { reply SUBTRACT (minus 9223372036854775808 ∷ int 1 ∷ [])
        ≡ free (Faults IntRange) }
    ensures multiply { reply MULTIPLY (minus 3 ∷ int 4 ∷ []) ≡ free (Gives (minus 12)) }
    ensures signs { reply MULTIPLY (minus 6 ∷ minus 7 ∷ []) ≡ free (Gives (int 42)) }
    ensures product { reply MULTIPLY (int 4294967296 ∷ int 2147483648 ∷ [])
        ≡ free (Faults IntRange) }
    ensures negate { reply NEGATE (int 5 ∷ []) ≡ free (Gives (minus 5)) }
    ensures back { reply NEGATE (minus 5 ∷ []) ≡ free (Gives (int 5)) }
    ensures no_negative { reply NEGATE (minus 9223372036854775808 ∷ []) ≡ free (Faults IntRange) }
{}

/// `//` rounds towards zero, `%` has the divisor's sign and `rem` the dividend's. They divide by no zero.
pub fn divisions_round_as_said()
    ensures divide { reply DIVIDE (int 7 ∷ int 2 ∷ []) ≡ free (Gives (int 3)) }
    ensures towards { reply DIVIDE (minus 7 ∷ int 2 ∷ []) ≡ free (Gives (minus 3)) }
    ensures divisor { reply DIVIDE (int 7 ∷ minus 2 ∷ []) ≡ free (Gives (minus 3)) }
    ensures both { reply DIVIDE (minus 7 ∷ minus 2 ∷ []) ≡ free (Gives (int 3)) }
    ensures by_zero { reply DIVIDE (int 1 ∷ int 0 ∷ []) ≡ free (Faults DivideByZero) }
    ensures least { reply DIVIDE (minus 9223372036854775808 ∷ minus 1 ∷ [])
        ≡ free (Faults IntRange) }
    ensures modulo { reply MODULO (minus 1 ∷ int 4 ∷ []) ≡ free (Gives (int 3)) }
    ensures plain { reply MODULO (int 7 ∷ int 2 ∷ []) ≡ free (Gives (int 1)) }
    ensures below { reply MODULO (int 7 ∷ minus 3 ∷ []) ≡ free (Gives (minus 2)) }
    ensures negative { reply MODULO (minus 7 ∷ minus 3 ∷ []) ≡ free (Gives (minus 1)) }
    ensures whole { reply MODULO (minus 6 ∷ int 3 ∷ []) ≡ free (Gives (int 0)) }
    ensures modulo_zero { reply MODULO (int 1 ∷ int 0 ∷ []) ≡ free (Faults DivideByZero) }
    ensures modulo_least { reply MODULO (minus 9223372036854775808 ∷ minus 1 ∷ [])
        ≡ free (Gives (int 0)) }
    ensures remainder { reply REMAINDER (minus 7 ∷ int 2 ∷ []) ≡ free (Gives (minus 1)) }
    ensures sign { reply REMAINDER (int 7 ∷ minus 2 ∷ []) ≡ free (Gives (int 1)) }
    ensures remainder_zero { reply REMAINDER (int 1 ∷ int 0 ∷ []) ≡ free (Faults DivideByZero) }
{}

/// `==` and `/=` cost the pairs visited, and are a fault at a pair of functions.
pub fn equalities_cost_their_pairs()
    ensures equal { reply EQUAL (Unit ∷ Unit ∷ []) ≡ after 1 (Gives (truth true)) }
    ensures different { reply EQUAL (int 1 ∷ int 2 ∷ []) ≡ after 1 (Gives (truth false)) }
    ensures kinds { reply EQUAL (int 1 ∷ Unit ∷ []) ≡ after 1 (Gives (truth false)) }
    ensures pairs { reply EQUAL (text "ab" ∷ text "ab" ∷ []) ≡ after 3 (Gives (truth true)) }
    ensures functions { reply EQUAL (native_value ADD ∷ native_value ADD ∷ [])
        ≡ after 1 (Faults FunctionEquality) }
    ensures unequal { reply NOT_EQUAL (int 1 ∷ int 2 ∷ []) ≡ after 1 (Gives (truth true)) }
    ensures same { reply NOT_EQUAL (int 2 ∷ int 2 ∷ []) ≡ after 1 (Gives (truth false)) }
    ensures no_inequality { reply NOT_EQUAL (list (native_value ADD ∷ []) ∷ list (native_value ADD ∷ []) ∷ [])
        ≡ after 2 (Faults FunctionEquality) }
{}

/// `<`, `>`, `<=`, `>=` and `compare`, of a less, an equal and a greater value. They have no answer without an order.
pub fn orders_cost_their_pairs()
    ensures less { reply LESS (int 1 ∷ int 2 ∷ []) ≡ after 1 (Gives (truth true)) }
    ensures less_same { reply LESS (int 2 ∷ int 2 ∷ []) ≡ after 1 (Gives (truth false)) }
    ensures less_greater { reply LESS (list (int 2 ∷ []) ∷ list (int 1 ∷ int 9 ∷ []) ∷ [])
        ≡ after 2 (Gives (truth false)) }
    ensures greater { reply GREATER (char "b" ∷ char "a" ∷ []) ≡ after 1 (Gives (truth true)) }
    ensures greater_same { reply GREATER (int 2 ∷ int 2 ∷ []) ≡ after 1 (Gives (truth false)) }
    ensures greater_less { reply GREATER (int 1 ∷ int 2 ∷ []) ≡ after 1 (Gives (truth false)) }
    ensures at_most { reply AT_MOST (int 1 ∷ int 2 ∷ []) ≡ after 1 (Gives (truth true)) }
    ensures at_most_same { reply AT_MOST (int 3 ∷ int 3 ∷ []) ≡ after 1 (Gives (truth true)) }
    ensures at_most_greater { reply AT_MOST (int 3 ∷ int 2 ∷ []) ≡ after 1 (Gives (truth false)) }
    ensures at_least { reply AT_LEAST (int 2 ∷ int 3 ∷ []) ≡ after 1 (Gives (truth false)) }
    ensures at_least_same { reply AT_LEAST (int 3 ∷ int 3 ∷ []) ≡ after 1 (Gives (truth true)) }
    ensures at_least_greater { reply AT_LEAST (int 3 ∷ int 2 ∷ []) ≡ after 1 (Gives (truth true)) }
    ensures compare { reply COMPARE (text "a" ∷ text "ab" ∷ []) ≡ after 2 (Gives (made "LT" [])) }
    ensures compare_same { reply COMPARE (int 2 ∷ int 2 ∷ []) ≡ after 1 (Gives (made "EQ" [])) }
    ensures compare_greater { reply COMPARE (int 3 ∷ int 2 ∷ []) ≡ after 1 (Gives (made "GT" [])) }
    ensures functions { reply LESS (native_value ADD ∷ native_value ADD ∷ [])
        ≡ after 1 (Faults FunctionEquality) }
    ensures no_order { reply LESS (Unit ∷ Unit ∷ []) ≡ after 1 Answer.NoRule }
    ensures no_parts { reply LESS (made "Just" (int 1 ∷ []) ∷ made "Just" (int 1 ∷ []) ∷ [])
        ≡ after 1 Answer.NoRule }
{}

/// `++` costs the chars of the result, or the elements on the left.
pub fn texts_and_lists_are_joined()
    ensures texts { reply JOIN (text "a" ∷ text "bc" ∷ []) ≡ after 3 (Gives (text "abc")) }
    ensures chars { reply JOIN (text "ä" ∷ text "" ∷ []) ≡ after 1 (Gives (text "ä")) }
    ensures lists { reply JOIN (list (int 1 ∷ int 2 ∷ []) ∷ list (int 3 ∷ []) ∷ [])
        ≡ after 2 (Gives (list (int 1 ∷ int 2 ∷ int 3 ∷ []))) }
    ensures nothing { reply JOIN (list [] ∷ list (int 3 ∷ []) ∷ [])
        ≡ after 0 (Gives (list (int 3 ∷ []))) }
    ensures no_end { reply JOIN (list (int 1 ∷ []) ∷ list [] ∷ [])
        ≡ after 1 (Gives (list (int 1 ∷ []))) }
    ensures kinds { reply JOIN (text "a" ∷ list [] ∷ []) ≡ no_reply }
    ensures numbers { reply JOIN (list (int 1 ∷ []) ∷ int 1 ∷ []) ≡ no_reply }
{}

/// `toCode` and `fromCode`. A surrogate, a negative number and one above the last char are no chars.
pub fn chars_have_codes()
    ensures code { reply CHAR_TO_CODE (char "a" ∷ []) ≡ free (Gives (int 97)) }
    ensures from { reply CHAR_FROM_CODE (int 97 ∷ []) ≡ free (Gives (char "a")) }
    ensures before { reply CHAR_FROM_CODE (int 55295 ∷ []) ≡ free (Gives (char "\u{d7ff}")) }
    ensures surrogate { reply CHAR_FROM_CODE (int 55296 ∷ []) ≡ free (Faults CharRange) }
    ensures low_surrogate { reply CHAR_FROM_CODE (int 57343 ∷ []) ≡ free (Faults CharRange) }
    ensures last { reply CHAR_FROM_CODE (int 1114111 ∷ []) ≡ free (Gives (char "\u{10ffff}")) }
    ensures above { reply CHAR_FROM_CODE (int 1114112 ∷ []) ≡ free (Faults CharRange) }
    ensures negative { reply CHAR_FROM_CODE (minus 1 ∷ []) ≡ free (Faults CharRange) }
{}

/// The natives on texts cost the chars of the text; `fromList` its elements. Bytes that aren't UTF-8 have no chars for
/// `toList` and `reverse`, as the empty text.
pub fn texts_are_lists_of_chars()
    ensures length { reply STRING_LENGTH (text "äb" ∷ []) ≡ after 2 (Gives (int 2)) }
    ensures reversed { reply STRING_REVERSE (text "äb" ∷ []) ≡ after 2 (Gives (text "bä")) }
    ensures chars { reply STRING_TO_LIST (text "äb" ∷ [])
        ≡ after 2 (Gives (list (char "ä" ∷ char "b" ∷ []))) }
    ensures text { reply STRING_FROM_LIST (list (char "ä" ∷ char "b" ∷ []) ∷ [])
        ≡ after 2 (Gives (text "äb")) }
    ensures empty { reply STRING_TO_LIST (text "" ∷ []) ≡ after 0 (Gives (list [])) }
    ensures no_text { reply STRING_TO_LIST (Text (97 ∷ 195 ∷ []) ∷ [])
        ≡ after 0 (Gives (list [])) }
    ensures surrogate { reply STRING_REVERSE (Text (237 ∷ 160 ∷ 128 ∷ []) ∷ [])
        ≡ after 0 (Gives (text "")) }
    ensures no_chars { reply STRING_FROM_LIST (list (char "a" ∷ int 1 ∷ []) ∷ [])
        ≡ after 2 Answer.NoRule }
{}

/// `toInt` reads an optional `-` and digits within 64 bits.
pub fn texts_are_read_as_numbers()
    ensures number { reply STRING_TO_INT (text "12" ∷ [])
        ≡ after 2 (Gives (made "Ok" (int 12 ∷ []))) }
    ensures negative { reply STRING_TO_INT (text "-12" ∷ [])
        ≡ after 3 (Gives (made "Ok" (minus 12 ∷ []))) }
    ensures zeros { reply STRING_TO_INT (text "-007" ∷ [])
        ≡ after 4 (Gives (made "Ok" (minus 7 ∷ []))) }
    ensures no_zero { reply STRING_TO_INT (text "-0" ∷ [])
        ≡ after 2 (Gives (made "Ok" (int 0 ∷ []))) }
    ensures least { reply STRING_TO_INT (text "-9223372036854775808" ∷ [])
        ≡ after 20 (Gives (made "Ok" (minus 9223372036854775808 ∷ []))) }
    ensures above { reply STRING_TO_INT (text "9223372036854775808" ∷ [])
        ≡ after 19
        (Gives
        (made "Err" (text "could not convert string '9223372036854775808' to an Int" ∷ []))) }
    ensures no_digit { reply STRING_TO_INT (text "-" ∷ [])
        ≡ after 1 (Gives (made "Err" (text "could not convert string '-' to an Int" ∷ []))) }
    ensures empty { reply STRING_TO_INT (text "" ∷ [])
        ≡ after 0 (Gives (made "Err" (text "could not convert string '' to an Int" ∷ []))) }
    ensures plus { reply STRING_TO_INT (text "+1" ∷ [])
        ≡ after 2 (Gives (made "Err" (text "could not convert string '+1' to an Int" ∷ []))) }
    ensures behind { reply STRING_TO_INT (text "1a" ∷ [])
        ≡ after 2 (Gives (made "Err" (text "could not convert string '1a' to an Int" ∷ []))) }
    ensures before_zero { reply STRING_TO_INT (text "/" ∷ [])
        ≡ after 1 (Gives (made "Err" (text "could not convert string '/' to an Int" ∷ []))) }
    ensures after_nine { reply STRING_TO_INT (text ":" ∷ [])
        ≡ after 1 (Gives (made "Err" (text "could not convert string ':' to an Int" ∷ []))) }
{}

/// `watch` and `log` cost the chars of the value's text, give the value and note its text. `toString` gives the text,
/// `crash` is a fault.
pub fn notes_are_recorded()
    ensures watch { reply WATCH (text "n" ∷ int 12 ∷ [])
        ≡ record { work = 2; answer = Gives (int 12); notes = watched "n" "12" ∷ [] } }
    ensures log { reply LOG (text "" ∷ text "ä" ∷ [])
        ≡ record { work = 3; answer = Gives (text "ä"); notes = logged "" "\"ä\"" ∷ [] } }
    ensures string { reply TO_STRING (char "ä" ∷ []) ≡ after 3 (Gives (text "'ä'")) }
    ensures crash { reply CRASH (text "no" ∷ []) ≡ free (Faults (Crash (bytes "no"))) }
{}
