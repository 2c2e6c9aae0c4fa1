//! Worked cases of the comparisons: how many pairs are visited, and what they show. The bodies are empty: what is
//! stated holds of the definitions by computation.

ghost use Rattle.std.specs.Prelude.{◌≡◌, [], ◌∷◌};
ghost use Rattle.elm_base.specs.declared.native.TheConstants.{NEGATE, TO_STRING};
ghost use Rattle.elm_meaning.specs.declared.compared.Comparison.TheVariants.{Equality, Order};
ghost use Rattle.elm_meaning.specs.declared.compared.Outcome.TheVariants.{Less, Equal, Greater, Different, FunctionMet, OutOfFuel};
ghost use Rattle.elm_meaning.specs.Values.{Unit, Signal, no_value};
ghost use Rattle.elm_meaning.specs.PairsVisited.{visited, compared, after_pairs};
ghost use Rattle.elm_meaning.specs.Spelling.{int, minus, char, text, list, tuple, made, record_of, element, native_value};

/// Numbers, chars, `()`, and the ends of lists are one pair. An equality finds every difference `Different`.
pub fn single_values_are_one_pair()
    ensures ints { visited Equality (int 3) (int 3) ≡ after_pairs 1 Equal }
    ensures other_ints { visited Equality (int 2) (int 3) ≡ after_pairs 1 Different }
    ensures less { visited Order (minus 2) (int 3) ≡ after_pairs 1 Less }
    ensures same { visited Order (int 3) (int 3) ≡ after_pairs 1 Equal }
    ensures greater { visited Order (minus 2) (minus 3) ≡ after_pairs 1 Greater }
    ensures chars { visited Equality (char "a") (char "a") ≡ after_pairs 1 Equal }
    ensures other_chars { visited Equality (char "a") (char "b") ≡ after_pairs 1 Different }
    ensures earlier_char { visited Order (char "Z") (char "a") ≡ after_pairs 1 Less }
    ensures later_char { visited Order (char "b") (char "a") ≡ after_pairs 1 Greater }
    ensures units { visited Equality Unit Unit ≡ after_pairs 1 Equal }
    ensures units_in_order { visited Order Unit Unit ≡ after_pairs 1 Different }
    ensures signals { visited Equality (Signal 4) (Signal 4) ≡ after_pairs 1 Equal }
    ensures other_signals { visited Equality (Signal 4) (Signal 5) ≡ after_pairs 1 Different }
    ensures signals_in_order { visited Order (Signal 4) (Signal 4) ≡ after_pairs 1 Different }
    ensures kinds { visited Equality (int 97) (char "a") ≡ after_pairs 1 Different }
    ensures kinds_in_order { visited Order (text "a") (char "a") ≡ after_pairs 1 Different }
    ensures text_and_list { visited Equality (text "") (list []) ≡ after_pairs 1 Different }
{}

/// A text is one pair, and then one for each place compared until they differ or one ends.
pub fn texts_go_by_first_difference()
    ensures same { visited Equality (text "ab") (text "ab") ≡ after_pairs 3 Equal }
    ensures empty { visited Equality (text "") (text "") ≡ after_pairs 1 Equal }
    ensures first { visited Equality (text "ab") (text "bb") ≡ after_pairs 2 Different }
    ensures ends { visited Equality (text "a") (text "ab") ≡ after_pairs 2 Different }
    ensures prefix { visited Order (text "a") (text "ab") ≡ after_pairs 2 Less }
    ensures longer { visited Order (text "ab") (text "a") ≡ after_pairs 2 Greater }
    ensures before { visited Order (text "") (text "ab") ≡ after_pairs 1 Less }
    ensures place { visited Order (text "abc") (text "aac") ≡ after_pairs 3 Greater }
    ensures equal { visited Order (text "ab") (text "ab") ≡ after_pairs 3 Equal }
    ensures chars { visited Equality (text "äb") (text "äb") ≡ after_pairs 3 Equal }
{}

/// A list with an element is one pair, then its first element and its rest. The length doesn't matter.
pub fn lists_go_by_first_difference()
    ensures empty { visited Equality (list []) (list []) ≡ after_pairs 1 Equal }
    ensures same { visited Equality (list (int 1 ∷ int 9 ∷ [])) (list (int 1 ∷ int 9 ∷ []))
        ≡ after_pairs 5 Equal }
    ensures length { visited Equality (list (int 1 ∷ [])) (list (int 1 ∷ int 9 ∷ []))
        ≡ after_pairs 3 Different }
    ensures longer { visited Equality (list (int 1 ∷ int 9 ∷ [])) (list (int 1 ∷ []))
        ≡ after_pairs 3 Different }
    ensures first { visited Order (list (int 2 ∷ [])) (list (int 1 ∷ int 9 ∷ []))
        ≡ after_pairs 2 Greater }
    ensures prefix { visited Order (list (int 1 ∷ [])) (list (int 1 ∷ int 9 ∷ []))
        ≡ after_pairs 3 Less }
    ensures extended { visited Order (list (int 1 ∷ int 9 ∷ [])) (list (int 1 ∷ []))
        ≡ after_pairs 3 Greater }
    ensures none { visited Order (list []) (list (int 1 ∷ [])) ≡ after_pairs 1 Less }
    ensures equal { visited Order (list (int 1 ∷ [])) (list (int 1 ∷ [])) ≡ after_pairs 3 Equal }
{}

/// A tuple is one pair, then its parts; tuples with other numbers of parts differ after one.
pub fn tuples_go_by_first_difference()
    ensures same { visited Equality (tuple (int 1 ∷ int 2 ∷ [])) (tuple (int 1 ∷ int 2 ∷ []))
        ≡ after_pairs 3 Equal }
    ensures first { visited Equality (tuple (int 1 ∷ int 2 ∷ [])) (tuple (int 3 ∷ int 2 ∷ []))
        ≡ after_pairs 2 Different }
    ensures second { visited Order (tuple (int 1 ∷ char "b" ∷ [])) (tuple (int 1 ∷ char "a" ∷ []))
        ≡ after_pairs 3 Greater }
    ensures less { visited Order (tuple (int 1 ∷ int 9 ∷ [])) (tuple (int 2 ∷ int 1 ∷ []))
        ≡ after_pairs 2 Less }
    ensures parts { visited Equality (tuple (int 1 ∷ int 2 ∷ [])) (tuple (int 1 ∷ int 2 ∷ int 3 ∷ []))
        ≡ after_pairs 1 Different }
    ensures parts_in_order { visited Order (tuple (int 1 ∷ int 2 ∷ [])) (tuple (int 1 ∷ int 2 ∷ int 3 ∷ []))
        ≡ after_pairs 1 Different }
    ensures without_order { visited Order (tuple (Unit ∷ int 1 ∷ [])) (tuple (Unit ∷ int 2 ∷ []))
        ≡ after_pairs 2 Different }
{}

/// A constructor is one pair, then its arguments; another constructor differs after one. There is no order.
pub fn constructors_go_by_name()
    ensures alone { visited Equality (made "True" []) (made "True" []) ≡ after_pairs 1 Equal }
    ensures others { visited Equality (made "True" []) (made "False" []) ≡ after_pairs 1 Different }
    ensures same { visited Equality (made "Just" (int 7 ∷ [])) (made "Just" (int 7 ∷ []))
        ≡ after_pairs 2 Equal }
    ensures argument { visited Equality (made "Just" (int 7 ∷ [])) (made "Just" (int 8 ∷ []))
        ≡ after_pairs 2 Different }
    ensures other { visited Equality (made "Ok" (int 7 ∷ [])) (made "Err" (int 7 ∷ []))
        ≡ after_pairs 1 Different }
    ensures arguments { visited Equality (made "P" (int 7 ∷ [])) (made "P" (int 7 ∷ int 8 ∷ []))
        ≡ after_pairs 1 Different }
    ensures no_order { visited Order (made "True" []) (made "True" []) ≡ after_pairs 1 Different }
{}

/// Fields are visited by label in the order of bytes, of one label the newest first. There is no order.
pub fn records_go_by_label()
    ensures same { visited Equality (record_of (("x", int 1) ∷ ("y", int 2) ∷ []))
        (record_of (("x", int 1) ∷ ("y", int 2) ∷ []))
        ≡ after_pairs 3 Equal }
    ensures first { visited Equality (record_of (("x", int 1) ∷ ("y", int 2) ∷ []))
        (record_of (("x", int 3) ∷ ("y", int 4) ∷ []))
        ≡ after_pairs 2 Different }
    ensures newest { visited Equality (record_of (("x", text "a") ∷ ("x", int 1) ∷ []))
        (record_of (("x", text "b") ∷ ("x", int 1) ∷ []))
        ≡ after_pairs 3 Different }
    ensures hidden { visited Equality (record_of (("x", int 1) ∷ ("x", int 2) ∷ []))
        (record_of (("x", int 1) ∷ ("x", int 3) ∷ []))
        ≡ after_pairs 3 Different }
    ensures labels { visited Equality (record_of (("x", Unit) ∷ [])) (record_of (("y", Unit) ∷ []))
        ≡ after_pairs 1 Different }
    ensures times { visited Equality (record_of (("x", Unit) ∷ ("x", Unit) ∷ []))
        (record_of (("x", Unit) ∷ []))
        ≡ after_pairs 1 Different }
    ensures none { visited Equality (record_of []) (record_of []) ≡ after_pairs 1 Equal }
    ensures no_order { visited Order (record_of []) (record_of []) ≡ after_pairs 1 Different }
{}

/// An Element is one pair, then its cells, row by row, where the sizes agree. There is no order.
pub fn elements_go_by_cell()
    ensures same { visited Equality (element 2 1 ("ab" ∷ [])) (element 2 1 ("ab" ∷ []))
        ≡ after_pairs 3 Equal }
    ensures cell { visited Equality (element 2 1 ("ab" ∷ [])) (element 2 1 ("bb" ∷ []))
        ≡ after_pairs 2 Different }
    ensures rows { visited Equality (element 1 2 ("a" ∷ "b" ∷ [])) (element 1 2 ("a" ∷ "c" ∷ []))
        ≡ after_pairs 3 Different }
    ensures width { visited Equality (element 2 1 ("ab" ∷ [])) (element 3 1 ("abc" ∷ []))
        ≡ after_pairs 1 Different }
    ensures height { visited Equality (element 0 1 ("" ∷ [])) (element 0 2 ("" ∷ "" ∷ []))
        ≡ after_pairs 1 Different }
    ensures no_order { visited Order (element 0 0 []) (element 0 0 []) ≡ after_pairs 1 Different }
{}

/// Two functions have no answer, whichever they are; a difference before them has one.
pub fn functions_have_no_equality()
    ensures met { visited Equality (native_value NEGATE) (native_value NEGATE)
        ≡ after_pairs 1 FunctionMet }
    ensures met_in_order { visited Order (native_value NEGATE) (native_value TO_STRING)
        ≡ after_pairs 1 FunctionMet }
    ensures no_value { visited Equality no_value no_value ≡ after_pairs 1 FunctionMet }
    ensures earlier { visited Equality (tuple (int 1 ∷ native_value NEGATE ∷ []))
        (tuple (int 2 ∷ native_value NEGATE ∷ []))
        ≡ after_pairs 2 Different }
    ensures later { visited Equality (tuple (native_value NEGATE ∷ int 1 ∷ []))
        (tuple (native_value NEGATE ∷ int 2 ∷ []))
        ≡ after_pairs 2 FunctionMet }
{}

/// Each pair takes a unit. Where there is one too few all are spent, and the outcome is a want of fuel.
pub fn a_comparison_has_fuel()
    ensures enough { compared Equality (text "ab") (text "ab") 3 ≡ after_pairs 3 Equal }
    ensures more { compared Equality (text "ab") (text "ab") 9 ≡ after_pairs 3 Equal }
    ensures short { compared Equality (text "ab") (text "ab") 2 ≡ after_pairs 2 OutOfFuel }
    ensures nothing { compared Order (int 3) (int 3) 0 ≡ after_pairs 0 OutOfFuel }
{}
