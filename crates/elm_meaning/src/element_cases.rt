//! Worked cases of the natives that lay out Elements: the work, then the answer or the fault. The bodies are empty:
//! what is stated holds of the definitions by computation.

ghost use Rattle.std.specs.Prelude.{◌≡◌, [], ◌∷◌};
ghost use Rattle.elm_base.specs.declared.native.TheConstants.{TEXT, SPACER, FLOW, CONTAINER, WIDTH_OF, HEIGHT_OF};
ghost use Rattle.elm_base.specs.declared.term.RunFault.TheVariants.{ElementTooLarge};
ghost use Rattle.elm_meaning.specs.Values.{Unit, Text};
ghost use Rattle.elm_meaning.specs.Answers.{Gives, Faults, free, after, no_reply};
ghost use Rattle.elm_meaning.specs.NativeTable.{reply};
ghost use Rattle.elm_meaning.specs.Spelling.{int, minus, text, list, made, element};

/// Rows split at newlines, each filled with spaces to the widest; other control chars are question marks.
/// Bytes that aren't UTF-8 have no chars, as the empty text.
pub fn texts_are_rows()
    ensures row { reply TEXT (text "ab" ∷ []) ≡ after 4 (Gives (element 2 1 ("ab" ∷ []))) }
    ensures rows { reply TEXT (text "a\nbcd\n" ∷ [])
        ≡ after 15 (Gives (element 3 3 ("a  " ∷ "bcd" ∷ "   " ∷ []))) }
    ensures empty { reply TEXT (text "" ∷ []) ≡ after 0 (Gives (element 0 1 ("" ∷ []))) }
    ensures control { reply TEXT (text "\t\u{1f} \u{7f}" ∷ [])
        ≡ after 8 (Gives (element 4 1 ("?? ?" ∷ []))) }
    ensures wide { reply TEXT (text "ä\u{80}" ∷ [])
        ≡ after 4 (Gives (element 2 1 ("ä\u{80}" ∷ []))) }
    ensures no_text { reply TEXT (Text (195 ∷ []) ∷ []) ≡ reply TEXT (text "" ∷ []) }
{}

/// Spaces of a size; a negative size is 0. More than 1,000 cells are too large, after the work.
pub fn spacers_are_blank()
    ensures spacer { reply SPACER (int 2 ∷ int 1 ∷ []) ≡ after 2 (Gives (element 2 1 ("  " ∷ []))) }
    ensures tall { reply SPACER (int 1 ∷ int 2 ∷ [])
        ≡ after 2 (Gives (element 1 2 (" " ∷ " " ∷ []))) }
    ensures no_height { reply SPACER (int 2 ∷ minus 1 ∷ []) ≡ after 0 (Gives (element 2 0 [])) }
    ensures no_width { reply SPACER (minus 3 ∷ int 1 ∷ [])
        ≡ after 0 (Gives (element 0 1 ("" ∷ []))) }
    ensures most { reply SPACER (int 1000 ∷ int 0 ∷ []) ≡ after 0 (Gives (element 1000 0 [])) }
    ensures too_high { reply SPACER (int 0 ∷ int 1001 ∷ []) ≡ after 0 (Faults ElementTooLarge) }
    ensures too_wide { reply SPACER (int 1001 ∷ int 0 ∷ []) ≡ after 0 (Faults ElementTooLarge) }
{}

/// Items under each other fill up to the widest, items beside each other to the highest.
pub fn items_flow()
    ensures down { reply FLOW
        (made "down" [] ∷ list (element 2 1 ("ab" ∷ []) ∷ element 4 1 ("c  5" ∷ []) ∷ []) ∷ [])
        ≡ after 10 (Gives (element 4 2 ("ab  " ∷ "c  5" ∷ []))) }
    ensures up { reply FLOW
        (made "up" [] ∷ list (element 1 1 ("a" ∷ []) ∷ element 1 1 ("b" ∷ []) ∷ []) ∷ [])
        ≡ after 4 (Gives (element 1 2 ("b" ∷ "a" ∷ []))) }
    ensures right { reply FLOW
        (made "right" [] ∷ list (element 1 1 ("c" ∷ []) ∷ element 1 2 ("5" ∷ "6" ∷ []) ∷ []) ∷
        [])
        ≡ after 6 (Gives (element 2 2 ("c5" ∷ " 6" ∷ []))) }
    ensures left { reply FLOW
        (made "left" [] ∷ list (element 1 1 ("c" ∷ []) ∷ element 1 2 ("5" ∷ "6" ∷ []) ∷ []) ∷
        [])
        ≡ after 6 (Gives (element 2 2 ("5c" ∷ "6 " ∷ []))) }
    ensures nothing { reply FLOW (made "down" [] ∷ list [] ∷ [])
        ≡ after 0 (Gives (element 0 0 [])) }
    ensures nothing_beside { reply FLOW (made "right" [] ∷ list [] ∷ [])
        ≡ after 0 (Gives (element 0 0 [])) }
    ensures no_item { reply FLOW (made "down" [] ∷ list (Unit ∷ []) ∷ []) ≡ no_reply }
    ensures too_wide { reply FLOW (made "right" [] ∷ list (element 999 0 [] ∷ element 2 0 [] ∷ []) ∷ [])
        ≡ after 2 (Faults ElementTooLarge) }
{}

/// The inner's edges are at 0, in the middle rounded down, or at the far end; what falls outside is dropped.
pub fn containers_frame()
    ensures middle { reply CONTAINER (int 5 ∷ int 3 ∷ made "middle" [] ∷ element 2 1 ("ab" ∷ []) ∷ [])
        ≡ after 15 (Gives (element 5 3 ("     " ∷ " ab  " ∷ "     " ∷ []))) }
    ensures top_left { reply CONTAINER (int 3 ∷ int 2 ∷ made "topLeft" [] ∷ element 2 1 ("ab" ∷ []) ∷ [])
        ≡ after 6 (Gives (element 3 2 ("ab " ∷ "   " ∷ []))) }
    ensures bottom_right { reply CONTAINER (int 3 ∷ int 2 ∷ made "bottomRight" [] ∷ element 2 1 ("ab" ∷ []) ∷ [])
        ≡ after 6 (Gives (element 3 2 ("   " ∷ " ab" ∷ []))) }
    ensures cut_off { reply CONTAINER (int 2 ∷ int 1 ∷ made "middle" [] ∷ element 5 1 ("abcde" ∷ []) ∷ [])
        ≡ after 2 (Gives (element 2 1 ("cd" ∷ []))) }
    ensures cut_left { reply CONTAINER
        (int 2 ∷ int 1 ∷ made "bottomRight" [] ∷ element 3 2 ("abc" ∷ "def" ∷ []) ∷ [])
        ≡ after 2 (Gives (element 2 1 ("ef" ∷ []))) }
    ensures negative { reply CONTAINER (minus 1 ∷ int 1 ∷ made "middle" [] ∷ element 1 1 ("a" ∷ []) ∷ [])
        ≡ after 0 (Gives (element 0 1 ("" ∷ []))) }
    ensures too_wide { reply CONTAINER (int 1001 ∷ int 0 ∷ made "middle" [] ∷ element 0 0 [] ∷ [])
        ≡ after 0 (Faults ElementTooLarge) }
    ensures no_position { reply CONTAINER (int 1 ∷ int 1 ∷ made "up" [] ∷ element 0 0 [] ∷ [])
        ≡ no_reply }
{}

/// The sizes of an Element.
pub fn elements_have_sizes()
    ensures width { reply WIDTH_OF (element 2 3 ("ab" ∷ "cd" ∷ "ef" ∷ []) ∷ [])
        ≡ free (Gives (int 2)) }
    ensures height { reply HEIGHT_OF (element 2 3 ("ab" ∷ "cd" ∷ "ef" ∷ []) ∷ [])
        ≡ free (Gives (int 3)) }
{}
