//! Worked cases of records, whose labels are scoped. The bodies are empty: what is stated holds of the definitions by
//! computation.

ghost use Rattle.std.specs.Prelude.{◌≡◌, Some, None, [], ◌∷◌, codes};
ghost use Rattle.elm_meaning.specs.Records.{put_field, remove_field, set_field, newest};
ghost use Rattle.elm_meaning.specs.Values.{Value, Unit, Done, RecordTree, Extend, Update, Remove, Field, NoFields, AndField};
ghost use Rattle.elm_meaning.specs.Spelling.{int, text, tuple, fields, record_of, noted, watched, tuple_term, field_terms, run, leaves, gives, no_rule, noting};
ghost use Rattle.elm_meaning.specs.Examples.{only_x, two_fields, scoped};

/// The order in which fields of different labels are put doesn't matter; of one label the newest comes first.
pub fn fields_stand_by_label()
    ensures different { (v w : Value) →
        put_field (codes "y") v (put_field (codes "x") w NoFields) ≡ put_field (codes "x") w
        (put_field (codes "y") v NoFields) }
    ensures newest { (v w : Value) →
        put_field (codes "x") v (put_field (codes "x") w NoFields) ≡ AndField (codes "x") v
        (AndField (codes "x") w NoFields) }
    ensures between { (u v w : Value) →
        put_field (codes "x") u (AndField (codes "a") v (AndField (codes "y") w NoFields))
        ≡ AndField (codes "a") v (AndField (codes "x") u (AndField (codes "y") w NoFields)) }
    ensures prefix { (v w : Value) →
        put_field (codes "xy") v (AndField (codes "x") w NoFields) ≡ AndField (codes "x") w
        (AndField (codes "xy") v NoFields) }
    ensures bytes { (v w : Value) →
        put_field (codes "B") v (AndField (codes "a") w NoFields) ≡ AndField (codes "B") v
        (AndField (codes "a") w NoFields) }
{}

/// The fields are evaluated as they are written and stand by label. Of one label written twice the first is the newest.
pub fn records_are_made_of_their_fields()
    ensures order { run (RecordTree (field_terms (("y", noted "a" 1) ∷ ("x", noted "b" 2) ∷ []))) 6
        ≡ noting (watched "a" "1" ∷ watched "b" "2" ∷ [])
        (gives (record_of (("x", int 2) ∷ ("y", int 1) ∷ []))) }
    ensures twice { run (RecordTree (field_terms (("x", Done (int 1)) ∷ ("x", Done (int 2)) ∷ []))) 0
        ≡ gives (record_of (("x", int 1) ∷ ("x", int 2) ∷ [])) }
    ensures none { run (RecordTree (field_terms [])) 0 ≡ gives (record_of []) }
{}

/// `{ r | x = e }` puts a field over an old one of its label, after the record is evaluated.
pub fn fields_are_put_over_others()
    ensures over { run two_fields 0 ≡ gives (record_of (("x", text "a") ∷ ("x", int 1) ∷ [])) }
    ensures order { run
        (Extend (noted "r" 1) (field_terms (("y", noted "a" 1) ∷ ("z", noted "b" 2) ∷ []))) 9
        ≡ noting (watched "r" "1" ∷ watched "a" "1" ∷ watched "b" "2" ∷ []) (no_rule 0) }
    ensures several { run (Extend only_x (field_terms (("a", Done (int 2)) ∷ ("x", Done (int 3)) ∷ []))) 0
        ≡ gives (record_of (("a", int 2) ∷ ("x", int 3) ∷ ("x", int 1) ∷ [])) }
{}

/// `{ r | x <- e }` changes the newest field alone, after the record is evaluated. There has to be one.
pub fn the_newest_field_is_updated()
    ensures update { run (Update only_x (field_terms (("x", Done (int 2)) ∷ []))) 0
        ≡ gives (record_of (("x", int 2) ∷ [])) }
    ensures hidden { run (Update two_fields (field_terms (("x", Done (int 3)) ∷ []))) 0
        ≡ gives (record_of (("x", int 3) ∷ ("x", int 1) ∷ [])) }
    ensures several { run
        (Update
        (RecordTree
        (field_terms (("x", Done (int 1)) ∷ ("y", Done (int 2)) ∷ ("z", Done (int 3)) ∷ [])))
        (field_terms (("z", noted "a" 4) ∷ ("x", noted "b" 5) ∷ []))) 6
        ≡ noting (watched "a" "4" ∷ watched "b" "5" ∷ [])
        (gives (record_of (("x", int 5) ∷ ("y", int 2) ∷ ("z", int 4) ∷ []))) }
    ensures order { run (Update (noted "r" 1) (field_terms (("x", noted "a" 1) ∷ []))) 6
        ≡ noting (watched "r" "1" ∷ watched "a" "1" ∷ []) (no_rule 0) }
    ensures missing { run (Update only_x (field_terms (("y", Done (int 2)) ∷ []))) 4 ≡ no_rule 4 }
    ensures one_missing { run (Update only_x (field_terms (("x", Done (int 2)) ∷ ("y", Done (int 2)) ∷ []))) 4
        ≡ no_rule 4 }
{}

/// `{ r - x }` takes the newest field away, and `r.x` reads it.
pub fn the_newest_field_is_read_and_removed()
    ensures read { run (Field two_fields (codes "x")) 0 ≡ gives (text "a") }
    ensures second { run
        (Field (RecordTree (field_terms (("x", Done (int 1)) ∷ ("y", Done (int 2)) ∷ [])))
        (codes "y")) 0
        ≡ gives (int 2) }
    ensures removed { run (Remove two_fields (codes "x")) 0
        ≡ gives (record_of (("x", int 1) ∷ [])) }
    ensures between { run
        (Remove
        (RecordTree
        (field_terms (("x", Done (int 1)) ∷ ("y", Done (int 2)) ∷ ("z", Done (int 3)) ∷ [])))
        (codes "y")) 0
        ≡ gives (record_of (("x", int 1) ∷ ("z", int 3) ∷ [])) }
    ensures no_field { run (Field only_x (codes "y")) 4 ≡ no_rule 4 }
    ensures none_to_remove { run (Remove only_x (codes "y")) 4 ≡ no_rule 4 }
    ensures no_record { run (Field (Done Unit) (codes "x")) 4 ≡ no_rule 4 }
    ensures nothing_removed { run (Remove (Done Unit) (codes "x")) 4 ≡ no_rule 4 }
    ensures scoped { run scoped 2
        ≡ gives (tuple (text "a" ∷ int 1 ∷ tuple (int 1 ∷ text "a" ∷ []) ∷ [])) }
{}
