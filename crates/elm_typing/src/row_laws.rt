//! Laws of rows with scoped labels. The bodies are empty: what is stated holds of the definitions.

ghost use Rattle.std.specs.Prelude.{◌≡◌, ◌≢◌, ◌↔◌, ℕ, Option, Some, None, codes, List, [], ◌∷◌};
ghost use Rattle.elm_typing.specs.declared.flag.Flag.TheVariants.{Plain};
ghost use Rattle.elm_typing.specs.Ground.{Ground, Row, Tuple, Opaque, NoGrounds, Ends, Field};
ghost use Rattle.elm_typing.specs.Ordered.{InOrder, RowInOrder};
ghost use Rattle.elm_typing.specs.Rows.{extended, extended_all, types_of, rest_of, newest, removed, Lacks, Apart};

/// A row stands for a map from labels to lists of types with at most one opaque rest, and rows in the order of
/// their labels are equal exactly where their maps and rests are.
pub fn rows_in_order_are_maps()
    ensures same { (r s : Row) → RowInOrder r → RowInOrder s → ((l : List ℕ) → types_of l r ≡ types_of l s) →
        rest_of r ≡ rest_of s → r
        ≡ s }
    ensures example { types_of (codes "x")
        (Field (codes "x") (Tuple NoGrounds)
        (Field (codes "x") (Opaque 1 Plain) (Ends (Some 2))))
        ≡ Tuple NoGrounds ∷ Opaque 1 Plain ∷ [] }
{}

/// A new field goes in front of the types of its label, and changes no other label and no rest.
pub fn a_new_field_stands_in_front()
    ensures types { (l : List ℕ) (t : Ground) (r : Row) → types_of l (extended l t r)
        ≡ t ∷ types_of l r }
    ensures other_types { (k l : List ℕ) (t : Ground) (r : Row) → k ≢ l → types_of k (extended l t r)
        ≡ types_of k r }
    ensures rest { (l : List ℕ) (t : Ground) (r : Row) → rest_of (extended l t r) ≡ rest_of r }
    ensures newest { (l : List ℕ) (t : Ground) (r : Row) → newest l (extended l t r) ≡ Some t }
    ensures removed { (l : List ℕ) (t : Ground) (r : Row) → removed l (extended l t r) ≡ Some r }
    ensures missing { newest (codes "y") (Field (codes "x") (Tuple NoGrounds) (Ends None)) ≡ None }
{}

/// A row with a new field is in the order of labels exactly where the row and the field's type are.
pub fn a_new_field_keeps_the_order()
    ensures { (l : List ℕ) (t : Ground) (r : Row) → RowInOrder (extended l t r) ↔
        (InOrder t × RowInOrder r) }
{}

/// Fields of different labels may be put on in either order; of one label the newest is determined, and so is
/// what is behind it. Two ways to see one row by different newest fields have a row in common.
pub fn fields_of_different_labels_commute()
    ensures commute { (l m : List ℕ) (a b : Ground) (r : Row) → l ≢ m → extended l a (extended m b r)
        ≡ extended m b (extended l a r) }
    ensures injective { (l : List ℕ) (a b : Ground) (r s : Row) → extended l a r
        ≡ extended l b s → (a ≡ b) × (r ≡ s) }
    ensures exchange { (l m : List ℕ) (a b : Ground) (r s : Row) → l ≢ m → extended l a r
        ≡ extended m b s → (q : Row) × (r ≡ extended m b q) × (s ≡ extended l a q) }
    ensures ends { (rest : Option ℕ) (l : List ℕ) (t : Ground) (r : Row) → Ends rest
        ≡ extended l t r → ⊥ }
{}

/// Where two lists of fields have no label in common, rows under them that make both sides equal are those that
/// have the other side's fields in front of one row. With the same row under both, no field may be on one side alone.
pub fn fields_without_common_labels_have_one_answer()
    ensures only { (fs gs : List (List ℕ × Ground)) (r s : Row) → Apart fs gs → extended_all fs r
        ≡ extended_all gs s → (q : Row) × (r ≡ extended_all gs q) × (s ≡ extended_all fs q) }
    ensures each { (fs gs : List (List ℕ × Ground)) (q : Row) → Apart fs gs → extended_all fs
        (extended_all gs q)
        ≡ extended_all gs (extended_all fs q) }
    ensures never_itself { (f : List ℕ × Ground) (fs gs : List (List ℕ × Ground)) (r : Row) → Apart (f ∷ fs) gs →
        extended_all (f ∷ fs) r
        ≡ extended_all gs r → ⊥ }
{}
