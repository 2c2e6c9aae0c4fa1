//! The search for a missing case is exact. The bodies are empty: what is stated holds of the definitions.

ghost use Rattle.std.specs.Prelude.{◌≡◌, ℕ, ◌<◌, List, [], ◌∷◌, Some, None, map};
ghost use Rattle.elm_base.specs.declared.project.Typed.{Typed};
ghost use Rattle.case_places.specs.declared.place.Place.{Place};
ghost use Rattle.case_check.specs.Shapes.{Shape, Wanted};
ghost use Rattle.case_check.specs.Missing.{IsMissing};
ghost use Rattle.case_check.specs.Search.{missing_of};
ghost use Rattle.case_check.specs.Asked.{asked};
ghost use Rattle.case_check.specs.Warnings.{number, warning, warning_at};

/// What is found is missing, and where nothing is found nothing is missing.
pub fn what_is_found_is_missing()
    ensures found { (ws : List Wanted) (s : Shape) → missing_of ws ≡ Some s → IsMissing s ws }
    ensures nothing { (ws : List Wanted) (s : Shape) → missing_of ws ≡ None → IsMissing s ws → ⊥ }
{}

/// A place has a warning exactly where something is missing there.
pub fn a_warning_stands_where_something_is_missing()
    ensures missing { (typed : Typed) (m : List ℕ) (place : Place) (s : Shape) →
        IsMissing s (map (asked typed m) place.patterns) →
        warning_at typed m place ≡ warning m place.at ∷ [] }
    ensures nothing { (typed : Typed) (m : List ℕ) (place : Place) →
        ((s : Shape) → IsMissing s (map (asked typed m) place.patterns) → ⊥) →
        warning_at typed m place ≡ [] }
{}

/// The numbers by which warnings are sorted are in the order of lines, and in one line in that of columns.
pub fn warnings_stand_by_line_and_column(line: u32, column: u32, other_line: u32, other_column: u32)
    ensures by_line { line < other_line → number line column < number other_line other_column }
    ensures by_column { line ≡ other_line → column < other_column →
        number line column < number other_line other_column }
{}
