//! Worked cases that hold the forms against what readers expect.
ghost use Rattle.session_form.specs.Worked as worked;

/// Forms, and near misses, are as in the worked cases.
pub fn forms_are_as_worked()
    ensures sheets { worked.Sheets }
    ensures places { worked.Places }
{}
