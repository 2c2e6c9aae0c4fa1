//! Laws of the form of a session.
ghost use Rattle.session_form.specs.Laws as spec;

/// A sheet tells its cursor, its events and its inputs.
pub fn a_sheet_has_one_content()
    ensures { spec.OneContent }
{}
