//! Worked cases that hold the order of first use against what readers expect.
ghost use Rattle.session_file.specs.Worked as worked;

/// Inputs in the order of their first use, their places and orders of use are as in the worked cases.
pub fn uses_are_as_worked()
    ensures uses { worked.FirstUses }
    ensures places { worked.Places }
    ensures orders { worked.Orders }
{}
