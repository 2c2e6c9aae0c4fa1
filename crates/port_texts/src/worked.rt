//! Worked cases of the types that ports of programs have.
ghost use Rattle.port_texts.specs.Worked as worked;

/// Labels and types are such or not as in the worked cases.
pub fn types_are_as_worked()
    ensures labels { worked.Labels }
    ensures types { worked.Types }
{}
