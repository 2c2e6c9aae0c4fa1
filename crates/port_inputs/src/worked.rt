//! Worked cases of values of ports as values of programs.
ghost use Rattle.port_inputs.specs.Worked as worked;

/// Values, and how events stand, are as in the worked cases.
pub fn values_are_as_worked()
    ensures values { worked.Values }
    ensures types { worked.Types }
    ensures standings { worked.Standings }
{}
