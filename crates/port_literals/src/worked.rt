//! Worked cases that hold the definitions of types against what readers expect.
ghost use Rattle.port_literals.specs.Worked as worked;

/// Labels, types and how deep they nest are as in the worked cases.
pub fn types_are_as_worked()
    ensures labels { worked.Labels }
    ensures ports { worked.Ports }
    ensures nestings { worked.Nestings }
{}
