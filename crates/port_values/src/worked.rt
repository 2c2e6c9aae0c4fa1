//! Worked cases that hold the definitions of values against what readers expect.
ghost use Rattle.port_values.specs.LeafCases as leaf;
ghost use Rattle.port_values.specs.LiteralCases as literal;
ghost use Rattle.port_values.specs.Worked as worked;

/// Values, what ports begin with, and texts are as in the worked cases.
pub fn values_are_as_worked()
    ensures values { worked.ValuesOfTypes }
    ensures defaults { worked.Defaults }
    ensures texts { worked.Texts }
{}

/// Literals without parts are as in the worked cases.
pub fn leaves_are_as_worked()
    ensures ints { leaf.Ints }
    ensures units { leaf.Units }
    ensures truths { leaf.Truths }
    ensures texts { leaf.Texts }
{}

/// Literals with parts are as in the worked cases, which are given by derivations and by the lack of one.
pub fn literals_are_as_worked()
    ensures { literal.Literals }
{}
