//! Laws of literals.
ghost use Rattle.port_literals.specs.Laws as spec;

/// A literal has at most one value of its type.
pub fn a_literal_has_one_value()
    ensures { spec.OneValue }
{}

/// A value of a type, as it is printed, is a literal of the type with that value.
pub fn a_printed_value_is_its_literal()
    ensures { spec.PrintedIsLiteral }
{}
