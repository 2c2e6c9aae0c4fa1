//! Laws of the values of ports.
ghost use Rattle.port_values.specs.Laws as spec;

/// What is least of a type is a value of it.
pub fn default_is_of_its_type()
    ensures { spec.DefaultIsOfItsType }
{}

/// An integer, a text and a truth that are printed are literals of themselves.
pub fn printed_leaves_are_their_literals()
    ensures ints { spec.PrintedIntIsItsLiteral }
    ensures texts { spec.PrintedTextIsItsLiteral }
    ensures truths { spec.PrintedTruthIsItsLiteral }
{}
