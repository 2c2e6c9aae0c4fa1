//! Laws of the texts of types.
ghost use Rattle.port_texts.specs.PortTexts as spec;

/// A text is that of at most one type that a port of a program may have.
pub fn a_text_has_one_type()
    ensures { spec.OneType }
{}

/// The types that ports of programs have are such whose literals are told apart, and they nest below their levels.
pub fn given_types_are_ports()
    ensures ports { spec.GivenIsPort }
    ensures nestings { spec.GivenNests }
{}
