//! Laws of sessions.
ghost use Rattle.session_file.specs.Order as order;
ghost use Rattle.session_file.specs.Sessions as spec;
ghost use Rattle.session_file.specs.Written as written;

use port_literals::a_literal_has_one_value;
use port_texts::{a_text_has_one_type, given_types_are_ports};
use session_form::a_sheet_has_one_content;

/// Bytes spell at most one session.
pub fn bytes_spell_one_session()
    ensures { spec.OneSession }
{
    a_sheet_has_one_content();
    a_text_has_one_type();
    given_types_are_ports();
    a_literal_has_one_value();
}

/// The inputs of a session stand in the order of their first use, and all of them are used.
pub fn inputs_are_in_the_order_of_first_use()
    ensures { order.InOrderTells }
{}

/// Who reads bytes that spell a session is given it, unless memory fails.
pub fn what_spells_a_session_is_read()
    ensures { written.IsReadAgain }
{
    bytes_spell_one_session();
}

/// A session that bytes spell may be written.
pub fn a_session_may_be_written_again()
    ensures { written.MayBeWrittenAgain }
{}

/// The value of a literal is of the literal's type. So an event whose value was read may be written.
pub fn a_literals_value_is_of_its_type()
    ensures { written.LiteralIsOfItsType }
{}

/// Events use at most as many inputs as their program has names. So the bound on inputs holds of each program's events.
pub fn events_use_few_inputs()
    ensures { written.FewInputs }
{}
