//! Worked cases of sorts in expressions. The bodies are empty: what is stated holds of the definitions.

ghost use Rattle.std.specs.Prelude.{◌≡◌, [], ◌∷◌};
ghost use Rattle.elm_base.specs.declared.native.TheConstants.{MAP};
ghost use Rattle.elm_typing.specs.Names.{signal_of};
ghost use Rattle.elm_typing.specs.Spelling.{int};
ghost use Rattle.typing_rules.specs.CorePatterns.{CorePattern};
ghost use Rattle.typing_rules.specs.Library.{element};
ghost use Rattle.typing_rules.specs.Core.{Core, Local, Native, Case, Tuple, ListOf};
ghost use Rattle.typing_rules.specs.TypingExamples.{number, call, cores, tuple_of, branches, name, always, mouse_x, show, Has, HasNone};

/// A call may not hide a signal: `always 3 Mouse.x` has no type, and `always Mouse.x 3` is a signal.
pub fn no_call_hides_a_signal()
    ensures hidden { HasNone (call always (number 3 ∷ mouse_x ∷ [])) }
    ensures kept { Has (call always (mouse_x ∷ number 3 ∷ [])) (signal_of int) }
    ensures mapped { Has (call (Native MAP) (show ∷ mouse_x ∷ [])) (signal_of element) }
{}

/// The scrutinee of a `case` may be a signal only where the whole is one.
pub fn no_case_hides_a_signal()
    ensures hidden { HasNone (Case mouse_x (branches ((CorePattern.Anything, number 3) ∷ []))) }
    ensures kept { Has (Case mouse_x (branches ((name 0, Local 0) ∷ []))) (signal_of int) }
{}

/// No signal stands in a tuple or a list.
pub fn no_part_is_a_signal()
    ensures tuple { HasNone (tuple_of (number 1 ∷ mouse_x ∷ [])) }
    ensures list { HasNone (ListOf (cores (mouse_x ∷ []))) }
{}
