//! The definitions that the crates of the debugger cite: what a program shows, the step of a command, the frame and the
//! transcript. They stand in `specs/`; what stands here are the type of answers, and laws.
#![tactic(auto)]

ghost use Rattle.reactor_meaning.specs.Laws.{RefusalsChangeNothing, UnknownInputsComeFirst};
ghost use Rattle.reactor_meaning.specs.Laws.{FramesShowTheCursor, AnswersInTurn};

mod answer;

pub use answer::Answer;

/// A refused line leaves the state as it was.
pub fn refusals_change_nothing()
    ensures { RefusalsChangeNothing }
{}

/// An input that the program doesn't have is refused before its value is looked at.
pub fn unknown_inputs_come_first()
    ensures { UnknownInputsComeFirst }
{}

/// A frame shows what stands before its cursor: of the events behind it only their number counts.
pub fn frames_show_the_cursor()
    ensures { FramesShowTheCursor }
{}

/// The answers to a script are those to its first lines, and then those to the others from the state between.
pub fn answers_come_in_turn()
    ensures { AnswersInTurn }
{}
