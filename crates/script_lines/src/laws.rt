//! Laws of lines, and worked cases that hold the definitions against what readers write.
ghost use Rattle.script_lines.specs.Laws.{LinesJoin, KeptSaysTheSame, HandedOutIsWhole};
ghost use Rattle.script_lines.specs.Worked as worked;

/// Cutting a script into lines loses nothing: its lines, each with its newline if it had one, are the script.
pub fn lines_join()
    ensures { LinesJoin }
{}

/// What is kept of a script, at most 65,537 bytes of each line, says what the script does, whatever follows.
pub fn kept_bytes_say_the_same()
    ensures { KeptSaysTheSame }
{}

/// Where an open line is left of a script, what was handed out is what its whole lines say.
pub fn whole_lines_are_handed_out()
    ensures { HandedOutIsWhole }
{}

/// Texts spell the commands of the worked cases, or none.
pub fn commands_are_as_worked()
    ensures { worked.Commands }
{}

/// Lines are cut and read as in the worked cases.
pub fn lines_are_as_worked()
    ensures { worked.Lines }
{}
