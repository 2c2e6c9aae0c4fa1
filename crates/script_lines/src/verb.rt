//! The first words of commands.
ghost use Rattle.std.specs.Prelude.{◌≡◌};
ghost use Rattle.script_lines.specs.Commands.{verb_of};

/// The first word of a command.
#[derive(Clone, Copy, Debug, PartialEq, Eq)]
pub enum Verb {
    Input,
    Deliver,
    Goto,
    Latest,
    Resume,
    Swap,
    Save,
    Load,
    Show,
    Quit,
}

/// The verb that a word spells.
pub fn verb_of(word: &[u8]) -> Option<Verb>
    ensures { result ≡ verb_of word.now }
{
    if word == b"input".as_slice() {
        return Some(Verb::Input);
    }
    if word == b"deliver".as_slice() {
        return Some(Verb::Deliver);
    }
    if word == b"goto".as_slice() {
        return Some(Verb::Goto);
    }
    if word == b"latest".as_slice() {
        return Some(Verb::Latest);
    }
    if word == b"resume".as_slice() {
        return Some(Verb::Resume);
    }
    if word == b"swap".as_slice() {
        return Some(Verb::Swap);
    }
    if word == b"save".as_slice() {
        return Some(Verb::Save);
    }
    if word == b"load".as_slice() {
        return Some(Verb::Load);
    }
    if word == b"show".as_slice() {
        return Some(Verb::Show);
    }
    if word == b"quit".as_slice() {
        return Some(Verb::Quit);
    }
    None
}
