use crate::basics::BASICS;
use crate::data::{CHAR, LIST, MAYBE, RESULT, STRING};
use crate::signals::{DEBUG, ELEMENT, KEYBOARD, MOUSE, SIGNAL, WINDOW};

/// A module of the library by its name and its text.
#[derive(Clone, Copy)]
pub struct Source {
    pub name: &'static str,
    pub text: &'static str,
}

/// The library, in the order of its modules.
pub const LIBRARY: [Source; 12] = [
    Source {
        name: "Basics",
        text: BASICS,
    },
    Source {
        name: "Maybe",
        text: MAYBE,
    },
    Source {
        name: "Result",
        text: RESULT,
    },
    Source {
        name: "List",
        text: LIST,
    },
    Source {
        name: "Char",
        text: CHAR,
    },
    Source {
        name: "String",
        text: STRING,
    },
    Source {
        name: "Debug",
        text: DEBUG,
    },
    Source {
        name: "Signal",
        text: SIGNAL,
    },
    Source {
        name: "Mouse",
        text: MOUSE,
    },
    Source {
        name: "Keyboard",
        text: KEYBOARD,
    },
    Source {
        name: "Window",
        text: WINDOW,
    },
    Source {
        name: "Graphics.Element",
        text: ELEMENT,
    },
];
