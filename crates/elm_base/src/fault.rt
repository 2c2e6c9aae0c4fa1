use crate::name::Name;

/// What is wrong with a project.
#[derive(Clone, Copy, Debug, PartialEq, Eq)]
pub enum FaultKind {
    /// The file of a module isn't there.
    MissingModule,
    /// A limit on size is passed: of a file, a project, a block or a name.
    TooLarge,
    NotUtf8,
    /// A tab stands in the text.
    Tab,
    BadChar,
    /// A text in quotes doesn't end on its line.
    OpenString,
    OpenComment,
    /// An integer literal is above 9223372036854775807.
    IntTooWide,
    /// A literal of a form that this language leaves out by name, as one with a point.
    Excluded,
    /// A header or an import is outside the grammar.
    BadHeader,
    /// Another declaration is outside the grammar, or nests too deep.
    BadDeclaration,
    /// A file has another name than the module for which it was read.
    NameMismatch,
    /// A module is imported, over others or at once, by itself.
    ImportCycle,
    /// Two declarations of one operator's level differ, or a chain of operators has no tree.
    BadFixity,
    /// A name is defined twice in one block, pattern, record or list of parameters.
    Duplicate,
    UnknownName,
    /// Two imports give the name for different things.
    Ambiguous,
    /// An import lists what the module doesn't expose.
    NotExposed,
    /// A value is needed to compute itself.
    CyclicValue,
    BadType,
    BadPort,
    IllTyped,
    /// `main` is missing, or shows no element.
    BadMain,
    /// The project isn't of the form that the program serves so far.
    Unsupported,
}

/// The fault of a project: in which module, at which line, which, and the name that it is about.
/// Line 0 stands for the file as a whole, and an empty name for none.
#[derive(Debug, Drop)]
pub struct ProjectFault {
    pub module: Name,
    pub line: u32,
    pub kind: FaultKind,
    pub name: Name,
}
