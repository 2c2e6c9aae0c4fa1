//! The plain types that every other crate speaks of: names, tokens, faults, events and commands.
//! They hold data and nothing else, so a contract can compare a value with what a definition gives.
#![tactic(auto)]

mod command;
mod event;
mod fault;
mod memory;
mod name;
pub mod native;
mod project;
mod spaces;
mod steps;
mod term;
mod token;
mod tree;

pub use command::{Command, CommandRefusal};
pub use event::{Event, PortType, PortValue};
pub use fault::{FaultKind, ProjectFault};
pub use memory::{Halt, NoMemory};
pub use name::Name;
pub use native::NativeId;
pub use project::{
    AliasOf, Decls, Group, Meaning, PortOf, Program, Project, Resolved, Thing, Typed, UnionOf,
    Warning,
};
pub use spaces::{trim_end, trim_start, without_last};
pub use steps::Steps;
pub use term::{Code, Literal, Note, NoteKind, Notes, RunFault, Term, TermPattern, TopValue};
pub use token::{At, Token, TokenKind};
pub use tree::{
    Constructor, Constructors, Declaration, Exposing, Expr, Import, Item, Module, Operator,
    Pattern, Set, Side, Spot, TypeTree,
};

/// A value's place in an arena of values: values that were made later have greater places.
pub type Ref = u32;
