//! A project in the stages of its compilation, each with what the one before found out.
use crate::event::PortType;
use crate::name::Name;
use crate::term::Code;
use crate::token::At;
use crate::tree::{Module, TypeTree};
use sqlite_items::Items;

/// The modules of a project: the library's first, then the others in the order in which their visits end.
#[derive(Drop)]
pub struct Project {
    pub modules: Items<Module>,
}

/// A project with what each name stands for, and with its definitions in groups.
#[derive(Drop)]
pub struct Resolved {
    pub project: Project,
    /// In the order in which groups are evaluated.
    pub groups: Items<Group>,
    /// One for each place of a value or constructor in an expression or pattern, in module order, then by place.
    pub meanings: Items<Meaning>,
}

/// Definitions of one block that reach each other, or one that stands alone.
#[derive(Drop)]
pub struct Group {
    pub module: Name,
    /// The place of the word `let`; line 0, column 0 for a module's top level.
    pub block: At,
    /// The places of the definitions, in order.
    pub members: Items<At>,
}

/// What the name at a place stands for.
#[derive(Drop)]
pub struct Meaning {
    pub module: Name,
    pub at: At,
    pub thing: Thing,
}

/// What a name of a value stands for.
#[derive(Drop)]
pub enum Thing {
    /// What the pattern, the parameter or the definition of a `let` at this place binds.
    Local { binder: At },
    /// A definition at a module's top level.
    Top { module: Name, name: Name },
    Constructor { module: Name, name: Name },
    /// The function that an alias of a closed record makes.
    Maker { module: Name, name: Name },
}

/// The declared types and ports of a project. Each alias is expanded, each type is named with its module.
#[derive(Drop)]
pub struct Decls {
    /// Bool and Order first, then in module order, by line.
    pub unions: Items<UnionOf>,
    pub aliases: Items<AliasOf>,
    /// By line.
    pub ports: Items<PortOf>,
}

/// A union. An opaque type is one without constructors.
#[derive(Drop)]
pub struct UnionOf {
    pub module: Name,
    pub name: Name,
    pub parameters: Items<Name>,
    pub constructors: Items<(Name, Items<TypeTree>)>,
}

#[derive(Drop)]
pub struct AliasOf {
    pub module: Name,
    pub name: Name,
    pub parameters: Items<Name>,
    pub written: TypeTree,
}

/// A port with the type of what it carries.
#[derive(Drop)]
pub struct PortOf {
    pub name: Name,
    pub line: u32,
    pub inbound: bool,
    pub port: PortType,
}

/// A project whose groups have types.
#[derive(Drop)]
pub struct Typed {
    pub resolved: Resolved,
    pub decls: Decls,
    /// One for each definition at the top level, as inference left it.
    pub types: Items<TypeTree>,
}

/// What a project is compiled to: its inputs (ports and devices) and outputs with their types, where cases are
/// missing, and its code.
#[derive(Drop)]
pub struct Program {
    pub inputs: Items<(Name, PortType)>,
    pub outputs: Items<(Name, PortType)>,
    pub warnings: Items<Warning>,
    pub code: Code,
}

/// A place at which a case is missing.
#[derive(Drop)]
pub struct Warning {
    pub module: Name,
    pub line: u32,
    pub column: u32,
}
