//! Calls, lambdas and blocks keep all their arguments, parameters and groups beside each other, as the text has them. So a
//! tree nests no deeper than the text that it is made of.
use crate::pattern::PatternTree;
use elm_base::{Literal, Name, NativeId, TypeTree};
use sqlite_items::{Boxed, Items};

/// A plain term, with what typing asks for and evaluation forgets.
#[cycle(tree)]
#[derive(Drop)]
pub enum CoreTree {
    /// The value of a binder of the same definition, by its number.
    Local {
        number: u32,
    },
    /// A top value, by its place among them.
    Top {
        number: u32,
    },
    /// An inbound port or a device, by its place among the program's inputs.
    Input {
        number: u32,
    },
    Literal {
        value: Literal,
    },
    Native {
        number: NativeId,
    },
    /// A constructor of the union of this name, which has its module before it.
    Constructor {
        of_union: Name,
        name: Name,
        takes: u32,
    },
    /// The inner term has the written type, in which no alias is left.
    Held {
        written: Boxed<TypeTree>,
        inner: Boxed<CoreTree>,
    },
    /// Parameters one round the other.
    Lambda {
        pattern: Boxed<PatternTree>,
        more: Items<PatternTree>,
        body: Boxed<CoreTree>,
    },
    /// One argument after the other.
    Call {
        function: Boxed<CoreTree>,
        arguments: Items<CoreTree>,
    },
    If {
        condition: Boxed<CoreTree>,
        yes: Boxed<CoreTree>,
        no: Boxed<CoreTree>,
    },
    Guards {
        branches: Items<(CoreTree, CoreTree)>,
    },
    Case {
        scrutinee: Boxed<CoreTree>,
        branches: Items<(PatternTree, CoreTree)>,
    },
    Let {
        groups: Items<LetGroup>,
        body: Boxed<CoreTree>,
    },
    Tuple {
        parts: Items<CoreTree>,
    },
    List {
        parts: Items<CoreTree>,
    },
    Range {
        low: Boxed<CoreTree>,
        high: Boxed<CoreTree>,
    },
    Fields {
        fields: Items<(Name, CoreTree)>,
    },
    Update {
        from: Boxed<CoreTree>,
        fields: Items<(Name, CoreTree)>,
    },
    Extend {
        from: Boxed<CoreTree>,
        fields: Items<(Name, CoreTree)>,
    },
    Remove {
        from: Boxed<CoreTree>,
        label: Name,
    },
    Field {
        from: Boxed<CoreTree>,
        label: Name,
    },
}

/// A group of a `let`: a value, or functions that may call each other.
#[cycle(tree)]
#[derive(Drop)]
pub enum LetGroup {
    Value {
        pattern: Boxed<PatternTree>,
        value: Boxed<CoreTree>,
    },
    Functions {
        functions: Items<LetFunction>,
    },
}

/// A function of a `let`: the number of its name, its annotation without aliases, its parameters, of which it has one at
/// least, and its body.
#[cycle(tree)]
#[derive(Drop)]
pub struct LetFunction {
    pub number: u32,
    pub annotation: Option<Boxed<TypeTree>>,
    pub pattern: Boxed<PatternTree>,
    pub more: Items<PatternTree>,
    pub body: Boxed<CoreTree>,
}
