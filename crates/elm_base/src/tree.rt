//! The trees that the parser makes of a module's text.
//! Each node has the place of its first token. Texts and chars stand with their escapes read.
ghost use Rattle.std.specs.Prelude.{◌≡◌, IfOk};

use crate::memory::NoMemory;
use crate::name::Name;
use crate::native::NativeId;
use crate::token::At;
use sqlite_items::{Boxed, Items};
use std::alloc::Global;

/// A name with the place where it stands.
#[derive(Drop)]
pub struct Spot {
    pub at: At,
    pub name: Name,
}

/// An operator where it is used, without backticks.
#[derive(Drop)]
pub struct Operator {
    pub at: At,
    pub name: Name,
}

/// To which side an operator groups with others of its level.
#[derive(Clone, Copy, Debug, PartialEq, Eq)]
pub enum Side {
    Left,
    Right,
    Neither,
}

/// A type as it is written.
#[derive(Drop)]
pub enum TypeTree {
    Variable {
        at: At,
        name: Name,
    },
    Named {
        at: At,
        name: Name,
        arguments: Items<TypeTree>,
    },
    Arrow {
        at: At,
        from: Boxed<TypeTree>,
        to: Boxed<TypeTree>,
    },
    Unit {
        at: At,
    },
    Tuple {
        at: At,
        parts: Items<TypeTree>,
    },
    Brackets {
        at: At,
        inner: Boxed<TypeTree>,
    },
    /// A record: the variable before the bar, if one is written, and the fields.
    Fields {
        at: At,
        before: Option<Spot>,
        fields: Items<(Spot, TypeTree)>,
    },
}

/// A pattern as it is written.
#[derive(Drop)]
pub enum Pattern {
    Anything {
        at: At,
    },
    Variable {
        at: At,
        name: Name,
    },
    Int {
        at: At,
        value: i64,
    },
    Char {
        at: At,
        value: char,
    },
    Text {
        at: At,
        value: Name,
    },
    Unit {
        at: At,
    },
    Made {
        at: At,
        constructor: Name,
        parts: Items<Pattern>,
    },
    Cons {
        at: At,
        head: Boxed<Pattern>,
        tail: Boxed<Pattern>,
    },
    List {
        at: At,
        parts: Items<Pattern>,
    },
    Tuple {
        at: At,
        parts: Items<Pattern>,
    },
    Fields {
        at: At,
        labels: Items<Spot>,
    },
    Brackets {
        at: At,
        inner: Boxed<Pattern>,
    },
    /// `inner as name`.
    Named {
        at: At,
        inner: Boxed<Pattern>,
        name: Spot,
    },
}

/// A constructor of a union where it is declared.
#[derive(Drop)]
pub struct Constructor {
    pub at: At,
    pub name: Name,
    pub arguments: Items<TypeTree>,
}

/// One field of a record form: the label and the expression that it takes.
#[cycle(tree)]
#[derive(Drop)]
pub struct Set {
    pub at: At,
    pub label: Name,
    pub value: Expr,
}

/// An expression as it is written.
#[cycle(tree)]
#[derive(Drop)]
pub enum Expr {
    /// Operands with operators between them, to which no levels have been applied yet.
    Chain {
        at: At,
        operands: Items<Expr>,
        operators: Items<Operator>,
    },
    /// An operator with its two operands, in the place of a chain once levels are applied.
    Binary {
        at: At,
        operator: Operator,
        left: Boxed<Expr>,
        right: Boxed<Expr>,
    },
    Negate {
        at: At,
        inner: Boxed<Expr>,
    },
    Call {
        at: At,
        function: Boxed<Expr>,
        arguments: Items<Expr>,
    },
    Int {
        at: At,
        value: i64,
    },
    Char {
        at: At,
        value: char,
    },
    Text {
        at: At,
        value: Name,
    },
    Variable {
        at: At,
        name: Name,
    },
    Constructor {
        at: At,
        name: Name,
    },
    FieldFunction {
        at: At,
        label: Name,
    },
    Access {
        at: At,
        from: Boxed<Expr>,
        label: Name,
    },
    /// An operator in brackets.
    OperatorName {
        at: At,
        name: Name,
    },
    /// `(,)` and its kin, with the number of parts of the tuple that it makes.
    TupleMaker {
        at: At,
        parts: u32,
    },
    Unit {
        at: At,
    },
    Brackets {
        at: At,
        inner: Boxed<Expr>,
    },
    Tuple {
        at: At,
        parts: Items<Expr>,
    },
    List {
        at: At,
        parts: Items<Expr>,
    },
    Range {
        at: At,
        low: Boxed<Expr>,
        high: Boxed<Expr>,
    },
    /// `{ x = 1 }`, a record of these fields alone.
    Fields {
        at: At,
        fields: Items<Set>,
    },
    /// `{ from | x = 1 }`, new fields over the old ones.
    Extend {
        at: At,
        from: Boxed<Expr>,
        fields: Items<Set>,
    },
    /// `{ from | x <- 1 }`, new values in the newest fields of these labels.
    Update {
        at: At,
        from: Boxed<Expr>,
        fields: Items<Set>,
    },
    /// `{ from - x }`, perhaps followed by new fields.
    Remove {
        at: At,
        from: Boxed<Expr>,
        label: Name,
        fields: Items<Set>,
    },
    Lambda {
        at: At,
        patterns: Items<Pattern>,
        body: Boxed<Expr>,
    },
    If {
        at: At,
        condition: Boxed<Expr>,
        yes: Boxed<Expr>,
        no: Boxed<Expr>,
    },
    /// An `if` of several branches, each a condition and a result.
    Guards {
        at: At,
        branches: Items<(Expr, Expr)>,
    },
    Let {
        at: At,
        definitions: Items<Declaration>,
        body: Boxed<Expr>,
    },
    Case {
        at: At,
        scrutinee: Boxed<Expr>,
        branches: Items<(Pattern, Expr)>,
    },
}

/// A declaration of a module, or of a `let`.
#[cycle(tree)]
#[derive(Drop)]
pub enum Declaration {
    Union {
        at: At,
        name: Spot,
        parameters: Items<Spot>,
        constructors: Items<Constructor>,
    },
    Alias {
        at: At,
        name: Spot,
        parameters: Items<Spot>,
        written: TypeTree,
    },
    Annotation {
        at: At,
        name: Name,
        written: TypeTree,
    },
    Definition {
        at: At,
        name: Name,
        patterns: Items<Pattern>,
        body: Expr,
    },
    /// A pattern on the left side. It stands in a `let` only.
    PatternDefinition {
        at: At,
        pattern: Pattern,
        body: Expr,
    },
    PortAnnotation {
        at: At,
        name: Spot,
        written: TypeTree,
    },
    PortDefinition {
        at: At,
        name: Spot,
        body: Expr,
    },
    /// The level and side of an operator.
    Levels {
        at: At,
        side: Side,
        level: u32,
        operator: Operator,
    },
    /// A value of the library that the machine computes itself.
    Native {
        at: At,
        name: Name,
        written: TypeTree,
        number: NativeId,
    },
    /// A signal of the library that the outside feeds.
    Device {
        at: At,
        name: Name,
        written: TypeTree,
    },
    /// A type of the library without a structure that programs see.
    Opaque {
        at: At,
        name: Name,
        parameters: Items<Name>,
    },
}

/// Which of a module's names an import or a header speaks of.
#[derive(Drop)]
pub enum Exposing {
    /// All of them, `(..)`.
    All,
    Items(Items<Item>),
}

/// Which constructors of a type an item speaks of.
#[derive(Drop)]
pub enum Constructors {
    /// None: the type is written alone.
    Hidden,
    /// All of them, `T(..)`.
    All,
    Listed(Items<Spot>),
}

/// One entry of a list of exposed names.
#[derive(Drop)]
pub enum Item {
    Value {
        at: At,
        name: Name,
    },
    /// An operator in brackets.
    Operator {
        at: At,
        name: Name,
    },
    /// A type, by its name.
    Named {
        at: At,
        name: Name,
        constructors: Constructors,
    },
}

/// `import module as alias exposing ..`.
#[derive(Drop)]
pub struct Import {
    pub at: At,
    pub module: Name,
    pub alias: Option<Name>,
    pub exposes: Option<Exposing>,
}

/// A module as it is written. Without a header it stands at line 1, column 1, and exposes all.
#[derive(Drop)]
pub struct Module {
    pub at: At,
    pub name: Name,
    pub exposes: Exposing,
    pub imports: Items<Import>,
    pub declarations: Items<Declaration>,
}

impl Spot {
    /// An equal spot of its own.
    pub fn copy(&self, alloc: Global) -> Result<Spot, NoMemory>
        ensures { IfOk result (λ copied. copied ≡ self.now) }
    {
        let name = self.name.copy(alloc)?;
        Ok(Spot { at: self.at, name })
    }
}

fn copies_of_spots(alloc: Global, spots: &[Spot]) -> Result<Items<Spot>, NoMemory>
    ensures { IfOk result (λ copied. copied ≡ spots.now) }
{
    let mut copied = Items::new(alloc);
    for spot in spots {
        copied.push(spot.copy(alloc)?)?;
    }
    Ok(copied)
}

#[cycle(copy)]
fn copies_of_patterns(alloc: Global, patterns: &[Pattern]) -> Result<Items<Pattern>, NoMemory>
    ensures { IfOk result (λ copied. copied ≡ patterns.now) }
{
    let mut copied = Items::new(alloc);
    for pattern in patterns {
        copied.push(pattern.copy(alloc)?)?;
    }
    Ok(copied)
}

#[cycle(copy)]
fn copy_in_box(alloc: Global, pattern: &Boxed<Pattern>) -> Result<Boxed<Pattern>, NoMemory>
    ensures { IfOk result (λ copied. copied ≡ pattern.now) }
{
    let copied = pattern.get().copy(alloc)?;
    Ok(Boxed::new(alloc, copied)?)
}

impl Pattern {
    /// An equal pattern of its own.
    #[cycle(copy)]
    pub fn copy(&self, alloc: Global) -> Result<Pattern, NoMemory>
        ensures { IfOk result (λ copied. copied ≡ self.now) }
    {
        match self {
            Pattern::Anything { at } => Ok(Pattern::Anything { at: *at }),
            Pattern::Unit { at } => Ok(Pattern::Unit { at: *at }),
            Pattern::Int { at, value } => Ok(Pattern::Int {
                at: *at,
                value: *value,
            }),
            Pattern::Char { at, value } => Ok(Pattern::Char {
                at: *at,
                value: *value,
            }),
            Pattern::Variable { at, name } => {
                let name = name.copy(alloc)?;
                Ok(Pattern::Variable { at: *at, name })
            }
            Pattern::Text { at, value } => {
                let value = value.copy(alloc)?;
                Ok(Pattern::Text { at: *at, value })
            }
            Pattern::Fields { at, labels } => {
                let labels = copies_of_spots(alloc, labels.as_slice())?;
                Ok(Pattern::Fields { at: *at, labels })
            }
            Pattern::Made {
                at,
                constructor,
                parts,
            } => {
                let constructor = constructor.copy(alloc)?;
                let parts = copies_of_patterns(alloc, parts.as_slice())?;
                Ok(Pattern::Made {
                    at: *at,
                    constructor,
                    parts,
                })
            }
            Pattern::Cons { at, head, tail } => {
                let head = copy_in_box(alloc, head)?;
                let tail = copy_in_box(alloc, tail)?;
                Ok(Pattern::Cons {
                    at: *at,
                    head,
                    tail,
                })
            }
            Pattern::List { at, parts } => {
                let parts = copies_of_patterns(alloc, parts.as_slice())?;
                Ok(Pattern::List { at: *at, parts })
            }
            Pattern::Tuple { at, parts } => {
                let parts = copies_of_patterns(alloc, parts.as_slice())?;
                Ok(Pattern::Tuple { at: *at, parts })
            }
            Pattern::Brackets { at, inner } => {
                let inner = copy_in_box(alloc, inner)?;
                Ok(Pattern::Brackets { at: *at, inner })
            }
            Pattern::Named { at, inner, name } => {
                let inner = copy_in_box(alloc, inner)?;
                let name = name.copy(alloc)?;
                Ok(Pattern::Named {
                    at: *at,
                    inner,
                    name,
                })
            }
        }
    }
}
