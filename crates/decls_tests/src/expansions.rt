//! The aliases of a project, written out.
use crate::projects::{put_modules, put_name};
use crate::rows::doubled;
use alias_expansion::{PlainAlias, plain_aliases};
use elm_base::{Module, Name, NoMemory, Spot, TypeTree};
use sqlite_items::Items;
use std::alloc::{AllocError, Global};
use std::process::Abort;
use std::test::Fail;
use type_names::known_types;
use type_sense::alias_makes_sense;

#[cycle(shown)]
fn put_type(text: &mut String, tree: &TypeTree) -> Result<(), NoMemory> {
    match tree {
        TypeTree::Variable { name, .. } => put_name(text, name),
        TypeTree::Named {
            name,
            arguments,
            ..
        } => {
            put_name(text, name)?;
            put_parts(text, " ", arguments.as_slice())
        }
        TypeTree::Arrow { from, to, .. } => {
            put_part(text, from.get())?;
            text.push_str(" -> ")?;
            put_type(text, to.get())
        }
        TypeTree::Unit { .. } => Ok(text.push_str("()")?),
        TypeTree::Tuple { parts, .. } => put_parts(text, ",", parts.as_slice()),
        TypeTree::Brackets { inner, .. } => {
            text.push_str("brackets ")?;
            put_type(text, inner.get())
        }
        TypeTree::Fields { before, fields, .. } => {
            put_before(text, before)?;
            put_fields(text, fields.as_slice())
        }
    }
}

/// In square brackets.
#[cycle(shown)]
fn put_part(text: &mut String, tree: &TypeTree) -> Result<(), NoMemory> {
    text.push_str("[")?;
    put_type(text, tree)?;
    text.push_str("]")?;
    Ok(())
}

/// Each in square brackets, behind this.
#[cycle(shown)]
fn put_parts(text: &mut String, behind: &str, trees: &[TypeTree]) -> Result<(), NoMemory> {
    for tree in trees {
        text.push_str(behind)?;
        put_part(text, tree)?;
    }
    Ok(())
}

fn put_before(text: &mut String, before: &Option<Spot>) -> Result<(), NoMemory> {
    match before {
        None => Ok(text.push_str("record")?),
        Some(spot) => put_name(text, &spot.name),
    }
}

#[cycle(shown)]
fn put_fields(text: &mut String, fields: &[(Spot, TypeTree)]) -> Result<(), NoMemory> {
    for (label, tree) in fields {
        text.push_str(" ")?;
        put_name(text, &label.name)?;
        put_part(text, tree)?;
    }
    Ok(())
}

fn put_names(text: &mut String, names: &[Name]) -> Result<(), NoMemory> {
    for name in names {
        text.push_str(" ")?;
        put_name(text, name)?;
    }
    Ok(())
}

fn put_alias(text: &mut String, alias: &PlainAlias) -> Result<(), NoMemory> {
    put_name(text, &alias.name)?;
    put_names(text, alias.parameters.as_slice())?;
    text.push_str(" = ")?;
    match &alias.written {
        None => text.push_str("none")?,
        Some(tree) => put_type(text, tree)?,
    }
    text.push_str("; ")?;
    Ok(())
}

fn put_aliases(alloc: Global, modules: &[Module], text: &mut String) -> Result<(), NoMemory> {
    let types = known_types(alloc, modules)?;
    let aliases = plain_aliases(alloc, types.as_slice(), modules)?;
    for alias in aliases.as_slice() {
        put_alias(text, alias)?;
    }
    Ok(())
}

/// Each project's modules, and its aliases as they are found: each in square brackets that is a part.
type Row = (&'static str, &'static str);

fn expect_aliases(rt: &impl Abort, alloc: Global, given: &str, wanted: &str) -> Result<(), Fail> {
    let mut modules = Items::new(alloc);
    put_modules(alloc, given, &mut modules)?;
    let mut text = String::new(alloc);
    put_aliases(alloc, modules.as_slice(), &mut text)?;
    assert_eq!(rt; text.as_str(), wanted, "in {given}");
    Ok(())
}

const FORMS: [Row; 12] = [
    ("type alias A = Int", "A = Basics.Int; "),
    ("type alias A = (Int)", "A = Basics.Int; "),
    ("type alias A = (Int, ())", "A = ,[Basics.Int],[()]; "),
    (
        "type alias A = Maybe (Int -> Bool)",
        "A = Maybe.Maybe [[Basics.Int] -> Basics.Bool]; ",
    ),
    (
        "type alias A b c = { b | y : c, x : Int, y : T }\ntype T = K",
        "A b c = b y[c] x[Basics.Int] y[Main.T]; ",
    ),
    ("type alias A = {}", "A = record; "),
    (
        "type alias A = Maybe B\ntype alias B = List Int",
        "B = Basics.List [Basics.Int]; A = Maybe.Maybe [Basics.List [Basics.Int]]; ",
    ),
    (
        "type alias A b = (b, Int -> b)\ntype alias C = A (A ())",
        "A b = ,[b],[[Basics.Int] -> b]; C = ,[,[()],[[Basics.Int] -> ()]],[[Basics.Int] -> ,[()],[[Basics.Int] -> ()]]; ",
    ),
    (
        "type alias A b c = c\ntype alias D e = A Int e",
        "A b c = c; D e = e; ",
    ),
    (
        "module A where\ntype T = K\ntype alias U = T\n---\nimport A\ntype T = L\ntype alias V = (A.U, T)",
        "U = A.T; V = ,[A.T],[Main.T]; ",
    ),
    (
        "type alias A b = b\ntype alias C = A (A Int, A (A ()))",
        "A b = b; C = ,[Basics.Int],[()]; ",
    ),
    (
        "type alias A = { x : B }\ntype alias B = { y : Int }",
        "B = record y[Basics.Int]; A = record x[record y[Basics.Int]]; ",
    ),
];

const BARS: [Row; 9] = [
    (
        "type alias P a = { a | x : Int }\ntype alias Q = P { y : Bool }",
        "P a = a x[Basics.Int]; Q = record x[Basics.Int] y[Basics.Bool]; ",
    ),
    (
        "type alias P a = { a | x : Int }\ntype alias Q b = P (P b)",
        "P a = a x[Basics.Int]; Q b = b x[Basics.Int] x[Basics.Int]; ",
    ),
    (
        "type alias P a = { a | x : Int }\ntype alias Q b = P ({ b | x : Bool })",
        "P a = a x[Basics.Int]; Q b = b x[Basics.Int] x[Basics.Bool]; ",
    ),
    (
        "type alias P a = { a | x : Int }\ntype alias Q = P Int",
        "P a = a x[Basics.Int]; Q = none; ",
    ),
    (
        "type alias P a = { a | x : Int }\ntype alias Q = P (Int, Int)",
        "P a = a x[Basics.Int]; Q = none; ",
    ),
    (
        "type alias P a = { a | x : Int }\ntype alias Q = Maybe (Int -> P ())\ntype alias R = (Int, Q)",
        "P a = a x[Basics.Int]; Q = none; R = none; ",
    ),
    (
        "type alias P a = { a | x : Int }\ntype alias D a b = b\ntype alias Q = D (P Int) Int",
        "P a = a x[Basics.Int]; D a b = b; Q = Basics.Int; ",
    ),
    (
        "type alias P a = { a | x : Int }\ntype alias D a b = b\ntype alias Q = D Int (P Int)",
        "P a = a x[Basics.Int]; D a b = b; Q = none; ",
    ),
    (
        "type alias P a = { a | x : Int }\ntype alias Q = { x : P Int }",
        "P a = a x[Basics.Int]; Q = none; ",
    ),
];

const MISSING: [Row; 9] = [
    ("type alias A = Foo", ""),
    ("type alias A = Maybe", ""),
    ("type alias A = b", ""),
    ("type alias A = A", ""),
    (
        "type alias A = B\ntype alias B = Maybe A\ntype alias C = Int",
        "C = Basics.Int; ",
    ),
    ("type alias A = (Int, B)\ntype alias B = Foo", ""),
    (
        "type alias D a b = a\ntype alias A = D Int B\ntype alias B = Foo",
        "D a b = a; ",
    ),
    ("type alias A = T\ntype T = K A", "A = Main.T; "),
    (
        "type alias A b = B\ntype alias B = A B\ntype alias C = A Int",
        "",
    ),
];

/// Whether the texts of aliases make sense, their parameters being variables.
const SENSES: [Row; 8] = [
    ("type alias A a = Signal a", "A sense; "),
    ("type alias A = Signal (Signal Int)", "A none; "),
    ("type alias A a = { a | x : Int }", "A sense; "),
    ("type alias A number = { number | x : Int }", "A sense; "),
    (
        "type alias A comparable = { comparable | x : Int }",
        "A none; ",
    ),
    ("type alias A number2 = Signal Int -> number2", "A sense; "),
    (
        "type alias A comparable = Signal Int -> comparable",
        "A none; ",
    ),
    (
        "type alias P a = { a | x : Int }\ntype alias A = P Int",
        "P sense; A no type; ",
    ),
];

fn put_sense(alloc: Global, written: &Option<TypeTree>, text: &mut String) -> Result<(), NoMemory> {
    match written {
        None => text.push_str(" no type; ")?,
        Some(tree) => {
            let sense = if alias_makes_sense(alloc, tree)? {
                " sense; "
            } else {
                " none; "
            };
            text.push_str(sense)?;
        }
    }
    Ok(())
}

fn put_senses(alloc: Global, modules: &[Module], text: &mut String) -> Result<(), NoMemory> {
    let types = known_types(alloc, modules)?;
    let aliases = plain_aliases(alloc, types.as_slice(), modules)?;
    for alias in aliases.as_slice() {
        put_name(text, &alias.name)?;
        put_sense(alloc, &alias.written, text)?;
    }
    Ok(())
}

fn expect_senses(rt: &impl Abort, alloc: Global, given: &str, wanted: &str) -> Result<(), Fail> {
    let mut modules = Items::new(alloc);
    put_modules(alloc, given, &mut modules)?;
    let mut text = String::new(alloc);
    put_senses(alloc, modules.as_slice(), &mut text)?;
    assert_eq!(rt; text.as_str(), wanted, "in {given}");
    Ok(())
}

#[test]
fn aliases_with_and_without_sense(rt: HostRuntime) -> Result<(), Fail> {
    let alloc = rt.alloc();
    for (given, wanted) in SENSES {
        expect_senses(&rt, alloc, given, wanted)?;
    }
    Ok(())
}

fn go_through(rt: &impl Abort, alloc: Global, rows: &[Row]) -> Result<(), Fail> {
    for (given, wanted) in rows {
        expect_aliases(rt, alloc, given, wanted)?;
    }
    Ok(())
}

#[test]
fn aliases_in_each_form(rt: HostRuntime) -> Result<(), Fail> {
    go_through(&rt, rt.alloc(), &FORMS)
}

#[test]
fn what_stands_before_a_bar(rt: HostRuntime) -> Result<(), Fail> {
    go_through(&rt, rt.alloc(), &BARS)
}

#[test]
fn aliases_that_cannot_be_written_out(rt: HostRuntime) -> Result<(), Fail> {
    go_through(&rt, rt.alloc(), &MISSING)
}

/// Whether there is no room to write out all aliases.
fn is_too_large(alloc: Global, modules: &[Module]) -> Result<bool, NoMemory> {
    let types = known_types(alloc, modules)?;
    match plain_aliases(alloc, types.as_slice(), modules) {
        Ok(_) => Ok(false),
        Err(NoMemory) => Ok(true),
    }
}

#[test]
fn aliases_that_double_thirty_times(rt: HostRuntime) -> Result<(), Fail> {
    let alloc = rt.alloc();
    let text = doubled(alloc)?;
    let mut modules = Items::new(alloc);
    put_modules(alloc, text.as_str(), &mut modules)?;
    let found = is_too_large(alloc, modules.as_slice())?;
    assert!(&rt; found);
    Ok(())
}
