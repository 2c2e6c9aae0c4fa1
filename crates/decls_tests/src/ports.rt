//! What ports carry, and which types make sense.
use crate::projects::put_modules;
use alias_expansion::{PlainAlias, Room, plain, plain_aliases};
use elm_base::{Declaration, Module, NoMemory, TypeTree};
use frame_text::write_type;
use module_names::defaults_for;
use port_types::carried;
use sqlite_items::Items;
use std::alloc::{AllocError, Global};
use std::fmt::Write;
use std::process::Abort;
use std::str;
use std::test::Fail;
use type_names::{KnownType, TypeScope, known_types};
use type_sense::makes_sense;

fn put_carried(alloc: Global, tree: &TypeTree, text: &mut String) -> Result<(), NoMemory> {
    let mut written = Vec::new(alloc);
    match carried(alloc, tree)? {
        None => written.extend_from_slice(b"none")?,
        Some(port) => write_type(alloc, &port, &mut written)?,
    }
    text.push_str(str::from_utf8(&written).unwrap_or("?"))?;
    Ok(())
}

fn put_sense(alloc: Global, tree: &TypeTree, text: &mut String) -> Result<(), NoMemory> {
    let sense = if makes_sense(alloc, tree)? {
        "sense"
    } else {
        "none"
    };
    text.push_str(sense)?;
    Ok(())
}

fn put_plain(
    alloc: Global,
    scope: &TypeScope<'_>,
    aliases: &[PlainAlias],
    written: &TypeTree,
    port: bool,
    text: &mut String,
) -> Result<(), NoMemory> {
    let mut room = Room::new();
    match plain(alloc, written, aliases, scope, &mut room)? {
        None => Ok(text.push_str("no type")?),
        Some(tree) if port => put_carried(alloc, &tree, text),
        Some(tree) => put_sense(alloc, &tree, text),
    }
}

/// What a port carries, or whether the type of an annotation makes sense.
fn put_declared(
    alloc: Global,
    scope: &TypeScope<'_>,
    aliases: &[PlainAlias],
    declaration: &Declaration,
    text: &mut String,
) -> Result<(), NoMemory> {
    match declaration {
        Declaration::PortAnnotation { written, .. } => {
            put_plain(alloc, scope, aliases, written, true, text)
        }
        Declaration::Annotation { written, .. } => {
            put_plain(alloc, scope, aliases, written, false, text)
        }
        _ => Ok(()),
    }
}

fn put_ports_of(
    alloc: Global,
    types: &[KnownType],
    aliases: &[PlainAlias],
    home: &Module,
    text: &mut String,
) -> Result<(), NoMemory> {
    let defaults = defaults_for(alloc, home.name.bytes())?;
    let scope = TypeScope {
        types,
        name: &home.name,
        defaults: defaults.as_slice(),
        imports: home.imports.as_slice(),
    };
    for declaration in home.declarations.as_slice() {
        put_declared(alloc, &scope, aliases, declaration, text)?;
    }
    Ok(())
}

fn put_ports(alloc: Global, modules: &[Module], text: &mut String) -> Result<(), NoMemory> {
    let types = known_types(alloc, modules)?;
    let aliases = plain_aliases(alloc, types.as_slice(), modules)?;
    for home in modules {
        put_ports_of(alloc, types.as_slice(), aliases.as_slice(), home, text)?;
    }
    Ok(())
}

/// A project with one port, and what the port carries.
type Row = (&'static str, &'static str);

fn expect_port(rt: &impl Abort, alloc: Global, given: &str, wanted: &str) -> Result<(), Fail> {
    let mut modules = Items::new(alloc);
    put_modules(alloc, given, &mut modules)?;
    let mut text = String::new(alloc);
    put_ports(alloc, modules.as_slice(), &mut text)?;
    assert_eq!(rt; text.as_str(), wanted, "in {given}");
    Ok(())
}

const CARRIED: [Row; 34] = [
    ("port p : Signal ()", "()"),
    ("port p : Signal Int", "Int"),
    ("port p : Int", "none"),
    ("port p : ()", "none"),
    ("port p : (Signal (Int))", "Int"),
    ("port p : Signal Bool", "Bool"),
    ("port p : Signal String", "String"),
    ("port p : Signal Char", "none"),
    ("port p : Signal (Maybe (List Int))", "Maybe (List Int)"),
    ("port p : Signal (Maybe Char)", "none"),
    ("port p : Maybe Int", "none"),
    ("port p : Signal (List (Int, Bool))", "List (Int,Bool)"),
    ("port p : Signal (List (Int, Char))", "none"),
    ("port p : Signal (Signal Int)", "none"),
    ("port p : Signal (Int, Signal Int)", "none"),
    ("port p : (Signal Int, Int)", "none"),
    ("port p : Signal (Int -> Int)", "none"),
    ("port p : Int -> Signal Int", "none"),
    ("port p : Signal a", "none"),
    ("port p : Signal number", "Int"),
    ("port p : Signal (Maybe number2)", "Maybe Int"),
    ("port p : number", "none"),
    (
        "port p : Signal { x : Int, y : Int }",
        "{ x : Int, y : Int }",
    ),
    (
        "port p : Signal { y : Int, x : Bool }",
        "{ x : Bool, y : Int }",
    ),
    (
        "port p : Signal { b : (), a : (), c : (), ab : () }",
        "{ a : (), ab : (), b : (), c : () }",
    ),
    ("port p : Signal { x : Int, x : Int }", "none"),
    ("port p : Signal { x : Int, y : Int, x : Bool }", "none"),
    ("port p : Signal { x : Int, y : Char }", "none"),
    ("port p : Signal {}", "{}"),
    ("port p : Signal { a | x : Int }", "none"),
    ("port p : Signal T\ntype T = K", "none"),
    (
        "port p : S\ntype alias S = Signal P\ntype alias P = { y : Int, x : Int }",
        "{ x : Int, y : Int }",
    ),
    (
        "port p : Signal (R {})\ntype alias R a = { a | x : Int }",
        "{ x : Int }",
    ),
    (
        "port p : Signal (R { x : Int })\ntype alias R a = { a | x : Int }",
        "none",
    ),
];

/// A project with one annotation, and whether its type makes sense.
const SENSES: [Row; 30] = [
    ("f : a -> a\nf = f", "sense"),
    ("f : Signal Int\nf = f", "sense"),
    ("f : Signal (Signal Int)\nf = f", "none"),
    ("f : Signal a\nf = f", "sense"),
    ("f : Int -> Signal Int\nf = f", "sense"),
    ("f : Signal Int -> Int\nf = f", "none"),
    ("f : Signal Int -> a\nf = f", "sense"),
    ("f : Signal Int -> comparable\nf = f", "none"),
    ("f : Signal Int -> number\nf = f", "none"),
    ("f : Signal Int -> a -> b\nf = f", "sense"),
    ("f : (Signal Int -> a) -> Maybe a\nf = f", "none"),
    ("f : (Signal Int -> a) -> b -> Maybe b\nf = f", "none"),
    ("f : (Signal Int -> a) -> a -> b\nf = f", "sense"),
    ("f : (Signal Int -> a) -> (a -> b) -> b\nf = f", "sense"),
    (
        "f : (a -> b) -> (Signal Int -> a) -> List b -> c\nf = f",
        "none",
    ),
    ("f : (a -> b) -> Signal a -> Signal b\nf = f", "sense"),
    ("f : (a -> b) -> Signal a -> b\nf = f", "sense"),
    ("f : (Signal Int, Int)\nf = f", "none"),
    ("f : { x : Signal Int }\nf = f", "none"),
    ("f : { x : Int -> Signal Int }\nf = f", "none"),
    ("f : List (Int -> Int)\nf = f", "sense"),
    ("f : Maybe (Signal Int)\nf = f", "none"),
    ("f : { a | x : Int } -> a\nf = f", "sense"),
    (
        "f : { a | x : Int } -> Signal a -> Signal a\nf = f",
        "sense",
    ),
    ("f : (Signal Int -> a) -> { a | x : Int }\nf = f", "none"),
    ("f : { comparable | x : Int }\nf = f", "none"),
    ("f : { number2 | x : Int }\nf = f", "none"),
    ("f : Maybe { compappend | x : Int }\nf = f", "none"),
    (
        "f : S Int\nf = f\ntype alias S a = Signal (Signal a)",
        "none",
    ),
    (
        "f : D Int (Signal Int)\nf = f\ntype alias D a b = Signal a",
        "sense",
    ),
];

#[test]
fn types_with_and_without_sense(rt: HostRuntime) -> Result<(), Fail> {
    let alloc = rt.alloc();
    for (given, wanted) in SENSES {
        expect_port(&rt, alloc, given, wanted)?;
    }
    Ok(())
}

#[test]
fn types_of_ports(rt: HostRuntime) -> Result<(), Fail> {
    let alloc = rt.alloc();
    for (given, wanted) in CARRIED {
        expect_port(&rt, alloc, given, wanted)?;
    }
    Ok(())
}

fn put_times(text: &mut String, piece: &str, times: u32) -> Result<(), AllocError> {
    for _ in 0..times {
        text.push_str(piece)?;
    }
    Ok(())
}

/// `Signal` of an Int in so many lists.
fn put_lists(text: &mut String, depth: u32) -> Result<(), AllocError> {
    text.push_str("port p : Signal ")?;
    put_times(text, "(List ", depth)?;
    text.push_str("Int")?;
    put_times(text, ")", depth)
}

/// A record whose text has 3,881 bytes, and as many more as this.
fn put_record(text: &mut String, more: u32) -> Result<(), AllocError> {
    text.push_str("port p : Signal { ")?;
    for number in 10..25u32 {
        write!(text, "a{number}")?;
        put_times(text, "b", 247)?;
        text.push_str(" : Int, ")?;
    }
    text.push_str("z")?;
    put_times(text, "b", more)?;
    text.push_str(" : Int }")
}

fn takes_port(alloc: Global, given: &str) -> Result<bool, Fail> {
    let mut modules = Items::new(alloc);
    put_modules(alloc, given, &mut modules)?;
    let mut text = String::new(alloc);
    put_ports(alloc, modules.as_slice(), &mut text)?;
    Ok(text.as_str() != "none")
}

fn takes_lists(alloc: Global, depth: u32) -> Result<bool, Fail> {
    let mut text = String::new(alloc);
    put_lists(&mut text, depth)?;
    takes_port(alloc, text.as_str())
}

fn takes_record(alloc: Global, more: u32) -> Result<bool, Fail> {
    let mut text = String::new(alloc);
    put_record(&mut text, more)?;
    takes_port(alloc, text.as_str())
}

#[test]
fn ports_at_their_limits(rt: HostRuntime) -> Result<(), Fail> {
    let alloc = rt.alloc();
    let nesting = (takes_lists(alloc, 32)?, takes_lists(alloc, 33)?);
    assert_eq!(&rt; nesting, (true, false));
    let bytes = (takes_record(alloc, 215)?, takes_record(alloc, 216)?);
    assert_eq!(&rt; bytes, (true, false));
    Ok(())
}
