//! Literals that are read, beside their near misses.
use elm_base::{Halt, Name, NoMemory, PortType, PortValue};
use port_literals::{is_port, read_value};
use port_values::print_value;
use sqlite_items::{Boxed, Items};
use std::alloc::Global;

/// The types of the rows.
#[derive(Clone, Copy)]
enum Kind {
    Unit,
    Int,
    Bool,
    Text,
    /// `Maybe Int`
    MaybeInt,
    /// `Maybe (Maybe Int)`
    MaybeMaybe,
    /// `Maybe String`
    MaybeText,
    /// `Maybe (List Int)`
    MaybeInts,
    /// `List Int`
    Ints,
    /// `(Int,Int)`
    Pair,
    /// `((Int,Int),Int)`
    PairAndInt,
    /// `{ x : Int, y : Int }`
    Point,
    /// `{}`
    Empty,
}

fn maybe(alloc: Global, inner: PortType) -> Result<PortType, NoMemory> {
    Ok(PortType::Maybe(Boxed::new(alloc, inner)?))
}

fn ints(alloc: Global) -> Result<PortType, NoMemory> {
    Ok(PortType::List(Boxed::new(alloc, PortType::Int)?))
}

fn pair(alloc: Global) -> Result<PortType, NoMemory> {
    let parts = vec![in alloc; PortType::Int, PortType::Int]?;
    Ok(PortType::Tuple(Items::from_vec(parts)))
}

fn pair_and_int(alloc: Global) -> Result<PortType, NoMemory> {
    let parts = vec![in alloc; pair(alloc)?, PortType::Int]?;
    Ok(PortType::Tuple(Items::from_vec(parts)))
}

fn point(alloc: Global) -> Result<PortType, NoMemory> {
    let x = (Name::of(alloc, b"x")?, PortType::Int);
    let y = (Name::of(alloc, b"y")?, PortType::Int);
    let fields = vec![in alloc; x, y]?;
    Ok(PortType::Fields(Items::from_vec(fields)))
}

fn type_of(alloc: Global, kind: Kind) -> Result<PortType, NoMemory> {
    match kind {
        Kind::Unit => Ok(PortType::Unit),
        Kind::Int => Ok(PortType::Int),
        Kind::Bool => Ok(PortType::Bool),
        Kind::Text => Ok(PortType::Text),
        Kind::MaybeInt => maybe(alloc, PortType::Int),
        Kind::MaybeMaybe => maybe(alloc, maybe(alloc, PortType::Int)?),
        Kind::MaybeText => maybe(alloc, PortType::Text),
        Kind::MaybeInts => maybe(alloc, ints(alloc)?),
        Kind::Ints => ints(alloc),
        Kind::Pair => pair(alloc),
        Kind::PairAndInt => pair_and_int(alloc),
        Kind::Point => point(alloc),
        Kind::Empty => Ok(PortType::Fields(Items::new(alloc))),
    }
}

fn printed(alloc: Global, value: &PortValue) -> Result<Vec<u8>, NoMemory> {
    let mut out = Vec::new(alloc);
    print_value(alloc, value, &mut out)?;
    Ok(out)
}

/// The printed value of a literal, or `refused`.
fn answer(alloc: Global, kind: Kind, literal: &[u8]) -> Result<Vec<u8>, NoMemory> {
    let port = type_of(alloc, kind)?;
    if !is_port(&port) {
        return Ok(b"no port".to_vec(alloc)?);
    }
    match read_value(alloc, literal, &port) {
        Ok(value) => printed(alloc, &value),
        Err(Halt::Because(_)) => Ok(b"refused".to_vec(alloc)?),
        Err(Halt::NoMemory) => Err(NoMemory),
    }
}

/// The literal of the first row with another answer.
fn first_wrong(
    alloc: Global,
    rows: &[(Kind, &'static str, &'static str)],
) -> Result<&'static str, NoMemory> {
    for (kind, literal, wanted) in rows {
        let found = answer(alloc, *kind, literal.as_bytes())?;
        if found.as_slice() != wanted.as_bytes() {
            return Ok(*literal);
        }
    }
    Ok("none is wrong")
}

const LEAVES: &[(Kind, &str, &str)] = &[
    (Kind::Unit, "()", "()"),
    (Kind::Unit, "(  )", "()"),
    (Kind::Unit, "(())", "()"),
    (Kind::Unit, "( () )", "()"),
    (Kind::Unit, "", "refused"),
    (Kind::Unit, "(()", "refused"),
    (Kind::Unit, "()()", "refused"),
    (Kind::Unit, " ()", "refused"),
    (Kind::Unit, "() ", "refused"),
    (Kind::Unit, "[]", "refused"),
    (Kind::Int, "5", "5"),
    (Kind::Int, "007", "7"),
    (Kind::Int, "-0", "0"),
    (Kind::Int, "(5)", "5"),
    (Kind::Int, "((  -5 ))", "-5"),
    (Kind::Int, "9223372036854775807", "9223372036854775807"),
    (Kind::Int, "9223372036854775808", "refused"),
    (Kind::Int, "-9223372036854775808", "-9223372036854775808"),
    (Kind::Int, "-9223372036854775809", "refused"),
    (Kind::Int, "- 5", "refused"),
    (Kind::Int, "-(5)", "refused"),
    (Kind::Int, "+5", "refused"),
    (Kind::Int, "5 ", "refused"),
    (Kind::Int, "(5", "refused"),
    (Kind::Int, "5)", "refused"),
    (Kind::Int, "(5))", "refused"),
    (Kind::Int, "5,6", "refused"),
    (Kind::Int, "x", "refused"),
    (Kind::Int, "True", "refused"),
    (Kind::Bool, "True", "True"),
    (Kind::Bool, "(False)", "False"),
    (Kind::Bool, "true", "refused"),
    (Kind::Bool, "True1", "refused"),
    (Kind::Text, "\"a\"", "\"a\""),
    (Kind::Text, "(\"a\")", "\"a\""),
    (Kind::Text, "\"\\'\"", "\"'\""),
    (Kind::Text, "\"\\\\\\\"\\n\\t\\r\"", "\"\\\\\\\"\\n\\t\\r\""),
    (Kind::Text, "\"a,b](\"", "\"a,b](\""),
    (Kind::Text, "\"a", "refused"),
    (Kind::Text, "\"\\x\"", "refused"),
    (Kind::Text, "\"a\\\"", "refused"),
    (Kind::Text, "\"\n\"", "refused"),
    (Kind::Text, "'a'", "refused"),
];

const WITH_PARTS: &[(Kind, &str, &str)] = &[
    (Kind::MaybeInt, "Nothing", "Nothing"),
    (Kind::MaybeInt, "Just 5", "Just 5"),
    (Kind::MaybeInt, "Just   5", "Just 5"),
    (Kind::MaybeInt, "Just5", "refused"),
    (Kind::MaybeInt, "Just(5)", "Just 5"),
    (Kind::MaybeInt, "Just-5", "Just -5"),
    (Kind::MaybeInt, "(Just ( 5 ))", "Just 5"),
    (Kind::MaybeInt, "Just", "refused"),
    (Kind::MaybeInt, "Just ()", "refused"),
    (Kind::MaybeInt, "Just 5 5", "refused"),
    (Kind::MaybeInt, "Just Just 5", "refused"),
    (Kind::MaybeInt, "Nothing1", "refused"),
    (Kind::MaybeInt, "5", "refused"),
    (Kind::MaybeMaybe, "Just Just 5", "Just (Just 5)"),
    (Kind::MaybeMaybe, "Just (Nothing)", "Just Nothing"),
    (Kind::MaybeText, "Just\"a\"", "Just \"a\""),
    (Kind::MaybeInts, "Just [1,2]", "Just [1,2]"),
    (Kind::MaybeInts, "Just[1]", "Just [1]"),
    (Kind::Ints, "[]", "[]"),
    (Kind::Ints, "[ ]", "[]"),
    (Kind::Ints, "[1,2]", "[1,2]"),
    (Kind::Ints, "[ 1 ,  (2) ]", "[1,2]"),
    (Kind::Ints, "([1])", "[1]"),
    (Kind::Ints, "[1,]", "refused"),
    (Kind::Ints, "[,1]", "refused"),
    (Kind::Ints, "[,]", "refused"),
    (Kind::Ints, "[1,,2]", "refused"),
    (Kind::Ints, "[1 2]", "refused"),
    (Kind::Ints, "[1", "refused"),
    (Kind::Ints, "1]", "refused"),
    (Kind::Ints, "[1]]", "refused"),
    (Kind::Ints, "[[1]]", "refused"),
    (Kind::Ints, "(1,2)", "refused"),
    (Kind::Pair, "(1,2)", "(1,2)"),
    (Kind::Pair, "( 1 , 2 )", "(1,2)"),
    (Kind::Pair, "(( 1,2) )", "(1,2)"),
    (Kind::Pair, "((1),(2))", "(1,2)"),
    (Kind::Pair, "(1,2,3)", "refused"),
    (Kind::Pair, "(1)", "refused"),
    (Kind::Pair, "()", "refused"),
    (Kind::Pair, "(1,)", "refused"),
    (Kind::Pair, "(1,x)", "refused"),
    (Kind::Pair, "1,2", "refused"),
    (Kind::Pair, "[1,2]", "refused"),
    (Kind::PairAndInt, "((1,2),3)", "((1,2),3)"),
    (Kind::PairAndInt, "(((1,2)),3)", "((1,2),3)"),
    (Kind::PairAndInt, "(((1,2),3))", "((1,2),3)"),
    (Kind::PairAndInt, "(1,(2,3))", "refused"),
];

const RECORDS: &[(Kind, &str, &str)] = &[
    (Kind::Point, "{ y = 2, x = 1 }", "{ x = 1, y = 2 }"),
    (Kind::Point, "{x=1,y=2}", "{ x = 1, y = 2 }"),
    (Kind::Point, "({ x = (1) , y= 2})", "{ x = 1, y = 2 }"),
    (Kind::Point, "{ x = 1, y = 2, }", "refused"),
    (Kind::Point, "{ x = 1 y = 2 }", "refused"),
    (Kind::Point, "{ x = 1 }", "refused"),
    (Kind::Point, "{ x = 1, x = 2 }", "refused"),
    (Kind::Point, "{ x = 1, x = 1, y = 2 }", "refused"),
    (Kind::Point, "{ x = 1, z = 2 }", "refused"),
    (Kind::Point, "{ x = 1, y = 2, z = 3 }", "refused"),
    (Kind::Point, "{ x1 = 1, y = 2 }", "refused"),
    (Kind::Point, "{ x 1, y = 2 }", "refused"),
    (Kind::Point, "{ x == 1, y = 2 }", "refused"),
    (Kind::Point, "{ x : 1, y = 2 }", "refused"),
    (Kind::Point, "{ X = 1, y = 2 }", "refused"),
    (Kind::Point, "{}", "refused"),
    (Kind::Point, "{ , }", "refused"),
    (Kind::Empty, "{}", "{}"),
    (Kind::Empty, "{  }", "{}"),
    (Kind::Empty, "({})", "{}"),
    (Kind::Empty, "{ x = 1 }", "refused"),
    (Kind::Empty, "()", "refused"),
];

#[test]
fn literals_without_parts_are_read(rt: HostRuntime) -> Result<(), NoMemory> {
    let wrong = first_wrong(rt.alloc(), LEAVES)?;
    assert_eq!(rt; wrong, "none is wrong");
    Ok(())
}

#[test]
fn literals_with_parts_are_read(rt: HostRuntime) -> Result<(), NoMemory> {
    let wrong = first_wrong(rt.alloc(), WITH_PARTS)?;
    assert_eq!(rt; wrong, "none is wrong");
    Ok(())
}

#[test]
fn fields_are_read_in_any_order(rt: HostRuntime) -> Result<(), NoMemory> {
    let wrong = first_wrong(rt.alloc(), RECORDS)?;
    assert_eq!(rt; wrong, "none is wrong");
    Ok(())
}

/// A literal in so many brackets.
fn in_brackets(alloc: Global, count: usize, literal: &[u8]) -> Result<Vec<u8>, NoMemory> {
    let mut out = Vec::new(alloc);
    for _ in 0..count {
        out.push(b'(')?;
    }
    out.extend_from_slice(literal)?;
    for _ in 0..count {
        out.push(b')')?;
    }
    Ok(out)
}

fn bracketed(alloc: Global, count: usize, literal: &[u8]) -> Result<Vec<u8>, NoMemory> {
    answer(
        alloc,
        Kind::Ints,
        in_brackets(alloc, count, literal)?.as_slice(),
    )
}

#[test]
fn at_most_64_brackets_are_open(rt: HostRuntime) -> Result<(), NoMemory> {
    let most = bracketed(rt.alloc(), 63, b"[5]")?;
    let one_more = bracketed(rt.alloc(), 64, b"[5]")?;
    assert_eq!(rt; most.as_slice(), b"[5]".as_slice());
    assert_eq!(rt; one_more.as_slice(), b"refused".as_slice());
    Ok(())
}
