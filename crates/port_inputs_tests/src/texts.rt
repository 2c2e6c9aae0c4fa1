//! Texts of types that are read and printed again, beside their near misses.
use elm_base::{Halt, NoMemory};
use port_texts::{is_given_port, print_type, read_type};
use std::alloc::Global;

/// What the type of a text is printed as, or `refused`.
fn answer(alloc: Global, text: &[u8]) -> Result<Vec<u8>, NoMemory> {
    let port = match read_type(alloc, text) {
        Ok(port) => port,
        Err(Halt::Because(_)) => return Ok(b"refused".to_vec(alloc)?),
        Err(Halt::NoMemory) => return Err(NoMemory),
    };
    let mut out = Vec::new(alloc);
    if is_given_port(&port) {
        print_type(alloc, &port, &mut out)?;
    }
    Ok(out)
}

/// Whether a text is that of a type. `None` where the type found is printed otherwise.
fn is_type(alloc: Global, text: &[u8]) -> Result<Option<bool>, NoMemory> {
    let printed = answer(alloc, text)?;
    if printed.as_slice() == text {
        Ok(Some(true))
    } else if printed.as_slice() == b"refused".as_slice() {
        Ok(Some(false))
    } else {
        Ok(None)
    }
}

/// The first of the texts for which this isn't the answer.
fn first_wrong(
    alloc: Global,
    texts: &[&'static str],
    wanted: bool,
) -> Result<&'static str, NoMemory> {
    for text in texts {
        if is_type(alloc, text.as_bytes())? != Some(wanted) {
            return Ok(*text);
        }
    }
    Ok("none is wrong")
}

const TYPES: &[&str] = &[
    "()",
    "Int",
    "Bool",
    "String",
    "Maybe Int",
    "Maybe ()",
    "Maybe {}",
    "Maybe (Maybe Int)",
    "Maybe (List Int)",
    "Maybe (Int,Bool)",
    "Maybe { x : Int }",
    "List String",
    "List (Maybe Int)",
    "List (List (List ()))",
    "List (Int,Int)",
    "(Int,Int)",
    "((),{})",
    "((Int,Bool),String)",
    "(Int,(Bool,String))",
    "(Maybe Int,List Int)",
    "(Int,Int,Int)",
    "(Int,Int,Int,Int,Int,Int,Int,Int,Int)",
    "{}",
    "{ x : Int }",
    "{ x : Int, y : Bool }",
    "{ x : Int, x1 : Int }",
    "{ aB : Int, ab : Int }",
    "{ x' : Int, xA : Int, x_1 : Int }",
    "{ ofx : Int }",
    "{ at : (Int,Int), seen : List (Maybe Bool), within : { x : {} } }",
];

const NO_TYPES: &[&str] = &[
    "",
    " ",
    " Int",
    "Int ",
    "Int\n",
    "int",
    "Int1",
    "IntInt",
    "Int Int",
    "Int,Int",
    "Main.Int",
    "Char",
    "Float",
    "Element",
    "Text",
    "Signal Int",
    "Int -> Int",
    "a",
    "Maybe",
    "Maybe ",
    "MaybeInt",
    "Maybe  Int",
    "Maybe(Int)",
    "Maybe (Int)",
    "Maybe Maybe Int",
    "Maybe List Int",
    "Maybe ((Maybe Int))",
    "List",
    "List List Int",
    "List Int Int",
    "[Int]",
    "(Int)",
    "(())",
    "((Int,Int))",
    "( )",
    "(Int, Int)",
    "( Int,Int)",
    "(Int ,Int)",
    "(Int,Int )",
    "(Int,)",
    "(,Int)",
    "(,)",
    "(Int,Int",
    "(Int,Int))",
    "()()",
    "(Int,Int,Int,Int,Int,Int,Int,Int,Int,Int)",
    "{ }",
    "{",
    "{x : Int}",
    "{ x: Int }",
    "{ x :Int }",
    "{ x  : Int }",
    "{ x = Int }",
    "{ x : Int",
    "{ x : Int, }",
    "{ x : Int,y : Int }",
    "{ x : Int , y : Int }",
    "{ x : Int,  y : Int }",
    "{ y : Int, x : Int }",
    "{ x1 : Int, x : Int }",
    "{ ab : Int, aB : Int }",
    "{ x : Int, x : Int }",
    "{ x : Int, x : Bool }",
    "{ x : Int, y : Int, x : Int }",
    "{ x | y : Int }",
    "{ x y : Int }",
    "{  : Int }",
    "{ X : Int }",
    "{ _x : Int }",
    "{ 1x : Int }",
    "{ x-y : Int }",
    "{ \u{e9} : Int }",
    "{ of : Int }",
    "{ x : Int, where : Int }",
    "{ x : Float }",
];

#[test]
fn types_are_read(rt: HostRuntime) -> Result<(), NoMemory> {
    let wrong = first_wrong(rt.alloc(), TYPES, true)?;
    assert_eq!(rt; wrong, "none is wrong");
    Ok(())
}

#[test]
fn near_misses_are_refused(rt: HostRuntime) -> Result<(), NoMemory> {
    let wrong = first_wrong(rt.alloc(), NO_TYPES, false)?;
    assert_eq!(rt; wrong, "none is wrong");
    Ok(())
}

/// A text with something repeated on both sides of its middle.
struct Repeated {
    start: &'static str,
    front: &'static str,
    middle: &'static str,
    back: &'static str,
    /// So often it may be repeated.
    most: usize,
}

const REPEATED: &[Repeated] = &[
    Repeated {
        start: "",
        front: "(",
        middle: "Int",
        back: ",Int)",
        most: 32,
    },
    Repeated {
        start: "",
        front: "{ x : ",
        middle: "{}",
        back: " }",
        most: 32,
    },
    Repeated {
        start: "",
        front: "List (",
        middle: "List ()",
        back: ")",
        most: 31,
    },
    Repeated {
        start: "",
        front: "Maybe (",
        middle: "Maybe Int",
        back: ")",
        most: 31,
    },
    Repeated {
        start: "{ ",
        front: "x",
        middle: " : Int }",
        back: "",
        most: 255,
    },
];

fn push_often(out: &mut Vec<u8>, count: usize, piece: &str) -> Result<(), NoMemory> {
    for _ in 0..count {
        out.extend_from_slice(piece.as_bytes())?;
    }
    Ok(())
}

fn text_of(alloc: Global, row: &Repeated, count: usize) -> Result<Vec<u8>, NoMemory> {
    let mut out = row.start.as_bytes().to_vec(alloc)?;
    push_often(&mut out, count, row.front)?;
    out.extend_from_slice(row.middle.as_bytes())?;
    push_often(&mut out, count, row.back)?;
    Ok(out)
}

fn is_type_repeated(alloc: Global, row: &Repeated, count: usize) -> Result<Option<bool>, NoMemory> {
    is_type(alloc, text_of(alloc, row, count)?.as_slice())
}

/// What is repeated in the first row that allows more or less.
fn first_wrong_bound(alloc: Global, rows: &[Repeated]) -> Result<&'static str, NoMemory> {
    for row in rows {
        let most = is_type_repeated(alloc, row, row.most)?;
        let more = is_type_repeated(alloc, row, row.most.saturating_add(1))?;
        if (most, more) != (Some(true), Some(false)) {
            return Ok(row.front);
        }
    }
    Ok("none is wrong")
}

#[test]
fn types_nest_32_deep_and_labels_have_255_bytes(rt: HostRuntime) -> Result<(), NoMemory> {
    let wrong = first_wrong_bound(rt.alloc(), REPEATED)?;
    assert_eq!(rt; wrong, "none is wrong");
    Ok(())
}

// A record of 23 fields with labels of 170 bytes, which takes 4,093 bytes beside its last type.
fn wide(alloc: Global, last: &str) -> Result<Vec<u8>, NoMemory> {
    let mut out = b"{ ".to_vec(alloc)?;
    for letter in b'a'..b'w' {
        push_label(&mut out, letter)?;
        out.extend_from_slice(b" : Int, ")?;
    }
    push_label(&mut out, b'w')?;
    out.extend_from_slice(b" : ")?;
    out.extend_from_slice(last.as_bytes())?;
    out.extend_from_slice(b" }")?;
    Ok(out)
}

fn push_label(out: &mut Vec<u8>, letter: u8) -> Result<(), NoMemory> {
    for _ in 0..170 {
        out.push(letter)?;
    }
    Ok(())
}

/// The length of the text with this last type, and whether it is a type.
fn is_type_wide(alloc: Global, last: &str) -> Result<(usize, Option<bool>), NoMemory> {
    let text = wide(alloc, last)?;
    let found = is_type(alloc, text.as_slice())?;
    Ok((text.len(), found))
}

#[test]
fn a_text_has_4096_bytes(rt: HostRuntime) -> Result<(), NoMemory> {
    let most = is_type_wide(rt.alloc(), "Int")?;
    let more = is_type_wide(rt.alloc(), "Bool")?;
    assert_eq!(rt; (most, more), ((4096, Some(true)), (4097, Some(false))));
    Ok(())
}
