//! Texts read as forms of a session, beside near misses.
use elm_base::NoMemory;
use serde_json::Value;
use session_form::{delivery_of, input_of, named_of, place_of, sheet_of};
use std::alloc::Global;

/// What a text is.
#[derive(Clone, Copy, Debug, PartialEq, Eq)]
enum Seen {
    /// No JSON.
    Bad,
    /// JSON of another form.
    Other,
    /// A sheet: its cursor, and how many events and inputs it has.
    Sheet(u64, usize, usize),
    /// `[K]`
    Delivery(u64),
    /// `[I, TEXT]`: the place, and how many bytes the text has.
    Input(u64, usize),
    /// `[NAME, TYPE]`: how many bytes each has.
    Named(usize, usize),
}

fn form_in(value: &Value) -> Seen {
    if let Some(sheet) = sheet_of(value) {
        return Seen::Sheet(sheet.cursor, sheet.events.len(), sheet.inputs.len());
    }
    if let Some(number) = delivery_of(value) {
        return Seen::Delivery(number);
    }
    if let Some((_, text)) = input_of(value) {
        return Seen::Input(place_of(value).unwrap_or(u64::MAX), text.len());
    }
    match named_of(value) {
        Some((name, port)) => Seen::Named(name.len(), port.len()),
        None => Seen::Other,
    }
}

fn form_of(alloc: Global, text: &str) -> Seen {
    match Value::from_str(alloc, text) {
        Ok(value) => form_in(&value),
        Err(_) => Seen::Bad,
    }
}

/// The first text that is something else than wanted.
fn first_wrong(alloc: Global, rows: &[(&'static str, Seen)]) -> &'static str {
    for (text, wanted) in rows {
        if form_of(alloc, text) != *wanted {
            return *text;
        }
    }
    "none is wrong"
}

/// The file of three clicks.
const CLICKS: &str =
    "{\"cursor\":3,\"events\":[[0,\"()\"],[0,\"()\"],[0,\"()\"]],\"format\":\"reactor-session\",\"inputs\":[[\"Mouse.clicks\",\"()\"]],\"version\":1}";

const ROWS: &[(&str, Seen)] = &[
    (CLICKS, Seen::Sheet(3, 3, 1)),
    (
        "{\"cursor\":0,\"events\":[],\"format\":\"reactor-session\",\"inputs\":[],\"version\":1}",
        Seen::Sheet(0, 0, 0),
    ),
    (
        " { \"cursor\" : 0 , \"events\" : [ ] ,\n\"format\":\"reactor-session\",\t\"inputs\":[],\"version\":1 } ",
        Seen::Sheet(0, 0, 0),
    ),
    (
        "{\"version\":1,\"inputs\":[],\"format\":\"reactor-session\",\"events\":[],\"cursor\":5}",
        Seen::Sheet(5, 0, 0),
    ),
    (
        "{\"cursor\":7,\"events\":[],\"format\":\"reactor-session\",\"inputs\":[],\"version\":1,\"cursor\":0}",
        Seen::Sheet(0, 0, 0),
    ),
    (
        "{\"cursor\":1e999,\"events\":[],\"format\":\"reactor-session\",\"inputs\":[],\"version\":1,\"cursor\":0}",
        Seen::Bad,
    ),
    (
        "{\"cursor\":0,\"events\":[1,2],\"format\":\"reactor-session\",\"inputs\":[3],\"version\":1}",
        Seen::Sheet(0, 2, 1),
    ),
    (
        "{\"c\\u0075rsor\":0,\"events\":[],\"format\":\"reactor\\u002dsession\",\"inputs\":[],\"version\":1}",
        Seen::Sheet(0, 0, 0),
    ),
    (
        "{\"cursor\":18446744073709551615,\"events\":[],\"format\":\"reactor-session\",\"inputs\":[],\"version\":1}",
        Seen::Sheet(18446744073709551615, 0, 0),
    ),
    (
        "{\"cursor\":18446744073709551616,\"events\":[],\"format\":\"reactor-session\",\"inputs\":[],\"version\":1}",
        Seen::Other,
    ),
    (
        "{\"cursor\":-0,\"events\":[],\"format\":\"reactor-session\",\"inputs\":[],\"version\":1}",
        Seen::Other,
    ),
    (
        "{\"cursor\":3.0,\"events\":[],\"format\":\"reactor-session\",\"inputs\":[],\"version\":1}",
        Seen::Other,
    ),
    (
        "{\"cursor\":1e0,\"events\":[],\"format\":\"reactor-session\",\"inputs\":[],\"version\":1}",
        Seen::Other,
    ),
    (
        "{\"cursor\":\"0\",\"events\":[],\"format\":\"reactor-session\",\"inputs\":[],\"version\":1}",
        Seen::Other,
    ),
    (
        "{\"cursor\":null,\"events\":[],\"format\":\"reactor-session\",\"inputs\":[],\"version\":1}",
        Seen::Other,
    ),
    (
        "{\"cursor\":00,\"events\":[],\"format\":\"reactor-session\",\"inputs\":[],\"version\":1}",
        Seen::Bad,
    ),
    (
        "{\"cursor\":0,\"events\":{},\"format\":\"reactor-session\",\"inputs\":[],\"version\":1}",
        Seen::Other,
    ),
    (
        "{\"cursor\":0,\"events\":[],\"format\":\"session\",\"inputs\":[],\"version\":1}",
        Seen::Other,
    ),
    (
        "{\"cursor\":0,\"events\":[],\"format\":1,\"inputs\":[],\"version\":1}",
        Seen::Other,
    ),
    (
        "{\"cursor\":0,\"events\":[],\"format\":\"reactor-session\",\"inputs\":\"\",\"version\":1}",
        Seen::Other,
    ),
    (
        "{\"cursor\":0,\"events\":[],\"format\":\"reactor-session\",\"inputs\":[],\"version\":2}",
        Seen::Other,
    ),
    (
        "{\"cursor\":0,\"events\":[],\"format\":\"reactor-session\",\"inputs\":[],\"version\":1.0}",
        Seen::Other,
    ),
    (
        "{\"cursor\":0,\"events\":[],\"format\":\"reactor-session\",\"inputs\":[],\"version\":true}",
        Seen::Other,
    ),
    (
        "{\"events\":[],\"format\":\"reactor-session\",\"inputs\":[],\"version\":1}",
        Seen::Other,
    ),
    (
        "{\"cursor\":0,\"format\":\"reactor-session\",\"inputs\":[],\"version\":1}",
        Seen::Other,
    ),
    (
        "{\"cursor\":0,\"events\":[],\"inputs\":[],\"version\":1}",
        Seen::Other,
    ),
    (
        "{\"cursor\":0,\"events\":[],\"format\":\"reactor-session\",\"version\":1}",
        Seen::Other,
    ),
    (
        "{\"cursor\":0,\"events\":[],\"format\":\"reactor-session\",\"inputs\":[]}",
        Seen::Other,
    ),
    (
        "{\"a\":0,\"cursor\":0,\"events\":[],\"format\":\"reactor-session\",\"inputs\":[],\"version\":1}",
        Seen::Other,
    ),
    (
        "{\"cursor\":0,\"events\":[],\"format\":\"reactor-session\",\"fuel\":1,\"inputs\":[],\"version\":1}",
        Seen::Other,
    ),
    (
        "{\"cursor\":0,\"events\":[],\"format\":\"reactor-session\",\"inputs\":[],\"version\":1,\"z\":0}",
        Seen::Other,
    ),
    (
        "{\"Cursor\":0,\"events\":[],\"format\":\"reactor-session\",\"inputs\":[],\"version\":1}",
        Seen::Other,
    ),
    ("{}", Seen::Other),
    ("[]", Seen::Other),
    ("", Seen::Bad),
    ("null", Seen::Other),
    ("[0]", Seen::Delivery(0)),
    ("[ 1000000000 ]", Seen::Delivery(1000000000)),
    ("[-1]", Seen::Other),
    ("[0.0]", Seen::Other),
    ("[0,]", Seen::Bad),
    ("[[0]]", Seen::Other),
    ("[0,1]", Seen::Other),
    ("[0,\"5\"]", Seen::Input(0, 1)),
    ("[300,\"\\\"\\\\\"]", Seen::Input(300, 2)),
    ("[0,\"\\ud83d\\ude00\"]", Seen::Input(0, 4)),
    ("[0,\"\\ud83d\"]", Seen::Bad),
    ("[0,\"\",\"\"]", Seen::Other),
    ("[-0,\"5\"]", Seen::Other),
    ("[\"0\",\"5\"]", Seen::Named(1, 1)),
    ("[\"Mouse.clicks\",\"()\"]", Seen::Named(12, 2)),
    ("[\"p\"]", Seen::Other),
    ("[\"p\",5]", Seen::Other),
    ("[\"p\",\"Int\",1]", Seen::Other),
    ("\"p\"", Seen::Other),
    ("5", Seen::Other),
];

#[test]
fn texts_are_as_in_the_rows(rt: HostRuntime) -> Result<(), NoMemory> {
    assert_eq!(rt; first_wrong(rt.alloc(), ROWS), "none is wrong");
    Ok(())
}

/// How long the first proper front of a file is that is no broken JSON, or else the whole file.
fn first_whole_front(alloc: Global, text: &str) -> usize {
    for (at, _) in text.char_indices() {
        if form_of(alloc, &text[..at]) != Seen::Bad {
            return at;
        }
    }
    text.len()
}

#[test]
fn no_front_of_a_file_is_one(rt: HostRuntime) -> Result<(), NoMemory> {
    assert_eq!(rt; first_whole_front(rt.alloc(), CLICKS), 122);
    Ok(())
}

/// What so many lists in one another are.
fn nested(alloc: Global, count: usize) -> Result<Seen, NoMemory> {
    let mut text = String::new(alloc);
    for _ in 0..count {
        text.push('[')?;
    }
    for _ in 0..count {
        text.push(']')?;
    }
    Ok(form_of(alloc, &text))
}

#[test]
fn lists_nest_127_deep(rt: HostRuntime) -> Result<(), NoMemory> {
    assert_eq!(rt; nested(rt.alloc(), 127)?, Seen::Other);
    assert_eq!(rt; nested(rt.alloc(), 128)?, Seen::Bad);
    Ok(())
}
