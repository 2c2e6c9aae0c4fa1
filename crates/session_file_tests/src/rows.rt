//! Texts read as sessions, beside near misses.
use crate::more_rows::MORE_ROWS;
use crate::rewriting::{is_same_again, outcome};
use elm_base::NoMemory;
use std::alloc::Global;
use std::test::Fail;

/// What a text is.
#[derive(Clone, Copy, Debug, PartialEq, Eq)]
pub enum Seen {
    /// A session: its cursor, and how many events it has.
    Session(u32, usize),
    Bad,
}

const ROWS: [(&str, Seen); 38] = [
    (
        "{\"cursor\":3,\"events\":[[0,\"()\"],[0,\"()\"],[0,\"()\"]],\"format\":\"reactor-session\",\"inputs\":[[\"Mouse.clicks\",\"()\"]],\"version\":1}",
        Seen::Session(3, 3),
    ),
    (
        "{\"cursor\":0,\"events\":[],\"format\":\"reactor-session\",\"inputs\":[],\"version\":1}",
        Seen::Session(0, 0),
    ),
    (
        "{\"cursor\":1,\"events\":[],\"format\":\"reactor-session\",\"inputs\":[],\"version\":1}",
        Seen::Bad,
    ),
    (
        "{\"cursor\":3,\"events\":[[0,\"()\"],[0,\"()\"]],\"format\":\"reactor-session\",\"inputs\":[[\"Mouse.clicks\",\"()\"]],\"version\":1}",
        Seen::Bad,
    ),
    (
        "{\"cursor\":0,\"events\":[[0,\"()\"],[0,\"()\"]],\"format\":\"reactor-session\",\"inputs\":[[\"Mouse.clicks\",\"()\"]],\"version\":1}",
        Seen::Session(0, 2),
    ),
    (
        "{\"cursor\":1,\"events\":[[0,\"5\"]],\"format\":\"reactor-session\",\"inputs\":[[\"p\",\"Int\"]],\"version\":1}",
        Seen::Session(1, 1),
    ),
    (
        "{\"cursor\":1,\"events\":[[0,\"-9223372036854775808\"]],\"format\":\"reactor-session\",\"inputs\":[[\"p\",\"Int\"]],\"version\":1}",
        Seen::Session(1, 1),
    ),
    (
        "{\"cursor\":1,\"events\":[[0,\"9223372036854775808\"]],\"format\":\"reactor-session\",\"inputs\":[[\"p\",\"Int\"]],\"version\":1}",
        Seen::Bad,
    ),
    (
        "{\"cursor\":1,\"events\":[[0,\"five\"]],\"format\":\"reactor-session\",\"inputs\":[[\"p\",\"Int\"]],\"version\":1}",
        Seen::Bad,
    ),
    (
        "{\"cursor\":1,\"events\":[[0,\" 5 \"]],\"format\":\"reactor-session\",\"inputs\":[[\"p\",\"Int\"]],\"version\":1}",
        Seen::Bad,
    ),
    (
        "{\"cursor\":1,\"events\":[[0,5]],\"format\":\"reactor-session\",\"inputs\":[[\"p\",\"Int\"]],\"version\":1}",
        Seen::Bad,
    ),
    (
        "{\"cursor\":2,\"events\":[[0,\"5\"],[1,\"\\\"a\\\"\"]],\"format\":\"reactor-session\",\"inputs\":[[\"p\",\"Int\"],[\"q\",\"String\"]],\"version\":1}",
        Seen::Session(2, 2),
    ),
    (
        "{\"cursor\":2,\"events\":[[1,\"\\\"a\\\"\"],[0,\"5\"]],\"format\":\"reactor-session\",\"inputs\":[[\"p\",\"Int\"],[\"q\",\"String\"]],\"version\":1}",
        Seen::Bad,
    ),
    (
        "{\"cursor\":1,\"events\":[[0,\"5\"]],\"format\":\"reactor-session\",\"inputs\":[[\"p\",\"Int\"],[\"q\",\"String\"]],\"version\":1}",
        Seen::Bad,
    ),
    (
        "{\"cursor\":2,\"events\":[[0,\"5\"],[2,\"6\"]],\"format\":\"reactor-session\",\"inputs\":[[\"p\",\"Int\"],[\"q\",\"String\"]],\"version\":1}",
        Seen::Bad,
    ),
    (
        "{\"cursor\":2,\"events\":[[0,\"5\"],[1,\"6\"]],\"format\":\"reactor-session\",\"inputs\":[[\"p\",\"Int\"],[\"p\",\"Int\"]],\"version\":1}",
        Seen::Bad,
    ),
    (
        "{\"cursor\":2,\"events\":[[0,\"5\"],[1,\"6\"]],\"format\":\"reactor-session\",\"inputs\":[[\"p\",\"Int\"],[\"q\",\"Int\"]],\"version\":1}",
        Seen::Session(2, 2),
    ),
    (
        "{\"cursor\":1,\"events\":[[7]],\"format\":\"reactor-session\",\"inputs\":[],\"version\":1}",
        Seen::Session(1, 1),
    ),
    (
        "{\"cursor\":1,\"events\":[[999999999]],\"format\":\"reactor-session\",\"inputs\":[],\"version\":1}",
        Seen::Session(1, 1),
    ),
    (
        "{\"cursor\":1,\"events\":[[1000000000]],\"format\":\"reactor-session\",\"inputs\":[],\"version\":1}",
        Seen::Bad,
    ),
    (
        "{\"cursor\":1,\"events\":[[]],\"format\":\"reactor-session\",\"inputs\":[],\"version\":1}",
        Seen::Bad,
    ),
    (
        "{\"cursor\":1,\"events\":[[0,\"5\",\"6\"]],\"format\":\"reactor-session\",\"inputs\":[[\"p\",\"Int\"]],\"version\":1}",
        Seen::Bad,
    ),
    (
        "{\"cursor\":1,\"events\":[[0,\"5\"]],\"format\":\"reactor-session\",\"inputs\":[[\"p\",\"int\"]],\"version\":1}",
        Seen::Bad,
    ),
    (
        "{\"cursor\":1,\"events\":[[0,\"5\"]],\"format\":\"reactor-session\",\"inputs\":[[\"p\",\"List  Int\"]],\"version\":1}",
        Seen::Bad,
    ),
    (
        "{\"cursor\":1,\"events\":[[0,\"[ 5 , 6 ]\"]],\"format\":\"reactor-session\",\"inputs\":[[\"p\",\"List Int\"]],\"version\":1}",
        Seen::Session(1, 1),
    ),
    (
        "{\"cursor\":1,\"events\":[[0,\"[5,\\\"a\\\"]\"]],\"format\":\"reactor-session\",\"inputs\":[[\"p\",\"List Int\"]],\"version\":1}",
        Seen::Bad,
    ),
    (
        "{\"cursor\":1,\"events\":[[0,\"5\"]],\"format\":\"reactor-session\",\"inputs\":[[\"\",\"Int\"]],\"version\":1}",
        Seen::Bad,
    ),
    (
        "{\"cursor\":1,\"events\":[[0,\"5\"]],\"format\":\"reactor-session\",\"inputs\":[[\"p q\",\"Int\"]],\"version\":1}",
        Seen::Bad,
    ),
    (
        "{\"cursor\":0,\"events\":[],\"format\":\"reactor-session\",\"inputs\":[],\"version\":2}",
        Seen::Bad,
    ),
    (
        "{\"cursor\":0,\"events\":[],\"format\":\"session\",\"inputs\":[],\"version\":1}",
        Seen::Bad,
    ),
    (
        "{\"cursor\":-0,\"events\":[],\"format\":\"reactor-session\",\"inputs\":[],\"version\":1}",
        Seen::Bad,
    ),
    (
        "{\"cursor\":0.0,\"events\":[],\"format\":\"reactor-session\",\"inputs\":[],\"version\":1}",
        Seen::Bad,
    ),
    ("", Seen::Bad),
    ("null", Seen::Bad),
    ("{}", Seen::Bad),
    (
        "{\"cursor\":0,\"events\":[],\"format\":\"reactor-session\",\"inputs\":[],\"version\":1,\"more\":0}",
        Seen::Bad,
    ),
    (
        "{\"events\":[],\"format\":\"reactor-session\",\"inputs\":[],\"version\":1}",
        Seen::Bad,
    ),
    (
        " {\"version\":1,\"inputs\":[],\"format\":\"reactor-session\",\"events\":[],\"cursor\":0} ",
        Seen::Session(0, 0),
    ),
];

/// The first text that is something else than wanted.
fn first_wrong(alloc: Global, rows: &[(&'static str, Seen)]) -> Result<&'static str, NoMemory> {
    for (text, wanted) in rows {
        if outcome(alloc, text.as_bytes())? != *wanted {
            return Ok(*text);
        }
    }
    Ok("none is wrong")
}

#[test]
fn texts_are_sessions_or_none(rt: HostRuntime) -> Result<(), Fail> {
    assert_eq!(rt; first_wrong(rt.alloc(), &ROWS)?, "none is wrong");
    assert_eq!(rt; first_wrong(rt.alloc(), &MORE_ROWS)?, "none is wrong");
    Ok(())
}

/// The first text that is a session, and isn't the same session when it is written and read.
fn first_changed(alloc: Global, rows: &[(&'static str, Seen)]) -> Result<&'static str, NoMemory> {
    for (text, wanted) in rows {
        if *wanted != Seen::Bad && !is_same_again(alloc, text.as_bytes())? {
            return Ok(*text);
        }
    }
    Ok("none is changed")
}

#[test]
fn sessions_are_written_and_read_again(rt: HostRuntime) -> Result<(), Fail> {
    assert_eq!(rt; first_changed(rt.alloc(), &ROWS)?, "none is changed");
    assert_eq!(rt; first_changed(rt.alloc(), &MORE_ROWS)?, "none is changed");
    Ok(())
}
