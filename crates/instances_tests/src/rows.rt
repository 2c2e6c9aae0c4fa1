//! Pairs of written types, and what becomes of them.
use crate::meeting::{Meeting, meet_written};
use std::process::Abort;
use std::test::Fail;

const ROWS: [(&str, Meeting); 24] = [
    (
        "port f : a -> a\nport g : Basics.Int -> Basics.Int",
        Meeting::Common,
    ),
    (
        "port f : a -> a\nport g : Basics.Int -> Basics.String",
        Meeting::None,
    ),
    (
        "port f : a -> b\nport g : Basics.Int -> Basics.String",
        Meeting::Common,
    ),
    ("port f : a\nport g : a -> a", Meeting::Common),
    (
        "port f : a -> a\nport g : b -> Basics.List b",
        Meeting::None,
    ),
    ("port f : number\nport g : Basics.Int", Meeting::Common),
    ("port f : number\nport g : Basics.String", Meeting::None),
    ("port f : number2\nport g : comparable", Meeting::Common),
    (
        "port f : comparable\nport g : Basics.Int -> Basics.Int",
        Meeting::None,
    ),
    (
        "port f : comparable\nport g : (Basics.Int, Basics.List Basics.Char)",
        Meeting::Common,
    ),
    ("port f : appendable\nport g : Basics.Int", Meeting::None),
    (
        "port f : appendable -> comparable\nport g : a -> a",
        Meeting::Common,
    ),
    (
        "port f : compappend\nport g : Basics.List (Basics.Int -> Basics.Int)",
        Meeting::None,
    ),
    ("port f : ()\nport g : (a, b)", Meeting::None),
    ("port f : ()\nport g : ()", Meeting::Common),
    (
        "port f : { r | x : Basics.Int } -> r\nport g : { x : Basics.Int, y : a } -> { y : Basics.String }",
        Meeting::Common,
    ),
    (
        "port f : { r | x : Basics.Int } -> r\nport g : { x : Basics.Int, y : a } -> { z : Basics.String }",
        Meeting::None,
    ),
    (
        "port f : { r | x : Basics.Int } -> { r | y : a }\nport g : { x : b } -> { y : Basics.Char }",
        Meeting::Common,
    ),
    (
        "port f : { r | x : Basics.Int } -> r\nport g : { x : a } -> { r | x : a }",
        Meeting::None,
    ),
    (
        "port f : a -> b\nport g : Signal.Signal Basics.Int -> b",
        Meeting::Common,
    ),
    (
        "port f : a -> Basics.Int\nport g : Signal.Signal Basics.Int -> b",
        Meeting::IllSorted,
    ),
    (
        "port f : Basics.List a -> a\nport g : b -> Signal.Signal Basics.Int",
        Meeting::IllSorted,
    ),
    (
        "port f : { x : a } -> a\nport g : b -> Signal.Signal Basics.Int",
        Meeting::IllSorted,
    ),
    (
        "port f : Signal.Signal Basics.Int -> Basics.Int\nport g : a",
        Meeting::Senseless,
    ),
];

#[test]
fn types_have_instances_in_common(rt: HostRuntime) -> Result<(), Fail> {
    let alloc = rt.alloc();
    for (text, wanted) in &ROWS {
        let found = meet_written(alloc, text)?;
        assert_eq!(rt; found, *wanted, "{text}");
    }
    Ok(())
}
