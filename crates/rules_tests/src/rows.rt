//! Rules, and what becomes of them.
use crate::scene::{Outcome, Rule, try_rule};
use std::process::Abort;
use std::test::Fail;

/// A rule, the first two types, and the type that the whole is to have.
const ROWS: [(Rule, &str, Outcome); 24] = [
    (
        Rule::Call,
        "port f : a -> Basics.List a\nport g : Basics.Int\nport h : Basics.List Basics.Int",
        Outcome::Typed,
    ),
    (
        Rule::Call,
        "port f : a -> Basics.List a\nport g : Basics.Int\nport h : Basics.List Basics.Char",
        Outcome::None,
    ),
    (
        Rule::Call,
        "port f : Basics.Int\nport g : Basics.Int\nport h : a",
        Outcome::None,
    ),
    (
        Rule::Call,
        "port f : a -> b\nport g : Signal.Signal Basics.Int\nport h : Basics.Int",
        Outcome::IllSorted,
    ),
    (
        Rule::Range,
        "port f : a\nport g : number\nport h : Basics.List Basics.Int",
        Outcome::Typed,
    ),
    (
        Rule::Range,
        "port f : a\nport g : Basics.String\nport h : b",
        Outcome::None,
    ),
    (
        Rule::Range,
        "port f : Basics.String\nport g : a\nport h : b",
        Outcome::None,
    ),
    (
        Rule::Held,
        "port f : Basics.Int -> a\nport g : b -> b\nport h : Basics.Int -> Basics.Int",
        Outcome::Typed,
    ),
    (
        Rule::Held,
        "port f : Basics.Int -> a\nport g : b -> b\nport h : Basics.Int -> Basics.Char",
        Outcome::None,
    ),
    (
        Rule::Field,
        "port f : { x : Basics.Int, y : Basics.Char }\nport g : ()\nport h : Basics.Int",
        Outcome::Typed,
    ),
    (
        Rule::Field,
        "port f : { x : Basics.Int, x : Basics.Char }\nport g : ()\nport h : Basics.Char",
        Outcome::None,
    ),
    (
        Rule::Field,
        "port f : { y : Basics.Int }\nport g : ()\nport h : a",
        Outcome::None,
    ),
    (
        Rule::Newest,
        "port f : { x : a, y : a }\nport g : Basics.Int\nport h : { x : b, y : Basics.Int }",
        Outcome::Typed,
    ),
    (
        Rule::Newest,
        "port f : { x : Basics.Char }\nport g : Basics.Int\nport h : a",
        Outcome::None,
    ),
    (
        Rule::Remove,
        "port f : { x : Basics.Int, x : Basics.Char }\nport g : ()\nport h : { x : Basics.Char }",
        Outcome::Typed,
    ),
    (
        Rule::Remove,
        "port f : { y : Basics.Int }\nport g : ()\nport h : a",
        Outcome::None,
    ),
    (
        Rule::Extend,
        "port f : { x : Basics.Char }\nport g : Basics.Int\nport h : { x : Basics.Int, x : Basics.Char }",
        Outcome::Typed,
    ),
    (
        Rule::Extend,
        "port f : { x : Basics.Char }\nport g : Basics.Int\nport h : { x : Basics.Int }",
        Outcome::None,
    ),
    (
        Rule::Extend,
        "port f : Basics.Int\nport g : Basics.Int\nport h : a",
        Outcome::None,
    ),
    (
        Rule::List,
        "port f : Signal.Signal Basics.Int\nport g : ()\nport h : a",
        Outcome::IllSorted,
    ),
    (
        Rule::Signal,
        "port f : Basics.Int\nport g : ()\nport h : Signal.Signal a",
        Outcome::Typed,
    ),
    (
        Rule::Truth,
        "port f : a\nport g : ()\nport h : Basics.Bool",
        Outcome::Typed,
    ),
    (
        Rule::Truth,
        "port f : Basics.Int\nport g : ()\nport h : a",
        Outcome::None,
    ),
    (
        Rule::Number,
        "port f : ()\nport g : ()\nport h : comparable",
        Outcome::Typed,
    ),
];

#[test]
fn rules_give_the_types_that_they_say(rt: HostRuntime) -> Result<(), Fail> {
    let alloc = rt.alloc();
    for (rule, text, wanted) in &ROWS {
        let found = try_rule(alloc, *rule, text)?;
        assert_eq!(rt; found, *wanted, "{text}");
    }
    Ok(())
}
