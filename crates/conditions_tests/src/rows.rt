//! Conditions, and whether any types satisfy them.
use crate::scene::{Step, answer};
use elm_base::NoMemory;
use type_terms::Flag;

/// What is asked, step by step; then which two types are to be equal; and whether any types satisfy it, which is `None`
/// where the equation is refused.
type Row = (
    &'static str,
    &'static [Step],
    Option<(usize, usize)>,
    Option<bool>,
);

// The first two types of each row: a simple one, and a signal of it.
const INT: Step = Step::Named {
    name: "Basics.Int",
    arguments: &[],
};

const SIGNAL: Step = Step::Named {
    name: "Signal.Signal",
    arguments: &[0],
};

const VARIABLE: Step = Step::Variable { flag: Flag::Plain };

const ROWS: [Row; 16] = [
    ("nothing", &[], None, Some(true)),
    (
        "a function from a signal to a number",
        &[INT, SIGNAL, Step::Function { from: 1, to: 0 }],
        None,
        Some(false),
    ),
    (
        "a function from a number to a signal",
        &[INT, SIGNAL, Step::Function { from: 0, to: 1 }],
        None,
        Some(true),
    ),
    (
        "a list of signals",
        &[
            INT,
            SIGNAL,
            Step::Named {
                name: "Basics.List",
                arguments: &[1],
            },
        ],
        None,
        Some(false),
    ),
    (
        "a tuple with a signal in it",
        &[INT, SIGNAL, Step::Tuple { parts: &[0, 1] }],
        None,
        Some(false),
    ),
    (
        "a record with a signal in it",
        &[
            INT,
            SIGNAL,
            Step::Record {
                fields: &[("x", 0), ("y", 1)],
            },
        ],
        None,
        Some(false),
    ),
    (
        "a record of numbers",
        &[
            INT,
            Step::Record {
                fields: &[("x", 0), ("y", 0)],
            },
        ],
        None,
        Some(true),
    ),
    (
        "a simple variable that is a signal",
        &[INT, SIGNAL, VARIABLE, Step::AtMost { below: 2, above: 0 }],
        Some((2, 1)),
        Some(false),
    ),
    (
        "a variable above a number that is a signal",
        &[INT, SIGNAL, VARIABLE, Step::AtMost { below: 0, above: 2 }],
        Some((2, 1)),
        Some(true),
    ),
    (
        "a tuple with a variable in it that is a signal",
        &[INT, SIGNAL, VARIABLE, Step::Tuple { parts: &[2, 0] }],
        Some((2, 1)),
        Some(false),
    ),
    (
        "a tuple with a variable in it that is a number",
        &[INT, SIGNAL, VARIABLE, Step::Tuple { parts: &[2, 0] }],
        Some((2, 0)),
        Some(true),
    ),
    ("two types", &[INT, SIGNAL], Some((0, 1)), None),
    (
        "a signal that can be compared",
        &[
            INT,
            SIGNAL,
            Step::Variable {
                flag: Flag::Comparable,
            },
        ],
        Some((2, 1)),
        None,
    ),
    (
        "an open record that is a closed one",
        &[
            INT,
            Step::Record {
                fields: &[("x", 0), ("y", 0)],
            },
            Step::Rest,
            Step::Record {
                fields: &[("x", 0)],
            },
        ],
        Some((1, 2)),
        Some(true),
    ),
    (
        "an open record that is one without its label",
        &[
            INT,
            Step::Record {
                fields: &[("y", 0)],
            },
            Step::Rest,
            Step::Record {
                fields: &[("x", 0)],
            },
        ],
        Some((1, 2)),
        None,
    ),
    (
        "an open record with a signal in it",
        &[
            INT,
            SIGNAL,
            Step::Rest,
            Step::Record {
                fields: &[("x", 1)],
            },
        ],
        None,
        Some(false),
    ),
];

#[test]
fn types_satisfy_conditions_or_none_do(rt: HostRuntime) -> Result<(), NoMemory> {
    for (label, steps, equation, wanted) in ROWS {
        let found = answer(rt.alloc(), steps, equation)?;
        assert_eq!(rt; found, wanted, "{label}");
    }
    Ok(())
}
