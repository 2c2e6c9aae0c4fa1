//! Blocks of definitions in groups: each is a number of definitions with the references between them.
use bit_rows::BitRows;
use elm_base::NoMemory;
use module_groups::{Component, groups, groups_are_determined};
use sqlite_items::Items;
use std::alloc::{AllocError, Global};
use std::fmt::Write;
use std::test::Fail;

/// The groups with bars between them. A star stands behind a group that reaches itself, and an exclamation mark where
/// that is a fault.
fn text_of(
    alloc: Global,
    found: &Items<Component>,
    functions: &[bool],
) -> Result<String, AllocError> {
    let mut text = String::new(alloc);
    for group in found.as_slice() {
        text.push_str("|")?;
        for member in group.members.as_slice() {
            write!(text, "{member}")?;
        }
        text.push_str(if group.recursive { "*" } else { "" })?;
        if group
            .members
            .as_slice()
            .iter()
            .all(|member| *member < functions.len())
        {
            text.push_str(if group.is_cyclic_value(functions) {
                "!"
            } else {
                ""
            })?;
        }
    }
    Ok(text)
}

/// The table of these references.
fn table_of(
    alloc: Global,
    count: usize,
    references: &[(usize, usize)],
) -> Result<BitRows, NoMemory> {
    let mut table = BitRows::new(alloc, count, count)?;
    for (a, b) in references {
        if *a < table.rows() && *b < table.bits() {
            table.set(*a, *b);
        }
    }
    Ok(table)
}

const ALL: [bool; 5] = [true; 5];

const NONE: [bool; 5] = [false; 5];

const BUT_TWO: [bool; 5] = [true, true, false, true, true];

#[test]
fn blocks_in_groups(rt: HostRuntime) -> Result<(), Fail> {
    groups_are_determined();
    let blocks: [(usize, &[(usize, usize)], &[bool], &str); 16] = [
        (0, &[], &NONE, ""),
        (1, &[], &NONE, "|0"),
        (1, &[(0, 0)], &ALL, "|0*"),
        (1, &[(0, 0)], &NONE, "|0*!"),
        (3, &[(0, 1), (1, 2)], &NONE, "|2|1|0"),
        (3, &[(0, 2)], &NONE, "|1|2|0"),
        (3, &[(2, 0)], &NONE, "|0|1|2"),
        (2, &[(0, 1), (1, 0)], &ALL, "|01*"),
        (3, &[(0, 2), (2, 0)], &BUT_TWO, "|02*!|1"),
        (4, &[(1, 3), (3, 1), (0, 1)], &BUT_TWO, "|13*|0|2"),
        (
            4,
            &[(0, 2), (2, 0), (1, 3), (3, 1), (0, 3)],
            &ALL,
            "|13*|02*",
        ),
        (5, &[(0, 1), (1, 2), (2, 0), (3, 0)], &ALL, "|012*|3|4"),
        (
            5,
            &[(0, 1), (1, 2), (2, 3), (3, 4), (4, 0)],
            &BUT_TWO,
            "|01234*!",
        ),
        (5, &[(0, 1), (1, 2), (2, 3), (3, 4)], &NONE, "|4|3|2|1|0"),
        (5, &[(4, 4), (0, 4), (2, 1)], &NONE, "|1|2|3|4*!|0"),
        (
            4,
            &[(3, 2), (2, 3), (1, 2), (0, 1), (1, 0)],
            &ALL,
            "|23*|01*",
        ),
    ];
    for (count, references, functions, wanted) in blocks {
        let table = table_of(rt.alloc(), count, references)?;
        assert_eq!(rt; table.rows(), table.bits());
        let found = groups(rt.alloc(), table)?;
        let text = text_of(rt.alloc(), &found, functions)?;
        assert_eq!(rt; text.as_str(), wanted);
    }
    Ok(())
}
