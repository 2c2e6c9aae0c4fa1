//! Each command, and what is near to one.
use crate::lines::{check_pieces, check_scripts, readings};
use crate::same;
use elm_base::NoMemory;
use std::alloc::Global;

/// Lines with what they say.
const COMMANDS: [(&str, &str); 56] = [
    ("input p 5", "input|p|5;"),
    ("input Mouse.position (1,2)", "input|Mouse.position|(1,2);"),
    ("input   p   a  b  ", "input|p|a  b;"),
    ("input x_1' 5", "input|x_1'|5;"),
    ("input . 5", "input|.|5;"),
    ("input p \u{e9}", "input|p|\u{e9};"),
    ("input p\t5", "bad;"),
    ("input\tp 5", "bad;"),
    ("input p", "bad;"),
    ("input p  ", "bad;"),
    ("input", "bad;"),
    ("input a-b 5", "bad;"),
    ("input \u{e9} 5", "bad;"),
    ("inputs p 5", "bad;"),
    ("Input p 5", "bad;"),
    ("deliver 0", "deliver 0;"),
    ("deliver 999999999", "deliver 999999999;"),
    ("deliver 1000000000", "bad;"),
    ("deliver 0000000001", "bad;"),
    ("deliver 000000001", "deliver 1;"),
    ("deliver", "bad;"),
    ("deliver 1 2", "bad;"),
    ("deliver +1", "bad;"),
    ("deliver -1", "bad;"),
    ("deliver x", "bad;"),
    ("goto 0", "goto 0;"),
    ("goto 007", "goto 7;"),
    ("goto", "bad;"),
    ("goto 1 2", "bad;"),
    ("goto 0123456789", "bad;"),
    ("latest", "latest||;"),
    ("latest 1", "bad;"),
    ("resume", "resume||;"),
    ("resume x", "bad;"),
    ("swap a", "swap|a|;"),
    ("swap a/b-2/.c_D", "swap|a/b-2/.c_D|;"),
    ("swap", "bad;"),
    ("swap a b", "bad;"),
    ("save s1", "save|s1|;"),
    ("save", "bad;"),
    ("load s1", "load|s1|;"),
    ("load", "bad;"),
    ("load ..", "bad;"),
    ("load a/..", "bad;"),
    ("load ./a", "bad;"),
    ("load ...", "load|...|;"),
    ("load -a", "bad;"),
    ("load a/-b", "bad;"),
    ("load a-b", "load|a-b|;"),
    ("load /a", "bad;"),
    ("load a/", "bad;"),
    ("load a//b", "bad;"),
    ("load a'b", "bad;"),
    ("show x", "bad;"),
    ("quit", "quit||;"),
    ("quit 0", "bad;"),
];

#[test]
fn commands_and_near_misses(rt: HostRuntime) -> Result<(), NoMemory> {
    check_scripts(&rt, rt.alloc(), &COMMANDS)
}

fn put_letters(line: &mut String, count: usize) -> Result<(), NoMemory> {
    for _ in 0..count {
        line.push('a')?;
    }
    Ok(())
}

// A line with a name of this many letters.
fn named(alloc: Global, front: &str, count: usize, back: &str) -> Result<String, NoMemory> {
    let mut line = String::from_str(alloc, front)?;
    put_letters(&mut line, count)?;
    line.push_str(back)?;
    Ok(line)
}

// Whether the line isn't taken.
fn is_bad(alloc: Global, line: &str) -> Result<bool, NoMemory> {
    let said = readings(alloc, line.as_bytes(), 4096)?;
    Ok(said.as_str() == "bad;")
}

/// What stands before and behind a name, and how many letters it may have.
const NAMED: [(&str, &str, usize); 4] = [
    ("input ", " 5", 255),
    ("save ", "", 255),
    ("load a/", "", 253),
    ("swap ", "", 255),
];

#[test]
fn names_have_255_bytes(rt: HostRuntime) -> Result<(), NoMemory> {
    for (front, back, most) in NAMED {
        for (count, wanted) in [(most, false), (most.saturating_add(1), true)] {
            let line = named(rt.alloc(), front, count, back)?;
            let found = is_bad(rt.alloc(), line.as_str())?;
            same(&rt, (count, found), (count, wanted), front);
        }
    }
    Ok(())
}

/// Lines of bytes, and what they say.
const BYTES: [(&[u8], &str); 4] = [
    (b"input p \xff\n", "bad;"),
    (b"input p \xc3\xa9\n", "input|p|\u{e9};"),
    (b"\xff\n", "bad;"),
    (b"#\xff\n", "nothing;"),
];

#[test]
fn lines_that_are_no_text(rt: HostRuntime) -> Result<(), NoMemory> {
    for (line, wanted) in BYTES {
        check_pieces(&rt, rt.alloc(), line, wanted, wanted)?;
    }
    Ok(())
}
