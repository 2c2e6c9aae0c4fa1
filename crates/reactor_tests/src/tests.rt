use crate::runs::{Case, Script, check, run, same};
use elm_base::NoMemory;
use reactor_engine::Status;
use std::alloc::Global;
use std::process::Abort;
use std::str;

const FIRST: &[u8] =
    b"import Graphics.Element exposing (..)\nport p : Signal Int\nmain = Signal.map show p\n";

/// The first frame of a run of it.
const START: &str = "at 0 of 0\n| 0\n.\n";

/// A run of it in which nothing fails.
const PLAIN: Case<'static> = Case {
    words: &["run", "first"],
    main: Some(FIRST),
    script: Script::Pieces(b"", 4096),
    reads: &[],
    writes: &[],
    calls: &[],
};

/// Scripts with their answers behind the first frame.
const SCRIPTS: [(&str, &str); 26] = [
    ("", ""),
    ("input p 5\n", "at 1 of 1\n| 5\n.\n"),
    ("input p 5", "at 1 of 1\n| 5\n.\n"),
    ("input p 5\r\n", "at 1 of 1\n| 5\n.\n"),
    ("input p 5\r", "refused Unsupported\n"),
    ("  input   p   5  \n", "at 1 of 1\n| 5\n.\n"),
    (
        "input p 5\ninput p -7\n",
        "at 1 of 1\n| 5\n.\nat 2 of 2\n| -7\n.\n",
    ),
    ("input p 007\n", "at 1 of 1\n| 7\n.\n"),
    ("input p -0\n", "at 1 of 1\n| 0\n.\n"),
    (
        "input p 9223372036854775807\n",
        "at 1 of 1\n| 9223372036854775807\n.\n",
    ),
    (
        "input p -9223372036854775808\n",
        "at 1 of 1\n| -9223372036854775808\n.\n",
    ),
    ("input p 9223372036854775808\n", "refused BadValue p Int\n"),
    ("input p -9223372036854775809\n", "refused BadValue p Int\n"),
    ("input p +5\n", "refused BadValue p Int\n"),
    ("input p -\n", "refused BadValue p Int\n"),
    ("input p 5 6\n", "refused BadValue p Int\n"),
    ("input q x\n", "refused UnknownInput q\n"),
    (
        "input q 5\ninput p 5\n",
        "refused UnknownInput q\nat 1 of 1\n| 5\n.\n",
    ),
    ("\n", "refused Unsupported\n"),
    ("# words\n", "refused Unsupported\n"),
    ("input p\n", "refused Unsupported\n"),
    ("input p (5)\n", "refused Unsupported\n"),
    ("input a.b 5\n", "refused Unsupported\n"),
    ("input p\t5\n", "refused Unsupported\n"),
    ("input p \u{e9}\n", "refused Unsupported\n"),
    (
        "input p 5\ninput q 5\ninput p x\ngoto 0\n",
        "at 1 of 1\n| 5\n.\nrefused UnknownInput q\nrefused BadValue p Int\nrefused Unsupported\n",
    ),
];

// The answers to a script in pieces of any size.
fn check_pieces(
    rt: &impl Abort,
    alloc: Global,
    script: &[u8],
    answers: &str,
) -> Result<(), NoMemory> {
    for size in [1, 3, 4096] {
        let case = Case {
            script: Script::Pieces(script, size),
            ..PLAIN
        };
        check(rt, alloc, &case, (Status::Done, START, answers), answers)?;
    }
    Ok(())
}

#[test]
fn scripts_in_pieces(rt: HostRuntime) -> Result<(), NoMemory> {
    for (script, answers) in SCRIPTS {
        check_pieces(&rt, rt.alloc(), script.as_bytes(), answers)?;
    }
    Ok(())
}

#[test]
fn a_line_that_is_no_text(rt: HostRuntime) -> Result<(), NoMemory> {
    let answers = "refused Unsupported\nat 1 of 1\n| 3\n.\n";
    check_pieces(&rt, rt.alloc(), b"input p \xff\ninput p 3\n", answers)
}

// A line with so many letters between these two texts, and a line behind it.
fn put_long(front: &str, count: usize, back: &str, out: &mut String) -> Result<(), NoMemory> {
    out.push_str(front)?;
    for _ in 0..count {
        out.push('a')?;
    }
    out.push_str(back)?;
    out.push_str("\ninput p 3\n")?;
    Ok(())
}

// The reason why the line behind the first frame refuses.
fn refusal(written: &str) -> Option<&str> {
    written.lines().nth(3)?.split(' ').nth(1)
}

/// The front of a line, how many letters it has, its back, and why it is refused.
const LONG: [(&str, usize, &str, &str); 4] = [
    ("input ", 255, " 5", "UnknownInput"),
    ("input ", 256, " 5", "Unsupported"),
    ("input p 5", 65_527, "", "BadValue"),
    ("input p 5", 65_528, "", "Unsupported"),
];

fn check_long(rt: &impl Abort, alloc: Global, script: &str, wanted: &str) -> Result<(), NoMemory> {
    let case = Case {
        script: Script::Pieces(script.as_bytes(), 4096),
        ..PLAIN
    };
    let ran = run(alloc, &case)?;
    let text = str::from_utf8(ran.written.as_slice()).unwrap_or("no text");
    same(rt, ran.status, Status::Done, wanted);
    same(rt, refusal(text), Some(wanted), wanted);
    let answered = text.ends_with("at 1 of 1\n| 3\n.\n");
    same(rt, answered, true, wanted);
    Ok(())
}

#[test]
fn long_lines_and_names(rt: HostRuntime) -> Result<(), NoMemory> {
    for (front, count, back, wanted) in LONG {
        let mut script = String::new(rt.alloc());
        put_long(front, count, back, &mut script)?;
        check_long(&rt, rt.alloc(), script.as_str(), wanted)?;
    }
    Ok(())
}

/// Texts of Main with the faults of their projects.
const FAULTS: [(&str, &str); 13] = [
    ("", "Main 0 Unsupported -\n"),
    (
        "import Graphics.Element exposing (..)\nport p : Signal Int\n",
        "Main 0 Unsupported -\n",
    ),
    (
        "import Graphics.Element exposing (..)\nport p : Signal Int\nmain = Signal.map show q\n",
        "Main 0 Unsupported -\n",
    ),
    (
        "import Graphics.Element exposing (..)\nport main : Signal Int\nmain = Signal.map show main\n",
        "Main 0 Unsupported -\n",
    ),
    (
        "import Graphics.Element exposing (..)\nport show : Signal Int\nmain = Signal.map show show\n",
        "Main 0 Unsupported -\n",
    ),
    (
        "import Graphics.Element exposing (..)\nport let : Signal Int\nmain = Signal.map show let\n",
        "Main 0 Unsupported -\n",
    ),
    (
        "import Graphics.Element exposing (..)\nport p' : Signal Int\nmain = Signal.map show p'\n",
        "Main 0 Unsupported -\n",
    ),
    (
        "import Graphics.Element exposing (..)\n port p : Signal Int\nmain = Signal.map show p\n",
        "Main 0 Unsupported -\n",
    ),
    (
        "import Graphics.Element exposing (..)\nport p : Signal\nInt\nmain = Signal.map show p\n",
        "Main 0 Unsupported -\n",
    ),
    (
        "import Graphics.Element exposing (..)\nport p : Signal Int\nmain = show 1.5\n",
        "Main 3 Excluded -\n",
    ),
    (
        "import Graphics.Element exposing (..)\nport p : Signal Int\nmain = show 9223372036854775808\n",
        "Main 3 IntTooWide -\n",
    ),
    (
        "import Graphics.Element exposing (..)\n\tport p : Signal Int\n",
        "Main 2 Tab -\n",
    ),
    ("import {- x\n", "Main 1 OpenComment -\n"),
];

#[test]
fn faults_of_projects(rt: HostRuntime) -> Result<(), NoMemory> {
    let front = "refused ProjectRefused ";
    for (main, fault) in FAULTS {
        let case = Case {
            main: Some(main.as_bytes()),
            script: Script::Pieces(b"input p 5\n", 4096),
            ..PLAIN
        };
        check(
            &rt,
            rt.alloc(),
            &case,
            (Status::ProjectRefused, front, fault),
            main,
        )?;
    }
    Ok(())
}

/// White space between the tokens is free, save that a declaration begins a line and nothing else does.
const SPREAD: &[u8] =
    b"-- one port\nimport Graphics.Element\n  exposing (..)\nport p:Signal Int\nmain =\n  Signal.map show p";

#[test]
fn a_project_that_is_spread(rt: HostRuntime) -> Result<(), NoMemory> {
    let case = Case {
        main: Some(SPREAD),
        ..PLAIN
    };
    check(&rt, rt.alloc(), &case, (Status::Done, START, ""), "spread")
}

const USAGE: &str = "usage: reactor run PROJECT\n";

const MISSING: &str = "refused ProjectRefused Main 0 MissingModule Main\n";

/// Words on a shelf without files, and how the run ends.
const WORDS: [(&[&str], Status, &str); 9] = [
    (&[], Status::Usage, USAGE),
    (&["run"], Status::Usage, USAGE),
    (&["run", "first", "more"], Status::Usage, USAGE),
    (&["walk", "first"], Status::Usage, USAGE),
    (&["run", ""], Status::Usage, USAGE),
    (&["run", "a//b"], Status::Usage, USAGE),
    (&["run", "../a"], Status::Usage, USAGE),
    (&["run", "-a"], Status::Usage, USAGE),
    (&["run", "no/where-1.x"], Status::ProjectRefused, MISSING),
];

#[test]
fn files_and_words(rt: HostRuntime) -> Result<(), NoMemory> {
    for (words, status, text) in WORDS {
        let case = Case {
            words,
            main: None,
            ..PLAIN
        };
        let label = words.last().map_or("no words", |word| *word);
        check(&rt, rt.alloc(), &case, (status, "", text), label)?;
    }
    Ok(())
}

fn put_spaces(count: usize, out: &mut Vec<u8>) -> Result<(), NoMemory> {
    for _ in 0..count {
        out.push(b' ')?;
    }
    Ok(())
}

#[test]
fn a_file_that_is_too_large(rt: HostRuntime) -> Result<(), NoMemory> {
    let too_large = "refused ProjectRefused Main 0 TooLarge -\n";
    let mut main = FIRST.to_vec(rt.alloc())?;
    put_spaces(262_145 - 83, &mut main)?;
    let rows = [
        (262_144, Status::Done, START),
        (262_145, Status::ProjectRefused, too_large),
    ];
    for (bytes, status, text) in rows {
        let case = Case {
            main: main.get(..bytes),
            ..PLAIN
        };
        check(&rt, rt.alloc(), &case, (status, "", text), text)?;
    }
    Ok(())
}

// The calls are in turn: the first frame is written, and then each line is read and answered.
fn ends_with(read: usize, write: usize) -> (Status, usize) {
    if write <= read && write <= 4 {
        (Status::WriteFault, 16 * write.saturating_sub(1))
    } else if read <= 4 {
        (Status::ReadFault, 16 * read)
    } else {
        (Status::Done, 64)
    }
}

/// Frames of 16 bytes each.
const FRAMES: &str = "at 0 of 0\n| 0\n.\nat 1 of 1\n| 5\n.\nat 2 of 2\n| 6\n.\nat 3 of 3\n| 7\n.\n";

fn failing<'a>(script: &'a [u8], reads: &'a [u64], writes: &'a [u64]) -> Case<'a> {
    Case {
        words: &["run", "first"],
        main: Some(FIRST),
        script: Script::Pieces(script, 10),
        reads,
        writes,
        calls: &[],
    }
}

fn check_failures(
    rt: &impl Abort,
    alloc: Global,
    read: usize,
    write: usize,
) -> Result<(), NoMemory> {
    let reads = [read as u64];
    let writes = [write as u64];
    let case = failing(b"input p 5\ninput p 6\ninput p 7\n", &reads, &writes);
    let (status, length) = ends_with(read, write);
    let frames = FRAMES.get(..length).unwrap_or("short");
    check(rt, alloc, &case, (status, "", frames), frames)
}

#[test]
fn failures_of_reads_and_writes(rt: HostRuntime) -> Result<(), NoMemory> {
    for read in 1..=5usize {
        for write in 1..=5usize {
            check_failures(&rt, rt.alloc(), read, write)?;
        }
    }
    Ok(())
}

/// The text of Main, its script, the writes that fail, the calls of the shelf that fail, and how the run ends.
const FAILURES: [(&[u8], &[u8], &[u64], &[u64], Status, &str); 3] = [
    (
        FIRST,
        b"input p 5\n",
        &[],
        &[1],
        Status::ShelfFault,
        "refused Shelf first/Main.elm\n",
    ),
    (FIRST, b"input p 5\n", &[1], &[1], Status::WriteFault, ""),
    // A text that can't be written is a failed write, whatever it says.
    (b"x", b"", &[1], &[], Status::WriteFault, ""),
];

#[test]
fn failures_of_texts(rt: HostRuntime) -> Result<(), NoMemory> {
    for (main, script, writes, calls, status, text) in FAILURES {
        let case = Case {
            main: Some(main),
            script: Script::Pieces(script, 4096),
            writes,
            calls,
            ..PLAIN
        };
        check(&rt, rt.alloc(), &case, (status, "", text), text)?;
    }
    Ok(())
}

// A script of as many bytes as one may have is answered whole, and one of a byte more up to its last whole line before.
#[test]
fn a_script_that_is_too_long(rt: HostRuntime) -> Result<(), NoMemory> {
    let line = vec![in rt.alloc(); b'x'; 65_535]?;
    let rows = [
        (1 << 30, Status::Done),
        ((1 << 30) + 1, Status::ScriptTooLong),
    ];
    for (total, status) in rows {
        let case = Case {
            script: Script::Repeated(line.as_slice(), total),
            ..PLAIN
        };
        let ran = run(rt.alloc(), &case)?;
        same(&rt, ran.status, status, "status");
        // 2^14 lines of 2^16 bytes, each answered by 20 bytes behind the first frame.
        same(&rt, ran.written.len(), 16 + 20 * (1 << 14), "length");
        let refused = ran.written.as_slice().ends_with(b"refused Unsupported\n");
        same(&rt, refused, true, "the last answer");
    }
    Ok(())
}
