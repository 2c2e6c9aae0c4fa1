//! The script of a drill.
use crate::same;
use elm_base::NoMemory;
use script_lines::script;
use std::str;

#[test]
fn the_script_of_number_0(rt: HostRuntime) -> Result<(), NoMemory> {
    let bytes = script(rt.alloc(), 0)?;
    let text = str::from_utf8(bytes.as_slice()).unwrap_or("no text");
    same(&rt, text.lines().count(), 2003, "lines");
    same(&rt, text.starts_with(FIRST), true, "the first lines");
    same(&rt, text.ends_with(LAST), true, "the last lines");
    Ok(())
}

/// The first ten lines.
const FIRST: &str = "swap drillb\n\
    input Mouse.position (36,25)\n\
    deliver 0\n\
    input Mouse.clicks ()\n\
    input Mouse.clicks ()\n\
    input Mouse.position (39,3)\n\
    input Mouse.position (82,45)\n\
    input Mouse.position (22,45)\n\
    input Mouse.position (31,83)\n\
    resume\n";

/// The last four lines.
const LAST: &str = "\ninput Mouse.clicks ()\nsave s\nload s\nshow\n";
