//! The script of a drill: many commands, drawn by a generator of numbers.
ghost use Rattle.std.specs.Prelude.{◌≡◌, ◌++◌, ◌∷◌, [], ◌%◌, ◌<◌, IfOk, OnOk, codes, decimal};
ghost use Rattle.script_lines.specs.Drill as spec;

use elm_base::NoMemory;
use itoa::Buffer;
use std::alloc::Global;

/// How many lines are drawn.
const DRAWN: u64 = 2000;

/// The numbers that are drawn one after the other.
#[derive(Drop)]
struct Draws {
    x: u64,
}

impl Draws {
    /// The next number, below 2^31.
    fn draw(&mut self) -> u64
        ensures moved { self.new.x ≡ spec.moved self.old.x }
        ensures drawn { result ≡ spec.drawn (spec.moved self.old.x) }
    {
        self.x = self
            .x
            .wrapping_mul(6364136223846793005)
            .wrapping_add(1442695040888963407);
        self.x >> 33
    }
}

/// The script that this number gives: 2,000 lines by draws, and then the session is saved, loaded and shown.
pub fn script(alloc: Global, number: u64) -> Result<Vec<u8>, NoMemory>
    ensures { IfOk result (λ text. text.items ≡ spec.drill_script number) }
{
    let mut out = Vec::new(alloc);
    push_drawn(number, &mut out)?;
    push_text(b"save s\nload s\nshow\n", &mut out)?;
    Ok(out)
}

fn push_drawn(number: u64, out: &mut Vec<u8>) -> Result<(), NoMemory>
    ensures { OnOk result (out.new.items ≡ out.old.items ++ spec.drawn_text 2000 0 number) }
{
    let mut draws = Draws { x: number };
    for made in 0..DRAWN {
        push_drill_line(made, &mut draws, out)?;
        push_text(b"\n", out)?;
    }
    Ok(())
}

/// Appends the next line, where so many were made.
fn push_drill_line(made: u64, draws: &mut Draws, out: &mut Vec<u8>) -> Result<(), NoMemory>
    requires { made < 2000 }
    ensures text { OnOk result (out.new.items ≡ out.old.items
        ++ (spec.drill_line made draws.old.x).text) }
    ensures moved { OnOk result (draws.new.x ≡ (spec.drill_line made draws.old.x).x) }
{
    let d = draws.draw() % 16;
    push_line_for(d, made, draws, out)
}

/// Appends the line for a draw of 0 to 15.
fn push_line_for(d: u64, made: u64, draws: &mut Draws, out: &mut Vec<u8>) -> Result<(), NoMemory>
    requires { made < 2000 }
    ensures text { OnOk result (out.new.items ≡ out.old.items
        ++ (spec.line_for d made draws.old.x).text) }
    ensures moved { OnOk result (draws.new.x ≡ (spec.line_for d made draws.old.x).x) }
{
    match d {
        0..=5 => push_position(draws, out),
        6..=8 => push_text(b"input Mouse.clicks ()", out),
        9..=11 => push_text(b"deliver 0", out),
        12 => push_rewind(made, draws, out),
        13 => push_text(b"latest", out),
        14 => push_text(b"resume", out),
        _ => push_swap(draws, out),
    }
}

/// Appends the line that moves the pointer to the next two draws.
fn push_position(draws: &mut Draws, out: &mut Vec<u8>) -> Result<(), NoMemory>
    ensures text { OnOk result (out.new.items ≡ out.old.items ++ (spec.position draws.old.x).text) }
    ensures moved { OnOk result (draws.new.x ≡ (spec.position draws.old.x).x) }
{
    let left = draws.draw() % 100;
    let top = draws.draw() % 100;
    push_place(left, top, out)
}

fn push_place(left: u64, top: u64, out: &mut Vec<u8>) -> Result<(), NoMemory>
    ensures { OnOk result (out.new.items ≡ out.old.items ++ spec.position_text left top) }
{
    push_text(b"input Mouse.position ", out)?;
    push_pair(left, top, out)?;
    Ok(())
}

#[tactic(auto, unfolding(crate::specs::Drill::pair_text))]
fn push_pair(left: u64, top: u64, out: &mut Vec<u8>) -> Result<(), NoMemory>
    ensures { OnOk result (out.new.items ≡ out.old.items ++ spec.pair_text left top) }
{
    push_text(b"(", out)?;
    push_number(left, out)?;
    push_text(b",", out)?;
    push_number(top, out)?;
    push_text(b")", out)
}

/// Appends the line that moves the cursor to the next draw, at most as far as lines were made so far.
fn push_rewind(made: u64, draws: &mut Draws, out: &mut Vec<u8>) -> Result<(), NoMemory>
    requires { made < 2000 }
    ensures text { OnOk result (out.new.items ≡ out.old.items
        ++ (spec.rewind made draws.old.x).text) }
    ensures moved { OnOk result (draws.new.x ≡ (spec.rewind made draws.old.x).x) }
{
    let cursor = draws.draw() % (made + 1);
    push_text(b"goto ", out)?;
    push_number(cursor, out)
}

/// Appends the line that exchanges the program: the next draw says for which.
fn push_swap(draws: &mut Draws, out: &mut Vec<u8>) -> Result<(), NoMemory>
    ensures text { OnOk result (out.new.items ≡ out.old.items ++ (spec.swap draws.old.x).text) }
    ensures moved { OnOk result (draws.new.x ≡ (spec.swap draws.old.x).x) }
{
    if draws.draw() % 2 == 0 {
        push_text(b"swap drillb", out)
    } else {
        push_text(b"swap drill", out)
    }
}

fn push_number(number: u64, out: &mut Vec<u8>) -> Result<(), NoMemory>
    ensures { OnOk result (out.new.items ≡ out.old.items ++ decimal number) }
{
    let mut buffer = Buffer::new();
    out.extend_from_slice(buffer.format(number).as_bytes())?;
    Ok(())
}

fn push_text(text: &[u8], out: &mut Vec<u8>) -> Result<(), NoMemory>
    ensures { OnOk result (out.new.items ≡ out.old.items ++ text.now) }
{
    out.extend_from_slice(text)?;
    Ok(())
}
