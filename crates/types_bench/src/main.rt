//! Reads two numbers from standard input, unifies a closed row of as many labels as the first with itself in the
//! other order, then links as many variables as the second one after another. `bench/bench.py types` times it.
#![tactic(auto)]

ghost use Rattle.std.specs.Prelude.{IfOk, OnOk};
ghost use Rattle.type_unify.specs.Kept.{Keeps};
ghost use Rattle.type_unify.specs.Rests.{IsType};
ghost use Rattle.type_terms.specs.Terms.{nodes_of};

use anyhow::{Context, Result};
use elm_base::{Halt, Name, NoMemory};
use sqlite_items::Items;
use std::alloc::Global;
use std::io::Read;
use type_terms::{Flag, NoSolution, Shape, TermId};
use type_unify::{Tail, Types};

/// A closed row of as many fields of this type, labelled by numbers that rise or fall.
fn row(
    alloc: Global,
    types: &mut Types,
    element: TermId,
    labels: u32,
    falling: bool,
) -> Result<TermId, NoMemory>
    requires { IsType (nodes_of types.old) element }
    ensures keeps { OnOk result (Keeps (nodes_of types.old) (nodes_of types.new)) }
    ensures is_type { IfOk result (IsType (nodes_of types.new)) }
{
    let mut fields = Items::new(alloc);
    for number in 0..labels {
        let label = if falling { labels - 1 - number } else { number };
        let text = format!(in alloc; "{label}")?;
        fields.push((Name::from_vec(text.into_bytes()), element))?;
    }
    types.make_row(fields, Tail::Closed)
}

/// Whether a row meets itself in the other order.
fn rows_meet(alloc: Global, labels: u32) -> Result<bool, NoMemory> {
    let mut types = Types::new(alloc)?;
    let element = types.make_type(Shape::Variable { flag: Flag::Plain })?;
    let rising = row(alloc, &mut types, element, labels, false)?;
    let falling = row(alloc, &mut types, element, labels, true)?;
    meets(types.unify(alloc, rising, falling))
}

/// Whether the first and the last of as many linked variables meet.
fn chain_meets(alloc: Global, links: u32) -> Result<bool, NoMemory> {
    let mut types = Types::new(alloc)?;
    let first = types.make_type(Shape::Variable { flag: Flag::Plain })?;
    let mut last = first;
    for _ in 0..links {
        let next = types.make_type(Shape::Variable { flag: Flag::Plain })?;
        match types.unify(alloc, last, next) {
            Ok(()) => last = next,
            Err(Halt::Because(_)) => return Ok(false),
            Err(Halt::NoMemory) => return Err(NoMemory),
        }
    }
    meets(types.unify(alloc, first, last))
}

fn meets(answer: Result<(), Halt<NoSolution>>) -> Result<bool, NoMemory> {
    match answer {
        Ok(()) => Ok(true),
        Err(Halt::Because(_)) => Ok(false),
        Err(Halt::NoMemory) => Err(NoMemory),
    }
}

fn number(word: Option<&str>) -> Result<u32> {
    word.context("two numbers are wanted")?
        .parse::<u32>()
        .context("a number is wanted")
}

fn main(rt: HostRuntime) -> Result<()> {
    let mut text = String::new(rt.alloc());
    rt.reader().read_to_string(&mut text)?;
    let mut words = text.as_str().split_whitespace();
    let labels = number(words.next())?;
    let links = number(words.next())?;
    let rows = rows_meet(rt.alloc(), labels)?;
    println!(rt; "rows of {labels} labels: {rows}")?;
    let chain = chain_meets(rt.alloc(), links)?;
    println!(rt; "a chain of {links} links: {chain}")?;
    Ok(())
}
