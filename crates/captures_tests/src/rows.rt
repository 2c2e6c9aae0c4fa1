//! Names that stand free in terms, and their lambdas. The wanted rows follow from the text of each term.
use captured_places::known::{Known, names_at};
use captured_places::names::distinct;
use captured_places::table::known_terms;
use elm_base::{NoMemory, Term, TermPattern};
use sqlite_items::Items;
use std::alloc::Global;
use std::process::Abort;
use std::test::Fail;

/// A place, the names that stand free there, and the lambda that it is.
struct Row {
    place: u32,
    free: &'static [u32],
    lambda: Option<u32>,
}

const ROWS: [Row; 8] = [
    // `x`
    Row {
        place: 0,
        free: &[0],
        lambda: None,
    },
    // `x (y x)`: as often as they stand
    Row {
        place: 4,
        free: &[0, 1, 0],
        lambda: None,
    },
    // `\x -> x (y x)`
    Row {
        place: 5,
        free: &[1],
        lambda: Some(5),
    },
    // a `let` without groups is its body
    Row {
        place: 6,
        free: &[1],
        lambda: Some(5),
    },
    // `let f = \x -> x (y x) in f`, whose name is hidden in both
    Row {
        place: 8,
        free: &[],
        lambda: None,
    },
    // `let _ = x in f`: a value and what comes behind it
    Row {
        place: 10,
        free: &[0, 1],
        lambda: None,
    },
    // `if x then y else f`
    Row {
        place: 14,
        free: &[0, 1, 1],
        lambda: None,
    },
    // a part that stands nowhere
    Row {
        place: 15,
        free: &[],
        lambda: None,
    },
];

fn push_local(terms: &mut Vec<Term>, number: u32) -> Result<(), NoMemory> {
    terms.push(Term::Local { number })?;
    Ok(())
}

fn push_call(terms: &mut Vec<Term>, function: u32, argument: u32) -> Result<(), NoMemory> {
    terms.push(Term::Call { function, argument })?;
    Ok(())
}

fn push_lambda(terms: &mut Vec<Term>, number: u32, body: u32) -> Result<(), NoMemory> {
    let pattern = TermPattern::Local { number };
    terms.push(Term::Lambda { pattern, body })?;
    Ok(())
}

fn push_body(alloc: Global, terms: &mut Vec<Term>, body: u32) -> Result<(), NoMemory> {
    let groups = Items::new(alloc);
    terms.push(Term::Let { groups, body })?;
    Ok(())
}

/// A `let` of one group of one member.
fn push_let(
    alloc: Global,
    terms: &mut Vec<Term>,
    pattern: TermPattern,
    member: u32,
    body: u32,
) -> Result<(), NoMemory> {
    let mut group = Vec::new(alloc);
    group.push((pattern, member))?;
    let mut groups = Vec::new(alloc);
    groups.push(Items::from_vec(group))?;
    let groups = Items::from_vec(groups);
    terms.push(Term::Let { groups, body })?;
    Ok(())
}

/// The terms of the rows. Names are 0 for `x` and 1 for `y` and `f`.
fn push_terms(alloc: Global, terms: &mut Vec<Term>) -> Result<(), NoMemory> {
    push_local(terms, 0)?;
    push_local(terms, 1)?;
    push_local(terms, 0)?;
    push_call(terms, 1, 2)?;
    push_call(terms, 0, 3)?;
    push_lambda(terms, 0, 4)?;
    push_body(alloc, terms, 5)?;
    push_local(terms, 1)?;
    push_let(alloc, terms, TermPattern::Local { number: 1 }, 5, 7)?;
    push_local(terms, 0)?;
    push_let(alloc, terms, TermPattern::Anything, 9, 7)?;
    push_local(terms, 0)?;
    push_local(terms, 1)?;
    push_local(terms, 1)?;
    terms.push(Term::If {
        condition: 11,
        yes: 12,
        no: 13,
    })?;
    push_call(terms, 99, 99)
}

fn same_row(rt: &impl Abort, known: &[Known], row: &Row) {
    let place = row.place;
    let free = names_at(known, place) == row.free;
    let lambda = match known.get(place as usize) {
        Some(tree) => tree.lambda == row.lambda,
        None => false,
    };
    assert_eq!(rt; (free, lambda), (true, true), "{place}");
}

#[test]
fn names_stand_free(rt: HostRuntime) -> Result<(), Fail> {
    let mut terms = Vec::new(rt.alloc());
    push_terms(rt.alloc(), &mut terms)?;
    let known = known_terms(rt.alloc(), terms.as_slice())?;
    for row in &ROWS {
        same_row(&rt, known.as_slice(), row);
    }
    let once = distinct(rt.alloc(), &[2, 1, 2, 3, 1])?;
    assert_eq!(rt; once.as_slice() == [2, 1, 3].as_slice(), true, "each once");
    Ok(())
}
