//! One comparison of two terms after another, up to the first variable that is to be bound.

ghost use Rattle.std.specs.Prelude.{◌≡◌, ◌≢◌, ◌<◌, ℕ, ◌↔◌, true, false, IsTrue, List, [], length, IfOk};
ghost use Rattle.type_unify.specs.Matching.{terms_in};
ghost use Rattle.type_unify.specs.Rests.{RestsApart, IsType};
ghost use Rattle.type_unify.specs.Steps.{IsRow, under, CanDecide, Decides, Visits, Descends};
ghost use Rattle.type_unify.specs.declared.rows.Tail.TheVariants.{Open};
ghost use Rattle.type_terms.specs.declared.node.Node.{Node};
ghost use Rattle.type_terms.specs.Solutions.{Assignment};
ghost use Rattle.type_terms.specs.Terms.{nodes_of, node_at, Each, IsLink};

use crate::fields::match_fields;
use crate::pair::Pair;
use crate::parts::{is_row, is_variable, push_pairs, same_head};
use crate::read::shape_at;
use crate::rows::{Flat, Tail, flatten};
use elm_base::{Name, NoMemory};
use sqlite_items::Items;
use std::alloc::Global;
use type_terms::{Store, TermId};

/// What a comparison of two terms asks for.
#[derive(Drop)]
pub enum Step {
    /// Nothing, beyond what waits.
    Done,
    /// What can't be.
    Clash,
    /// The variable stands for the other term.
    Binds {
        at: TermId,
        to: TermId,
    },
    /// The variable, a rest, is these fields over the tail.
    Extends {
        at: TermId,
        fields: Items<(Name, TermId)>,
        tail: Tail,
    },
    /// The variables `x` and `y`, two rests, are such that the left fields over `x` are the right fields over `y`.
    Splits {
        left: Items<(Name, TermId)>,
        x: TermId,
        right: Items<(Name, TermId)>,
        y: TermId,
    },
}

fn both_empty(left: &Items<(Name, TermId)>, right: &Items<(Name, TermId)>) -> bool
    ensures { IsTrue result ↔ ((left.now ≡ []) × (right.now ≡ [])) }
{
    left.is_empty() && right.is_empty()
}

/// What makes the left fields over one tail equal to the right fields over the other, where no label stands in both.
fn decide(
    left: Items<(Name, TermId)>,
    first: Tail,
    right: Items<(Name, TermId)>,
    second: Tail,
) -> Step
    ensures { (nodes : List Node) → CanDecide nodes left first right second
        → Decides nodes left first right second result }
{
    match (first, second) {
        (Tail::Open { at: x }, Tail::Open { at: y }) => decide_open(left, x, right, y),
        (Tail::Open { at }, tail) => extend(left, at, right, tail),
        (tail, Tail::Open { at }) => extend(right, at, left, tail),
        (tail, other) => decide_rigid(left, tail, right, other),
    }
}

fn decide_open(
    left: Items<(Name, TermId)>,
    x: TermId,
    right: Items<(Name, TermId)>,
    y: TermId,
) -> Step
    ensures { (nodes : List Node) → CanDecide nodes left (Open x) right (Open y)
        → Decides nodes left (Open x) right (Open y) result }
{
    if x == y {
        if both_empty(&left, &right) {
            return Step::Done;
        }
        return Step::Clash;
    }
    if left.is_empty() {
        return Step::Extends {
            at: x,
            fields: right,
            tail: Tail::Open { at: y },
        };
    }
    Step::Splits { left, x, right, y }
}

/// The case that the other tail is no variable.
fn extend(left: Items<(Name, TermId)>, at: TermId, right: Items<(Name, TermId)>, tail: Tail) -> Step
    requires { (other : ℕ) → tail ≢ Open other }
    ensures { (nodes : List Node) → CanDecide nodes left (Open at) right tail
        → Decides nodes left (Open at) right tail result }
{
    if left.is_empty() {
        return Step::Extends {
            at,
            fields: right,
            tail,
        };
    }
    Step::Clash
}

/// The case that neither tail is a variable.
fn decide_rigid(
    left: Items<(Name, TermId)>,
    first: Tail,
    right: Items<(Name, TermId)>,
    second: Tail,
) -> Step
    requires first { (other : ℕ) → first ≢ Open other }
    requires second { (other : ℕ) → second ≢ Open other }
    ensures { (nodes : List Node) → CanDecide nodes left first right second
        → Decides nodes left first right second result }
{
    if !both_empty(&left, &right) {
        return Step::Clash;
    }
    if !same_tail(first, second) {
        return Step::Clash;
    }
    Step::Done
}

/// Whether two tails without variables are the same.
fn same_tail(first: Tail, second: Tail) -> bool
    requires first { (other : ℕ) → first ≢ Open other }
    requires second { (other : ℕ) → second ≢ Open other }
    ensures yes { result ≡ true → (s : Assignment) → under s first ≡ under s second }
    ensures no { result ≡ false → (s : Assignment) → under s first ≢ under s second }
{
    match first {
        Tail::Closed => match second {
            Tail::Closed => true,
            _ => false,
        },
        Tail::Rigid { at: _, number } => match second {
            Tail::Rigid {
                at: _,
                number: other,
            } => number == other,
            _ => false,
        },
        Tail::Open { at: _ } => false,
    }
}

/// Compares two rows.
fn rows(
    alloc: Global,
    store: &Store,
    a: TermId,
    b: TermId,
    waiting: &mut Items<Pair>,
) -> Result<Step, NoMemory>
    requires first { a < length (nodes_of store.now) }
    requires second { b < length (nodes_of store.now) }
    requires first_row { IsRow (node_at (nodes_of store.now) a) }
    requires second_row { IsRow (node_at (nodes_of store.now) b) }
    requires apart { RestsApart (nodes_of store.now) }
    ensures { IfOk result (λ step. Visits store.now a b waiting.old waiting.new step) }
{
    let left = flatten(alloc, store, a)?;
    let right = flatten(alloc, store, b)?;
    let Flat {
        fields: mut rest,
        tail,
    } = right;
    let extra = match_fields(alloc, left.fields.as_slice(), &mut rest, waiting)?;
    Ok(decide(extra, left.tail, rest, tail))
}

/// Compares two terms that aren't linked, and puts the pairs of their parts in wait.
fn visit(
    alloc: Global,
    store: &Store,
    a: TermId,
    b: TermId,
    waiting: &mut Items<Pair>,
) -> Result<Step, NoMemory>
    requires first { IsType (nodes_of store.now) a }
    requires second { IsType (nodes_of store.now) b }
    requires first_end { IsLink (node_at (nodes_of store.now) a) → ⊥ }
    requires second_end { IsLink (node_at (nodes_of store.now) b) → ⊥ }
    requires apart { RestsApart (nodes_of store.now) }
    ensures { IfOk result (λ step. Visits store.now a b waiting.old waiting.new step) }
{
    if a == b {
        return Ok(Step::Done);
    }
    let first = shape_at(store, a);
    let second = shape_at(store, b);
    if is_variable(first) {
        return Ok(Step::Binds { at: a, to: b });
    }
    if is_variable(second) {
        return Ok(Step::Binds { at: b, to: a });
    }
    if is_row(first) && is_row(second) {
        return rows(alloc, store, a, b, waiting);
    }
    if !same_head(first, second) {
        return Ok(Step::Clash);
    }
    push_pairs(first, second, waiting)?;
    Ok(Step::Done)
}

/// Compares the pairs that wait, the last one first, until one asks for something. `Done` says that none is left.
pub fn descend(alloc: Global, store: &Store, waiting: &mut Items<Pair>) -> Result<Step, NoMemory>
    requires types { Each (IsType (nodes_of store.now)) (terms_in waiting.old) }
    requires apart { RestsApart (nodes_of store.now) }
    ensures { IfOk result (λ step. Descends (nodes_of store.now) waiting.old waiting.new step) }
{
    'pairs: while let Some(pair) = waiting.pop() {
        let a = store.find(pair.first);
        let b = store.find(pair.second);
        match visit(alloc, store, a, b, waiting)? {
            Step::Done => {}
            step => return Ok(step),
        }
    }
    Ok(Step::Done)
}
