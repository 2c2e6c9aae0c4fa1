//! What the sorts of a type come to, from those of its parts.
ghost use Rattle.std.specs.Prelude.{◌≡◌, ◌++◌, ◌&&◌, [], ◌∷◌, OnOk, IfOk, not};
ghost use Rattle.typing_rules.specs.WrittenTypes.{flag_of, begins as begins_with};
ghost use Rattle.written_sorts.specs.Sorting as sorting;
ghost use Rattle.written_sorts.specs.Marks as sorts;
ghost use Rattle.written_sorts.specs.Forced.{marks_of, where_signal};
ghost use Rattle.type_sense.specs.WrittenOf.{name_before};
ghost use Rattle.type_sense.specs.Judging as spec;

use crate::judged::Judged;
use elm_base::{Name, NoMemory, Spot, TypeTree};
use sqlite_items::Items;
use std::alloc::Global;

/// Whether the variable is among these, which are of sort signal.
pub fn is_marked(marks: &[Name], name: &[u8]) -> bool
    ensures { result ≡ marks_of marks.now name.now }
{
    for other in marks {
        if other.bytes() == name {
            return true;
        }
    }
    false
}

/// Whether the name begins with these letters.
pub fn begins(letters: &[u8], name: &[u8]) -> bool
    ensures { result ≡ begins_with letters.now name.now }
{
    let mut left = letters;
    let mut rest = name;
    while let [letter, more @ ..] = left {
        match rest {
            [] => return false,
            [first, others @ ..] => {
                if *letter != *first {
                    return false;
                }
                left = more;
                rest = others;
            }
        }
    }
    true
}

fn is_plain(name: &[u8]) -> bool
    ensures { result ≡ sorting.is_plain (flag_of name.now) }
{
    if begins(b"compappend", name) {
        return false;
    }
    if begins(b"comparable", name) {
        return false;
    }
    if begins(b"appendable", name) {
        return false;
    }
    true
}

/// Whether a variable may stand for any type: its name has no flag, and doesn't begin with `number`.
fn is_free(name: &[u8]) -> bool
    ensures { result ≡ sorting.is_free name.now }
{
    let number = begins(b"number", name);
    let plain = is_plain(name);
    !number && plain
}

fn free_before(before: &Option<Spot>) -> bool
    ensures { result ≡ sorting.free_before (name_before before.now) }
{
    match before {
        None => true,
        Some(spot) => is_free(spot.name.bytes()),
    }
}

fn simple_before(marks: &[Name], before: &Option<Spot>) -> bool
    ensures { result ≡ sorts.simple_before (marks_of marks.now) (name_before before.now) }
{
    match before {
        None => true,
        Some(spot) => !is_marked(marks, spot.name.bytes()),
    }
}

fn at_most(signal: bool, other: bool) -> bool
    ensures { result ≡ sorts.at_most signal other }
{
    if signal { other } else { true }
}

fn of_variable(alloc: Global, marks: &[Name], name: &Name) -> Result<Judged, NoMemory>
    ensures { IfOk result (λ judged. judged ≡ spec.of_variable (marks_of marks.now) name.now) }
{
    let signal = is_marked(marks, name.bytes());
    let mut ends = Items::new(alloc);
    ends.push(name.copy(alloc)?)?;
    Ok(Judged {
        signal,
        holds: at_most(signal, is_free(name.bytes())),
        bars: true,
        ends,
        forced: Items::new(alloc),
    })
}

fn of_whole(alloc: Global, signal: bool, holds: bool, bars: bool, forced: Items<Name>) -> Judged
    ensures { result ≡ spec.of_whole signal holds bars forced }
{
    Judged {
        signal,
        holds,
        bars,
        ends: Items::new(alloc),
        forced,
    }
}

fn push_copies(alloc: Global, names: &[Name], out: &mut Items<Name>) -> Result<(), NoMemory>
    ensures { OnOk result (out.new ≡ out.old ++ names.now) }
{
    for name in names {
        out.push(name.copy(alloc)?)?;
    }
    Ok(())
}

fn push_where(
    alloc: Global,
    signal: bool,
    names: &[Name],
    out: &mut Items<Name>,
) -> Result<(), NoMemory>
    ensures { OnOk result (out.new ≡ out.old ++ where_signal signal names.now) }
{
    if signal {
        push_copies(alloc, names, out)?;
    }
    Ok(())
}

fn of_arrow(alloc: Global, from: Judged, to: Judged) -> Result<Judged, NoMemory>
    ensures { IfOk result (λ judged. judged ≡ spec.of_arrow from to) }
{
    let mut behind = to.forced;
    push_where(alloc, from.signal, to.ends.as_slice(), &mut behind)?;
    let mut forced = from.forced;
    forced.append(behind)?;
    Ok(Judged {
        signal: to.signal,
        holds: from.holds && to.holds && at_most(from.signal, to.signal),
        bars: from.bars && to.bars,
        ends: to.ends,
        forced,
    })
}

/// Adds a part to what was found of the parts before it.
fn add_part(
    part: Judged,
    holds: &mut bool,
    bars: &mut bool,
    forced: &mut Items<Name>,
) -> Result<(), NoMemory>
    ensures holds { OnOk result (holds.new ≡ (holds.old && spec.is_part part)) }
    ensures bars { OnOk result (bars.new ≡ (bars.old && part.bars)) }
    ensures forced { OnOk result (forced.new ≡ forced.old ++ part.forced) }
{
    *holds = *holds && part.holds && !part.signal;
    *bars = *bars && part.bars;
    forced.append(part.forced)?;
    Ok(())
}

/// What the sorts of a type without aliases come to, where these variables and no others are of sort signal.
#[cycle(judging)]
pub fn judge(alloc: Global, tree: &TypeTree, marks: &[Name]) -> Result<Judged, NoMemory>
    ensures { IfOk result (λ judged. judged ≡ spec.judged (marks_of marks.now) tree.now) }
{
    match tree {
        TypeTree::Variable { name, .. } => of_variable(alloc, marks, name),
        TypeTree::Named {
            name,
            arguments,
            ..
        } => {
            let signal = name.bytes() == b"Signal.Signal".as_slice();
            judge_parts(alloc, arguments.as_slice(), marks, signal)
        }
        TypeTree::Arrow { from, to, .. } => {
            let from = judge(alloc, from.get(), marks)?;
            let to = judge(alloc, to.get(), marks)?;
            of_arrow(alloc, from, to)
        }
        TypeTree::Unit { .. } => Ok(of_whole(alloc, false, true, true, Items::new(alloc))),
        TypeTree::Tuple { parts, .. } => judge_parts(alloc, parts.as_slice(), marks, false),
        TypeTree::Brackets { inner, .. } => judge(alloc, inner.get(), marks),
        TypeTree::Fields { before, fields, .. } => {
            judge_record(alloc, fields.as_slice(), marks, before)
        }
    }
}

#[cycle(judging)]
fn judge_parts(
    alloc: Global,
    trees: &[TypeTree],
    marks: &[Name],
    signal: bool,
) -> Result<Judged, NoMemory>
    ensures { IfOk result (λ judged. judged
        ≡ spec.of_parts signal (spec.judged_all (marks_of marks.now) trees.now)) }
{
    let mut holds = true;
    let mut bars = true;
    let mut forced = Items::new(alloc);
    for tree in trees {
        let part = judge(alloc, tree, marks)?;
        add_part(part, &mut holds, &mut bars, &mut forced)?;
    }
    Ok(of_whole(alloc, signal, holds, bars, forced))
}

#[cycle(judging)]
fn judge_record(
    alloc: Global,
    fields: &[(Spot, TypeTree)],
    marks: &[Name],
    before: &Option<Spot>,
) -> Result<Judged, NoMemory>
    ensures { IfOk result (λ judged. judged
        ≡ spec.record_of (marks_of marks.now) before.now fields.now) }
{
    let mut holds = true;
    let mut bars = true;
    let mut forced = Items::new(alloc);
    for (_, tree) in fields {
        let part = judge(alloc, tree, marks)?;
        add_part(part, &mut holds, &mut bars, &mut forced)?;
    }
    let holds = simple_before(marks, before) && holds;
    let bars = free_before(before) && bars;
    Ok(of_whole(alloc, false, holds, bars, forced))
}
