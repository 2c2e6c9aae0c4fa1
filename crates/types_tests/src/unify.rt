//! What makes two types equal.
use crate::printer::Printer;
use crate::reader::Reader;
use crate::same;
use elm_base::NoMemory;
use std::alloc::Global;
use std::process::Abort;
use type_terms::TermId;

// The text of two types, which a reader has read.
fn put_both(reader: &Reader, terms: (TermId, TermId), out: &mut String) -> Result<(), NoMemory> {
    let printer = Printer {
        store: reader.scene.store(),
        variables: reader.variables.as_slice(),
    };
    printer.put_type(terms.0, out)?;
    out.push_str(" and ")?;
    printer.put_type(terms.1, out)?;
    Ok(())
}

// What unification does to the variables of two types, or `none` where no solution is. All is taken back: as many terms
// stand there as before.
fn put_meeting(reader: &mut Reader, a: usize, b: usize, out: &mut String) -> Result<(), NoMemory> {
    let terms = reader.scene.store().terms();
    let mark = reader.scene.mark();
    let made = reader.scene.unify(a, b)?;
    let printer = Printer {
        store: reader.scene.store(),
        variables: reader.variables.as_slice(),
    };
    printer.put_changes(out)?;
    reader.scene.undo(mark);
    if !made {
        // A refusal changes nothing by itself, so `none` stands alone.
        out.push_str("none")?;
    }
    if reader.scene.store().terms() != terms {
        out.push_str(" and terms are left")?;
    }
    Ok(())
}

/// Texts of two types: before they met, of what became of their variables, and of the types after that was taken back.
#[derive(Drop)]
struct Meeting {
    before: String,
    changes: String,
    after: String,
}

impl Meeting {
    fn new(alloc: Global) -> Meeting {
        Meeting {
            before: String::new(alloc),
            changes: String::new(alloc),
            after: String::new(alloc),
        }
    }

    fn put(&mut self, reader: &mut Reader, first: &str, second: &str) -> Result<(), NoMemory> {
        let a = reader.read(first)?;
        let b = reader.read(second)?;
        let terms = (reader.scene.term(a)?, reader.scene.term(b)?);
        put_both(reader, terms, &mut self.before)?;
        put_meeting(reader, a, b, &mut self.changes)?;
        put_both(reader, terms, &mut self.after)
    }

    fn of(alloc: Global, first: &str, second: &str) -> Result<Meeting, NoMemory> {
        let mut meeting = Meeting::new(alloc);
        let mut reader = Reader::new(alloc)?;
        meeting.put(&mut reader, first, second)?;
        Ok(meeting)
    }
}

fn check(rt: &impl Abort, alloc: Global, rows: &[(&str, &str, &str)]) -> Result<(), NoMemory> {
    for (first, second, wanted) in rows {
        let Meeting {
            before,
            changes,
            after,
        } = Meeting::of(alloc, first, second)?;
        same(rt, changes.as_str(), *wanted, before.as_str());
        same(rt, after.as_str(), before.as_str(), "all is taken back");
    }
    Ok(())
}

/// What becomes of the variables of two types, part by part.
const PARTS: [(&str, &str, &str); 17] = [
    ("Int", "Int", ""),
    ("Int", "Bool", "none"),
    ("p", "p", ""),
    ("p", "q", "p = q"),
    ("List Int", "p", "p = List Int"),
    ("Signal p", "Signal (List Int)", "p = List Int"),
    ("Int -> p", "q -> Bool -> ()", "p = Bool -> (); q = Int"),
    (
        "(p -> q) -> List p",
        "(Int -> Bool) -> List Int",
        "p = Int; q = Bool",
    ),
    ("(p, q)", "(q, Int)", "p = Int; q = Int"),
    ("(p, q)", "(p, q, p)", "none"),
    ("List p", "(p, p)", "none"),
    ("List p", "Signal p", "none"),
    ("()", "{ }", "none"),
    // A variable and what it stands in.
    ("p", "List p", "none"),
    ("p", "{ x : p }", "none"),
    ("p", "{ f : { x : p } }", "none"),
    ("(p, q)", "(List q, List p)", "none"),
];

#[test]
fn types_meet_part_by_part(rt: HostRuntime) -> Result<(), NoMemory> {
    check(&rt, rt.alloc(), &PARTS)
}

/// The same of rows, label by label.
const LABELS: [(&str, &str, &str); 23] = [
    (
        "{ r | x : Int }",
        "{ x : Int, y : Bool }",
        "r = { y : Bool }",
    ),
    ("{ r | x : Int }", "{ x : Int }", "r = { }"),
    ("{ r | x : Int }", "{ y : Bool }", "none"),
    (
        "{ r | x : p }",
        "{ y : Bool, x : Int }",
        "r = { y : Bool }; p = Int",
    ),
    // One rest under different fields.
    ("{ r | x : Int }", "{ r | x : Int }", ""),
    ("{ r | x : Int }", "{ r | y : Int }", "none"),
    ("{ r | x : Int }", "{ r | x : Bool }", "none"),
    ("{ r | x : Int }", "{ r | x : Int, y : Bool }", "none"),
    // Any order of labels; rows inside rows.
    ("{ x : Int, y : Bool }", "{ y : Bool, x : Int }", ""),
    (
        "{ x : Int, y : Bool }",
        "{ x : Int, y : Bool, z : Int }",
        "none",
    ),
    ("{ f : { x : p } }", "{ f : { x : Int } }", "p = Int"),
    // Two rests: what one side lacks is in the rest of the other.
    (
        "{ r | x : Int }",
        "{ s | y : Bool }",
        "r = { new | y : Bool }; s = { new | x : Int }",
    ),
    (
        "{ r | x : Int }",
        "{ s | x : Int, y : Bool }",
        "r = { s | y : Bool }",
    ),
    ("{ r | x : Int }", "{ s | x : p }", "r = { s | }; p = Int"),
    // A label that stands twice: the newest fields meet, and the older one is in the rest.
    (
        "{ x : Int, x : Bool }",
        "{ r | x : Int }",
        "r = { x : Bool }",
    ),
    ("{ x : Int, x : Bool }", "{ r | x : Bool }", "none"),
    ("{ x : Int, x : Bool }", "{ x : Bool, x : Int }", "none"),
    // A rigid rest.
    ("{ rigid | x : Int }", "{ rigid | x : p }", "p = Int"),
    (
        "{ rigid | x : Int }",
        "{ rigid | x : Int, y : Int }",
        "none",
    ),
    ("{ rigid | x : Int }", "{ rigidly | x : Int }", "none"),
    ("{ rigid | x : Int }", "{ x : Int }", "none"),
    (
        "{ rigid | x : Int, y : Int }",
        "{ r | x : Int }",
        "r = { rigid | y : Int }",
    ),
    // A rest that stands in a field of its row.
    ("{ r | }", "{ y : { r | } }", "none"),
];

#[test]
fn rows_meet_label_by_label(rt: HostRuntime) -> Result<(), NoMemory> {
    check(&rt, rt.alloc(), &LABELS)
}

/// The same where variables have flags, which are asked of parts.
const FLAGS: [(&str, &str, &str); 21] = [
    ("comparable", "Int", "comparable = Int"),
    ("comparable", "Bool", "none"),
    ("comparable", "Int -> Int", "none"),
    ("comparable", "{ x : Int }", "none"),
    ("comparable", "()", "none"),
    (
        "comparable",
        "List p",
        "comparable = List p; p is comparable",
    ),
    ("comparable", "List (Int -> Int)", "none"),
    (
        "comparable",
        "(p, List q)",
        "comparable = (p, List q); p is comparable; q is comparable",
    ),
    (
        "comparable",
        "(Char, String)",
        "comparable = (Char, String)",
    ),
    ("p", "comparable", "p = comparable"),
    // The elements of an appendable list are free.
    ("appendable", "String", "appendable = String"),
    ("appendable", "List p", "appendable = List p"),
    ("appendable", "Int", "none"),
    ("appendable", "(p, q)", "none"),
    ("appendable", "{ x : Int }", "none"),
    // Both flags.
    (
        "comparable",
        "appendable",
        "comparable = appendable; appendable is both",
    ),
    ("compappend", "Int", "none"),
    ("compappend", "String", "compappend = String"),
    (
        "compappend",
        "List p",
        "compappend = List p; p is comparable",
    ),
    ("(comparable, comparable)", "(appendable, Int)", "none"),
    (
        "(comparable, appendable)",
        "(appendable, List p)",
        "comparable = List p; appendable = List p; p is comparable",
    ),
];

#[test]
fn flags_are_asked_of_parts(rt: HostRuntime) -> Result<(), NoMemory> {
    check(&rt, rt.alloc(), &FLAGS)
}
