//! Whether sorts meet notes.
use crate::reader::Reader;
use crate::same;
use elm_base::NoMemory;
use std::alloc::Global;
use type_solve::sorts;

/// Notes that the sort of the first type is at most that of the second one.
type Notes = &'static [(&'static str, &'static str)];

fn note(reader: &mut Reader, below: &str, above: &str) -> Result<(), NoMemory> {
    let a = reader.read(below)?;
    let b = reader.read(above)?;
    reader.scene.sort_below(a, b)
}

fn note_all(reader: &mut Reader, notes: Notes) -> Result<(), NoMemory> {
    for (below, above) in notes {
        note(reader, below, above)?;
    }
    Ok(())
}

fn meet(alloc: Global, reader: &Reader) -> bool {
    sorts(alloc, reader.scene.store()).is_ok()
}

// Whether sorts meet the notes.
fn meets(alloc: Global, notes: Notes) -> Result<bool, NoMemory> {
    let mut reader = Reader::new(alloc)?;
    note_all(&mut reader, notes)?;
    Ok(meet(alloc, &reader))
}

const ROWS: [(Notes, bool); 10] = [
    (&[], true),
    (&[("Int", "Signal Int"), ("Int", "Int")], true),
    (&[("Signal Int", "Int")], false),
    // A function has the sort of its result.
    (
        &[
            ("Signal Int", "Int -> Signal Int"),
            ("Int -> Signal Int", "Signal Int"),
        ],
        true,
    ),
    (&[("Int -> Signal Int", "Int")], false),
    (&[("Signal Int", "Signal Int -> Int")], false),
    // A variable has one sort in all notes.
    (&[("Int", "p"), ("p", "Signal Int")], true),
    (&[("Signal Int", "p"), ("p", "Int")], false),
    (&[("p", "Int"), ("Signal Int", "Int -> p")], false),
    // A flagged variable is simple, and so is a record.
    (&[("Signal Int", "comparable")], false),
];

#[test]
fn a_signal_never_reaches_a_simple_type(rt: HostRuntime) -> Result<(), NoMemory> {
    for (notes, wanted) in ROWS {
        let found = meets(rt.alloc(), notes)?;
        same(&rt, (notes, found), (notes, wanted), "sorts meet notes");
    }
    Ok(())
}
