//! Sources, sinks and shelves over memory.
ghost use Rattle.std.specs.Prelude.{◌<◌, All, IfOk};

use crate::same;
use reactor_outside::{
    Failed, MemShelf, MemSink, MemSource, Shelf, ShelfRefusal, Source, SureShelf, SureSink,
    SureSource, put,
};
use std::alloc::{AllocError, Global};
use std::test::Fail;

// The sizes, each at least 1.
fn positive(alloc: Global, sizes: &[usize]) -> Result<Vec<usize>, AllocError>
    ensures { IfOk result (λ made. All (λ size. 0 < size) made.items) }
{
    let mut made = Vec::new(alloc);
    for size in sizes {
        made.push((*size).max(1))?;
    }
    Ok(made)
}

#[test]
fn sources_give_their_pieces(rt: HostRuntime) -> Result<(), Fail> {
    let alloc = rt.alloc();
    // The sizes of pieces, the calls that fail, and what reads of at most 4 bytes give of eight bytes.
    let rows: [(&[usize], &[u64], &[Result<usize, Failed>]); 6] = [
        (&[], &[], &[Ok(4), Ok(4), Ok(0)]),
        (&[1, 2], &[], &[Ok(1), Ok(2), Ok(4), Ok(1), Ok(0)]),
        // The rest of a piece that was cut is the next piece.
        (&[7, 1], &[], &[Ok(4), Ok(3), Ok(1), Ok(0)]),
        (&[4, 3], &[], &[Ok(4), Ok(3), Ok(1), Ok(0)]),
        (&[9], &[], &[Ok(4), Ok(4), Ok(0), Ok(0)]),
        // A call that fails cuts no piece.
        (
            &[5, 2],
            &[1, 3],
            &[Err(Failed), Ok(4), Err(Failed), Ok(1), Ok(2), Ok(1), Ok(0)],
        ),
    ];
    for (sizes, failing, wanted) in rows {
        let pieces = positive(alloc, sizes)?;
        let bytes = b"abcdefgh".to_vec(alloc)?;
        let mut source = MemSource::new(bytes, pieces, failing.to_vec(alloc)?);
        let mut whole = Vec::new(alloc);
        for answer in wanted {
            let mut into = [0u8; 4];
            let read = source.read(&mut into);
            same(&rt, read, *answer, "a piece");
            whole.extend_from_slice(&into[..read.unwrap_or(0).min(4)])?;
        }
        same(&rt, whole.as_slice(), b"abcdefgh".as_slice(), "all");
    }
    Ok(())
}

#[test]
fn a_source_never_fails(rt: HostRuntime) -> Result<(), Fail> {
    let alloc = rt.alloc();
    let mut input = [0u8; 4];
    let mut sure = SureSource::new(b"abcdef".to_vec(alloc)?, positive(alloc, &[5])?);
    for (wanted, first) in [(4, b'a'), (1, b'e'), (1, b'f'), (0, b'f')] {
        let read = sure.read(&mut input);
        same(&rt, read, Ok(wanted), "a piece");
        same(&rt, input[0], first, "its first byte");
    }
    Ok(())
}

#[test]
fn a_source_repeats_a_text(rt: HostRuntime) -> Result<(), Fail> {
    let alloc = rt.alloc();
    let mut input = [0u8; 4];
    let mut repeating = MemSource::repeating(b"ab".to_vec(alloc)?, 5, vec![in alloc; 2]?);
    for wanted in [Ok(2), Err(Failed), Ok(2), Ok(1), Ok(0)] {
        let read = repeating.read(&mut input);
        same(&rt, read, wanted, "a piece");
    }
    Ok(())
}

#[test]
fn sinks_take_bytes(rt: HostRuntime) -> Result<(), Fail> {
    let alloc = rt.alloc();
    let mut sink = MemSink::new(alloc, vec![in alloc; 2]?);
    for (bytes, wanted) in [("abc", Ok(())), ("de", Err(Failed)), ("fg", Ok(()))] {
        let written = put(&mut sink, bytes.as_bytes());
        same(&rt, written, wanted, bytes);
    }
    same(&rt, sink.bytes(), b"abcfg".as_slice(), "all");
    let written = put(&mut SureSink::new(), b"abc");
    same(&rt, written, Ok(()), "sure");
    Ok(())
}

#[test]
fn shelves_keep_files(rt: HostRuntime) -> Result<(), Fail> {
    let alloc = rt.alloc();
    let mut shelf = MemShelf::new(alloc, vec![in alloc; 3, 6]?);
    shelf.add("a/b", b"text")?;
    let text = shelf.read(alloc, "a/b", 4).ok().ok_or("no file")?;
    same(&rt, text.as_slice(), b"text".as_slice(), "a/b");
    let refused = [
        ("a/b", 3, ShelfRefusal::TooLong),
        ("a/b", 4, ShelfRefusal::Failed),
        ("a", 4, ShelfRefusal::Missing),
    ];
    for (name, limit, refusal) in refused {
        let found = shelf.read(alloc, name, limit).err();
        same(&rt, found, Some(refusal), name);
    }
    let rows: [(&[u8], Result<(), ShelfRefusal>, &[u8]); 3] = [
        (b"newer", Ok(()), b"newer"),
        (b"lost", Err(ShelfRefusal::Failed), b"newer"),
        (b"new", Ok(()), b"new"),
    ];
    for (bytes, answer, kept) in rows {
        let found = shelf.write("c", bytes);
        same(&rt, found, answer, "c");
        same(&rt, shelf.file("c"), Some(kept), "c");
    }
    same(&rt, shelf.file("a"), None, "a");
    Ok(())
}

#[test]
fn sure_shelves_keep_files(rt: HostRuntime) -> Result<(), Fail> {
    let alloc = rt.alloc();
    let mut shelf = SureShelf::new(alloc);
    shelf.add("a", b"one")?;
    let written = shelf.write("a", b"two");
    same(&rt, written, Ok(()), "written");
    same(&rt, shelf.file("a"), Some(b"two".as_slice()), "kept");
    let missing = shelf.read(alloc, "b", 9).err();
    same(&rt, missing, Some(ShelfRefusal::Missing), "missing");
    Ok(())
}
