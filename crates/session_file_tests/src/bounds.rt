//! The file of three clicks with its fronts, and the bounds of a session from both sides.
use crate::rewriting::{outcome, rewritten};
use crate::rows::Seen;
use elm_base::NoMemory;
use std::alloc::Global;
use std::test::Fail;

/// The file of three clicks: 122 bytes.
const CLICKS: &str =
    "{\"cursor\":3,\"events\":[[0,\"()\"],[0,\"()\"],[0,\"()\"]],\"format\":\"reactor-session\",\"inputs\":[[\"Mouse.clicks\",\"()\"]],\"version\":1}";

/// The same session with its keys in another order, spaces, and a value written otherwise.
const OTHER_CLICKS: &str =
    " {\"version\":1, \"inputs\":[[\"Mouse.clicks\",\"()\"]],\n\"events\":[[0,\"()\"],[0,\"( )\"],[0,\"(())\"]],\"format\":\"reactor-session\",\"cursor\":3}\n";

#[test]
fn clicks_are_written_in_122_bytes(rt: HostRuntime) -> Result<(), Fail> {
    let text = rewritten(rt.alloc(), OTHER_CLICKS.as_bytes())?;
    assert_eq!(rt; text.len(), 122);
    assert!(rt; text.as_slice() == CLICKS.as_bytes());
    assert!(rt; rewritten(rt.alloc(), CLICKS.as_bytes())?.as_slice() == CLICKS.as_bytes());
    Ok(())
}

/// How long the first front is that is a session.
fn first_session(alloc: Global, bytes: &[u8]) -> Result<usize, NoMemory> {
    for len in 0..bytes.len() {
        if outcome(alloc, &bytes[..len])? != Seen::Bad {
            return Ok(len);
        }
    }
    Ok(bytes.len())
}

#[test]
fn no_proper_front_of_a_session_is_one(rt: HostRuntime) -> Result<(), Fail> {
    assert_eq!(rt; first_session(rt.alloc(), CLICKS.as_bytes())?, 122);
    assert_eq!(rt;
        outcome(rt.alloc(), CLICKS.as_bytes())?,
        Seen::Session(3, 3)
    );
    Ok(())
}

fn push_times(out: &mut Vec<u8>, text: &[u8], count: usize) -> Result<(), NoMemory> {
    for _ in 0..count {
        out.extend_from_slice(text)?;
    }
    Ok(())
}

/// An empty session whose cursor stands twice, first as so many lists in one another.
fn nested(alloc: Global, lists: usize) -> Result<Vec<u8>, NoMemory> {
    let mut out = Vec::new(alloc);
    out.extend_from_slice(b"{\"cursor\":")?;
    push_times(&mut out, b"[", lists)?;
    push_times(&mut out, b"]", lists)?;
    out.extend_from_slice(
        b",\"cursor\":0,\"events\":[],\"format\":\"reactor-session\",\"inputs\":[],\"version\":1}",
    )?;
    Ok(out)
}

#[test]
fn a_text_nests_127_deep(rt: HostRuntime) -> Result<(), Fail> {
    assert_eq!(rt;
        outcome(rt.alloc(), &nested(rt.alloc(), 126)?)?,
        Seen::Session(0, 0)
    );
    assert_eq!(rt; outcome(rt.alloc(), &nested(rt.alloc(), 127)?)?, Seen::Bad);
    Ok(())
}

/// A session with one event of an input whose name has so many bytes.
fn named(alloc: Global, bytes: usize) -> Result<Vec<u8>, NoMemory> {
    let mut out = Vec::new(alloc);
    out.extend_from_slice(
        b"{\"cursor\":0,\"events\":[[0,\"5\"]],\"format\":\"reactor-session\",\"inputs\":[[\"",
    )?;
    push_times(&mut out, b"x", bytes)?;
    out.extend_from_slice(b"\",\"Int\"]],\"version\":1}")?;
    Ok(out)
}

#[test]
fn a_name_has_255_bytes(rt: HostRuntime) -> Result<(), Fail> {
    assert_eq!(rt;
        outcome(rt.alloc(), &named(rt.alloc(), 255)?)?,
        Seen::Session(0, 1)
    );
    assert_eq!(rt; outcome(rt.alloc(), &named(rt.alloc(), 256)?)?, Seen::Bad);
    Ok(())
}

/// Appends so many items, with commas between them.
fn push_items(out: &mut Vec<u8>, count: u64, before: &[u8], after: &[u8]) -> Result<(), NoMemory> {
    let mut buffer = itoa::Buffer::new();
    for number in 0..count {
        if number > 0 {
            out.push(b',')?;
        }
        out.extend_from_slice(before)?;
        out.extend_from_slice(buffer.format(number).as_bytes())?;
        out.extend_from_slice(after)?;
    }
    Ok(())
}

/// A session of so many inputs, each used once.
fn of_inputs(alloc: Global, count: u64) -> Result<Vec<u8>, NoMemory> {
    let mut out = Vec::new(alloc);
    out.extend_from_slice(b"{\"cursor\":0,\"events\":[")?;
    push_items(&mut out, count, b"[", b",\"5\"]")?;
    out.extend_from_slice(b"],\"format\":\"reactor-session\",\"inputs\":[")?;
    push_items(&mut out, count, b"[\"p", b"\",\"Int\"]")?;
    out.extend_from_slice(b"],\"version\":1}")?;
    Ok(out)
}

#[test]
fn there_are_261_inputs(rt: HostRuntime) -> Result<(), Fail> {
    let most = of_inputs(rt.alloc(), 261)?;
    assert_eq!(rt; outcome(rt.alloc(), &most)?, Seen::Session(0, 261));
    assert!(rt; rewritten(rt.alloc(), &most)? == most);
    assert_eq!(rt;
        outcome(rt.alloc(), &of_inputs(rt.alloc(), 262)?)?,
        Seen::Bad
    );
    Ok(())
}

/// A session of so many deliveries.
fn of_deliveries(alloc: Global, count: u64) -> Result<Vec<u8>, NoMemory> {
    let mut out = Vec::new(alloc);
    out.extend_from_slice(b"{\"cursor\":0,\"events\":[")?;
    push_items(&mut out, count, b"[", b"]")?;
    out.extend_from_slice(b"],\"format\":\"reactor-session\",\"inputs\":[],\"version\":1}")?;
    Ok(out)
}

#[test]
fn there_are_1_000_000_events(rt: HostRuntime) -> Result<(), Fail> {
    let most = of_deliveries(rt.alloc(), 1_000_000)?;
    assert!(rt; rewritten(rt.alloc(), &most)? == most);
    assert_eq!(rt;
        outcome(rt.alloc(), &of_deliveries(rt.alloc(), 1_000_001)?)?,
        Seen::Bad
    );
    Ok(())
}

/// A session of one text of so many bytes.
fn of_text(alloc: Global, bytes: usize) -> Result<Vec<u8>, NoMemory> {
    let mut out = Vec::new(alloc);
    out.extend_from_slice(b"{\"cursor\":0,\"events\":[[0,\"\\\"")?;
    push_times(&mut out, b"x", bytes)?;
    out.extend_from_slice(
        b"\\\"\"]],\"format\":\"reactor-session\",\"inputs\":[[\"p\",\"String\"]],\"version\":1}",
    )?;
    Ok(out)
}

#[test]
fn printed_values_have_16_777_216_bytes(rt: HostRuntime) -> Result<(), Fail> {
    let most = of_text(rt.alloc(), 16_777_214)?;
    assert!(rt; rewritten(rt.alloc(), &most)? == most);
    assert_eq!(rt;
        outcome(rt.alloc(), &of_text(rt.alloc(), 16_777_215)?)?,
        Seen::Bad
    );
    Ok(())
}

/// The file of three clicks with so many spaces behind it.
fn spaced(alloc: Global, bytes: usize) -> Result<Vec<u8>, NoMemory> {
    let mut out = Vec::with_capacity(alloc, bytes)?;
    out.extend_from_slice(CLICKS.as_bytes())?;
    out.resize(bytes, b' ')?;
    Ok(out)
}

#[test]
fn a_session_has_134_217_728_bytes(rt: HostRuntime) -> Result<(), Fail> {
    let most = spaced(rt.alloc(), 134_217_728)?;
    assert_eq!(rt; outcome(rt.alloc(), &most)?, Seen::Session(3, 3));
    assert_eq!(rt;
        outcome(rt.alloc(), &spaced(rt.alloc(), 134_217_729)?)?,
        Seen::Bad
    );
    Ok(())
}
