use elm_base::{At, Name, NoMemory, Pattern, Spot};
use sqlite_items::{Boxed, Items};
use std::alloc::Global;
use std::test::Fail;

const AT: At = At { line: 4, column: 3 };

fn variable(alloc: Global, name: &[u8]) -> Result<Pattern, NoMemory> {
    let name = Name::of(alloc, name)?;
    Ok(Pattern::Variable { at: AT, name })
}

// `Just (x :: []) as whole`
fn sample(alloc: Global) -> Result<Pattern, NoMemory> {
    let head = Boxed::new(alloc, variable(alloc, b"x")?)?;
    let tail = Boxed::new(
        alloc,
        Pattern::List {
            at: AT,
            parts: Items::new(alloc),
        },
    )?;
    let mut parts = Items::new(alloc);
    parts.push(Pattern::Cons { at: AT, head, tail })?;
    let constructor = Name::of(alloc, b"Just")?;
    let inner = Pattern::Made {
        at: AT,
        constructor,
        parts,
    };
    let name = Spot {
        at: AT,
        name: Name::of(alloc, b"whole")?,
    };
    Ok(Pattern::Named {
        at: AT,
        inner: Boxed::new(alloc, inner)?,
        name,
    })
}

fn names(pattern: &Pattern) -> Option<(&Name, &Name, usize)> {
    let Pattern::Named { inner, name, .. } = pattern else {
        return None;
    };
    let Pattern::Made {
        constructor,
        parts,
        ..
    } = inner.get()
    else {
        return None;
    };
    Some((&name.name, constructor, parts.len()))
}

#[test]
fn a_copy_of_a_pattern_has_its_parts(rt: HostRuntime) -> Result<(), Fail> {
    let alloc = rt.alloc();
    let copied = sample(alloc)?.copy(alloc)?;
    let (whole, constructor, parts) = names(&copied).ok_or("another form")?;
    assert!(rt; whole.is(b"whole"));
    assert!(rt; constructor.is(b"Just"));
    assert_eq!(rt; parts, 1);
    Ok(())
}

#[test]
fn a_name_keeps_its_bytes(rt: HostRuntime) -> Result<(), Fail> {
    let alloc = rt.alloc();
    let name = Name::of(alloc, b"Mouse.x")?.copy(alloc)?;
    assert_eq!(rt; name.bytes(), b"Mouse.x".as_slice());
    assert!(rt; !name.is(b"Mouse.y"));
    let owned = Name::from_vec(b"show".to_vec(alloc)?);
    assert!(rt; owned.is(b"show"));
    Ok(())
}
