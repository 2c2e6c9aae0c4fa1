//! Faults, groups and meanings as short texts.
use elm_base::{At, FaultKind, Group, Meaning, Name, ProjectFault, Thing};
use std::alloc::AllocError;
use std::fmt::Write;
use std::str;

fn put_name(text: &mut String, name: &Name) -> Result<(), AllocError> {
    text.push_str(str::from_utf8(name.bytes()).unwrap_or("?"))
}

fn put_place(text: &mut String, at: At) -> Result<(), AllocError> {
    let line = at.line;
    let column = at.column;
    write!(text, "{line}:{column}")?;
    Ok(())
}

fn kind_text(kind: FaultKind) -> &'static str {
    match kind {
        FaultKind::Duplicate => "Duplicate",
        FaultKind::UnknownName => "UnknownName",
        FaultKind::Ambiguous => "Ambiguous",
        FaultKind::NotExposed => "NotExposed",
        FaultKind::CyclicValue => "CyclicValue",
        _ => "other",
    }
}

/// The module, the line, the kind and the name, `-` where there is none.
pub fn put_fault(text: &mut String, fault: &ProjectFault) -> Result<(), AllocError> {
    put_name(text, &fault.module)?;
    let line = fault.line;
    write!(text, " {line} ")?;
    text.push_str(kind_text(fault.kind))?;
    text.push_str(" ")?;
    if fault.name.bytes().is_empty() {
        return text.push_str("-");
    }
    put_name(text, &fault.name)
}

fn put_of(text: &mut String, module: &Name, name: &Name, mark: &str) -> Result<(), AllocError> {
    put_name(text, module)?;
    text.push_str(".")?;
    put_name(text, name)?;
    text.push_str(mark)
}

/// A local by its place, other names by their module; `!` marks a constructor, `#` a maker.
fn put_thing(text: &mut String, thing: &Thing) -> Result<(), AllocError> {
    match thing {
        Thing::Local { binder } => put_place(text, *binder),
        Thing::Top { module, name } => put_of(text, module, name, ""),
        Thing::Constructor { module, name } => put_of(text, module, name, "!"),
        Thing::Maker { module, name } => put_of(text, module, name, "#"),
    }
}

/// Each group: its module, the place of its block, and those of its members.
pub fn put_groups(text: &mut String, groups: &[Group]) -> Result<(), AllocError> {
    for group in groups {
        put_name(text, &group.module)?;
        text.push_str(" ")?;
        put_place(text, group.block)?;
        for member in group.members.as_slice() {
            text.push_str(" ")?;
            put_place(text, *member)?;
        }
        text.push_str("; ")?;
    }
    Ok(())
}

/// Each meaning: its module, the place of the name, and what it stands for.
pub fn put_meanings(text: &mut String, meanings: &[Meaning]) -> Result<(), AllocError> {
    for meaning in meanings {
        put_name(text, &meaning.module)?;
        text.push_str(" ")?;
        put_place(text, meaning.at)?;
        text.push_str("=")?;
        put_thing(text, &meaning.thing)?;
        text.push_str("; ")?;
    }
    Ok(())
}
