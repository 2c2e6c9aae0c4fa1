//! Uses and faults as short texts.
use elm_base::{FaultKind, Name, Thing};
use module_names::{Answer, Flaw, Use};
use std::alloc::AllocError;
use std::fmt::Write;
use std::str;

fn put_name(text: &mut String, name: &Name) -> Result<(), AllocError> {
    text.push_str(str::from_utf8(name.bytes()).unwrap_or("?"))
}

fn put_of(text: &mut String, module: &Name, name: &Name, mark: &str) -> Result<(), AllocError> {
    put_name(text, module)?;
    text.push_str(".")?;
    put_name(text, name)?;
    text.push_str(mark)
}

fn put_thing(text: &mut String, thing: &Thing) -> Result<(), AllocError> {
    match thing {
        Thing::Local { binder } => {
            let line = binder.line;
            let column = binder.column;
            write!(text, "{line}:{column}")?;
            Ok(())
        }
        Thing::Top { module, name } => put_of(text, module, name, ""),
        Thing::Constructor { module, name } => put_of(text, module, name, "!"),
        Thing::Maker { module, name } => put_of(text, module, name, "#"),
    }
}

/// Each name and what it stands for, `?` where that is nothing and `??` where it isn't one thing.
fn put_uses(text: &mut String, uses: &[Use]) -> Result<(), AllocError> {
    for used in uses {
        put_name(text, &used.spot.name)?;
        text.push_str("=")?;
        match &used.answer {
            Answer::Stands { thing } => put_thing(text, thing)?,
            Answer::Unknown => text.push_str("?")?,
            Answer::Ambiguous => text.push_str("??")?,
        }
        text.push_str(" ")?;
    }
    Ok(())
}

fn kind_text(kind: FaultKind) -> &'static str {
    match kind {
        FaultKind::Duplicate => "Duplicate",
        FaultKind::UnknownName => "UnknownName",
        FaultKind::Ambiguous => "Ambiguous",
        FaultKind::NotExposed => "NotExposed",
        _ => "other",
    }
}

/// Each fault with its line, its kind and its name.
fn put_flaws(text: &mut String, flaws: &[Flaw]) -> Result<(), AllocError> {
    for flaw in flaws {
        let line = flaw.at.line;
        write!(text, "{line} ")?;
        text.push_str(kind_text(flaw.kind))?;
        text.push_str(" ")?;
        put_name(text, &flaw.name)?;
        text.push_str(";")?;
    }
    Ok(())
}

/// Writes the uses, and behind a bar the faults.
pub fn put_named(text: &mut String, uses: &[Use], flaws: &[Flaw]) -> Result<(), AllocError> {
    put_uses(text, uses)?;
    text.push_str("| ")?;
    put_flaws(text, flaws)
}
