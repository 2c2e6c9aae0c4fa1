//! The lines on a project that is refused.
ghost use Rattle.std.specs.Prelude.{◌≡◌, ◌++◌, OnOk, OnErr, codes, decimal, ◌∷◌, []};
ghost use Rattle.std.specs.List.{flat_map};
ghost use Rattle.frame_text.specs.Lines.{spaced, words};
ghost use Rattle.frame_text.specs.Faults as spec;

use crate::lines::{end_line, push_number, push_text, push_word};
use elm_base::{FaultKind, Name, NoMemory, ProjectFault};
use std::alloc::Global;

/// Appends the line that says which fault a project has: `refused ProjectRefused MODULE LINE KIND NAME`.
pub fn write_fault(alloc: Global, fault: &ProjectFault, out: &mut Vec<u8>) -> Result<(), NoMemory>
    ensures written { OnOk result (out.new.items ≡ out.old.items ++ spec.fault_line fault.now) }
    ensures kept { OnErr result (out.new.items ≡ out.old.items) }
{
    let mut text = Vec::new(alloc);
    push_fault(fault, &mut text)?;
    out.extend_from_slice(&text)?;
    Ok(())
}

pub fn push_fault(fault: &ProjectFault, out: &mut Vec<u8>) -> Result<(), NoMemory>
    ensures { OnOk result (out.new.items ≡ out.old.items ++ spec.fault_line fault.now) }
{
    push_refused(b"ProjectRefused", out)?;
    push_place(&fault.module, fault.line, out)?;
    push_kind(fault.kind, &fault.name, out)?;
    end_line(out)
}

fn push_place(module: &Name, line: u32, out: &mut Vec<u8>) -> Result<(), NoMemory>
    ensures { OnOk result (out.new.items ≡ out.old.items
        ++ flat_map spaced («module».now ∷ decimal line ∷ [])) }
{
    push_word(module.bytes(), out)?;
    push_number(line, out)
}

fn push_kind(kind: FaultKind, name: &Name, out: &mut Vec<u8>) -> Result<(), NoMemory>
    ensures { OnOk result (out.new.items ≡ out.old.items
        ++ flat_map spaced (spec.kind_text kind ∷ spec.name_or_dash name.now ∷ [])) }
{
    push_word(kind_text(kind), out)?;
    push_word(name_or_dash(name), out)
}

/// Appends the line that says that a call on the shelf failed: `refused Shelf FILE`.
pub fn write_shelf_failure(alloc: Global, file: &Name, out: &mut Vec<u8>) -> Result<(), NoMemory>
    ensures written { OnOk result (out.new.items ≡ out.old.items ++ spec.shelf_line file.now) }
    ensures kept { OnErr result (out.new.items ≡ out.old.items) }
{
    let mut text = Vec::new(alloc);
    push_shelf_failure(file, &mut text)?;
    out.extend_from_slice(&text)?;
    Ok(())
}

pub fn push_shelf_failure(file: &Name, out: &mut Vec<u8>) -> Result<(), NoMemory>
    ensures { OnOk result (out.new.items ≡ out.old.items ++ spec.shelf_line file.now) }
{
    push_refused(b"Shelf", out)?;
    push_word(file.bytes(), out)?;
    end_line(out)
}

/// Appends the first two words of a refusal.
pub fn push_refused(name: &[u8], out: &mut Vec<u8>) -> Result<(), NoMemory>
    ensures { OnOk result (out.new.items ≡ out.old.items ++ words (codes "refused" ∷ name.now ∷ [])) }
{
    push_text(b"refused", out)?;
    push_word(name, out)
}

fn name_or_dash(name: &Name) -> &[u8]
    ensures { result.now ≡ spec.name_or_dash name.now }
{
    let bytes = name.bytes();
    if bytes.is_empty() { b"-" } else { bytes }
}

fn kind_text(kind: FaultKind) -> &'static [u8]
    ensures { result.now ≡ spec.kind_text kind }
{
    match kind {
        FaultKind::MissingModule => b"MissingModule",
        FaultKind::TooLarge => b"TooLarge",
        FaultKind::NotUtf8 => b"NotUtf8",
        FaultKind::Tab => b"Tab",
        FaultKind::BadChar => b"BadChar",
        FaultKind::OpenString => b"OpenString",
        FaultKind::OpenComment => b"OpenComment",
        FaultKind::IntTooWide => b"IntTooWide",
        FaultKind::Excluded => b"Excluded",
        FaultKind::BadHeader => b"BadHeader",
        FaultKind::BadDeclaration => b"BadDeclaration",
        FaultKind::NameMismatch => b"NameMismatch",
        FaultKind::ImportCycle => b"ImportCycle",
        FaultKind::BadFixity => b"BadFixity",
        FaultKind::Duplicate => b"Duplicate",
        FaultKind::UnknownName => b"UnknownName",
        FaultKind::Ambiguous => b"Ambiguous",
        FaultKind::NotExposed => b"NotExposed",
        FaultKind::CyclicValue => b"CyclicValue",
        FaultKind::BadType => b"BadType",
        FaultKind::BadPort => b"BadPort",
        FaultKind::IllTyped => b"IllTyped",
        FaultKind::BadMain => b"BadMain",
        FaultKind::Unsupported => b"Unsupported",
    }
}
