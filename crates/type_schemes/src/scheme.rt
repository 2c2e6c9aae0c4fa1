//! Schemes, and their copies.

ghost use Rattle.std.specs.Prelude.{◌≡◌, IfOk, OnOk};
ghost use Rattle.type_conditions.specs.Judging.{Adds, KeepsTails};
ghost use Rattle.type_schemes.specs.Schemes.{Outline, IsClosed, HasScheme};

use crate::copying::{copy_notes, copy_parts};
use crate::part::Part;
use elm_base::NoMemory;
use sqlite_items::Items;
use std::alloc::Global;
use std::marker::Model;
use type_conditions::Conditions;
use type_terms::TermId;

/// A set of types, told by nothing but itself: types that are made of those before them, notes that the sort of the one
/// is at most that of another, and which of them is the type of the set.
#[derive(Drop)]
pub struct Scheme {
    parts: Items<Part>,
    notes: Items<(TermId, TermId)>,
    root: TermId,
}

impl Model for Scheme {
    ghost use Rattle.type_schemes.specs.Schemes.{Outline, IsClosed};

    ghost Value = { Outline };

    ghost view = { λ scheme.
        record { parts = scheme.parts; notes = scheme.notes; root = scheme.root } };

    ghost invariant = { λ scheme.
        IsClosed (record { parts = scheme.parts; notes = scheme.notes; root = scheme.root }) };
}

impl Scheme {
    /// The scheme of these parts and notes, whose types are those of the part `root`.
    pub fn new(parts: Items<Part>, notes: Items<(TermId, TermId)>, root: TermId) -> Scheme
        requires { IsClosed (record { parts = parts; notes = notes; root = root }) }
        ensures { result ≡ record { parts = parts; notes = notes; root = root } }
    {
        Scheme { parts, notes, root }
    }

    /// A new term for a type of the scheme. Each call makes a copy of its own, so that two uses of a name may have
    /// different types.
    pub fn instance(&self, alloc: Global, conditions: &mut Conditions) -> Result<TermId, NoMemory>
        ensures adds { IfOk result (Adds conditions.old conditions.new
            (λ chosen s type. HasScheme chosen self.now type)) }
        ensures tails { OnOk result (KeepsTails conditions.old conditions.new) }
    {
        let table = copy_parts(alloc, self.parts.as_slice(), conditions)?;
        copy_notes(self.notes.as_slice(), table.as_slice(), conditions)?;
        Ok(table.as_slice()[self.root as usize].at)
    }
}
