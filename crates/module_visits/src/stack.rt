//! The visits under way, the newest first.
ghost use Rattle.std.specs.Prelude.{◌≡◌, [], ◌∷◌, length, bytes_eq, OnOk, MatchOption};
ghost use Rattle.module_visits.specs.Stack.{modules, has_visit as is_visited, visits_of};
ghost use Rattle.module_visits.specs.Visits.{is_among as has_name};

use elm_base::Module;
use sqlite_items::Items;
use std::alloc::{AllocError, Global};

/// A visit under way: its module, and how many of its imports are done.
#[derive(Drop)]
pub struct Visit {
    pub module: Module,
    pub next: usize,
}

/// The visits under way. The newest is the last of the list.
#[derive(Drop)]
pub struct Stack {
    visits: Items<Visit>,
}

fn is_named(module: &Module, name: &[u8]) -> bool
    ensures { result ≡ bytes_eq «module».now.name name.now }
{
    module.name.bytes() == name
}

/// Whether one of the modules has the name.
pub fn is_among(modules: &[Module], name: &[u8]) -> bool
    ensures { result ≡ has_name modules.now name.now }
{
    for found in modules {
        if is_named(found, name) {
            return true;
        }
    }
    false
}

fn has_visit(visits: &[Visit], name: &[u8]) -> bool
    ensures { result ≡ is_visited visits.now name.now }
{
    for visit in visits {
        if is_named(&visit.module, name) {
            return true;
        }
    }
    false
}

impl Stack {
    pub fn new(alloc: Global) -> Stack
        ensures { visits_of result ≡ [] }
    {
        Stack {
            visits: Items::new(alloc),
        }
    }

    pub fn len(&self) -> usize
        ensures { result ≡ length (visits_of self.now) }
    {
        self.visits.len()
    }

    /// Whether the visit of a module of this name is under way.
    #[tactic(auto, using(crate::proofs::Newest::found_in_all))]
    pub fn holds(&self, name: &[u8]) -> bool
        ensures { result ≡ has_name (modules (visits_of self.now)) name.now }
    {
        has_visit(self.visits.as_slice(), name)
    }

    /// Puts a visit above the others.
    #[tactic(auto, using(crate::proofs::Newest::visits_with))]
    pub fn push(&mut self, module: Module, next: usize) -> Result<(), AllocError>
        ensures { OnOk result (visits_of self.new
            ≡ record { «module» = «module»; next = next } ∷ visits_of self.old) }
    {
        self.visits.push(Visit { module, next })?;
        Ok(())
    }

    /// Takes the newest visit off.
    #[tactic(auto, using(crate::proofs::Newest::visits_with))]
    pub fn pop(&mut self) -> Option<Visit>
        ensures { MatchOption result ((visits_of self.old ≡ []) × (visits_of self.new ≡ []))
            (λ visit. visits_of self.old ≡ visit ∷ visits_of self.new) }
    {
        match self.visits.pop() {
            Some(visit) => Some(visit),
            None => None,
        }
    }
}
