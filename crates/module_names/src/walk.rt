//! What the names that are used stand for, as the steps of a module are gone through.
ghost use Rattle.std.specs.Prelude.{◌≡◌, ◌++◌, OnOk, IfOk, map};
ghost use Rattle.module_names.specs.Lookup.{scope_of};
ghost use Rattle.module_names.specs.Walks as spec;

use crate::found::Answer;
use crate::lookup::{Scope, name_at};
use elm_base::{NoMemory, Spot};
use name_steps::Step;
use sqlite_items::Items;
use std::alloc::Global;
use std::marker::Model;

/// A name where it is used, and what it stands for there.
#[derive(Drop)]
pub struct Use {
    pub spot: Spot,
    pub answer: Answer,
}

/// What is bound where the steps have come to, how much was bound when each open scope opened, and the uses so far.
#[derive(Drop)]
pub struct Walk {
    locals: Vec<Spot>,
    opened: Vec<usize>,
    uses: Items<Use>,
}

impl Model for Walk {
    ghost use Rattle.module_names.specs.Walks.{State};

    ghost Value = { State };

    ghost view = { λ walk. record { locals = walk.locals.items; opened = walk.opened.items; uses = walk.uses } };
}

impl Walk {
    pub fn new(alloc: Global) -> Walk
        ensures { result ≡ spec.start }
    {
        Walk {
            locals: Vec::new(alloc),
            opened: Vec::new(alloc),
            uses: Items::new(alloc),
        }
    }

    pub fn into_uses(self) -> Items<Use>
        ensures { result ≡ self.uses }
    {
        let Walk { uses, .. } = self;
        uses
    }

    fn open(&mut self) -> Result<(), NoMemory>
        ensures { OnOk result (self.new ≡ spec.opens self.old) }
    {
        let count = self.locals.len();
        self.opened.push(count)?;
        Ok(())
    }

    fn close(&mut self)
        ensures { self.new ≡ spec.closes self.old }
    {
        let count = self.opened.pop().unwrap_or(0);
        self.locals.truncate(count);
    }

    fn bind(&mut self, alloc: Global, spots: &[Spot]) -> Result<(), NoMemory>
        ensures { OnOk result (self.new ≡ spec.binds spots.now self.old) }
    {
        push_spots(alloc, spots, &mut self.locals)
    }

    fn add(&mut self, alloc: Global, scope: &Scope<'_>, spots: &[Spot]) -> Result<(), NoMemory>
        ensures { OnOk result (self.new ≡ spec.adds (scope_of scope.now) spots.now self.old) }
    {
        push_uses(alloc, scope, self.locals.as_slice(), spots, &mut self.uses)
    }

    fn step(&mut self, alloc: Global, scope: &Scope<'_>, step: &Step) -> Result<(), NoMemory>
        ensures { OnOk result (self.new ≡ spec.goes (scope_of scope.now) self.old step.now) }
    {
        match step {
            Step::Opens => self.open(),
            Step::Closes => {
                self.close();
                Ok(())
            }
            Step::Binds { spots } => self.bind(alloc, spots.as_slice()),
            Step::Uses { spots } => self.add(alloc, scope, spots.as_slice()),
            Step::Labels { .. } | Step::Block { .. } => Ok(()),
        }
    }

    /// Goes through the steps.
    pub fn walk(&mut self, alloc: Global, scope: &Scope<'_>, steps: &[Step]) -> Result<(), NoMemory>
        ensures { OnOk result (self.new ≡ spec.walked (scope_of scope.now) self.old steps.now) }
    {
        for step in steps {
            self.step(alloc, scope, step)?;
        }
        Ok(())
    }
}

fn push_spots(alloc: Global, spots: &[Spot], out: &mut Vec<Spot>) -> Result<(), NoMemory>
    ensures { OnOk result (out.new.items ≡ out.old.items ++ spots.now) }
{
    for spot in spots {
        out.push(spot.copy(alloc)?)?;
    }
    Ok(())
}

fn use_of(alloc: Global, scope: &Scope<'_>, locals: &[Spot], spot: &Spot) -> Result<Use, NoMemory>
    ensures { IfOk result (λ given. given ≡ spec.use_of (scope_of scope.now) locals.now spot.now) }
{
    let answer = name_at(alloc, scope, locals, spot.name.bytes())?;
    let spot = spot.copy(alloc)?;
    Ok(Use { spot, answer })
}

fn push_uses(
    alloc: Global,
    scope: &Scope<'_>,
    locals: &[Spot],
    spots: &[Spot],
    out: &mut Items<Use>,
) -> Result<(), NoMemory>
    ensures { OnOk result (out.new ≡ out.old
        ++ map (spec.use_of (scope_of scope.now) locals.now) spots.now) }
{
    for spot in spots {
        out.push(use_of(alloc, scope, locals, spot)?)?;
    }
    Ok(())
}
