//! Conditions, as they are added one by one.

ghost use Rattle.std.specs.Prelude.{◌≡◌, IfOk, OnOk, OnErr, Ok, true, false, length};
ghost use Rattle.elm_typing.specs.Flags.{HasFlag};
ghost use Rattle.type_terms.specs.Depth.{AreNotesBelow, IsStored};
ghost use Rattle.type_terms.specs.Solutions.{Fits};
ghost use Rattle.type_terms.specs.Terms.{parts, terms_of, Each};
ghost use Rattle.type_unify.specs.Kept.{HasNoRest};
ghost use Rattle.type_unify.specs.Refused.{OnRefusal};
ghost use Rattle.type_unify.specs.Rests.{IsType};
ghost use Rattle.type_unify.specs.Steps.{IsTail};
ghost use Rattle.type_conditions.specs.Conditions.{Asked, Excludes, IsSatisfiable, noted_in, nothing_asked, terms_in, with_made};
ghost use Rattle.type_conditions.specs.Judging.{Adds, AreEqual, Fixes, Grows, HasFields, IsBelow, IsWell, KeepsTails, Opens, Restricts};
ghost use Rattle.type_conditions.specs.Marking.{Marks};

use crate::decide::are_satisfiable;
use elm_base::{Halt, Name, NoMemory};
use sqlite_items::Items;
use std::alloc::Global;
use std::marker::Model;
use type_terms::{Flag, NoSolution, Shape, StoreMark, TermId};
use type_unify::{Tail, Types};

/// A moment of conditions, to go back to.
#[derive(Clone, Copy, Debug)]
pub struct ConditionsMark {
    types: StoreMark,
    proper: usize,
}

impl Model for ConditionsMark {
    ghost use Rattle.type_conditions.specs.Marking.{Moment};

    ghost Value = { Moment };

    ghost view = { λ mark. record { states = mark.types; proper = mark.proper } };

    ghost inverse = { λ moment. record { types = moment.states; proper = moment.proper } };
}

/// What is asked of types: terms for types with equations between them, flags, notes that the sort of one type is at most
/// that of another, and that the types of some terms are well sorted. Contracts see the store's states and these terms.
#[derive(Drop)]
pub struct Conditions {
    types: Types,
    proper: Vec<TermId>,
}

impl Model for Conditions {
    ghost use Rattle.type_terms.specs.Terms.{Each, nodes_of};
    ghost use Rattle.type_unify.specs.Rests.{IsType};
    ghost use Rattle.type_conditions.specs.Conditions.{Asked};

    ghost Value = { Asked };

    ghost view = { λ conditions.
        record { states = conditions.types; proper = conditions.proper.items } };

    ghost invariant = { λ conditions.
        Each (IsType (nodes_of conditions.types)) conditions.proper.items };
}

impl Conditions {
    /// Nothing is asked.
    pub fn new(alloc: Global) -> Result<Conditions, NoMemory>
        ensures { IfOk result (λ conditions. conditions ≡ nothing_asked) }
    {
        let types = Types::new(alloc)?;
        Ok(Conditions {
            types,
            proper: Vec::new(alloc),
        })
    }

    // What stands in the store stands there, and terms that are to be well sorted are types. It does nothing: it tells
    // what each value of this type keeps.
    fn stays_sound(&self)
        ensures sound { IsStored self.now.states }
        ensures notes { AreNotesBelow (length (terms_in self.now)) (noted_in self.now) }
        ensures proper { Each (IsType (terms_in self.now)) self.now.proper }
    {
        let _proper = &self.proper;
        let store = self.types.store();
        store.stays_sound();
        let _notes = store.notes();
    }

    /// A new term for a type of this shape, which has no rest of a row. Its type is to be well sorted.
    pub fn make(&mut self, shape: Shape) -> Result<TermId, NoMemory>
        requires parts { Each (IsType (terms_in self.old)) (parts shape) }
        requires no_rest { HasNoRest shape }
        ensures adds { IfOk result (Adds self.old self.new
            (λ chosen s type. IsWell chosen type × Fits ⊥ s type shape)) }
        ensures tails { OnOk result (KeepsTails self.old self.new) }
        ensures place { IfOk result (λ at. at ≡ length (terms_in self.old)) }
        ensures state { OnOk result (self.new ≡ with_made shape self.old) }
    {
        self.stays_sound();
        let at = self.types.make_type(shape)?;
        self.proper.push(at)?;
        Ok(at)
    }

    /// A new term for any type that has the flag. Its type is to be well sorted.
    pub fn variable(&mut self, flag: Flag) -> Result<TermId, NoMemory>
        ensures adds { IfOk result (Adds self.old self.new
            (λ chosen s type. IsWell chosen type × HasFlag flag type)) }
        ensures tails { OnOk result (KeepsTails self.old self.new) }
    {
        self.make(Shape::Variable { flag })
    }

    /// A new term for a record of these fields, of one label the newest first, over the row that the tail ends. Its type is
    /// to be well sorted.
    pub fn make_row(
        &mut self,
        fields: Items<(Name, TermId)>,
        tail: Tail,
    ) -> Result<TermId, NoMemory>
        requires types { Each (IsType (terms_in self.old)) (terms_of fields) }
        requires tail { IsTail (terms_in self.old) tail }
        ensures adds { IfOk result (Adds self.old self.new (HasFields fields tail)) }
        ensures tails { OnOk result (KeepsTails self.old self.new) }
    {
        self.stays_sound();
        let at = self.types.make_row(fields, tail)?;
        self.proper.push(at)?;
        Ok(at)
    }

    /// A new tail, which may end any row.
    pub fn make_rest(&mut self, alloc: Global) -> Result<Tail, NoMemory>
        ensures { IfOk result (Opens self.old self.new) }
    {
        self.stays_sound();
        let tail = self.types.make_rest(alloc)?;
        self.types.store().stays_sound();
        Ok(tail)
    }

    /// A new tail, which is the opaque rest of this number.
    pub fn make_rigid_rest(&mut self, alloc: Global, number: u32) -> Result<Tail, NoMemory>
        ensures { IfOk result (Fixes self.old self.new number) }
    {
        self.stays_sound();
        let tail = self.types.make_rigid_rest(alloc, number)?;
        self.types.store().stays_sound();
        Ok(tail)
    }

    /// Two types are to be equal. Refused only where none that satisfy the conditions are; where it isn't, notes on sorts
    /// may still leave none.
    pub fn equate(&mut self, alloc: Global, a: TermId, b: TermId) -> Result<(), Halt<NoSolution>>
        requires first { IsType (terms_in self.old) a }
        requires second { IsType (terms_in self.old) b }
        ensures restricts { OnOk result (Restricts self.old self.new (AreEqual a b)) }
        ensures refused { OnRefusal result (Excludes self.old (AreEqual a b)) }
        ensures unchanged { OnErr result (self.new ≡ self.old) }
    {
        self.stays_sound();
        self.types.unify(alloc, a, b)
    }

    /// The sort of `a` is to be at most that of `b`.
    pub fn at_most(&mut self, a: TermId, b: TermId) -> Result<(), NoMemory>
        requires below { IsType (terms_in self.old) a }
        requires above { IsType (terms_in self.old) b }
        ensures restricts { OnOk result (Restricts self.old self.new (IsBelow a b)) }
        ensures tails { OnOk result (KeepsTails self.old self.new) }
    {
        self.stays_sound();
        self.types.sort_below(a, b)
    }

    /// Whether any types, with any sorts of opaque types without flag, satisfy the conditions.
    pub fn are_satisfiable(&mut self, alloc: Global) -> Result<bool, NoMemory>
        ensures yes { result ≡ Ok true → IsSatisfiable self.old }
        ensures no { result ≡ Ok false → IsSatisfiable self.old → ⊥ }
        ensures same { self.new ≡ self.old }
    {
        self.stays_sound();
        let mark = self.types.mark();
        let answer = are_satisfiable(alloc, &mut self.types, self.proper.as_slice());
        self.types.undo(mark);
        answer
    }

    /// The store with the terms, the equations between them, and the notes.
    pub fn types(&self) -> &Types
        ensures { result.now ≡ self.now.states }
    {
        &self.types
    }

    /// The terms whose types are to be well sorted.
    pub fn proper(&self) -> &[TermId]
        ensures terms { result.now ≡ self.now.proper }
        ensures types { Each (IsType (terms_in self.now)) self.now.proper }
    {
        self.stays_sound();
        self.proper.as_slice()
    }

    /// The present moment, to go back to.
    pub fn mark(&self) -> ConditionsMark
        ensures { Marks result self.now }
    {
        self.stays_sound();
        ConditionsMark {
            types: self.types.mark(),
            proper: self.proper.len(),
        }
    }

    /// Takes back all that was asked since the mark.
    pub fn undo(&mut self, mark: ConditionsMark)
        requires { (asked : Asked) × Marks mark asked × Grows asked self.old }
        ensures { (asked : Asked) → Marks mark asked → Grows asked self.old → self.new ≡ asked }
    {
        self.types.undo(mark.types);
        self.proper.truncate(mark.proper);
    }
}
