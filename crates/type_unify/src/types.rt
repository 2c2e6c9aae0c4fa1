//! Types that keep rests of rows apart from other types.

ghost use Rattle.std.specs.Prelude.{◌≡◌, ℕ, ◌-◌, ◌<◌, ◌≤◌, [], ◌∷◌, Some, length, drop, IfOk, OnOk, OnErr};
ghost use Rattle.elm_typing.specs.declared.flag.Flag.TheVariants.{Plain};
ghost use Rattle.type_terms.specs.declared.shape.Shape.TheVariants as shape;
ghost use Rattle.type_terms.specs.Depth.{IsStored};
ghost use Rattle.type_terms.specs.Solutions.{IsSolvable, Never};
ghost use Rattle.type_terms.specs.Terms.{nodes_of, with_term, with_note, parts, terms_of, Each};
ghost use Rattle.type_unify.specs.declared.rows.Tail.TheVariants.{Open, Rigid};
ghost use Rattle.type_unify.specs.Grown.{IsGrown};
ghost use Rattle.type_unify.specs.Kept.{Keeps, HasNoRest, IsPlainLeaf, with_rest};
ghost use Rattle.type_unify.specs.Refused.{OnRefusal};
ghost use Rattle.type_unify.specs.Rests.{RestsApart, IsType};
ghost use Rattle.type_unify.specs.Steps.{IsTail};
ghost use Rattle.type_unify.specs.Taken.{rest_term};
ghost use Rattle.type_unify.specs.Unifying.{Unifies};

use crate::rows::{Tail, rest_term};
use crate::solver::unify;
use elm_base::{Halt, Name, NoMemory};
use sqlite_items::Items;
use std::alloc::Global;
use std::marker::Model;
use type_terms::{Flag, NoSolution, Shape, Store, StoreMark, TermId};

/// A store of types in which each rest of a row is a row, or a variable or opaque type without flag that stands only as a
/// rest. So it was in each of its states before, and so it stays. Contracts see it as the store.
#[derive(Drop)]
pub struct Types {
    store: Store,
}

impl Model for Types {
    ghost use Rattle.std.specs.Prelude.{List};
    ghost use Rattle.type_terms.specs.Terms.{State};
    ghost use Rattle.type_unify.specs.Rests.{EachApart};

    ghost Value = { List State };

    ghost view = { λ types. types.store };

    ghost invariant = { λ types. EachApart types.store };
}

impl Types {
    /// No types.
    pub fn new(alloc: Global) -> Result<Types, NoMemory>
        ensures { IfOk result (λ types. types ≡ record { nodes = []; notes = [] } ∷ []) }
    {
        let store = Store::new(alloc)?;
        Ok(Types { store })
    }

    /// The store, which has a solution.
    pub fn store(&self) -> &Store
        ensures store { result.now ≡ self.now }
        ensures apart { RestsApart (nodes_of self.now) }
        ensures solvable { IsSolvable (nodes_of self.now) }
    {
        self.store.stays_sound();
        &self.store
    }

    /// A new term that has no rest.
    pub fn make_type(&mut self, shape: Shape) -> Result<TermId, NoMemory>
        requires parts { Each (IsType (nodes_of self.old)) (parts shape) }
        requires no_rest { HasNoRest shape }
        ensures place { IfOk result (λ at. at ≡ length (nodes_of self.old)) }
        ensures state { OnOk result (self.new ≡ with_term shape self.old) }
        ensures keeps { OnOk result (Keeps (nodes_of self.old) (nodes_of self.new)) }
        ensures is_type { IfOk result (IsType (nodes_of self.new)) }
        ensures grown { IsGrown self.old self.new }
        ensures refused { OnErr result (self.new ≡ self.old) }
    {
        self.store.stays_sound();
        let at = self.store.make(shape)?;
        Ok(at)
    }

    /// A new row of these fields, of one label the newest first, over a tail that is there.
    pub fn make_row(
        &mut self,
        fields: Items<(Name, TermId)>,
        tail: Tail,
    ) -> Result<TermId, NoMemory>
        requires types { Each (IsType (nodes_of self.old)) (terms_of fields) }
        requires tail { IsTail (nodes_of self.old) tail }
        ensures place { IfOk result (λ at. at ≡ length (nodes_of self.old)) }
        ensures state { OnOk result (self.new ≡ with_term (shape.Row fields (rest_term tail)) self.old) }
        ensures keeps { OnOk result (Keeps (nodes_of self.old) (nodes_of self.new)) }
        ensures is_type { IfOk result (IsType (nodes_of self.new)) }
        ensures grown { IsGrown self.old self.new }
        ensures refused { OnErr result (self.new ≡ self.old) }
    {
        self.store.stays_sound();
        let rest = rest_term(tail);
        let at = self.store.make(Shape::Row { fields, rest })?;
        Ok(at)
    }

    /// A new variable that stands as the rest of a new row without fields, which is the term after it.
    pub fn make_rest(&mut self, alloc: Global) -> Result<Tail, NoMemory>
        ensures place { IfOk result (λ tail. tail ≡ Open (length (nodes_of self.old))) }
        ensures state { OnOk result (self.new ≡ with_rest (shape.Variable Plain) self.old) }
        ensures keeps { OnOk result (Keeps (nodes_of self.old) (nodes_of self.new)) }
        ensures tail { IfOk result (IsTail (nodes_of self.new)) }
        ensures grown { IsGrown self.old self.new }
        ensures refused { OnErr result (self.new ≡ self.old) }
    {
        let flag = Flag::Plain;
        let at = self.make_leaf(alloc, Shape::Variable { flag })?;
        Ok(Tail::Open { at })
    }

    /// A new opaque type that stands as the rest of a new row without fields, which is the term after it.
    pub fn make_rigid_rest(&mut self, alloc: Global, number: u32) -> Result<Tail, NoMemory>
        ensures place { IfOk result (λ tail. tail ≡ Rigid (length (nodes_of self.old)) number) }
        ensures state { OnOk result (self.new ≡ with_rest (shape.Opaque number Plain) self.old) }
        ensures keeps { OnOk result (Keeps (nodes_of self.old) (nodes_of self.new)) }
        ensures tail { IfOk result (IsTail (nodes_of self.new)) }
        ensures grown { IsGrown self.old self.new }
        ensures refused { OnErr result (self.new ≡ self.old) }
    {
        let flag = Flag::Plain;
        let at = self.make_leaf(alloc, Shape::Opaque { number, flag })?;
        Ok(Tail::Rigid { at, number })
    }

    // A new variable or opaque type, and a new row without fields of which it is the rest.
    fn make_leaf(&mut self, alloc: Global, leaf: Shape) -> Result<TermId, NoMemory>
        requires bare { IsPlainLeaf leaf }
        ensures place { IfOk result (λ at. at ≡ length (nodes_of self.old)) }
        ensures state { OnOk result (self.new ≡ with_rest leaf self.old) }
        ensures keeps { OnOk result (Keeps (nodes_of self.old) (nodes_of self.new)) }
        ensures grown { IsGrown self.old self.new }
        ensures refused { OnErr result (self.new ≡ self.old) }
    {
        self.store.stays_sound();
        let mark = self.store.mark();
        let at = self.store.make(leaf)?;
        self.store.stays_sound();
        let row = Shape::Row {
            fields: Items::new(alloc),
            rest: Some(at),
        };
        match self.store.make(row) {
            Ok(_) => Ok(at),
            Err(NoMemory) => {
                self.store.undo(mark);
                Err(NoMemory)
            }
        }
    }

    /// Notes that the sort of `a` is at most that of `b`.
    pub fn sort_below(&mut self, a: TermId, b: TermId) -> Result<(), NoMemory>
        requires below { a < length (nodes_of self.old) }
        requires above { b < length (nodes_of self.old) }
        ensures state { OnOk result (self.new ≡ with_note a b self.old) }
        ensures refused { OnErr result (self.new ≡ self.old) }
    {
        self.store.sort_below(a, b)
    }

    /// Makes two types equal, as `unify` does.
    pub fn unify(&mut self, alloc: Global, a: TermId, b: TermId) -> Result<(), Halt<NoSolution>>
        requires first { IsType (nodes_of self.old) a }
        requires second { IsType (nodes_of self.old) b }
        ensures unified { OnOk result (Unifies (nodes_of self.old) (nodes_of self.new) a b) }
        ensures grown { IsGrown self.old self.new }
        ensures refused { OnRefusal result (Never (nodes_of self.old) (λ s. s a ≡ s b)) }
        ensures unchanged { OnErr result (self.new ≡ self.old) }
    {
        unify(alloc, &mut self.store, a, b)
    }

    /// The present moment, to go back to.
    pub fn mark(&self) -> StoreMark
        ensures { result ≡ length self.now }
    {
        self.store.mark()
    }

    /// Takes back all changes since the mark.
    pub fn undo(&mut self, mark: StoreMark)
        requires { mark ≤ length self.old }
        ensures { self.new ≡ drop (length self.old - mark) self.old }
    {
        self.store.undo(mark);
    }
}
