//! Types that are known by the order in which they were made, so that who makes them need not keep that they are types.

ghost use Rattle.std.specs.Prelude.{◌≡◌, ◌≤◌, ◌-◌, length, drop, IfOk};
ghost use Rattle.type_unify.specs.Kept.{HasNoRest};
ghost use Rattle.type_unify.specs.Rests.{IsType};
ghost use Rattle.type_unify.specs.Steps.{IsTail};
ghost use Rattle.type_terms.specs.Solutions.{IsSolvable};
ghost use Rattle.type_terms.specs.Terms.{nodes_of, parts, terms_of, Each};

use elm_base::{Halt, Name, NoMemory};
use sqlite_items::{Items, at};
use std::alloc::Global;
use std::marker::Model;
use type_solve::{Tail, Types};
use type_terms::{Flag, Shape, Store, StoreMark, TermId};

/// Types and rests of rows over one store. A number that none of them has finds no memory.
#[derive(Drop)]
pub struct Scene {
    alloc: Global,
    types: Types,
    made: Items<TermId>,
    rests: Items<Tail>,
}

impl Model for Scene {
    ghost use Rattle.std.specs.Prelude.{List};
    ghost use Rattle.type_terms.specs.Terms.{State};
    ghost use Rattle.types_tests.specs.Scenes.{AreMade};

    ghost Value = { List State };

    ghost view = { λ scene. scene.types };

    ghost invariant = { λ scene. AreMade scene.types scene.made scene.rests };
}

impl Scene {
    pub fn new(alloc: Global) -> Result<Scene, NoMemory> {
        Ok(Scene {
            alloc,
            types: Types::new(alloc)?,
            made: Items::new(alloc),
            rests: Items::new(alloc),
        })
    }

    /// The store, which has a solution.
    pub fn store(&self) -> &Store
        ensures store { result.now ≡ self.now }
        ensures solvable { IsSolvable (nodes_of result.now) }
    {
        self.types.store()
    }

    // The term of a type.
    pub fn term(&self, place: usize) -> Result<TermId, NoMemory>
        ensures { IfOk result (IsType (nodes_of self.now)) }
    {
        match at(self.made.as_slice(), place) {
            Some(found) => Ok(*found),
            None => Err(NoMemory),
        }
    }

    // The tail of a rest; without a rest a closed one.
    fn tail(&self, place: Option<usize>) -> Result<Tail, NoMemory>
        ensures { IfOk result (IsTail (nodes_of self.now)) }
    {
        let Some(place) = place else {
            return Ok(Tail::Closed);
        };
        match at(self.rests.as_slice(), place) {
            Some(found) => Ok(*found),
            None => Err(NoMemory),
        }
    }

    fn terms(&self, places: &[usize]) -> Result<Items<TermId>, NoMemory>
        ensures { IfOk result (Each (IsType (nodes_of self.now))) }
    {
        let mut found = Items::new(self.alloc);
        for place in places {
            let term = self.term(*place)?;
            found.push(term)?;
        }
        Ok(found)
    }

    // A type more.
    fn keep(&mut self, made: TermId) -> Result<usize, NoMemory>
        requires { IsType (nodes_of self.old) made }
    {
        let place = self.made.len();
        self.made.push(made)?;
        Ok(place)
    }

    // A new type.
    fn push(&mut self, shape: Shape) -> Result<usize, NoMemory>
        requires parts { Each (IsType (nodes_of self.old)) (parts shape) }
        requires no_rest { HasNoRest shape }
    {
        let made = self.types.make_type(shape)?;
        self.keep(made)
    }

    pub fn variable(&mut self, flag: Flag) -> Result<usize, NoMemory> {
        self.push(Shape::Variable { flag })
    }

    pub fn named(&mut self, name: &[u8], arguments: &[usize]) -> Result<usize, NoMemory> {
        let name = Name::of(self.alloc, name)?;
        let arguments = self.terms(arguments)?;
        self.push(Shape::Named { name, arguments })
    }

    pub fn arrow(&mut self, from: usize, to: usize) -> Result<usize, NoMemory> {
        let from = self.term(from)?;
        let to = self.term(to)?;
        self.push(Shape::Arrow { from, to })
    }

    pub fn tuple(&mut self, parts: &[usize]) -> Result<usize, NoMemory> {
        let parts = self.terms(parts)?;
        self.push(Shape::Tuple { parts })
    }

    fn make_rest(&mut self) -> Result<Tail, NoMemory>
        ensures { IfOk result (IsTail (nodes_of self.new)) }
    {
        let tail = self.types.make_rest(self.alloc)?;
        Ok(tail)
    }

    fn make_rigid_rest(&mut self, number: u32) -> Result<Tail, NoMemory>
        ensures { IfOk result (IsTail (nodes_of self.new)) }
    {
        let tail = self.types.make_rigid_rest(self.alloc, number)?;
        Ok(tail)
    }

    // A rest more, and its term.
    fn keep_rest(&mut self, tail: Tail) -> Result<(usize, TermId), NoMemory>
        requires { IsTail (nodes_of self.old) tail }
    {
        let place = self.rests.len();
        self.rests.push(tail)?;
        match tail {
            Tail::Open { at } => Ok((place, at)),
            Tail::Rigid { at, number: _ } => Ok((place, at)),
            Tail::Closed => Err(NoMemory),
        }
    }

    /// A new rest, which is a variable or, where a number is given, the opaque type of that number, and its term.
    pub fn rest(&mut self, number: Option<u32>) -> Result<(usize, TermId), NoMemory> {
        match number {
            Some(number) => {
                let tail = self.make_rigid_rest(number)?;
                self.keep_rest(tail)
            }
            None => {
                let tail = self.make_rest()?;
                self.keep_rest(tail)
            }
        }
    }

    fn fields(&self, fields: &[(Name, usize)]) -> Result<Items<(Name, TermId)>, NoMemory>
        ensures { IfOk result (λ found. Each (IsType (nodes_of self.now)) (terms_of found)) }
    {
        let mut found = Items::new(self.alloc);
        for (label, place) in fields {
            let term = self.term(*place)?;
            found.push((label.copy(self.alloc)?, term))?;
        }
        Ok(found)
    }

    pub fn record(
        &mut self,
        fields: &[(Name, usize)],
        rest: Option<usize>,
    ) -> Result<usize, NoMemory> {
        let tail = self.tail(rest)?;
        let fields = self.fields(fields)?;
        let made = self.types.make_row(fields, tail)?;
        self.keep(made)
    }

    /// Notes that the sort of the first type is at most that of the second one.
    pub fn sort_below(&mut self, a: usize, b: usize) -> Result<(), NoMemory> {
        let a = self.term(a)?;
        let b = self.term(b)?;
        self.types.sort_below(a, b)
    }

    /// Whether the two types can be made equal. Rests are of no use afterwards.
    pub fn unify(&mut self, a: usize, b: usize) -> Result<bool, NoMemory>
        ensures { length self.old ≤ length self.new }
    {
        let a = self.term(a)?;
        let b = self.term(b)?;
        self.rests = Items::new(self.alloc);
        match self.types.unify(self.alloc, a, b) {
            Ok(()) => Ok(true),
            Err(Halt::Because(_)) => Ok(false),
            Err(Halt::NoMemory) => Err(NoMemory),
        }
    }

    pub fn mark(&self) -> StoreMark
        ensures { result ≡ length self.now }
    {
        self.types.mark()
    }

    /// Takes all changes back since the mark. Types and rests are of no use afterwards.
    pub fn undo(&mut self, mark: StoreMark)
        requires { mark ≤ length self.old }
        ensures { self.new ≡ drop (length self.old - mark) self.old }
    {
        self.made = Items::new(self.alloc);
        self.rests = Items::new(self.alloc);
        self.types.undo(mark);
    }
}
