ghost use Rattle.std.specs.Prelude.{◌≡◌, ℕ, suc, ◌+◌, ◌-◌, ◌<◌, ◌≤◌, ◌↔◌, List, [], ◌∷◌, ◌++◌, length, drop, slice_set, IfOk, OnOk, OnErr};
ghost use Rattle.elm_typing.specs.declared.flag.Flag.{Flag};
ghost use Rattle.elm_typing.specs.Flags.{HasFlag, joined};
ghost use Rattle.elm_typing.specs.Ground.{Ground};
ghost use Rattle.elm_typing.specs.Ordered.{InOrder};
ghost use Rattle.type_terms.specs.declared.node.Node.TheVariants.{End, Link};
ghost use Rattle.type_terms.specs.declared.shape.Shape.{Shape};
ghost use Rattle.type_terms.specs.declared.shape.Shape.TheVariants as shape;
ghost use Rattle.type_terms.specs.Terms.{State, nodes_of, notes_of, node_at, with_term, with_node, with_note, parts, Each, IsLink, IsVariable, IsRest, LinksTo, StandsIn, unlinked};
ghost use Rattle.type_terms.specs.Solutions.{Assignment, Fits, Solves, IsNoNewRest, AddsNoRest, IsSolvable, Always, KeepsThose, MayHave};
ghost use Rattle.type_terms.specs.Depth.{AreNotesBelow, IsBelow, IsSound, IsStored, doubled, sum_of, weight};

use crate::TermId;
use crate::change::Change;
use crate::node::Node;
use crate::shape::Shape;
use elm_base::NoMemory;
use elm_typing::Flag;
use std::alloc::Global;
use std::marker::Model;

/// A moment of a store, to go back to. Contracts see how many states the store had.
#[derive(Clone, Copy, Debug)]
pub struct StoreMark {
    changes: usize,
}

impl Model for StoreMark {
    ghost use Rattle.std.specs.Prelude.{ℕ, ◌+◌, ◌-◌};

    ghost Value = { ℕ };

    ghost view = { λ mark. mark.changes + 1 };

    ghost inverse = { λ mark. record { changes = mark - 1 } };
}

/// Terms that stand for types, and notes on their sorts. Contracts see the list of its states, newest first:
/// the present one, and those before each change that hasn't been taken back.
#[derive(Drop)]
pub struct Store {
    nodes: Vec<Node>,
    notes: Vec<(TermId, TermId)>,
    trail: Vec<Change>,
}

impl Model for Store {
    ghost use Rattle.std.specs.Prelude.{List, reverse};
    ghost use Rattle.type_terms.specs.Terms.{State};
    ghost use Rattle.type_terms.specs.History.{history};
    ghost use Rattle.type_terms.specs.Depth.{AreSound};

    ghost Value = { List State };

    ghost view = { λ store. history store.nodes.items store.notes.items (reverse store.trail.items) };

    ghost invariant = { λ store. AreSound (history store.nodes.items store.notes.items (reverse store.trail.items)) };
}

impl Store {
    /// A store without terms and notes.
    pub fn new(alloc: Global) -> Result<Store, NoMemory>
        ensures { IfOk result (λ store. store ≡ record { nodes = []; notes = [] } ∷ []) }
    {
        Ok(Store {
            nodes: Vec::new(alloc),
            notes: Vec::new(alloc),
            trail: Vec::new(alloc),
        })
    }

    /// A new variable, which stands for any type that has the flag. A store takes at most 2^32 - 1 terms:
    /// a further one finds no memory.
    pub fn fresh(&mut self, flag: Flag) -> Result<TermId, NoMemory>
        ensures place { IfOk result (λ at. at ≡ length (nodes_of self.old)) }
        ensures state { OnOk result (self.new ≡ with_term (shape.Variable flag) self.old) }
        ensures solutions { IfOk result (λ at.
            KeepsThose (nodes_of self.old) (nodes_of self.new) (λ s. HasFlag flag (s at))) }
        ensures extends { IfOk result (λ at.
            MayHave (nodes_of self.old) (nodes_of self.new) at (λ s type. HasFlag flag type)) }
        ensures refused { OnErr result (self.new ≡ self.old) }
    {
        self.make(Shape::Variable { flag })
    }

    /// A new term of this shape, whose parts stand in the store. The limit on terms is that of `fresh`. A row makes an
    /// opaque type its rest, and then that stands for a record: what `solutions` and `extends` say is of shapes that make
    /// no opaque type a rest that wasn't one.
    pub fn make(&mut self, shape: Shape) -> Result<TermId, NoMemory>
        requires { Each (IsBelow (length (nodes_of self.old))) (parts shape) }
        ensures place { IfOk result (λ at. at ≡ length (nodes_of self.old)) }
        ensures state { OnOk result (self.new ≡ with_term shape self.old) }
        ensures solutions { IfOk result (λ at. AddsNoRest (nodes_of self.old) shape
            → KeepsThose (nodes_of self.old) (nodes_of self.new) (λ s. Fits ⊥ s (s at) shape)) }
        ensures extends { IfOk result (λ at. AddsNoRest (nodes_of self.old) shape
            → MayHave (nodes_of self.old) (nodes_of self.new) at (λ s type. Fits ⊥ s type shape)) }
        ensures refused { OnErr result (self.new ≡ self.old) }
    {
        self.add(shape)
    }

    /// What the term is: the shape at the end of its links, whose parts stand in the store.
    pub fn shape(&self, at: TermId) -> &Shape
        requires { at < length (nodes_of self.now) }
        ensures end { (end : ℕ) × LinksTo (nodes_of self.now) end at
            × (node_at (nodes_of self.now) end ≡ End result.now) }
        ensures own { (IsLink (node_at (nodes_of self.now) at) → ⊥)
            → node_at (nodes_of self.now) at ≡ End result.now }
        ensures inside { Each (IsBelow (length (nodes_of self.now))) (parts result.now) }
        ensures lighter { sum_of (weight self.now) (parts result.now) < weight self.now at }
        ensures sound { IsStored self.now }
    {
        match self.node(self.find(at)) {
            Node::End(shape) => shape,
            Node::Link(_) => unreachable!(),
        }
    }

    /// The end of the links of `at`.
    pub fn find(&self, at: TermId) -> TermId
        requires { at < length (nodes_of self.now) }
        ensures leads { LinksTo (nodes_of self.now) result at }
        ensures end { IsLink (node_at (nodes_of self.now) result) → ⊥ }
        ensures inside { result < length (nodes_of self.now) }
        ensures same { Always (nodes_of self.now) (λ s. s at ≡ s result) }
        ensures lighter { weight self.now result ≤ weight self.now at }
        ensures sound { IsStored self.now }
    {
        let mut end = at;
        while let Node::Link(to) = self.node(end) {
            end = *to;
        }
        end
    }

    /// The unlinked variable `at` has this flag besides the one that it had.
    pub fn narrow(&mut self, at: TermId, flag: Flag) -> Result<(), NoMemory>
        requires inside { at < length (nodes_of self.old) }
        requires variable { IsVariable (node_at (nodes_of self.old) at) }
        ensures state { OnOk result ((had : Flag) → node_at (nodes_of self.old) at ≡ End (shape.Variable had)
            → self.new ≡ with_node at (End (shape.Variable (joined had flag))) self.old) }
        ensures solutions { OnOk result (KeepsThose (nodes_of self.old) (nodes_of self.new) (λ s. HasFlag flag (s at))) }
        ensures refused { OnErr result (self.new ≡ self.old) }
    {
        let had = self.flag(at);
        let flag = had.joined(flag);
        self.rewrite(at, had, Node::End(Shape::Variable { flag }))
    }

    /// The variable `at`, which is unlinked and doesn't stand in `to`, stands for what `to` stands for. Each solution
    /// gives `to` a type with the flag of `at`, and there is a solution; where `at` is the rest of a row, an opaque type
    /// that `to` stands for is one already.
    pub fn link(&mut self, at: TermId, to: TermId) -> Result<(), NoMemory>
        requires inside { at < length (nodes_of self.old) }
        requires target { to < length (nodes_of self.old) }
        requires variable { IsVariable (node_at (nodes_of self.old) at) }
        requires apart { StandsIn (nodes_of self.old) at to → ⊥ }
        requires flags { (s : Assignment) (had : Flag) → Solves (nodes_of self.old) s
            → node_at (nodes_of self.old) at ≡ End (shape.Variable had) → HasFlag had (s to) }
        requires rest { IsRest (nodes_of self.old) at → IsNoNewRest (nodes_of self.old) to }
        requires solvable { IsSolvable (nodes_of self.old) }
        ensures state { OnOk result (self.new ≡ with_node at (Link to) self.old) }
        ensures solutions { OnOk result (KeepsThose (nodes_of self.old) (nodes_of self.new) (λ s. s at ≡ s to)) }
        ensures fewer { OnOk result (unlinked (nodes_of self.new) + 1 ≡ unlinked (nodes_of self.old)) }
        ensures refused { OnErr result (self.new ≡ self.old) }
    {
        let flag = self.flag(at);
        self.rewrite(at, flag, Node::Link(to))
    }

    /// Notes that the sort of `a` is at most that of `b`.
    pub fn sort_below(&mut self, a: TermId, b: TermId) -> Result<(), NoMemory>
        requires below { a < length (nodes_of self.old) }
        requires above { b < length (nodes_of self.old) }
        ensures state { OnOk result (self.new ≡ with_note a b self.old) }
        ensures refused { OnErr result (self.new ≡ self.old) }
    {
        self.trail.push(Change::Noted)?;
        match self.notes.push((a, b)) {
            Ok(()) => Ok(()),
            Err(_) => {
                self.trail.pop();
                Err(NoMemory)
            }
        }
    }

    /// All notes, in the order in which they were written.
    pub fn notes(&self) -> &[(TermId, TermId)]
        ensures notes { result.now ≡ notes_of self.now }
        ensures inside { AreNotesBelow (length (nodes_of self.now)) result.now }
    {
        self.notes.as_slice()
    }

    /// How many terms the store has.
    pub fn terms(&self) -> usize
        ensures { result ≡ length (nodes_of self.now) }
    {
        self.nodes.len()
    }

    /// Parts stand in the store, and nothing stands below itself. It does nothing: callers learn what each store keeps.
    pub fn stays_sound(&self)
        ensures { IsStored self.now }
    {
        let _nodes = &self.nodes;
    }

    // How many changes stand.
    fn changes(&self) -> usize
        ensures count { length self.now ≡ result + 1 }
        ensures sound { IsStored self.now }
    {
        self.trail.len()
    }

    fn node(&self, at: TermId) -> &Node
        requires { at < length (nodes_of self.now) }
        ensures node { result.now ≡ node_at (nodes_of self.now) at }
        ensures sound { IsStored self.now }
    {
        &self.nodes[at as usize]
    }

    // The flag of an unlinked variable.
    fn flag(&self, at: TermId) -> Flag
        requires inside { at < length (nodes_of self.now) }
        requires variable { IsVariable (node_at (nodes_of self.now) at) }
        ensures flag { node_at (nodes_of self.now) at ≡ End (shape.Variable result) }
        ensures sound { IsStored self.now }
    {
        match self.node(at) {
            Node::End(Shape::Variable { flag }) => *flag,
            _ => unreachable!(),
        }
    }

    // A term more.
    fn add(&mut self, shape: Shape) -> Result<TermId, NoMemory>
        requires { Each (IsBelow (length (nodes_of self.old))) (parts shape) }
        ensures place { IfOk result (λ at. at ≡ length (nodes_of self.old)) }
        ensures state { OnOk result (self.new ≡ with_term shape self.old) }
        ensures sound { IsSound (nodes_of self.old) (doubled (length self.old)) }
        ensures refused { OnErr result (self.new ≡ self.old) }
    {
        let at = self.nodes.len();
        if at >= 0xffff_ffff {
            return Err(NoMemory);
        }
        self.trail.push(Change::Made)?;
        match self.nodes.push(Node::End(shape)) {
            Ok(()) => Ok(at as TermId),
            Err(_) => {
                self.trail.pop();
                Err(NoMemory)
            }
        }
    }

    // The variable `at` with this flag becomes the node.
    fn rewrite(&mut self, at: TermId, flag: Flag, node: Node) -> Result<(), NoMemory>
        requires inside { at < length (nodes_of self.old) }
        requires variable { node_at (nodes_of self.old) at ≡ End (shape.Variable flag) }
        requires sound { IsSound (slice_set (nodes_of self.old) at node) (doubled (suc (length self.old))) }
        ensures state { OnOk result (self.new ≡ with_node at node self.old) }
        ensures refused { OnErr result (self.new ≡ self.old) }
    {
        self.trail.push(Change::WasVariable { at, flag })?;
        self.nodes[at as usize] = node;
        Ok(())
    }

    /// The present moment, to go back to.
    pub fn mark(&self) -> StoreMark
        ensures { result ≡ length self.now }
    {
        StoreMark {
            changes: self.changes(),
        }
    }

    // The newest change is taken back.
    fn take_back(&mut self)
        requires { 1 < length self.old }
        ensures { self.new ≡ drop 1 self.old }
    {
        match self.trail.pop() {
            Some(Change::Made) => {
                self.nodes.pop();
            }
            Some(Change::Noted) => {
                self.notes.pop();
            }
            Some(Change::WasVariable { at, flag }) => {
                if (at as usize) < self.nodes.len() {
                    self.nodes[at as usize] = Node::End(Shape::Variable { flag });
                }
            }
            None => {}
        }
    }

    /// Takes back all changes since the mark: terms, links, flags and notes are as they were then, and so are the older
    /// marks. The store must not have been taken back below the mark since.
    pub fn undo(&mut self, mark: StoreMark)
        requires { mark ≤ length self.old }
        ensures { self.new ≡ drop (length self.old - mark) self.old }
    {
        while self.changes() > mark.changes {
            self.take_back();
        }
    }
}
