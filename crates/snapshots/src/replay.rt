ghost use Rattle.std.specs.Prelude.{◌≡◌, ℕ, ◌+◌, ◌≤◌, ◌⊎◌, List, [], ◌∷◌, ◌++◌, OnOk, OnErr, IfOk};
ghost use Rattle.snapshots.specs.Past.{StandsFor, one_more};
ghost use Rattle.snapshots.specs.Prefixes.{IsPrefix, OneIsPrefix};

use elm_base::{NoMemory, Steps};
use std::sync::ledger::Ledger;

/// A state that stands for a list of events. It takes one event more, marks where it is, and goes back to a mark.
///
/// A mark is good from the call that gives it on, for as long as the clauses say. While it is good, it keeps its list.
pub trait Replay: Drop {
    /// What a step takes.
    type Event: Drop;

    /// A place to go back to.
    type Mark: Drop;
    /// An event as plain data.
    type Content;
    /// What a replay was made with, as plain data. No call changes it.
    type Made;

    // What the event says.
    ghost content: { Self.Event → Self.Content };

    // What the replay was made with.
    ghost made: { Self → Self.Made };

    // A replay that was made so can be given the event.
    ghost fits: { Self.Made → Self.Content → Type 0 };

    // The events for which the state stands.
    ghost list: { Self → List Self.Content };

    // How many steps the replay was asked for, up to the last number of 64 bits.
    ghost taken: { Self → ℕ };

    // The mark is good.
    ghost good: { Self → Self.Mark → Type 0 };

    // The events for which a good mark stands.
    ghost list_of: { Self → Self.Mark → List Self.Content };

    // The first mark is older than the second.
    ghost older: { Self.Mark → Self.Mark → Type 0 };

    /// Takes one event, and counts one step. Marks whose events don't lie on the way that the state took may be lost. After
    /// want of memory the state is what it was.
    fn step<L: Ledger>(&mut self, event: &Self::Event, steps: &mut Steps<L>) -> Result<(), NoMemory>
        requires fits { fits (made self.old) (content event.now) }
        ensures made { made self.new ≡ made self.old }
        ensures list { OnOk result (list self.new ≡ list self.old ++ content event.now ∷ []) }
        ensures list_err { OnErr result (list self.new ≡ list self.old) }
        ensures counted { OnOk result (steps.new ≡ steps.old + 1) }
        ensures counted_most { steps.new ≤ steps.old + 1 }
        ensures taken { OnOk result (taken self.new ≡ one_more (taken self.old)) }
        ensures taken_most { taken self.new ≤ taken self.old + 1 }
        ensures marks { OnOk result ((m : Self.Mark) → good self.old m →
            OneIsPrefix (list_of self.old m) (list self.old ++ content event.now ∷ []) →
            StandsFor (good self.new) (list_of self.new) m (list_of self.old m)) }
        ensures marks_err { OnErr result ((m : Self.Mark) → good self.old m →
            IsPrefix (list_of self.old m) (list self.old) ⊎
            IsPrefix (list self.old ++ content event.now ∷ []) (list_of self.old m) →
            StandsFor (good self.new) (list_of self.new) m (list_of self.old m)) };

    /// A mark of the state, which is newer than each good mark. All good marks stay good, after want of memory too.
    fn mark(&mut self) -> Result<Self::Mark, NoMemory>
        ensures made { made self.new ≡ made self.old }
        ensures list { list self.new ≡ list self.old }
        ensures taken { taken self.new ≡ taken self.old }
        ensures given { IfOk result (λ m. StandsFor (good self.new) (list_of self.new) m (list self.new)) }
        ensures newest { IfOk result (λ m. (a : Self.Mark) → good self.old a → older a m) }
        ensures marks { (m : Self.Mark) → good self.old m →
            StandsFor (good self.new) (list_of self.new) m (list_of self.old m) };

    /// Goes back to a good mark. All good marks stay good.
    fn restore(&mut self, mark: &Self::Mark)
        requires { good self.old mark.now }
        ensures made { made self.new ≡ made self.old }
        ensures list { list self.new ≡ list_of self.old mark.now }
        ensures taken { taken self.new ≡ taken self.old }
        ensures marks { (m : Self.Mark) → good self.old m →
            StandsFor (good self.new) (list_of self.new) m (list_of self.old m) };

    /// Goes back to a good mark, and gives back what came after it. The mark and those that are older stay good.
    fn cut(&mut self, mark: &Self::Mark)
        requires { good self.old mark.now }
        ensures made { made self.new ≡ made self.old }
        ensures list { list self.new ≡ list_of self.old mark.now }
        ensures taken { taken self.new ≡ taken self.old }
        ensures itself { StandsFor (good self.new) (list_of self.new) mark.now (list_of self.old mark.now) }
        ensures marks { (m : Self.Mark) → good self.old m → older m mark.now →
            StandsFor (good self.new) (list_of self.new) m (list_of self.old m) };
}
