ghost use Rattle.std.specs.Prelude.{◌≡◌, ◌≤◌, ℕ, List, Option, length, IfOk, OnErr};
ghost use Rattle.reactor_outside.specs.Count.{Counts};
ghost use Rattle.reactor_outside.specs.Source.{after_bytes, HoldsNext, EndsExactly};

use thiserror::Error;

/// A read or a write failed. The count of the object that failed shows it.
#[derive(Clone, Copy, Debug, PartialEq, Eq, Error)]
#[error("the outside failed")]
pub struct Failed;

/// Where bytes come from, in pieces of any size.
pub trait Source {
    /// How often a read has failed. It never falls, and stands still at the last number of 64 bits.
    ghost faults: { Self → ℕ };

    /// The bytes still to come, where the source tells them.
    ghost left: { Self → Option (List ℕ) };

    /// Reads some bytes to the front of `into` and gives their number. No byte, where `into` isn't empty, is the end.
    /// After `Failed` nothing was taken, and `into` may hold anything.
    fn read(&mut self, into: &mut [u8]) -> Result<usize, Failed>
        ensures count { Counts (faults self.old) (faults self.new) result }
        ensures within { IfOk result (λ n. n ≤ length into.old) }
        ensures next { IfOk result (λ n. HoldsNext n (left self.old) into.new) }
        ensures rest { IfOk result (λ n. left self.new ≡ after_bytes n (left self.old)) }
        ensures end { IfOk result (λ n. EndsExactly n (left self.old) into.old) }
        ensures failed { OnErr result (left self.new ≡ left self.old) };
}
