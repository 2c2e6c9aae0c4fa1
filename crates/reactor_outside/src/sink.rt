ghost use Rattle.std.specs.Prelude.{◌≡◌, ◌≤◌, ◌<◌, ℕ, List, Option, length, take, IfOk, OnOk, OnErr};
ghost use Rattle.reactor_outside.specs.Count.{Counts};
ghost use Rattle.reactor_outside.specs.Sink.{with_bytes, TookPrefix};

use crate::source::Failed;

/// Where bytes go, in order.
pub trait Sink {
    /// How often a write has failed. It never falls, and stands still at the last number of 64 bits.
    ghost faults: { Self → ℕ };

    /// The bytes taken so far, where the sink tells them.
    ghost taken: { Self → Option (List ℕ) };

    /// Takes some bytes from the front of the piece and gives their number: at least one where there is one.
    /// After `Failed` nothing was taken.
    fn write(&mut self, piece: &[u8]) -> Result<usize, Failed>
        ensures count { Counts (faults self.old) (faults self.new) result }
        ensures within { IfOk result (λ n. n ≤ length piece.now) }
        ensures some { 0 < length piece.now → IfOk result (λ n. 0 < n) }
        ensures took { IfOk result (λ n.
            taken self.new ≡ with_bytes (take n piece.now) (taken self.old)) }
        ensures failed { OnErr result (taken self.new ≡ taken self.old) };
}

/// Writes all the bytes. After `Failed` the sink took some first bytes of them.
pub fn put<K: Sink>(sink: &mut K, bytes: &[u8]) -> Result<(), Failed>
    ensures count { Counts (K.faults sink.old) (K.faults sink.new) result }
    ensures whole { OnOk result (K.taken sink.new ≡ with_bytes bytes.now (K.taken sink.old)) }
    ensures part { OnErr result (TookPrefix bytes.now (K.taken sink.old) (K.taken sink.new)) }
{
    let mut at = 0;
    while at < bytes.len() {
        at += sink.write(&bytes[at..])?;
    }
    Ok(())
}
