ghost use Rattle.std.specs.Prelude.{◌≡◌, ◌+◌, ◌≤◌, ◌<◌, ◌↔◌, [], length, take, drop, vec_len};
ghost use Rattle.reactor_outside.specs.Repeated.{repeated};

use crate::pieces::copy_front;
use std::marker::Model;

/// The first bytes of a piece that is repeated without end. Contracts see it as the bytes that are left.
#[derive(Drop)]
pub struct Repeated {
    piece: Vec<u8>,
    total: u64,
    given: u64,
}

impl Model for Repeated {
    ghost use Rattle.std.specs.Prelude.{List, ℕ, drop, vec_len, ◌≤◌, ◌<◌};
    ghost use Rattle.reactor_outside.specs.Repeated.{repeated};

    ghost Value = { List ℕ };

    ghost view = { λ source. drop source.given (repeated source.piece.items source.total) };

    ghost invariant = { λ source. (0 < vec_len source.piece) × (source.given ≤ source.total) };
}

impl Repeated {
    /// The first `total` bytes of the repeated piece.
    pub fn new(piece: Vec<u8>, total: u64) -> Repeated
        requires { 0 < vec_len piece }
        ensures { result ≡ repeated piece.items total }
    {
        Repeated {
            piece,
            total,
            given: 0,
        }
    }

    /// Hands out the next bytes to the front of `into`, at most to the end of the piece, and says how many.
    #[tactic(auto, using(crate::proofs::RepeatedLaws::repeated_length))]
    pub fn hand_out(&mut self, into: &mut [u8]) -> usize
        ensures within { result ≤ length into.old }
        ensures there { result ≤ length self.old }
        ensures next { take result into.new ≡ take result self.old }
        ensures rest { self.new ≡ drop result self.old }
        ensures end { 0 < length into.old → (result ≡ 0) ↔ (self.old ≡ []) }
    {
        let count = copy_repeated(&self.piece, self.given, self.total, into);
        self.given += count as u64;
        count
    }
}

// Copies the bytes of the repeated piece from place `given` on: as many as stand in one copy, within the total and
// in `into`.
fn copy_repeated(piece: &[u8], given: u64, total: u64, into: &mut [u8]) -> usize
    requires some { 0 < length piece.now }
    requires within { given ≤ total }
    ensures within { result ≤ length into.old }
    ensures total { given + result ≤ total }
    ensures end { 0 < length into.old → result ≡ 0 → total ≤ given }
    ensures next { take result into.new ≡ take result (drop given (repeated piece.now total)) }
{
    let start = (given % piece.len() as u64) as usize;
    let most = into.len().min(piece.len() - start);
    let count = (most as u64).min(total - given) as usize;
    copy_front(&piece[start..], into, count);
    count
}
