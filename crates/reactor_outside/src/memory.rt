ghost use Rattle.std.specs.Prelude.{◌≡◌, ◌<◌, ◌≤◌, ℕ, [], All, Some, None, true, false, vec_len, length, take, IfOk, OnOk, OnErr, IsErr, IsTrue};
ghost use Rattle.std.specs.Result.{is_err};
ghost use Rattle.reactor_outside.specs.Count.{Counts};
ghost use Rattle.reactor_outside.specs.Source.{after_bytes, HoldsNext, EndsExactly};
ghost use Rattle.reactor_outside.specs.Sink.{with_bytes};
ghost use Rattle.reactor_outside.specs.Pieces.{HandsOut, most_bytes};
ghost use Rattle.reactor_outside.specs.Repeated.{repeated};
ghost use Rattle.reactor_outside.specs.Calls.{Calls, next_fails, after_call};

use crate::calls::CallCount;
use crate::pieces::Pieces;
use crate::repeated::Repeated;
use crate::sink::Sink;
use crate::source::{Failed, Source};
use std::alloc::Global;
use std::marker::Model;

#[derive(Drop)]
enum Supply {
    Pieces(Pieces),
    Repeated(Repeated),
}

/// A source over memory that fails at calls of given numbers, counted from 1.
/// Contracts see it as the bytes left, the sizes of the pieces in which they come where it was given any, and its calls.
#[derive(Drop)]
pub struct MemSource {
    supply: Supply,
    calls: CallCount,
}

impl Model for MemSource {
    ghost use Rattle.reactor_outside.specs.Memory.{MemorySource};

    ghost Value = { MemorySource };

    ghost use Rattle.reactor_outside.specs.Supply.{bytes_left, sizes_left};

    ghost view = { λ source. record {
      left = bytes_left source.supply;
      sizes = sizes_left source.supply;
      calls = source.calls;
    } };
}

impl MemSource {
    /// The bytes in pieces of these sizes, and then as they are asked for. A piece that is longer than the slice
    /// of a read is cut by it, and its rest is the next piece.
    pub fn new(bytes: Vec<u8>, pieces: Vec<usize>, failing: Vec<u64>) -> MemSource
        requires { All (λ size. 0 < size) pieces.items }
        ensures left { result.left ≡ bytes.items }
        ensures sizes { result.sizes ≡ Some pieces.items }
        ensures calls { result.calls ≡ record { made = 0; failing = failing.items; failed = 0 } }
    {
        MemSource {
            supply: Supply::Pieces(Pieces::new(bytes, pieces)),
            calls: CallCount::new(failing),
        }
    }

    /// The first `total` bytes of the piece repeated without end. A read gives at most the rest of one piece.
    pub fn repeating(piece: Vec<u8>, total: u64, failing: Vec<u64>) -> MemSource
        requires { 0 < vec_len piece }
        ensures left { result.left ≡ repeated piece.items total }
        ensures sizes { result.sizes ≡ None }
        ensures calls { result.calls ≡ record { made = 0; failing = failing.items; failed = 0 } }
    {
        MemSource {
            supply: Supply::Repeated(Repeated::new(piece, total)),
            calls: CallCount::new(failing),
        }
    }
}

impl Source for MemSource {
    ghost faults = { λ source. source.calls.failed };

    ghost left = { λ source. Some source.left };

    fn read(&mut self, into: &mut [u8]) -> Result<usize, Failed>
        ensures count { Counts self.old.calls.failed self.new.calls.failed result }
        ensures within { IfOk result (λ n. n ≤ length into.old) }
        ensures next { IfOk result (λ n. HoldsNext n (Some self.old.left) into.new) }
        ensures rest { IfOk result (λ n. Some self.new.left ≡ after_bytes n (Some self.old.left)) }
        ensures end { IfOk result (λ n. EndsExactly n (Some self.old.left) into.old) }
        ensures failed { OnErr result (Some self.new.left ≡ Some self.old.left) }
        // It hands out the next piece, cut by the slice and by the bytes left. A call that fails cuts none.
        ensures piece { IfOk result (λ n.
            HandsOut self.old.sizes (most_bytes into.old self.old.left) n self.new.sizes) }
        ensures no_piece { OnErr result (self.new.sizes ≡ self.old.sizes) }
        // It fails exactly at the calls that are to fail, and counts each.
        ensures fails { is_err result ≡ next_fails self.old.calls }
        ensures calls { self.new.calls ≡ after_call (is_err result) self.old.calls }
    {
        if self.calls.next_fails() {
            self.calls.count_failure();
            return Err(Failed);
        }
        self.calls.count_success();
        match &mut self.supply {
            Supply::Pieces(pieces) => Ok(pieces.hand_out(into)),
            Supply::Repeated(repeated) => Ok(repeated.hand_out(into)),
        }
    }
}

/// A sink over memory that takes each piece whole, and fails at calls of given numbers, counted from 1.
/// It fails too where it finds no memory for a piece. Contracts see it as the bytes taken and its calls.
#[derive(Drop)]
pub struct MemSink {
    taken: Vec<u8>,
    calls: CallCount,
}

impl Model for MemSink {
    ghost use Rattle.reactor_outside.specs.Memory.{MemorySink};

    ghost Value = { MemorySink };

    ghost view = { λ sink. record { taken = sink.taken.items; calls = sink.calls } };
}

impl MemSink {
    pub fn new(alloc: Global, failing: Vec<u64>) -> MemSink
        ensures taken { result.taken ≡ [] }
        ensures calls { result.calls ≡ record { made = 0; failing = failing.items; failed = 0 } }
    {
        MemSink {
            taken: Vec::new(alloc),
            calls: CallCount::new(failing),
        }
    }

    /// What was taken so far.
    pub fn bytes(&self) -> &[u8]
        ensures { result.now ≡ self.now.taken }
    {
        self.taken.as_slice()
    }
}

impl Sink for MemSink {
    ghost faults = { λ sink. sink.calls.failed };

    ghost taken = { λ sink. Some sink.taken };

    fn write(&mut self, piece: &[u8]) -> Result<usize, Failed>
        ensures count { Counts self.old.calls.failed self.new.calls.failed result }
        ensures within { IfOk result (λ n. n ≤ length piece.now) }
        ensures some { 0 < length piece.now → IfOk result (λ n. 0 < n) }
        ensures took { IfOk result (λ n.
            Some self.new.taken ≡ with_bytes (take n piece.now) (Some self.old.taken)) }
        ensures failed { OnErr result (Some self.new.taken ≡ Some self.old.taken) }
        // It fails at each call that is to fail, and counts each call.
        ensures fails { IsTrue (next_fails self.old.calls) → IsErr result }
        ensures calls { self.new.calls ≡ after_call (is_err result) self.old.calls }
    {
        if self.calls.next_fails() || self.taken.extend_from_slice(piece).is_err() {
            self.calls.count_failure();
            return Err(Failed);
        }
        self.calls.count_success();
        Ok(piece.len())
    }
}
