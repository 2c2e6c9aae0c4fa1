ghost use Rattle.std.specs.Prelude.{◌≡◌, ◌<◌, ◌≤◌, ℕ, length, IfOk, IsOk, All, Some, None};
ghost use Rattle.reactor_outside.specs.Pieces.{most_bytes, piece_size, later_sizes};
ghost use Rattle.reactor_outside.specs.Source.{after_bytes, HoldsNext, EndsExactly};

use crate::pieces::Pieces;
use crate::sink::Sink;
use crate::source::{Failed, Source};
use std::marker::Model;

/// A source over memory that never fails. Contracts see it as the bytes left and the sizes of the pieces to come.
#[derive(Drop)]
pub struct SureSource {
    pieces: Pieces,
}

impl Model for SureSource {
    ghost use Rattle.reactor_outside.specs.Pieces.{InPieces};

    ghost Value = { InPieces };

    ghost view = { λ source. source.pieces };
}

impl SureSource {
    /// The bytes in pieces of these sizes, and then as they are asked for. A piece that is longer than the slice
    /// of a read is cut by it, and its rest is the next piece.
    pub fn new(bytes: Vec<u8>, pieces: Vec<usize>) -> SureSource
        requires { All (λ size. 0 < size) pieces.items }
        ensures { result ≡ record { left = bytes.items; sizes = pieces.items } }
    {
        SureSource {
            pieces: Pieces::new(bytes, pieces),
        }
    }
}

impl Source for SureSource {
    ghost faults = { λ _. 0 };

    ghost left = { λ source. Some source.left };

    fn read(&mut self, into: &mut [u8]) -> Result<usize, Failed>
        ensures sure { IsOk result }
        ensures within { IfOk result (λ n. n ≤ length into.old) }
        ensures next { IfOk result (λ n. HoldsNext n (Some self.old.left) into.new) }
        ensures rest { IfOk result (λ n. Some self.new.left ≡ after_bytes n (Some self.old.left)) }
        ensures end { IfOk result (λ n. EndsExactly n (Some self.old.left) into.old) }
        // It hands out the next piece, cut by the slice and by the bytes left.
        ensures size { IfOk result (λ n.
            n ≡ piece_size self.old.sizes (most_bytes into.old self.old.left)) }
        ensures later { self.new.sizes ≡ later_sizes self.old.sizes (most_bytes into.old self.old.left) }
    {
        Ok(self.pieces.hand_out(into))
    }
}

/// A sink that takes every piece whole, keeps nothing and never fails.
#[derive(Drop)]
pub struct SureSink;

impl SureSink {
    pub fn new() -> SureSink {
        SureSink
    }
}

impl Sink for SureSink {
    ghost use Rattle.std.specs.Prelude.{None};

    ghost faults = { λ _. 0 };

    ghost taken = { λ _. None };

    fn write(&mut self, piece: &[u8]) -> Result<usize, Failed> {
        Ok(piece.len())
    }
}
