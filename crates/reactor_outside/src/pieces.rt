ghost use Rattle.std.specs.Prelude.{◌≡◌, ◌≤◌, ◌<◌, ◌↔◌, [], length, take, drop, All};
ghost use Rattle.reactor_outside.specs.Pieces.{most_bytes, piece_size, later_sizes};

use std::marker::Model;

/// The sizes of pieces, each at least 1. Contracts see those that are still to come, the next one first.
#[derive(Drop)]
pub struct Sizes {
    sizes: Vec<usize>,
    next: usize,
}

impl Model for Sizes {
    ghost use Rattle.std.specs.Prelude.{List, ℕ, drop, length, All, ◌≤◌, ◌<◌};

    ghost Value = { List ℕ };

    ghost view = { λ of. drop of.next of.sizes.items };

    ghost invariant = { λ of.
        (of.next ≤ length of.sizes.items) × All (λ size. 0 < size) of.sizes.items };
}

impl Sizes {
    pub fn new(sizes: Vec<usize>) -> Sizes
        requires { All (λ size. 0 < size) sizes.items }
        ensures { result ≡ sizes.items }
    {
        Sizes { sizes, next: 0 }
    }

    /// How many bytes are handed out where at most `most` may be: the next piece, of which the rest stays.
    pub fn take(&mut self, most: usize) -> usize
        ensures size { result ≡ piece_size self.old most }
        ensures later { self.new ≡ later_sizes self.old most }
        ensures within { result ≤ most }
        ensures some { 0 < most → 0 < result }
    {
        if self.next == self.sizes.len() {
            return most;
        }
        let size = self.sizes[self.next];
        if size > most {
            self.sizes[self.next] = size - most;
            return most;
        }
        self.next += 1;
        size
    }
}

/// Bytes that are handed out in pieces of given sizes, and then as many as are asked for.
/// A piece that is longer than what is asked for is cut, and its rest is the next piece.
/// Contracts see it as the bytes that are left, and the sizes of the pieces to come.
#[derive(Drop)]
pub struct Pieces {
    bytes: Vec<u8>,
    at: usize,
    sizes: Sizes,
}

impl Model for Pieces {
    ghost use Rattle.std.specs.Prelude.{drop, length, ◌≤◌};
    ghost use Rattle.reactor_outside.specs.Pieces.{InPieces};

    ghost Value = { InPieces };

    ghost view = { λ pieces. record {
      left = drop pieces.at pieces.bytes.items;
      sizes = pieces.sizes;
    } };

    ghost invariant = { λ pieces. pieces.at ≤ length pieces.bytes.items };
}

impl Pieces {
    pub fn new(bytes: Vec<u8>, sizes: Vec<usize>) -> Pieces
        requires { All (λ size. 0 < size) sizes.items }
        ensures { result ≡ record { left = bytes.items; sizes = sizes.items } }
    {
        Pieces {
            bytes,
            at: 0,
            sizes: Sizes::new(sizes),
        }
    }

    /// Hands out the next bytes to the front of `into`, and says how many: the next piece, cut by `into` and by the
    /// bytes that are left.
    pub fn hand_out(&mut self, into: &mut [u8]) -> usize
        ensures within { result ≤ length into.old }
        ensures there { result ≤ length self.old.left }
        ensures next { take result into.new ≡ take result self.old.left }
        ensures rest { self.new.left ≡ drop result self.old.left }
        ensures end { 0 < length into.old → (result ≡ 0) ↔ (self.old.left ≡ []) }
        ensures size { result ≡ piece_size self.old.sizes (most_bytes into.old self.old.left) }
        ensures later { self.new.sizes ≡ later_sizes self.old.sizes (most_bytes into.old self.old.left) }
    {
        let most = into.len().min(self.bytes.len() - self.at);
        let count = self.sizes.take(most);
        copy_front(&self.bytes[self.at..], into, count);
        self.at += count;
        count
    }
}

/// Copies the first `count` bytes.
pub fn copy_front(from: &[u8], into: &mut [u8], count: usize)
    requires from { count ≤ length from.now }
    requires into { count ≤ length into.old }
    ensures { take count into.new ≡ take count from.now }
{
    into[..count].copy_from_slice(&from[..count]);
}
