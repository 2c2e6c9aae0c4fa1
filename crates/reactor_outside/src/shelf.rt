ghost use Rattle.std.specs.Prelude.{◌≡◌, ℕ, Option, IfSome, IfErr};
ghost use Rattle.reactor_outside.specs.Shelf.{Files, CountsCall, AnswersRead, Writes, RefusesWrite, BothTold};

use std::alloc::Global;

/// Why a shelf gave no file, or took none.
#[derive(Clone, Copy, Debug, PartialEq, Eq)]
pub enum ShelfRefusal {
    /// There is no file of this name.
    Missing,
    /// The file has more bytes than the limit.
    TooLong,
    /// The outside failed, as the shelf's count shows.
    Failed,
    NoMemory,
}

/// Files by their names.
pub trait Shelf {
    /// How often a call has failed. It never falls, and stands still at the last number of 64 bits.
    ghost faults: { Self → ℕ };

    /// The files, where the shelf tells them.
    ghost files: { Self → Option Files };

    /// The bytes of a file, where it has at most `limit` of them. No read changes a file.
    fn read(&mut self, alloc: Global, name: &str, limit: usize) -> Result<Vec<u8>, ShelfRefusal>
        ensures count { CountsCall (faults self.old) (faults self.new) result }
        ensures answer { IfSome (files self.old) (λ told.
            AnswersRead (λ v. v.items) (told name.now) limit result) }
        ensures same { files self.new ≡ files self.old };

    /// Puts the bytes at the name, in place of a file that was there.
    fn write(&mut self, name: &str, bytes: &[u8]) -> Result<(), ShelfRefusal>
        ensures count { CountsCall (faults self.old) (faults self.new) result }
        ensures written { BothTold (files self.old) (files self.new)
            (λ before after. Writes name.now bytes.now before after result) }
        ensures refused { IfErr result RefusesWrite };
}
