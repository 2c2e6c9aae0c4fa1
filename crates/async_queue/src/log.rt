ghost use Rattle.std.specs.Prelude.{◌≡◌, ◌+◌, ◌-◌, ◌<◌, ◌≤◌, ◌↔◌, ◌++◌, ◌∷◌, [], length, slice_index, take, nat_lt, All, IsTrue, IsNone, IfSome, IfNone, IfOk, OnOk, OnErr, OnSome};
ghost use Rattle.std.specs.List.{prefix_len, take_while};
ghost use Rattle.async_queue.specs.Log.{given_of, pending_of, IsAhead, Keeps};

use elm_base::{NoMemory, Ref};
use std::alloc::Global;
use std::marker::Model;

/// A place of a log in time: its length and how many entries were taken. Contracts see these two.
#[derive(Clone, Copy, Debug)]
pub struct LogMark {
    len: u32,
    taken: u32,
}

impl Model for LogMark {
    ghost use Rattle.std.specs.Prelude.{◌≤◌};
    ghost use Rattle.async_queue.specs.Log.{Mark};

    ghost Value = { Mark };

    ghost view = { λ mark. record { len = mark.len; taken = mark.taken } };

    ghost inverse = { λ mark. record { len = mark.len; taken = mark.taken } };

    ghost invariant = { λ mark. mark.taken ≤ mark.len };
}

/// The values that one async was given, oldest first. Entries can stand beyond the length: the log went back to a mark,
/// and keeps what had come after it. Contracts see the kept entries, the length and the count of taken entries.
#[derive(Debug, Drop)]
pub struct AsyncLog {
    entries: Vec<Ref>,
    len: u32,
    taken: u32,
}

impl Model for AsyncLog {
    ghost use Rattle.async_queue.specs.Log.{Log, IsInOrder};

    ghost Value = { Log };

    ghost view = { λ log. record { entries = log.entries.items; len = log.len; taken = log.taken } };

    ghost invariant = { λ log. IsInOrder log.entries.items log.len log.taken };
}

impl AsyncLog {
    /// A log without entries.
    pub fn new(alloc: Global) -> Result<AsyncLog, NoMemory>
        ensures { IfOk result (λ log. log ≡ record { entries = []; len = 0; taken = 0 }) }
    {
        Ok(AsyncLog {
            entries: Vec::new(alloc),
            len: 0,
            taken: 0,
        })
    }

    /// The async is given one more value, the newest. A log of 2^32 - 1 entries takes no further one: that is answered
    /// as want of memory.
    pub fn push(&mut self, value: Ref) -> Result<(), NoMemory>
        requires { length self.old.entries ≤ self.old.len }
        ensures kept { OnOk result (self.new.entries ≡ self.old.entries ++ value ∷ []) }
        ensures len { OnOk result (self.new.len ≡ self.old.len + 1) }
        ensures taken { self.new.taken ≡ self.old.taken }
        ensures newest { OnOk result (pending_of self.new ≡ pending_of self.old ++ value ∷ []) }
        ensures err { OnErr result (self.new ≡ self.old) }
    {
        if self.len == u32::MAX {
            return Err(NoMemory);
        }
        self.entries.push(value)?;
        self.len += 1;
        Ok(())
    }

    /// Whether kept entries stand beyond the length.
    pub fn ahead(&self) -> bool
        ensures { IsTrue result ↔ IsAhead self.now }
    {
        (self.len as usize) < self.entries.len()
    }

    /// The length grows over the next kept entry: the async is given that value again.
    pub fn advance(&mut self)
        requires { IsAhead self.old }
        ensures one_more { self.new ≡ record self.old { len = self.old.len + 1 } }
        ensures newest { pending_of self.new ≡ pending_of self.old ++ slice_index self.old.entries self.old.len ∷ [] }
    {
        self.len += 1;
    }

    /// How many entries wait to be taken.
    pub fn pending(&self) -> u32
        ensures difference { result ≡ self.now.len - self.now.taken }
        ensures count { result ≡ length (pending_of self.now) }
    {
        self.len - self.taken
    }

    /// Takes the oldest entry that waits, if there is one.
    pub fn take(&mut self) -> Option<Ref>
        ensures oldest { IfSome result (λ value. pending_of self.old ≡ value ∷ pending_of self.new) }
        ensures one_more { OnSome result (self.new ≡ record self.old { taken = self.old.taken + 1 }) }
        ensures none { IsNone result ↔ (pending_of self.old ≡ []) }
        ensures unchanged { IfNone result (self.new ≡ self.old) }
    {
        if self.taken == self.len {
            return None;
        }
        let value = self.entries[self.taken as usize];
        self.taken += 1;
        Some(value)
    }

    /// The place in time of this log, to go back to.
    pub fn mark(&self) -> LogMark
        ensures len { result.len ≡ self.now.len }
        ensures taken { result.taken ≡ self.now.taken }
        ensures keeps { Keeps self.now result }
    {
        LogMark {
            len: self.len,
            taken: self.taken,
        }
    }

    /// Whether the log keeps at least as many entries as the marked length.
    pub fn keeps(&self, mark: LogMark) -> bool
        ensures { IsTrue result ↔ Keeps self.now mark }
    {
        mark.len as usize <= self.entries.len()
    }

    /// Back to the mark: its length and its count of taken entries. The entries are kept.
    pub fn rewind(&mut self, mark: LogMark)
        requires { Keeps self.old mark }
        ensures entries { self.new.entries ≡ self.old.entries }
        ensures len { self.new.len ≡ mark.len }
        ensures taken { self.new.taken ≡ mark.taken }
    {
        self.len = mark.len;
        self.taken = mark.taken;
    }

    /// Back to the mark, and the entries beyond its length are dropped.
    pub fn cut(&mut self, mark: LogMark)
        requires { Keeps self.old mark }
        ensures entries { self.new.entries ≡ take mark.len self.old.entries }
        ensures len { self.new.len ≡ mark.len }
        ensures taken { self.new.taken ≡ mark.taken }
    {
        self.rewind(mark);
        self.entries.truncate(mark.len as usize);
    }

    /// Drops the first entry that isn't smaller than `below`, and all entries after it. The entries within the length are
    /// smaller, so the length and the count of taken entries stay.
    pub fn trim(&mut self, below: Ref)
        requires { All (λ value. value < below) (given_of self.old) }
        ensures entries { self.new.entries ≡ take_while (λ value. nat_lt value below) self.old.entries }
        ensures len { self.new.len ≡ self.old.len }
        ensures taken { self.new.taken ≡ self.old.taken }
        ensures given { given_of self.new ≡ given_of self.old }
    {
        let kept = count_below(self.entries.as_slice(), below);
        self.entries.truncate(kept);
    }
}

// How many entries stand before the first one that isn't smaller than `below`.
fn count_below(entries: &[Ref], below: Ref) -> usize
    ensures { result ≡ prefix_len (λ value. nat_lt value below) entries.now }
{
    entries.iter().take_while(|value| **value < below).count()
}
