ghost use Rattle.std.specs.Prelude.{◌≡◌, ℕ, ◌<◌, ◌≤◌, ⊤, replicate};

use elm_base::{NoMemory, Steps};
use snapshots::Replay;
use std::sync::ledger::Ledger;

/// A replay that counts its events. Its marks are copies of the count, and never lost. Steps of chosen numbers find no memory.
#[derive(Drop)]
pub struct Counter {
    pub count: u64,
    pub asked: u64,
    pub failing: u64,
}

/// A count to go back to.
#[derive(Drop)]
pub struct CounterMark {
    pub count: u64,
}

impl Counter {
    /// No event so far. Each step whose number is a multiple of `failing` finds no memory; 0: each step finds it.
    pub fn new(failing: u64) -> Counter
        ensures { result ≡ record { count = 0; asked = 0; failing = failing } }
    {
        Counter {
            count: 0,
            asked: 0,
            failing,
        }
    }

    // Whether the present step finds no memory.
    fn fails(&self) -> bool {
        self.failing != 0 && self.asked % self.failing == 0
    }
}

impl Replay for Counter {
    type Event = u32;

    type Mark = CounterMark;

    type Content = ();

    type Made = u64;

    ghost content = { λ _. tt };

    ghost made = { λ c. c.failing };

    ghost fits = { λ _ _. ⊤ };

    ghost list = { λ c. replicate c.count tt };

    ghost taken = { λ c. c.asked };

    ghost good = { λ _ _. ⊤ };

    ghost list_of = { λ _ m. replicate m.count tt };

    ghost older = { λ _ _. ⊤ };

    fn step<L: Ledger>(&mut self, _event: &u32, steps: &mut Steps<L>) -> Result<(), NoMemory> {
        steps.tick();
        self.asked = self.asked.saturating_add(1);
        if self.count == u64::MAX || self.fails() {
            return Err(NoMemory);
        }
        self.count += 1;
        Ok(())
    }

    fn mark(&mut self) -> Result<CounterMark, NoMemory> {
        Ok(CounterMark { count: self.count })
    }

    fn restore(&mut self, mark: &CounterMark) {
        self.count = mark.count;
    }

    fn cut(&mut self, mark: &CounterMark) {
        self.count = mark.count;
    }
}
