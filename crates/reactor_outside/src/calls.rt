ghost use Rattle.std.specs.Prelude.{◌≡◌, true, false, ℕ};
ghost use Rattle.reactor_outside.specs.Count.{Rose};
ghost use Rattle.reactor_outside.specs.Calls.{Calls, next_fails, after_call};

use std::marker::Model;

/// Counts the calls of an object that fails at calls of given numbers, counted from 1.
#[derive(Drop)]
pub struct CallCount {
    made: u64,
    failing: Vec<u64>,
    failed: u64,
}

impl Model for CallCount {
    ghost use Rattle.reactor_outside.specs.Calls.{Calls};

    ghost Value = { Calls };

    ghost view = { λ count. record {
      made = count.made;
      failing = count.failing.items;
      failed = count.failed;
    } };
}

impl CallCount {
    pub fn new(failing: Vec<u64>) -> CallCount
        ensures { result ≡ record { made = 0; failing = failing.items; failed = 0 } }
    {
        CallCount {
            made: 0,
            failing,
            failed: 0,
        }
    }

    /// Whether the next call is to fail.
    pub fn next_fails(&self) -> bool
        ensures { result ≡ next_fails self.now }
    {
        self.failing.contains(&self.made.saturating_add(1))
    }

    /// Counts a call that failed.
    pub fn count_failure(&mut self)
        ensures calls { self.new ≡ after_call true self.old }
        ensures rose { Rose self.old.failed self.new.failed }
    {
        self.made = self.made.saturating_add(1);
        self.failed = self.failed.saturating_add(1);
    }

    /// Counts a call that did not fail.
    pub fn count_success(&mut self)
        ensures { self.new ≡ after_call false self.old }
    {
        self.made = self.made.saturating_add(1);
    }
}
