ghost use Rattle.std.specs.Prelude.{◌≡◌, ℕ, ◌+◌, ◌-◌, ◌<◌, ◌≤◌, List, [], ◌∷◌, ◌++◌, length, take, map, IfOk, IsOk, OnOk, OnErr};
ghost use Rattle.snapshots.specs.Past.{one_more};

use crate::replay::Replay;
use crate::rewind::{cut_to_last, go_back, keep_mark};
use elm_base::{NoMemory, Steps};
use std::alloc::Global;
use std::marker::Model;
use std::sync::ledger::Ledger;

/// Recorded events, and a replay that stands for the first of them, up to the cursor. Contracts see the replay, the events,
/// the cursor and the spacing.
#[derive(Drop)]
pub struct History<R: Replay> {
    replay: R,
    events: Vec<R::Event>,
    cursor: usize,
    every: usize,
    kept: Vec<R::Mark>,
    end: Option<R::Mark>,
}

impl<R: Replay> Model for History<R> {
    ghost use Rattle.snapshots.specs.Kept.{Recorded, IsHistory};
    ghost use Rattle.snapshots.specs.Past.{StandsFor};

    ghost Value = { Recorded R R.Event };

    ghost view = { λ h. record { replay = h.replay; events = h.events.items; cursor = h.cursor; every = h.every } };

    ghost invariant = { λ h. IsHistory R.content (R.fits (R.made h.replay)) (R.list h.replay)
        (StandsFor (R.good h.replay) (R.list_of h.replay)) R.older
        h.events.items h.cursor h.every h.kept.items h.end };
}

impl<R: Replay> History<R> {
    /// A history without events, over a replay at its start. The spacing is the number of events from one kept mark to the
    /// next.
    pub fn new(alloc: Global, replay: R, every: u32) -> Result<History<R>, NoMemory>
        requires start { R.list replay ≡ [] }
        requires spaced { 0 < every }
        ensures events { IfOk result (λ h. h.events ≡ []) }
        ensures cursor { IfOk result (λ h. h.cursor ≡ 0) }
        ensures every { IfOk result (λ h. h.every ≡ every) }
        ensures shows { IfOk result (λ h. R.list h.replay ≡ []) }
        ensures made { IfOk result (λ h. R.made h.replay ≡ R.made replay) }
        ensures taken { IfOk result (λ h. R.taken h.replay ≡ R.taken replay) }
    {
        let mut replay = replay;
        let every = every as usize;
        let events: Vec<R::Event> = Vec::new(alloc);
        let mut kept = Vec::new(alloc);
        keep_mark(&mut replay, events.as_slice(), every, &mut kept)?;
        Ok(History {
            replay,
            events,
            cursor: 0,
            every,
            kept,
            end: None,
        })
    }

    /// How many of the events are shown.
    pub fn cursor(&self) -> usize
        ensures cursor { result ≡ self.now.cursor }
        ensures within { self.now.cursor ≤ length self.now.events }
        ensures shows { R.list self.now.replay ≡ take self.now.cursor (map R.content self.now.events) }
    {
        self.cursor
    }

    /// The recorded events, oldest first.
    pub fn events(&self) -> &[R::Event]
        ensures { result.now ≡ self.now.events }
    {
        self.events.as_slice()
    }

    /// The replay, whose state is that at the cursor.
    pub fn replay(&self) -> &R
        ensures replay { result.now ≡ self.now.replay }
        ensures shows { R.list result.now ≡ take self.now.cursor (map R.content self.now.events) }
    {
        &self.replay
    }

    /// Records one event at the end, and takes one step. After want of memory the events and the cursor are what they were.
    pub fn push<L: Ledger>(&mut self, event: R::Event, steps: &mut Steps<L>) -> Result<(), NoMemory>
        requires at_end { self.old.cursor ≡ length self.old.events }
        requires fits { R.fits (R.made self.old.replay) (R.content event) }
        ensures events { OnOk result (self.new.events ≡ self.old.events ++ event ∷ []) }
        ensures cursor { OnOk result (self.new.cursor ≡ self.old.cursor + 1) }
        ensures events_err { OnErr result (self.new.events ≡ self.old.events) }
        ensures cursor_err { OnErr result (self.new.cursor ≡ self.old.cursor) }
        ensures every { self.new.every ≡ self.old.every }
        ensures shows { R.list self.new.replay ≡ take self.new.cursor (map R.content self.new.events) }
        ensures made { R.made self.new.replay ≡ R.made self.old.replay }
        ensures counted { OnOk result (steps.new ≡ steps.old + 1) }
        ensures counted_most { steps.new ≤ steps.old + 1 }
        ensures taken { OnOk result (R.taken self.new.replay ≡ one_more (R.taken self.old.replay)) }
        ensures taken_most { R.taken self.new.replay ≤ R.taken self.old.replay + 1 }
    {
        let at = self.events.len();
        keep_mark(
            &mut self.replay,
            self.events.as_slice(),
            self.every,
            &mut self.kept,
        )?;
        self.events.push(event)?;
        match self.replay.step(&self.events[at], steps) {
            Ok(()) => {
                self.cursor = at + 1;
                Ok(())
            }
            Err(error) => {
                self.events.truncate(at);
                Err(error)
            }
        }
    }

    /// Shows the first events, this many. It takes fewer steps than the spacing, and none to the end. After want of memory
    /// it shows what it showed.
    pub fn goto<L: Ledger>(&mut self, cursor: usize, steps: &mut Steps<L>) -> Result<(), NoMemory>
        requires { cursor ≤ length self.old.events }
        ensures cursor { OnOk result (self.new.cursor ≡ cursor) }
        ensures cursor_err { OnErr result (self.new.cursor ≡ self.old.cursor) }
        ensures events { self.new.events ≡ self.old.events }
        ensures every { self.new.every ≡ self.old.every }
        ensures shows { R.list self.new.replay ≡ take self.new.cursor (map R.content self.new.events) }
        ensures made { R.made self.new.replay ≡ R.made self.old.replay }
        ensures counted { steps.new ≤ steps.old + (self.old.every - 1) }
        ensures taken { R.taken self.new.replay ≤ R.taken self.old.replay + (self.old.every - 1) }
    {
        if cursor == self.events.len() {
            self.latest();
            return Ok(());
        }
        let shown = go_back(
            &mut self.replay,
            self.events.as_slice(),
            self.every,
            self.kept.as_slice(),
            cursor,
            steps,
        )?;
        self.end = Some(self.end.take().unwrap_or(shown));
        self.cursor = cursor;
        Ok(())
    }

    /// Shows all events. It takes no step and no memory.
    pub fn latest(&mut self)
        ensures cursor { self.new.cursor ≡ length self.old.events }
        ensures events { self.new.events ≡ self.old.events }
        ensures every { self.new.every ≡ self.old.every }
        ensures shows { R.list self.new.replay ≡ map R.content self.new.events }
        ensures made { R.made self.new.replay ≡ R.made self.old.replay }
        ensures taken { R.taken self.new.replay ≡ R.taken self.old.replay }
    {
        if let Some(end) = self.end.take() {
            self.replay.cut(&end);
            self.cursor = self.events.len();
        }
    }

    /// Drops the events behind the cursor. It takes no step and finds memory. What came after the last kept mark is given
    /// back where that mark is the cursor's own; elsewhere it stays until a call goes back to an older mark, since no way
    /// would lead back from there if a step found no memory.
    pub fn resume<L: Ledger>(&mut self, _steps: &mut Steps<L>) -> Result<(), NoMemory>
        ensures events { self.new.events ≡ take self.old.cursor self.old.events }
        ensures cursor { self.new.cursor ≡ self.old.cursor }
        ensures at_end { self.new.cursor ≡ length self.new.events }
        ensures every { self.new.every ≡ self.old.every }
        ensures shows { R.list self.new.replay ≡ map R.content self.new.events }
        ensures made { R.made self.new.replay ≡ R.made self.old.replay }
        ensures counted { _steps.new ≡ _steps.old }
        ensures taken { R.taken self.new.replay ≡ R.taken self.old.replay }
        ensures succeeds { IsOk result }
    {
        let cursor = self.cursor;
        if cursor == self.events.len() {
            return Ok(());
        }
        self.end = None;
        self.events.truncate(cursor);
        self.kept.truncate(cursor / self.every + 1);
        cut_to_last(
            &mut self.replay,
            self.events.as_slice(),
            self.every,
            self.kept.as_slice(),
        );
        Ok(())
    }
}
