ghost use Rattle.std.specs.Prelude.{◌≡◌, ℕ, ◌+◌, ◌-◌, ◌*◌, ◌/◌, ◌<◌, ◌≤◌, List, length, take, map, slice_get, IfOk, OnOk, OnErr, Some};
ghost use Rattle.snapshots.specs.Kept.{AllFit, AreKept};
ghost use Rattle.snapshots.specs.Past.{KeepsPrefixes, StandsFor};
ghost use Rattle.snapshots.specs.Prefixes.{IsPrefix};

use crate::replay::Replay;
use elm_base::{NoMemory, Steps};
use std::sync::ledger::Ledger;

// Takes the events from one place up to another.
pub fn replay_between<R: Replay, L: Ledger>(
    replay: &mut R,
    events: &[R::Event],
    from: usize,
    to: usize,
    steps: &mut Steps<L>,
) -> Result<(), NoMemory>
    requires ordered { from ≤ to }
    requires within { to ≤ length events.now }
    requires fit { AllFit R.content (R.fits (R.made replay.old)) events.now }
    requires shows { R.list replay.old ≡ take from (map R.content events.now) }
    ensures shows { OnOk result (R.list replay.new ≡ take to (map R.content events.now)) }
    ensures made { R.made replay.new ≡ R.made replay.old }
    ensures marks { KeepsPrefixes (map R.content events.now) (StandsFor (R.good replay.old) (R.list_of replay.old))
        (StandsFor (R.good replay.new) (R.list_of replay.new)) }
    ensures counted { steps.new ≤ steps.old + (to - from) }
    ensures taken { R.taken replay.new ≤ R.taken replay.old + (to - from) }
{
    for at in from..to {
        replay.step(&events[at], steps)?;
    }
    Ok(())
}

// Goes back to the last kept mark that isn't behind the cursor, and takes the events from there up to the cursor. The answer
// is a mark of the state before. After want of memory that state stands again, and what came after it is given back.
pub fn go_back<R: Replay, L: Ledger>(
    replay: &mut R,
    events: &[R::Event],
    every: usize,
    kept: &[R::Mark],
    cursor: usize,
    steps: &mut Steps<L>,
) -> Result<R::Mark, NoMemory>
    requires spaced { 0 < every }
    requires within { cursor < length events.now }
    requires fit { AllFit R.content (R.fits (R.made replay.old)) events.now }
    requires shows { IsPrefix (R.list replay.old) (map R.content events.now) }
    requires kept { AreKept (StandsFor (R.good replay.old) (R.list_of replay.old)) R.older
        (map R.content events.now) every kept.now }
    ensures shows { OnOk result (R.list replay.new ≡ take cursor (map R.content events.now)) }
    ensures back { IfOk result (λ m. StandsFor (R.good replay.new) (R.list_of replay.new) m (R.list replay.old)) }
    ensures newest { IfOk result (λ m. (k : ℕ) (a : R.Mark) → slice_get kept.now k ≡ Some a → R.older a m) }
    ensures shows_err { OnErr result (R.list replay.new ≡ R.list replay.old) }
    ensures made { R.made replay.new ≡ R.made replay.old }
    ensures marks { KeepsPrefixes (map R.content events.now) (StandsFor (R.good replay.old) (R.list_of replay.old))
        (StandsFor (R.good replay.new) (R.list_of replay.new)) }
    ensures counted { steps.new ≤ steps.old + (every - 1) }
    ensures taken { R.taken replay.new ≤ R.taken replay.old + (every - 1) }
{
    let shown = replay.mark()?;
    let place = cursor / every;
    replay.restore(&kept[place]);
    match replay_between(replay, events, place * every, cursor, steps) {
        Ok(()) => Ok(shown),
        Err(error) => {
            replay.cut(&shown);
            Err(error)
        }
    }
}

// Keeps a mark of the end of the events, where their number is a multiple of the spacing that has none yet.
pub fn keep_mark<R: Replay>(
    replay: &mut R,
    events: &[R::Event],
    every: usize,
    kept: &mut Vec<R::Mark>,
) -> Result<(), NoMemory>
    requires spaced { 0 < every }
    requires at_end { R.list replay.old ≡ map R.content events.now }
    requires kept { AreKept (StandsFor (R.good replay.old) (R.list_of replay.old)) R.older
        (map R.content events.now) every kept.old.items }
    ensures kept { AreKept (StandsFor (R.good replay.new) (R.list_of replay.new)) R.older
        (map R.content events.now) every kept.new.items }
    ensures room { OnOk result (length events.now < length kept.new.items * every) }
    ensures list { R.list replay.new ≡ R.list replay.old }
    ensures made { R.made replay.new ≡ R.made replay.old }
    ensures taken { R.taken replay.new ≡ R.taken replay.old }
{
    let due = events.len() / every == kept.len();
    if due {
        let mark = replay.mark()?;
        kept.push(mark)?;
    }
    Ok(())
}

// Gives back what came after the last kept mark, where that is a mark of the end of the events.
pub fn cut_to_last<R: Replay>(replay: &mut R, events: &[R::Event], every: usize, kept: &[R::Mark])
    requires spaced { 0 < every }
    requires at_end { R.list replay.old ≡ map R.content events.now }
    requires kept { AreKept (StandsFor (R.good replay.old) (R.list_of replay.old)) R.older
        (map R.content events.now) every kept.now }
    requires last { length kept.now ≡ length events.now / every + 1 }
    ensures kept { AreKept (StandsFor (R.good replay.new) (R.list_of replay.new)) R.older
        (map R.content events.now) every kept.now }
    ensures list { R.list replay.new ≡ R.list replay.old }
    ensures made { R.made replay.new ≡ R.made replay.old }
    ensures taken { R.taken replay.new ≡ R.taken replay.old }
{
    let place = events.len() / every;
    if place * every == events.len() {
        replay.cut(&kept[place]);
    }
}
