ghost use Rattle.std.specs.Prelude.{◌≤◌, length, IfOk};

use async_queue::AsyncLog;
use elm_base::Ref;
use std::alloc::Global;
use std::test::Fail;

// A log that was given 30, 10 and 20, of which nothing was taken.
fn three(alloc: Global) -> Result<AsyncLog, elm_base::NoMemory>
    ensures { IfOk result (λ log. length log.entries ≤ log.len) }
{
    let mut log = AsyncLog::new(alloc)?;
    log.push(30)?;
    log.push(10)?;
    log.push(20)?;
    Ok(log)
}

fn taken_in_turn(log: &mut AsyncLog) -> [Option<Ref>; 3] {
    let first = log.take();
    let second = log.take();
    [first, second, log.take()]
}

#[test]
fn what_comes_first_is_taken_first(rt: HostRuntime) -> Result<(), Fail> {
    let mut log = three(rt.alloc())?;
    assert_eq!(rt; log.pending(), 3);
    assert_eq!(rt; taken_in_turn(&mut log), [Some(30), Some(10), Some(20)]);
    assert_eq!(rt; log.pending(), 0);
    assert_eq!(rt; log.take(), None);
    Ok(())
}

#[test]
fn a_rewound_log_gives_its_entries_again(rt: HostRuntime) -> Result<(), Fail> {
    let mut log = AsyncLog::new(rt.alloc())?;
    log.push(5)?;
    let start = log.mark();
    log.push(7)?;
    assert!(rt; !log.ahead());
    assert_eq!(rt; log.take(), Some(5));
    log.rewind(start);
    assert!(rt; log.ahead());
    log.advance();
    assert_eq!(rt; taken_in_turn(&mut log), [Some(5), Some(7), None]);
    Ok(())
}

#[test]
fn a_cut_log_drops_what_came_later(rt: HostRuntime) -> Result<(), Fail> {
    let alloc = rt.alloc();
    let start = AsyncLog::new(alloc)?.mark();
    let mut log = three(alloc)?;
    let end = log.mark();
    log.cut(start);
    assert!(rt; !log.ahead() && !log.keeps(end));
    assert_eq!(rt; log.pending(), 0);
    Ok(())
}

#[test]
fn a_trimmed_log_drops_from_the_first_large_entry(rt: HostRuntime) -> Result<(), Fail> {
    let mut log = AsyncLog::new(rt.alloc())?;
    let start = log.mark();
    log.push(8)?;
    log.push(9)?;
    log.push(7)?;
    log.rewind(start);
    log.trim(9);
    assert!(rt; log.ahead());
    log.advance();
    assert!(rt; !log.ahead());
    assert_eq!(rt; taken_in_turn(&mut log), [Some(8), None, None]);
    Ok(())
}
