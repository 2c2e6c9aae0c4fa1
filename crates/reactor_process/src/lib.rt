//! The program as a process: standard input is the script, standard output the screen, and the files are those of the
//! folder in which it starts. It writes nothing to standard error, and ends with the code of the run's status.
#![tactic(auto)]

ghost use Rattle.std.specs.Prelude.{◌≡◌, ◌<◌};
ghost use Rattle.std.specs.Process.{exit_status};
ghost use Rattle.reactor_engine.specs.Status.{code_of};

use elm_base::Steps;
use reactor_engine::{Status, Words, reactor_run};
use reactor_outside::{FolderShelf, ReaderSource, WriterSink};
use std::alloc::Global;
use std::env;
use std::io::{Eprint, ErrorKind};
use std::marker::Brand;
use std::process::{ExitCode, Termination};
use std::sync::ledger::{Blank, Ledger};

/// How the process ends: with the code of the status of its run. Only `run_process` makes one, so a `main` that gives it
/// ends with no other code.
#[derive(Drop)]
pub struct Ended {
    status: Status,
}

impl Termination for Ended {
    fn report<R: Eprint>(self, _rt: &R) -> ExitCode
        ensures { exit_status result ≡ code_of self.status }
    {
        ExitCode::from(self.status.code())
    }
}

/// Runs the Reactor with the words, the streams and the files that the system gives the process. Where no memory is
/// found for the words, that is the status.
pub fn run_process(rt: &HostRuntime) -> Ended {
    let status = match words_of(rt.alloc(), rt) {
        Ok(words) => run::<Brand>(rt, &words, Blank::new(1)),
        Err(status) => status,
    };
    Ended { status }
}

/// The words behind the program's own name. Arguments that can't be had are no words, which the run refuses.
fn words_of(alloc: Global, rt: &HostRuntime) -> Result<Words, Status> {
    let mut words = Words::new(alloc)?;
    match env::args(rt) {
        Ok(arguments) => {
            for argument in arguments.skip(1) {
                words.add(argument.as_str())?;
            }
            Ok(words)
        }
        Err(error) => match error.kind() {
            ErrorKind::OutOfMemory => Err(Status::NoMemory),
            _ => Ok(words),
        },
    }
}

/// Runs with the adapters over the system.
fn run<L: Ledger>(rt: &HostRuntime, words: &Words, blank: Blank) -> Status
    requires name { blank.name ≡ L.name }
    requires parts { blank.parts ≡ L.parts }
    requires some_parts { 0 < blank.parts }
{
    let mut steps = Steps::<L>::from_blank(blank);
    let mut shelf = FolderShelf::new(rt);
    let mut script = ReaderSource::new(rt.stdin());
    let mut screen = WriterSink::new(rt.stdout());
    reactor_run(
        rt.alloc(),
        words,
        &mut shelf,
        &mut script,
        &mut screen,
        &mut steps,
    )
}
