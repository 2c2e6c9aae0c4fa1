//! The program: standard input is the script, standard output the screen, and the files are those of the folder in
//! which it starts. It writes nothing to standard error, and ends with the code of the run's status.
#![tactic(auto)]

use reactor_process::{Ended, run_process};

fn main(rt: HostRuntime) -> Ended {
    run_process(&rt)
}
