//! The program once more, on a folder without the project that the words name: its stored run ends with another status
//! than 0, so a program that always ends with 0 is seen.
#![tactic(auto)]

use reactor_process::{Ended, run_process};

fn main(rt: HostRuntime) -> Ended {
    run_process(&rt)
}
