//! What notes on sorts say, followed through.
#![tactic(auto)]

mod closing;

pub use closing::closed;
