//! The top call of the program: the words of its command line, the project, and the script, line by line.
#![tactic(auto)]

mod answering;
mod form;
mod literal;
mod project;
mod run;
mod serve;
mod session;
mod status;
mod words;

pub use run::reactor_run;
pub use status::Status;
pub use words::Words;
