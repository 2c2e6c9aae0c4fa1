//! What the program reads and writes: a source of bytes, a sink of bytes and a shelf of files.
//!
//! Each is a trait, so that a contract can speak of any of them. Each has a count of its failures, which only the
//! outside can raise: where an answer says that the outside failed, the count shows it. Each may tell its content.
#![tactic(auto)]

mod calls;
mod folder;
mod memory;
mod pieces;
mod repeated;
mod retry;
mod shelf;
mod shelves;
mod sink;
mod source;
mod streams;
mod sure;
mod table;

pub use folder::FolderShelf;
pub use memory::{MemSink, MemSource};
pub use shelf::{Shelf, ShelfRefusal};
pub use shelves::{MemShelf, SureShelf};
pub use sink::{Sink, put};
pub use source::{Failed, Source};
pub use streams::{ReaderSource, WriterSink};
pub use sure::{SureSink, SureSource};
