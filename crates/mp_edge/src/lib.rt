//! What the program meets outside: the words that it is started with, and a source of bytes, a sink of bytes and a store of files, each with a count of its faults.
#![tactic(auto)]

mod memory;
mod outside;
mod real;
mod words;

pub use memory::{MemSink, MemSource, MemStore, NoMemory};
pub use outside::{Failed, Sink, Source, Store, StoreFault};
pub use real::{FileStore, StdSink, StdSource};
pub use words::{WordsFault, read_words};
