//! What the program meets outside: a shelf of files that it reads, and sinks of bytes that it writes
//! to. The calm and the memory types tell their bytes; `DirShelf` and `StdSink` stand before the
//! system, and tell nothing of content.
#![tactic(auto)]

mod calls;
mod calm;
mod cuts;
mod files;
mod memory;
mod real;
mod shelf;
mod sink;

pub use calls::Calls;
pub use calm::{CalmShelf, CalmSink};
pub use cuts::{Cut, Cuts};
pub use files::{File, Files};
pub use memory::{MemShelf, MemSink};
pub use real::{DirShelf, StdSink};
pub use shelf::{Shelf, ShelfFault};
pub use sink::{Sink, SinkFault};
