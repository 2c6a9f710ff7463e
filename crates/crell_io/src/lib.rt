//! The outside of the program: a shelf that texts are read from, and a sink that text is written to.
//!
//! Each is a trait with what it tells of its bytes and its counts of faults. There is one of each in
//! memory, which tells all, and one of each over the system, which tells nothing.
#![tactic(auto)]

mod count;
mod host;
mod laws;
mod mem_shelf;
mod mem_sink;
mod shelf;
mod sink;

pub use host::{HostShelf, HostSink};
pub use laws::{examples_of_counts, examples_of_sinks};
pub use mem_shelf::{Entry, MemShelf};
pub use mem_sink::MemSink;
pub use shelf::{Shelf, ShelfEnd};
pub use sink::{Sink, SinkFault};
