//! The outside: where files come from and where text goes, as two traits whose contracts count faults,
//! with a pair of types that stands in memory, a pair that never fails, and a pair that stands on the runtime.
#![tactic(auto)]

mod faults;
mod file_shelf;
mod memory_shelf;
mod memory_sink;
mod misses;
mod objects;
mod shelves;
mod sinks;
mod std_sink;
mod sure_shelf;
mod sure_sink;

pub use faults::{Failed, FetchFault, SinkFault};
pub use file_shelf::FileShelf;
pub use memory_shelf::MemoryShelf;
pub use memory_sink::MemorySink;
pub use objects::NamedBytes;
pub use shelves::Shelf;
pub use sinks::{Sink, put_all};
pub use std_sink::StdSink;
pub use sure_shelf::SureShelf;
pub use sure_sink::SureSink;
