//! What a program reads from and writes to: sources and sinks of bytes that count their faults.
//!
//! - `failed`: `Failed`, a device refused.
//! - `source`, `sink`: the traits `Source` and `Sink`.
//! - `memory_source`, `memory_sink`: devices in memory whose calls are short and fail as they are told to.
//! - `sure_source`, `sure_sink`: devices in memory that never fail; `slice_source`: such a source of bytes that lie elsewhere.
//! - `std_source`, `std_sink`: devices over std's readers and writers, the trusted edge.
//! - `read`: `read_to_end`, all bytes of a source, up to `LIMIT`.
//! - `write`: `write_all`, a whole text into a sink.
#![tactic(auto)]

pub use failed::Failed;
pub use memory_sink::MemorySink;
pub use memory_source::MemorySource;
pub use read::{LIMIT, ReadError, read_to_end};
pub use sink::Sink;
pub use slice_source::SliceSource;
pub use source::Source;
pub use std_sink::StdSink;
pub use std_source::StdSource;
pub use sure_sink::SureSink;
pub use sure_source::SureSource;
pub use write::write_all;

mod failed;
mod memory_sink;
mod memory_source;
mod read;
mod room;
mod schedule;
mod sink;
mod slice_source;
mod source;
mod std_sink;
mod std_source;
mod sure_sink;
mod sure_source;
#[cfg(test)]
mod tests;
mod unread;
mod write;
