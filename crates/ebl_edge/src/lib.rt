//! The outside as traits with a count of faults: sources, sinks and links of bytes, and clocks; in memory and over std.
#![tactic(auto)]

mod bounded_link;
mod bounded_sink;
mod clock;
mod infallible_source;
mod link;
mod memory_clock;
mod memory_link;
mod memory_sink;
mod memory_source;
mod program;
mod reader_source;
mod repeated_source;
mod sink;
mod source;
mod standard;
mod std_calls;
mod stream_link;
mod system_clock;
mod writer_sink;

pub use bounded_link::BoundedLink;
pub use bounded_sink::BoundedSink;
pub use clock::Clock;
pub use infallible_source::InfallibleSource;
pub use link::Link;
pub use memory_clock::MemoryClock;
pub use memory_link::{MemoryLink, PieceList};
pub use memory_sink::MemorySink;
pub use memory_source::MemorySource;
pub use program::words;
pub use reader_source::ReaderSource;
pub use repeated_source::RepeatedSource;
pub use sink::Sink;
pub use source::Source;
pub use standard::{standard_input, standard_output};
pub use stream_link::StreamLink;
pub use system_clock::SystemClock;
pub use writer_sink::WriterSink;
