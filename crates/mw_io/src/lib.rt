//! What a program reads and writes, as traits: files that are read, and a sink that takes bytes.
#![tactic(auto)]

mod host;
mod memory;
mod plan;
mod real;
mod shelf;
mod sink;
mod sure;
mod tally;
mod whole;

pub use host::{Host, HostFailed};
pub use memory::{MemHost, MemSink};
pub use real::{RealHost, RealSink};
pub use sink::{Sink, SinkFault};
pub use sure::{SureHost, SureSink};
pub use whole::{ReadFault, read_up_to, write_all};
