//! Where files come from and where bytes go: cabinets and sinks, in memory and over the system.
//!
//! The contracts of cabinets and sinks in memory say which files they hold and which bytes they have
//! taken. Those of the system's files and streams cannot. Each failure is counted, and none is taken
//! for an end or for a success.
#![tactic(auto)]

mod cabinet;
mod copies;
mod file_cabinet;
mod files;
mod memory_cabinet;
mod memory_sink;
mod reading;
mod sink;
mod steady_cabinet;
mod steady_sink;
mod stream_sink;

pub use cabinet::{Cabinet, FetchError};
pub use file_cabinet::{FileCabinet, STANDARD_INPUT, is_rereadable};
pub use files::{CallList, FileList, Held};
pub use memory_cabinet::MemoryCabinet;
pub use memory_sink::MemorySink;
pub use sink::{PutError, Sink, write_all};
pub use steady_cabinet::SteadyCabinet;
pub use steady_sink::SteadySink;
pub use stream_sink::StreamSink;
