//! Files and printed output behind two traits that count their faults.
//!
//! A program that is generic over [`Shelf`] and [`Sink`] can be proved about the bytes that it reads
//! and writes: the shelf and the sink in memory tell their contents, and fail at the calls that a test
//! plans. The shelf of real files and the sink of standard output tell nothing of content.
#![tactic(auto)]

mod disk_shelf;
mod errors;
mod fail;
mod kept_files;
mod memory_shelf;
mod memory_sink;
mod out_sink;
mod shelf;
mod sink;
mod transfers;
mod writing;

pub use disk_shelf::DiskShelf;
pub use errors::{LoadError, WriteError};
pub use fail::Fail;
pub use memory_shelf::MemoryShelf;
pub use memory_sink::MemorySink;
pub use out_sink::OutSink;
pub use shelf::Shelf;
pub use sink::Sink;
