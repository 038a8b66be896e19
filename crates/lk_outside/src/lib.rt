//! The outside of a program, each part as a trait: the files that it reads and the sink that it writes to, each with a
//! form in memory and an adapter over the real thing, and the store that keeps its tables.
#![tactic(auto)]

mod calls;
mod entry;
mod failures;
mod fault;
mod files;
mod mem_files;
mod mem_sink;
mod os_files;
mod scans;
mod sink;
mod std_sink;
mod store;

pub use calls::NumberedCalls;
pub use entry::FileEntry;
pub use fault::OutFault;
pub use files::Files;
pub use mem_files::MemFiles;
pub use mem_sink::MemSink;
pub use os_files::OsFiles;
pub use scans::{scan_fitting, scan_tables};
pub use sink::Sink;
pub use std_sink::StdSink;
pub use store::Store;
