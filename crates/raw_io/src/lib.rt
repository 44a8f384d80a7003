//! The outside: files by name, a source that is read once, and a sink; and whole reads and writes over them.
#![tactic(auto)]

mod host;
mod memory;
mod memory_files;
mod streams;
mod traits;
mod tried;
mod whole;

pub use host::{HostFiles, Opener};
pub use memory::{MemSink, MemSource};
pub use memory_files::MemFiles;
pub use streams::{StdSink, StdSource};
pub use traits::{Failed, Files, Sink, Source};
pub use whole::{ReadFault, WriteFault, read_all, read_source, write_all};
