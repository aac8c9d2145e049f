//! What a program reads and writes besides a flash: files by their names, a source of bytes, and a
//! sink for bytes. Each counts the calls that failed. The forms in memory tell what they hold, and
//! fail at listed calls alone. The adapter over the system's files tells nothing, and those over a
//! reader and a writer tell what these tell.
#![tactic(auto)]

mod calls;
mod files;
mod host_files;
mod joining;
mod kept_file;
mod memory_files;
mod retries;
mod sink;
mod source;
mod steady;
mod stops;
mod whole;
mod writes;

pub use files::Files;
pub use host_files::HostFiles;
pub use joining::Piece;
pub use memory_files::MemoryFiles;
pub use sink::{MemorySink, Sink, StdSink};
pub use source::{MemorySource, Source, StdSource};
pub use steady::{SteadyRead, SteadyWrite};
pub use stops::{Failed, JoinStop, ReadStop, WriteStop};
pub use whole::read_whole;
pub use writes::Writes;
