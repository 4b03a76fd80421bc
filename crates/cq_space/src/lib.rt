//! The edge of the program: files and sinks by what they hold, with a count of faults.
//!
//! All other crates compute over bytes. This one says what it means to read and write them: [`Files`]
//! is a space of named files with a mode, contents and a count of faults, and [`Sink`] takes bytes one
//! after another. What the program promises is stated over these meanings, once for every file space.
//!
//! - `MemFiles` and `MemSink` keep everything in memory and tell it. Tests look at what they hold, and
//!   set them to fail.
//! - `HostFiles` and `HostSink` stand on the system and tell nothing. They are a few lines, which are
//!   trusted to do what the system's calls are meant to do.
//! - `read_whole`, `write_whole` and `put_all` move whole texts over either.
#![tactic(auto)]

mod cut;
mod entries;
mod fault;
mod files;
mod host;
mod mem_files;
mod mem_sink;
mod sink;
mod tally;
mod whole;

pub use files::{Failed, Files};
pub use host::{HostFiles, HostSink};
pub use mem_files::MemFiles;
pub use mem_sink::MemSink;
pub use sink::Sink;
pub use whole::{ReadRefusal, WriteFault, put_all, read_whole, write_whole};
