//! The outside as three traits, a folder of files to read, a sink that takes bytes and a gate that
//! clients pass, with the files and the sink in memory that tests use, those of the system, and the
//! gate that lets all pass.
#![tactic(auto)]

mod folder;
mod gate;
mod mem_folder;
mod mem_sink;
mod os_folder;
mod out_sink;
mod sink;
#[cfg(test)]
mod tests;

pub use folder::{Folder, Found, ReadFault};
pub use gate::{FreeGate, Gate};
pub use mem_folder::MemFolder;
pub use mem_sink::{MEM_SINK_ROOM, MemSink};
pub use os_folder::OsFolder;
pub use out_sink::OutSink;
pub use sink::{Sink, WriteFault, put};
