//! The outside as the program sees it: a sink of bytes, a shelf of named files, whole reads and whole writes.
#![tactic(auto)]

mod disk_shelf;
mod files;
mod mem_shelf;
mod mem_sink;
mod memory;
mod name;
mod reading;
mod schedule;
mod shelf;
mod sink;
mod std_sink;
mod tally;
mod writing;

pub use disk_shelf::DiskShelf;
pub use mem_shelf::{MemShelf, Plan};
pub use mem_sink::MemSink;
pub use memory::Memory;
pub use name::Name;
pub use reading::{ReadError, read_all};
pub use shelf::{OpenFault, Shelf};
pub use sink::{Failed, Sink};
pub use std_sink::StdSink;
pub use writing::{FileFault, write_all, write_file};
