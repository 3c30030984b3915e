//! What the tools reach outside: a bench with an image and a side file, and a sink for lines. Its one contract towards the
//! layers above is the trait `Bench`: each call tells what it does to the two files, which failures have a cause, and what
//! a stop at any moment may leave of the files; laws and lemmas on runs of calls stand beside it. A bench in memory keeps
//! its past and can be stopped and begun again; one over real files tells no bytes. It stands on the definition of an
//! image's blocks alone.
#![tactic(auto)]

mod bench;
mod file_bench;
mod laws;
mod memory;
mod real_file;
mod sink;
mod standard_sink;
mod standard_streams;

pub use bench::{Access, Bench, Failed, Role, read_block};
pub use file_bench::FileBench;
pub use laws::{moments_law, run_law, sync_law, write_law};
pub use memory::{MemBench, MemSink, Stop};
pub use sink::Sink;
pub use standard_sink::StdSink;
pub use standard_streams::hold_standard_streams;
pub use std::alloc::AllocError as NoMemory;

#[cfg(test)]
mod tests;
