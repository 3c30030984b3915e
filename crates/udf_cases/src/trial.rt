//! What the runs of a case have in common.

use std::alloc::Global;
use udf_outside::MemBench;

/// What the files of a run are compared with: the volume before its damages and the image that a repair is to leave, each as the
/// image of a bench, and the closed log.
#[derive(Drop)]
pub(crate) struct Wanted {
    pub volume: MemBench,
    pub image: MemBench,
    pub log: Vec<u8>,
}

/// The words of the command line behind the tool's name, and what the files of each run are compared with.
#[derive(Clone, Copy)]
pub(crate) struct Trial<'a> {
    pub alloc: Global,
    pub words: &'a [String],
    pub wanted: &'a Wanted,
}
