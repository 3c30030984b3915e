// Runs of wanted blocks.
use udf_field::Addr;

/// An owner's wants of this many blocks from an address on, all of one class. A lower class is stronger.
#[derive(Clone, Copy, Debug, PartialEq, Eq)]
pub struct Run {
    pub owner: u64,
    pub at: Addr,
    pub blocks: u32,
    pub class: u8,
}

/// Some blocks from an address on, each of which an owner wants.
#[derive(Clone, Copy, Debug, PartialEq, Eq)]
pub struct Claimed {
    pub at: Addr,
    pub blocks: u32,
}
