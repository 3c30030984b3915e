// Blocks of a partition that follow on one another.
use udf_field::Addr;

/// So many blocks from an address on.
#[derive(Clone, Copy, Debug, PartialEq, Eq)]
pub struct Stretch {
    pub at: Addr,
    pub blocks: u32,
}
