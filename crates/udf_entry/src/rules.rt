// By what a list is read.
use udf_field::Addr;

/// What decides how far the list of an entry can be read, beside the partitions.
#[derive(Clone, Copy, Debug, PartialEq, Eq)]
pub(crate) struct Rules {
    /// The bytes of a block.
    pub size: u32,
    /// The entry's own block.
    pub own: Addr,
    /// Whether the entry is a directory.
    pub directory: bool,
    /// The information length in bytes.
    pub information: u64,
}
