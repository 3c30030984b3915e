// Kept entries as nodes.
use udf_field::Addr;

/// A kept entry by its number: each number below how many are kept names one.
#[derive(Clone, Copy, Debug, PartialEq, Eq)]
pub struct NodeId(pub u32);

/// A kept entry.
#[derive(Clone, Copy, Debug, PartialEq, Eq)]
pub struct Node {
    pub at: Addr,
    /// How many links it is away from a start.
    pub level: u64,
    /// Whether it is a directory or a stream directory.
    pub directory: bool,
    /// The bytes of its content that it keeps.
    pub kept_length: u64,
    /// Whether nothing of its list fails and it wins each block and allocation extent of it.
    pub whole: bool,
    /// The link count that it is to state (ECMA-167 4/14.9.6).
    pub links: u16,
    /// The identifier that it is to state (ECMA-167 4/14.9.18).
    pub id: u64,
    /// The root's is the root.
    pub parent: NodeId,
    /// Whether it is reached from the root by fitted FIDs alone.
    pub ordinary: bool,
}
