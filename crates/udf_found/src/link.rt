// The links of an entry, in the order of their places.
use udf_field::Addr;

/// A link of an entry: the pointer to its stream directory (ECMA-167 4/14.17.20), or a live FID of its content (4/14.4).
#[derive(Debug, Drop)]
pub struct Link {
    /// Its place among the links of its holder: 0 for a pointer, and for a FID one more than its offset in the content.
    pub place: u64,
    /// The address to which it leads.
    pub target: Addr,
    /// The bytes that it takes of the content; 0 for a pointer.
    pub room: u64,
    /// The offset of the first live FID of the same name, where that stands before this one.
    pub earlier: Option<u64>,
    /// The file identifier as it stands in the FID; empty for a pointer.
    pub name: Vec<u8>,
}
