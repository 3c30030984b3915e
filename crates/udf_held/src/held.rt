// A found entry with what it keeps.
use udf_field::Addr;
use udf_found::{Link, ParentFids, Shape};

/// A found entry with what of its content it keeps.
#[derive(Debug, Drop)]
pub struct Held {
    pub at: Addr,
    /// How many links it is away from a start.
    pub level: u64,
    /// Whether the search begins there: the root, or the holder of the pointer to the system stream directory.
    pub is_start: bool,
    /// Whether it is a directory or a stream directory; the holder of the pointer to the system stream directory counts as one.
    pub directory: bool,
    /// Whether it wins its own block and, if it is a directory, keeps room for a parent FID.
    pub sound: bool,
    /// The bytes of its content that it keeps.
    pub kept: u64,
    /// Whether it wins each block and allocation extent of its list.
    pub whole: bool,
    /// Where it is sound: the bytes of FIDs for which its kept content has room beside the parent FID.
    pub space: u64,
    /// Where it is sound: the links of its kept content.
    pub links: Vec<Link>,
    /// Where it is sound: what the parent FIDs of its kept content tell.
    pub parents: ParentFids,
    /// What its block states; the holder of the pointer to the system stream directory has none.
    pub shape: Option<Shape>,
}
