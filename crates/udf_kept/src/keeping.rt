// What is kept of found entries.
use crate::fitted::Choice;

/// How a kept entry is kept.
#[derive(Clone, Copy, Debug, PartialEq, Eq)]
pub struct Keeping {
    /// How many fitted links it is away from a start.
    pub depth: u64,
    /// The first fitted link of a kept entry that leads to it, by the depth and then the address of its holder and its place
    /// there; a start has none.
    pub by: Option<Choice>,
}
