// The link count that each found entry is to state (ECMA-167 4/14.9.6).
ghost use Rattle.std.specs.Prelude.{◌≡◌, IfOk, slice_get};
ghost use Rattle.udf_tree_model.specs.Counts.{links_between};
ghost use Rattle.udf_dues.specs.LinkCounts.{AreSettled, links_seen};

use crate::counts::Count;
use std::alloc::{AllocError, Global};
use udf_held::Held;

// A link count between two stays; else it is the least, and at least 1.
fn settled(count: Count, found: u16) -> u16
    ensures { result ≡ links_between count.low count.high found }
{
    if count.low <= found && found <= count.high {
        found
    } else {
        count.low.max(1)
    }
}

// The count at an index, where there is one.
fn count_at(counts: &[Count], i: usize) -> Option<Count>
    ensures { result ≡ slice_get counts.now i }
{
    if i < counts.len() {
        Some(counts[i])
    } else {
        None
    }
}

// The link count that an entry is to state; 0 of the holder of the pointer to the system stream directory, which states none.
fn settled_links(entry: &Held, count: Option<Count>) -> u16
    ensures { result ≡ links_seen entry.now count }
{
    let Some(shape) = &entry.shape else {
        return 0;
    };
    match count {
        Some(count) => settled(count, shape.links),
        None => 0,
    }
}

/// The link count that each found entry is to state, in the order of the found entries.
pub fn link_counts_of(
    alloc: Global,
    held: &[Held],
    counts: &[Count],
) -> Result<Vec<u16>, AllocError>
    ensures { IfOk result (λ links. AreSettled held.now counts.now links.items) }
{
    let mut links = Vec::new(alloc);
    for (i, entry) in held.iter().enumerate() {
        links.push(settled_links(entry, count_at(counts, i)))?;
    }
    Ok(links)
}
