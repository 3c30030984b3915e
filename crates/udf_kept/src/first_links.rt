// Of the fitted links of kept entries the first to each entry.
ghost use Rattle.std.specs.Prelude.{◌≡◌, ◌++◌, ◌∷◌, [], List, IfOk, length, map};
ghost use Rattle.udf_tree_model.specs.Chosen.{comes_before};
ghost use Rattle.udf_kept.specs.FirstLinks.{IsFirst, links_at, links_below, rank_seen, told, told_by, yields};
ghost use Rattle.udf_kept.specs.FirstLinks.{Told};

use crate::fitted::{Choice, Fitted, Selected};
use std::alloc::{AllocError, Global};
use udf_field::Addr;
use udf_held::Held;

/// A fitted link of a kept entry, with the depth and the address of that holder.
#[derive(Clone, Copy, Debug, PartialEq, Eq)]
pub(crate) struct KeepingLink {
    pub(crate) depth: u64,
    pub(crate) at: Addr,
    pub(crate) choice: Choice,
}

// Whether a link is before another by the depth and then the address of its holder and its place there.
#[tactic(auto, unfolding(udf_tree_model::specs::Chosen::comes_before))]
fn comes_before(x: KeepingLink, y: KeepingLink) -> bool
    ensures { result ≡ comes_before (rank_seen x) (rank_seen y) }
{
    let is_lower = x.at.part < y.at.part || (x.at.part == y.at.part && x.at.block < y.at.block);
    x.depth < y.depth
        || (x.depth == y.depth && (is_lower || (x.at == y.at && x.choice.place < y.choice.place)))
}

// Whether a link is before the first one so far.
fn precedes(link: KeepingLink, first: Option<KeepingLink>) -> bool
    ensures { result ≡ yields first link }
{
    match first {
        None => true,
        Some(first) => comes_before(link, first),
    }
}

// Takes a link that leads to the entry at an index.
fn take_link(first: &mut [Option<KeepingLink>], to: usize, link: KeepingLink)
    ensures { (done : List Told) → IsFirst done first.old → IsFirst (done ++ told to link ∷ []) first.new }
{
    if to < first.len() && precedes(link, first[to]) {
        first[to] = Some(link);
    }
}

// Takes the links of a holder.
fn take_links(
    first: &mut [Option<KeepingLink>],
    holder: usize,
    depth: u64,
    at: Addr,
    links: &[Fitted],
)
    ensures { (done : List Told) → IsFirst done first.old → IsFirst (done ++ map (told_by holder depth at) links.now) first.new }
{
    for link in links {
        let choice = Choice {
            holder,
            place: link.place,
        };
        take_link(first, link.to, KeepingLink { depth, at, choice });
    }
}

// Takes the links of the entry at an index, if it is kept.
fn take_from(
    first: &mut [Option<KeepingLink>],
    held: &[Held],
    selected: &[Selected],
    holder: usize,
    depth: Option<u64>,
)
    ensures { (done : List Told) → IsFirst done first.old → IsFirst (done ++ links_at held.now selected.now holder depth) first.new }
{
    let Some(depth) = depth else {
        return;
    };
    let Some(entry) = held.get(holder) else {
        return;
    };
    let Some(links) = selected.get(holder) else {
        return;
    };
    take_links(first, holder, depth, entry.at, &links.fitted);
}

/// To each entry the first of the fitted links of kept entries, which have these depths.
pub(crate) fn first_links(
    alloc: Global,
    held: &[Held],
    selected: &[Selected],
    depths: &[Option<u64>],
) -> Result<Vec<Option<KeepingLink>>, AllocError>
    ensures len { IfOk result (λ first. length first.items ≡ length depths.now) }
    ensures first { IfOk result (λ first. IsFirst (links_below held.now selected.now depths.now (length depths.now)) first.items) }
{
    let mut first = vec![in alloc; None; depths.len()]?;
    for (holder, depth) in depths.iter().enumerate() {
        take_from(&mut first, held, selected, holder, *depth);
    }
    Ok(first)
}
