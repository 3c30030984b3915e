// Which link to each address comes first.
ghost use Rattle.std.specs.Prelude.{◌≡◌, ◌++◌, ◌∷◌, [], List, IfOk, OnOk};
ghost use Rattle.std.specs.BTreeMap.{get};
ghost use Rattle.udf_kept.specs.Offers.{AreFirst, Offer, first_by, offers_by, offers_in, offers_over, rank_seen};
ghost use Rattle.udf_found.specs.Order.{addr_cmp};

use std::alloc::{AllocError, Global};
use std::collections::BTreeMap;
use udf_field::Addr;
use udf_found::Link;
use udf_held::Held;

/// What decides between links to one directory: the level and the address of the holder, and the place in it.
#[derive(Clone, Copy, Debug, PartialEq, Eq, PartialOrd, Ord)]
pub(crate) struct Rank {
    pub level: u64,
    pub holder: Addr,
    pub place: u64,
}

/// The first of the named links of sound entries to each address.
pub(crate) type Choices = BTreeMap<Addr, Rank>;

// The first of a link and of those before.
#[tactic(auto, unfolding(udf_tree_model::specs::Chosen::comes_before))]
fn first_of(before: Option<Rank>, rank: Rank) -> Rank
    ensures { result ≡ first_by before rank }
{
    match before {
        Some(before) => before.min(rank),
        None => rank,
    }
}

// Takes in a link of a sound holder, where no earlier one has its name.
fn add_link(choices: &mut Choices, holder: &Held, link: &Link) -> Result<(), AllocError>
    ensures { (os : List Offer) → AreFirst os (get addr_cmp choices.old)
        → OnOk result (AreFirst (os ++ offers_in holder.now (link.now ∷ [])) (get addr_cmp choices.new)) }
{
    if link.earlier.is_some() {
        return Ok(());
    }
    let rank = Rank {
        level: holder.level,
        holder: holder.at,
        place: link.place,
    };
    let first = first_of(choices.get(&link.target).copied(), rank);
    choices.insert(link.target, first)?;
    Ok(())
}

// Takes in the links of a found entry.
fn add_links(choices: &mut Choices, holder: &Held) -> Result<(), AllocError>
    ensures { (os : List Offer) → AreFirst os (get addr_cmp choices.old)
        → OnOk result (AreFirst (os ++ offers_by holder.now) (get addr_cmp choices.new)) }
{
    if !holder.sound {
        return Ok(());
    }
    for link in &holder.links {
        add_link(choices, holder, link)?;
    }
    Ok(())
}

/// Which of the named links of sound entries to each address comes first.
pub(crate) fn choices_of(alloc: Global, held: &[Held]) -> Result<Choices, AllocError>
    ensures { IfOk result (λ choices. AreFirst (offers_over held.now) (get addr_cmp choices)) }
{
    let mut choices = BTreeMap::new(alloc);
    for holder in held {
        add_links(&mut choices, holder)?;
    }
    Ok(choices)
}
