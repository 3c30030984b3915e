// The strongest want of an address.
ghost use Rattle.std.specs.Prelude.{◌≡◌};
ghost use Rattle.udf_claims.specs.Best.{champion, won};

/// The least class that wants an address, and the owner that has it, where only one has.
#[derive(Clone, Copy, Debug, PartialEq, Eq)]
pub(crate) struct Best {
    pub class: u8,
    pub owner: Option<u64>,
}

/// The one owner that has the least class.
#[tactic(auto, unfolding(crate::specs::Best::champion))]
pub(crate) fn champion_of(best: Option<Best>) -> Option<u64>
    ensures { result ≡ champion best }
{
    match best {
        Some(best) => best.owner,
        None => None,
    }
}

/// Whether an owner has the least class alone.
#[tactic(auto, unfolding(crate::specs::Best::won, crate::specs::Best::champion, crate::specs::Best::is_owner))]
pub(crate) fn is_won_by(best: Option<Best>, owner: u64) -> bool
    ensures { result ≡ won best owner }
{
    match champion_of(best) {
        Some(champion) => champion == owner,
        None => false,
    }
}
