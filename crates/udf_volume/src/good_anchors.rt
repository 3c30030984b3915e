//! The verdict of the rule on anchors (ECMA-167 3/8.4.2.1): which eligible places hold no good anchor, and whether the rule
//! holds. It reads the block of each eligible place once.
ghost use Rattle.std.specs.Prelude.{◌≡◌, ◌≤◌, ◌<◌, ℕ, List, length, filter, not, IfOk};
ghost use Rattle.std.specs.List.{All};
ghost use Rattle.udf_outside.specs.Stops.{bytes_of};
ghost use Rattle.udf_outside.specs.Reads.{OnlyReads};
ghost use Rattle.udf_outside.specs.Sectors.{disk_of};
ghost use Rattle.udf_outside.specs.declared.bench.Role.TheVariants.{Image};
ghost use Rattle.udf_volume_model.specs.Anchor.{Anchor};
ghost use Rattle.udf_volume_model.specs.Rules.{is_good as is_good_at, suffice};
ghost use Rattle.udf_volume.specs.Areas.{anchor_stated};
ghost use Rattle.udf_volume.specs.Over.{IsOver};
ghost use Rattle.udf_volume.specs.Verdicts.{IsPart, HasPlaces, JudgesAnchors};

use crate::anchor::ANCHOR;
use crate::area::eligible_places;
use crate::{Layout, Volume, WorkStop};
use std::alloc::Global;
use udf_field::{Fields, id_at};
use udf_outside::{Bench, read_block};

/// The good anchors that suffice.
const ENOUGH: usize = 2;

/// The verdict of the rule on anchors.
#[derive(Debug, Drop)]
pub struct AnchorVerdict {
    /// The eligible places, in ascending order.
    pub eligible: Vec<u32>,
    /// Those of them that hold no good anchor.
    pub bad: Vec<u32>,
    /// Whether the rule holds: at least two eligible places hold a good anchor, or all do.
    pub holds: bool,
}

// Whether the block of a place is a good anchor: whole there, and naming the kept anchor's extents.
#[tactic(auto, unfolding(udf_volume_model::specs::Rules::is_good, udf_volume_model::specs::Rules::same_anchor, udf_volume_model::specs::Rules::same_extent, udf_volume_model::specs::Anchor::named_by, udf_volume_model::specs::Anchor::extent_at))]
fn is_good(volume: &Volume, place: u32, block: &[u8]) -> bool
    requires { 512 ≤ length block.now }
    ensures { result ≡ is_good_at (anchor_stated volume.now) place block.now }
{
    if id_at(block, place) != Some(ANCHOR) {
        return false;
    }
    let fields = Fields::over(block);
    fields.span_at(16) == volume.main && fields.span_at(24) == volume.reserve
}

// Those of some places that hold no good anchor. `block` is lent and has the block size.
#[tactic(auto, using(crate::proofs::Places::fits))]
fn bad_places<B: Bench>(
    alloc: Global,
    bench: &mut B,
    volume: &Volume,
    places: &[u32],
    block: &mut [u8],
) -> Result<Vec<u32>, WorkStop>
    requires over { IsOver volume.now (B.files bench.old) }
    requires room { length block.old ≡ volume.now.size }
    requires inside { All (λ at. at < volume.now.blocks) places.now }
    ensures bad { B.tells → IfOk result (λ v. v.items ≡ filter
        (λ place. not (is_good_at (anchor_stated volume.now) place (disk_of volume.now.size (B.held bench.old) place))) places.now) }
    ensures part { IfOk result (λ v. IsPart v.items places.now) }
    ensures reads { OnlyReads B.files B.held B.faults bench.old bench.new WorkStop.Fault result }
{
    let mut bad = Vec::new(alloc);
    for place in places {
        read_block(bench, volume.size, *place, block)?;
        if is_good(volume, *place, block) {
            continue;
        }
        bad.push(*place)?;
    }
    Ok(bad)
}

// Whether the places that are not bad are enough.
fn are_enough(eligible: &[u32], bad: &[u32]) -> bool
    requires { length bad.now ≤ length eligible.now }
    ensures { (anchor : Anchor) (disk : ℕ → List ℕ)
        → bad.now ≡ filter (λ place. not (is_good_at anchor place (disk place))) eligible.now → result ≡ suffice anchor disk eligible.now }
{
    ENOUGH <= eligible.len() - bad.len() || bad.is_empty()
}

/// The verdict of the rule on anchors on a volume with its layout. `block` is lent and has the block size.
pub fn anchor_verdict<B: Bench>(
    alloc: Global,
    bench: &mut B,
    volume: &Volume,
    layout: &Layout,
    block: &mut [u8],
) -> Result<AnchorVerdict, WorkStop>
    requires over { IsOver volume.now (B.files bench.old) }
    requires room { length block.old ≡ volume.now.size }
    ensures verdict { B.tells → IfOk result (JudgesAnchors volume.now layout.now (bytes_of Image (B.held bench.old))) }
    ensures places { IfOk result (HasPlaces volume.now layout.now) }
    ensures reads { OnlyReads B.files B.held B.faults bench.old bench.new WorkStop.Fault result }
{
    let eligible = eligible_places(alloc, volume, layout)?;
    let bad = bad_places(alloc, bench, volume, &eligible, block)?;
    let holds = are_enough(&eligible, &bad);
    Ok(AnchorVerdict {
        eligible,
        bad,
        holds,
    })
}
