//! The verdict of the rule on sequences (ECMA-167 3/8.4.2, 3/8.4.3): whether the sequence that was not kept is whole, and the
//! same descriptors prevail in it. It reads the extents of both sequences once.
ghost use Rattle.std.specs.Prelude.{◌≡◌, length, IfOk, ◌==◌, ◌&&◌};
ghost use Rattle.std.specs.List.{list_all};
ghost use Rattle.std.specs.Str.{bytes_eq};
ghost use Rattle.std.specs.Option.{option_copied};
ghost use Rattle.udf_outside.specs.Stops.{bytes_of};
ghost use Rattle.udf_outside.specs.Reads.{OnlyReads};
ghost use Rattle.udf_outside.specs.declared.bench.Role.TheVariants.{Image};
ghost use Rattle.udf_volume_model.specs.Kept.{whole_by};
ghost use Rattle.udf_volume_model.specs.Rules.{agrees, same_prevailing, same_descriptor as same_in, same_for};
ghost use Rattle.udf_volume.specs.Led.{listed_in};
ghost use Rattle.udf_volume.specs.Over.{IsOver};
ghost use Rattle.udf_volume.specs.Verdicts.{JudgesSequences};

use crate::kept::is_complete_list;
use crate::ranked::Ranked;
use crate::sequence::read_sequence;
use crate::{Descriptor, DescriptorList, Volume, WorkStop};
use std::alloc::{AllocError, Global};
use udf_outside::Bench;

/// The verdict of the rule on sequences.
#[derive(Debug, Drop)]
pub struct SequenceVerdict {
    /// The kept descriptors.
    pub kept: Vec<Descriptor>,
    /// The descriptors of the other extent, up to the block that ends or spoils their list.
    pub other: Vec<Descriptor>,
    /// Whether the rule holds: the other sequence is whole, and the kept descriptors prevail in it.
    pub holds: bool,
}

fn is_same(a: &Descriptor, b: &Descriptor) -> bool
    ensures { result ≡ ((a.now.id == b.now.id) && bytes_eq a.now.body b.now.body) }
{
    a.id() == b.id() && a.body() == b.body()
}

fn are_same(a: Option<&Descriptor>, b: Option<&Descriptor>) -> bool
    ensures { result ≡ same_in (option_copied a.entry) (option_copied b.entry) }
{
    match (a, b) {
        (None, None) => true,
        (Some(a), Some(b)) => is_same(a, b),
        _ => false,
    }
}

// Whether the same descriptor prevails in both lists of the kind and subject of a third one.
#[tactic(auto, unfolding(udf_volume_model::specs::Rules::same_for))]
fn prevails_alike<'a>(list: &Ranked<'a>, others: &Ranked<'a>, descriptor: &'a Descriptor) -> bool
    ensures { result ≡ same_for list.now others.now descriptor.now }
{
    are_same(list.prevailing(descriptor), others.prevailing(descriptor))
}

fn all_prevail_alike<'a>(list: &Ranked<'a>, others: &Ranked<'a>, wanted: &'a [Descriptor]) -> bool
    ensures { result ≡ list_all (same_for list.now others.now) wanted.now }
{
    for descriptor in wanted {
        if !prevails_alike(list, others, descriptor) {
            return false;
        }
    }
    true
}

// Whether the same descriptors prevail in both lists.
#[tactic(auto, using(crate::proofs::Agreeing::not_kept, crate::proofs::Agreeing::kept_and))]
fn prevail_alike<'a>(
    alloc: Global,
    list: &'a [Descriptor],
    others: &'a [Descriptor],
) -> Result<bool, AllocError>
    ensures { IfOk result (λ alike. alike ≡ same_prevailing list.now others.now) }
{
    let ranked = Ranked::of(alloc, list)?;
    let ranked_others = Ranked::of(alloc, others)?;
    if !all_prevail_alike(&ranked, &ranked_others, list) {
        return Ok(false);
    }
    let alike = all_prevail_alike(&ranked, &ranked_others, others);
    Ok(alike)
}

// Whether the other sequence is whole, with fewer descriptors than a limit, and the kept descriptors prevail in it. It takes
// n log n for n descriptors of both, and memory for an index of each.
#[tactic(auto, using(crate::proofs::Agreeing::spoilt, crate::proofs::Agreeing::incomplete, crate::proofs::Agreeing::compared))]
fn sequences_agree(
    alloc: Global,
    kept: &[Descriptor],
    other: &DescriptorList,
    limit: u32,
) -> Result<bool, AllocError>
    ensures { IfOk result (λ agree. agree ≡ agrees kept.now (whole_by limit (listed_in other.now))) }
{
    if other.is_spoilt {
        return Ok(false);
    }
    if !is_complete_list(&other.descriptors, limit) {
        return Ok(false);
    }
    prevail_alike(alloc, kept, &other.descriptors)
}

/// The verdict of the rule on sequences on a volume. `block` is lent and has the block size.
pub fn sequence_verdict<B: Bench>(
    alloc: Global,
    bench: &mut B,
    volume: &Volume,
    block: &mut [u8],
) -> Result<SequenceVerdict, WorkStop>
    requires over { IsOver volume.now (B.files bench.old) }
    requires room { length block.old ≡ volume.now.size }
    ensures verdict { B.tells → IfOk result (JudgesSequences volume.now (bytes_of Image (B.held bench.old))) }
    ensures reads { OnlyReads B.files B.held B.faults bench.old bench.new WorkStop.Fault result }
{
    let kept = read_sequence(alloc, bench, volume, volume.kept_extent(), block)?;
    let other = read_sequence(alloc, bench, volume, volume.other_extent(), block)?;
    let holds = sequences_agree(alloc, &kept.descriptors, &other, volume.limit())?;
    Ok(SequenceVerdict {
        kept: kept.descriptors,
        other: other.descriptors,
        holds,
    })
}
