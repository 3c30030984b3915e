// The integrity sequence of a volume (ECMA-167 3/8.8.2).
ghost use Rattle.std.specs.Prelude.{◌≡◌, ◌<◌, ◌≤◌, ℕ, length, IfErr, IfOk, IfSome, Ok, Some};
ghost use Rattle.udf_outside.specs.Reads.{OnlyReads, failed};
ghost use Rattle.udf_outside.specs.Sectors.{disk_of};
ghost use Rattle.udf_volume.specs.Laid.{IsLaidOut};
ghost use Rattle.udf_volume.specs.Over.{IsOver};
ghost use Rattle.udf_volume_model.specs.Anchor.{blocks_for};
ghost use Rattle.udf_rules_model.specs.Integrity.{integrity_front, prevailing_integrity};
ghost use Rattle.udf_integrity.specs.Answers.{FindsIntegrity, RefusesIntegrity};

use crate::descriptor::{is_descriptor, names_further};
use udf_outside::{Bench, Failed, read_block};
use udf_volume::{LayerStop, Missing, ProfileItem, Volume};

// How many blocks of the extent hold descriptors, before the first that holds none. `block` is lent and has the block size.
#[tactic(auto, using(crate::proofs::Extent::inside, crate::proofs::Extent::stops, crate::proofs::Extent::ends))]
fn front_length<B: Bench>(bench: &mut B, volume: &Volume, block: &mut [u8]) -> Result<u32, Failed>
    requires over { IsOver volume.now (B.files bench.old) }
    requires laid { IsLaidOut volume.now }
    requires room { length block.old ≡ volume.now.size }
    ensures front { B.tells → IfOk result (λ n. n ≡ length (integrity_front volume.now.size (disk_of volume.now.size (B.held bench.old)) volume.now.integrity)) }
    ensures few { IfOk result (λ n. n ≤ blocks_for volume.now.size volume.now.integrity.length) }
    ensures reads { OnlyReads B.files B.held B.faults bench.old bench.new failed result }
{
    let count = volume.blocks_of(volume.integrity);
    for i in 0..count {
        let sector = volume.integrity.start + i;
        read_block(bench, volume.size, sector, block)?;
        if !is_descriptor(sector, block) {
            return Ok(i);
        }
    }
    Ok(count)
}

/// The sector of the prevailing integrity descriptor, the last of those that begin the extent; None where none does, or the extent
/// has no length. `block` is lent and has the block size, and holds the prevailing descriptor's block then. Each block is read
/// once up to the first that holds no descriptor, and that of the prevailing one once more.
#[tactic(auto, using(crate::proofs::Extent::inside, crate::proofs::Extent::none_prevails, crate::proofs::Extent::last_prevails))]
pub fn prevailing_descriptor<B: Bench>(
    bench: &mut B,
    volume: &Volume,
    block: &mut [u8],
) -> Result<Option<u32>, Failed>
    requires over { IsOver volume.now (B.files bench.old) }
    requires laid { IsLaidOut volume.now }
    requires room { length block.old ≡ volume.now.size }
    ensures prevails { B.tells → IfOk result (λ found. found ≡ prevailing_integrity volume.now.size (disk_of volume.now.size (B.held bench.old)) volume.now.integrity) }
    ensures block { B.tells → (sector : ℕ) → result ≡ Ok (Some sector) → block.new ≡ disk_of volume.now.size (B.held bench.old) sector }
    ensures inside { IfOk result (λ found. IfSome found (λ sector. sector < volume.now.blocks)) }
    ensures reads { OnlyReads B.files B.held B.faults bench.old bench.new failed result }
{
    let front = front_length(bench, volume, block)?;
    if front == 0 {
        return Ok(None);
    }
    let sector = volume.integrity.start + (front - 1);
    read_block(bench, volume.size, sector, block)?;
    Ok(Some(sector))
}

/// The sector of the prevailing integrity descriptor, as `prevailing_descriptor` answers it. `Missing(Profile(IntegrityChain))`
/// where that descriptor names a further extent of descriptors (ECMA-167 3/10.10.4).
pub fn integrity_of<B: Bench>(
    bench: &mut B,
    volume: &Volume,
    block: &mut [u8],
) -> Result<Option<u32>, LayerStop>
    requires over { IsOver volume.now (B.files bench.old) }
    requires laid { IsLaidOut volume.now }
    requires room { length block.old ≡ volume.now.size }
    ensures answers { B.tells → FindsIntegrity volume.now.size (disk_of volume.now.size (B.held bench.old)) volume.now.integrity result }
    ensures block { B.tells → (sector : ℕ) → result ≡ Ok (Some sector) → block.new ≡ disk_of volume.now.size (B.held bench.old) sector }
    ensures inside { IfOk result (λ found. IfSome found (λ sector. sector < volume.now.blocks)) }
    ensures refusal { IfErr result RefusesIntegrity }
    ensures reads { OnlyReads B.files B.held B.faults bench.old bench.new LayerStop.Fault result }
{
    let Some(sector) = prevailing_descriptor(bench, volume, block)? else {
        return Ok(None);
    };
    if names_further(block) {
        return Err(LayerStop::Missing(Missing::Profile(ProfileItem::IntegrityChain)));
    }
    Ok(Some(sector))
}
