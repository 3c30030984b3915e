// The slots of the volume recognition sequence (ECMA-167 2/8.3).
ghost use Rattle.std.specs.Prelude.{◌≡◌, ◌≤◌, ◌<◌, ◌+◌, ◌^◌, ◌==◌, ◌&&◌, ℕ, List, length, not, true, IfOk};
ghost use Rattle.std.specs.List.{list_all, list_any, range_with_len};
ghost use Rattle.udf_outside.specs.Reads.{OnlyReads};
ghost use Rattle.udf_outside.specs.Sectors.{disk_of};
ghost use Rattle.udf_volume_model.specs.Anchor.{places as places_in};
ghost use Rattle.udf_volume_model.specs.Areas.{is_outside, taken};
ghost use Rattle.udf_volume.specs.Areas.{layout_seen};
ghost use Rattle.udf_volume.specs.Taken.{IsOpenOver};
ghost use Rattle.udf_rules_model.specs.Recognition.{binds, is_clear as is_clear_slot, slot_at, slot_blocks};
ghost use Rattle.udf_rules.specs.Slots.{is_untaken_by, recognition_by};
ghost use Rattle.udf_rules.specs.Structures.{AreRead};

use crate::structure::{Structure, holds_other, structure_in};
use std::alloc::Global;
use udf_outside::{Bench, read_block};
use udf_volume::{Layout, Opened, WorkStop};

/// Where the first slot begins.
pub(crate) const FIRST_BYTE: u32 = 32768;

/// The bytes of a slot, where blocks have no more.
const SLOT_BYTES: u32 = 2048;

/// The most slots that are read.
const MOST: u32 = 64;

/// The slots that the rule needs.
const NEEDED: u32 = 3;

// The blocks of a slot.
#[tactic(auto, unfolding(udf_rules_model::specs::Recognition::slot_blocks))]
fn blocks_in_slot(size: u32) -> u32
    requires { 512 ≤ size }
    ensures blocks { result ≡ slot_blocks size }
    ensures some { 0 < result }
    ensures few { result ≤ 4 }
{
    size.max(SLOT_BYTES) / size
}

// The first sector of a slot.
#[tactic(auto, unfolding(udf_rules_model::specs::Recognition::slot_at))]
fn first_sector(size: u32, slot: u32) -> u32
    requires large { 512 ≤ size }
    requires slot { slot < 64 }
    ensures sector { result ≡ slot_at size slot }
    ensures low { result ≤ 320 }
{
    FIRST_BYTE / size + slot * blocks_in_slot(size)
}

fn is_among(places: &[u32], sector: u32) -> bool
    ensures { result ≡ list_any (λ place. place == sector) places.now }
{
    places.iter().any(|place| *place == sector)
}

// Whether nothing that the volume takes and no place of an anchor has a sector.
fn is_untaken(layout: &Layout, places: &[u32], sector: u32) -> bool
    ensures { result ≡ is_untaken_by layout.now places.now sector }
{
    layout.lies_outside(sector) && !is_among(places, sector)
}

// Whether that is so of so many sectors from one on.
#[tactic(auto, using(crate::proofs::Recognising::one_fails, crate::proofs::Recognising::none_fails))]
fn are_untaken(layout: &Layout, places: &[u32], first: u32, count: u32) -> bool
    requires { first + count < 2 ^ 32 }
    ensures { result ≡ list_all (is_untaken_by layout.now places.now) (range_with_len first count) }
{
    for i in 0..count {
        if !is_untaken(layout, places, first + i) {
            return false;
        }
    }
    true
}

// Whether a slot lies in the image, and none of its blocks is taken.
#[tactic(auto, unfolding(udf_rules_model::specs::Recognition::is_clear))]
fn is_clear(opened: &Opened, places: &[u32], slot: u32) -> bool
    requires large { 512 ≤ opened.now.volume.size }
    requires places { places.now ≡ places_in opened.now.volume.blocks }
    requires slot { slot < 64 }
    ensures clear { (disk : ℕ → List ℕ) → result ≡ is_clear_slot (recognition_by opened.now disk) slot }
    ensures inside { result ≡ true → slot_at opened.now.volume.size slot < opened.now.volume.blocks }
{
    let volume = &opened.volume;
    let first = first_sector(volume.size, slot);
    let count = blocks_in_slot(volume.size);
    first + count <= volume.blocks && are_untaken(&opened.layout, places, first, count)
}

/// Whether the rule binds: the slots that it needs are clear, and hold no other file system and no boot descriptor. `block` is lent
/// and has the block size.
pub(crate) fn is_bound<B: Bench>(
    bench: &mut B,
    opened: &Opened,
    places: &[u32],
    block: &mut [u8],
) -> Result<bool, WorkStop>
    requires over { IsOpenOver opened.now (B.files bench.old) }
    requires places { places.now ≡ places_in opened.now.volume.blocks }
    requires room { length block.old ≡ opened.now.volume.size }
    ensures bound { B.tells → IfOk result (λ bound. bound ≡ binds (recognition_by opened.now (disk_of opened.now.volume.size (B.held bench.old)))) }
    ensures reads { OnlyReads B.files B.held B.faults bench.old bench.new WorkStop.Fault result }
{
    let size = opened.volume.size;
    for slot in 0..NEEDED {
        if !is_clear(opened, places, slot) {
            return Ok(false);
        }
        read_block(bench, size, first_sector(size, slot), block)?;
        if holds_other(block) {
            return Ok(false);
        }
    }
    Ok(true)
}

/// What the slots hold, up to the first that is not clear or has no known identifier. `block` is lent and has the block size.
pub(crate) fn read_structures<B: Bench>(
    alloc: Global,
    bench: &mut B,
    opened: &Opened,
    places: &[u32],
    block: &mut [u8],
) -> Result<Vec<Structure>, WorkStop>
    requires over { IsOpenOver opened.now (B.files bench.old) }
    requires places { places.now ≡ places_in opened.now.volume.blocks }
    requires room { length block.old ≡ opened.now.volume.size }
    ensures read { B.tells → IfOk result (λ v. AreRead (recognition_by opened.now (disk_of opened.now.volume.size (B.held bench.old))) v.items) }
    ensures reads { OnlyReads B.files B.held B.faults bench.old bench.new WorkStop.Fault result }
{
    let size = opened.volume.size;
    let mut structures = Vec::new(alloc);
    for slot in 0..MOST {
        if !is_clear(opened, places, slot) {
            return Ok(structures);
        }
        read_block(bench, size, first_sector(size, slot), block)?;
        let Some(structure) = structure_in(block) else {
            return Ok(structures);
        };
        structures.push(structure)?;
    }
    Ok(structures)
}
