//! A volume from an image: the first refusal of its description, or what the prevailing descriptors state.
ghost use Rattle.std.specs.Prelude.{◌≡◌, ◌+◌, ◌/◌, ◌≤◌, ◌<◌, ◌^◌, length as length_of, IfOk, IfErr, IfSome, Some, None, slice_get};
ghost use Rattle.udf_outside.specs.Files.{IsAttached};
ghost use Rattle.udf_outside.specs.Stops.{bytes_of};
ghost use Rattle.udf_outside.specs.Reads.{OnlyReads};
ghost use Rattle.udf_outside.specs.Sectors.{disk_of};
ghost use Rattle.udf_outside.specs.declared.bench.Role.TheVariants.{Image};
ghost use Rattle.udf_volume_model.specs.Kept.{kept};
ghost use Rattle.udf_volume_model.specs.Sequence as model;
ghost use Rattle.udf_volume_model.specs.Prevailing.{prevailing_index as index_of};
ghost use Rattle.udf_volume_model.specs.Stated.{partition_number as number_of_map, volume_information};
ghost use Rattle.udf_volume.specs.Laid.{IsLaidOut};
ghost use Rattle.udf_volume.specs.Leads.{IsLeading};
ghost use Rattle.udf_volume.specs.Led.{IsLed, led_seen};
ghost use Rattle.udf_volume.specs.Refusals.{RefusesDescription};
ghost use Rattle.udf_volume.specs.Opened.{volume_by, stated_in, sector_in, bitmap_in, is_guarded as is_guarded_by, accepted, described, Answers, IsBounded};
ghost use Rattle.udf_volume.specs.Over.{HasBlocks};

use crate::anchor::places_of;
use crate::kept::{AnchorSearch, Led, search};
use crate::layout::is_lawful;
use crate::maps::{first_sparing, has_lawful_shape, is_built};
use crate::offset::{
    ACCESS, FILE_SET, INTEGRITY, LENGTH, PROTECTION, REVISION, SPACE_BITMAP, START,
};
use crate::profile::unlike_profile;
use crate::{Descriptor, LayerStop, Missing, ProfileItem, Shape, Upper, Volume};
use std::alloc::Global;
use udf_field::{Fields, Short};
use udf_outside::Bench;

/// The most blocks of an image.
const MOST_BLOCKS: u64 = 4_294_967_295;

/// The bits of hard and soft write protection (UDF 2.1.5.3).
const PROTECTION_BITS: u8 = 3;

#[tactic(auto, unfolding(crate::specs::Opened::bitmap_in))]
fn bitmap(partition: &Fields<'_>) -> Option<Short>
    requires { 496 ≤ length_of partition.now }
    ensures { result ≡ bitmap_in partition.now }
{
    let bitmap = partition.short_at(SPACE_BITMAP);
    if bitmap.length == 0 {
        None
    } else {
        Some(bitmap)
    }
}

// The sector of a descriptor of a kept sequence.
fn sector_at(led: &Led, index: usize) -> u32
    requires inside { index < length_of led.now.descriptors.items }
    requires fits { (kept (led_seen led.now)).start + length_of led.now.descriptors.items < 2 ^ 32 }
    ensures { result ≡ (kept (led_seen led.now)).start + index }
{
    led.anchor.extent(led.which).start + index as u32
}

// The sector of the descriptor with the volume's names that prevails in a kept sequence.
#[tactic(auto, using(crate::proofs::Leads::some_sector, crate::proofs::Leads::no_sector))]
fn information_sector(led: &Led) -> Option<u32>
    requires fits { (kept (led_seen led.now)).start + length_of led.now.descriptors.items < 2 ^ 32 }
    requires leading { IsLeading led.now.descriptors.items led.now.leading }
    ensures { result ≡ sector_in (led_seen led.now) 4 volume_information }
{
    match led.leading.information {
        None => None,
        Some(index) => Some(sector_at(led, index)),
    }
}

// Whether a bit of write protection stands.
#[tactic(auto, unfolding(crate::specs::Opened::is_guarded))]
fn is_guarded(flags: u8) -> bool
    ensures { result ≡ is_guarded_by flags }
{
    flags & PROTECTION_BITS != 0
}

// What a kept sequence states, by its prevailing logical volume descriptor and the partition descriptor at an index.
#[tactic(auto, unfolding(crate::specs::Opened::volume_by))]
fn volume_of(led: &Led, size: u32, blocks: u32, logical: &Descriptor, at: usize) -> Volume
    requires fits { (kept (led_seen led.now)).start + length_of led.now.descriptors.items < 2 ^ 32 }
    requires leading { IsLeading led.now.descriptors.items led.now.leading }
    requires partition { Some at ≡ index_of 5 (number_of_map logical.now.body) led.now.descriptors.items }
    requires inside { at < length_of led.now.descriptors.items }
    ensures { (partition : model.Descriptor) → slice_get led.now.descriptors.items at ≡ Some partition
        → result ≡ volume_by size blocks (led_seen led.now) logical.now.body partition.body }
{
    let partition = &led.descriptors[at];
    let logical_fields = logical.fields();
    let partition_fields = partition.fields();
    Volume {
        size,
        blocks,
        anchor: led.place,
        main: led.anchor.main,
        reserve: led.anchor.reserve,
        kept: led.which,
        count: led.descriptors.len() as u32,
        pvd: sector_at(led, led.leading.primary),
        lvd: sector_at(led, led.leading.logical),
        pd: sector_at(led, at),
        info: information_sector(led),
        shape: Shape {
            base: 0,
            sparing: first_sparing(logical),
            upper: Upper::Absent,
        },
        start: partition_fields.u32_at(START),
        length: partition_fields.u32_at(LENGTH),
        bitmap: bitmap(&partition_fields),
        integrity: logical_fields.span_at(INTEGRITY),
        file_set: logical_fields.long_at(FILE_SET),
        revision: logical_fields.u16_at(REVISION),
        access: partition_fields.u32_at(ACCESS),
        guarded: is_guarded(logical_fields.u8_at(PROTECTION)),
    }
}

// What a kept sequence states, where its maps are lawful and built.
fn stated(led: &Led, size: u32, blocks: u32) -> Option<Volume>
    requires { IsLed size blocks led.now }
    ensures value { result ≡ stated_in size blocks (led_seen led.now) }
    ensures bounds { IfSome result (IsBounded size blocks) }
{
    let logical = &led.descriptors[led.leading.logical];
    if !has_lawful_shape(logical) {
        return None;
    }
    if !is_built(logical) {
        return None;
    }
    let Some(at) = led.leading.partition else {
        return None;
    };
    Some(volume_of(led, size, blocks, logical, at))
}

// The volume of a kept sequence, or the first refusal of it.
#[tactic(auto, using(crate::proofs::Opening::unlike, crate::proofs::Opening::asks_described, crate::proofs::Opening::unstated, crate::proofs::Opening::unlaid, crate::proofs::Opening::accepted_by))]
fn accept<B: Bench>(
    alloc: Global,
    bench: &mut B,
    size: u32,
    blocks: u32,
    led: &Led,
    block: &mut [u8],
) -> Result<Volume, LayerStop>
    requires image { HasBlocks size blocks (B.files bench.old) }
    requires room { length_of block.old ≡ size }
    requires led { IsLed size blocks led.now }
    ensures answers { B.tells → Answers
        (accepted size blocks (disk_of size (B.held bench.old)) (led_seen led.now)) result }
    ensures refusal { IfErr result RefusesDescription }
    ensures bounds { IfOk result (IsBounded size blocks) }
    ensures areas { IfOk result IsLaidOut }
    ensures reads { OnlyReads B.files B.held B.faults bench.old bench.new LayerStop.Fault result }
{
    if let Some(item) = unlike_profile(&led.descriptors, &led.leading, size) {
        return Err(LayerStop::Missing(Missing::Profile(item)));
    }
    let Some(volume) = stated(led, size, blocks) else {
        return Err(LayerStop::Missing(Missing::Profile(ProfileItem::Unbuilt)));
    };
    if is_lawful(alloc, bench, &volume, block)? {
        Ok(volume)
    } else {
        Err(LayerStop::Missing(Missing::Layout))
    }
}

/// The volume of an image, or the first refusal up to that of the layout. `size` is the block size, at least 512, and `length` the
/// image's length in bytes.
#[tactic(auto, using(crate::proofs::Opening::whole_blocks))]
pub fn open_volume<B: Bench>(
    alloc: Global,
    bench: &mut B,
    size: u32,
    length: u64,
) -> Result<Volume, LayerStop>
    requires attached { IsAttached Image (B.files bench.old) }
    requires large { 512 ≤ size }
    requires sized { length ≡ (B.files bench.old).image.size }
    ensures answers { B.tells → Answers (described size (bytes_of Image (B.held bench.old))) result }
    ensures refusal { IfErr result RefusesDescription }
    ensures bounds { IfOk result (IsBounded size (length / size)) }
    ensures areas { IfOk result IsLaidOut }
    ensures reads { OnlyReads B.files B.held B.faults bench.old bench.new LayerStop.Fault result }
{
    let whole = length / size as u64;
    if whole > MOST_BLOCKS {
        return Err(LayerStop::Missing(Missing::TooLarge));
    }
    let blocks = whole as u32;
    let places = places_of(alloc, blocks)?;
    let mut block = vec![in alloc; 0u8; size as usize]?;
    match search(alloc, bench, size, blocks, &places, &mut block)? {
        AnchorSearch::Nothing => Err(LayerStop::Missing(Missing::Anchor)),
        AnchorSearch::Unled => Err(LayerStop::Missing(Missing::Sequence)),
        AnchorSearch::Kept(led) => accept(alloc, bench, size, blocks, &led, &mut block),
    }
}
