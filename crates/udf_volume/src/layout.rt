//! The lawful layout of a volume's areas, but for the packets of its sparing table.
ghost use Rattle.std.specs.Prelude.{◌≡◌, ◌≤◌, ◌<◌, nat_lt, length, map, IfOk, true};
ghost use Rattle.std.specs.List.{AllByRecursion, list_all};
ghost use Rattle.udf_outside.specs.Reads.{OnlyReads, failed};
ghost use Rattle.udf_outside.specs.Sectors.{disk_of};
ghost use Rattle.udf_volume_model.specs.Layout.{is_apart as apart, are_apart as all_apart, is_inside as inside, is_bitmap as bitmap_holds, earlier, is_passed};
ghost use Rattle.udf_volume.specs.Areas.{area_seen};
ghost use Rattle.udf_volume.specs.Laid.{is_bitmap_at, are_high_stated, areas_laid, is_laid as laid, IsLaidOut};
ghost use Rattle.udf_volume.specs.Over.{IsOver};

use crate::anchor::{anchor_of, blocks_of, places_of};
use crate::{Area, Volume, WorkStop, areas_of, lies_outside};
use std::alloc::Global;
use udf_field::Short;
use udf_outside::{Bench, Failed, read_block};

/// The partition and the sparing tables start above this block.
const LAST_RESERVED: u32 = 128;

/// The bytes of a space bitmap before its bits (ECMA-167 4/14.12).
const BITMAP_HEADER: u64 = 24;

#[tactic(auto, unfolding(udf_volume_model::specs::Layout::is_apart))]
fn is_apart(a: Area, b: Area) -> bool
    ensures { result ≡ apart (area_seen a) (area_seen b) }
{
    a.blocks == 0
        || b.blocks == 0
        || a.start as u64 + a.blocks as u64 <= b.start as u64
        || b.start as u64 + b.blocks as u64 <= a.start as u64
}

fn is_apart_from_all(area: Area, others: &[Area]) -> bool
    ensures { result ≡ list_all (λ other. apart (area_seen area) (area_seen other)) others.now }
{
    others.iter().all(|other| is_apart(area, *other))
}

// Whether areas are pairwise apart.
#[tactic(auto, using(crate::proofs::Laying::none_apart, crate::proofs::Laying::first_not_apart, crate::proofs::Laying::first_apart))]
fn are_apart(areas: &[Area]) -> bool
    ensures { result ≡ all_apart (map area_seen areas.now) }
{
    let Some((first, rest)) = areas.split_first() else {
        return true;
    };
    if !is_apart_from_all(*first, rest) {
        return false;
    }
    are_apart(rest)
}

#[tactic(auto, unfolding(udf_volume_model::specs::Layout::is_inside))]
fn is_inside(area: Area, blocks: u32) -> bool
    ensures { result ≡ inside blocks (area_seen area) }
{
    area.start as u64 + area.blocks as u64 <= blocks as u64
}

fn are_inside(areas: &[Area], blocks: u32) -> bool
    ensures { result ≡ list_all (λ area. inside blocks (area_seen area)) areas.now }
{
    areas.iter().all(|area| is_inside(*area, blocks))
}

#[tactic(auto, unfolding(udf_volume_model::specs::Layout::is_bitmap))]
fn holds_bitmap(size: u32, count: u32, bitmap: Short) -> bool
    requires { 512 ≤ size }
    ensures { result ≡ bitmap_holds size count bitmap.length bitmap.block }
{
    bitmap.block as u64 + blocks_of(size, bitmap.length) as u64 <= count as u64
        && BITMAP_HEADER + (count as u64 + 7) / 8 <= bitmap.length as u64
}

fn is_bitmap_lawful(volume: &Volume) -> bool
    requires { 512 ≤ volume.now.size }
    ensures { result ≡ is_bitmap_at volume.now.size volume.now.length volume.now.bitmap }
{
    match volume.bitmap {
        None => true,
        Some(bitmap) => holds_bitmap(volume.size, volume.length, bitmap),
    }
}

fn all_start_high(sectors: &[u32]) -> bool
    ensures { result ≡ list_all (λ at. nat_lt 128 at) sectors.now }
{
    sectors.iter().all(|at| LAST_RESERVED < *at)
}

// Whether the partition and the sparing tables start high.
#[tactic(auto, using(crate::proofs::Laying::low_partition, crate::proofs::Laying::no_tables, crate::proofs::Laying::high_tables))]
fn are_high(volume: &Volume) -> bool
    ensures { result ≡ are_high_stated volume.now }
{
    if volume.start <= LAST_RESERVED {
        return false;
    }
    match &volume.shape.sparing {
        None => true,
        Some(map) => all_start_high(map.tables()),
    }
}

// Whether the areas lie as they must.
#[tactic(auto, using(crate::proofs::Laying::not_inside, crate::proofs::Laying::not_apart, crate::proofs::Laying::too_low, crate::proofs::Laying::bitmap_left))]
fn are_laid(volume: &Volume, areas: &[Area]) -> bool
    requires { 512 ≤ volume.now.size }
    ensures { result ≡ areas_laid volume.now (map area_seen areas.now) }
{
    if !are_inside(areas, volume.blocks) {
        return false;
    }
    if !are_apart(areas) {
        return false;
    }
    if !are_high(volume) {
        return false;
    }
    is_bitmap_lawful(volume)
}

// Whether each of some places before the kept one lies in no area and holds no whole anchor.
#[tactic(auto, using(crate::proofs::Laying::none_earlier, crate::proofs::Laying::kept_earlier, crate::proofs::Laying::one_in, crate::proofs::Laying::one_whole, crate::proofs::Laying::one_passed))]
fn are_passed<B: Bench>(
    bench: &mut B,
    volume: &Volume,
    areas: &[Area],
    places: &[u32],
    block: &mut [u8],
) -> Result<bool, Failed>
    requires over { IsOver volume.now (B.files bench.old) }
    requires room { length block.old ≡ volume.now.size }
    requires inside { AllByRecursion (λ at. at < volume.now.blocks) places.now }
    ensures passed { B.tells → IfOk result (λ passed. passed ≡ list_all
        (is_passed volume.now.size volume.now.blocks (disk_of volume.now.size (B.held bench.old)) (map area_seen areas.now))
        (earlier volume.now.anchor places.now)) }
    ensures reads { OnlyReads B.files B.held B.faults bench.old bench.new failed result }
{
    let Some((first, rest)) = places.split_first() else {
        return Ok(true);
    };
    let place = *first;
    if place == volume.anchor {
        return Ok(true);
    }
    if !lies_outside(areas, place) {
        return Ok(false);
    }
    read_block(bench, volume.size, place, block)?;
    if anchor_of(block, place, volume.size, volume.blocks).is_some() {
        return Ok(false);
    }
    are_passed(bench, volume, areas, rest, block)
}

/// Whether the layout is lawful: the areas lie in the image and are pairwise apart, the kept anchor lies in none of them,
/// the partition and the sparing tables start above block 128, the partition holds its bitmap, and each place before the kept one lies in no area and holds
/// no whole anchor. `block` is lent and has the block size.
#[tactic(auto, using(crate::proofs::Laying::not_laid, crate::proofs::Laying::anchor_in_area, crate::proofs::Laying::laid_by, crate::proofs::Laying::laid_out))]
pub(crate) fn is_lawful<B: Bench>(
    alloc: Global,
    bench: &mut B,
    volume: &Volume,
    block: &mut [u8],
) -> Result<bool, WorkStop>
    requires over { IsOver volume.now (B.files bench.old) }
    requires room { length block.old ≡ volume.now.size }
    ensures lawful { B.tells → IfOk result (λ lawful. lawful ≡ laid volume.now (disk_of volume.now.size (B.held bench.old))) }
    ensures areas { IfOk result (λ lawful. lawful ≡ true → IsLaidOut volume.now) }
    ensures reads { OnlyReads B.files B.held B.faults bench.old bench.new WorkStop.Fault result }
{
    let areas = areas_of(alloc, volume)?;
    let places = places_of(alloc, volume.blocks)?;
    if !are_laid(volume, &areas) {
        return Ok(false);
    }
    if !lies_outside(&areas, volume.anchor) {
        return Ok(false);
    }
    let passed = are_passed(bench, volume, &areas, &places, block)?;
    Ok(passed)
}
