// The allocation extents of a list that is cut (ECMA-167 4/14.5).
ghost use Rattle.std.specs.Prelude.{◌≡◌, ◌+◌, ◌≤◌, ◌<◌, ◌^◌, ◌++◌, ◌∷◌, [], ℕ, true, IfOk, IfSome, OnOk, Some, length, option_map};
ghost use Rattle.udf_model.specs.Size.{is_size};
ghost use Rattle.udf_model.specs.Bytes.{with_number};
ghost use Rattle.udf_outside.specs.Reads.{OnlyReads};
ghost use Rattle.udf_file_model.specs.Cut.{onward};
ghost use Rattle.udf_file_model.specs.CutBody.{cut_body, extent_with};
ghost use Rattle.udf_file_model.specs.Entry.{extent_body};
ghost use Rattle.udf_file_model.specs.Listing.{descriptors_in};
ghost use Rattle.udf_file_mends.specs.Mends.{mended_extent};
ghost use Rattle.udf_wanted.specs.Wanted.{LookAlike, differing};
ghost use Rattle.udf_wanted.specs.Writable.{AreWritable, is_free};
ghost use Rattle.udf_file_plan.specs.Base.{IsPlannedOver, PutsOf, listed};
ghost use Rattle.udf_file_plan.specs.Chain.{chain, extents_left};
ghost use Rattle.udf_file_plan.specs.Cuts.{further_seen};

use crate::WorkStop;
use crate::descriptors::{Further, body_after, further_at};
use crate::different::{is_same, put_different};
use crate::entry::write_at;
use std::alloc::{AllocError, Global};
use udf_field::{Addr, Fields, FieldsMut, id_at, retag};
use udf_layer::Parts;
use udf_outside::{Bench, read_block};
use udf_volume::Volume;
use udf_wanted::Wanted;

// The identifier of an allocation extent descriptor (ECMA-167 4/7.2.1).
const ALLOCATION_EXTENT: u16 = 258;

// L_AD of an allocation extent, where its descriptors begin, and the bytes before them that the CRC of its tag covers.
const LENGTH_AT: usize = 20;

const EXTENT_BYTES: usize = 24;

const EXTENT_COVERED: usize = 8;

// The bytes of the descriptors of a whole allocation extent in a block at a location.
#[tactic(auto, unfolding(udf_file_model::specs::Entry::extent_body))]
fn extent_in(block: &[u8], location: u32) -> Option<&[u8]>
    ensures body { option_map (λ body. body.now) result ≡ extent_body location block.now }
    ensures short { IfSome result (λ body. 24 + length body.now ≤ length block.now) }
{
    let Some(ALLOCATION_EXTENT) = id_at(block, location) else {
        return None;
    };
    if block.len() < EXTENT_BYTES {
        return None;
    }
    let many = Fields::over(block).u32_at(LENGTH_AT) as usize;
    if block.len() < EXTENT_BYTES + many {
        return None;
    }
    Some(&block[EXTENT_BYTES..EXTENT_BYTES + many])
}

// Writes L_AD of an allocation extent.
fn put_extent_length(block: &mut [u8], bytes: u32)
    requires { 24 ≤ length block.old }
    ensures { block.new ≡ with_number 4 20 bytes block.old }
{
    let mut fields = FieldsMut::over(block);
    fields.put_u32(LENGTH_AT, bytes);
}

// Writes bytes of descriptors into the allocation extent at a location, with a new tag.
#[tactic(auto, unfolding(udf_file_model::specs::CutBody::extent_with))]
fn write_extent(block: &mut [u8], location: u32, body: &[u8])
    requires room { 24 + length body.now ≤ length block.old }
    requires small { length block.old ≤ 4096 }
    ensures { block.new ≡ extent_with location body.now block.old }
{
    put_extent_length(block, body.len() as u32);
    write_at(block, EXTENT_BYTES, body);
    retag(block, (EXTENT_COVERED + body.len()) as u16, location);
}

// The block of an allocation extent at a location that has other bytes of descriptors.
fn with_body(alloc: Global, block: &[u8], location: u32, body: &[u8]) -> Result<Vec<u8>, AllocError>
    requires room { 24 + length body.now ≤ length block.now }
    requires small { length block.now ≤ 4096 }
    ensures block { IfOk result (λ after. after.items ≡ extent_with location body.now block.now) }
    ensures whole { IfOk result (λ after. length after.items ≡ length block.now) }
{
    let mut after = block.to_vec(alloc)?;
    write_extent(&mut after, location, body);
    Ok(after)
}

// Puts the block of an allocation extent at a location, which stands at a sector, with what a cut leaves of its descriptors, where that is
// less.
fn put_body(
    alloc: Global,
    volume: &Volume,
    sector: u32,
    location: u32,
    block: &[u8],
    body: &[u8],
    left: &[u8],
    wanted: &mut Wanted,
) -> Result<(), AllocError>
    requires size { is_size volume.now.size ≡ true }
    requires free { is_free volume.now sector ≡ true }
    requires whole { length block.now ≡ volume.now.size }
    requires room { 24 + length left.now ≤ length block.now }
    requires writable { AreWritable volume.now wanted.old }
    ensures put { (kind bytes : ℕ) (at : Addr) → at.block ≡ location → extent_body location block.now ≡ Some body.now → left.now ≡ cut_body kind at bytes body.now
        → OnOk result (LookAlike wanted.new (wanted.old ++ differing (λ _. block.now) ((sector, mended_extent kind at block.now (Some bytes)) ∷ []))) }
    ensures writable { OnOk result (AreWritable volume.now wanted.new) }
{
    if is_same(left, body) {
        return Ok(());
    }
    let after = with_body(alloc, block, location, left)?;
    put_different(volume, sector, block, &after, wanted)
}

// Puts what a cut leaves of the allocation extent at an address, and answers where it goes on. `room` is lent and has the block size.
fn put_extent<B: Bench, P: Parts>(
    alloc: Global,
    bench: &mut B,
    volume: &Volume,
    parts: &P,
    kind: u8,
    further: Further,
    wanted: &mut Wanted,
    room: &mut [u8],
) -> Result<Option<Further>, WorkStop>
    requires over { IsPlannedOver volume.now (P.place parts.now) (B.files bench.old) }
    requires room { length room.old ≡ volume.now.size }
    requires writable { AreWritable volume.now wanted.old }
    ensures put { B.tells → let v = listed volume.now (B.held bench.old) (P.place parts.now) in
        OnOk result (PutsOf v wanted.old wanted.new (extents_left v kind (further_seen further ∷ []))) }
    ensures onward { B.tells → let v = listed volume.now (B.held bench.old) (P.place parts.now) in
        IfOk result (λ next. option_map further_seen next ≡ onward further.left (descriptors_in v kind further.at)) }
    ensures writable { OnOk result (AreWritable volume.now wanted.new) }
    ensures room { length room.new ≡ length room.old }
    ensures reads { OnlyReads B.files B.held B.faults bench.old bench.new WorkStop.Fault result }
{
    let Some(sector) = parts.locate(further.at) else {
        return Ok(None);
    };
    read_block(bench, volume.size, sector, room)?;
    let location = further.at.block;
    let Some(body) = extent_in(room, location) else {
        return Ok(None);
    };
    let next = further_at(kind, further.at, body, further.left);
    let left = body_after(alloc, kind, further.at, body, further.left)?;
    put_body(alloc, volume, sector, location, room, body, &left, wanted)?;
    Ok(next)
}

/// Puts what a cut leaves of the allocation extents of a list, from the first in which it goes on, but at most so many. `room` is lent and
/// has the block size.
pub(crate) fn put_extents<B: Bench, P: Parts>(
    alloc: Global,
    bench: &mut B,
    volume: &Volume,
    parts: &P,
    kind: u8,
    first: Option<Further>,
    many: u32,
    wanted: &mut Wanted,
    room: &mut [u8],
) -> Result<(), WorkStop>
    requires over { IsPlannedOver volume.now (P.place parts.now) (B.files bench.old) }
    requires room { length room.old ≡ volume.now.size }
    requires writable { AreWritable volume.now wanted.old }
    ensures put { B.tells → let v = listed volume.now (B.held bench.old) (P.place parts.now) in
        OnOk result (PutsOf v wanted.old wanted.new (extents_left v kind (chain (descriptors_in v kind) many (option_map further_seen first)))) }
    ensures writable { OnOk result (AreWritable volume.now wanted.new) }
    ensures room { length room.new ≡ length room.old }
    ensures reads { OnlyReads B.files B.held B.faults bench.old bench.new WorkStop.Fault result }
{
    let mut next = first;
    for _ in 0..many {
        let Some(further) = next else {
            return Ok(());
        };
        next = put_extent(alloc, bench, volume, parts, kind, further, wanted, room)?;
    }
    Ok(())
}
