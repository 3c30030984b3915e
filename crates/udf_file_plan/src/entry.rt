// The block of an entry that states wanted values (ECMA-167 4/14.9 and 4/14.17).
ghost use Rattle.std.specs.Prelude.{◌≡◌, ◌+◌, ◌≤◌, ◌++◌, ◌∷◌, [], ℕ, Some, IfOk, OnOk, drop, length, true};
ghost use Rattle.std.specs.Str.{bytes_eq};
ghost use Rattle.udf_model.specs.Size.{is_size};
ghost use Rattle.udf_model.specs.Bytes.{written_at};
ghost use Rattle.udf_file_model.specs.Wanted.{base_of, body_with};
ghost use Rattle.udf_entry.specs.Opened.{IsOpened};
ghost use Rattle.udf_entry.specs.ValuesView.{wanted_of};
ghost use Rattle.udf_file_mends.specs.Mends.{mended_entry};
ghost use Rattle.udf_wanted.specs.Wanted.{LookAlike, differing};
ghost use Rattle.udf_wanted.specs.Writable.{AreWritable, is_free};

use crate::different::{is_same, put_different};
use std::alloc::{AllocError, Global};
use udf_entry::{Values, base_in, retag_entry};
use udf_volume::Volume;
use udf_wanted::Wanted;

// The bytes of a tag (ECMA-167 3/7.2).
const TAG_BYTES: usize = 16;

// Writes bytes over those from an offset.
#[tactic(auto, unfolding(udf_model::specs::Bytes::written_at))]
pub(crate) fn write_at(area: &mut [u8], at: usize, bytes: &[u8])
    requires { at + length bytes.now ≤ length area.old }
    ensures { area.new ≡ written_at at bytes.now area.old }
{
    area[at..at + bytes.len()].copy_from_slice(bytes);
}

// The block of an entry with wanted values and body, under its old tag.
#[tactic(auto, unfolding(udf_file_model::specs::Wanted::body_with))]
fn with_values(
    alloc: Global,
    block: &[u8],
    header: usize,
    values: &Values,
    body: &[u8],
) -> Result<Vec<u8>, AllocError>
    requires opened { IsOpened header block.now }
    requires bytes { values.now.bytes ≡ length body.now }
    requires room { base_of header block.now + length body.now ≤ length block.now }
    ensures block { IfOk result (λ after. after.items ≡ body_with header (wanted_of values.now body.now) block.now) }
    ensures whole { IfOk result (λ after. length after.items ≡ length block.now) }
{
    let base = base_in(block, header);
    let mut after = block.to_vec(alloc)?;
    values.put(&mut after, header);
    write_at(&mut after, base, body);
    Ok(after)
}

// Whether two blocks hold the same bytes behind their tags.
fn is_same_behind(after: &[u8], block: &[u8]) -> bool
    requires after { 16 ≤ length after.now }
    requires block { 16 ≤ length block.now }
    ensures { result ≡ bytes_eq (drop 16 after.now) (drop 16 block.now) }
{
    is_same(&after[TAG_BYTES..], &block[TAG_BYTES..])
}

/// Puts the block of the entry with this header, in a block at a location that stands at a sector, with wanted values and body: with a new
/// tag where anything behind the tag is new, and where that makes another block.
pub(crate) fn put_entry(
    alloc: Global,
    volume: &Volume,
    sector: u32,
    location: u32,
    block: &[u8],
    header: usize,
    values: &Values,
    body: &[u8],
    wanted: &mut Wanted,
) -> Result<(), AllocError>
    requires size { is_size volume.now.size ≡ true }
    requires free { is_free volume.now sector ≡ true }
    requires whole { length block.now ≡ volume.now.size }
    requires opened { IsOpened header block.now }
    requires bytes { values.now.bytes ≡ length body.now }
    requires room { base_of header block.now + length body.now ≤ length block.now }
    requires writable { AreWritable volume.now wanted.old }
    ensures put { OnOk result (LookAlike wanted.new
        (wanted.old ++ differing (λ _. block.now) ((sector, mended_entry location header (wanted_of values.now body.now) block.now) ∷ []))) }
    ensures writable { OnOk result (AreWritable volume.now wanted.new) }
{
    let mut after = with_values(alloc, block, header, values, body)?;
    if is_same_behind(&after, block) {
        return Ok(());
    }
    let base = base_in(block, header);
    retag_entry(&mut after, location, base, body.len());
    put_different(volume, sector, block, &after, wanted)
}
