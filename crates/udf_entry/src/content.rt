// Contents of entries.
ghost use Rattle.std.specs.Prelude.{◌≡◌, ◌+◌, ◌*◌, ◌/◌, ◌<◌, ◌≤◌, ◌++◌, ◌^◌, ℕ, true, IfOk, OnOk, Some, length, take, vec_len};
ghost use Rattle.udf_field.specs.declared.address.Addr.{Addr};
ghost use Rattle.udf_model.specs.Size.{is_size};
ghost use Rattle.udf_model.specs.Tag.{location};
ghost use Rattle.udf_outside.specs.Files.{IsAttached};
ghost use Rattle.udf_outside.specs.Stops.{bytes_of};
ghost use Rattle.udf_outside.specs.Reads.{OnlyReads};
ghost use Rattle.udf_outside.specs.declared.bench.Role.TheVariants.{Image};
ghost use Rattle.udf_file_model.specs.Entry.{entry_of};
ghost use Rattle.udf_file_model.specs.Listing.{volume_of};
ghost use Rattle.udf_file_model.specs.Content.{block_at, blocks_from, content_by, run_bytes, runs_bytes};
ghost use Rattle.udf_entry.specs.RunView.{run_seen, runs_seen};

use crate::run::blocks_of;
use crate::{List, ListStop, Run, read_entry};
use std::alloc::Global;
use udf_field::{Addr, Fields};
use udf_layer::Parts;
use udf_outside::{Bench, read_block};

// The kind of an entry whose content is embedded (ECMA-167 4/14.6.8).
const EMBEDDED: u8 = 3;

// The kind of a descriptor of recorded blocks (ECMA-167 4/14.14.1.1).
const RECORDED: u8 = 0;

// Where a tag states its location (ECMA-167 3/7.2.8).
const LOCATION_AT: usize = 12;

// Appends so many bytes of the block at an address, where it is placed. `room` is lent and has the block size.
fn append_block<B: Bench, P: Parts>(
    bench: &mut B,
    parts: &P,
    size: u32,
    at: Addr,
    want: usize,
    room: &mut [u8],
    content: &mut Vec<u8>,
) -> Result<(), ListStop>
    requires attached { IsAttached Image (B.files bench.old) }
    requires placed { (a : Addr) (s : ℕ) → P.place parts.now a ≡ Some s → s < (B.files bench.old).image.size / size }
    requires room { length room.old ≡ size }
    ensures bytes { B.tells → OnOk result (content.new.items ≡ content.old.items
        ++ take want (block_at (volume_of size (bytes_of Image (B.held bench.old)) (P.place parts.now)) at)) }
    ensures short { OnOk result (vec_len content.new ≤ vec_len content.old + want) }
    ensures reads { OnlyReads B.files B.held B.faults bench.old bench.new ListStop.Fault result }
{
    let Some(sector) = parts.locate(at) else {
        return Ok(());
    };
    read_block(bench, size, sector, room)?;
    let many = want.min(room.len());
    content.extend_from_slice(&room[..many])?;
    Ok(())
}

// Appends so many bytes of the blocks from an address on. `room` is lent and has the block size.
fn append_blocks<B: Bench, P: Parts>(
    bench: &mut B,
    parts: &P,
    size: u32,
    at: Addr,
    blocks: u32,
    want: usize,
    room: &mut [u8],
    content: &mut Vec<u8>,
) -> Result<(), ListStop>
    requires attached { IsAttached Image (B.files bench.old) }
    requires placed { (a : Addr) (s : ℕ) → P.place parts.now a ≡ Some s → s < (B.files bench.old).image.size / size }
    requires room { length room.old ≡ size }
    requires fits { vec_len content.old + want < 2 ^ 64 }
    ensures bytes { B.tells → OnOk result (content.new.items ≡ content.old.items
        ++ take want (blocks_from (volume_of size (bytes_of Image (B.held bench.old)) (P.place parts.now)) at.part at.block blocks)) }
    ensures short { OnOk result (vec_len content.new ≤ vec_len content.old + want) }
    ensures reads { OnlyReads B.files B.held B.faults bench.old bench.new ListStop.Fault result }
{
    let end = content.len() + want;
    let limit = parts.blocks(at.part) as u64;
    for i in 0..blocks {
        let left = end - content.len();
        if left == 0 {
            return Ok(());
        }
        if limit <= at.block as u64 + i as u64 {
            return Ok(());
        }
        let next = Addr {
            part: at.part,
            block: at.block + i,
        };
        append_block(bench, parts, size, next, left, room, content)?;
    }
    Ok(())
}

// Appends the bytes of a run, so that the content has at most `end`. `room` is lent and has the block size.
fn append_run<B: Bench, P: Parts>(
    bench: &mut B,
    parts: &P,
    size: u32,
    run: &Run,
    want: usize,
    room: &mut [u8],
    content: &mut Vec<u8>,
) -> Result<(), ListStop>
    requires attached { IsAttached Image (B.files bench.old) }
    requires some { 0 < size }
    requires placed { (a : Addr) (s : ℕ) → P.place parts.now a ≡ Some s → s < (B.files bench.old).image.size / size }
    requires room { length room.old ≡ size }
    requires fits { vec_len content.old + want < 2 ^ 64 }
    ensures bytes { B.tells → OnOk result (content.new.items ≡ content.old.items
        ++ take want (run_bytes (volume_of size (bytes_of Image (B.held bench.old)) (P.place parts.now)) (run_seen run.now))) }
    ensures short { OnOk result (vec_len content.new ≤ vec_len content.old + want) }
    ensures reads { OnlyReads B.files B.held B.faults bench.old bench.new ListStop.Fault result }
{
    let many = want.min(run.length as usize);
    if run.kind == RECORDED {
        append_blocks(
            bench,
            parts,
            size,
            run.at,
            blocks_of(size, run.length),
            many,
            room,
            content,
        )
    } else {
        content.resize(content.len() + many, 0)?;
        Ok(())
    }
}

// The bytes of some runs, up to an end. `room` is lent and has the block size.
fn read_runs<B: Bench, P: Parts>(
    alloc: Global,
    bench: &mut B,
    parts: &P,
    size: u32,
    runs: &[Run],
    end: usize,
    room: &mut [u8],
) -> Result<Vec<u8>, ListStop>
    requires attached { IsAttached Image (B.files bench.old) }
    requires some { 0 < size }
    requires placed { (a : Addr) (s : ℕ) → P.place parts.now a ≡ Some s → s < (B.files bench.old).image.size / size }
    requires room { length room.old ≡ size }
    ensures bytes { B.tells → IfOk result (λ content. content.items
        ≡ take end (runs_bytes (volume_of size (bytes_of Image (B.held bench.old)) (P.place parts.now)) (runs_seen runs.now))) }
    ensures reads { OnlyReads B.files B.held B.faults bench.old bench.new ListStop.Fault result }
{
    let mut content = Vec::new(alloc);
    for run in runs {
        let want = end - content.len();
        append_run(bench, parts, size, run, want, room, &mut content)?;
    }
    Ok(content)
}

/// The content of the readable entry in a block, by its list, up to a limit in bytes: the body up to the information length.
/// Holes and blocks that are not recorded read as zeros.
#[tactic(auto, unfolding(udf_file_model::specs::Content::content))]
pub fn content_of<B: Bench, P: Parts>(
    alloc: Global,
    bench: &mut B,
    parts: &P,
    block: &[u8],
    list: &List,
    limit: u64,
) -> Result<Vec<u8>, ListStop>
    requires attached { IsAttached Image (B.files bench.old) }
    requires size { is_size (length block.now) ≡ true }
    requires placed { (a : Addr) (s : ℕ) → P.place parts.now a ≡ Some s → s < (B.files bench.old).image.size / length block.now }
    ensures content { B.tells → IfOk result (λ content. content.items
        ≡ content_by (volume_of (length block.now) (bytes_of Image (B.held bench.old)) (P.place parts.now)) list.now.runs limit
        (entry_of (location block.now) block.now)) }
    ensures reads { OnlyReads B.files B.held B.faults bench.old bench.new ListStop.Fault result }
{
    let Some(entry) = read_entry(block, Fields::over(block).u32_at(LOCATION_AT)) else {
        return Ok(Vec::new(alloc));
    };
    let end = limit.min(entry.info_length()) as usize;
    if entry.kind() == EMBEDDED {
        let body = entry.body();
        let many = end.min(body.len());
        return Ok(Vec::from_slice(alloc, &body[..many])?);
    }
    let mut room = vec![in alloc; 0; block.len()]?;
    read_runs(
        alloc,
        bench,
        parts,
        block.len() as u32,
        list.runs(),
        end,
        &mut room,
    )
}
