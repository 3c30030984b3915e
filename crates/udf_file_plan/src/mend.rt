// The mend of a kept entry: its own block, the allocation extents of its list, and the content of a directory.
ghost use Rattle.std.specs.Prelude.{◌≡◌, ◌+◌, ◌≤◌, ◌<◌, ◌^◌, ◌++◌, ◌∷◌, [], IfOk, OnOk, Some, length, option_map, true};
ghost use Rattle.udf_model.specs.Size.{is_size};
ghost use Rattle.udf_model.specs.Tag.{location};
ghost use Rattle.udf_outside.specs.Reads.{OnlyReads};
ghost use Rattle.udf_file_model.specs.Content as content;
ghost use Rattle.udf_file_model.specs.Descriptors.{descriptors};
ghost use Rattle.udf_file_model.specs.Entry.{Entry as Stated, body_of, descriptor_bytes, entry_header, entry_of};
ghost use Rattle.udf_file_model.specs.Listing.{listing_at};
ghost use Rattle.udf_entry.specs.Opened.{IsOpened};
ghost use Rattle.udf_entry.specs.ValuesView.{wanted_of};
ghost use Rattle.udf_file_mends.specs.Mends.{mended_entry};
ghost use Rattle.udf_wanted.specs.Wanted.{LookAlike, differing};
ghost use Rattle.udf_wanted.specs.Writable.{AreWritable, is_free};
ghost use Rattle.udf_file_plan.specs.Base.{IsPlannedOver, PutsOf, listed};
ghost use Rattle.udf_file_plan.specs.Cuts.{further_seen};
ghost use Rattle.udf_file_plan.specs.Parts.{body_left as left_of, content_left, first_further as further_from, listed_left, stop_of};

use crate::WorkStop;
use crate::content::put_content;
use crate::descriptors::{Further, body_after, further_at};
use crate::entry::put_entry;
use crate::extents::put_extents;
use std::alloc::{AllocError, Global};
use udf_entry::{List, ListStop, Values, base_in, content_of, list_of, read_entry};
use udf_field::Addr;
use udf_layer::Parts;
use udf_outside::Bench;
use udf_volume::Volume;
use udf_wanted::Wanted;

// The kind of an entry whose content is embedded (ECMA-167 4/14.6.8).
const EMBEDDED: u8 = 3;

/// Why a list or a content was not read, as the work's stop.
fn work_stop(stop: ListStop) -> WorkStop
    ensures { result ≡ stop_of stop }
{
    match stop {
        ListStop::Fault => WorkStop::Fault,
        ListStop::Memory => WorkStop::Memory,
    }
}

/// The list of the readable entry in a block at an address.
pub(crate) fn list_at<B: Bench, P: Parts>(
    alloc: Global,
    bench: &mut B,
    volume: &Volume,
    parts: &P,
    at: Addr,
    block: &[u8],
) -> Result<List, WorkStop>
    requires over { IsPlannedOver volume.now (P.place parts.now) (B.files bench.old) }
    requires whole { length block.now ≡ volume.now.size }
    ensures list { B.tells → IfOk result (λ list. list ≡ listing_at (listed volume.now (B.held bench.old) (P.place parts.now)) at block.now) }
    ensures reads { OnlyReads B.files B.held B.faults bench.old bench.new WorkStop.Fault result }
{
    match list_of(alloc, bench, parts, at, block) {
        Ok(list) => Ok(list),
        Err(stop) => Err(work_stop(stop)),
    }
}

/// The content of the readable entry in a block, by its list, up to a limit in bytes.
pub(crate) fn content_at<B: Bench, P: Parts>(
    alloc: Global,
    bench: &mut B,
    volume: &Volume,
    parts: &P,
    block: &[u8],
    list: &List,
    limit: u64,
) -> Result<Vec<u8>, WorkStop>
    requires over { IsPlannedOver volume.now (P.place parts.now) (B.files bench.old) }
    requires whole { length block.now ≡ volume.now.size }
    ensures content { B.tells → IfOk result (λ bytes. bytes.items
        ≡ content.content_by (listed volume.now (B.held bench.old) (P.place parts.now)) list.now.runs limit (entry_of (location block.now) block.now)) }
    ensures reads { OnlyReads B.files B.held B.faults bench.old bench.new WorkStop.Fault result }
{
    match content_of(alloc, bench, parts, block, list, limit) {
        Ok(bytes) => Ok(bytes),
        Err(stop) => Err(work_stop(stop)),
    }
}

// The body of an entry of a kind after a cut to so many bytes: of an embedded entry those of the content that is given, or the first of its
// own; else the descriptors that are left.
fn body_left(
    alloc: Global,
    kind: u8,
    at: Addr,
    body: &[u8],
    bytes: u64,
    content: Option<&[u8]>,
) -> Result<Vec<u8>, AllocError>
    requires small { length body.now < 2 ^ 32 }
    ensures { IfOk result (λ left. left.items ≡ left_of kind at body.now bytes (option_map (λ c. c.now) content.entry)) }
{
    if kind != EMBEDDED {
        return body_after(alloc, kind, at, body, bytes);
    }
    match content {
        Some(content) => content.to_vec(alloc),
        None => {
            let many = bytes.min(body.len() as u64) as usize;
            body[..many].to_vec(alloc)
        }
    }
}

// Where the cut of a body to so many bytes goes on; nowhere where nothing is left.
fn first_further(kind: u8, at: Addr, body: &[u8], bytes: u64) -> Option<Further>
    requires small { length body.now < 2 ^ 32 }
    ensures { option_map further_seen result ≡ further_from bytes (descriptors kind at body.now) }
{
    if bytes == 0 {
        return None;
    }
    further_at(kind, at, body, bytes)
}

/// A kept entry that is mended: its address, and the sector at which its block stands, with the length of its header.
#[derive(Clone, Copy, Debug, PartialEq, Eq)]
pub(crate) struct Standing {
    pub at: Addr,
    pub sector: u32,
    pub header: usize,
}

/// A kept entry that is mended, with its block and the values that it is to state.
#[derive(Clone, Copy)]
pub(crate) struct Mending<'a> {
    pub own: Standing,
    pub block: &'a [u8],
    pub values: &'a Values,
}

/// Puts the block of an entry with these values whose list stays.
pub(crate) fn put_same(
    alloc: Global,
    volume: &Volume,
    kept: Mending<'_>,
    wanted: &mut Wanted,
) -> Result<(), AllocError>
    requires size { is_size volume.now.size ≡ true }
    requires free { is_free volume.now kept.own.sector ≡ true }
    requires whole { length kept.block.now ≡ volume.now.size }
    requires opened { IsOpened kept.own.header kept.block.now }
    requires header { entry_header kept.own.at.block kept.block.now ≡ Some kept.own.header }
    requires bytes { kept.values.now.bytes ≡ length (body_of kept.own.header kept.block.now) }
    requires writable { AreWritable volume.now wanted.old }
    ensures put { OnOk result (LookAlike wanted.new (wanted.old
        ++ differing (λ _. kept.entry.block.now) ((
          kept.entry.own.sector,
          mended_entry kept.entry.own.at.block kept.entry.own.header
              (wanted_of kept.entry.values.now (body_of kept.entry.own.header kept.entry.block.now)) kept.entry.block.now,
        ) ∷ []))) }
    ensures writable { OnOk result (AreWritable volume.now wanted.new) }
{
    let Mending { own, block, values } = kept;
    let Standing { at, sector, header } = own;
    let Some(read) = read_entry(block, at.block) else {
        return Ok(());
    };
    put_entry(
        alloc,
        volume,
        sector,
        at.block,
        block,
        header,
        values,
        read.body(),
        wanted,
    )
}

// The values of an entry whose information length and object size are so many bytes, and whose body has others.
fn with_lengths(values: &Values, bytes: u64, body: u32) -> Values
    ensures { result ≡ record values.now { information = bytes; object_size = bytes; bytes = body } }
{
    Values {
        information: bytes,
        object_size: bytes,
        links: values.links,
        id: values.id,
        clear: values.clear,
        bytes: body,
    }
}

// Puts the block of an entry whose list is cut to so many bytes, and what that leaves of its allocation extents, of which there are so many.
// The body of an entry of a repairable volume has room in its block; another one is left as it is.
fn put_listed<B: Bench, P: Parts>(
    alloc: Global,
    bench: &mut B,
    volume: &Volume,
    parts: &P,
    kept: Mending<'_>,
    bytes: u64,
    content: Option<&[u8]>,
    many: u32,
    wanted: &mut Wanted,
    room: &mut [u8],
) -> Result<(), WorkStop>
    requires over { IsPlannedOver volume.now (P.place parts.now) (B.files bench.old) }
    requires there { P.place parts.now kept.own.at ≡ Some kept.own.sector }
    requires whole { length kept.block.now ≡ volume.now.size }
    requires opened { IsOpened kept.own.header kept.block.now }
    requires header { entry_header kept.own.at.block kept.block.now ≡ Some kept.own.header }
    requires room { length room.old ≡ volume.now.size }
    requires writable { AreWritable volume.now wanted.old }
    ensures put { B.tells → let v = listed volume.now (B.held bench.old) (P.place parts.now) in (e : Stated) → entry_of kept.entry.own.at.block kept.entry.block.now ≡ Some e
        → kept.entry.block.now ≡ v.disk kept.entry.own.sector
        → length (left_of e.kind kept.entry.own.at e.body bytes (option_map (λ c. c.now) content.entry)) ≤ descriptor_bytes kept.entry.own.header kept.entry.block.now
        → OnOk result (PutsOf v wanted.old wanted.new
        (listed_left v kept.entry.own.at e (wanted_of kept.entry.values.now e.body) many bytes (option_map (λ c. c.now) content.entry))) }
    ensures writable { OnOk result (AreWritable volume.now wanted.new) }
    ensures room { length room.new ≡ length room.old }
    ensures reads { OnlyReads B.files B.held B.faults bench.old bench.new WorkStop.Fault result }
{
    let Mending { own, block, values } = kept;
    let Standing { at, sector, header } = own;
    let Some(read) = read_entry(block, at.block) else {
        return Ok(());
    };
    let kind = read.kind();
    let left = body_left(alloc, kind, at, read.body(), bytes, content)?;
    if block.len() < base_in(block, header) + left.len() {
        return Ok(());
    }
    let values = with_lengths(values, bytes, left.len() as u32);
    put_entry(
        alloc, volume, sector, at.block, block, header, &values, &left, wanted,
    )?;
    let first = first_further(kind, at, read.body(), bytes);
    put_extents(alloc, bench, volume, parts, kind, first, many, wanted, room)
}

/// Puts the mend of an entry whose list is cut to so many bytes: its block with these values else, what that leaves of its allocation
/// extents, and the content that is given.
pub(crate) fn put_cut<B: Bench, P: Parts>(
    alloc: Global,
    bench: &mut B,
    volume: &Volume,
    parts: &P,
    kept: Mending<'_>,
    bytes: u64,
    content: Option<&[u8]>,
    list: &List,
    wanted: &mut Wanted,
    room: &mut [u8],
) -> Result<(), WorkStop>
    requires over { IsPlannedOver volume.now (P.place parts.now) (B.files bench.old) }
    requires there { P.place parts.now kept.own.at ≡ Some kept.own.sector }
    requires whole { length kept.block.now ≡ volume.now.size }
    requires opened { IsOpened kept.own.header kept.block.now }
    requires header { entry_header kept.own.at.block kept.block.now ≡ Some kept.own.header }
    requires room { length room.old ≡ volume.now.size }
    requires writable { AreWritable volume.now wanted.old }
    ensures put { B.tells → let v = listed volume.now (B.held bench.old) (P.place parts.now) in (e : Stated) → entry_of kept.entry.own.at.block kept.entry.block.now ≡ Some e
        → kept.entry.block.now ≡ v.disk kept.entry.own.sector
        → length (left_of e.kind kept.entry.own.at e.body bytes (option_map (λ c. c.now) content.entry)) ≤ descriptor_bytes kept.entry.own.header kept.entry.block.now
        → OnOk result (PutsOf v wanted.old wanted.new
        (listed_left v kept.entry.own.at e (wanted_of kept.entry.values.now e.body) (length list.now.extents) bytes (option_map (λ c. c.now) content.entry)
        ++ content_left v list.now.runs (option_map (λ c. c.now) content.entry))) }
    ensures writable { OnOk result (AreWritable volume.now wanted.new) }
    ensures room { length room.new ≡ length room.old }
    ensures reads { OnlyReads B.files B.held B.faults bench.old bench.new WorkStop.Fault result }
{
    put_listed(
        alloc,
        bench,
        volume,
        parts,
        kept,
        bytes,
        content,
        list.extents(),
        wanted,
        room,
    )?;
    match content {
        Some(content) => put_content(alloc, bench, volume, parts, list, content, wanted, room),
        None => Ok(()),
    }
}
