// What stands at an address at which an entry is sought.
ghost use Rattle.std.specs.Prelude.{◌≡◌, ◌<◌, ◌/◌, ℕ, true, IfOk, IsSome, if◌then◌else◌, length};
ghost use Rattle.udf_field.specs.declared.address.Addr.{Addr};
ghost use Rattle.udf_model.specs.Size.{is_size};
ghost use Rattle.udf_outside.specs.Files.{IsAttached};
ghost use Rattle.udf_outside.specs.Stops.{bytes_of};
ghost use Rattle.udf_outside.specs.Reads.{OnlyReads};
ghost use Rattle.udf_outside.specs.declared.bench.Role.TheVariants.{Image};
ghost use Rattle.udf_model.specs.Tag.{id_at, is_id};
ghost use Rattle.udf_file_model.specs.Entry.{Entry, entry_of, is_directory};
ghost use Rattle.udf_file_model.specs.Listing.{list_for, listing_at, volume_of};
ghost use Rattle.udf_tree_model.specs.Frame.{content_to, entry_at};
ghost use Rattle.udf_found.specs.declared.reading.Sought.TheVariants.{Indirect, Nothing};
ghost use Rattle.udf_found.specs.Target.{linking};
ghost use Rattle.udf_found.specs.Read.{IsPlacedWhere, Reads};

use crate::beyond::Beyond;
use crate::link::Link;
use crate::links::links_of;
use crate::shape::{Shape, shape_of};
use std::alloc::Global;
use udf_entry::{List, ListStop, content_of, list_of, read_entry};
use udf_field::{Addr, id_at};
use udf_layer::Parts;
use udf_outside::{Bench, read_block};

// The identifier of an indirect entry's tag (ECMA-167 4/14.7).
const INDIRECT_ENTRY: u16 = 259;

/// What was read at an address: a readable entry, with its links, its shape and what this profile has not of it; an
/// indirect entry; or neither.
#[derive(Drop)]
pub(crate) enum Sought {
    Entry(Vec<Link>, Shape, Beyond),
    Indirect,
    Nothing,
}

// The content of an entry that is read for its links: of a directory up to the good length of its list.
fn linking_content<B: Bench, P: Parts>(
    alloc: Global,
    bench: &mut B,
    parts: &P,
    block: &[u8],
    list: &List,
    directory: bool,
) -> Result<Vec<u8>, ListStop>
    requires attached { IsAttached Image (B.files bench.old) }
    requires size { is_size (length block.now) ≡ true }
    requires placed { (a : Addr) (s : ℕ) → P.place parts.now a ≡ Some s → s < (B.files bench.old).image.size / length block.now }
    ensures content { B.tells → (a : Addr) (e : Entry) → entry_of a.block block.now ≡ Some e → is_directory e ≡ directory
        → list.now ≡ listing_at (volume_of (length block.now) (bytes_of Image (B.held bench.old)) (P.place parts.now)) a block.now
        → IfOk result (λ content. content.items
        ≡ linking (volume_of (length block.now) (bytes_of Image (B.held bench.old)) (P.place parts.now)) a e) }
    ensures reads { OnlyReads B.files B.held B.faults bench.old bench.new ListStop.Fault result }
{
    if !directory {
        return Ok(Vec::new(alloc));
    }
    content_of(alloc, bench, parts, block, list, list.good_length())
}

// What a block without a readable entry is.
fn other_in(block: &[u8], location: u32) -> Sought
    ensures { result ≡ (if is_id 259 (id_at location block.now) then Indirect else Nothing) }
{
    match id_at(block, location) {
        Some(INDIRECT_ENTRY) => Sought::Indirect,
        _ => Sought::Nothing,
    }
}

/// What stands at an address. `room` is lent and has the block size.
pub(crate) fn read_sought<B: Bench, P: Parts>(
    alloc: Global,
    bench: &mut B,
    parts: &P,
    size: u32,
    at: Addr,
    room: &mut [u8],
) -> Result<Sought, ListStop>
    requires attached { IsAttached Image (B.files bench.old) }
    requires size { is_size size ≡ true }
    requires placed { (a : Addr) (s : ℕ) → P.place parts.now a ≡ Some s → s < (B.files bench.old).image.size / size }
    requires room { length room.old ≡ size }
    ensures sought { B.tells → IfOk result (Reads (volume_of size (bytes_of Image (B.held bench.old)) (P.place parts.now)) at) }
    ensures placed { IfOk result (IsPlacedWhere (IsSome (P.place parts.now at))) }
    ensures room { length room.new ≡ length room.old }
    ensures reads { OnlyReads B.files B.held B.faults bench.old bench.new ListStop.Fault result }
{
    let Some(sector) = parts.locate(at) else {
        return Ok(Sought::Nothing);
    };
    read_block(bench, size, sector, room)?;
    let Some(entry) = read_entry(room, at.block) else {
        return Ok(other_in(room, at.block));
    };
    let directory = entry.is_directory();
    let list = list_of(alloc, bench, parts, at, room)?;
    let content = linking_content(alloc, bench, parts, room, &list, directory)?;
    let shape = shape_of(alloc, size, at, room, &entry, &list, &content)?;
    let links = links_of(alloc, entry.stream(), &content, size)?;
    Ok(Sought::Entry(links, shape, Beyond::of(&entry)))
}

/// The content of the readable directory at an address up to so many bytes, read anew; nothing where none stands there. `room` is
/// lent and has the block size.
pub fn directory_content<B: Bench, P: Parts>(
    alloc: Global,
    bench: &mut B,
    parts: &P,
    size: u32,
    at: Addr,
    limit: u64,
    room: &mut [u8],
) -> Result<Vec<u8>, ListStop>
    requires attached { IsAttached Image (B.files bench.old) }
    requires size { is_size size ≡ true }
    requires placed { (a : Addr) (s : ℕ) → P.place parts.now a ≡ Some s → s < (B.files bench.old).image.size / size }
    requires room { length room.old ≡ size }
    ensures content { B.tells → (e : Entry) → entry_at (volume_of size (bytes_of Image (B.held bench.old)) (P.place parts.now)) at ≡ Some e → is_directory e ≡ true
        → IfOk result (λ content. content.items ≡ content_to (volume_of size (bytes_of Image (B.held bench.old)) (P.place parts.now)) e
        (list_for (volume_of size (bytes_of Image (B.held bench.old)) (P.place parts.now)) at e) limit) }
    ensures room { length room.new ≡ length room.old }
    ensures reads { OnlyReads B.files B.held B.faults bench.old bench.new ListStop.Fault result }
{
    let Some(sector) = parts.locate(at) else {
        return Ok(Vec::new(alloc));
    };
    read_block(bench, size, sector, room)?;
    let list = list_of(alloc, bench, parts, at, room)?;
    content_of(alloc, bench, parts, room, &list, limit)
}
