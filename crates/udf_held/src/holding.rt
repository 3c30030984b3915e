// What found entries keep.
ghost use Rattle.std.specs.Prelude.{◌≡◌, ◌<◌, ◌≤◌, ◌/◌, ◌&&◌, nat_lt, ℕ, true, false, IfOk, None, Some, length};
ghost use Rattle.udf_field.specs.declared.address.Addr.{Addr};
ghost use Rattle.udf_model.specs.Size.{is_size};
ghost use Rattle.udf_outside.specs.Files.{IsAttached};
ghost use Rattle.udf_outside.specs.Stops.{bytes_of};
ghost use Rattle.udf_outside.specs.Reads.{OnlyReads};
ghost use Rattle.udf_outside.specs.declared.bench.Role.TheVariants.{Image};
ghost use Rattle.udf_file_model.specs.Entry.{Entry};
ghost use Rattle.udf_file_model.specs.Listing.{Volume, good_length, list_for, volume_of};
ghost use Rattle.udf_tree_model.specs.Frame.{Frame, content_to, entry_at, is_holder, links_of, setting_of, tree_of};
ghost use Rattle.udf_tree_model.specs.Found.{whole_links};
ghost use Rattle.udf_found.specs.Begin.{HasStarts};
ghost use Rattle.udf_held.specs.Held.{AreHeldOf, HoldsAt, IsEntry, TellsContent};
ghost use Rattle.udf_found.specs.Linked.{AreLinks};
ghost use Rattle.udf_found.specs.Seen.{AreRead, spots};
ghost use Rattle.udf_found.specs.Shape.{IsShape, IsShaped};
ghost use Rattle.udf_found.specs.Spot.{IsFoundList};
ghost use Rattle.udf_held.specs.Standing.{AreStanding, IsStanding};
ghost use Rattle.udf_found.specs.Target.{linking};

use crate::held::Held;
use crate::space::capacity;
use crate::standing::Standing;
use std::alloc::{AllocError, Global};
use udf_entry::ListStop;
use udf_field::{Addr, Long};
use udf_found::{
    Arena, Found, Link, ParentFids, Shape, Starts, directory_content, links_of, parent_fids,
};
use udf_layer::Parts;
use udf_outside::Bench;

// What a content tells: the links of its entry, and its parent FIDs.
#[derive(Debug, Drop)]
struct Told {
    pub links: Vec<Link>,
    pub parents: ParentFids,
}

// What a content at blocks of `size` bytes tells, where this is the pointer of its entry to a stream directory.
fn told_by(
    alloc: Global,
    stream: Option<Long>,
    content: &[u8],
    size: u32,
) -> Result<Told, AllocError>
    ensures { (e : Entry) → stream ≡ e.stream → IfOk result (λ told. TellsContent size e content.now told.links.items told.parents) }
{
    Ok(Told {
        links: links_of(alloc, stream, content, size)?,
        parents: parent_fids(content, size),
    })
}

// Whether some of a directory's content is lost, where so many bytes of its list are kept.
fn is_cut(shape: &Shape, kept: u64) -> bool
    ensures { result ≡ (shape.now.directory && nat_lt kept shape.now.content) }
{
    shape.directory && kept < shape.content
}

// What the kept content of a sound entry tells, where its whole content told this. It is read anew where some of it is lost.
// `room` is lent and has the block size.
fn kept_told<B: Bench, P: Parts>(
    alloc: Global,
    bench: &mut B,
    parts: &P,
    size: u32,
    at: Addr,
    shape: &Shape,
    links: Vec<Link>,
    kept: u64,
    room: &mut [u8],
) -> Result<Told, ListStop>
    requires attached { IsAttached Image (B.files bench.old) }
    requires size { is_size size ≡ true }
    requires placed { (a : Addr) (s : ℕ) → P.place parts.now a ≡ Some s → s < (B.files bench.old).image.size / size }
    requires room { length room.old ≡ size }
    ensures told { B.tells → (e : Entry) → entry_at (volume_of size (bytes_of Image (B.held bench.old)) (P.place parts.now)) at ≡ Some e → IsShape (volume_of size (bytes_of Image (B.held bench.old)) (P.place parts.now)) at e shape.now
        → AreLinks (links_of size e (linking (volume_of size (bytes_of Image (B.held bench.old)) (P.place parts.now)) at e)) links.items → kept ≤ good_length (volume_of size (bytes_of Image (B.held bench.old)) (P.place parts.now)) at e
        → IfOk result (λ told. TellsContent size e (content_to (volume_of size (bytes_of Image (B.held bench.old)) (P.place parts.now)) e (list_for (volume_of size (bytes_of Image (B.held bench.old)) (P.place parts.now)) at e) kept) told.links.items told.parents) }
    ensures room { length room.new ≡ length room.old }
    ensures reads { OnlyReads B.files B.held B.faults bench.old bench.new ListStop.Fault result }
{
    if is_cut(shape, kept) {
        let content = directory_content(alloc, bench, parts, size, at, kept, room)?;
        return Ok(told_by(alloc, shape.stream, &content, size)?);
    }
    Ok(Told {
        links,
        parents: shape.parents,
    })
}

// What is held of a found entry with a shape, that stands so. `room` is lent and has the block size.
fn hold_entry<B: Bench, P: Parts>(
    alloc: Global,
    bench: &mut B,
    parts: &P,
    size: u32,
    root: Addr,
    at: Addr,
    level: u64,
    links: Vec<Link>,
    shape: Shape,
    standing: Standing,
    room: &mut [u8],
) -> Result<Held, ListStop>
    requires attached { IsAttached Image (B.files bench.old) }
    requires size { is_size size ≡ true }
    requires placed { (a : Addr) (s : ℕ) → P.place parts.now a ≡ Some s → s < (B.files bench.old).image.size / size }
    requires room { length room.old ≡ size }
    ensures held { B.tells → (f : Frame) (e : Entry) → f.root ≡ root → IsEntry f (volume_of size (bytes_of Image (B.held bench.old)) (P.place parts.now)) at e shape links.items standing → IfOk result (HoldsAt f (volume_of size (bytes_of Image (B.held bench.old)) (P.place parts.now)) at level) }
    ensures room { length room.new ≡ length room.old }
    ensures reads { OnlyReads B.files B.held B.faults bench.old bench.new ListStop.Fault result }
{
    let told = kept_told(
        alloc,
        bench,
        parts,
        size,
        at,
        &shape,
        links,
        standing.kept,
        room,
    )?;
    let room_for_fids = capacity(size, &shape).min(standing.kept);
    Ok(Held {
        at,
        level,
        is_start: at == root,
        directory: shape.directory,
        sound: standing.sound,
        kept: standing.kept,
        whole: standing.whole,
        space: room_for_fids.saturating_sub(told.parents.bytes),
        links: told.links,
        parents: told.parents,
        shape: Some(shape),
    })
}

// What is held of the holder of the pointer to the system stream directory, which has no content.
fn hold_pointer(at: Addr, level: u64, links: Vec<Link>, standing: Standing) -> Held
    ensures { (f : Frame) (v : Volume) → is_holder f v at ≡ true → AreLinks (whole_links (tree_of f v) at) links.items
        → IsStanding (setting_of f v) (tree_of f v) at standing → HoldsAt f v at level result }
{
    Held {
        at,
        level,
        is_start: true,
        directory: true,
        sound: standing.sound,
        kept: standing.kept,
        whole: standing.whole,
        space: 0,
        links,
        parents: ParentFids {
            bytes: 0,
            only: None,
        },
        shape: None,
    }
}

// What is held of a found entry that stands so. `room` is lent and has the block size.
fn hold<B: Bench, P: Parts>(
    alloc: Global,
    bench: &mut B,
    parts: &P,
    size: u32,
    root: Addr,
    node: Found,
    standing: Standing,
    room: &mut [u8],
) -> Result<Held, ListStop>
    requires attached { IsAttached Image (B.files bench.old) }
    requires size { is_size size ≡ true }
    requires placed { (a : Addr) (s : ℕ) → P.place parts.now a ≡ Some s → s < (B.files bench.old).image.size / size }
    requires room { length room.old ≡ size }
    ensures held { B.tells → (f : Frame) → f.root ≡ root → IsShaped f (volume_of size (bytes_of Image (B.held bench.old)) (P.place parts.now)) node.at node.shape → AreLinks (whole_links (tree_of f (volume_of size (bytes_of Image (B.held bench.old)) (P.place parts.now))) node.at) node.links.items
        → IsStanding (setting_of f (volume_of size (bytes_of Image (B.held bench.old)) (P.place parts.now))) (tree_of f (volume_of size (bytes_of Image (B.held bench.old)) (P.place parts.now))) node.at standing → IfOk result (HoldsAt f (volume_of size (bytes_of Image (B.held bench.old)) (P.place parts.now)) node.at node.level) }
    ensures room { length room.new ≡ length room.old }
    ensures reads { OnlyReads B.files B.held B.faults bench.old bench.new ListStop.Fault result }
{
    let Found {
        at,
        level,
        links,
        shape,
    } = node;
    match shape {
        Some(shape) => hold_entry(
            alloc, bench, parts, size, root, at, level, links, shape, standing, room,
        ),
        None => Ok(hold_pointer(at, level, links, standing)),
    }
}

/// What the found entries of a volume with blocks of `size` bytes keep, in the order of the arena, where they stand so. A directory
/// is read anew where some of its content is lost.
pub fn hold_all<B: Bench, P: Parts>(
    alloc: Global,
    bench: &mut B,
    parts: &P,
    size: u32,
    root: Addr,
    arena: Arena,
    standings: &[Standing],
) -> Result<Vec<Held>, ListStop>
    requires attached { IsAttached Image (B.files bench.old) }
    requires size { is_size size ≡ true }
    requires placed { (a : Addr) (s : ℕ) → P.place parts.now a ≡ Some s → s < (B.files bench.old).image.size / size }
    ensures held { B.tells → (f : Frame) → f.root ≡ root → AreRead f (volume_of size (bytes_of Image (B.held bench.old)) (P.place parts.now)) arena → IsFoundList (setting_of f (volume_of size (bytes_of Image (B.held bench.old)) (P.place parts.now))) (tree_of f (volume_of size (bytes_of Image (B.held bench.old)) (P.place parts.now))) (spots arena)
        → AreStanding (setting_of f (volume_of size (bytes_of Image (B.held bench.old)) (P.place parts.now))) (tree_of f (volume_of size (bytes_of Image (B.held bench.old)) (P.place parts.now))) arena standings.now → IfOk result (λ held. AreHeldOf f (volume_of size (bytes_of Image (B.held bench.old)) (P.place parts.now)) held.items) }
    ensures reads { OnlyReads B.files B.held B.faults bench.old bench.new ListStop.Fault result }
{
    let mut room = vec![in alloc; 0; size as usize]?;
    let mut held = Vec::new(alloc);
    let mut left = standings;
    for node in arena.into_nodes() {
        let Some((standing, rest)) = left.split_first() else {
            return Ok(held);
        };
        held.push(hold(alloc, bench, parts, size, root, node, *standing, &mut room)?)?;
        left = rest;
    }
    Ok(held)
}
