// What is found: the starts, and what the links of found entries lead to, by levels.
ghost use Rattle.std.specs.Prelude.{◌≡◌, ◌<◌, ◌≤◌, ◌+◌, ◌/◌, ◌++◌, ◌∷◌, [], ℕ, List, true, false, OnOk, IfErr, IfOk, Some, length, take};
ghost use Rattle.udf_field.specs.declared.address.Addr.{Addr};
ghost use Rattle.udf_model.specs.Size.{is_size};
ghost use Rattle.udf_outside.specs.Files.{IsAttached};
ghost use Rattle.udf_outside.specs.Stops.{bytes_of};
ghost use Rattle.udf_outside.specs.Reads.{OnlyReads};
ghost use Rattle.udf_outside.specs.declared.bench.Role.TheVariants.{Image};
ghost use Rattle.udf_file_model.specs.Listing.{volume_of};
ghost use Rattle.udf_tree_model.specs.Frame.{Frame, places, setting_of, tree_of};
ghost use Rattle.udf_tree_model.specs.Refused.{is_indirect, refusal};
ghost use Rattle.udf_found.specs.Begin.{HasStarts};
ghost use Rattle.udf_found.specs.Beyond.{HoldsFileSet, IsAnswer, IsBeyond, RefusesEntries, of_entries};
ghost use Rattle.udf_found.specs.Order.{is_known};
ghost use Rattle.udf_found.specs.Spot.{IsFoundList, addresses};
ghost use Rattle.udf_found.specs.Visit.{Adds, IsPlaced};
ghost use Rattle.udf_found.specs.Seen.{AreRead, HasHolder, IsAt, spots};

use crate::arena::{Arena, Found};
use crate::beyond::Beyond;
use crate::links::ends;
use crate::reading::{Sought, read_sought};
use crate::starts::{Starts, holder};
use std::alloc::Global;
use udf_entry::ListStop;
use udf_field::Addr;
use udf_layer::{LayerStop, Missing, Parts};
use udf_outside::Bench;

// Puts the entry at an address at the end of the arena, where it is readable and new, and tells what was seen with that before it.
// `room` is lent and has the block size.
#[tactic(auto, using(crate::proofs::Adding::stands, crate::proofs::Adding::unread, crate::proofs::Adding::added, crate::proofs::Seeing::seen_plain, crate::proofs::Seeing::seen_indirect, crate::proofs::Seeing::seen_entry))]
fn add<B: Bench, P: Parts>(
    alloc: Global,
    bench: &mut B,
    parts: &P,
    size: u32,
    arena: &mut Arena,
    at: Addr,
    level: u64,
    beyond: Beyond,
    room: &mut [u8],
) -> Result<Beyond, ListStop>
    requires attached { IsAttached Image (B.files bench.old) }
    requires size { is_size size ≡ true }
    requires placed { (a : Addr) (s : ℕ) → P.place parts.now a ≡ Some s → s < (B.files bench.old).image.size / size }
    requires room { length room.old ≡ size }
    ensures adds { (f : Frame) → OnOk result (Adds (B.tells × HasHolder f (volume_of size (bytes_of Image (B.held bench.old)) (P.place parts.now)) arena.old)
        (tree_of f (volume_of size (bytes_of Image (B.held bench.old)) (P.place parts.now)))
        (places (volume_of size (bytes_of Image (B.held bench.old)) (P.place parts.now))) at level (spots arena.old) (spots arena.new)) }
    ensures read { B.tells → (f : Frame) → HasHolder f (volume_of size (bytes_of Image (B.held bench.old)) (P.place parts.now)) arena.old
        → AreRead f (volume_of size (bytes_of Image (B.held bench.old)) (P.place parts.now)) arena.old
        → OnOk result (AreRead f (volume_of size (bytes_of Image (B.held bench.old)) (P.place parts.now)) arena.new) }
    ensures seen { B.tells → (f : Frame) → (is_known at arena.old ≡ true → is_indirect (volume_of size (bytes_of Image (B.held bench.old)) (P.place parts.now)) at ≡ false)
        → (done targets : List Addr) → IsBeyond f (volume_of size (bytes_of Image (B.held bench.old)) (P.place parts.now)) done targets (spots arena.old) beyond
        → IfOk result (IsBeyond f (volume_of size (bytes_of Image (B.held bench.old)) (P.place parts.now)) done (targets ++ at ∷ []) (spots arena.new)) }
    ensures room { length room.new ≡ length room.old }
    ensures reads { OnlyReads B.files B.held B.faults bench.old bench.new ListStop.Fault result }
{
    if arena.knows(at) {
        return Ok(beyond);
    }
    match read_sought(alloc, bench, parts, size, at, room)? {
        Sought::Nothing => Ok(beyond),
        Sought::Indirect => Ok(beyond.with(Beyond::indirect())),
        Sought::Entry(links, shape, own) => {
            arena.push(Found {
                at,
                level,
                links,
                shape: Some(shape),
            })?;
            Ok(beyond.with(own))
        }
    }
}

// Adds what the links of the entry at an index lead to, and tells what was seen with that before it. `room` is lent and has the
// block size.
fn add_targets<B: Bench, P: Parts>(
    alloc: Global,
    bench: &mut B,
    parts: &P,
    size: u32,
    arena: &mut Arena,
    next: usize,
    beyond: Beyond,
    room: &mut [u8],
) -> Result<Beyond, ListStop>
    requires attached { IsAttached Image (B.files bench.old) }
    requires size { is_size size ≡ true }
    requires placed { (a : Addr) (s : ℕ) → P.place parts.now a ≡ Some s → s < (B.files bench.old).image.size / size }
    requires room { length room.old ≡ size }
    requires inside { next < length arena.old }
    requires levels { IsPlaced (places (volume_of size (bytes_of Image (B.held bench.old)) (P.place parts.now))) (spots arena.old) }
    ensures levels { OnOk result (IsPlaced (places (volume_of size (bytes_of Image (B.held bench.old)) (P.place parts.now))) (spots arena.new)) }
    ensures grows { OnOk result (length arena.old ≤ length arena.new) }
    ensures visits { B.tells → (f : Frame) → IsAt f (volume_of size (bytes_of Image (B.held bench.old)) (P.place parts.now)) next arena.old
        → OnOk result (IsAt f (volume_of size (bytes_of Image (B.held bench.old)) (P.place parts.now)) (next + 1) arena.new) }
    ensures seen { B.tells → (f : Frame) → HoldsFileSet f (volume_of size (bytes_of Image (B.held bench.old)) (P.place parts.now)) → IsAt f (volume_of size (bytes_of Image (B.held bench.old)) (P.place parts.now)) next arena.old
        → IsBeyond f (volume_of size (bytes_of Image (B.held bench.old)) (P.place parts.now)) (addresses (take next (spots arena.old))) [] (spots arena.old) beyond
        → IfOk result (IsBeyond f (volume_of size (bytes_of Image (B.held bench.old)) (P.place parts.now)) (addresses (take (next + 1) (spots arena.new))) [] (spots arena.new)) }
    ensures room { length room.new ≡ length room.old }
    ensures reads { OnlyReads B.files B.held B.faults bench.old bench.new ListStop.Fault result }
{
    let node = arena.node(next);
    let level = node.level;
    let targets = ends(alloc, &node.links)?;
    let mut seen = beyond;
    for target in &targets {
        seen = add(
            alloc,
            bench,
            parts,
            size,
            arena,
            *target,
            level + 1,
            seen,
            room,
        )?;
    }
    Ok(seen)
}

// The found entries, and what was seen of them.
fn search<B: Bench, P: Parts>(
    alloc: Global,
    bench: &mut B,
    parts: &P,
    size: u32,
    starts: Starts,
) -> Result<(Arena, Beyond), ListStop>
    requires attached { IsAttached Image (B.files bench.old) }
    requires size { is_size size ≡ true }
    requires placed { (a : Addr) (s : ℕ) → P.place parts.now a ≡ Some s → s < (B.files bench.old).image.size / size }
    ensures found { B.tells → (f : Frame) → HasStarts f starts → IfOk result (λ t. IsFoundList
        (setting_of f (volume_of size (bytes_of Image (B.held bench.old)) (P.place parts.now)))
        (tree_of f (volume_of size (bytes_of Image (B.held bench.old)) (P.place parts.now))) (spots t.0)) }
    ensures read { B.tells → (f : Frame) → HasStarts f starts → IfOk result (λ t. AreRead
        f (volume_of size (bytes_of Image (B.held bench.old)) (P.place parts.now)) t.0) }
    ensures seen { B.tells → (f : Frame) → HasStarts f starts → HoldsFileSet f (volume_of size (bytes_of Image (B.held bench.old)) (P.place parts.now))
        → IfOk result (λ t. IsBeyond f (volume_of size (bytes_of Image (B.held bench.old)) (P.place parts.now)) (addresses (spots t.0)) [] (spots t.0) t.1) }
    ensures reads { OnlyReads B.files B.held B.faults bench.old bench.new ListStop.Fault result }
{
    let mut room = vec![in alloc; 0; size as usize]?;
    let mut arena = holder(alloc, parts, starts.file_set, starts.system)?;
    let start = Beyond::none();
    let first = add(
        alloc,
        bench,
        parts,
        size,
        &mut arena,
        starts.root,
        0,
        start,
        &mut room,
    )?;
    let mut seen = first.without_links();
    let mut next = 0;
    while next < arena.len() {
        seen = add_targets(alloc, bench, parts, size, &mut arena, next, seen, &mut room)?;
        next += 1;
    }
    Ok((arena, seen))
}

/// The found entries of a volume with blocks of `size` bytes, each once and with its level, in the order of levels: the root, the
/// holder of the pointer to the system stream directory, and the readable targets of links of what is found. The block of each is
/// read once, and the contents of directories alone. An error is the first refusal for what these entries or the targets of their
/// links are, a fault of the bench, or want of memory.
pub fn find_entries<B: Bench, P: Parts>(
    alloc: Global,
    bench: &mut B,
    parts: &P,
    size: u32,
    starts: Starts,
) -> Result<Arena, LayerStop>
    requires attached { IsAttached Image (B.files bench.old) }
    requires size { is_size size ≡ true }
    requires placed { (a : Addr) (s : ℕ) → P.place parts.now a ≡ Some s → s < (B.files bench.old).image.size / size }
    ensures found { B.tells → (f : Frame) → HasStarts f starts → IfOk result (λ arena. IsFoundList
        (setting_of f (volume_of size (bytes_of Image (B.held bench.old)) (P.place parts.now)))
        (tree_of f (volume_of size (bytes_of Image (B.held bench.old)) (P.place parts.now))) (spots arena)) }
    ensures read { B.tells → (f : Frame) → HasStarts f starts → IfOk result (λ arena. AreRead
        f (volume_of size (bytes_of Image (B.held bench.old)) (P.place parts.now)) arena) }
    ensures refusal { B.tells → (f : Frame) → HasStarts f starts → HoldsFileSet f (volume_of size (bytes_of Image (B.held bench.old)) (P.place parts.now))
        → IsAnswer (of_entries (refusal f (volume_of size (bytes_of Image (B.held bench.old)) (P.place parts.now)))) result }
    ensures named { IfErr result RefusesEntries }
    ensures reads { OnlyReads B.files B.held B.faults bench.old bench.new LayerStop.Fault result }
{
    let (arena, seen) = search(alloc, bench, parts, size, starts)?;
    match seen.item() {
        Some(item) => Err(LayerStop::Missing(Missing::Profile(item))),
        None => Ok(arena),
    }
}
