// The found entries of a volume, with how each stands.
ghost use Rattle.std.specs.Prelude.{◌≡◌, ◌<◌, ◌/◌, ◌&&◌, ℕ, true, IfErr, IfOk, Some, slice_get};
ghost use Rattle.udf_field.specs.declared.address.Addr.{Addr};
ghost use Rattle.udf_model.specs.Size.{is_size};
ghost use Rattle.udf_outside.specs.Files.{IsAttached};
ghost use Rattle.udf_outside.specs.Stops.{bytes_of};
ghost use Rattle.udf_outside.specs.Reads.{OnlyReads};
ghost use Rattle.udf_outside.specs.declared.bench.Role.TheVariants.{Image};
ghost use Rattle.udf_file_model.specs.Listing.{Volume, volume_of};
ghost use Rattle.udf_tree_model.specs.Frame.{Frame, setting_of, tree_of};
ghost use Rattle.udf_tree_model.specs.Stated.{IsFileSetPlaced};
ghost use Rattle.udf_tree_model.specs.Refused.{has_root, refusal};
ghost use Rattle.udf_found.specs.Beyond.{HoldsFileSet, IsAnswer};
ghost use Rattle.udf_kept.specs.Entries.{AreEntries, HasFileSet, HasOutline, RefusesFiles, is_directory_shape, is_sound_by, missing_of};
ghost use Rattle.udf_held.specs.Held.{AreHeldOf};
ghost use Rattle.udf_found.specs.Seen.{AreRead, spots};
ghost use Rattle.udf_found.specs.Spot.{IsFoundList};
ghost use Rattle.udf_held.specs.Standing.{AreStanding};

use crate::fitted::Selected;
use crate::keep::keep;
use crate::keeping::Keeping;
use crate::ordinary::ordinary;
use crate::select::select;
use std::alloc::Global;
use udf_field::Addr;
use udf_found::{Arena, Found, Starts, find_entries};
use udf_held::{Held, Standing, claims_of, hold_all, standings_of};
use udf_layer::{LayerStop, Missing, Parts};
use udf_outside::Bench;
use udf_volume::{FileSet, Stretch};

// Whether a found entry is a directory that stands as sound.
fn is_sound_directory(node: &Found, standing: Option<Standing>) -> bool
    ensures { result ≡ (is_directory_shape node.now.shape && is_sound_by standing) }
{
    let Some(shape) = &node.shape else {
        return false;
    };
    match standing {
        Some(standing) => shape.directory && standing.sound,
        None => false,
    }
}

// The standing at an index, where there is one.
fn standing_at(standings: &[Standing], i: usize) -> Option<Standing>
    ensures { result ≡ slice_get standings.now i }
{
    if i < standings.len() {
        Some(standings[i])
    } else {
        None
    }
}

// Whether the root is a sound directory, by how each found entry stands.
fn root_stands(root: Addr, arena: &Arena, standings: &[Standing]) -> bool
    ensures { (f : Frame) (v : Volume) → f.root ≡ root → HoldsFileSet f v → AreRead f v arena.now
        → IsFoundList (setting_of f v) (tree_of f v) (spots arena.now) → AreStanding (setting_of f v) (tree_of f v) arena.now standings.now
        → result ≡ has_root f v }
{
    for i in 0..arena.len() {
        let node = arena.node(i);
        if root == node.at {
            return is_sound_directory(node, standing_at(standings, i));
        }
    }
    false
}

// The found entries of a volume with blocks of `size` bytes, and how each stands, in the same order. `after` is the address after
// the extent of the file set, and `fixed` the addresses that no entry may take. An error is the first refusal for what the
// entries are or because the root is no sound directory, a fault of the bench, or want of memory. Each block of an entry and each
// allocation extent is read once, and the contents of directories alone.
fn standing_entries<B: Bench, P: Parts>(
    alloc: Global,
    bench: &mut B,
    parts: &P,
    size: u32,
    starts: Starts,
    after: Addr,
    fixed: &[Stretch],
) -> Result<(Arena, Vec<Standing>), LayerStop>
    requires attached { IsAttached Image (B.files bench.old) }
    requires size { is_size size ≡ true }
    requires placed { (a : Addr) (s : ℕ) → P.place parts.now a ≡ Some s → s < (B.files bench.old).image.size / size }
    ensures found { B.tells → (f : Frame) → HasOutline f starts after fixed.now → IfOk result (λ t. IsFoundList
        (setting_of f (volume_of size (bytes_of Image (B.held bench.old)) (P.place parts.now)))
        (tree_of f (volume_of size (bytes_of Image (B.held bench.old)) (P.place parts.now))) (spots t.0)) }
    ensures read { B.tells → (f : Frame) → HasOutline f starts after fixed.now → IfOk result (λ t. AreRead f (volume_of size (bytes_of Image (B.held bench.old)) (P.place parts.now)) t.0) }
    ensures standings { B.tells → (f : Frame) → HasOutline f starts after fixed.now → IfOk result (λ t. AreStanding
        (setting_of f (volume_of size (bytes_of Image (B.held bench.old)) (P.place parts.now)))
        (tree_of f (volume_of size (bytes_of Image (B.held bench.old)) (P.place parts.now))) t.0 t.1.items) }
    ensures refusal { B.tells → (f : Frame) → HasOutline f starts after fixed.now
        → HoldsFileSet f (volume_of size (bytes_of Image (B.held bench.old)) (P.place parts.now))
        → IsAnswer (missing_of (refusal f (volume_of size (bytes_of Image (B.held bench.old)) (P.place parts.now)))) result }
    ensures named { IfErr result RefusesFiles }
    ensures reads { OnlyReads B.files B.held B.faults bench.old bench.new LayerStop.Fault result }
{
    let arena = find_entries(alloc, bench, parts, size, starts)?;
    let claims = claims_of(alloc, parts, size, starts.root, fixed, &arena)?;
    let standings = standings_of(alloc, parts, size, after, &claims, &arena)?;
    if root_stands(starts.root, &arena, &standings) {
        Ok((arena, standings))
    } else {
        Err(LayerStop::Missing(Missing::RootDirectory))
    }
}

// What the found entries of a volume with blocks of `size` bytes keep, in the same order.
fn held_entries<B: Bench, P: Parts>(
    alloc: Global,
    bench: &mut B,
    parts: &P,
    size: u32,
    starts: Starts,
    after: Addr,
    fixed: &[Stretch],
) -> Result<Vec<Held>, LayerStop>
    requires attached { IsAttached Image (B.files bench.old) }
    requires size { is_size size ≡ true }
    requires placed { (a : Addr) (s : ℕ) → P.place parts.now a ≡ Some s → s < (B.files bench.old).image.size / size }
    ensures held { B.tells → (f : Frame) → HasOutline f starts after fixed.now → IfOk result (λ held. AreHeldOf f (volume_of size (bytes_of Image (B.held bench.old)) (P.place parts.now)) held.items) }
    ensures refusal { B.tells → (f : Frame) → HasOutline f starts after fixed.now → HoldsFileSet f (volume_of size (bytes_of Image (B.held bench.old)) (P.place parts.now)) → IsAnswer (missing_of (refusal f (volume_of size (bytes_of Image (B.held bench.old)) (P.place parts.now)))) result }
    ensures named { IfErr result RefusesFiles }
    ensures reads { OnlyReads B.files B.held B.faults bench.old bench.new LayerStop.Fault result }
{
    let (arena, standings) = standing_entries(alloc, bench, parts, size, starts, after, fixed)?;
    let held = hold_all(alloc, bench, parts, size, starts.root, arena, &standings)?;
    Ok(held)
}

/// What of a volume's files is found and kept, in the order of the found entries: by levels from the root.
#[derive(Drop)]
pub struct Entries {
    pub held: Vec<Held>,
    /// The chosen link to each, and its fitted links.
    pub selected: Vec<Selected>,
    /// How each is kept, or that it is not.
    pub kept: Vec<Option<Keeping>>,
    /// Whether each is ordinary: reached from the root by fitted FIDs alone.
    pub ordinary: Vec<bool>,
}

/// What of the files of a volume with blocks of `size` bytes is found and kept. An error is the first refusal for what the found
/// entries are or because the root is no sound directory, a fault of the bench, or want of memory. Each block of an entry, each
/// allocation extent and each directory's content is read once, and a directory's once more where some of its content is lost.
pub fn survey_entries<B: Bench, P: Parts>(
    alloc: Global,
    bench: &mut B,
    parts: &P,
    size: u32,
    files: &FileSet,
) -> Result<Entries, LayerStop>
    requires attached { IsAttached Image (B.files bench.old) }
    requires size { is_size size ≡ true }
    requires placed { (a : Addr) (s : ℕ) → P.place parts.now a ≡ Some s → s < (B.files bench.old).image.size / size }
    ensures entries { B.tells → (f : Frame) → HasFileSet f files.now → HoldsFileSet f (volume_of size (bytes_of Image (B.held bench.old)) (P.place parts.now)) → IsFileSetPlaced f (volume_of size (bytes_of Image (B.held bench.old)) (P.place parts.now)) → IfOk result (AreEntries f (volume_of size (bytes_of Image (B.held bench.old)) (P.place parts.now))) }
    ensures refusal { B.tells → (f : Frame) → HasFileSet f files.now → HoldsFileSet f (volume_of size (bytes_of Image (B.held bench.old)) (P.place parts.now)) → IsAnswer (missing_of (refusal f (volume_of size (bytes_of Image (B.held bench.old)) (P.place parts.now)))) result }
    ensures named { IfErr result RefusesFiles }
    ensures reads { OnlyReads B.files B.held B.faults bench.old bench.new LayerStop.Fault result }
{
    let starts = Starts {
        file_set: files.at,
        root: files.root,
        system: files.system,
    };
    let held = held_entries(
        alloc,
        bench,
        parts,
        size,
        starts,
        files.fixed.after(),
        files.fixed.stretches(),
    )?;
    let selected = select(alloc, &held)?;
    let kept = keep(alloc, &held, &selected)?;
    let ordinary = ordinary(alloc, files.root, &held, &selected)?;
    Ok(Entries {
        held,
        selected,
        kept,
        ordinary,
    })
}
