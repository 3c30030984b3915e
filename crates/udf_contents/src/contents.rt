// What the mend makes of the contents of kept directories.
ghost use Rattle.std.specs.Prelude.{◌≡◌, ◌<◌, ◌/◌, ℕ, true, IfOk, List, Option, length, map, slice_get, Some};
ghost use Rattle.udf_field.specs.declared.address.Addr.{Addr};
ghost use Rattle.udf_model.specs.Size.{is_size};
ghost use Rattle.udf_outside.specs.Files.{IsAttached};
ghost use Rattle.udf_outside.specs.Stops.{bytes_of};
ghost use Rattle.udf_outside.specs.Reads.{OnlyReads};
ghost use Rattle.udf_outside.specs.declared.bench.Role.TheVariants.{Image};
ghost use Rattle.udf_file_model.specs.Listing.{Volume, volume_of};
ghost use Rattle.udf_tree_model.specs.Chosen.{fitted as fitted_in};
ghost use Rattle.udf_tree_model.specs.Content.{first_block, mended_content};
ghost use Rattle.udf_tree_model.specs.Frame.{Frame, setting_of, tree_of};
ghost use Rattle.udf_tree_model.specs.Laws.{HasSoundStarts};
ghost use Rattle.udf_held.specs.declared.held.Held.{Held};
ghost use Rattle.udf_kept.specs.declared.keeping.Keeping.{Keeping};
ghost use Rattle.udf_contents.specs.Contents.{AreContents, IsContent};
ghost use Rattle.udf_kept.specs.Fitted.{AreSelected, step_of, step_seen};
ghost use Rattle.udf_held.specs.Held.{AreHeldOf, IsHeld, IsHeldOf};
ghost use Rattle.udf_kept.specs.Keeping.{AreKept};
ghost use Rattle.udf_contents.specs.Stays.{AreMends, IsMend, NeedsMend, Surveys, fitted_by, mend_by};

use crate::anew::content_anew;
use crate::stays::mends_of;
use std::alloc::Global;
use udf_entry::{ListStop, content_of, list_of};
use udf_field::Addr;
use udf_held::Held;
use udf_kept::{Fitted, Keeping, Selected};
use udf_layer::Parts;
use udf_outside::{Bench, read_block};

/// A content that is to be written anew.
#[derive(Debug, Drop)]
pub struct MendedContent {
    pub bytes: Vec<u8>,
}

// The block where the content of an entry with a list begins: its own block, where it is embedded.
fn content_location(list: &udf_entry::List, own: u32) -> u32
    ensures { result ≡ first_block own list.now.runs }
{
    if list.len() == 0 {
        own
    } else {
        list.run(0).at.block
    }
}

// The content that is written in place of a kept directory's under a parent, read again: nothing, where no block is at its
// address. `room` is lent and has the block size.
fn mended<B: Bench, P: Parts>(
    alloc: Global,
    bench: &mut B,
    parts: &P,
    size: u32,
    entry: &Held,
    fitted: &[Fitted],
    above: Addr,
    room: &mut [u8],
) -> Result<MendedContent, ListStop>
    requires attached { IsAttached Image (B.files bench.old) }
    requires size { is_size size ≡ true }
    requires placed { (a : Addr) (s : ℕ) → P.place parts.now a ≡ Some s → s < (B.files bench.old).image.size / size }
    requires room { length room.old ≡ size }
    ensures content { B.tells → (f : Frame) (v : Volume) (hs : List Held) → v ≡ volume_of size (bytes_of Image (B.held bench.old)) (P.place parts.now)
        → IsHeld (setting_of f v) (tree_of f v) entry.now → IsHeldOf f v entry.now → NeedsMend f v entry.now above
        → map (step_seen hs) fitted.now ≡ map step_of (fitted_in (setting_of f v) (tree_of f v) entry.now.at)
        → IfOk result (λ new. new.bytes.items ≡ mended_content f v entry.now.at) }
    ensures room { length room.new ≡ length room.old }
    ensures reads { OnlyReads B.files B.held B.faults bench.old bench.new ListStop.Fault result }
{
    let Some(sector) = parts.locate(entry.at) else {
        return Ok(MendedContent {
            bytes: Vec::new(alloc),
        });
    };
    read_block(bench, size, sector, room)?;
    let list = list_of(alloc, bench, parts, entry.at, room)?;
    let content = content_of(alloc, bench, parts, room, &list, entry.kept)?;
    let location = content_location(&list, entry.at.block);
    let bytes = content_anew(alloc, &content, size, room, location, above, fitted)?;
    Ok(MendedContent { bytes })
}

/// The fitted links of the entry at an index.
pub fn fitted_at(selected: &[Selected], i: usize) -> &[Fitted]
    ensures { result.now ≡ fitted_by (slice_get selected.now i) }
{
    if i < selected.len() {
        &selected[i].fitted
    } else {
        &[]
    }
}

// The parent under which the entry at an index needs a content anew.
fn above_at(mends: &[Option<Addr>], i: usize) -> Option<Addr>
    ensures { result ≡ mend_by (slice_get mends.now i) }
{
    if i < mends.len() { mends[i] } else { None }
}

// The content of an entry that is written anew, where it needs one. `room` is lent and has the block size.
fn content_for<B: Bench, P: Parts>(
    alloc: Global,
    bench: &mut B,
    parts: &P,
    size: u32,
    entry: &Held,
    fitted: &[Fitted],
    mend: Option<Addr>,
    room: &mut [u8],
) -> Result<Option<MendedContent>, ListStop>
    requires attached { IsAttached Image (B.files bench.old) }
    requires size { is_size size ≡ true }
    requires placed { (a : Addr) (s : ℕ) → P.place parts.now a ≡ Some s → s < (B.files bench.old).image.size / size }
    requires room { length room.old ≡ size }
    ensures content { B.tells → (f : Frame) (v : Volume) (hs : List Held) (k : Option Keeping) → v ≡ volume_of size (bytes_of Image (B.held bench.old)) (P.place parts.now)
        → IsHeld (setting_of f v) (tree_of f v) entry.now → IsHeldOf f v entry.now → HasSoundStarts (setting_of f v) (tree_of f v) → IsMend f v entry.now k mend
        → (entry.now.sound ≡ true → map (step_seen hs) fitted.now ≡ map step_of (fitted_in (setting_of f v) (tree_of f v) entry.now.at))
        → IfOk result (IsContent f v entry.now k) }
    ensures room { length room.new ≡ length room.old }
    ensures reads { OnlyReads B.files B.held B.faults bench.old bench.new ListStop.Fault result }
{
    let Some(above) = mend else {
        return Ok(None);
    };
    let content = mended(alloc, bench, parts, size, entry, fitted, above, room)?;
    Ok(Some(content))
}

// The contents of entries that are written anew.
fn contents_for<B: Bench, P: Parts>(
    alloc: Global,
    bench: &mut B,
    parts: &P,
    size: u32,
    held: &[Held],
    selected: &[Selected],
    mends: &[Option<Addr>],
) -> Result<Vec<Option<MendedContent>>, ListStop>
    requires attached { IsAttached Image (B.files bench.old) }
    requires size { is_size size ≡ true }
    requires placed { (a : Addr) (s : ℕ) → P.place parts.now a ≡ Some s → s < (B.files bench.old).image.size / size }
    ensures contents { B.tells → (f : Frame) (v : Volume) (root file_set : Addr) (ks : List (Option Keeping))
        → v ≡ volume_of size (bytes_of Image (B.held bench.old)) (P.place parts.now) → Surveys f v root file_set held.now selected.now ks → AreMends f v held.now ks mends.now
        → IfOk result (λ cs. AreContents f v held.now ks cs.items) }
    ensures reads { OnlyReads B.files B.held B.faults bench.old bench.new ListStop.Fault result }
{
    let mut room = vec![in alloc; 0; size as usize]?;
    let mut contents = Vec::new(alloc);
    for (i, entry) in held.iter().enumerate() {
        let fitted = fitted_at(selected, i);
        let mend = above_at(mends, i);
        let content = content_for(alloc, bench, parts, size, entry, fitted, mend, &mut room)?;
        contents.push(content)?;
    }
    Ok(contents)
}

/// What is to be written in place of the contents of kept directories, in the order of the found entries; None where the content
/// stays. `root` is the root, and `file_set` the address of the file set. The contents that do not stay are read again. Takes
/// n log n in the entries and their links.
pub fn mended_contents<B: Bench, P: Parts>(
    alloc: Global,
    bench: &mut B,
    parts: &P,
    size: u32,
    root: Addr,
    file_set: Addr,
    held: &[Held],
    selected: &[Selected],
    kept: &[Option<Keeping>],
) -> Result<Vec<Option<MendedContent>>, ListStop>
    requires attached { IsAttached Image (B.files bench.old) }
    requires size { is_size size ≡ true }
    requires placed { (a : Addr) (s : ℕ) → P.place parts.now a ≡ Some s → s < (B.files bench.old).image.size / size }
    ensures contents { B.tells → (f : Frame) → f.root ≡ root → f.file_set ≡ file_set
        → (v : Volume) → v ≡ volume_of size (bytes_of Image (B.held bench.old)) (P.place parts.now)
        → HasSoundStarts (setting_of f v) (tree_of f v) → AreHeldOf f v held.now
        → AreSelected (setting_of f v) (tree_of f v) held.now selected.now → AreKept (setting_of f v) (tree_of f v) held.now kept.now
        → IfOk result (λ cs. AreContents f v held.now kept.now cs.items) }
    ensures reads { OnlyReads B.files B.held B.faults bench.old bench.new ListStop.Fault result }
{
    let mends = mends_of(alloc, held, selected, kept, root, file_set)?;
    contents_for(alloc, bench, parts, size, held, selected, &mends)
}
