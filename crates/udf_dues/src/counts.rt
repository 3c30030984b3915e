// How many links each found entry may state.
ghost use Rattle.std.specs.Prelude.{◌≡◌, ◌+◌, ◌++◌, ◌∷◌, [], ℕ, List, IfOk, length, map, min, slice_get, true};
ghost use Rattle.std.specs.List.{flat_map};
ghost use Rattle.std.specs.BTreeMap.{get};
ghost use Rattle.udf_model.specs.Size.{is_size};
ghost use Rattle.udf_file_model.specs.Listing.{Volume};
ghost use Rattle.udf_tree_model.specs.Frame.{Frame, setting_of, tree_of};
ghost use Rattle.udf_tree_model.specs.Laws.{HasSoundStarts};
ghost use Rattle.udf_found.specs.Beyond.{HoldsFileSet};
ghost use Rattle.udf_contents.specs.Contents.{AreContents};
ghost use Rattle.udf_dues.specs.Counts.{AreCounts, count_in};
ghost use Rattle.udf_kept.specs.Fitted.{AreSelected};
ghost use Rattle.udf_held.specs.Held.{AreHeldOf};
ghost use Rattle.udf_kept.specs.Keeping.{AreKept};
ghost use Rattle.udf_dues.specs.Marks.{AreMarked, Mark, always, fid_mark, is_pointer_choice, marks_at, marks_below, maybe, own_marks, parent_marks};
ghost use Rattle.udf_found.specs.Order.{addr_cmp};

use crate::named_parents::named_parents;
use std::alloc::{AllocError, Global};
use udf_contents::MendedContent;
use udf_field::Addr;
use udf_held::Held;
use udf_kept::{Choice, Fitted, Keeping, Positions, Selected, positions_of};

/// The least place of a FID; a pointer has the place 0.
const FIRST_FID: u64 = 1;

/// The least and the greatest link count that an entry may state (ECMA-167 4/14.9.6).
#[derive(Clone, Copy, Debug, PartialEq, Eq)]
pub struct Count {
    pub low: u16,
    pub high: u16,
}

// A count has 16 bits, and ends there.
fn one_more(count: u16) -> u16
    ensures { result ≡ min 65535 (count + 1) }
{
    count.saturating_add(1)
}

// Counts a link that always counts.
fn count_link(counts: &mut [Count], to: usize)
    ensures { (ms : List Mark) → AreMarked ms counts.old → AreMarked (ms ++ always to ∷ []) counts.new }
{
    if to < counts.len() {
        let count = counts[to];
        counts[to] = Count {
            low: one_more(count.low),
            high: one_more(count.high),
        };
    }
}

// Counts a link that may be left out.
fn count_stream_link(counts: &mut [Count], to: usize)
    ensures { (ms : List Mark) → AreMarked ms counts.old → AreMarked (ms ++ maybe to ∷ []) counts.new }
{
    if to < counts.len() {
        let count = counts[to];
        counts[to] = Count {
            low: count.low,
            high: one_more(count.high),
        };
    }
}

// Counts a fitted link, where it is a FID.
fn count_fid(counts: &mut [Count], link: Fitted)
    ensures { (ms : List Mark) → AreMarked ms counts.old → AreMarked (ms ++ fid_mark link) counts.new }
{
    if FIRST_FID <= link.place {
        count_link(counts, link.to);
    }
}

// Counts the fitted FIDs of a directory.
fn count_fids(counts: &mut [Count], links: &[Fitted])
    ensures { (ms : List Mark) → AreMarked ms counts.old → AreMarked (ms ++ flat_map fid_mark links.now) counts.new }
{
    for link in links {
        count_fid(counts, *link);
    }
}

// Whether a link is a pointer.
fn is_pointer(choice: Option<Choice>) -> bool
    ensures { result ≡ is_pointer_choice choice }
{
    match choice {
        Some(choice) => choice.place == 0,
        None => false,
    }
}

// Counts the parent FID of a directory, which leads to the entry at a position.
fn count_parent(counts: &mut [Count], is_stream: bool, to: Option<usize>)
    ensures { (ms : List Mark) → AreMarked ms counts.old → AreMarked (ms ++ parent_marks is_stream to) counts.new }
{
    let Some(to) = to else {
        return;
    };
    if is_stream {
        count_stream_link(counts, to);
    } else {
        count_link(counts, to);
    }
}

// Counts the pointer to a stream directory.
fn count_pointer(counts: &mut [Count], is_stream: bool, position: usize)
    ensures { (ms : List Mark) → AreMarked ms counts.old → AreMarked (ms ++ own_marks is_stream position) counts.new }
{
    if is_stream {
        count_stream_link(counts, position);
    }
}

// Counts what the entry at a position has of links, where it is a kept directory, whose parent FID names an address.
fn count_directory(
    counts: &mut [Count],
    positions: &Positions,
    selected: &[Selected],
    position: usize,
    parent: Option<Addr>,
)
    ensures { (ms : List Mark) → AreMarked ms counts.old
        → AreMarked (ms ++ marks_at (get addr_cmp positions.now) selected.now position parent) counts.new }
{
    let Some(parent) = parent else {
        return;
    };
    let Some(entry) = selected.get(position) else {
        return;
    };
    let is_stream = is_pointer(entry.chosen);
    count_fids(counts, &entry.fitted);
    count_parent(counts, is_stream, positions.get(&parent).copied());
    count_pointer(counts, is_stream, position);
}

// The counts of the links of kept directories, whose parent FIDs name these addresses.
fn count_all(
    alloc: Global,
    positions: &Positions,
    selected: &[Selected],
    parents: &[Option<Addr>],
) -> Result<Vec<Count>, AllocError>
    ensures len { IfOk result (λ counts. length counts.items ≡ length parents.now) }
    ensures marked { IfOk result (λ counts. AreMarked (marks_below (get addr_cmp positions.now) selected.now parents.now (length parents.now)) counts.items) }
{
    let mut counts = vec![in alloc; Count { low: 0, high: 0 }; parents.len()]?;
    for (position, parent) in parents.iter().enumerate() {
        count_directory(&mut counts, positions, selected, position, *parent);
    }
    Ok(counts)
}

/// The least and the greatest link count that each found entry may state, in the order of the found entries.
pub fn counts_of(
    alloc: Global,
    root: Addr,
    file_set: Addr,
    held: &[Held],
    selected: &[Selected],
    kept: &[Option<Keeping>],
    contents: &[Option<MendedContent>],
) -> Result<Vec<Count>, AllocError>
    ensures { (f : Frame) (v : Volume) → f.root ≡ root → f.file_set ≡ file_set → is_size v.size ≡ true → HoldsFileSet f v
        → HasSoundStarts (setting_of f v) (tree_of f v) → AreHeldOf f v held.now → AreSelected (setting_of f v) (tree_of f v) held.now selected.now
        → AreKept (setting_of f v) (tree_of f v) held.now kept.now → AreContents f v held.now kept.now contents.now
        → IfOk result (λ counts. AreCounts f v held.now counts.items) }
{
    let parents = named_parents(alloc, root, file_set, held, kept, contents)?;
    let positions = positions_of(alloc, held)?;
    count_all(alloc, &positions, selected, &parents)
}

// The count at an index; no links where there is none.
fn count_at(counts: &[Count], i: usize) -> Count
    ensures { result ≡ count_in counts.now i }
{
    if i < counts.len() {
        counts[i]
    } else {
        Count { low: 0, high: 0 }
    }
}

/// The counts of the found entries at these indexes, in order.
pub fn counts_at(
    alloc: Global,
    counts: &[Count],
    indexes: &[usize],
) -> Result<Vec<Count>, AllocError>
    ensures { IfOk result (λ those. those.items ≡ map (count_in counts.now) indexes.now) }
{
    let mut those = Vec::new(alloc);
    for index in indexes {
        those.push(count_at(counts, *index))?;
    }
    Ok(those)
}
