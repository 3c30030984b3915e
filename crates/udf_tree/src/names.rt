// The names of the links that keep entries.
ghost use Rattle.std.specs.Prelude.{◌≡◌, ℕ, IfOk, List, Some, length, slice_get};
ghost use Rattle.std.specs.BTreeMap.{get};
ghost use Rattle.std.specs.Ordering.{nat_cmp};
ghost use Rattle.udf_field.specs.declared.address.Addr.{Addr};
ghost use Rattle.udf_file_model.specs.Listing.{Volume};
ghost use Rattle.udf_tree_model.specs.Frame.{Frame};
ghost use Rattle.udf_held.specs.declared.held.Held.{Held};
ghost use Rattle.udf_tree.specs.Nodes.{AreSurveyed};
ghost use Rattle.udf_tree.specs.Path.{AreNamed, HaveIndexes, IsNamed, texts_of, index_by, name_by, name_in};

use crate::numbers::keeping_at;
use std::alloc::{AllocError, Global};
use std::collections::BTreeMap;
use udf_found::Link;
use udf_held::Held;
use udf_kept::{Choice, Entries};

// The indexes of links by their places.
type LinkIndexes = BTreeMap<u64, usize>;

// Of each place the index of the first link there.
fn link_indexes(alloc: Global, links: &[Link]) -> Result<LinkIndexes, AllocError>
    ensures { IfOk result (λ indexes. (q : ℕ) → get nat_cmp indexes q ≡ index_by links.now q) }
{
    let mut indexes = BTreeMap::new(alloc);
    for (i, link) in links.iter().enumerate() {
        if indexes.contains_key(&link.place) {
            continue;
        }
        indexes.insert(link.place, i)?;
    }
    Ok(indexes)
}

// The same of each entry, in order.
fn all_link_indexes(alloc: Global, held: &[Held]) -> Result<Vec<LinkIndexes>, AllocError>
    ensures { IfOk result (λ indexes. HaveIndexes held.now indexes.items) }
{
    let mut indexes = Vec::new(alloc);
    for entry in held {
        indexes.push(link_indexes(alloc, &entry.links)?)?;
    }
    Ok(indexes)
}

// The name of the link at an index.
fn name_at(links: &[Link], i: usize) -> &[u8]
    ensures { result.now ≡ name_in (slice_get links.now i) }
{
    if i < links.len() { &links[i].name } else { &[] }
}

// The name of the link of a holder at a place.
fn name_of(
    alloc: Global,
    held: &[Held],
    indexes: &[LinkIndexes],
    link: Choice,
) -> Result<Vec<u8>, AllocError>
    ensures { HaveIndexes held.now indexes.now → (h : Held) → slice_get held.now link.holder ≡ Some h
        → IfOk result (λ name. name.items ≡ name_by h.links.items link.place) }
{
    if link.holder >= held.len() {
        return Ok(Vec::new(alloc));
    }
    if link.holder >= indexes.len() {
        return Ok(Vec::new(alloc));
    }
    let Some(i) = indexes[link.holder].get(&link.place) else {
        return Ok(Vec::new(alloc));
    };
    let name = Vec::from_slice(alloc, name_at(&held[link.holder].links, *i))?;
    Ok(name)
}

// The name of the link that keeps the found entry at an index; empty where none keeps it.
fn name_for(
    alloc: Global,
    entries: &Entries,
    indexes: &[LinkIndexes],
    i: usize,
) -> Result<Vec<u8>, AllocError>
    ensures { (f : Frame) (v : Volume) (root file_set : Addr) (links ids : List ℕ) → AreSurveyed f v root file_set entries.now links ids → HaveIndexes entries.now.held.items indexes.now
        → IfOk result (λ name. IsNamed f v entries.now.held.items i name.items) }
{
    let Some(keeping) = keeping_at(&entries.kept, i) else {
        return Ok(Vec::new(alloc));
    };
    let Some(link) = keeping.by else {
        return Ok(Vec::new(alloc));
    };
    let name = name_of(alloc, &entries.held, indexes, link)?;
    Ok(name)
}

// The same of those at some indexes, in order.
fn names_by(
    alloc: Global,
    entries: &Entries,
    link_indexes: &[LinkIndexes],
    indexes: &[usize],
) -> Result<Vec<Vec<u8>>, AllocError>
    ensures many { IfOk result (λ names. length names.items ≡ length indexes.now) }
    ensures names { (f : Frame) (v : Volume) (root file_set : Addr) (links ids : List ℕ) → AreSurveyed f v root file_set entries.now links ids → HaveIndexes entries.now.held.items link_indexes.now
        → IfOk result (λ names. AreNamed f v entries.now.held.items indexes.now (texts_of names.items)) }
{
    let mut names = Vec::new(alloc);
    for index in indexes {
        names.push(name_for(alloc, entries, link_indexes, *index)?)?;
    }
    Ok(names)
}

/// The names of the links that keep the found entries at these indexes, in order. Takes n log n in the entries and their links.
pub(crate) fn names_of(
    alloc: Global,
    entries: &Entries,
    indexes: &[usize],
) -> Result<Vec<Vec<u8>>, AllocError>
    ensures many { IfOk result (λ names. length names.items ≡ length indexes.now) }
    ensures names { (f : Frame) (v : Volume) (root file_set : Addr) (links ids : List ℕ) → AreSurveyed f v root file_set entries.now links ids
        → IfOk result (λ names. AreNamed f v entries.now.held.items indexes.now (texts_of names.items)) }
{
    let link_indexes = all_link_indexes(alloc, &entries.held)?;
    names_by(alloc, entries, &link_indexes, indexes)
}
