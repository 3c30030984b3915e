// The nodes of kept entries.
ghost use Rattle.std.specs.Prelude.{◌≡◌, ◌&&◌, ℕ, false, IfOk, IfSome, Some, get_or, slice_get};
ghost use Rattle.std.specs.BTreeMap.{get};
ghost use Rattle.udf_file_model.specs.Listing.{Volume};
ghost use Rattle.udf_tree_model.specs.Frame.{Frame, setting_of, tree_of};
ghost use Rattle.udf_tree_model.specs.Parent.{parent};
ghost use Rattle.udf_kept.specs.Keeping.{IsKeptBy};
ghost use Rattle.udf_tree.specs.Nodes.{AreNodes, AreSurveyed, IsNode, IsNumbering, node_address, node_addresses, numbered, numbered_at};
ghost use Rattle.udf_found.specs.Order.{addr_cmp};

use crate::node::Node;
use crate::numbers::{Numbers, keeping_at, number_of};
use std::alloc::{AllocError, Global};
use udf_contents::parent_of;
use udf_field::Addr;
use udf_found::Shape;
use udf_held::Held;
use udf_kept::Entries;

// Whether nothing of the list of an entry of a shape fails, and it wins all of it.
fn is_whole(entry: &Held, shape: &Shape) -> bool
    ensures { result ≡ (shape.now.good && entry.now.whole) }
{
    shape.good && entry.whole
}

// The link count at an index.
fn links_at(links: &[u16], i: usize) -> u16
    ensures { result ≡ get_or links.now i 0 }
{
    if i < links.len() { links[i] } else { 0 }
}

// The identifier at an index.
fn id_at(ids: &[u64], i: usize) -> u64
    ensures { result ≡ get_or ids.now i 0 }
{
    if i < ids.len() { ids[i] } else { 0 }
}

/// Whether the entry at an index is ordinary.
pub(crate) fn is_ordinary(ordinary: &[bool], i: usize) -> bool
    ensures { result ≡ get_or ordinary.now i false }
{
    i < ordinary.len() && ordinary[i]
}

// The node of the entry at an index, where that is kept and has a block of its own.
fn node_at(
    root: Addr,
    file_set: Addr,
    entries: &Entries,
    numbers: &Numbers,
    links: &[u16],
    ids: &[u64],
    i: usize,
    entry: &Held,
) -> Option<Node>
    requires { IsNumbering (numbered entries.now.kept.items entries.now.held.items) (get addr_cmp numbers.now) }
    ensures address { node_address result ≡ numbered_at entry.now (get_or entries.now.kept.items i None) }
    ensures node { (f : Frame) (v : Volume) → AreSurveyed f v root file_set entries.now links.now ids.now → slice_get entries.now.held.items i ≡ Some entry.now
        → IfSome result (IsNode f v (numbered entries.now.kept.items entries.now.held.items)) }
{
    let Some(keeping) = keeping_at(&entries.kept, i) else {
        return None;
    };
    let Some(shape) = &entry.shape else {
        return None;
    };
    let parent = parent_of(&entries.held, root, file_set, entry, keeping);
    Some(Node {
        at: entry.at,
        level: entry.level,
        directory: entry.directory,
        kept_length: entry.kept,
        whole: is_whole(entry, shape),
        links: links_at(links, i),
        id: id_at(ids, i),
        parent: number_of(numbers, parent),
        ordinary: is_ordinary(&entries.ordinary, i),
    })
}

/// The nodes of kept entries in the order of the found ones, each at the place that its number names. `root` is the root,
/// `file_set` the address of the file set; `links` has the wanted link count of each found entry, and `ids` its identifier.
pub(crate) fn nodes_of(
    alloc: Global,
    root: Addr,
    file_set: Addr,
    entries: &Entries,
    numbers: &Numbers,
    links: &[u16],
    ids: &[u64],
) -> Result<Vec<Node>, AllocError>
    requires { IsNumbering (numbered entries.now.kept.items entries.now.held.items) (get addr_cmp numbers.now) }
    ensures addresses { IfOk result (λ nodes. node_addresses nodes.items ≡ numbered entries.now.kept.items entries.now.held.items) }
    ensures nodes { (f : Frame) (v : Volume) → AreSurveyed f v root file_set entries.now links.now ids.now → IfOk result (λ nodes. AreNodes f v nodes.items) }
{
    let mut nodes = Vec::new(alloc);
    for (i, entry) in entries.held.iter().enumerate() {
        let Some(node) = node_at(root, file_set, entries, numbers, links, ids, i, entry) else {
            continue;
        };
        nodes.push(node)?;
    }
    Ok(nodes)
}
