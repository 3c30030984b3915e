// The first children of kept entries, and their next siblings.
ghost use Rattle.std.specs.Prelude.{◌≡◌, ◌++◌, ℕ, true, IfOk, List, Some, length, map, option_map};
ghost use Rattle.std.specs.List.Sorted.{IsNonDecreasingBy};
ghost use Rattle.std.specs.BTreeMap.{get};
ghost use Rattle.udf_field.specs.declared.address.Addr.{Addr};
ghost use Rattle.udf_file_model.specs.Listing.{Volume};
ghost use Rattle.udf_tree_model.specs.Among.{Member};
ghost use Rattle.udf_tree_model.specs.Children.{first_in, kept_in, last_children};
ghost use Rattle.udf_tree_model.specs.Chosen.{fitted};
ghost use Rattle.udf_tree_model.specs.Frame.{Frame, setting_of, tree_of};
ghost use Rattle.udf_tree_model.specs.Kept.{kept};
ghost use Rattle.udf_tree_model.specs.Link as model;
ghost use Rattle.udf_kept.specs.Fitted.{at_of, step_of, step_seen};
ghost use Rattle.udf_tree.specs.Kindred.{IsKin, child_by, first_seen, is_root_by, keeps_seen, links_beyond, sibling_by};
ghost use Rattle.udf_tree.specs.Nodes.{AreSurveyed, IsNumbering, numbered};
ghost use Rattle.udf_found.specs.Order.{addr_cmp};
ghost use Rattle.udf_tree.specs.Survey.{named_by};

use crate::node::NodeId;
use crate::numbers::{Numbers, keeping_at};
use crate::pointers::{holder_in, number_at};
use std::alloc::{AllocError, Global};
use udf_contents::{address_at, fitted_at};
use udf_field::Addr;
use udf_held::Held;
use udf_kept::{Choice, Entries, Fitted, Keeping};

/// Which of the kept entries are next to one, by their numbers.
#[derive(Clone, Copy, Debug, PartialEq, Eq)]
pub struct Kin {
    /// The first of its children.
    pub first_child: Option<NodeId>,
    /// The next child of its parent.
    pub next_sibling: Option<NodeId>,
}

// Whether a fitted link of the entry at an index is the one that keeps what it leads to.
fn keeps(kept: &[Option<Keeping>], holder: usize, link: Fitted) -> bool
    ensures { result ≡ keeps_seen kept.now holder link }
{
    let Some(keeping) = keeping_at(kept, link.to) else {
        return false;
    };
    match keeping.by {
        Some(choice) => choice.holder == holder && choice.place == link.place,
        None => false,
    }
}

// The index of what the first of some links of the entry at an index keeps.
fn first_kept(kept: &[Option<Keeping>], holder: usize, links: &[Fitted]) -> Option<usize>
    ensures { result ≡ first_seen kept.now holder links.now }
{
    for link in links {
        if keeps(kept, holder, *link) {
            return Some(link.to);
        }
    }
    None
}

// The links beyond a place.
fn links_beyond(links: &[Fitted], place: u64) -> &[Fitted]
    ensures { IsNonDecreasingBy (λ x. x.place) links.now → result.now ≡ links_beyond place links.now }
{
    let first = links.partition_point(|link| link.place <= place);
    &links[first..]
}

// The number of what the first of some links of the kept entry at an index keeps.
fn number_kept(
    entries: &Entries,
    numbers: &Numbers,
    holder: usize,
    links: &[Fitted],
) -> Option<NodeId>
    requires { IsNumbering (numbered entries.now.kept.items entries.now.held.items) (get addr_cmp numbers.now) }
    ensures { (f : Frame) (v : Volume) (root file_set : Addr) (wanted ids : List ℕ) → AreSurveyed f v root file_set entries.now wanted ids → (d : Addr) → at_of entries.now.held.items holder ≡ Some d → kept (setting_of f v) (tree_of f v) d ≡ true
        → (those : List model.Link) → map (step_seen entries.now.held.items) links.now ≡ map step_of those → ((l : model.Link) → Member l those → Member l (fitted (setting_of f v) (tree_of f v) d))
        → named_by (numbered entries.now.kept.items entries.now.held.items) result ≡ option_map Some (first_in (kept_in (setting_of f v) (tree_of f v) d those)) }
{
    let Some(to) = first_kept(&entries.kept, holder, links) else {
        return None;
    };
    number_at(&entries.held, numbers, to)
}

// The number of the system stream directory, which is the last child of the root.
fn last_child(entries: &Entries, numbers: &Numbers) -> Option<NodeId>
    requires { IsNumbering (numbered entries.now.kept.items entries.now.held.items) (get addr_cmp numbers.now) }
    ensures { (f : Frame) (v : Volume) (root file_set : Addr) (wanted ids : List ℕ) → AreSurveyed f v root file_set entries.now wanted ids
        → named_by (numbered entries.now.kept.items entries.now.held.items) result ≡ option_map Some (first_in (last_children f v f.root)) }
{
    let Some(i) = holder_in(&entries.held) else {
        return None;
    };
    number_kept(entries, numbers, i, fitted_at(&entries.selected, i))
}

// Whether the root stands at an index.
fn is_root(held: &[Held], root: Addr, i: usize) -> bool
    ensures { result ≡ is_root_by root (at_of held.now i) }
{
    match address_at(held, i) {
        Some(at) => at == root,
        None => false,
    }
}

// The number of what the first of some links of the kept entry at an index keeps, or else of the root of its last child.
fn child_in(
    entries: &Entries,
    numbers: &Numbers,
    root: Addr,
    last: Option<NodeId>,
    holder: usize,
    links: &[Fitted],
) -> Option<NodeId>
    requires { IsNumbering (numbered entries.now.kept.items entries.now.held.items) (get addr_cmp numbers.now) }
    ensures { (f : Frame) (v : Volume) (file_set : Addr) (wanted ids : List ℕ) → AreSurveyed f v root file_set entries.now wanted ids → named_by (numbered entries.now.kept.items entries.now.held.items) last ≡ option_map Some (first_in (last_children f v f.root))
        → (d : Addr) → at_of entries.now.held.items holder ≡ Some d → kept (setting_of f v) (tree_of f v) d ≡ true
        → (those : List model.Link) → map (step_seen entries.now.held.items) links.now ≡ map step_of those → ((l : model.Link) → Member l those → Member l (fitted (setting_of f v) (tree_of f v) d))
        → named_by (numbered entries.now.kept.items entries.now.held.items) result ≡ option_map Some (first_in (kept_in (setting_of f v) (tree_of f v) d those ++ last_children f v d)) }
{
    if let Some(child) = number_kept(entries, numbers, holder, links) {
        return Some(child);
    }
    if is_root(&entries.held, root, holder) {
        last
    } else {
        None
    }
}

// The number of the next sibling of the kept entry at an index.
fn sibling_of(
    entries: &Entries,
    numbers: &Numbers,
    root: Addr,
    last: Option<NodeId>,
    i: usize,
) -> Option<NodeId>
    requires { IsNumbering (numbered entries.now.kept.items entries.now.held.items) (get addr_cmp numbers.now) }
    ensures { (f : Frame) (v : Volume) (file_set : Addr) (wanted ids : List ℕ) → AreSurveyed f v root file_set entries.now wanted ids → named_by (numbered entries.now.kept.items entries.now.held.items) last ≡ option_map Some (first_in (last_children f v f.root))
        → (a : Addr) → at_of entries.now.held.items i ≡ Some a → kept (setting_of f v) (tree_of f v) a ≡ true → named_by (numbered entries.now.kept.items entries.now.held.items) result ≡ sibling_by f v (Some a) }
{
    let Some(keeping) = keeping_at(&entries.kept, i) else {
        return None;
    };
    let Some(link) = keeping.by else {
        return None;
    };
    let links = links_beyond(fitted_at(&entries.selected, link.holder), link.place);
    child_in(entries, numbers, root, last, link.holder, links)
}

// The first child and the next sibling of the kept entry at an index.
fn kin_at(entries: &Entries, numbers: &Numbers, root: Addr, last: Option<NodeId>, i: usize) -> Kin
    requires { IsNumbering (numbered entries.now.kept.items entries.now.held.items) (get addr_cmp numbers.now) }
    ensures { (f : Frame) (v : Volume) (file_set : Addr) (wanted ids : List ℕ) → AreSurveyed f v root file_set entries.now wanted ids → named_by (numbered entries.now.kept.items entries.now.held.items) last ≡ option_map Some (first_in (last_children f v f.root))
        → (a : Addr) → at_of entries.now.held.items i ≡ Some a → kept (setting_of f v) (tree_of f v) a ≡ true → IsKin f v (numbered entries.now.kept.items entries.now.held.items) a result }
{
    let links = fitted_at(&entries.selected, i);
    Kin {
        first_child: child_in(entries, numbers, root, last, i, links),
        next_sibling: sibling_of(entries, numbers, root, last, i),
    }
}

/// The first children and the next siblings of found entries by their indexes. `root` is the root. Takes n log n in the entries
/// and their links.
pub(crate) fn kin_of(
    alloc: Global,
    root: Addr,
    entries: &Entries,
    numbers: &Numbers,
    indexes: &[usize],
) -> Result<Vec<Kin>, AllocError>
    requires numbers { IsNumbering (numbered entries.now.kept.items entries.now.held.items) (get addr_cmp numbers.now) }
    requires indexes { map (at_of entries.now.held.items) indexes.now ≡ map Some (numbered entries.now.kept.items entries.now.held.items) }
    ensures many { IfOk result (λ kin. length kin.items ≡ length indexes.now) }
    ensures children { (f : Frame) (v : Volume) (file_set : Addr) (wanted ids : List ℕ) → AreSurveyed f v root file_set entries.now wanted ids
        → IfOk result (λ kin. map (λ k. named_by (numbered entries.now.kept.items entries.now.held.items) k.first_child) kin.items ≡ map (λ i. child_by f v (at_of entries.now.held.items i)) indexes.now) }
    ensures siblings { (f : Frame) (v : Volume) (file_set : Addr) (wanted ids : List ℕ) → AreSurveyed f v root file_set entries.now wanted ids
        → IfOk result (λ kin. map (λ k. named_by (numbered entries.now.kept.items entries.now.held.items) k.next_sibling) kin.items ≡ map (λ i. sibling_by f v (at_of entries.now.held.items i)) indexes.now) }
{
    let last = last_child(entries, numbers);
    let mut kin = Vec::new(alloc);
    for index in indexes {
        kin.push(kin_at(entries, numbers, root, last, *index))?;
    }
    Ok(kin)
}
