// What is told of kept entries beside their nodes.
ghost use Rattle.std.specs.Prelude.{◌≡◌, ◌<◌, ℕ, List, Some, IfOk, length, map};
ghost use Rattle.std.specs.BTreeMap.{get};
ghost use Rattle.udf_file_model.specs.Listing.{Volume};
ghost use Rattle.udf_tree_model.specs.Frame.{Frame};
ghost use Rattle.udf_kept.specs.Fitted.{at_of};
ghost use Rattle.udf_tree.specs.Nodes.{AreSurveyed, IsNumbering, numbered};
ghost use Rattle.udf_tree.specs.Notes.{AreAsMany, AreNotes};
ghost use Rattle.udf_found.specs.Order.{addr_cmp};

use crate::children::{Kin, kin_of};
use crate::judge::{Verdicts, judge_all};
use crate::kept_contents::{KeptContent, contents_at};
use crate::names::names_of;
use crate::node::NodeId;
use crate::numbers::Numbers;
use crate::pointers::pointers_of;
use crate::stated::{Stated, stated_of};
use std::alloc::{AllocError, Global};
use udf_dues::{Count, Dues, counts_at};
use udf_field::Addr;
use udf_kept::Entries;

/// What is told of each kept entry beside its node, by their numbers.
#[derive(Drop)]
pub(crate) struct Notes {
    /// The number of its stream directory.
    pub pointers: Vec<Option<NodeId>>,
    /// What is judged of its links.
    pub verdicts: Vec<Verdicts>,
    /// The name of the link that keeps it.
    pub names: Vec<Vec<u8>>,
    /// What it states of itself.
    pub stated: Vec<Stated>,
    /// The least and the greatest link count that it may state.
    pub counts: Vec<Count>,
    /// The content of a directory; None of another entry.
    pub contents: Vec<Option<KeptContent>>,
    /// Its first child and its next sibling.
    pub kin: Vec<Kin>,
}

/// The notes of the found entries at these indexes, in order. `root` is the root, `file_set` the address of the file set. Takes
/// n log n in the entries and their links.
pub(crate) fn notes_of(
    alloc: Global,
    root: Addr,
    file_set: Addr,
    entries: &Entries,
    numbers: &Numbers,
    indexes: &[usize],
    dues: &Dues,
) -> Result<Notes, AllocError>
    requires numbers { IsNumbering (numbered entries.now.kept.items entries.now.held.items) (get addr_cmp numbers.now) }
    requires indexes { map (at_of entries.now.held.items) indexes.now ≡ map Some (numbered entries.now.kept.items entries.now.held.items) }
    ensures many { IfOk result (AreAsMany (length indexes.now)) }
    ensures notes { (f : Frame) (v : Volume) (links ids : List ℕ) → 0 < v.size → AreSurveyed f v root file_set entries.now links ids
        → IfOk result (AreNotes f v entries.now dues.now.counts.items indexes.now) }
{
    let pointers = pointers_of(alloc, entries, numbers, indexes)?;
    let verdicts = judge_all(alloc, entries, indexes)?;
    let names = names_of(alloc, entries, indexes)?;
    let stated = stated_of(alloc, &entries.held, indexes)?;
    let counts = counts_at(alloc, &dues.counts, indexes)?;
    let contents = contents_at(alloc, entries, root, file_set, indexes)?;
    let kin = kin_of(alloc, root, entries, numbers, indexes)?;
    Ok(Notes {
        pointers,
        verdicts,
        names,
        stated,
        counts,
        contents,
        kin,
    })
}
