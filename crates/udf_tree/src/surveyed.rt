// The survey of a volume's files as one value.
ghost use Rattle.std.specs.Prelude.{◌≡◌, ◌<◌, All, ◌+◌, ◌^◌, ℕ, [], true, is_some, false, None, Some, IfOk, IfSome, MatchOption, get_or, length, map, slice_get};
ghost use Rattle.std.specs.BTreeMap.{get};
ghost use Rattle.std.specs.List.{list_any};
ghost use Rattle.udf_claims.specs.Winner.{IsNextClaimed, IsUnclaimedFrom, claimed};
ghost use Rattle.udf_field.specs.declared.address.Addr.{Addr};
ghost use Rattle.udf_file_model.specs.Address.{same_addr};
ghost use Rattle.udf_file_model.specs.Listing.{Volume};
ghost use Rattle.udf_tree_model.specs.Climb.{IsDistance};
ghost use Rattle.udf_tree_model.specs.Frame.{Frame};
ghost use Rattle.udf_contents.specs.After.{TellsTaken};
ghost use Rattle.udf_contents.specs.Contents.{AreContents};
ghost use Rattle.udf_dues.specs.Counts.{AreCounts};
ghost use Rattle.udf_tree.specs.declared.children.Kin.{Kin};
ghost use Rattle.udf_tree.specs.Judged.{verdict_in};
ghost use Rattle.udf_tree.specs.Nodes.{AreSurveyed, node_addresses};
ghost use Rattle.udf_found.specs.Order.{addr_cmp};
ghost use Rattle.udf_tree.specs.Path.{IsPath};
ghost use Rattle.udf_tree.specs.Survey.{IsSurvey, bytes_at};

use crate::climb::steps_up;
use crate::files::files_of;
use crate::judge::Verdict;
use crate::kept_contents::KeptContent;
use crate::node::{Node, NodeId};
use crate::nodes::nodes_of;
use crate::notes::{Notes, notes_of};
use crate::numbers::{Numbers, in_order, kept_addresses, kept_indexes, number_of, numbers_of};
use crate::path::{Path, names_up};
use crate::pointers::system_of;
use crate::stated::Stated;
use std::alloc::{AllocError, Global};
use std::collections::BTreeMap;
use std::marker::Model;
use udf_claims::{Claimed, Claims};
use udf_contents::MendedContent;
use udf_dues::{Count, Dues};
use udf_field::Addr;
use udf_kept::Entries;

/// What is kept of a volume's files, and what the mend makes of it.
#[derive(Drop)]
pub struct Survey {
    nodes: Vec<Node>,
    numbers: Numbers,
    root: NodeId,
    /// Of each node the index of its found entry.
    indexes: Vec<usize>,
    /// Of each found entry what is written in place of its content.
    contents: Vec<Option<MendedContent>>,
    claims: Claims,
    notes: Notes,
    /// The numbers of nodes in the order of their addresses.
    order: Vec<NodeId>,
    /// The number of the system stream directory.
    system: Option<NodeId>,
    /// How many FIDs of ordinary directories name files.
    files_named: u64,
}

impl Model for Survey {
    ghost use Rattle.std.specs.Prelude.{map};
    ghost use Rattle.std.specs.BTreeMap.{get};
    ghost use Rattle.udf_tree.specs.Judged.{entries_of};
    ghost use Rattle.udf_found.specs.Order.{addr_cmp};
    ghost use Rattle.udf_tree.specs.Path.{texts_of};
    ghost use Rattle.udf_tree.specs.Notes.{AreIndexed};
    ghost use Rattle.udf_tree.specs.Survey.{View, bytes_at};

    ghost Value = { View };

    ghost view = { λ s. record { nodes = s.nodes.items; order = s.order.items; root = s.root; contents = map (bytes_at s.contents.items) s.indexes.items; runs = s.claims; pointers = s.notes.pointers.items; system = s.system; files_named = s.files_named; verdicts = entries_of s.notes.verdicts.items; names = texts_of s.notes.names.items; stated = s.notes.stated.items; counts = s.notes.counts.items; kept_contents = s.notes.contents.items; kin = s.notes.kin.items } };

    ghost invariant = { λ s. AreIndexed s.nodes.items (get addr_cmp s.numbers) s.indexes.items s.order.items s.notes };
}

// The bytes that are written in place of the content of the found entry at an index.
fn bytes_of(contents: &[Option<MendedContent>], i: usize) -> Option<&[u8]>
    ensures { MatchOption result (bytes_at contents.now i ≡ None) (λ bytes. bytes_at contents.now i ≡ Some bytes.now) }
{
    if i >= contents.len() {
        return None;
    }
    match &contents[i] {
        Some(content) => Some(&content.bytes),
        None => None,
    }
}

impl Survey {
    /// How many entries are kept.
    pub fn kept(&self) -> u32
        ensures { result ≡ length self.now.nodes }
    {
        self.nodes.len() as u32
    }

    /// The kept entry of a number.
    pub fn node(&self, id: NodeId) -> &Node
        requires { id.0 < length self.now.nodes }
        ensures { slice_get self.now.nodes id.0 ≡ Some result.now }
    {
        &self.nodes[id.0 as usize]
    }

    /// The number of the root.
    pub fn root(&self) -> NodeId
        ensures { result ≡ self.now.root }
    {
        self.root
    }

    /// The numbers of the kept entries in the order of their addresses.
    pub fn in_order(&self) -> &[NodeId]
        ensures order { result.now ≡ self.now.order }
        ensures within { All (λ id. id.0 < length self.now.nodes) result.now }
    {
        &self.order
    }

    /// The number of the kept entry at an address, where there is one.
    pub fn find(&self, at: Addr) -> Option<NodeId>
        ensures { MatchOption result (list_any (same_addr at) (node_addresses self.now.nodes) ≡ false) (λ id. slice_get (node_addresses self.now.nodes) id.0 ≡ Some at) }
    {
        match self.numbers.get(&at) {
            Some(number) => Some(*number),
            None => None,
        }
    }

    /// What the mend writes in place of the content of a kept directory; None of another entry, and where the content stays.
    pub fn mended(&self, id: NodeId) -> Option<&[u8]>
        requires { id.0 < length self.now.nodes }
        ensures { MatchOption result (get_or self.now.contents id.0 None ≡ None) (λ bytes. get_or self.now.contents id.0 None ≡ Some bytes.now) }
    {
        bytes_of(&self.contents, self.indexes[id.0 as usize])
    }

    /// The number of the stream directory that the pointer of a kept entry keeps.
    pub fn pointer(&self, id: NodeId) -> Option<NodeId>
        requires { id.0 < length self.now.nodes }
        ensures { result ≡ get_or self.now.pointers id.0 None }
    {
        self.notes.pointers[id.0 as usize]
    }

    /// The number of the system stream directory, where it is kept.
    pub fn system(&self) -> Option<NodeId>
        ensures { result ≡ self.now.system }
    {
        self.system
    }

    /// How many fitted FIDs of ordinary directories name entries that are no directories (UDF 2.2.6.4).
    pub fn files_named(&self) -> u64
        ensures { result ≡ self.now.files_named }
    {
        self.files_named
    }

    /// What is judged of the live FID at an offset, in bytes, of the kept content of a directory. Takes log n in its FIDs.
    pub fn judge(&self, id: NodeId, offset: u64) -> Verdict
        requires id { id.0 < length self.now.nodes }
        requires fits { offset + 1 < 2 ^ 64 }
        requires there { is_some (verdict_in (get_or self.now.verdicts id.0 []) (offset + 1)) ≡ true }
        ensures { verdict_in (get_or self.now.verdicts id.0 []) (offset + 1) ≡ Some result }
    {
        match self.notes.verdicts[id.0 as usize].get(&(offset + 1)) {
            Some(verdict) => *verdict,
            None => Verdict {
                target: Addr { part: 0, block: 0 },
                sound: true,
                earlier: None,
                chosen: true,
            },
        }
    }

    /// What is judged of each link of a kept entry, by its place: 0 of the pointer, and one more than its offset of a live FID.
    pub fn links(&self, id: NodeId) -> &BTreeMap<u64, Verdict>
        requires { id.0 < length self.now.nodes }
        ensures { slice_get self.now.verdicts id.0 ≡ Some result.now.entries }
    {
        &self.notes.verdicts[id.0 as usize]
    }

    /// The name of the link that keeps an entry: empty for a stream directory, and for the root.
    pub fn step_name(&self, id: NodeId) -> &[u8]
        requires { id.0 < length self.now.nodes }
        ensures { slice_get self.now.names id.0 ≡ Some result.now }
    {
        &self.notes.names[id.0 as usize]
    }

    /// What a kept entry states of itself.
    pub fn stated(&self, id: NodeId) -> Stated
        requires { id.0 < length self.now.nodes }
        ensures { slice_get self.now.stated id.0 ≡ Some result }
    {
        self.notes.stated[id.0 as usize]
    }

    /// The least and the greatest link count that a kept entry may state.
    pub fn counts(&self, id: NodeId) -> Count
        requires { id.0 < length self.now.nodes }
        ensures { slice_get self.now.counts id.0 ≡ Some result }
    {
        self.notes.counts[id.0 as usize]
    }

    /// The content of a kept directory up to the kept length; None of another entry.
    pub fn content(&self, id: NodeId) -> Option<KeptContent>
        requires { id.0 < length self.now.nodes }
        ensures { slice_get self.now.kept_contents id.0 ≡ Some result }
    {
        self.notes.contents[id.0 as usize]
    }

    /// How many steps lead from the root to a kept entry: as many as its path has names. Takes as long as the path.
    pub fn steps(&self, id: NodeId) -> u32
        requires { id.0 < length self.now.nodes }
        ensures { (f : Frame) (v : Volume) → IsSurvey f v self.now → (a : Addr) → slice_get (node_addresses self.now.nodes) id.0 ≡ Some a → IsDistance f v a result }
    {
        steps_up(&self.nodes, self.root, id)
    }

    /// The number of the first child of a kept entry. Its children are the kept entries whose parent it is: first its stream
    /// directory, then the others in the order of the FIDs that keep them; of the root the system stream directory is the last.
    pub fn first_child(&self, id: NodeId) -> Option<NodeId>
        requires { id.0 < length self.now.nodes }
        ensures { (k : Kin) → slice_get self.now.kin id.0 ≡ Some k → result ≡ k.first_child }
    {
        self.notes.kin[id.0 as usize].first_child
    }

    /// The number of the next child of the parent of a kept entry; None of the last one, and of the root.
    pub fn next_sibling(&self, id: NodeId) -> Option<NodeId>
        requires { id.0 < length self.now.nodes }
        ensures { (k : Kin) → slice_get self.now.kin id.0 ≡ Some k → result ≡ k.next_sibling }
    {
        self.notes.kin[id.0 as usize].next_sibling
    }

    /// The names from the root to a kept entry. A step to a stream directory has an empty name. Takes as long as the path.
    pub fn path_of(&self, alloc: Global, id: NodeId) -> Result<Path, AllocError>
        requires { id.0 < length self.now.nodes }
        ensures path { (f : Frame) (v : Volume) → IsSurvey f v self.now → (a : Addr) → slice_get (node_addresses self.now.nodes) id.0 ≡ Some a → IfOk result (IsPath f v a) }
        ensures length { (f : Frame) (v : Volume) → IsSurvey f v self.now → (a : Addr) → slice_get (node_addresses self.now.nodes) id.0 ≡ Some a → IfOk result (λ names. IsDistance f v a (length names)) }
    {
        let upward = names_up(alloc, &self.nodes, &self.notes.names, id, self.steps(id))?;
        Ok(Path { upward })
    }

    /// The next claimed blocks from an address on, in the order of addresses: all that follow on one another. A placed address is
    /// claimed where it is fixed, or a kept entry claims it after its mend. A walk goes on from where they end.
    pub fn next_claimed(&self, at: Addr) -> Option<Claimed>
        ensures { MatchOption result (IsUnclaimedFrom self.now.runs at) (IsNextClaimed self.now.runs at) }
    {
        self.claims.claimed_from(at)
    }

    /// Whether a placed address is fixed, or a kept entry claims it after its mend.
    pub fn claimed(&self, at: Addr) -> bool
        ensures { result ≡ claimed self.now.runs at }
    {
        match self.claims.claimed_from(at) {
            Some(next) => next.at == at,
            None => false,
        }
    }
}

/// The survey of a volume's files: of the found entries, what is kept of them, what is written in place of the contents of
/// directories, and what is claimed after that. `root` is the root, `file_set` the address of the file set. Takes n log n in the
/// entries and their links.
pub(crate) fn survey_of(
    alloc: Global,
    root: Addr,
    file_set: Addr,
    entries: &Entries,
    dues: &Dues,
    contents: Vec<Option<MendedContent>>,
    claims: Claims,
) -> Result<Survey, AllocError>
    ensures { (f : Frame) (v : Volume) → 0 < v.size → AreSurveyed f v root file_set entries.now dues.now.links.items dues.now.ids.items → AreCounts f v entries.now.held.items dues.now.counts.items
        → AreContents f v entries.now.held.items entries.now.kept.items contents.items → TellsTaken f v claims → IfOk result (IsSurvey f v) }
{
    let addresses = kept_addresses(alloc, &entries.held, &entries.kept)?;
    let numbers = numbers_of(alloc, &addresses)?;
    let nodes = nodes_of(
        alloc,
        root,
        file_set,
        entries,
        &numbers,
        &dues.links,
        &dues.ids,
    )?;
    let indexes = kept_indexes(alloc, &entries.held, &entries.kept)?;
    let notes = notes_of(alloc, root, file_set, entries, &numbers, &indexes, dues)?;
    let order = in_order(alloc, &numbers)?;
    let root = number_of(&numbers, root);
    let system = system_of(entries, &numbers);
    let files_named = files_of(entries)?;
    Ok(Survey {
        nodes,
        numbers,
        root,
        indexes,
        contents,
        claims,
        notes,
        order,
        system,
        files_named,
    })
}
