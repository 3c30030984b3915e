// What is judged of the links of kept entries.
ghost use Rattle.std.specs.Prelude.{◌≡◌, ℕ, true, Some, IfOk, List, length};
ghost use Rattle.std.specs.BTreeMap.{get};
ghost use Rattle.std.specs.List.Sorted.{IsStrictlySortedBy};
ghost use Rattle.std.specs.Map.{keys_of};
ghost use Rattle.std.specs.Ordering.{nat_cmp};
ghost use Rattle.udf_field.specs.declared.address.Addr.{Addr};
ghost use Rattle.udf_file_model.specs.Listing.{Volume};
ghost use Rattle.udf_tree_model.specs.Chosen.{chosen_link};
ghost use Rattle.udf_tree_model.specs.Frame.{Frame, setting_of, tree_of};
ghost use Rattle.udf_tree_model.specs.Found.{found};
ghost use Rattle.udf_kept.specs.Fitted.{IsChoice};
ghost use Rattle.udf_held.specs.Held.{IsHeld, IsHeldOf};
ghost use Rattle.udf_kept.specs.Indexed.{IsIndex};
ghost use Rattle.udf_tree.specs.Judged.{AreJudged, IsJudged, entries_of, is_lawful_target, judged_by, verdict_by};
ghost use Rattle.udf_tree.specs.Nodes.{AreSurveyed};
ghost use Rattle.udf_found.specs.Order.{addr_cmp};
ghost use Rattle.udf_contents.specs.Stays.{Tells};

use std::alloc::{AllocError, Global};
use std::collections::BTreeMap;
use udf_contents::{chosen_at, is_link, is_sound_entry};
use udf_field::Addr;
use udf_found::Link;
use udf_held::Held;
use udf_kept::{Choice, Entries, Positions, Selected, positions_of};

/// What is judged of a link of a kept entry: of its pointer, or of a live FID.
#[derive(Clone, Copy, Debug, PartialEq, Eq)]
pub struct Verdict {
    /// Where it leads.
    pub target: Addr,
    /// Whether it names a sound entry.
    pub sound: bool,
    /// The offset of the first live FID of the same name, where that stands before this one.
    pub earlier: Option<u64>,
    /// Whether it names no directory, or is the chosen link to it; a start and an unsound directory have none.
    pub chosen: bool,
}

/// Verdicts by the places of links.
pub(crate) type Verdicts = BTreeMap<u64, Verdict>;

// Whether a found entry is no directory with a block of its own, or a sound one to which the link of a holder at a place is the
// chosen one.
fn is_lawful(held: &[Held], target: &Held, choice: Option<Choice>, holder: Addr, place: u64) -> bool
    ensures { (f : Frame) (v : Volume) → IsHeld (setting_of f v) (tree_of f v) target.now → IsHeldOf f v target.now → found (setting_of f v) (tree_of f v) target.now.at ≡ true
        → (target.now.directory ≡ true → IsChoice held.now (λ d. d.level) (chosen_link (setting_of f v) (tree_of f v) target.now.at) choice)
        → result ≡ is_lawful_target (setting_of f v) (tree_of f v) holder place target.now.at }
{
    if !target.directory {
        return true;
    }
    if target.shape.is_none() {
        return true;
    }
    if target.is_start {
        return false;
    }
    if !target.sound {
        return false;
    }
    is_link(held, choice, holder, place)
}

// What is judged of a link of a holder.
fn verdict_of(
    held: &[Held],
    positions: &Positions,
    selected: &[Selected],
    holder: Addr,
    link: &Link,
) -> Verdict
    requires { IsIndex held.now (get addr_cmp positions.now) }
    ensures { (f : Frame) (v : Volume) → Tells f v held.now selected.now
        → result ≡ verdict_by (setting_of f v) (tree_of f v) holder link.now }
{
    let Some(&i) = positions.get(&link.target) else {
        return Verdict {
            target: link.target,
            sound: false,
            earlier: link.earlier,
            chosen: true,
        };
    };
    let target = &held[i];
    Verdict {
        target: link.target,
        sound: is_sound_entry(target),
        earlier: link.earlier,
        chosen: is_lawful(held, target, chosen_at(selected, i), holder, link.place),
    }
}

// What is judged of each link of a found entry, by its place.
fn verdicts_of(
    alloc: Global,
    held: &[Held],
    positions: &Positions,
    selected: &[Selected],
    entry: &Held,
) -> Result<Verdicts, AllocError>
    requires { IsIndex held.now (get addr_cmp positions.now) }
    ensures ordered { IfOk result (λ verdicts. IsStrictlySortedBy nat_cmp (keys_of verdicts.entries)) }
    ensures verdicts { (f : Frame) (v : Volume) → Tells f v held.now selected.now
        → IfOk result (λ verdicts. (q : ℕ) → get nat_cmp verdicts q ≡ judged_by (setting_of f v) (tree_of f v) entry.now.at entry.now.links.items q) }
{
    let mut verdicts = BTreeMap::new(alloc);
    for link in &entry.links {
        if verdicts.contains_key(&link.place) {
            continue;
        }
        verdicts.insert(
            link.place,
            verdict_of(held, positions, selected, entry.at, link),
        )?;
    }
    Ok(verdicts)
}

// The same of the found entry at an index.
fn verdicts_at(
    alloc: Global,
    entries: &Entries,
    positions: &Positions,
    i: usize,
) -> Result<Verdicts, AllocError>
    requires { IsIndex entries.now.held.items (get addr_cmp positions.now) }
    ensures { (f : Frame) (v : Volume) (root file_set : Addr) (links ids : List ℕ) → AreSurveyed f v root file_set entries.now links ids
        → IfOk result (λ verdicts. IsJudged f v entries.now.held.items i verdicts.entries) }
{
    if i >= entries.held.len() {
        return Ok(BTreeMap::new(alloc));
    }
    let entry = &entries.held[i];
    let verdicts = verdicts_of(alloc, &entries.held, positions, &entries.selected, entry)?;
    Ok(verdicts)
}

// The same of those at some indexes, in order.
fn verdicts_by(
    alloc: Global,
    entries: &Entries,
    positions: &Positions,
    indexes: &[usize],
) -> Result<Vec<Verdicts>, AllocError>
    requires { IsIndex entries.now.held.items (get addr_cmp positions.now) }
    ensures many { IfOk result (λ verdicts. length verdicts.items ≡ length indexes.now) }
    ensures verdicts { (f : Frame) (v : Volume) (root file_set : Addr) (links ids : List ℕ) → AreSurveyed f v root file_set entries.now links ids
        → IfOk result (λ verdicts. AreJudged f v entries.now.held.items indexes.now (entries_of verdicts.items)) }
{
    let mut verdicts = Vec::new(alloc);
    for index in indexes {
        verdicts.push(verdicts_at(alloc, entries, positions, *index)?)?;
    }
    Ok(verdicts)
}

/// What is judged of the links of the found entries at these indexes, in order. Takes n log n in the entries and their links.
pub(crate) fn judge_all(
    alloc: Global,
    entries: &Entries,
    indexes: &[usize],
) -> Result<Vec<Verdicts>, AllocError>
    ensures many { IfOk result (λ verdicts. length verdicts.items ≡ length indexes.now) }
    ensures verdicts { (f : Frame) (v : Volume) (root file_set : Addr) (links ids : List ℕ) → AreSurveyed f v root file_set entries.now links ids
        → IfOk result (λ verdicts. AreJudged f v entries.now.held.items indexes.now (entries_of verdicts.items)) }
{
    let positions = positions_of(alloc, &entries.held)?;
    verdicts_by(alloc, entries, &positions, indexes)
}
