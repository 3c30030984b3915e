// The parents of kept entries, and which of these are stream directories.
ghost use Rattle.std.specs.Prelude.{◌≡◌, ℕ, true, List, Option};
ghost use Rattle.udf_file_model.specs.Listing.{Volume};
ghost use Rattle.udf_tree_model.specs.Chosen.{Rank};
ghost use Rattle.udf_tree_model.specs.Frame.{Frame, setting_of, tree_of};
ghost use Rattle.udf_tree_model.specs.Kept.{kept};
ghost use Rattle.udf_tree_model.specs.Node.{Setting, Tree, node_at};
ghost use Rattle.udf_tree_model.specs.Parent.{is_stream_directory, parent};
ghost use Rattle.udf_held.specs.declared.held.Held.{Held};
ghost use Rattle.udf_kept.specs.Fitted.{IsChoice, IsSelected, at_of};
ghost use Rattle.udf_kept.specs.Keeping.{IsKeptBy};
ghost use Rattle.udf_kept.specs.Selects.{is_rank_at};

use udf_field::Addr;
use udf_held::Held;
use udf_kept::{Choice, Keeping, Selected};

/// The address of the entry at an index, where there is one.
pub fn address_at(held: &[Held], i: usize) -> Option<Addr>
    ensures { result ≡ at_of held.now i }
{
    if i < held.len() {
        Some(held[i].at)
    } else {
        None
    }
}

/// Whether a chosen link is that of a holder at a place.
pub fn is_link(held: &[Held], choice: Option<Choice>, holder: Addr, place: u64) -> bool
    ensures { (level : Held → ℕ) (rank : Option Rank) → IsChoice held.now level rank choice → result ≡ is_rank_at holder place rank }
{
    let Some(choice) = choice else {
        return false;
    };
    let Some(at) = address_at(held, choice.holder) else {
        return false;
    };
    at == holder && choice.place == place
}

/// The parent of a kept entry: the holder of the link that keeps it. The root's is the root, and the root stands for the file set,
/// which holds the pointer to the system stream directory.
pub fn parent_of(held: &[Held], root: Addr, file_set: Addr, entry: &Held, keeping: Keeping) -> Addr
    ensures { (f : Frame) (v : Volume) → f.root ≡ root → f.file_set ≡ file_set
        → IsKeptBy (setting_of f v) (tree_of f v) held.now entry.now keeping → result ≡ parent f v entry.now.at }
{
    if entry.at == root {
        return root;
    }
    let Some(choice) = keeping.by else {
        return root;
    };
    let Some(holder) = address_at(held, choice.holder) else {
        return root;
    };
    if holder == file_set { root } else { holder }
}

/// Whether a kept entry is a stream directory: the chosen link to it is a pointer.
pub fn is_stream_directory(entry: &Held, selected: &Selected) -> bool
    ensures { (s : Setting) (t : Tree) (hs : List Held) → IsSelected s t hs entry.now selected.now → kept s t entry.now.at ≡ true
        → entry.now.directory ≡ (node_at t entry.now.at).directory → result ≡ is_stream_directory s t entry.now.at }
{
    if !entry.directory {
        return false;
    }
    match selected.chosen {
        Some(choice) => choice.place == 0,
        None => false,
    }
}
