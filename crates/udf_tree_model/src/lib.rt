//! Which files a volume has, what they own, and what of them is kept: definitions over the nodes that are read of a volume, in the
//! terms of ECMA-167 part 4. The code of this crate is laws alone: functions with an empty body whose contract says what the
//! definitions mean. It stands on the definitions of files.
#![tactic(auto)]

ghost use Rattle.std.specs.Prelude.{◌≡◌, ◌≢◌, ◌<◌, ◌≤◌, ◌↔◌, ◌⊎◌, ◌∷◌, ℕ, List, AllPairs, Contains, Some, None, true, false, length};
ghost use Rattle.udf_field.specs.declared.address.Addr.{Addr};
ghost use Rattle.udf_file_model.specs.Address.{same_addr};
ghost use Rattle.udf_file_model.specs.Listing.{Volume, addresses, good_length as entry_length, is_placed, list_for, with_disk};
ghost use Rattle.udf_file_model.specs.Entry.{Entry};
ghost use Rattle.udf_tree_model.specs.Stated.{IsFileSetPlaced, taken};
ghost use Rattle.udf_tree_model.specs.Refused.{refusal};
ghost use Rattle.udf_tree_model.specs.Node.{Item, Setting, Tree, good_length, node_at, readable, wants};
ghost use Rattle.udf_tree_model.specs.Rounds.{IsLeastClosed, IsShortest, in_round};
ghost use Rattle.udf_tree_model.specs.Found.{found, found_graph, level};
ghost use Rattle.udf_tree_model.specs.Frame.{Frame, entry_at, is_address, is_holder, node_with, setting_of, tree_of};
ghost use Rattle.udf_tree_model.specs.Laws.{FallAway, HasSoundStarts, IsOffer, IsWithin, KeepsBy, PlacesDiffer, SameSought, SameSurvey, SameWant};
ghost use Rattle.udf_tree_model.specs.Link.{Link, target_of};
ghost use Rattle.udf_tree_model.specs.Chosen.{Rank, chosen, comes_before, fitted, rank_of};
ghost use Rattle.udf_tree_model.specs.Reads.{HasSameReads};
ghost use Rattle.udf_tree_model.specs.Mended.{IsMended, IsSettled};
ghost use Rattle.udf_tree_model.specs.Intact.{IsIntactPath, LeadsAlike};
ghost use Rattle.udf_tree_model.specs.Kept.{depth, kept, kept_graph};
ghost use Rattle.udf_tree_model.specs.Parent.{keeping, keeping_rank, parent};
ghost use Rattle.udf_tree_model.specs.Ordinary.{is_kept_entry, kept_entries};
ghost use Rattle.udf_tree_model.specs.Climb.{IsDistance, IsNearer};
ghost use Rattle.udf_tree_model.specs.Won.{IsFree, IsUnrivalled, IsWant, kept_length, sound, wins};

/// What is found is the least set that has each readable start, and with an entry the readable targets of its links; rounds
/// beyond as many as there are places add nothing, and the level is the length of a shortest way from a start. The places of
/// a volume have each of its readable entries.
pub fn found_law()
    ensures least { (s : Setting) (t : Tree) → IsWithin s t → IsLeastClosed (found_graph s t) (found s t) }
    ensures full { (s : Setting) (t : Tree) → IsWithin s t → (k : ℕ) (a : Addr) → in_round (found_graph s t) k a ≡ true
        → found s t a ≡ true }
    ensures readable { (s : Setting) (t : Tree) → IsWithin s t → (a : Addr) → found s t a ≡ true → readable t a ≡ true }
    ensures level { (s : Setting) (t : Tree) → IsWithin s t → (a : Addr) → found s t a ≡ true
        → IsShortest (found_graph s t) a (level s t a) }
    ensures within { (f : Frame) (v : Volume) → IsWithin (setting_of f v) (tree_of f v) }
    ensures placed { (f : Frame) (v : Volume) (a : Addr) → readable (tree_of f v) a ≡ true
        → (is_address a ≡ true) × (is_placed v a ≡ true) }
{}

/// But for the file set, where it names a system stream directory, the node of a readable entry is what its block tells: it
/// takes the block and the addresses of its list, each once, and its good length is that of the list. Where the volume is not
/// refused each start is a sound directory.
pub fn volume_law()
    ensures node { (f : Frame) (v : Volume) (a : Addr) (e : Entry) → entry_at v a ≡ Some e → is_holder f v a ≡ false
        → tree_of f v a ≡ Some (node_with f v a e (list_for v a e)) }
    ensures taken { (f : Frame) (v : Volume) (a : Addr) (e : Entry) → entry_at v a ≡ Some e → is_holder f v a ≡ false
        → 0 < v.size → taken (wants (tree_of f v) a) ≡ a ∷ addresses v.size (list_for v a e) }
    ensures once { (f : Frame) (v : Volume) (a : Addr) (e : Entry) → entry_at v a ≡ Some e → is_holder f v a ≡ false
        → 0 < v.size → AllPairs (λ x y. x ≢ y) (taken (wants (tree_of f v) a)) }
    ensures length { (f : Frame) (v : Volume) (a : Addr) (e : Entry) → entry_at v a ≡ Some e → is_holder f v a ≡ false
        → 0 < v.size → good_length (tree_of f v) a ≡ entry_length v a e }
    ensures starts { (f : Frame) (v : Volume) → refusal f v ≡ None → IsFileSetPlaced f v
        → HasSoundStarts (setting_of f v) (tree_of f v) }
{}

/// An entry wins what it wants exactly where the address is not fixed, nothing bars the want, no want of that address has a
/// lower class and no other found entry has one of that class. So an address has one winner, and what was won stays won where
/// competitors fall away. Of its content an entry keeps no more than the good length, and all of that where it wins its list.
pub fn claims_law()
    ensures exactly { (s : Setting) (t : Tree) → IsWithin s t → (a : Addr) (i : Item)
        → (wins s t a i ≡ true) ↔ (IsFree s i × IsUnrivalled s t a i) }
    ensures one { (s : Setting) (t : Tree) → IsWithin s t → (a b : Addr) (i j : Item) → IsWant s t a i → IsWant s t b j
        → i.at ≡ j.at → wins s t a i ≡ true → wins s t b j ≡ true → a ≡ b }
    ensures stays { (s : Setting) (t u : Tree) → IsWithin s t → FallAway s t u → (a : Addr) (i x : Item) → SameWant i x
        → wins s t a x ≡ true → wins s u a i ≡ true }
    ensures within { (s : Setting) (t : Tree) (a : Addr) → kept_length s t a ≤ good_length t a }
    ensures whole { (s : Setting) (t : Tree) (a : Addr)
        → ((i : Item) → Contains (node_at t a).list i → i.takes ≡ true → wins s t a i ≡ true) → kept_length s t a ≡ good_length t a }
{}

/// The chosen link to an address is the first of all links to it that sound entries have under names of their own, and there is
/// none only where no such link is.
pub fn chosen_law()
    ensures offer { (s : Setting) (t : Tree) (a : Addr) (x : Rank) → chosen s t a ≡ Some x
        → (d : Addr) × (f : Link) × IsOffer s t a d f × (x ≡ rank_of s t d f) }
    ensures first { (s : Setting) (t : Tree) → IsWithin s t → (a : Addr) (x : Rank) → chosen s t a ≡ Some x
        → (d : Addr) (f : Link) → IsOffer s t a d f → comes_before (rank_of s t d f) x ≡ false }
    ensures none { (s : Setting) (t : Tree) → IsWithin s t → (a : Addr) → chosen s t a ≡ None
        → (d : Addr) (f : Link) → IsOffer s t a d f → ⊥ }
{}

/// Where each start is a sound directory, what is kept is the least set that has the starts and the targets of the fitted links
/// of its entries; each of it is sound, so found. The fitted link to a kept directory is its chosen one, and no other; none leads
/// to a start. The depth is the length of a shortest way.
pub fn kept_law()
    ensures least { (s : Setting) (t : Tree) → IsWithin s t → HasSoundStarts s t → IsLeastClosed (kept_graph s t) (kept s t) }
    ensures depth { (s : Setting) (t : Tree) → IsWithin s t → HasSoundStarts s t → (a : Addr) → kept s t a ≡ true
        → IsShortest (kept_graph s t) a (depth s t a) }
    ensures sound { (s : Setting) (t : Tree) → IsWithin s t → HasSoundStarts s t → (a : Addr) → kept s t a ≡ true
        → sound s t a ≡ true }
    ensures found { (s : Setting) (t : Tree) → IsWithin s t → HasSoundStarts s t → (a : Addr) → kept s t a ≡ true
        → found s t a ≡ true }
    ensures by { (s : Setting) (t : Tree) → IsWithin s t → HasSoundStarts s t → (a : Addr) → kept s t a ≡ true
        → (s.start a ≡ true) ⊎ ((d : Addr) × (f : Link) × KeepsBy s t a d f) }
    ensures chosen { (s : Setting) (t : Tree) (a d : Addr) (f : Link) → KeepsBy s t a d f → (node_at t a).directory ≡ true
        → chosen s t a ≡ Some (rank_of s t d f) }
    ensures one { (s : Setting) (t : Tree) → PlacesDiffer t → (a d e : Addr) (f g : Link) → KeepsBy s t a d f → KeepsBy s t a e g
        → (node_at t a).directory ≡ true → (d ≡ e) × (f ≡ g) }
    ensures starts { (s : Setting) (t : Tree) → HasSoundStarts s t → (a d : Addr) (f : Link) → KeepsBy s t a d f
        → s.start a ≡ false }
    ensures differ { (f : Frame) (v : Volume) → PlacesDiffer (tree_of f v) }
{}

/// The link that keeps an entry, whose holder is its parent, is the first of all fitted links by which kept entries lead to it, and
/// there is none only where no such link is. To a directory there is one such link.
pub fn parent_law()
    ensures by { (s : Setting) (t : Tree) (a : Addr) (x : Rank) → keeping s t a ≡ Some x
        → (d : Addr) × (f : Link) × KeepsBy s t a d f × (x ≡ keeping_rank s t d f) }
    ensures first { (s : Setting) (t : Tree) → IsWithin s t → HasSoundStarts s t → (a : Addr) (x : Rank) → keeping s t a ≡ Some x
        → (d : Addr) (f : Link) → KeepsBy s t a d f → comes_before (keeping_rank s t d f) x ≡ false }
    ensures none { (s : Setting) (t : Tree) → IsWithin s t → HasSoundStarts s t → (a : Addr) → keeping s t a ≡ None
        → (d : Addr) (f : Link) → KeepsBy s t a d f → ⊥ }
    ensures directory { (s : Setting) (t : Tree) → IsWithin s t → HasSoundStarts s t → PlacesDiffer t → (a d : Addr) (f : Link)
        → KeepsBy s t a d f → (node_at t a).directory ≡ true → keeping s t a ≡ Some (keeping_rank s t d f) }
{}

/// From each kept entry parents lead up to the root: the parent of another than the root is the root, or a kept entry of less
/// depth. That takes no more steps than the depth, where the file set stands in the volume, and fewer than there are kept entries.
/// Where no entry stands at the file set it takes exactly as many: parents go a shortest way.
pub fn climb_law()
    ensures up { (f : Frame) (v : Volume) (a : Addr) → is_kept_entry f v a ≡ true → same_addr a f.root ≡ false
        → (parent f v a ≡ f.root) ⊎ IsNearer f v a (parent f v a) }
    ensures distance { (f : Frame) (v : Volume) (a : Addr) → is_kept_entry f v a ≡ true → (k : ℕ) × IsDistance f v a k }
    ensures depth { (f : Frame) (v : Volume) → IsFileSetPlaced f v → (a : Addr) → is_kept_entry f v a ≡ true → (k : ℕ)
        → IsDistance f v a k → k ≤ depth (setting_of f v) (tree_of f v) a }
    ensures few { (f : Frame) (v : Volume) → refusal f v ≡ None → IsFileSetPlaced f v → is_kept_entry f v f.root ≡ true → (a : Addr)
        → is_kept_entry f v a ≡ true → (k : ℕ) → IsDistance f v a k → k < length (kept_entries f v) }
    ensures shortest { (f : Frame) (v : Volume) → refusal f v ≡ None → IsFileSetPlaced f v → entry_at v f.file_set ≡ None → (a : Addr)
        → is_kept_entry f v a ≡ true → IsDistance f v a (depth (setting_of f v) (tree_of f v) a) }
{}

/// What is found and kept rests on the blocks of the addresses at which entries are sought, of the allocation extents of found
/// entries and of the contents of found directories: another disk that has the same there, and no whole allocation extent
/// where there is none, tells the same. Contents of files are not read.
pub fn reads_law()
    ensures trees { (s : Setting) (t u : Tree) → IsWithin s t → SameSought s t u → SameSurvey s t u }
    ensures disks { (f : Frame) (v : Volume) (disk : ℕ → List ℕ) → HasSameReads f v disk
        → SameSurvey (setting_of f v) (tree_of f v) (tree_of f (with_disk v disk)) }
{}

/// In a tree that has each kept entry mended, and whatever else, what is found is what was kept, and it is kept as it stands: it
/// wins all that it wants, each of its links is selected and fits, and no rule on links is broken. Such a tree is its own mend.
/// A path from a kept entry that no damage touches leads to the same entry before and after.
pub fn files_law()
    ensures settled { (s : Setting) (t u : Tree) → IsMended s t u → IsSettled s t u }
    ensures again { (s : Setting) (t u : Tree) → IsMended s t u → PlacesDiffer u → IsMended s u u }
    ensures paths { (s : Setting) (t u : Tree) → IsMended s t u → (names : List (List ℕ)) (a : Addr) → kept s t a ≡ true
        → IsIntactPath s t a names → LeadsAlike s t u a names }
{}
