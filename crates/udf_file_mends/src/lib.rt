//! What a repair makes of the entries that a volume keeps: the blocks of entries, of allocation extents and of the contents of directories
//! after their mends, in the terms of ECMA-167 part 4. The code of this crate is laws alone: functions with an empty body whose contract
//! says what a disk with these blocks reads as. It stands on the definitions of files and of what is kept of them.
#![tactic(auto)]

ghost use Rattle.std.specs.Prelude.{◌≡◌, ◌≤◌, ◌↔◌, ℕ, List, Contains, Some, None, length, min, true, false};
ghost use Rattle.udf_field.specs.declared.address.Addr.{Addr};
ghost use Rattle.udf_file_model.specs.Content.{block_at, content};
ghost use Rattle.udf_file_model.specs.CutEntry.{AreBytes};
ghost use Rattle.udf_file_model.specs.Entry.{Entry, is_directory};
ghost use Rattle.udf_file_model.specs.Pieces.{runs_of};
ghost use Rattle.udf_file_model.specs.Listing.{Volume, good_length, is_good_for, list_for, with_disk};
ghost use Rattle.udf_tree_model.specs.Claimed.{claims, mended_list};
ghost use Rattle.udf_tree_model.specs.Content.{content_holds, mended_content};
ghost use Rattle.udf_tree_model.specs.Frame.{Frame, capacity, content_to, entry_at, is_holder, setting_of, tree_of};
ghost use Rattle.udf_tree_model.specs.Mended.{IsMended, IsMendedAt};
ghost use Rattle.udf_tree_model.specs.Node.{wants};
ghost use Rattle.udf_tree_model.specs.Stated.{taken};
ghost use Rattle.udf_tree_model.specs.Ordinary.{is_kept_entry};
ghost use Rattle.udf_tree_model.specs.Won.{kept_length};
ghost use Rattle.udf_tree_model.specs.Refused.{refusal};
ghost use Rattle.udf_tree_model.specs.Parent.{is_stream_directory, parent};
ghost use Rattle.udf_file_mends.specs.Mends.{HasMendOf, mended_disk};
ghost use Rattle.udf_file_mends.specs.Repairable.{IsKeptDirectory, IsMendOn, IsPointerSelected, IsRepairable};
ghost use Rattle.udf_file_mends.specs.Wanted.{entry_after};

/// The mended content of a kept directory breaks no rule on contents, and the directory keeps, and has room for, as many bytes.
pub fn content_law()
    ensures holds { (f : Frame) (v : Volume) (a : Addr) (e : Entry) → IsKeptDirectory f v a e
        → content_holds v.size (is_stream_directory (setting_of f v) (tree_of f v) a) (parent f v a) (mended_content f v a) ≡ true }
    ensures kept { (f : Frame) (v : Volume) (a : Addr) (e : Entry) → IsKeptDirectory f v a e
        → length (mended_content f v a) ≤ kept_length (setting_of f v) (tree_of f v) a }
    ensures fits { (f : Frame) (v : Volume) (a : Addr) (e : Entry) → IsKeptDirectory f v a e
        → length (mended_content f v a) ≤ capacity v.size e (list_for v a e) }
{}

/// A disk that has the mend of a kept entry has the mended entry there. It states what is wanted of it, its list is the one that the
/// mend leaves, nothing of which fails, and has the bytes of the information length. A directory holds its mended content, and a file
/// the bytes that it held, up to the information length. It takes the addresses that it claims.
pub fn node_law()
    ensures entry { (f : Frame) (v : Volume) (disk : ℕ → List ℕ) (a : Addr) (e : Entry) → IsMendOn f v disk a e
        → entry_at (with_disk v disk) a ≡ Some (entry_after f v a e) }
    ensures list { (f : Frame) (v : Volume) (disk : ℕ → List ℕ) (a : Addr) (e : Entry) → IsMendOn f v disk a e
        → (list_for (with_disk v disk) a (entry_after f v a e) ≡ mended_list f v a e)
        × (is_good_for (with_disk v disk) a (entry_after f v a e) ≡ true) }
    ensures content { (f : Frame) (v : Volume) (disk : ℕ → List ℕ) (a : Addr) (e : Entry) → IsMendOn f v disk a e → is_directory e ≡ true
        → content_to (with_disk v disk) (entry_after f v a e) (mended_list f v a e) (good_length (with_disk v disk) a (entry_after f v a e))
        ≡ mended_content f v a }
    ensures length { (f : Frame) (v : Volume) (disk : ℕ → List ℕ) (a : Addr) (e : Entry) → IsMendOn f v disk a e
        → (entry_after f v a e).information ≤ good_length (with_disk v disk) a (entry_after f v a e) }
    ensures data { (f : Frame) (v : Volume) (disk : ℕ → List ℕ) (a : Addr) (e : Entry) → IsMendOn f v disk a e → is_directory e ≡ false
        → (n : ℕ) → content (with_disk v disk) (entry_after f v a e) (runs_of (mended_list f v a e)) n
        ≡ content v e (runs_of (list_for v a e)) (min n (entry_after f v a e).information) }
    ensures takes { (f : Frame) (v : Volume) (disk : ℕ → List ℕ) (a : Addr) (e : Entry) → IsMendOn f v disk a e → (x : Addr)
        → (claims f v a x ≡ true) ↔ Contains (taken (wants (tree_of f (with_disk v disk)) a)) x }
    ensures mended { (f : Frame) (v : Volume) (disk : ℕ → List ℕ) (a : Addr) (e : Entry) → IsMendOn f v disk a e
        → IsMendedAt (setting_of f v) (tree_of f v) (tree_of f (with_disk v disk)) a }
{}

/// An address that a kept entry claims after its mend is not fixed, and no other kept entry claims it. So the disk with the mends of
/// all kept entries has each of them, and at a sector where no claimed address stands it has the block that was there; its blocks are
/// whole, and of bytes.
pub fn disk_law()
    ensures each { (f : Frame) (v : Volume) → IsRepairable f v → (a : Addr) → is_kept_entry f v a ≡ true → HasMendOf f v a (mended_disk f v) }
    ensures one { (f : Frame) (v : Volume) → IsRepairable f v → (a b x : Addr) → is_kept_entry f v a ≡ true → is_kept_entry f v b ≡ true
        → claims f v a x ≡ true → claims f v b x ≡ true → a ≡ b }
    ensures free { (f : Frame) (v : Volume) → IsRepairable f v → (a x : Addr) → is_kept_entry f v a ≡ true → claims f v a x ≡ true
        → f.fixed x ≡ false }
    ensures rest { (f : Frame) (v : Volume) → IsRepairable f v → (n : ℕ)
        → ((a x : Addr) → is_kept_entry f v a ≡ true → claims f v a x ≡ true → v.place x ≡ Some n → ⊥) → mended_disk f v n ≡ v.disk n }
    ensures whole { (f : Frame) (v : Volume) → IsRepairable f v → (x : Addr) (n : ℕ) → v.place x ≡ Some n
        → length (mended_disk f v n) ≡ v.size }
    ensures bytes { (f : Frame) (v : Volume) → IsRepairable f v → AreBytes (mended_disk f v) }
{}

/// The tree of a disk that has the mend of each kept entry has each of them mended, where the file set's pointer to the system stream
/// directory, if it has one, is selected; and where the block of such a file set stays, nothing of its files is refused. The volume
/// with all mends can be mended again.
pub fn tree_law()
    ensures mended { (f : Frame) (v : Volume) (disk : ℕ → List ℕ) → IsRepairable f v
        → ((a : Addr) → is_kept_entry f v a ≡ true → HasMendOf f v a disk) → IsPointerSelected f v
        → IsMended (setting_of f v) (tree_of f v) (tree_of f (with_disk v disk)) }
    ensures accepted { (f : Frame) (v : Volume) (disk : ℕ → List ℕ) → IsRepairable f v
        → ((a : Addr) → is_kept_entry f v a ≡ true → HasMendOf f v a disk) → IsPointerSelected f v
        → ((a : Addr) → is_holder f v a ≡ true → block_at (with_disk v disk) a ≡ block_at v a)
        → refusal f (with_disk v disk) ≡ None }
    ensures again { (f : Frame) (v : Volume) → IsRepairable f v → IsPointerSelected f v → f.fixed f.file_set ≡ true
        → IsRepairable f (with_disk v (mended_disk f v)) }
{}
