//! The rules on the files of a volume with the mends of all its kept entries and of its file set: the same entries are kept, each states
//! what was wanted of it, and no rule on files is broken. The code of this crate is laws alone: functions with an empty body whose
//! contract says what such a disk reads as. It stands on the laws on mends and on those on counts.
#![tactic(auto)]

ghost use Rattle.std.specs.Prelude.{◌≡◌, ℕ, List, None, Option, Some, false, length, true};
ghost use Rattle.udf_field.specs.declared.address.Addr.{Addr};
ghost use Rattle.udf_field.specs.declared.address.Short.{Short};
ghost use Rattle.udf_field.specs.declared.address.Span.{Span};
ghost use Rattle.udf_file_model.specs.Address.{addr};
ghost use Rattle.udf_model.specs.Tag.{id_at};
ghost use Rattle.udf_file_model.specs.Content.{block_at};
ghost use Rattle.udf_file_model.specs.CutEntry.{AreBytes};
ghost use Rattle.udf_file_model.specs.Front.{blocks_for};
ghost use Rattle.udf_file_model.specs.Entry.{Entry};
ghost use Rattle.udf_file_model.specs.Listing.{Volume, with_disk};
ghost use Rattle.udf_tree_model.specs.Claimed.{is_free, list_stays};
ghost use Rattle.udf_tree_model.specs.Content.{content_stays, kept_content, mended_content};
ghost use Rattle.udf_tree_model.specs.Counts.{is_kept_directory};
ghost use Rattle.udf_tree_model.specs.Frame.{Frame, entry_at, is_holder};
ghost use Rattle.udf_tree_model.specs.Ordinary.{is_kept_entry};
ghost use Rattle.udf_tree_model.specs.Refused.{refusal as file_refusal};
ghost use Rattle.udf_volume_model.specs.FileSet.{refusal};
ghost use Rattle.udf_file_mends.specs.FileSet.{frame_after, loses_system};
ghost use Rattle.udf_file_mends.specs.Repairable.{IsRepairable};
ghost use Rattle.udf_volume.specs.declared.volume.Volume.{Volume as FoundVolume};
ghost use Rattle.udf_rules_model.specs.Files.{files_in, frame_in, site_in};
ghost use Rattle.udf_rules_model.specs.FileRules.{allocation_rule, content_rule, count_rule, identifier_rule, names_rule, targets_rule};
ghost use Rattle.udf_rules_model.specs.Bitmap.{bitmap_holds};
ghost use Rattle.udf_rules_model.specs.Integrity.{integrity_holds};
ghost use Rattle.udf_space_mends.specs.BitmapMend.{IsBitmapPlaced, bitmap_edits};
ghost use Rattle.udf_space_mends.specs.IntegrityMend.{CountsFit, HasExtentEdits, IsExtentPlaced, Origin, integrity_edits};
ghost use Rattle.udf_space_mends.specs.Spread.{HasEdits};
ghost use Rattle.udf_count_laws.specs.Alike.{AreAlike, StatesWanted};
ghost use Rattle.udf_mended_rules.specs.AllMends.{HasAllMends};

/// Where a volume is not refused for its file set, and that holds a pointer to the system stream directory, its descriptor stands whole,
/// as the laws below ask.
pub fn file_set_law()
    ensures stands { (volume : FoundVolume) (image : List ℕ) → refusal (site_in volume image) ≡ None → (a : Addr)
        → is_holder (frame_in volume image) (files_in volume image) a ≡ true → id_at a.block (block_at (files_in volume image) a) ≡ Some 256 }
{}

/// A volume with the mends of all its kept entries, and of its file set, is alike to the volume before, each kept entry states there what
/// was wanted of it and has a link, and the same blocks are free. It is not refused for its files, and where its blocks are whole it can
/// be mended again.
pub fn mended_law()
    ensures alike { (f : Frame) (v : Volume) (disk : ℕ → List ℕ) → HasAllMends f v disk → AreAlike f (frame_after f v) v (with_disk v disk) }
    ensures stated { (f : Frame) (v : Volume) (disk : ℕ → List ℕ) → HasAllMends f v disk → StatesWanted f v (with_disk v disk) }
    ensures free { (f : Frame) (v : Volume) (disk : ℕ → List ℕ) → HasAllMends f v disk → (x : Addr)
        → is_free (frame_after f v) (with_disk v disk) x ≡ is_free f v x }
    ensures accepted { (f : Frame) (v : Volume) (disk : ℕ → List ℕ) → HasAllMends f v disk
        → file_refusal (frame_after f v) (with_disk v disk) ≡ None }
    ensures again { (f : Frame) (v : Volume) (disk : ℕ → List ℕ) → HasAllMends f v disk → AreBytes disk
        → ((x : Addr) (n : ℕ) → v.place x ≡ Some n → length (disk n) ≡ v.size) → IsRepairable (frame_after f v) (with_disk v disk) }
{}

/// Such a volume breaks no rule on files, and of the file set's pointer to the system stream directory nothing is left to mend.
pub fn unbroken_law()
    ensures targets { (f : Frame) (v : Volume) (disk : ℕ → List ℕ) → HasAllMends f v disk
        → targets_rule (frame_after f v) (with_disk v disk) ≡ true }
    ensures allocation { (f : Frame) (v : Volume) (disk : ℕ → List ℕ) → HasAllMends f v disk
        → allocation_rule (frame_after f v) (with_disk v disk) ≡ true }
    ensures contents { (f : Frame) (v : Volume) (disk : ℕ → List ℕ) → HasAllMends f v disk
        → content_rule (frame_after f v) (with_disk v disk) ≡ true }
    ensures names { (f : Frame) (v : Volume) (disk : ℕ → List ℕ) → HasAllMends f v disk
        → names_rule (frame_after f v) (with_disk v disk) ≡ true }
    ensures counts { (f : Frame) (v : Volume) (disk : ℕ → List ℕ) → HasAllMends f v disk
        → count_rule (frame_after f v) (with_disk v disk) ≡ true }
    ensures identifiers { (f : Frame) (v : Volume) (disk : ℕ → List ℕ) → HasAllMends f v disk
        → identifier_rule (frame_after f v) (with_disk v disk) ≡ true }
    ensures selected { (f : Frame) (v : Volume) (disk : ℕ → List ℕ) → HasAllMends f v disk
        → loses_system (frame_after f v) (with_disk v disk) ≡ false }
{}

/// Each kept directory of such a volume has its mended content, and a further mend would leave that, and the list of each kept entry, as
/// they are.
pub fn stays_law()
    ensures reads { (f : Frame) (v : Volume) (disk : ℕ → List ℕ) → HasAllMends f v disk → (d : Addr) → is_kept_directory f v d ≡ true
        → kept_content (frame_after f v) (with_disk v disk) d ≡ mended_content f v d }
    ensures contents { (f : Frame) (v : Volume) (disk : ℕ → List ℕ) → HasAllMends f v disk → (d : Addr) → is_kept_directory f v d ≡ true
        → content_stays (frame_after f v) (with_disk v disk) d ≡ true }
    ensures lists { (f : Frame) (v : Volume) (disk : ℕ → List ℕ) → HasAllMends f v disk → (a : Addr) (e : Entry)
        → is_kept_entry f v a ≡ true → entry_at (with_disk v disk) a ≡ Some e → list_stays (frame_after f v) (with_disk v disk) a e ≡ true }
{}

/// Where such a disk has the mended bitmap and the mended integrity descriptor too, the rules on the space bitmap and on integrity hold.
pub fn space_law()
    ensures bitmap { (f : Frame) (v : Volume) (disk : ℕ → List ℕ) → HasAllMends f v disk → (logical : List ℕ) (blocks : ℕ) (extent : Short)
        → IsBitmapPlaced v blocks extent
        → HasEdits v (addr 0 extent.block) (blocks_for v.size extent.length) (bitmap_edits f v logical blocks (Some extent)) disk
        → bitmap_holds (frame_after f v) (with_disk v disk) blocks extent ≡ true }
    ensures integrity { (f : Frame) (v : Volume) (disk : ℕ → List ℕ) → HasAllMends f v disk → (blocks : ℕ) (bitmap : Option Short)
        (origin : Origin) (extent : Span) → CountsFit f v blocks origin → IsExtentPlaced v extent
        → HasExtentEdits v extent (integrity_edits f v blocks bitmap origin extent) disk
        → integrity_holds (frame_after f v) (with_disk v disk) blocks bitmap extent ≡ true }
{}
