//! What the mends of the rules on the recognition sequence, on the space bitmap and on integrity write, as blocks at sectors. The code
//! of this crate is laws: that a volume which has these blocks, and otherwise counts the same, breaks none of the three rules, and
//! where the first are written. It stands on the definitions of the rules.
#![tactic(auto)]

ghost use Rattle.std.specs.Prelude.{◌≡◌, ◌<◌, ◌≤◌, ◌+◌, ◌^◌, ℕ, List, Option, Some, true, false};
ghost use Rattle.udf_model.specs.Size.{is_size};
ghost use Rattle.udf_volume_model.specs.Edits.{are_edits, is_off, look};
ghost use Rattle.udf_rules_model.specs.Recognition.{Recognition, is_untaken, recognition_holds};
ghost use Rattle.udf_field.specs.declared.address.Short.{Short};
ghost use Rattle.udf_file_model.specs.Address.{addr};
ghost use Rattle.udf_file_model.specs.Front.{blocks_for};
ghost use Rattle.udf_file_model.specs.Listing.{Volume, with_disk};
ghost use Rattle.udf_tree_model.specs.Claimed.{is_free};
ghost use Rattle.udf_tree_model.specs.Frame.{Frame};
ghost use Rattle.udf_rules_model.specs.Bitmap.{bitmap_holds};
ghost use Rattle.udf_space_mends.specs.BitmapMend.{IsBitmapPlaced, bitmap_edits};
ghost use Rattle.udf_field.specs.declared.address.Span.{Span};
ghost use Rattle.udf_rules_model.specs.Integrity.{integrity_holds};
ghost use Rattle.udf_space_mends.specs.IntegrityMend.{CountsFit, HasExtentEdits, IsExtentPlaced, Origin, SameCounts, integrity_edits};
ghost use Rattle.udf_space_mends.specs.Spread.{HasEdits};
ghost use Rattle.udf_space_mends.specs.SlotMend.{on_disk, recognition_edits};

/// With the mended slots the rule on the recognition sequence holds on every image that is as it was in all other sectors which the
/// volume does not take. They are whole blocks in the image, in sectors which the volume does not take.
pub fn recognition_mend_law()
    ensures holds { (r : Recognition) (partition : List ℕ) (disk : ℕ → List ℕ) → is_size r.size ≡ true
        → ((n : ℕ) → is_untaken r n ≡ true → disk n ≡ look n (recognition_edits r partition) (r.disk n))
        → recognition_holds (on_disk r disk) ≡ true }
    ensures edits { (r : Recognition) (partition : List ℕ) → is_size r.size ≡ true → are_edits r.size r.blocks (recognition_edits r partition) ≡ true }
    ensures untaken { (r : Recognition) (partition : List ℕ) (n : ℕ) → is_size r.size ≡ true → is_off n (recognition_edits r partition) ≡ false
        → is_untaken r n ≡ true }
{}

/// With the mended bitmap in its extent the rule on the space bitmap holds, where the same blocks are free.
pub fn bitmap_mend_law()
    ensures { (f g : Frame) (v : Volume) (logical : List ℕ) (blocks : ℕ) (extent : Short) (disk : ℕ → List ℕ) → IsBitmapPlaced v blocks extent
        → ((n : ℕ) → n < blocks → is_free g (with_disk v disk) (addr 0 n) ≡ is_free f v (addr 0 n))
        → HasEdits v (addr 0 extent.block) (blocks_for v.size extent.length) (bitmap_edits f v logical blocks (Some extent)) disk
        → bitmap_holds g (with_disk v disk) blocks extent ≡ true }
{}

/// With the mended descriptor in its extent the rule on integrity holds, where the same is counted.
pub fn integrity_mend_law()
    ensures { (f g : Frame) (v : Volume) (disk : ℕ → List ℕ) (blocks : ℕ) (bitmap : Option Short) (origin : Origin) (extent : Span) → CountsFit f v blocks origin
        → IsExtentPlaced v extent → SameCounts f g v (with_disk v disk) blocks → HasExtentEdits v extent (integrity_edits f v blocks bitmap origin extent) disk
        → integrity_holds g (with_disk v disk) blocks bitmap extent ≡ true }
{}
