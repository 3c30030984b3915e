//! The image of a volume and its files with each structure that breaks a rule mended: which images a repair of all rules accepts, and
//! what it makes of them. Towards the layers above: `repair_law` says that a repair makes of an accepted image one that is accepted,
//! breaks no rule, and stays as it is in a second repair; and which blocks it differs in. The code of this crate is laws alone. It
//! stands on the laws of volumes, on those of the mends of files and of space, and on the refusals of files.
#![tactic(auto)]

ghost use Rattle.std.specs.Prelude.{◌≡◌, ◌≤◌, ◌++◌, ℕ, List, [], Ok, Option, Some, length, true, false};
ghost use Rattle.udf_model.specs.Bytes.{IsBytes};
ghost use Rattle.udf_model.specs.Image.{block_of, blocks_in};
ghost use Rattle.udf_model.specs.Size.{is_size};
ghost use Rattle.udf_volume_model.specs.Edits.{look};
ghost use Rattle.udf_volume_model.specs.Kept.{KeptSequence, kept_sequence_of};
ghost use Rattle.udf_volume_model.specs.Mended.{edits};
ghost use Rattle.udf_volume_model.specs.Opened.{difference};
ghost use Rattle.udf_volume_model.specs.Plans.{IsRewrite};
ghost use Rattle.udf_volume_model.specs.Size.{size_of};
ghost use Rattle.udf_rules_model.specs.Places.{place_of};
ghost use Rattle.udf_volume.specs.declared.volume.Volume.{Volume};
ghost use Rattle.udf_mended_image.specs.Accepted.{is_accepted, is_unbroken, mend, mended, repairing};
ghost use Rattle.udf_mended_image.specs.Further.{further_edits};

/// Of an image of bytes, at a block size of the profile: a repair makes of an accepted image one that is accepted and breaks no rule, and
/// a second repair leaves what the first made. It differs at most in whole blocks: not at all where no rule is broken, and somewhere
/// where an accepted image breaks one. The block size that is given or found is the same in both.
pub fn repair_law()
    ensures accepted { (size : ℕ) (image : List ℕ) → is_size size ≡ true → IsBytes image → is_accepted size image ≡ true
        → is_accepted size (mend size image) ≡ true }
    ensures unbroken { (size : ℕ) (image : List ℕ) → is_size size ≡ true → IsBytes image → is_accepted size image ≡ true
        → is_unbroken size (mend size image) ≡ true }
    ensures again { (size : ℕ) (image : List ℕ) → is_size size ≡ true → IsBytes image → mend size (mend size image) ≡ mend size image }
    ensures still { (size : ℕ) (image : List ℕ) → is_unbroken size image ≡ true → mend size image ≡ image }
    ensures rewrites { (size : ℕ) (image : List ℕ) → is_size size ≡ true → IsBytes image → IsRewrite size image (mend size image) }
    ensures differs { (size : ℕ) (image : List ℕ) → is_size size ≡ true → IsBytes image → is_accepted size image ≡ true
        → is_unbroken size image ≡ false → 1 ≤ length (difference size image (mend size image)) }
    ensures alike { (size : ℕ) (image : List ℕ) → is_unbroken size image ≡ true → difference size image (mend size image) ≡ [] }
    ensures size { (given : Option ℕ) (size : ℕ) (image : List ℕ) → is_size size ≡ true → IsBytes image → size_of given image ≡ Some size
        → size_of given (mend size image) ≡ Some size }
{}

/// A repair leaves each block of the partition at its sector: of a physical volume in the partition, of a sparable one also in the
/// packets to which its sparing table maps.
pub fn places_law()
    ensures { (size : ℕ) (image : List ℕ) → is_size size ≡ true → IsBytes image → place_of size (mend size image) ≡ place_of size image }
{}

/// The blocks of the mended image of an accepted one: of the edits of the further rules the first at a sector, else of those of anchors,
/// sequences and sparing tables, else the one that was there.
pub fn blocks_law()
    ensures { (size : ℕ) (image : List ℕ) (volume : Volume) (sequence : KeptSequence) (n : ℕ) → is_size size ≡ true → IsBytes image
        → repairing size image ≡ Ok volume → kept_sequence_of size image ≡ Some sequence
        → block_of size (mended size image) n
        ≡ look n (further_edits volume image ++ edits size (blocks_in size image) (block_of size image) sequence) (block_of size image n) }
{}
