//! The laws of volumes: what prevailing means, that findings come exactly where a rule is broken, and what the mends of
//! anchors, sequences and sparing tables keep and give. Each law is the contract of a function with an empty body. It
//! stands on the definitions of volumes; the layers above cite the laws through the same definitions.
#![tactic(auto)]

ghost use Rattle.std.specs.Prelude.{◌≡◌, ◌<◌, ◌≤◌, ℕ, List, [], Some, None, length, slice_get, true, false};
ghost use Rattle.std.specs.List.{list_any};
ghost use Rattle.udf_model.specs.Image.{block_of, blocks_in};
ghost use Rattle.udf_volume_model.specs.Sequence.{Descriptor};
ghost use Rattle.udf_volume_model.specs.Prevailing.{is_of, prevailing, prevailing_index, Prevails};
ghost use Rattle.udf_volume_model.specs.Size.{found_size};
ghost use Rattle.udf_volume_model.specs.Kept.{KeptSequence, kept_sequence_of};
ghost use Rattle.udf_volume_model.specs.Areas.{partition_area, covers, packets_of};
ghost use Rattle.udf_volume_model.specs.Layout.{is_lawful};
ghost use Rattle.udf_volume_model.specs.AllRules.{layout_in, findings, rules_hold};
ghost use Rattle.udf_volume_model.specs.Order.{Ascends};
ghost use Rattle.udf_volume_model.specs.Edits.{look, put_blocks, are_edits, is_off};
ghost use Rattle.udf_volume_model.specs.Mended.{edits};
ghost use Rattle.udf_volume_model.specs.Opened.{is_opened, volume_mended, is_volume_unbroken, difference, plan_of, is_sealed};
ghost use Rattle.udf_volume_model.specs.Same.{IsSameVolume, is_read, IsUnmoved};
ghost use Rattle.udf_volume_model.specs.Plans.{IsPlan, IsRewrite};

/// Of a kind and subject the descriptor prevails that has the highest sequence number, the earliest of equals; it is one,
/// and there is none only where the list has no descriptor of that kind and subject.
pub fn prevailing_law()
    ensures index { (kind : ℕ) (subject : List ℕ) (list : List Descriptor) (index : ℕ) (descriptor : Descriptor)
        → Prevails kind subject list index descriptor → prevailing_index kind subject list ≡ Some index }
    ensures descriptor { (kind : ℕ) (subject : List ℕ) (list : List Descriptor) (index : ℕ) (descriptor : Descriptor)
        → Prevails kind subject list index descriptor → prevailing kind subject list ≡ Some descriptor }
    ensures only_index { (kind : ℕ) (subject : List ℕ) (list : List Descriptor) (index : ℕ)
        → prevailing_index kind subject list ≡ Some index → (descriptor : Descriptor) × Prevails kind subject list index descriptor }
    ensures only { (kind : ℕ) (subject : List ℕ) (list : List Descriptor) (descriptor : Descriptor)
        → prevailing kind subject list ≡ Some descriptor → (index : ℕ) × Prevails kind subject list index descriptor }
    ensures unique { (kind : ℕ) (subject : List ℕ) (list : List Descriptor) (index other : ℕ) (a b : Descriptor)
        → Prevails kind subject list index a → Prevails kind subject list other b → (index ≡ other) × (a ≡ b) }
    ensures none { (kind : ℕ) (subject : List ℕ) (list : List Descriptor) → prevailing kind subject list ≡ None
        → (k : ℕ) (other : Descriptor) → slice_get list k ≡ Some other → is_of kind subject other ≡ false }
{}

/// Nothing is found exactly where no rule is broken, and findings stand in the order of rules, then of sectors. The order is
/// that of lawful areas: two sparing tables that are listed at one sector would be found there twice.
pub fn findings_law()
    ensures unbroken { (size blocks : ℕ) (disk : ℕ → List ℕ) (volume : KeptSequence) → rules_hold size blocks disk volume ≡ true
        → findings size blocks disk volume ≡ [] }
    ensures broken { (size blocks : ℕ) (disk : ℕ → List ℕ) (volume : KeptSequence) → findings size blocks disk volume ≡ []
        → rules_hold size blocks disk volume ≡ true }
    ensures order { (size blocks : ℕ) (disk : ℕ → List ℕ) (volume : KeptSequence) → is_lawful size blocks disk volume ≡ true
        → Ascends (findings size blocks disk volume) }
{}

/// Blocks that are put stand there, the first of a sector; every other block and the length stay.
pub fn edits_law()
    ensures same_length { (size : ℕ) (image : List ℕ) (edits : List (ℕ × List ℕ)) → are_edits size (blocks_in size image) edits ≡ true
        → length (put_blocks size edits image) ≡ length image }
    ensures blocks { (size : ℕ) (image : List ℕ) (edits : List (ℕ × List ℕ)) (n : ℕ) → are_edits size (blocks_in size image) edits ≡ true
        → block_of size (put_blocks size edits image) n ≡ look n edits (block_of size image n) }
    ensures off { (n : ℕ) (edits : List (ℕ × List ℕ)) (block : List ℕ) → is_off n edits ≡ true → look n edits block ≡ block }
{}

/// The mended image of one whose volume is opened has it opened, breaks no rule, and has the same volume, its layout and its
/// sparing table included, whose kept anchor stands where it stood or at an earlier place and whose kept sequence is the main
/// one; mending it again changes nothing. A broken rule makes a difference, and no broken rule none. The block size that is
/// found in the image is found in the mended one.
pub fn mend_law()
    ensures same_length { (size : ℕ) (image : List ℕ) → 512 ≤ size → length (volume_mended size image) ≡ length image }
    ensures opened { (size : ℕ) (image : List ℕ) → 512 ≤ size → is_opened size image ≡ true → is_opened size (volume_mended size image) ≡ true }
    ensures unbroken { (size : ℕ) (image : List ℕ) → 512 ≤ size → is_opened size image ≡ true
        → is_volume_unbroken size (volume_mended size image) ≡ true }
    ensures volume { (size : ℕ) (image : List ℕ) → 512 ≤ size → is_opened size image ≡ true
        → IsSameVolume size image (volume_mended size image) }
    ensures again { (size : ℕ) (image : List ℕ) → 512 ≤ size → volume_mended size (volume_mended size image) ≡ volume_mended size image }
    ensures still { (size : ℕ) (image : List ℕ) → is_volume_unbroken size image ≡ true → volume_mended size image ≡ image }
    ensures differs { (size : ℕ) (image : List ℕ) → 512 ≤ size → is_opened size image ≡ true
        → is_volume_unbroken size image ≡ false → 1 ≤ length (difference size image (volume_mended size image)) }
    ensures alike { (size : ℕ) (image : List ℕ) → is_volume_unbroken size image ≡ true → difference size image (volume_mended size image) ≡ [] }
    ensures size { (image : List ℕ) (size : ℕ) → found_size image ≡ Some size → is_opened size image ≡ true
        → found_size (volume_mended size image) ≡ Some size }
{}

/// What the mends write: the blocks of the edits, none of which is a block of the partition, one of a used packet, a sealed
/// one or one past the whole blocks of the image.
pub fn written_law()
    ensures blocks { (size : ℕ) (image : List ℕ) (volume : KeptSequence) (n : ℕ) → 512 ≤ size → is_opened size image ≡ true
        → kept_sequence_of size image ≡ Some volume
        → block_of size (volume_mended size image) n ≡ look n (edits size (blocks_in size image) (block_of size image) volume) (block_of size image n) }
    ensures partition { (size : ℕ) (image : List ℕ) (volume : KeptSequence) (n : ℕ) → 512 ≤ size → is_opened size image ≡ true
        → kept_sequence_of size image ≡ Some volume → covers (partition_area volume.list) n ≡ true
        → block_of size (volume_mended size image) n ≡ block_of size image n }
    ensures packets { (size : ℕ) (image : List ℕ) (volume : KeptSequence) (n : ℕ) → 512 ≤ size → is_opened size image ≡ true
        → kept_sequence_of size image ≡ Some volume
        → list_any (λ area. covers area n) (packets_of (layout_in size (block_of size image) volume).table) ≡ true
        → block_of size (volume_mended size image) n ≡ block_of size image n }
    ensures sealed { (size : ℕ) (image : List ℕ) (volume : KeptSequence) (n : ℕ) → 512 ≤ size → is_opened size image ≡ true
        → kept_sequence_of size image ≡ Some volume → is_sealed volume n ≡ true
        → block_of size (volume_mended size image) n ≡ block_of size image n }
    ensures past { (size : ℕ) (image : List ℕ) (n : ℕ) → 512 ≤ size → blocks_in size image ≤ n
        → block_of size (volume_mended size image) n ≡ block_of size image n }
{}

/// A volume, its refusals and its rules are read from the blocks of both sequence extents and of the sparing tables, and
/// from the places outside what it takes: an image that agrees there has the same, and so has the image with blocks put
/// elsewhere.
pub fn frame_law()
    ensures agree { (size : ℕ) (image other : List ℕ) (volume : KeptSequence) → 512 ≤ size → is_opened size image ≡ true
        → kept_sequence_of size image ≡ Some volume → length other ≡ length image
        → ((n : ℕ) → is_read size (blocks_in size image) (block_of size image) volume n ≡ true → block_of size other n ≡ block_of size image n)
        → IsUnmoved size image other }
    ensures elsewhere { (size : ℕ) (image : List ℕ) (volume : KeptSequence) (edits : List (ℕ × List ℕ)) → 512 ≤ size → is_opened size image ≡ true
        → kept_sequence_of size image ≡ Some volume → are_edits size (blocks_in size image) edits ≡ true
        → ((n : ℕ) → is_read size (blocks_in size image) (block_of size image) volume n ≡ true → is_off n edits ≡ true)
        → IsUnmoved size image (put_blocks size edits image) }
{}

/// The plan is the one list that is exactly the difference of two images, and put on the first it gives the second, where
/// they differ at most in whole blocks. The mended image is such a second one.
pub fn plan_law()
    ensures exact { (size : ℕ) (image after : List ℕ) → IsPlan size image after (plan_of size image after) }
    ensures one { (size : ℕ) (image after : List ℕ) (plan : List (ℕ × List ℕ)) → IsPlan size image after plan → plan ≡ plan_of size image after }
    ensures applied { (size : ℕ) (image after : List ℕ) → 0 < size → IsRewrite size image after → put_blocks size (plan_of size image after) image ≡ after }
    ensures mended { (size : ℕ) (image : List ℕ) → 512 ≤ size → IsRewrite size image (volume_mended size image) }
{}
