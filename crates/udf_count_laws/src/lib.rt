//! What is counted of the files of a volume, before and after its mend: where the same entries are kept with the same links, link counts,
//! identifiers and the counts of an integrity descriptor are the same, and the rules on them hold where each entry states what was
//! wanted of it. The code of this crate is one law. It stands on the rules and on what is proved of wanted identifiers.
#![tactic(auto)]

ghost use Rattle.std.specs.Prelude.{◌≡◌, ℕ, None, true};
ghost use Rattle.udf_field.specs.declared.address.Addr.{Addr};
ghost use Rattle.udf_file_model.specs.Listing.{Volume};
ghost use Rattle.udf_tree_model.specs.Counts.{high_count, low_count};
ghost use Rattle.udf_tree_model.specs.Frame.{Frame};
ghost use Rattle.udf_tree_model.specs.Refused.{refusal};
ghost use Rattle.udf_tree_model.specs.Stated.{IsFileSetPlaced};
ghost use Rattle.udf_rules_model.specs.Bitmap.{free_blocks};
ghost use Rattle.udf_rules_model.specs.FileRules.{count_rule, identifier_rule};
ghost use Rattle.udf_space_mends.specs.IntegrityMend.{SameCounts};
ghost use Rattle.udf_count_laws.specs.Alike.{AreAlike, StatesWanted};

/// Of volumes that are alike the lawful link counts are the same. Where each kept entry of the second states what was wanted of it in the
/// first, the rules on link counts and on identifiers hold there; and an integrity descriptor counts the same, where as many blocks
/// are free.
pub fn alike_law()
    ensures low { (f g : Frame) (v w : Volume) → AreAlike f g v w → (a : Addr) → low_count g w a ≡ low_count f v a }
    ensures high { (f g : Frame) (v w : Volume) → AreAlike f g v w → (a : Addr) → high_count g w a ≡ high_count f v a }
    ensures counts { (f g : Frame) (v w : Volume) → AreAlike f g v w → refusal f v ≡ None → IsFileSetPlaced f v → StatesWanted f v w → count_rule g w ≡ true }
    ensures identifiers { (f g : Frame) (v w : Volume) → AreAlike f g v w → StatesWanted f v w → identifier_rule g w ≡ true }
    ensures counted { (f g : Frame) (v w : Volume) (blocks : ℕ) → AreAlike f g v w → StatesWanted f v w → free_blocks g w blocks ≡ free_blocks f v blocks
        → SameCounts f g v w blocks }
{}
