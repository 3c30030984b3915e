//! The plan of a repair of all rules: what its planners put, one rule after another, and behind it the plan of the volume's own mend, is
//! exactly the difference of the mended image, though blocks of entries that stay are left out. Towards the layer above: `draft_volume`
//! makes what needs the opened volume alone, and `plan_repair` with that and the volume's files the plan. It stands on the law of the
//! mended image and on the planners.
#![tactic(auto)]

ghost use Rattle.std.specs.Prelude.{◌≡◌, ◌++◌, ℕ, List, Ok, true};
ghost use Rattle.udf_model.specs.Bytes.{IsBytes};
ghost use Rattle.udf_model.specs.Image.{block_of};
ghost use Rattle.udf_model.specs.Size.{is_size};
ghost use Rattle.udf_volume_model.specs.Edits.{look};
ghost use Rattle.udf_volume_model.specs.Opened.{plan_of};
ghost use Rattle.udf_volume_model.specs.Plans.{ClimbsFrom, planned};
ghost use Rattle.udf_volume.specs.declared.volume.Volume.{Volume};
ghost use Rattle.udf_wanted.specs.Wanted.{LookAlike, changed};
ghost use Rattle.udf_mended_image.specs.Accepted.{mended, repairing};
ghost use Rattle.udf_repair_plan.specs.Put.{all_put};

mod draft;
mod plan;

pub use draft::{Draft, draft_volume};
pub use plan::plan_repair;
pub use udf_blocks::Plan;
pub use udf_volume::WorkStop;

/// Where wanted blocks look like what all rules put, those that differ from an accepted image's, by ascending sectors, are the difference of
/// the mended image.
pub fn planned_law()
    ensures { (image : List ℕ) (volume : Volume) (wanted plan : List (ℕ × List ℕ)) → is_size volume.size ≡ true → IsBytes image
        → repairing volume.size image ≡ Ok volume → LookAlike wanted (all_put volume image) → ClimbsFrom 0 plan
        → ((n : ℕ) → planned n plan ≡ changed (block_of volume.size image n) (look n wanted (block_of volume.size image n)))
        → plan ≡ plan_of volume.size image (mended volume.size image) }
{}
