//! Laws on the definitions that the calls on the log promise by.
ghost use Rattle.std.specs.Prelude.{◌≡◌, ℕ, ◌+◌, ◌*◌, ◌≤◌, ◌^◌, ◌<◌, ◌↔◌, ◌++◌, ◌∷◌, List, length, Ok, true};
ghost use Rattle.std.specs.List.{All, flat_map};
ghost use Rattle.udf_volume_model.specs.Edits.{put_blocks};
ghost use Rattle.udf_volume_model.specs.Plans.{ClimbsFrom};
ghost use Rattle.udf_redo.specs.Log.{Edit, name, state_of, head_in, records_of, head_bytes, record_bytes, is_head, are_lawful};
ghost use Rattle.udf_redo.specs.Settled.{settled, applied, applied_to, IsOpenLog};
ghost use Rattle.udf_redo.specs.declared.head.LogHead.{LogHead};
ghost use Rattle.udf_redo.specs.declared.side.SideState.TheVariants.{Empty, Open};

/// Files stand for the image with the records exactly where the side file is an open log of the image, else for the image.
pub fn settled_law()
    ensures opened { (side image : List ℕ) → IsOpenLog side image → settled (image, side) ≡ applied_to side image }
    ensures others { (side image : List ℕ) → (IsOpenLog side image → ⊥) → settled (image, side) ≡ image }
{}

/// Ascending records of one block size that lie in an image make the image with these blocks put in it.
pub fn applied_law()
    ensures { (size : ℕ) (edits : List Edit) (image : List ℕ) → ClimbsFrom 0 edits → All (λ edit. length edit.1 ≡ size) edits
        → All (λ edit. edit.0 * size + size ≤ length image) edits → applied size edits image ≡ put_blocks size edits image }
{}
