// The frame of a survey, by the file set of a volume.
ghost use Rattle.std.specs.Prelude.{◌≡◌, ◌≤◌, true, None};
ghost use Rattle.udf_file_model.specs.Listing.{Volume};
ghost use Rattle.udf_tree_model.specs.Frame.{is_address};
ghost use Rattle.udf_tree_model.specs.Stated.{IsFileSetPlaced};
ghost use Rattle.udf_volume_model.specs.FileSet.{Site, refusal};
ghost use Rattle.udf_volume.specs.declared.site.FileSet.{FileSet};
ghost use Rattle.udf_volume.specs.FileSet.{IsFileSet};
ghost use Rattle.udf_found.specs.Beyond.{HoldsFileSet};
ghost use Rattle.udf_kept.specs.Entries.{HasFileSet};
ghost use Rattle.udf_tree.specs.Framed.{frame_of};

/// What a survey asks of its frame holds where the file set of a volume was read: the frame is that of the file set, which stands
/// whole at its address and, where the volume is not refused for it, is placed.
pub fn frame_law()
    ensures frame { (s : Site) (files : FileSet) → IsFileSet s files → HasFileSet (frame_of s) files }
    ensures whole { (s : Site) (v : Volume) (files : FileSet) → v.place ≡ s.place → v.disk ≡ s.disk → IsFileSet s files
        → HoldsFileSet (frame_of s) v }
    ensures placed { (s : Site) (v : Volume) → v.place ≡ s.place → 512 ≤ s.size → is_address s.extent.at ≡ true → refusal s ≡ None
        → IsFileSetPlaced (frame_of s) v }
{}
