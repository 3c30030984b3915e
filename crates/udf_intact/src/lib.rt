//! Paths that no damage touches: each leads after a repair to the file to which it led, with the same bytes; and where no rule is
//! broken each path is such a one. The code of this crate is laws alone: functions with an empty body whose contract says what a
//! repair leaves. It stands on the laws of mended volumes and on those of mended images.
#![tactic(auto)]

ghost use Rattle.std.specs.Prelude.{◌≡◌, ℕ, List, Option, Some, true};
ghost use Rattle.udf_model.specs.Bytes.{IsBytes};
ghost use Rattle.udf_model.specs.Size.{is_size};
ghost use Rattle.udf_file_model.specs.Listing.{Volume, with_disk};
ghost use Rattle.udf_tree_model.specs.Frame.{Frame};
ghost use Rattle.udf_file_mends.specs.FileSet.{frame_after};
ghost use Rattle.udf_mended_rules.specs.AllMends.{HasAllMends};
ghost use Rattle.udf_volume_model.specs.Size.{size_of};
ghost use Rattle.udf_mended_image.specs.Accepted.{is_accepted, is_unbroken, mend};
ghost use Rattle.udf_mended_image.specs.Sized.{mend_as};
ghost use Rattle.udf_intact.specs.Steps.{Step, leads};
ghost use Rattle.udf_intact.specs.Lawful.{IsLawful};
ghost use Rattle.udf_field.specs.declared.address.Addr.{Addr};
ghost use Rattle.udf_intact.specs.Paths.{IsIntactPath, KeepsPath};
ghost use Rattle.udf_intact.specs.Images.{IsIntactAs, IsIntactIn, KeepsPathAs, KeepsPathIn, leads_in};

/// Each path of a volume that no damage touches leads, with the mends of all kept entries and of the file set, to the file to which it
/// led, with the same bytes. So it does in what a repair makes of an image of bytes, at a block size of the profile, that is given or
/// found.
pub fn intact_law()
    ensures paths { (f : Frame) (v : Volume) (disk : ℕ → List ℕ) → HasAllMends f v disk → (steps : List Step) → IsIntactPath f v steps
        → KeepsPath f v (frame_after f v) (with_disk v disk) steps }
    ensures images { (size : ℕ) (image : List ℕ) → is_size size ≡ true → IsBytes image → (steps : List Step)
        → IsIntactIn size image steps → KeepsPathIn size image (mend size image) steps }
    ensures sized { (given : Option ℕ) (size : ℕ) (image : List ℕ) → is_size size ≡ true → IsBytes image → size_of given image ≡ Some size
        → (steps : List Step) → IsIntactAs given image steps → KeepsPathAs given image (mend_as given image) steps }
{}

/// Where the files of a volume break no rule, no damage touches any path of it; nor does it in an accepted image that breaks none.
pub fn lawful_law()
    ensures paths { (f : Frame) (v : Volume) → IsLawful f v → (steps : List Step) (a : Addr) → leads f v steps f.root ≡ Some a
        → IsIntactPath f v steps }
    ensures images { (size : ℕ) (image : List ℕ) → is_size size ≡ true → IsBytes image → is_accepted size image ≡ true
        → is_unbroken size image ≡ true → (steps : List Step) (a : Addr) → leads_in size image steps ≡ Some a
        → IsIntactIn size image steps }
{}
