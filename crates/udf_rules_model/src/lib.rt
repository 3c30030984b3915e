//! The rules of a volume and its files, as relations on an image, and what is found where one is broken: the recognition sequence, the
//! kept entries, the space bitmap and the integrity descriptor. The definitions of the rules on anchors, sequences and sparing
//! tables stand with those of volumes. The code of this crate is one law. It stands on the definitions of volumes, of trees and of
//! bitmaps.
#![tactic(auto)]

ghost use Rattle.std.specs.Prelude.{◌≡◌, ◌&&◌, ℕ, List, Option};
ghost use Rattle.udf_field.specs.declared.address.Short.{Short};
ghost use Rattle.udf_field.specs.declared.address.Span.{Span};
ghost use Rattle.udf_file_model.specs.Listing as listing;
ghost use Rattle.udf_tree_model.specs.Frame.{Frame};
ghost use Rattle.udf_volume.specs.declared.volume.Volume.{Volume};
ghost use Rattle.udf_rules_model.specs.Bitmap.{bitmap_findings, bitmap_rule};
ghost use Rattle.udf_rules_model.specs.FileRules.{allocation_findings, allocation_rule, content_findings, content_rule, count_findings, count_rule, identifier_findings, identifier_rule, name_findings, names_rule, target_findings, targets_rule};
ghost use Rattle.udf_rules_model.specs.Findings.{before_volume, further_rules_hold, of_files, of_space, recognition_of};
ghost use Rattle.udf_rules_model.specs.Found.{is_nothing};
ghost use Rattle.udf_rules_model.specs.Integrity.{integrity_findings, integrity_holds};
ghost use Rattle.udf_rules_model.specs.Recognition.{Recognition, recognition_findings, recognition_holds};

/// A rule holds exactly where nothing is found of it, and all these rules exactly where nothing is found.
pub fn rules_law()
    ensures recognition { (r : Recognition) (partition : List ℕ) → is_nothing (recognition_findings r partition) ≡ recognition_holds r }
    ensures targets { (f : Frame) (v : listing.Volume) → is_nothing (target_findings f v) ≡ targets_rule f v }
    ensures allocation { (f : Frame) (v : listing.Volume) → is_nothing (allocation_findings f v) ≡ allocation_rule f v }
    ensures contents { (f : Frame) (v : listing.Volume) → is_nothing (content_findings f v) ≡ content_rule f v }
    ensures names { (f : Frame) (v : listing.Volume) → is_nothing (name_findings f v) ≡ names_rule f v }
    ensures counts { (f : Frame) (v : listing.Volume) → is_nothing (count_findings f v) ≡ count_rule f v }
    ensures identifiers { (f : Frame) (v : listing.Volume) → is_nothing (identifier_findings f v) ≡ identifier_rule f v }
    ensures bitmap { (f : Frame) (v : listing.Volume) (blocks : ℕ) (bitmap : Option Short) → is_nothing (bitmap_findings f v blocks bitmap) ≡ bitmap_rule f v blocks bitmap }
    ensures integrity { (f : Frame) (v : listing.Volume) (blocks : ℕ) (bitmap : Option Short) (extent : Span) → is_nothing (integrity_findings f v blocks bitmap extent) ≡ integrity_holds f v blocks bitmap extent }
    ensures all { (volume : Volume) (image : List ℕ) → (is_nothing (before_volume volume image) && (is_nothing (of_files volume image) && is_nothing (of_space volume image)))
        ≡ further_rules_hold volume image }
{}
