//! The definitions of volumes: descriptor sequences, prevailing descriptors, anchors, the kept sequence and what it states,
//! areas and layout, the rules on anchors and sequences, and the mended image, in the terms of ECMA-167 part 3 over a disk
//! that gives the block of each sector. The code of this crate is one law; the others stand in a crate above. It stands on the
//! definitions of tags and images.
#![tactic(auto)]

ghost use Rattle.std.specs.Prelude.{◌≡◌, Some, None, List, if◌then◌else◌};
ghost use Rattle.udf_volume_model.specs.Sequence.{View, listed, front_of, is_spoilt};

/// The list that begins some blocks is its front up to the block that ends it, where no block spoils it.
pub fn sequence_law()
    ensures { (list : List View) → listed list ≡ (if is_spoilt list then None else Some (front_of list)) }
{}
