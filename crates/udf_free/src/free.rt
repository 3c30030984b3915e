//! The free blocks of a surveyed volume.
ghost use Rattle.std.specs.Prelude.{◌≡◌, IfOk, length};
ghost use Rattle.udf_file_model.specs.Listing.{Volume};
ghost use Rattle.udf_tree_model.specs.Frame.{Frame};
ghost use Rattle.udf_tree.specs.Survey.{IsSurvey};
ghost use Rattle.udf_free.specs.Free.{StandsWhole, free_bits};
ghost use Rattle.udf_free.specs.Taken.{untaken};

use crate::taken::taken_from;
use std::alloc::{AllocError, Global};
use udf_space::Bitmap;
use udf_tree::Survey;

// Of each of so many blocks of the base partition whether it is not claimed.
fn unclaimed_blocks(alloc: Global, survey: &Survey, blocks: u32) -> Result<Bitmap, AllocError>
    ensures { IfOk result (λ free. free ≡ untaken survey.now.runs blocks) }
{
    let mut free = Bitmap::blank(alloc, blocks)?;
    let mut next = 0;
    while let Some(taken) = taken_from(survey, next, blocks) {
        free.claim_run(taken.start, taken.blocks);
        next = taken.start + taken.blocks;
    }
    Ok(free)
}

/// The bitmap that a base partition of so many blocks is to have: its free blocks, which are neither fixed nor claimed by a kept
/// entry after its mend. Takes a step for each run of claimed blocks, and for each byte of the bitmap. `NoMemory` where there is
/// none for a bit a block.
pub fn free_blocks(alloc: Global, survey: &Survey, blocks: u32) -> Result<Bitmap, AllocError>
    ensures long { IfOk result (λ free. length free ≡ blocks) }
    ensures free { (f : Frame) (v : Volume) → IsSurvey f v survey.now → StandsWhole v.place blocks → IfOk result (λ free. free ≡ free_bits f v blocks) }
{
    let free = unclaimed_blocks(alloc, survey, blocks)?;
    Ok(free)
}
