//! What the rules on files want of kept entries, put in the order of their addresses.
ghost use Rattle.std.specs.Prelude.{◌≡◌, ◌++◌, OnOk, length};
ghost use Rattle.udf_outside.specs.Reads.{OnlyReads};
ghost use Rattle.udf_outside.specs.Sectors.{disk_of};
ghost use Rattle.udf_outside.specs.Stops.{bytes_of};
ghost use Rattle.udf_outside.specs.declared.bench.Role.TheVariants.{Image};
ghost use Rattle.udf_rules_model.specs.Files.{files_in, frame_in};
ghost use Rattle.udf_files.specs.Files.{AreFilesOf, places_in};
ghost use Rattle.udf_file_mends.specs.Mends.{file_edits};
ghost use Rattle.udf_file_mends.specs.Repairable.{IsRepairable};
ghost use Rattle.udf_wanted.specs.Wanted.{LookAlike, differing};
ghost use Rattle.udf_wanted.specs.Writable.{AreWritable};
ghost use Rattle.udf_file_plan.specs.Alike.{LookAlikeOn};
ghost use Rattle.udf_file_plan.specs.Base.{IsPlannedOver};

use crate::WorkStop;
use crate::node::put_node;
use std::alloc::Global;
use udf_files::Files;
use udf_outside::Bench;
use udf_wanted::Wanted;

/// Puts what the rules on files want of kept entries: each structure of an entry as its mend makes it, where that differs. A repairable
/// volume is one that `IsRepairable` tells of. `files` are those of a volume that was opened of the image; `block` is lent and has the
/// block size. The block of an entry is read once more only where its mend may change something, and what its list names where that is cut.
pub fn put_files<B: Bench>(
    alloc: Global,
    bench: &mut B,
    files: &Files,
    wanted: &mut Wanted,
    block: &mut [u8],
) -> Result<(), WorkStop>
    requires over { IsPlannedOver files.now.volume (places_in files.now) (B.files bench.old) }
    requires writable { AreWritable files.now.volume wanted.old }
    requires room { length block.old ≡ files.now.volume.size }
    ensures put { B.tells → let volume = files.now.volume in let image = bytes_of Image (B.held bench.old) in AreFilesOf volume image files.now
        → IsRepairable (frame_in volume image) (files_in volume image)
        → OnOk result (LookAlike wanted.new (wanted.old ++ differing (disk_of volume.size (B.held bench.old)) (file_edits (frame_in volume image) (files_in volume image)))) }
    ensures on { B.tells → let volume = files.now.volume in let image = bytes_of Image (B.held bench.old) in AreFilesOf volume image files.now
        → IsRepairable (frame_in volume image) (files_in volume image)
        → OnOk result (LookAlikeOn (disk_of volume.size (B.held bench.old)) wanted.new (wanted.old ++ file_edits (frame_in volume image) (files_in volume image))) }
    ensures writable { OnOk result (AreWritable files.now.volume wanted.new) }
    ensures reads { OnlyReads B.files B.held B.faults bench.old bench.new WorkStop.Fault result }
{
    let volume = &files.volume;
    let mut room = vec![in alloc; 0u8; volume.size as usize]?;
    let order = files.survey.in_order();
    for id in order {
        put_node(
            alloc,
            bench,
            volume,
            &files.parts,
            &files.survey,
            *id,
            wanted,
            block,
            &mut room,
        )?;
    }
    Ok(())
}
