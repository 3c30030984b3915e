// Runs of sectors that may be written.
ghost use Rattle.std.specs.Prelude.{◌≡◌};
ghost use Rattle.udf_space_plan.specs.Runs.{is_run_free};

use udf_volume::Volume;

/// Whether so many sectors from one on lie in the image, before or behind the kept descriptors.
#[tactic(auto, unfolding(crate::specs::Runs::is_run_free))]
pub(crate) fn is_free_run(volume: &Volume, first: u32, count: u32) -> bool
    ensures { result ≡ is_run_free volume.now first count }
{
    let sealed = volume.kept_extent().start as u64;
    let sealed_end = sealed + volume.count as u64;
    let start = first as u64;
    let end = start + count as u64;
    end <= volume.blocks as u64 && (end <= sealed || sealed_end <= start)
}
