//! What a repair reads of an image before it mends it: its volume and files, what breaks the rules on them, and the draft of its plan.
ghost use Rattle.std.specs.Prelude.{◌≡◌, ◌||◌, true, IfOk};
ghost use Rattle.udf_model.specs.Size.{is_size};
ghost use Rattle.udf_outside.specs.Files.{IsAttached};
ghost use Rattle.udf_outside.specs.Stops.{bytes_of};
ghost use Rattle.udf_outside.specs.Reads.{OnlyReads};
ghost use Rattle.udf_outside.specs.declared.bench.Role.TheVariants.{Image};
ghost use Rattle.udf_volume.specs.Taken.{IsOpenOver, IsOpenedOf};
ghost use Rattle.udf_volume.specs.Writable.{is_protected};
ghost use Rattle.udf_top.specs.Inspecting.{Inspects, InspectsVolume, IsInspectedAt, IsInspectedOver};

use crate::Findings;
use std::alloc::Global;
use udf_file_rules::check_files;
use udf_files::{Files, files_of};
use udf_outside::Bench;
use udf_repair_plan::{Draft, draft_volume};
use udf_rules::check_opened;
use udf_volume::{LayerStop, Missing, Opened, open_layout};

/// A volume that a repair may write, with its files, what breaks the rules on it, and the draft of its plan.
#[derive(Drop)]
pub(crate) struct Inspected {
    pub(crate) files: Files,
    pub(crate) findings: Findings,
    pub(crate) draft: Draft,
}

// Whether the descriptors of a volume or of its file set keep it from being written (UDF 2.1.5.3, ECMA-167 4/14.1.16).
fn is_kept_from_writing(files: &Files) -> bool
    ensures { result ≡ (is_protected files.now.volume || files.now.set.guarded) }
{
    files.volume.is_protected() || files.set.guarded
}

// Inspects a volume that was opened of the image.
fn inspect_opened<B: Bench>(
    alloc: Global,
    bench: &mut B,
    opened: Opened,
) -> Result<Inspected, LayerStop>
    requires over { IsOpenOver opened (B.files bench.old) }
    requires size { is_size opened.volume.size ≡ true }
    requires opened { B.tells → IsOpenedOf (bytes_of Image (B.held bench.old)) opened }
    ensures answers { B.tells → InspectsVolume opened.volume (bytes_of Image (B.held bench.old)) result }
    ensures over { IfOk result (IsInspectedOver opened.volume) }
    ensures reads { OnlyReads B.files B.held B.faults bench.old bench.new LayerStop.Fault result }
{
    let of_volume = check_opened(alloc, bench, &opened)?;
    let draft = draft_volume(alloc, bench, &opened)?;
    let files = files_of(alloc, bench, opened)?;
    if is_kept_from_writing(&files) {
        return Err(LayerStop::Missing(Missing::WriteProtected));
    }
    let findings = check_files(alloc, bench, &files, of_volume)?;
    Ok(Inspected {
        files,
        findings,
        draft,
    })
}

/// Inspects an image at a block size. `length` is the image's in bytes.
#[tactic(auto, using(udf_volume::proofs::Openings::open_over, udf_volume::proofs::Openings::of_image, udf_model::proofs::Sizes::large))]
pub(crate) fn inspect<B: Bench>(
    alloc: Global,
    bench: &mut B,
    size: u32,
    length: u64,
) -> Result<Inspected, LayerStop>
    requires attached { IsAttached Image (B.files bench.old) }
    requires length { length ≡ (B.files bench.old).image.size }
    requires size { is_size size ≡ true }
    ensures answers { B.tells → Inspects size (bytes_of Image (B.held bench.old)) result }
    ensures at { IfOk result (IsInspectedAt size (B.files bench.old)) }
    ensures reads { OnlyReads B.files B.held B.faults bench.old bench.new LayerStop.Fault result }
{
    let opened = open_layout(alloc, bench, size, length)?;
    inspect_opened(alloc, bench, opened)
}
