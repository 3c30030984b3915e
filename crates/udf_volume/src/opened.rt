//! A volume with its layout, from an image.
ghost use Rattle.std.specs.Prelude.{◌≡◌, ◌≤◌, ◌/◌, ℕ, List, IfOk, IfErr, is_ok};
ghost use Rattle.udf_outside.specs.Files.{IsAttached};
ghost use Rattle.udf_outside.specs.Stops.{bytes_of};
ghost use Rattle.udf_outside.specs.Reads.{OnlyReads};
ghost use Rattle.udf_outside.specs.Sectors.{disk_of};
ghost use Rattle.udf_outside.specs.declared.bench.Role.TheVariants.{Image};
ghost use Rattle.udf_volume_model.specs.Opened.{is_opened};
ghost use Rattle.udf_volume.specs.Refusals.{RefusesVolume};
ghost use Rattle.udf_volume.specs.Taken.{IsLawful, Opens, opening};

use crate::{LayerStop, Layout, Volume, layout_of, open_volume};
use std::alloc::Global;
use udf_outside::Bench;

/// A volume of an image, and what it takes of it.
#[derive(Drop)]
pub struct Opened {
    pub volume: Volume,
    pub layout: Layout,
}

/// The volume of an image with its layout, or the first refusal. `size` is the block size, at least 512, and `length` the image's
/// length in bytes.
#[tactic(auto, using(crate::proofs::Openings::refused, crate::proofs::Openings::unspared, crate::proofs::Openings::opened, crate::proofs::Openings::over, crate::proofs::Openings::of_volume, crate::proofs::Openings::of_table))]
pub fn open_layout<B: Bench>(
    alloc: Global,
    bench: &mut B,
    size: u32,
    length: u64,
) -> Result<Opened, LayerStop>
    requires attached { IsAttached Image (B.files bench.old) }
    requires large { 512 ≤ size }
    requires sized { length ≡ (B.files bench.old).image.size }
    ensures answers { B.tells → Opens (opening size (bytes_of Image (B.held bench.old))) (disk_of size (B.held bench.old)) result }
    ensures refusal { IfErr result RefusesVolume }
    ensures lawful { IfOk result (IsLawful size (length / size)) }
    ensures reads { OnlyReads B.files B.held B.faults bench.old bench.new LayerStop.Fault result }
{
    let volume = open_volume(alloc, bench, size, length)?;
    let layout = layout_of(alloc, bench, &volume)?;
    Ok(Opened { volume, layout })
}

/// A volume is opened exactly where no refusal of its description applies.
pub fn opened_law()
    ensures { (size : ℕ) (image : List ℕ) → is_opened size image ≡ is_ok (opening size image) }
{}
