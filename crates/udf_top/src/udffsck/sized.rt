//! The block size that a run works with.
ghost use Rattle.std.specs.Prelude.{◌≡◌, true, IfOk, IfErr, IfSome};
ghost use Rattle.udf_model.specs.Size.{is_size};
ghost use Rattle.udf_outside.specs.Files.{IsAttached};
ghost use Rattle.udf_outside.specs.Stops.{bytes_of};
ghost use Rattle.udf_outside.specs.Reads.{OnlyReads};
ghost use Rattle.udf_outside.specs.declared.bench.Role.TheVariants.{Image};
ghost use Rattle.udf_volume.specs.Refusals.{RefusesVolume};
ghost use Rattle.udf_top.specs.Udffsck.{Sizes};

use std::alloc::Global;
use udf_outside::Bench;
use udf_volume::{LayerStop, Missing, found_size};

/// The block size that is given, or else found in the image, whose length in bytes is `length`. Without one the image is refused.
pub(crate) fn size_for<B: Bench>(
    alloc: Global,
    bench: &mut B,
    length: u64,
    given: Option<u32>,
) -> Result<u32, LayerStop>
    requires attached { IsAttached Image (B.files bench.old) }
    requires sized { length ≡ (B.files bench.old).image.size }
    requires given { IfSome given (λ size. is_size size ≡ true) }
    ensures answers { B.tells → Sizes given (bytes_of Image (B.held bench.old)) result }
    ensures refusal { IfErr result RefusesVolume }
    ensures size { IfOk result (λ size. is_size size ≡ true) }
    ensures reads { OnlyReads B.files B.held B.faults bench.old bench.new LayerStop.Fault result }
{
    if let Some(size) = given {
        return Ok(size);
    }
    let Some(size) = found_size(alloc, bench, length)? else {
        return Err(LayerStop::Missing(Missing::Anchor));
    };
    Ok(size)
}
