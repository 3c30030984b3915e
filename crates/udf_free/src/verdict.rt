//! The verdict of the rule on the space bitmap (ECMA-167 4/14.12): whether its header is whole at its place, and how many of its
//! bits are wrong. It reads the extent of the bitmap once.
ghost use Rattle.std.specs.Prelude.{◌≡◌, ◌==◌, ◌&&◌, ◌+◌, ◌/◌, ◌<◌, ◌≤◌, ℕ, true, IfOk, Some, length};
ghost use Rattle.udf_field.specs.declared.address.Addr.{Addr};
ghost use Rattle.udf_outside.specs.Files.{IsAttached};
ghost use Rattle.udf_outside.specs.Stops.{bytes_of};
ghost use Rattle.udf_outside.specs.Reads.{OnlyReads};
ghost use Rattle.udf_outside.specs.declared.bench.Role.TheVariants.{Image};
ghost use Rattle.udf_file_model.specs.Listing.{volume_of};
ghost use Rattle.udf_space.specs.Bits.{bytes_for};
ghost use Rattle.udf_tree_model.specs.Frame.{Frame};
ghost use Rattle.udf_volume_model.specs.Layout.{is_bitmap};
ghost use Rattle.udf_free.specs.Free.{StandsWhole, free_bits};
ghost use Rattle.udf_free.specs.Verdict.{verdict_in, verdict_on};

use crate::area::read_area;
use std::alloc::{AllocError, Global};
use udf_field::{Short, id_at};
use udf_layer::{Parts, WorkStop};
use udf_outside::Bench;
use udf_space::Bitmap;

// The tag identifier of a space bitmap (ECMA-167 4/7.2.1).
const SPACE_BITMAP: u16 = 264;

/// The verdict on a space bitmap.
#[derive(Clone, Copy, Debug, PartialEq, Eq)]
pub struct BitmapVerdict {
    /// Whether its header stands whole at its place.
    pub headed: bool,
    /// How many of its bits are wrong; all of them where the header is.
    pub wrong: u32,
}

impl BitmapVerdict {
    /// Whether the rule holds.
    pub fn holds(&self) -> bool
        ensures { result ≡ (self.now.headed && (self.now.wrong == 0)) }
    {
        self.headed && self.wrong == 0
    }
}

// The verdict on the bytes of an extent, by the bits that are to stand there.
#[tactic(auto, unfolding(crate::specs::Verdict::verdict_on, udf_rules_model::specs::Bitmap::is_headed, udf_space::specs::Area::bitmap_in))]
fn judge_area(
    alloc: Global,
    area: &[u8],
    blocks: u32,
    extent: Short,
    free: &Bitmap,
) -> Result<BitmapVerdict, AllocError>
    requires room { 24 + bytes_for blocks ≤ length area.now }
    requires free { length free.now ≡ blocks }
    ensures { IfOk result (λ verdict. verdict ≡ verdict_on blocks extent free.now area.now) }
{
    let none = BitmapVerdict {
        headed: false,
        wrong: blocks,
    };
    if id_at(area, extent.block) != Some(SPACE_BITMAP) {
        return Ok(none);
    }
    match Bitmap::read(alloc, area, blocks)? {
        Some(found) => Ok(BitmapVerdict {
            headed: true,
            wrong: free.differing(&found),
        }),
        None => Ok(none),
    }
}

/// The verdict on the space bitmap in an extent of a base partition of so many blocks of `size` bytes; `free` has the bits that are
/// to stand there. Each block of the extent is read once, and held until the verdict is made.
pub fn bitmap_verdict<B: Bench, P: Parts>(
    alloc: Global,
    bench: &mut B,
    parts: &P,
    size: u32,
    blocks: u32,
    extent: Short,
    free: &Bitmap,
) -> Result<BitmapVerdict, WorkStop>
    requires attached { IsAttached Image (B.files bench.old) }
    requires some { 0 < size }
    requires inside { (a : Addr) (s : ℕ) → P.place parts.now a ≡ Some s → s < (B.files bench.old).image.size / size }
    requires placed { StandsWhole (P.place parts.now) blocks }
    requires extent { is_bitmap size blocks extent.length extent.block ≡ true }
    requires free { length free.now ≡ blocks }
    ensures verdict { B.tells → (f : Frame) → free.now ≡ free_bits f (volume_of size (bytes_of Image (B.held bench.old)) (P.place parts.now)) blocks
        → IfOk result (λ verdict. verdict ≡ verdict_in f (volume_of size (bytes_of Image (B.held bench.old)) (P.place parts.now)) blocks extent) }
    ensures reads { OnlyReads B.files B.held B.faults bench.old bench.new WorkStop.Fault result }
{
    let area = read_area(alloc, bench, parts, size, blocks, extent)?;
    let verdict = judge_area(alloc, &area, blocks, extent, free)?;
    Ok(verdict)
}
