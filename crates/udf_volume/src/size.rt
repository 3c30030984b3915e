//! The block size of an image, where it is not given: the one at which an anchor stands in block 256 (ECMA-167 3/8.4.2.1).
ghost use Rattle.std.specs.Prelude.{◌≡◌, ◌≤◌, length as length_of, IfOk, IfSome, None, IsErrOf, true};
ghost use Rattle.std.specs.List.{AllByRecursion, find};
ghost use Rattle.udf_model.specs.Size.{is_size};
ghost use Rattle.udf_model.specs.Tag.{id_at as id_of_located, is_id};
ghost use Rattle.udf_outside.specs.Files.{IsAttached};
ghost use Rattle.udf_outside.specs.Stops.{bytes_of};
ghost use Rattle.udf_outside.specs.Reads.{OnlyReads, failed};
ghost use Rattle.udf_outside.specs.declared.bench.Role.TheVariants.{Image};
ghost use Rattle.udf_volume_model.specs.Size.{has_size, size_of};

use crate::WorkStop;
use crate::anchor::ANCHOR;
use std::alloc::Global;
use udf_field::id_at;
use udf_model::BLOCK_SIZES;
use udf_outside::{Bench, Failed, read_block};

/// The greatest block size in bytes.
const GREATEST: usize = 4096;

/// The first place of an anchor.
const FIRST_PLACE: u32 = 256;

fn is_first_anchor(block: &[u8]) -> bool
    requires { 512 ≤ length_of block.now }
    ensures { result ≡ is_id 2 (id_of_located 256 block.now) }
{
    id_at(block, FIRST_PLACE) == Some(ANCHOR)
}

// Whether block 256 at a size is in the image and a whole anchor there. `block` is lent and has the greatest block size.
fn has_anchor_at<B: Bench>(
    bench: &mut B,
    length: u64,
    size: u32,
    block: &mut [u8],
) -> Result<bool, Failed>
    requires attached { IsAttached Image (B.files bench.old) }
    requires sized { length ≡ (B.files bench.old).image.size }
    requires large { 512 ≤ size }
    requires small { size ≤ 4096 }
    requires room { length_of block.old ≡ 4096 }
    ensures found { B.tells → IfOk result (λ found. found ≡ has_size (bytes_of Image (B.held bench.old)) size) }
    ensures room { length_of block.new ≡ 4096 }
    ensures reads { OnlyReads B.files B.held B.faults bench.old bench.new failed result }
{
    if length / size as u64 <= FIRST_PLACE as u64 {
        return Ok(false);
    }
    let read = &mut block[..size as usize];
    read_block(bench, size, FIRST_PLACE, read)?;
    Ok(is_first_anchor(read))
}

// The first of these sizes at which an anchor stands in block 256.
#[tactic(auto, using(udf_model::proofs::Sizes::large, udf_model::proofs::Sizes::small))]
fn first_size<B: Bench>(
    bench: &mut B,
    length: u64,
    sizes: &[u32],
    block: &mut [u8],
) -> Result<Option<u32>, Failed>
    requires attached { IsAttached Image (B.files bench.old) }
    requires sized { length ≡ (B.files bench.old).image.size }
    requires sizes { AllByRecursion (λ size. is_size size ≡ true) sizes.now }
    requires room { length_of block.old ≡ 4096 }
    ensures found { B.tells → IfOk result (λ found. found ≡ find (has_size (bytes_of Image (B.held bench.old))) sizes.now) }
    ensures size { IfOk result (λ found. IfSome found (λ size. is_size size ≡ true)) }
    ensures reads { OnlyReads B.files B.held B.faults bench.old bench.new failed result }
{
    let Some((first, rest)) = sizes.split_first() else {
        return Ok(None);
    };
    let size = *first;
    if has_anchor_at(bench, length, size, block)? {
        return Ok(Some(size));
    }
    first_size(bench, length, rest, block)
}

/// The block size of an image: the wanted one, or the first of the four at which a whole anchor stands in block 256, if any.
/// `length` is the image's length in bytes; `block` is lent and has 4096 bytes. It takes no memory.
#[tactic(auto, unfolding(udf_volume_model::specs::Size::found_size, udf_model::specs::Size::sizes, udf_model::specs::Size::is_size))]
pub fn block_size<B: Bench>(
    bench: &mut B,
    length: u64,
    wanted: Option<u32>,
    block: &mut [u8],
) -> Result<Option<u32>, Failed>
    requires attached { IsAttached Image (B.files bench.old) }
    requires sized { length ≡ (B.files bench.old).image.size }
    requires wanted { IfSome wanted (λ size. is_size size ≡ true) }
    requires room { length_of block.old ≡ 4096 }
    ensures found { B.tells → IfOk result (λ found. found ≡ size_of wanted (bytes_of Image (B.held bench.old))) }
    ensures size { IfOk result (λ found. IfSome found (λ size. is_size size ≡ true)) }
    ensures reads { OnlyReads B.files B.held B.faults bench.old bench.new failed result }
{
    match wanted {
        Some(size) => Ok(Some(size)),
        None => first_size(bench, length, &BLOCK_SIZES, block),
    }
}

/// The block size that is found in an image, if any. `length` is the image's length in bytes. It takes memory for a block.
pub fn found_size<B: Bench>(
    alloc: Global,
    bench: &mut B,
    length: u64,
) -> Result<Option<u32>, WorkStop>
    requires attached { IsAttached Image (B.files bench.old) }
    requires sized { length ≡ (B.files bench.old).image.size }
    ensures found { B.tells → IfOk result (λ found. found ≡ size_of None (bytes_of Image (B.held bench.old))) }
    ensures size { IfOk result (λ found. IfSome found (λ size. is_size size ≡ true)) }
    ensures reads { OnlyReads B.files B.held B.faults bench.old bench.new WorkStop.Fault result }
{
    let mut block = vec![in alloc; 0u8; GREATEST]?;
    let found = block_size(bench, length, None, &mut block)?;
    Ok(found)
}
