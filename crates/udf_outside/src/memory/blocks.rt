//! Bytes that are kept by blocks, by their number. A block that is not kept is zeros.
ghost use Rattle.std.specs.Prelude.{◌≡◌, ℕ, ◌+◌, ◌-◌, ◌/◌, ◌%◌, ◌^◌, ◌<◌, ◌≤◌, min, length, slice_index, if◌then◌else◌, is_some, IsSome, OnOk, IfOk};
ghost use Rattle.udf_outside.specs.Stops.{is_within};
ghost use Rattle.udf_outside.specs.Blocks.{kept, byte_in};

use crate::memory::block::{BLOCK_LEN, Block};
use std::alloc::{AllocError, Global};
use std::collections::BTreeMap;

/// Of so many bytes from an offset on, how many lie in the offset's block.
fn in_block(at: u64, n: usize) -> usize
    ensures { result ≡ min n (4096 - at % 4096) }
{
    n.min((BLOCK_LEN - at % BLOCK_LEN) as usize)
}

/// Fills the slice with bytes of one block.
fn read_piece(blocks: &BTreeMap<u64, Block>, at: u64, into: &mut [u8])
    requires { at % 4096 + length into.old ≤ 4096 }
    ensures { (k : ℕ) → k < length into.old → slice_index into.new k ≡ byte_in blocks.now (at + k) }
{
    match blocks.get(&(at / BLOCK_LEN)) {
        Some(block) => block.read((at % BLOCK_LEN) as usize, into),
        None => into.fill(0),
    }
}

/// Fills the slice, but for its first `skip` places, with the bytes from an offset on.
pub fn read(blocks: &BTreeMap<u64, Block>, at: u64, skip: usize, into: &mut [u8])
    requires room { at + length into.old < 2 ^ 64 }
    requires within { skip ≤ length into.old }
    ensures skipped { (k : ℕ) → k < skip → slice_index into.new k ≡ slice_index into.old k }
    ensures bytes { (k : ℕ) → skip ≤ k → k < length into.old → slice_index into.new k ≡ byte_in blocks.now (at + k) }
{
    let mut done = skip;
    while done < into.len() {
        let place = at + done as u64;
        let n = in_block(place, into.len() - done);
        read_piece(blocks, place, &mut into[done..done + n]);
        done += n;
    }
}

/// Keeps a block, of zeros where it was not kept.
fn keep(alloc: Global, blocks: &mut BTreeMap<u64, Block>, number: u64) -> Result<(), AllocError>
    ensures same { (i : ℕ) → byte_in blocks.new i ≡ byte_in blocks.old i }
    ensures there { OnOk result (IsSome (kept blocks.new number)) }
    ensures keeps { (q : ℕ) → IsSome (kept blocks.old q) → IsSome (kept blocks.new q) }
{
    if blocks.contains_key(&number) {
        return Ok(());
    }
    let block = Block::zeros(alloc)?;
    blocks.insert(number, block)?;
    Ok(())
}

/// Keeps each block of a range.
pub fn prepare(
    alloc: Global,
    blocks: &mut BTreeMap<u64, Block>,
    at: u64,
    n: usize,
) -> Result<(), AllocError>
    requires { at + n < 2 ^ 64 }
    ensures same { (i : ℕ) → byte_in blocks.new i ≡ byte_in blocks.old i }
    ensures there { OnOk result ((k : ℕ) → k < n → IsSome (kept blocks.new ((at + k) / 4096))) }
{
    let mut done = 0;
    while done < n {
        let place = at + done as u64;
        keep(alloc, blocks, place / BLOCK_LEN)?;
        done += in_block(place, n - done);
    }
    Ok(())
}

/// Puts bytes into one block that is kept.
fn store_piece(blocks: &mut BTreeMap<u64, Block>, at: u64, piece: &[u8])
    requires within { at % 4096 + length piece.now ≤ 4096 }
    requires there { IsSome (kept blocks.old (at / 4096)) }
    ensures bytes { (i : ℕ) → byte_in blocks.new i
        ≡ (if is_within at (length piece.now) i then slice_index piece.now (i - at) else byte_in blocks.old i) }
    ensures there { (q : ℕ) → is_some (kept blocks.new q) ≡ is_some (kept blocks.old q) }
{
    if let Some(block) = blocks.get_mut(&(at / BLOCK_LEN)) {
        block.put((at % BLOCK_LEN) as usize, piece);
    }
}

/// Puts the bytes, but for the first `skip` of them, at an offset, where each block of the range is kept.
pub fn store(blocks: &mut BTreeMap<u64, Block>, at: u64, skip: usize, from: &[u8])
    requires room { at + length from.now < 2 ^ 64 }
    requires within { skip ≤ length from.now }
    requires there { (k : ℕ) → skip ≤ k → k < length from.now → IsSome (kept blocks.old ((at + k) / 4096)) }
    ensures { (i : ℕ) → byte_in blocks.new i
        ≡ (if is_within (at + skip) (length from.now - skip) i then slice_index from.now (i - at) else byte_in blocks.old i) }
{
    let mut done = skip;
    while done < from.len() {
        let place = at + done as u64;
        let n = in_block(place, from.len() - done);
        store_piece(blocks, place, &from[done..done + n]);
        done += n;
    }
}

/// Keeps a block no longer where it is zeros.
fn drop_zeros(blocks: &mut BTreeMap<u64, Block>, number: u64)
    ensures { (i : ℕ) → byte_in blocks.new i ≡ byte_in blocks.old i }
{
    let is_zeros = match blocks.get(&number) {
        Some(block) => block.is_zeros(),
        None => false,
    };
    if is_zeros {
        blocks.remove(&number);
    }
}

/// Keeps no block of a range that is zeros.
pub fn sweep(blocks: &mut BTreeMap<u64, Block>, at: u64, n: usize)
    requires { at + n < 2 ^ 64 }
    ensures { (i : ℕ) → byte_in blocks.new i ≡ byte_in blocks.old i }
{
    let mut done = 0;
    while done < n {
        let place = at + done as u64;
        drop_zeros(blocks, place / BLOCK_LEN);
        done += in_block(place, n - done);
    }
}

/// The same blocks again.
pub fn again(blocks: &BTreeMap<u64, Block>) -> Result<BTreeMap<u64, Block>, AllocError>
    ensures { IfOk result (λ copy. (i : ℕ) → byte_in copy i ≡ byte_in blocks.now i) }
{
    blocks.clone()
}
