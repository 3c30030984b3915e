// The bitmap of a partition.
ghost use Rattle.std.specs.Prelude.{◌≡◌, ◌+◌, ◌≤◌, ◌<◌, ◌++◌, true, false, IfOk, Some, length, take, drop, replicate, count_by, slice_get, slice_set};
ghost use Rattle.std.specs.Simd.Lanes.{zip2};
ghost use Rattle.udf_space.specs.Bits.{bytes_for, differ};
ghost use Rattle.udf_space.specs.Area.{bitmap_in, encoded};

use crate::NoMemory;
use crate::header::{BITS_AT, has_header, put_header};
use crate::stored::{BYTE_BITS, clear_rest, clear_run, stored_bytes};
use std::alloc::Global;
use std::marker::Model;
use udf_field::retag;

/// Which blocks of a partition are free (ECMA-167 4/14.12). A contract sees it as a list of bits, one for each block,
/// true for a free block.
#[derive(Drop)]
pub struct Bitmap {
    blocks: u32,
    bytes: Vec<u8>,
}

impl Model for Bitmap {
    ghost use Rattle.std.specs.Prelude.{Bool, List};
    ghost use Rattle.udf_space.specs.Bits.{bits_of};
    ghost use Rattle.udf_space.specs.Stored.{IsStored};

    ghost Value = { List Bool };

    ghost view = { λ b. bits_of b.blocks b.bytes.items };

    ghost invariant = { λ b. IsStored b.blocks b.bytes.items };
}

impl Bitmap {
    /// A bitmap of so many blocks, each of them free. `NoMemory` where there is none for a bit a block.
    pub fn blank(alloc: Global, blocks: u32) -> Result<Bitmap, NoMemory>
        ensures { IfOk result (λ bitmap. bitmap ≡ replicate blocks true) }
    {
        let mut bytes = vec![in alloc; u8::MAX; stored_bytes(blocks)]?;
        clear_rest(&mut bytes, blocks);
        Ok(Bitmap { blocks, bytes })
    }

    /// The bitmap of so many blocks that an area holds, which is the extent of the bitmap: its tag is whole and has the
    /// identifier of a space bitmap, and its counts are those of the blocks. The location of the tag is not looked at.
    /// `NoMemory` where there is none for a bit a block.
    #[tactic(auto, unfolding(crate::specs::Area::bitmap_in))]
    pub fn read(alloc: Global, area: &[u8], blocks: u32) -> Result<Option<Bitmap>, NoMemory>
        requires { 24 + bytes_for blocks ≤ length area.now }
        ensures { IfOk result (λ bitmap. bitmap ≡ bitmap_in blocks area.now) }
    {
        if !has_header(area, blocks) {
            return Ok(None);
        }
        let end = BITS_AT + stored_bytes(blocks);
        let mut bytes = Vec::from_slice(alloc, &area[BITS_AT..end])?;
        clear_rest(&mut bytes, blocks);
        Ok(Some(Bitmap { blocks, bytes }))
    }

    /// Whether a block is free.
    pub fn is_free(&self, block: u32) -> bool
        requires { block < length self.now }
        ensures { slice_get self.now block ≡ Some result }
    {
        let byte = self.bytes[(block / BYTE_BITS) as usize];
        (byte >> (block % BYTE_BITS)) & 1 == 1
    }

    /// Makes a block used, if it is not.
    pub fn claim(&mut self, block: u32)
        requires { block < length self.old }
        ensures { self.new ≡ slice_set self.old block false }
    {
        self.bytes[(block / BYTE_BITS) as usize] &= !(1u8 << (block % BYTE_BITS));
    }

    /// Makes a run of blocks used. Takes a step for each byte of the run.
    pub fn claim_run(&mut self, block: u32, blocks: u32)
        requires { block + blocks ≤ length self.old }
        ensures { self.new ≡ take block self.old ++ replicate blocks false ++ drop (block + blocks) self.old }
    {
        clear_run(&mut self.bytes, block, block + blocks);
    }

    /// The number of free blocks.
    pub fn free_count(&self) -> u32
        ensures { result ≡ count_by (λ free. free) self.now }
    {
        // The count is at most this, so it fits.
        let _blocks = self.blocks;
        let mut total = 0;
        for byte in &self.bytes {
            total += byte.count_ones();
        }
        total
    }

    /// How many blocks are free in one of two bitmaps of as many blocks alone.
    pub fn differing(&self, other: &Bitmap) -> u32
        requires { length self.now ≡ length other.now }
        ensures { result ≡ count_by (λ differs. differs) (zip2 differ self.now other.now) }
    {
        // The count is at most this, so it fits.
        let _blocks = self.blocks;
        let mut total = 0;
        for i in 0..self.bytes.len() {
            total += (self.bytes[i] ^ other.bytes[i]).count_ones();
        }
        total
    }

    /// Writes the bitmap over the beginning of an area, with a tag of this version, serial number and location (a block
    /// of the partition) whose CRC is over no bytes. The bytes after the bits stay.
    pub fn encode(&self, version: u16, serial: u16, location: u32, into: &mut [u8])
        requires { 24 + bytes_for (length self.now) ≤ length into.old }
        ensures { into.new ≡ encoded version serial location self.now into.old }
    {
        let end = BITS_AT + self.bytes.len();
        into[BITS_AT..end].copy_from_slice(&self.bytes);
        put_header(into, version, serial, self.blocks);
        retag(into, 0, location);
    }
}
