//! A block of bytes.
ghost use Rattle.std.specs.Prelude.{◌≡◌, ℕ, ◌+◌, ◌≤◌, length, slice_index, IfOk, IsTrue, ◌↔◌};
ghost use Rattle.udf_outside.specs.Stops.{slice_of, put};

use std::alloc::{AllocError, Global};
use std::marker::Model;

/// The length of a block in bytes.
pub const BLOCK_LEN: u64 = 4096;

/// A block of `BLOCK_LEN` bytes.
#[derive(Drop)]
pub struct Block {
    bytes: Vec<u8>,
}

impl Model for Block {
    ghost use Rattle.std.specs.Prelude.{◌≡◌, ℕ, List, length};

    ghost Value = { List ℕ };

    ghost view = { λ block. block.bytes.items };

    ghost invariant = { λ block. length block.bytes.items ≡ 4096 };
}

impl Clone for Block {
    ghost is_clone = { λ block copy. copy ≡ block };

    fn clone(&self) -> Result<Block, AllocError> {
        Ok(Block {
            bytes: self.bytes.clone()?,
        })
    }
}

impl Block {
    /// A block of zeros.
    pub fn zeros(alloc: Global) -> Result<Block, AllocError>
        ensures { IfOk result (λ block. (k : ℕ) → slice_index block k ≡ 0) }
    {
        Ok(Block {
            bytes: vec![in alloc; 0; BLOCK_LEN as usize]?,
        })
    }

    /// Fills the slice with the bytes from a place on.
    pub fn read(&self, start: usize, into: &mut [u8])
        requires { start + length into.old ≤ 4096 }
        ensures { into.new ≡ slice_of self.now start (length into.old) }
    {
        into.copy_from_slice(&self.bytes[start..start + into.len()]);
    }

    /// Puts the bytes at a place.
    pub fn put(&mut self, start: usize, piece: &[u8])
        requires { start + length piece.now ≤ 4096 }
        ensures done { self.new ≡ put self.old start piece.now }
        ensures len { length self.old ≡ 4096 }
    {
        self.bytes[start..start + piece.len()].copy_from_slice(piece);
    }

    /// Whether all its bytes are zeros.
    pub fn is_zeros(&self) -> bool
        ensures { IsTrue result ↔ ((k : ℕ) → slice_index self.now k ≡ 0) }
    {
        for byte in &self.bytes {
            if *byte != 0 {
                return false;
            }
        }
        true
    }
}
