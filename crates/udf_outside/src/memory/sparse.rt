//! Bytes that may be mostly zeros: a front that is held whole, and behind it blocks, of which those of zeros are not held.
ghost use Rattle.std.specs.Prelude.{◌≡◌, ℕ, ◌+◌, ◌-◌, ◌<◌, ◌≤◌, min, length, replicate, slice_index, IsTrue, ◌↔◌, IfOk, OnOk, OnErr, ◌⊎◌, All};
ghost use Rattle.std.specs.BTreeMap.{keys};
ghost use Rattle.udf_model.specs.Bytes.{IsBytes};
ghost use Rattle.udf_outside.specs.Blocks.{AgreeIn};
ghost use Rattle.udf_outside.specs.Stops.{slice_of, put};
ghost use Rattle.udf_outside.specs.Undo.{part_bytes};

use crate::memory::block::{BLOCK_LEN, Block};
use crate::memory::blocks;
use crate::memory::part::Part;
use std::alloc::{AllocError, Global};
use std::collections::BTreeMap;
use std::marker::Model;

/// How many bytes are filled at a time.
const FILL_LEN: u64 = 4096;

/// So many bytes. The front is held whole.
#[derive(Drop)]
pub struct Sparse {
    alloc: Global,
    front: Vec<u8>,
    len: u64,
    blocks: BTreeMap<u64, Block>,
}

impl Model for Sparse {
    ghost use Rattle.std.specs.Prelude.{ℕ, List, ◌<◌, ◌≤◌, ◌^◌, length};
    ghost use Rattle.udf_outside.specs.Blocks.{byte_in, sparse_bytes};

    ghost Value = { List ℕ };

    ghost view = { λ sparse. sparse_bytes sparse.front.items sparse.len sparse.blocks };

    ghost invariant = { λ sparse. (length sparse.front.items ≤ sparse.len) × (sparse.len < 2 ^ 64) × ((i : ℕ) → byte_in sparse.blocks i < 256) };
}

/// What a slice holds are bytes.
fn known_bytes(bytes: &[u8])
    ensures { IsBytes bytes.now }
{}

/// How many of so many bytes from an offset on lie in the front.
fn in_front(front: &[u8], at: u64, n: usize) -> usize
    ensures { result ≡ min n (length front.now - at) }
{
    n.min((front.len() as u64).saturating_sub(at) as usize)
}

/// Fills the front of the slice with the bytes from an offset on as far as the front has them, and tells how many.
fn read_front(front: &[u8], at: u64, into: &mut [u8]) -> usize
    ensures count { result ≡ min (length into.old) (length front.now - at) }
    ensures bytes { (k : ℕ) → k < result → slice_index into.new k ≡ slice_index front.now (at + k) }
{
    let n = in_front(front, at, into.len());
    if n > 0 {
        let at = at as usize;
        into[..n].copy_from_slice(&front[at..at + n]);
    }
    n
}

/// Puts so many of the bytes into the front.
fn put_front(front: &mut [u8], at: u64, n: usize, from: &[u8])
    requires { n ≡ min (length from.now) (length front.old - at) }
    ensures outside { (i : ℕ) → (i < at) ⊎ (at + n ≤ i) → slice_index front.new i ≡ slice_index front.old i }
    ensures inside { (i : ℕ) → at ≤ i → i < at + n → slice_index front.new i ≡ slice_index from.now (i - at) }
{
    if n > 0 {
        let at = at as usize;
        front[at..at + n].copy_from_slice(&from[..n]);
    }
}

impl Sparse {
    /// These bytes.
    pub fn of(alloc: Global, bytes: Vec<u8>) -> Sparse
        ensures { result ≡ bytes.items }
    {
        Sparse {
            alloc,
            len: bytes.len() as u64,
            front: bytes,
            blocks: BTreeMap::new(alloc),
        }
    }

    /// So many zeros.
    pub fn zeros(alloc: Global, n: u64) -> Sparse
        ensures { result ≡ replicate n 0 }
    {
        Sparse {
            alloc,
            len: n,
            front: Vec::new(alloc),
            blocks: BTreeMap::new(alloc),
        }
    }

    /// The number of the bytes.
    pub fn len(&self) -> u64
        ensures { result ≡ length self.now }
    {
        self.len
    }

    /// These are bytes.
    pub fn known(&self)
        ensures { IsBytes self.now }
    {
        known_bytes(&self.front);
    }

    /// Fills the slice with the bytes from an offset on.
    pub fn read(&self, at: u64, into: &mut [u8])
        requires { at + length into.old ≤ length self.now }
        ensures { into.new ≡ slice_of self.now at (length into.old) }
    {
        let first = read_front(&self.front, at, into);
        blocks::read(&self.blocks, at, first, into);
    }

    /// Copies so many bytes from an offset on, fewer where the bytes end before.
    pub fn part(&self, alloc: Global, at: u64, n: usize) -> Result<Part, AllocError>
        requires { at ≤ length self.now }
        ensures { IfOk result (λ part. part_bytes part ≡ slice_of self.now at n) }
    {
        let len = (self.len() - at).min(n as u64);
        let mut bytes = vec![in alloc; 0; len as usize]?;
        self.read(at, &mut bytes);
        Ok(Part::of(bytes))
    }

    /// Puts the bytes at an offset. Without memory all stays as it was.
    pub fn put(&mut self, at: u64, from: &[u8]) -> Result<(), AllocError>
        requires { at ≤ length self.old }
        ensures done { OnOk result (self.new ≡ put self.old at from.now) }
        ensures failed { OnErr result (self.new ≡ self.old) }
    {
        let end = at.checked_add(from.len() as u64).ok_or(AllocError)?;
        let first = in_front(&self.front, at, from.len());
        let place = at + first as u64;
        let rest = from.len() - first;
        if let Err(e) = blocks::prepare(self.alloc, &mut self.blocks, place, rest) {
            blocks::sweep(&mut self.blocks, place, rest);
            return Err(e);
        }
        put_front(&mut self.front, at, first, from);
        blocks::store(&mut self.blocks, at, first, from);
        blocks::sweep(&mut self.blocks, place, rest);
        self.len = self.len.max(end);
        Ok(())
    }

    /// Puts one byte so many times at an offset, within the bytes.
    pub fn fill(&mut self, at: u64, n: u64, byte: u8) -> Result<(), AllocError>
        requires { at + n ≤ length self.old }
        ensures { OnOk result (self.new ≡ put self.old at (replicate n byte)) }
    {
        let end = self.len().min(at.saturating_add(n));
        let mut place = at;
        while place < end {
            let count = FILL_LEN.min(end - place);
            let chunk = vec![in self.alloc; byte; count as usize]?;
            self.put(place, &chunk)?;
            place += count;
        }
        Ok(())
    }

    /// Puts a part at an offset.
    pub fn put_part(&mut self, at: u64, part: &Part) -> Result<(), AllocError>
        requires { at + length (part_bytes part.now) ≤ length self.old }
        ensures { OnOk result (self.new ≡ put self.old at (part_bytes part.now)) }
    {
        match part {
            Part::Zeros(n) => self.fill(at, *n, 0),
            Part::Bytes(bytes) => self.put(at, bytes),
        }
    }

    /// All bytes.
    pub fn copy(&self, alloc: Global) -> Result<Vec<u8>, AllocError>
        ensures { IfOk result (λ bytes. bytes.items ≡ self.now) }
    {
        let mut bytes = vec![in alloc; 0; self.len() as usize]?;
        self.read(0, &mut bytes);
        Ok(bytes)
    }

    /// The same bytes again.
    pub fn again(&self, alloc: Global) -> Result<Sparse, AllocError>
        ensures { IfOk result (λ bytes. bytes ≡ self.now) }
    {
        Ok(Sparse {
            alloc,
            front: Vec::from_slice(alloc, &self.front)?,
            len: self.len,
            blocks: blocks::again(&self.blocks)?,
        })
    }

    /// Whether these are the same bytes. The time goes by what is held, and not by the zeros.
    pub fn same(&self, other: &Sparse) -> bool
        ensures { IsTrue result ↔ (self.now ≡ other.now) }
    {
        if self.len() != other.len() {
            return false;
        }
        let near = self.front.len().max(other.front.len()) as u64;
        if !self.agrees(other, 0, near) {
            return false;
        }
        if !self.agrees_where(other, &self.blocks) {
            return false;
        }
        self.agrees_where(other, &other.blocks)
    }

    /// Whether the bytes of a range are the same.
    fn agrees(&self, other: &Sparse, from: u64, to: u64) -> bool
        requires { length self.now ≡ length other.now }
        ensures { IsTrue result ↔ ((i : ℕ) → from ≤ i → i < to → slice_index self.now i ≡ slice_index other.now i) }
    {
        for i in from..to.min(self.len()) {
            if self.byte(i) != other.byte(i) {
                return false;
            }
        }
        true
    }

    /// Whether the bytes of a block are the same.
    fn agrees_in(&self, other: &Sparse, number: u64) -> bool
        requires { length self.now ≡ length other.now }
        ensures { IsTrue result ↔ AgreeIn self.now other.now number }
    {
        let from = number.saturating_mul(BLOCK_LEN);
        self.agrees(other, from, from.saturating_add(BLOCK_LEN).min(self.len()))
    }

    /// Whether the bytes are the same in each of these blocks.
    fn agrees_where(&self, other: &Sparse, blocks: &BTreeMap<u64, Block>) -> bool
        requires { length self.now ≡ length other.now }
        ensures { IsTrue result ↔ All (AgreeIn self.now other.now) (keys blocks.now) }
    {
        for number in blocks.keys() {
            if !self.agrees_in(other, *number) {
                return false;
            }
        }
        true
    }

    fn byte(&self, i: u64) -> u8
        requires { i < length self.now }
        ensures { result ≡ slice_index self.now i }
    {
        let mut byte = [0];
        self.read(i, &mut byte);
        byte[0]
    }
}
