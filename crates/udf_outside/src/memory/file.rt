//! One file in memory, with what a stop may leave of it.
ghost use Rattle.std.specs.Prelude.{◌≡◌, ℕ, ◌+◌, ◌≤◌, ◌||◌, [], false, length, take, IfOk, OnOk, OnErr};
ghost use Rattle.udf_model.specs.Bytes.{IsBytes};
ghost use Rattle.udf_outside.specs.Stops.{is_within, slice_of, put};
ghost use Rattle.udf_outside.specs.Ranges.{covers};
ghost use Rattle.udf_outside.specs.Undo.{undone};
ghost use Rattle.udf_outside.specs.Refill.{Refills, is_spared};

use crate::memory::change::Undo;
use crate::memory::range::{Range, add};
use crate::memory::sparse::Sparse;
use std::alloc::{AllocError, Global};
use std::marker::Model;
use std::mem;

/// The bytes that a read gives, the length at the last sync, and the ranges that were written since, the latest last.
#[derive(Drop)]
pub struct MemFile {
    alloc: Global,
    bytes: Sparse,
    base: u64,
    ranges: Vec<Range>,
}

impl Model for MemFile {
    ghost use Rattle.udf_outside.specs.Tracked.{Tracked};

    ghost Value = { Tracked };

    ghost view = { λ file. record { bytes = file.bytes; base = file.base; ranges = file.ranges.items } };
}

impl MemFile {
    /// A file with these bytes, of which nothing is pending.
    pub fn of(alloc: Global, bytes: Sparse) -> MemFile
        ensures { result ≡ record { bytes = bytes; base = length bytes; ranges = [] } }
    {
        let base = bytes.len();
        MemFile {
            alloc,
            bytes,
            base,
            ranges: Vec::new(alloc),
        }
    }

    /// The length in bytes.
    pub fn len(&self) -> u64
        ensures { result ≡ length self.now.bytes }
    {
        self.bytes.len()
    }

    /// What it holds are bytes.
    pub fn known(&self)
        ensures { IsBytes self.now.bytes }
    {
        self.bytes.known()
    }

    /// Fills the slice with the bytes from an offset on.
    pub fn read(&self, at: u64, into: &mut [u8])
        requires { at + length into.old ≤ length self.now.bytes }
        ensures { into.new ≡ slice_of self.now.bytes at (length into.old) }
    {
        self.bytes.read(at, into)
    }

    /// Writes the first `done` bytes, and adds the range of all of them.
    pub fn write(&mut self, at: u64, from: &[u8], done: usize) -> Result<Undo, AllocError>
        requires within { at ≤ length self.old.bytes }
        requires part { done ≤ length from.now }
        ensures bytes { OnOk result (self.new.bytes ≡ put self.old.bytes at (take done from.now)) }
        ensures base { self.new.base ≡ self.old.base }
        ensures pending { OnOk result ((i : ℕ) → covers self.new.ranges i ≡ (covers self.old.ranges i || is_within at (length from.now) i)) }
        ensures undo { IfOk result (λ undo. undone undo self.new ≡ self.old) }
        ensures failed { OnErr result (self.new ≡ self.old) }
    {
        let end = at.checked_add(from.len() as u64).ok_or(AllocError)?;
        let len = self.bytes.len();
        let overwritten = self.bytes.part(self.alloc, at, done)?;
        self.ranges.reserve(1)?;
        self.bytes.put(at, &from[..done])?;
        let joined = add(&mut self.ranges, Range { at, len: end - at })?;
        Ok(Undo::Write {
            at,
            overwritten,
            len,
            joined,
        })
    }

    /// Nothing is pending any more.
    pub fn sync(&mut self) -> Undo
        ensures done { self.new ≡ record { bytes = self.old.bytes; base = length self.old.bytes; ranges = [] } }
        ensures undo { undone result self.new ≡ self.old }
    {
        let base = mem::replace(&mut self.base, self.bytes.len());
        let ranges = mem::replace(&mut self.ranges, Vec::new(self.alloc));
        Undo::Sync { base, ranges }
    }
}

impl MemFile {
    /// The bytes that a read gives.
    pub fn into_bytes(self) -> Sparse
        ensures { result ≡ self.bytes }
    {
        self.bytes
    }

    /// The bytes that a read gives.
    pub fn bytes(&self) -> &Sparse
        ensures { result.now ≡ self.now.bytes }
    {
        &self.bytes
    }

    /// What a stop leaves, with one byte at each pending offset but in the range that is spared.
    pub fn refilled(self, fill: u8, spared: Option<Range>) -> Result<Sparse, AllocError>
        ensures { IfOk result (λ left. Refills fill (covers self.ranges) (is_spared spared) self.bytes left) }
    {
        let mut left = self.bytes;
        let range = spared.unwrap_or(Range { at: 0, len: 0 });
        let at = range.at.min(left.len());
        let kept = left.part(self.alloc, at, range.len as usize)?;
        fill_ranges(&mut left, &self.ranges, fill)?;
        left.put_part(at, &kept)?;
        Ok(left)
    }
}

/// Puts one byte at each offset of these ranges, as far as the bytes reach.
fn fill_ranges(left: &mut Sparse, ranges: &[Range], fill: u8) -> Result<(), AllocError>
    ensures { OnOk result (Refills fill (covers ranges.now) (λ i. false) left.old left.new) }
{
    for range in ranges {
        fill_range(left, range, fill)?;
    }
    Ok(())
}

/// Puts one byte at each offset of a range, as far as the bytes reach.
fn fill_range(left: &mut Sparse, range: &Range, fill: u8) -> Result<(), AllocError>
    ensures { OnOk result (Refills fill (is_within range.now.at range.now.len) (λ i. false) left.old left.new) }
{
    let at = range.at.min(left.len());
    let n = range.len.min(left.len() - at);
    left.fill(at, n, fill)
}
