//! A bench in memory, some of whose calls fail, and which may stop.
#![tactic(auto, unfolding(crate::specs::Memory::files_in, crate::specs::Memory::held_in, crate::specs::Memory::script_in, crate::specs::Undo::held_of, crate::specs::Undo::content_in))]

ghost use Rattle.std.specs.Prelude.{◌≡◌, ℕ, ◌+◌, ◌<◌, ◌≤◌, ◌||◌, ◌++◌, ◌∷◌, [], false, length, take, replicate, IfOk, OnOk, OnErr, vec_len, vec_capacity};
ghost use Rattle.udf_outside.specs.Files.{other, resized};
ghost use Rattle.udf_outside.specs.Ranges.{covers};
ghost use Rattle.udf_outside.specs.Undo.{undone_in};
ghost use Rattle.udf_outside.specs.Stops.{is_within, bytes_of, put, after_write, after_sync};
ghost use Rattle.udf_outside.specs.Memory.{files_in, held_in, script_in, tracked_of, unasked, synced_at, SameButFiles, left_by, spared_by};
ghost use Rattle.udf_outside.specs.Script.{not_begun, writes_of};
ghost use Rattle.udf_outside.specs.declared.bench.Role.TheVariants.{Image, Side};

use crate::{Access, Role};
use change::{Change, Undo};
use file::MemFile;
use range::Range;
use script::{Script, Turn};
use sparse::Sparse;
use std::alloc::{AllocError, Global};

mod bench;
mod block;
mod blocks;
pub(crate) mod change;
mod file;
pub(crate) mod part;
pub(crate) mod range;
mod restart;
pub(crate) mod script;
mod sink;
mod sparse;

pub use script::Stop;
pub use sink::MemSink;

/// A file of a bench in memory, and what was asked of it.
#[derive(Drop)]
pub struct MemSlot {
    pub file: MemFile,
    pub name: Option<String>,
    pub asked: Option<Access>,
    pub attached: bool,
}

/// A bench in memory. Its calls are numbered from 1, and after the last value of `u64` each later one bears that number.
#[derive(Drop)]
pub struct MemBench {
    pub(crate) alloc: Global,
    pub(crate) image: MemSlot,
    pub(crate) side: MemSlot,
    pub(crate) changes: Vec<Change>,
    pub(crate) script: Script,
}

/// A file with these bytes, of which nothing was asked.
fn unasked_slot(alloc: Global, bytes: Sparse) -> MemSlot
    ensures { result ≡ record {
      file = record { bytes = bytes; base = length bytes; ranges = [] };
      name = None;
      asked = None;
      attached = false;
    } }
{
    MemSlot {
        file: MemFile::of(alloc, bytes),
        name: None,
        asked: None,
        attached: false,
    }
}

/// A bench with these contents.
pub(crate) fn bench_of(alloc: Global, image: Sparse, side: Sparse, script: Script) -> MemBench
    ensures files { files_in result ≡ unasked (length image) (length side) }
    ensures held { held_in result ≡ synced_at image side }
    ensures script { script_in result ≡ script }
{
    MemBench {
        alloc,
        image: unasked_slot(alloc, image),
        side: unasked_slot(alloc, side),
        changes: Vec::new(alloc),
        script,
    }
}

impl MemBench {
    /// A bench with these contents, whose calls with the numbers in `fail` fail, and which stops at `stop`.
    pub fn new(
        alloc: Global,
        image: Vec<u8>,
        side: Vec<u8>,
        fail: Vec<u64>,
        stop: Option<Stop>,
    ) -> MemBench
        ensures files { files_in result ≡ unasked (length image.items) (length side.items) }
        ensures held { held_in result ≡ synced_at image.items side.items }
        ensures script { script_in result ≡ not_begun fail.items stop }
    {
        bench_of(
            alloc,
            Sparse::of(alloc, image),
            Sparse::of(alloc, side),
            Script::new(fail, stop),
        )
    }

    /// A bench with an image of so many zeros and an empty side file, of which no call fails.
    pub fn sparse(alloc: Global, bytes: u64) -> MemBench
        ensures files { files_in result ≡ unasked bytes 0 }
        ensures held { held_in result ≡ synced_at (replicate bytes 0) [] }
        ensures script { script_in result ≡ not_begun [] None }
    {
        let image = Sparse::zeros(alloc, bytes);
        let side = Sparse::of(alloc, Vec::new(alloc));
        bench_of(alloc, image, side, Script::new(Vec::new(alloc), None))
    }

    /// The number of calls so far. It stands still at the last value of `u64`.
    pub fn calls(&self) -> u64
        ensures { result ≡ (script_in self.now).calls }
    {
        self.script.calls()
    }

    /// How many calls found no memory. The count stands still at the last value of `u64`.
    pub fn wants(&self) -> u64
        ensures { result ≡ (script_in self.now).wants }
    {
        self.script.wants()
    }

    /// How many writes of a role were called, failed or not. The count stands still at the last value of `u64`.
    pub fn writes(&self, role: Role) -> u64
        ensures { result ≡ writes_of role (script_in self.now) }
    {
        self.script.writes(role)
    }

    /// What is held of a role.
    pub(crate) fn file(&self, role: Role) -> &MemFile
        ensures { result.now ≡ tracked_of role self.now }
    {
        match role {
            Role::Image => &self.image.file,
            Role::Side => &self.side.file,
        }
    }

    fn write_file(
        &mut self,
        role: Role,
        at: u64,
        from: &[u8],
        done: usize,
    ) -> Result<Undo, AllocError>
        requires within { at ≤ length (tracked_of role self.old).bytes }
        requires part { done ≤ length from.now }
        ensures bytes { OnOk result ((tracked_of role self.new).bytes ≡ put (tracked_of role self.old).bytes at (take done from.now)) }
        ensures base { (tracked_of role self.new).base ≡ (tracked_of role self.old).base }
        ensures pending { OnOk result ((i : ℕ) → covers (tracked_of role self.new).ranges i
            ≡ (covers (tracked_of role self.old).ranges i || is_within at (length from.now) i)) }
        ensures image { IfOk result (λ undo. undone_in Image role undo self.new.image.file ≡ self.old.image.file) }
        ensures side { IfOk result (λ undo. undone_in Side role undo self.new.side.file ≡ self.old.side.file) }
        ensures other { tracked_of (other role) self.new ≡ tracked_of (other role) self.old }
        ensures failed { OnErr result (tracked_of role self.new ≡ tracked_of role self.old) }
        ensures rest { SameButFiles self.old self.new }
    {
        match role {
            Role::Image => self.image.file.write(at, from, done),
            Role::Side => self.side.file.write(at, from, done),
        }
    }

    fn sync_file(&mut self, role: Role) -> Undo
        ensures done { tracked_of role self.new ≡ record {
          bytes = (tracked_of role self.old).bytes;
          base = length (tracked_of role self.old).bytes;
          ranges = [];
        } }
        ensures image { undone_in Image role result self.new.image.file ≡ self.old.image.file }
        ensures side { undone_in Side role result self.new.side.file ≡ self.old.side.file }
        ensures other { tracked_of (other role) self.new ≡ tracked_of (other role) self.old }
        ensures rest { SameButFiles self.old self.new }
    {
        match role {
            Role::Image => self.image.file.sync(),
            Role::Side => self.side.file.sync(),
        }
    }

    /// Writes the first `done` bytes, after which the range of all of them is pending. Without memory all stays.
    pub(crate) fn put_down(
        &mut self,
        role: Role,
        at: u64,
        from: &[u8],
        done: usize,
    ) -> Result<(), AllocError>
        requires within { at ≤ length (bytes_of role (held_in self.old)) }
        requires part { done ≤ length from.now }
        ensures done { OnOk result (held_in self.new
            ≡ after_write role at (length from.now) (put (bytes_of role (held_in self.old)) at (take done from.now)) (held_in self.old)) }
        ensures failed { OnErr result (held_in self.new ≡ held_in self.old) }
        ensures files { files_in self.new ≡ resized role (length (bytes_of role (held_in self.new))) (files_in self.old) }
        ensures script { script_in self.new ≡ script_in self.old }
    {
        self.changes.reserve(1)?;
        let undo = self.write_file(role, at, from, done)?;
        append(&mut self.changes, Change { role, undo });
        Ok(())
    }

    /// Carries a write out as far as its turn goes. Without memory all stays.
    pub(crate) fn carry_out(
        &mut self,
        turn: Turn,
        role: Role,
        at: u64,
        from: &[u8],
    ) -> Result<(), AllocError>
        requires within { at ≤ length (bytes_of role (held_in self.old)) }
        ensures done { OnOk result (held_in self.new ≡ left_by turn role at from.now (held_in self.old)) }
        ensures failed { OnErr result (held_in self.new ≡ held_in self.old) }
        ensures files { files_in self.new ≡ resized role (length (bytes_of role (held_in self.new))) (files_in self.old) }
        ensures spared { OnOk result ((script_in self.new).spared ≡ spared_by turn role at (length from.now) (script_in self.old).spared) }
        ensures kept { OnErr result (script_in self.new ≡ script_in self.old) }
        ensures script { script_in self.new ≡ record (script_in self.old) { spared = (script_in self.new).spared } }
    {
        if turn == Turn::Over {
            return Ok(());
        }
        let done = turn.done(from.len());
        self.put_down(role, at, from, done)?;
        if let Turn::Stops(_) = turn {
            self.script.spare(
                role,
                Range {
                    at,
                    len: done as u64,
                },
            );
        }
        Ok(())
    }

    /// Makes a role durable. Without memory all stays.
    pub(crate) fn make_durable(&mut self, role: Role) -> Result<(), AllocError>
        ensures done { OnOk result (held_in self.new ≡ after_sync role (held_in self.old)) }
        ensures failed { OnErr result (held_in self.new ≡ held_in self.old) }
        ensures files { files_in self.new ≡ files_in self.old }
        ensures script { script_in self.new ≡ script_in self.old }
    {
        self.changes.reserve(1)?;
        let undo = self.sync_file(role);
        append(&mut self.changes, Change { role, undo });
        Ok(())
    }
}

/// Appends a change where room for it was made.
fn append(changes: &mut Vec<Change>, change: Change)
    requires { vec_len changes.old < vec_capacity changes.old }
    ensures { changes.new.items ≡ changes.old.items ++ change ∷ [] }
{
    let _ = changes.push(change);
}
