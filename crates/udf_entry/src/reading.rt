// What was read of a list so far.
ghost use Rattle.std.specs.Prelude.{◌≡◌, ◌+◌, ◌*◌, ◌^◌, ◌<◌, ◌≤◌, ◌%◌, ◌==◌, ◌||◌, ℕ, not, true, false, IfOk, length};
ghost use Rattle.std.specs.List.{list_any};
ghost use Rattle.udf_file_model.specs.Address.{addr};
ghost use Rattle.udf_file_model.specs.Pieces.{bytes_in};
ghost use Rattle.udf_file_model.specs.Front.{blocks_for, is_hole, is_new, is_part, may_come, new_blocks, nothing_yet, run_front, run_passes, stood, with_extent, with_run};
ghost use Rattle.udf_entry.specs.Outcome.{with_front};
ghost use Rattle.udf_entry.specs.Intervals.{Tells, number};
ghost use Rattle.udf_entry.specs.RunView.{past_seen, run_seen, runs_seen};

use crate::Run;
use crate::rules::Rules;
use crate::run::blocks_of;
use crate::seen::Seen;
use std::alloc::{AllocError, Global};
use udf_field::Addr;
use udf_layer::Parts;

// The sum of a list's bytes stays below this.
const LIMIT: u64 = 0x8000_0000_0000_0000;

// The kinds of a descriptor of recorded blocks and of a hole (ECMA-167 4/14.14.1.1).
const RECORDED: u8 = 0;

const HOLE: u8 = 2;

// How far the numbers of a reference are from those of the next one.
const NUMBERS_OF_PART: u64 = 0x2_0000_0000;

/// What was read of a list so far, and by which rules.
#[derive(Drop)]
pub(crate) struct Reading {
    pub rules: Rules,
    pub runs: Vec<Run>,
    pub extents: Vec<Addr>,
    // The sum of the bytes.
    total: u64,
    // Whether a descriptor of part blocks came.
    parted: bool,
    // The blocks that came.
    seen: Seen,
    ghost some: { 0 < rules.size },
    ghost small: { total < 2 ^ 63 },
    ghost few: { length extents.items < 2 ^ 32 },
    ghost summed: { total ≡ bytes_in (runs_seen runs.items) },
    ghost marked: { parted ≡ list_any (is_part rules.size) (runs_seen runs.items) },
    ghost told: { Tells seen.runs (stood rules.size rules.own (past_seen runs.items extents.items)) },
}

// The number of an address.
fn number_of(at: Addr) -> u64
    ensures number { result ≡ number at }
    ensures low { at.block < 2 ^ 32 }
    ensures most { result < 2 ^ 50 }
{
    at.part as u64 * NUMBERS_OF_PART + at.block as u64
}

// Whether a descriptor of part blocks came, one of so many bytes included.
fn also_part(parted: bool, size: u32, bytes: u32) -> bool
    requires { 0 < size }
    ensures { result ≡ (parted || not (bytes % size == 0)) }
{
    parted || bytes % size != 0
}

impl Reading {
    ghost use Rattle.udf_entry.specs.ReadingView.{past_of, rules_seen};

    /// Nothing of the list of an entry.
    pub fn new(alloc: Global, rules: Rules) -> Result<Reading, AllocError>
        requires { 0 < rules.size }
        ensures past { IfOk result (λ reading. past_of reading ≡ nothing_yet) }
        ensures rules { IfOk result (λ reading. reading.rules ≡ rules) }
    {
        let seen = Seen::new(alloc).add(number_of(rules.own), 1)?;
        Ok(Reading {
            rules,
            runs: Vec::new(alloc),
            extents: Vec::new(alloc),
            total: 0,
            parted: false,
            seen,
        })
    }

    /// Whether the block at an address is placed, and stands for the first time.
    #[tactic(auto, unfolding(udf_file_model::specs::Front::is_new))]
    pub fn is_new<P: Parts>(&self, parts: &P, at: Addr) -> bool
        ensures { result ≡ is_new (rules_seen self.now.rules (P.place parts.now)) (past_of self.now) at }
    {
        if parts.locate(at).is_none() {
            return false;
        }
        !self.seen.has(number_of(at))
    }

    // Whether a descriptor itself does not fail.
    #[tactic(auto, unfolding(udf_file_model::specs::Front::may_come))]
    fn may_come<P: Parts>(&self, parts: &P, run: &Run) -> bool
        ensures { result ≡ may_come (rules_seen self.now.rules (P.place parts.now)) (past_of self.now) (run_seen run.now) }
    {
        if self.parted && self.total < self.rules.information {
            return false;
        }
        if self.total + run.length as u64 >= LIMIT {
            return false;
        }
        !(self.rules.directory && run.kind != RECORDED)
    }

    // How many of so many blocks from an address on are new, up to the first that is not.
    fn new_blocks<P: Parts>(&self, parts: &P, at: Addr, count: u32) -> u32
        ensures { result ≡ new_blocks (rules_seen self.now.rules (P.place parts.now)) (past_of self.now) at.part at.block count }
    {
        let placed = parts.placed(at, count);
        self.seen.free_from(number_of(at), placed as u64) as u32
    }

    // One more run, whose blocks are new.
    fn with_run(self, run: Run) -> Result<Reading, AllocError>
        requires some { 0 < run.length }
        requires hole { is_hole (run_seen run) ≡ false }
        requires small { bytes_in (past_of self).runs + run.length < 2 ^ 63 }
        requires free { (k : ℕ) → k < blocks_for self.rules.size run.length
            → stood self.rules.size self.rules.own (past_of self) (addr run.at.part (run.at.block + k)) ≡ false }
        ensures past { IfOk result (λ reading. past_of reading ≡ with_run (past_of self) (run_seen run)) }
        ensures rules { IfOk result (λ reading. reading.rules ≡ self.rules) }
    {
        let Reading {
            rules,
            mut runs,
            extents,
            total,
            parted,
            seen,
        } = self;
        let blocks = blocks_of(rules.size, run.length);
        let seen = seen.add(number_of(run.at), blocks as u64)?;
        runs.push(run)?;
        Ok(Reading {
            rules,
            runs,
            extents,
            total: total + run.length as u64,
            parted: also_part(parted, rules.size, run.length),
            seen,
        })
    }

    // One more hole.
    fn with_hole(self, run: Run) -> Result<Reading, AllocError>
        requires hole { is_hole (run_seen run) ≡ true }
        requires small { bytes_in (past_of self).runs + run.length < 2 ^ 63 }
        ensures past { IfOk result (λ reading. past_of reading ≡ with_run (past_of self) (run_seen run)) }
        ensures rules { IfOk result (λ reading. reading.rules ≡ self.rules) }
    {
        let Reading {
            rules,
            mut runs,
            extents,
            total,
            parted,
            seen,
        } = self;
        runs.push(run)?;
        Ok(Reading {
            rules,
            runs,
            extents,
            total: total + run.length as u64,
            parted: also_part(parted, rules.size, run.length),
            seen,
        })
    }

    /// One more allocation extent, whose block is new. There is no memory for 2^32 of them.
    pub fn with_extent(self, at: Addr) -> Result<Reading, AllocError>
        requires { stood self.rules.size self.rules.own (past_of self) at ≡ false }
        ensures past { IfOk result (λ reading. past_of reading ≡ with_extent (past_of self) at) }
        ensures rules { IfOk result (λ reading. reading.rules ≡ self.rules) }
    {
        let Reading {
            rules,
            runs,
            mut extents,
            total,
            parted,
            seen,
        } = self;
        if extents.len() >= u32::MAX as usize {
            return Err(AllocError);
        }
        let seen = seen.add(number_of(at), 1)?;
        extents.push(at)?;
        Ok(Reading {
            rules,
            runs,
            extents,
            total,
            parted,
            seen,
        })
    }

    /// Reads a descriptor: all of it, or its first blocks up to the one that fails. Tells whether nothing of it failed.
    pub fn take<P: Parts>(self, parts: &P, run: Run) -> Result<(Reading, bool), AllocError>
        requires { 0 < run.length }
        ensures whole { IfOk result (λ t. t.1 ≡ run_passes (rules_seen self.rules (P.place parts.now)) (past_of self) (run_seen run)) }
        ensures done { IfOk result (λ t. t.1 ≡ true → past_of t.0 ≡ with_run (past_of self) (run_seen run)) }
        ensures front { IfOk result (λ t. t.1 ≡ false
            → past_of t.0 ≡ with_front (past_of self) (run_front (rules_seen self.rules (P.place parts.now)) (past_of self) (run_seen run))) }
        ensures rules { IfOk result (λ t. t.0.rules ≡ self.rules) }
    {
        if !self.may_come(parts, &run) {
            return Ok((self, false));
        }
        if run.kind == HOLE {
            let reading = self.with_hole(run)?;
            return Ok((reading, true));
        }
        let blocks = blocks_of(self.rules.size, run.length);
        let new = self.new_blocks(parts, run.at, blocks);
        if new == blocks {
            let reading = self.with_run(run)?;
            return Ok((reading, true));
        }
        if new == 0 {
            return Ok((self, false));
        }
        let front = Run {
            kind: run.kind,
            length: new * self.rules.size,
            at: run.at,
            holder: run.holder,
            index: run.index,
        };
        let reading = self.with_run(front)?;
        Ok((reading, false))
    }

    /// The sum of the bytes.
    pub fn total(&self) -> u64
        ensures { result ≡ bytes_in (past_of self.now).runs }
    {
        self.total
    }

    /// The runs and the allocation extents.
    pub fn into_parts(self) -> (Vec<Run>, Vec<Addr>)
        ensures runs { result.0.items ≡ self.runs.items }
        ensures extents { result.1.items ≡ self.extents.items }
        ensures few { length self.extents.items < 2 ^ 32 }
    {
        let Reading {
            rules: _,
            runs,
            extents,
            total: _,
            parted: _,
            seen: _,
        } = self;
        (runs, extents)
    }
}
