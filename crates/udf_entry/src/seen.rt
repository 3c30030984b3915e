// The numbers that came before, as intervals in an ordered map.
ghost use Rattle.std.specs.Prelude.{◌≡◌, ℕ, ◌+◌, ◌<◌, ◌≤◌, true, false, IfOk};
ghost use Rattle.udf_entry.specs.Intervals.{AreApart, IsFree, IsOff};

use std::alloc::{AllocError, Global};
use std::collections::BTreeMap;

/// Intervals of numbers that are pairwise apart. A look-up takes the time of one in an ordered map of the intervals.
#[derive(Drop)]
pub(crate) struct Seen {
    runs: BTreeMap<u64, u64>,
    ghost apart: { AreApart runs },
}

impl Seen {
    /// No number.
    pub fn new(alloc: Global) -> Seen
        ensures { (x : ℕ) → IsOff result.runs x }
    {
        Seen {
            runs: BTreeMap::new(alloc),
        }
    }

    /// Whether a number is in an interval.
    pub fn has(&self, x: u64) -> bool
        ensures off { result ≡ false → IsOff self.now.runs x }
        ensures held { result ≡ true → IsOff self.now.runs x → ⊥ }
    {
        match self.runs.range(..=x).next_back() {
            None => false,
            Some((start, count)) => x - *start < *count,
        }
    }

    /// How many of so many numbers from one on come before the first that is in an interval.
    pub fn free_from(&self, x: u64, count: u64) -> u64
        ensures { IsFree self.now.runs x count result }
    {
        if self.has(x) {
            return 0;
        }
        match self.runs.range(x..).next() {
            None => count,
            Some((start, _)) => {
                let gap = *start - x;
                if gap < count { gap } else { count }
            }
        }
    }

    /// Adds an interval that is apart from the others.
    pub fn add(self, start: u64, count: u64) -> Result<Seen, AllocError>
        requires some { 0 < count }
        requires off { (x : ℕ) → start ≤ x → x < start + count → IsOff self.runs x }
        ensures off { IfOk result (λ seen. (x : ℕ) → IsOff seen.runs x → IsOff self.runs x) }
        ensures outside { IfOk result (λ seen. (x : ℕ) → IsOff seen.runs x → start ≤ x → x < start + count → ⊥) }
        ensures only { IfOk result (λ seen. (x : ℕ) → IsOff self.runs x → (start ≤ x → x < start + count → ⊥) → IsOff seen.runs x) }
    {
        let Seen { mut runs } = self;
        runs.insert(start, count)?;
        Ok(Seen { runs })
    }
}
