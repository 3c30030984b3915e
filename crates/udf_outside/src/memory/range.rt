//! Ranges of a file, in bytes.
ghost use Rattle.std.specs.Prelude.{◌≡◌, ℕ, ◌+◌, ◌^◌, ◌<◌, ◌≤◌, ◌||◌, ◌++◌, ◌-◌, take, length, option_to_list, IsTrue, ◌↔◌, OnOk, OnErr, IfOk, vec_capacity, vec_len};
ghost use Rattle.udf_outside.specs.Stops.{is_within};
ghost use Rattle.udf_outside.specs.Ranges.{covers};

use std::alloc::AllocError;

/// So many bytes from an offset on.
#[derive(Clone, Copy, Debug, PartialEq, Eq)]
pub struct Range {
    pub at: u64,
    pub len: u64,
}

impl Range {
    /// Whether another range begins in this one or right behind it.
    pub fn reaches(self, next: Range) -> bool
        ensures { IsTrue result ↔ (self.at ≤ next.at) × (next.at ≤ self.at + self.len) }
    {
        self.at <= next.at && next.at - self.at <= self.len
    }

    /// This range and another one that it reaches, as one.
    pub fn joined(self, next: Range) -> Range
        requires reaches { (self.at ≤ next.at) × (next.at ≤ self.at + self.len) }
        requires room { next.at + next.len < 2 ^ 64 }
        ensures { (i : ℕ) → is_within result.at result.len i ≡ (is_within self.at self.len i || is_within next.at next.len i) }
    {
        Range {
            at: self.at,
            len: self.len.max(next.at - self.at + next.len),
        }
    }
}

/// Adds a range. Where the last one reaches it, the two are joined, and the last one as it was is the answer.
pub fn add(ranges: &mut Vec<Range>, range: Range) -> Result<Option<Range>, AllocError>
    requires { range.at + range.len < 2 ^ 64 }
    ensures covers { OnOk result ((i : ℕ) → covers ranges.new.items i ≡ (covers ranges.old.items i || is_within range.at range.len i)) }
    ensures before { IfOk result (λ joined. ranges.old.items ≡ take (length ranges.new.items - 1) ranges.new.items ++ option_to_list joined) }
    ensures full { OnErr result (vec_capacity ranges.old ≤ vec_len ranges.old) }
{
    match ranges.last().copied() {
        Some(last) if last.reaches(range) => {
            let place = ranges.len() - 1;
            ranges[place] = last.joined(range);
            Ok(Some(last))
        }
        _ => {
            ranges.push(range)?;
            Ok(None)
        }
    }
}
