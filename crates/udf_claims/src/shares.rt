// The wants of one class as two maps of steps: who wanted a number last, and who wants it alone. What one more run
// changes in the second is told by whole stretches of the first, and these become one stretch, the run's own. So a
// stretch is passed once in its life, however the runs overlap.
ghost use Rattle.std.specs.Prelude.{◌<◌, ◌≤◌, Some, OnOk, OnErr};
ghost use Rattle.udf_claims.specs.Standing.{owner_at, HasKey, SameOwners, SetsOwners, KeepsKeys, SharesKeys};
ghost use Rattle.udf_claims.specs.Shares.{sole_after};

use crate::steps::{Steps, change_after, cut, join, next_key, put, value_at};
use std::alloc::AllocError;

// Makes the keys of another map, from one number on and below another, keys of this one too, and that other number.
fn cut_at_keys(sole: &mut Steps, latest: &Steps, from: u64, to: u64) -> Result<(), AllocError>
    requires { from ≤ to }
    ensures same { SameOwners sole.old sole.new }
    ensures keys { OnOk result (SharesKeys latest.now sole.new from to) }
{
    let mut next = from;
    while let Some(key) = next_key(latest, next, to) {
        cut(sole, key)?;
        next = key + 1;
    }
    cut(sole, to)
}

// Who wants a stretch alone, after one want more, where somebody wanted it last, or nobody.
fn settle_stretch(sole: &mut Steps, from: u64, to: u64, last: Option<u64>, owner: u64)
    requires forward { from < to }
    requires first { HasKey sole.old from }
    requires end { HasKey sole.old to }
    ensures value { SetsOwners sole.old sole.new from to (λ q. sole_after owner last (owner_at sole.old q)) }
    ensures keys { KeepsKeys sole.old sole.new to }
{
    match last {
        None => put(sole, from, to, Some(owner)),
        Some(other) => if other != owner {
            put(sole, from, to, None)
        },
    }
}

// Who wants the numbers of a run alone, after it.
fn settle(sole: &mut Steps, latest: &Steps, from: u64, to: u64, owner: u64)
    requires forward { from ≤ to }
    requires ends { HasKey latest.now from × HasKey latest.now to }
    requires keys { SharesKeys latest.now sole.old from to }
    ensures { SetsOwners sole.old sole.new from to (λ q. sole_after owner (owner_at latest.now q) (owner_at sole.old q)) }
{
    let mut next = from;
    while next < to {
        let end = change_after(latest, next, to);
        settle_stretch(sole, next, end, value_at(latest, next), owner);
        join(sole, next);
        next = end;
    }
    join(sole, to);
}

// Makes both ends of a run keys of both maps, and the keys between of the first ones of the second.
fn cut_both(latest: &mut Steps, sole: &mut Steps, from: u64, to: u64) -> Result<(), AllocError>
    requires { from ≤ to }
    ensures latest_same { SameOwners latest.old latest.new }
    ensures sole_same { SameOwners sole.old sole.new }
    ensures ends { OnOk result (HasKey latest.new from × HasKey latest.new to) }
    ensures keys { OnOk result (SharesKeys latest.new sole.new from to) }
{
    cut(latest, from)?;
    cut(latest, to)?;
    cut_at_keys(sole, latest, from, to)
}

// Adds an owner's wants of some numbers: only the keys that are made first take memory.
fn share_some(
    latest: &mut Steps,
    sole: &mut Steps,
    from: u64,
    to: u64,
    owner: u64,
) -> Result<(), AllocError>
    requires { from < to }
    ensures latest { OnOk result (SetsOwners latest.old latest.new from to (λ _. Some owner)) }
    ensures sole { OnOk result (SetsOwners sole.old sole.new from to (λ q. sole_after owner (owner_at latest.old q) (owner_at sole.old q))) }
    ensures latest_err { OnErr result (SameOwners latest.old latest.new) }
    ensures sole_err { OnErr result (SameOwners sole.old sole.new) }
{
    cut_both(latest, sole, from, to)?;
    settle(sole, latest, from, to, owner);
    put(latest, from, to, Some(owner));
    join(latest, from);
    join(latest, to);
    Ok(())
}

/// Adds an owner's wants of the numbers from one on, below another. After want of memory no value has changed.
pub(crate) fn share(
    latest: &mut Steps,
    sole: &mut Steps,
    from: u64,
    to: u64,
    owner: u64,
) -> Result<(), AllocError>
    requires { from ≤ to }
    ensures latest { OnOk result (SetsOwners latest.old latest.new from to (λ _. Some owner)) }
    ensures sole { OnOk result (SetsOwners sole.old sole.new from to (λ q. sole_after owner (owner_at latest.old q) (owner_at sole.old q))) }
    ensures latest_err { OnErr result (SameOwners latest.old latest.new) }
    ensures sole_err { OnErr result (SameOwners sole.old sole.new) }
{
    if from < to {
        share_some(latest, sole, from, to, owner)
    } else {
        Ok(())
    }
}
