// A value for each number, which changes only at the keys of an ordered map: a number has the value of the greatest
// key up to it.
ghost use Rattle.std.specs.Prelude.{◌≡◌, ℕ, ◌+◌, ◌<◌, ◌≤◌, ◌&&◌, false, cond, nat_le, nat_lt, IsSome, Some, OnOk, MatchOption, None};
ghost use Rattle.std.specs.Ordering.{nat_cmp, is_eq};
ghost use Rattle.std.specs.BTreeMap.{get};
ghost use Rattle.udf_claims.specs.Standing.{HasNone, IsNext, owner_at, HasKey, SameOwners, SetsOwners, KeepsKeys};

use std::alloc::AllocError;
use std::collections::BTreeMap;

/// An owner, or nobody, for each number.
pub(crate) type Steps = BTreeMap<u64, Option<u64>>;

/// The value of a number.
pub(crate) fn value_at(steps: &Steps, x: u64) -> Option<u64>
    ensures { result ≡ owner_at steps.now x }
{
    match steps.range(..=x).next_back() {
        None => None,
        Some((_, owner)) => *owner,
    }
}

/// Makes a number a key, which changes no value.
pub(crate) fn cut(steps: &mut Steps, x: u64) -> Result<(), AllocError>
    ensures same { SameOwners steps.old steps.new }
    ensures here { OnOk result (HasKey steps.new x) }
    ensures there { KeepsKeys steps.old steps.new 0 }
{
    let owner = value_at(steps, x);
    steps.insert(x, owner)?;
    Ok(())
}

/// The first key from one number on, below another.
pub(crate) fn next_key(steps: &Steps, from: u64, to: u64) -> Option<u64>
    requires { from ≤ to }
    ensures { MatchOption result (HasNone (get nat_cmp steps.now) from to) (IsNext (get nat_cmp steps.now) from to) }
{
    match steps.range(from..to).next() {
        None => None,
        Some((key, _)) => Some(*key),
    }
}

/// The first key after a number, below another, or else that other: the value is the same up to there.
pub(crate) fn change_after(steps: &Steps, x: u64, to: u64) -> u64
    requires { x < to }
    ensures after { x < result }
    ensures end { result ≤ to }
    ensures same { (q : ℕ) → x ≤ q → q < result → owner_at steps.now q ≡ owner_at steps.now x }
    ensures key { HasKey steps.now to → HasKey steps.now result }
{
    match next_key(steps, x + 1, to) {
        Some(key) => key,
        None => to,
    }
}

// Takes a key away.
fn remove(steps: &mut Steps, x: u64)
    ensures { (q : ℕ) → get nat_cmp steps.new q ≡ cond (is_eq (nat_cmp x q)) None (get nat_cmp steps.old q) }
{
    let _ = steps.remove(&x);
}

// Takes away the keys from one number on, below another.
fn clear(steps: &mut Steps, from: u64, to: u64)
    requires { from ≤ to }
    ensures inside { HasNone (get nat_cmp steps.new) from to }
    ensures outside { (q : ℕ) → (nat_le from q && nat_lt q to) ≡ false → get nat_cmp steps.new q ≡ get nat_cmp steps.old q }
{
    let mut next = from;
    while let Some(key) = next_key(steps, next, to) {
        remove(steps, key);
        next = key + 1;
    }
}

// Gives a key a value, in place.
fn set(steps: &mut Steps, key: u64, owner: Option<u64>)
    requires { HasKey steps.old key }
    ensures { (q : ℕ) → get nat_cmp steps.new q ≡ cond (is_eq (nat_cmp key q)) (Some owner) (get nat_cmp steps.old q) }
{
    if let Some(held) = steps.get_mut(&key) {
        *held = owner;
    }
}

/// Gives the numbers from one key on, below another, a value. It takes no memory.
pub(crate) fn put(steps: &mut Steps, from: u64, to: u64, owner: Option<u64>)
    requires forward { from < to }
    requires first { HasKey steps.old from }
    requires end { HasKey steps.old to }
    ensures value { SetsOwners steps.old steps.new from to (λ _. owner) }
    ensures keys { KeepsKeys steps.old steps.new to }
{
    clear(steps, from + 1, to);
    set(steps, from, owner);
}

/// Takes a key away that has the value of the number before it, which changes no value. So equal neighbours are one.
pub(crate) fn join(steps: &mut Steps, x: u64)
    ensures same { SameOwners steps.old steps.new }
    ensures keys { KeepsKeys steps.old steps.new (x + 1) }
{
    if x > 0 && value_at(steps, x - 1) == value_at(steps, x) {
        remove(steps, x);
    }
}
