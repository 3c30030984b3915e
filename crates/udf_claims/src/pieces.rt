// The pieces of the addresses on which the strongest want is the same.
ghost use Rattle.std.specs.Prelude.{◌≡◌, ℕ, ◌+◌, ◌*◌, ◌<◌, ◌≤◌, None, MatchOption};
ghost use Rattle.std.specs.Ordering.{nat_cmp};
ghost use Rattle.std.specs.BTreeMap.{get};
ghost use Rattle.udf_claims.specs.Shares.{IsTop, IsNextClass};
ghost use Rattle.udf_claims.specs.Standing.{HasNone};
ghost use Rattle.udf_claims.specs.Telling.{by_class};

use crate::best::Best;
use crate::steps::{Steps, change_after, next_key, value_at};

/// The places of a class: one for each address.
pub(crate) const PLACES: u64 = 0x1_0000_0000_0000;

// The classes.
const CLASSES: u64 = 256;

/// What the places from one on, below another, have in common.
#[derive(Clone, Copy, Debug, PartialEq, Eq)]
pub(crate) struct Piece {
    pub best: Option<Best>,
    pub end: u64,
}

// The least class from one on that has a key.
fn next_class(latest: &Steps, class: u64) -> Option<u64>
    requires { class ≤ 256 }
    ensures { MatchOption result (HasNone (get nat_cmp latest.now) (class * 281474976710656) (256 * 281474976710656)) (IsNextClass (get nat_cmp latest.now) class) }
{
    match next_key(latest, class * PLACES, CLASSES * PLACES) {
        Some(key) => Some(key / PLACES),
        None => None,
    }
}

/// The strongest want of a place, and how far it is the same, below another place. It goes up the classes that are in
/// use, and no further than the least that wants the place.
pub(crate) fn piece_at(latest: &Steps, sole: &Steps, x: u64, to: u64) -> Piece
    requires forward { x < to }
    requires high { to ≤ 281474976710656 }
    requires edges { (c : ℕ) → c < 256 → by_class latest.now 281474976710655 c ≡ None }
    ensures after { x < result.end }
    ensures end { result.end ≤ to }
    ensures top { (q : ℕ) → x ≤ q → q < result.end → IsTop (by_class latest.now q) (by_class sole.now q) result.best }
{
    let mut end = to;
    let mut next = 0;
    while let Some(class) = next_class(latest, next) {
        let base = class * PLACES;
        end = change_after(latest, base + x, base + end) - base;
        if value_at(latest, base + x).is_some() {
            let best = Best {
                class: class as u8,
                owner: value_at(sole, base + x),
            };
            return Piece {
                best: Some(best),
                end: change_after(sole, base + x, base + end) - base,
            };
        }
        next = class + 1;
    }
    Piece { best: None, end }
}
