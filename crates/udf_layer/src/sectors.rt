// The sectors at which packets begin.
ghost use Rattle.std.specs.Prelude.{◌≡◌, ◌<◌, ◌≤◌, ℕ, Bool, true, false, not, ◌==◌, List};
ghost use Rattle.std.specs.List.{list_all, list_any};
ghost use Rattle.std.specs.Ordering.{nat_cmp};
ghost use Rattle.std.specs.BTreeSet.{contains};
ghost use Rattle.udf_layer.specs.Packets.{in_packet, packet_apart};

use std::collections::BTreeSet;

// Whether a set has a number from one on, up to another.
fn has_between(starts: &BTreeSet<u64>, low: u64, high: u64) -> bool
    requires { low ≤ high }
    ensures none { result ≡ false → (q : ℕ) → low ≤ q → q ≤ high → contains nat_cmp starts.now q ≡ false }
    ensures some { result ≡ true → (q : ℕ) × (low ≤ q) × (q ≤ high) × (contains nat_cmp starts.now q ≡ true) }
{
    match starts.range(low..=high).next() {
        None => false,
        Some(_) => true,
    }
}

/// Whether a packet is apart from those that begin at some sectors. Only a packet that begins less than its length before or
/// behind is not.
pub(crate) fn is_apart_from(starts: &BTreeSet<u64>, packet: u32, first: u32) -> bool
    requires { 0 < packet }
    ensures { (pairs : List (ℕ × ℕ)) → ((q : ℕ) → contains nat_cmp starts.now q ≡ list_any (λ pair. pair.1 == q) pairs)
        → result ≡ list_all (packet_apart packet first) pairs }
{
    let reach = packet as u64 - 1;
    let first = first as u64;
    !has_between(starts, first.saturating_sub(reach), first + reach)
}

/// Whether a sector lies in none of the packets that begin at some sectors. Only a packet that begins there, or less than its
/// length before, holds it.
pub(crate) fn is_outside(starts: &BTreeSet<u64>, packet: u32, sector: u32) -> bool
    requires { 0 < packet }
    ensures { (pairs : List (ℕ × ℕ)) → ((q : ℕ) → contains nat_cmp starts.now q ≡ list_any (λ pair. pair.1 == q) pairs)
        → result ≡ list_all (λ pair. not (in_packet packet pair.1 sector)) pairs }
{
    let sector = sector as u64;
    !has_between(starts, sector.saturating_sub(packet as u64 - 1), sector)
}
