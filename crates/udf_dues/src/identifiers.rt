// The wanted identifiers of ordinary entries.
ghost use Rattle.std.specs.Prelude.{◌≡◌, ◌<◌, ◌≤◌, ◌+◌, ◌^◌, ◌&&◌, ◌||◌, ℕ, true, false, map, length, IfOk, OnOk, nat_eq, Contains, not, if◌then◌else◌, Some, None};
ghost use Rattle.std.specs.List.{list_any};
ghost use Rattle.std.specs.Ordering.{nat_cmp};
ghost use Rattle.std.specs.BTreeSet.{contains, btree_set_len};
ghost use Rattle.udf_field.specs.declared.address.Addr.{Addr};
ghost use Rattle.udf_file_model.specs.Listing.{Volume};
ghost use Rattle.udf_tree_model.specs.Frame.{Frame};
ghost use Rattle.udf_tree_model.specs.Counts.{is_lawful_id, ordinary_entries, wanted_id};
ghost use Rattle.udf_dues.specs.Identifiers.{Chooses, filled, free_among, identity, is_id, is_taken, settled, wanted_ids};

use std::alloc::{AllocError, Global};
use std::collections::BTreeSet;

/// The least identifier of an entry that is not the root: those below are reserved (UDF 3.2.1.1).
const LEAST_IDENTIFIER: u64 = 16;

/// What is found in an ordinary entry: its identifier (ECMA-167 4/14.9.18), and whether it is the root.
#[derive(Clone, Copy, Debug, PartialEq, Eq)]
pub struct Identity {
    pub id: u64,
    pub is_root: bool,
}

fn is_lawful(id: u64) -> bool
    ensures { result ≡ is_lawful_id id }
{
    LEAST_IDENTIFIER <= id && id < 0x8000_0000_0000_0000
}

// The identifier that stays, where one does.
fn stays(identity: Identity, is_first: bool) -> Option<u64>
    ensures { result ≡ (if identity.is_root then Some 0 else (if is_lawful_id identity.id && is_first then Some identity.id else None)) }
{
    if identity.is_root {
        Some(0)
    } else if is_lawful(identity.id) && is_first {
        Some(identity.id)
    } else {
        None
    }
}

// Of each entry the identifier that stays, where one does.
fn settle(alloc: Global, identities: &[Identity]) -> Result<Vec<Option<u64>>, AllocError>
    ensures { IfOk result (λ ids. ids.items ≡ settled identities.now) }
{
    let mut seen = BTreeSet::new(alloc);
    let mut ids = Vec::new(alloc);
    for identity in identities {
        let is_first = seen.insert(identity.id)?;
        ids.push(stays(*identity, is_first))?;
    }
    Ok(ids)
}

// Puts an identifier that stays into the set.
fn put(set: &mut BTreeSet<u64>, id: Option<u64>) -> Result<(), AllocError>
    ensures put { OnOk result ((n : ℕ) → contains nat_cmp set.new n ≡ (contains nat_cmp set.old n || is_id n id)) }
    ensures len { OnOk result (btree_set_len set.new ≤ btree_set_len set.old + 1) }
{
    if let Some(id) = id {
        set.insert(id)?;
    }
    Ok(())
}

// The identifiers that stay.
fn taken_of(alloc: Global, ids: &[Option<u64>]) -> Result<BTreeSet<u64>, AllocError>
    ensures taken { IfOk result (λ set. (n : ℕ) → contains nat_cmp set n ≡ is_taken ids.now n) }
    ensures len { IfOk result (λ set. btree_set_len set ≤ length ids.now) }
{
    let mut set = BTreeSet::new(alloc);
    for id in ids {
        put(&mut set, *id)?;
    }
    Ok(set)
}

// The least number from `from` on that the set has not.
fn first_free(set: &BTreeSet<u64>, from: u64) -> u64
    requires { from + btree_set_len set.now < 2 ^ 64 }
    ensures low { from ≤ result }
    ensures high { result ≤ from + btree_set_len set.now }
    ensures free { contains nat_cmp set.now result ≡ false }
    ensures between { (m : ℕ) → from ≤ m → m < result → contains nat_cmp set.now m ≡ true }
{
    let mut next = from;
    while set.contains(&next) {
        next += 1;
    }
    next
}

// The identifier of an entry with one that stays, or with none. `next` is the least number to try.
fn choose(taken: &BTreeSet<u64>, next: &mut u64, id: Option<u64>) -> u64
    requires { next.old + btree_set_len taken.now + 1 < 2 ^ 64 }
    ensures { Chooses (contains nat_cmp taken.now) id next.old next.new result }
{
    if let Some(id) = id {
        return id;
    }
    let free = first_free(taken, *next);
    *next = free + 1;
    free
}

// The identifiers that stay, and in the other places the free ones in turn.
fn fill(alloc: Global, ids: &[Option<u64>]) -> Result<Vec<u64>, AllocError>
    ensures { IfOk result (λ wanted. wanted.items ≡ filled ids.now (free_among ids.now)) }
{
    let taken = taken_of(alloc, ids)?;
    let mut wanted = Vec::new(alloc);
    let mut next = LEAST_IDENTIFIER;
    for id in ids {
        wanted.push(choose(&taken, &mut next, *id))?;
    }
    Ok(wanted)
}

/// The wanted identifiers of the ordinary entries of a volume, in the order of their addresses: of the root 0; of another its
/// own, where that is lawful and no entry before has it; else the least from 16 on that no entry keeps and none before took.
#[tactic(auto, unfolding(crate::specs::Identifiers::wanted_ids))]
pub fn wanted_identifiers(alloc: Global, identities: &[Identity]) -> Result<Vec<u64>, AllocError>
    ensures { IfOk result (λ wanted. wanted.items ≡ wanted_ids identities.now) }
{
    let ids = settle(alloc, identities)?;
    fill(alloc, &ids)
}

/// Over the ordinary entries of a volume the wanted identifiers of a list are those of its entries.
pub fn identifiers_law()
    ensures { (f : Frame) (v : Volume) → wanted_ids (map (identity f v) (ordinary_entries f v)) ≡ map (wanted_id f v) (ordinary_entries f v) }
{}

/// The wanted identifiers of the ordinary entries of a volume differ.
pub fn identifiers_differ_law()
    ensures { (f : Frame) (v : Volume) (a b : Addr) → Contains (ordinary_entries f v) a → Contains (ordinary_entries f v) b
        → wanted_id f v a ≡ wanted_id f v b → a ≡ b }
{}

#[cfg(test)]
mod tests {
    use super::*;

    fn entry(id: u64) -> Identity {
        Identity { id, is_root: false }
    }

    // The root's 20 bars the entry after it, and is free again for the next; 17 stands twice, 3 and 2^63 are not lawful.
    #[test]
    fn the_least_that_nobody_keeps(rt: HostRuntime) -> Result<(), AllocError> {
        let root = Identity {
            id: 20,
            is_root: true,
        };
        let found = [
            entry(17),
            root,
            entry(20),
            entry(17),
            entry(3),
            entry(16),
            entry(1 << 63),
            entry(18),
        ];
        let wanted = wanted_identifiers(rt.alloc(), &found)?;
        assert_eq!(rt;
            wanted.as_slice(),
            [17, 0, 19, 20, 21, 16, 22, 18].as_slice()
        );
        Ok(())
    }
}
