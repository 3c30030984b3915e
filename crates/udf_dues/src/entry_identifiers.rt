// The wanted identifier of each found entry.
ghost use Rattle.std.specs.Prelude.{◌≡◌, ℕ, List, ◌∷◌, [], ◌++◌, length, map, get_or, cond, unwrap_or, false, IfOk, OnOk};
ghost use Rattle.std.specs.BTreeMap.{get};
ghost use Rattle.std.specs.Map.{keys_of, values_of};
ghost use Rattle.udf_field.specs.declared.address.Addr.{Addr};
ghost use Rattle.udf_file_model.specs.Listing.{Volume};
ghost use Rattle.udf_tree_model.specs.Frame.{Frame, setting_of, tree_of};
ghost use Rattle.udf_tree_model.specs.Laws.{HasSoundStarts};
ghost use Rattle.udf_tree_model.specs.Parent.{ordinary};
ghost use Rattle.udf_tree_model.specs.Counts.{wanted_id};
ghost use Rattle.udf_held.specs.declared.held.Held.{Held};
ghost use Rattle.udf_found.specs.Beyond.{HoldsFileSet};
ghost use Rattle.udf_held.specs.Held.{AreHeldOf};
ghost use Rattle.udf_dues.specs.Identifiers.{wanted_ids};
ghost use Rattle.udf_dues.specs.Numbered.{Lists, given_of, id_in, identity_in, passed};
ghost use Rattle.udf_found.specs.Order.{addr_cmp};

use crate::identifiers::{Identity, wanted_identifiers};
use std::alloc::{AllocError, Global};
use std::collections::BTreeMap;
use udf_field::Addr;
use udf_held::Held;

// What is found in some entries, by their addresses.
type Identities = BTreeMap<Addr, Identity>;

// The identifier that an entry states; the holder of the pointer to the system stream directory states none.
fn id_of(entry: &Held) -> u64
    ensures { result ≡ id_in entry.now.shape }
{
    match &entry.shape {
        Some(shape) => shape.id,
        None => 0,
    }
}

fn identity_of(root: Addr, entry: &Held) -> Identity
    ensures { result ≡ identity_in root entry.now }
{
    Identity {
        id: id_of(entry),
        is_root: entry.at == root,
    }
}

// Whether the test at a position passes.
fn passes(tests: &[bool], position: usize) -> bool
    ensures { result ≡ get_or tests.now position false }
{
    position < tests.len() && tests[position]
}

// Lists an entry, where it is ordinary.
fn list_entry(
    identities: &mut Identities,
    root: Addr,
    entry: &Held,
    is_ordinary: bool,
) -> Result<(), AllocError>
    ensures { OnOk result ((hs : List Held) → Lists root hs identities.old.entries
        → Lists root (hs ++ cond is_ordinary (entry.now ∷ []) []) identities.new.entries) }
{
    if is_ordinary {
        identities.insert(entry.at, identity_of(root, entry))?;
    }
    Ok(())
}

// What is found in the ordinary ones of entries.
fn identities_of(
    alloc: Global,
    root: Addr,
    held: &[Held],
    are_ordinary: &[bool],
) -> Result<Identities, AllocError>
    ensures { IfOk result (λ identities. Lists root (passed held.now are_ordinary.now) identities.entries) }
{
    let mut identities = BTreeMap::new(alloc);
    for (position, entry) in held.iter().enumerate() {
        list_entry(&mut identities, root, entry, passes(are_ordinary, position))?;
    }
    Ok(identities)
}

// Identifiers by the addresses to which they are given.
fn by_address(
    alloc: Global,
    addresses: &[Addr],
    ids: &[u64],
) -> Result<BTreeMap<Addr, u64>, AllocError>
    requires { length ids.now ≡ length addresses.now }
    ensures { IfOk result (λ given. (of : Addr → ℕ) → ids.now ≡ map of addresses.now → (a : Addr)
        → get addr_cmp given a ≡ given_of of addresses.now a) }
{
    let mut given = BTreeMap::new(alloc);
    for (i, at) in addresses.iter().enumerate() {
        given.insert(*at, ids[i])?;
    }
    Ok(given)
}

fn addresses_of(alloc: Global, identities: &Identities) -> Result<Vec<Addr>, AllocError>
    ensures { IfOk result (λ addresses. addresses.items ≡ keys_of identities.now.entries) }
{
    identities.keys().copied().collect(alloc)
}

fn found_of(alloc: Global, identities: &Identities) -> Result<Vec<Identity>, AllocError>
    ensures { IfOk result (λ found. found.items ≡ values_of identities.now.entries) }
{
    identities.values().copied().collect(alloc)
}

// The wanted identifiers of listed entries by their addresses.
fn wanted_of(alloc: Global, identities: &Identities) -> Result<BTreeMap<Addr, u64>, AllocError>
    ensures { IfOk result (λ given. (of : Addr → ℕ) → wanted_ids (values_of identities.now.entries) ≡ map of (keys_of identities.now.entries)
        → (a : Addr) → get addr_cmp given a ≡ given_of of (keys_of identities.now.entries) a) }
{
    let addresses = addresses_of(alloc, identities)?;
    let found = found_of(alloc, identities)?;
    let wanted = wanted_identifiers(alloc, &found)?;
    by_address(alloc, &addresses, &wanted)
}

// Of each entry the identifier that its address is given, or its own.
fn given_or_own(
    alloc: Global,
    held: &[Held],
    given: &BTreeMap<Addr, u64>,
) -> Result<Vec<u64>, AllocError>
    ensures { IfOk result (λ ids. ids.items ≡ map (λ h. unwrap_or (get addr_cmp given.now h.at) (id_in h.shape)) held.now) }
{
    let mut ids = Vec::new(alloc);
    for entry in held {
        ids.push(given.get(&entry.at).copied().unwrap_or(id_of(entry)))?;
    }
    Ok(ids)
}

/// The wanted identifier of each found entry that is ordinary; of another its own.
pub fn identifiers_of(
    alloc: Global,
    root: Addr,
    held: &[Held],
    are_ordinary: &[bool],
) -> Result<Vec<u64>, AllocError>
    ensures { (f : Frame) (v : Volume) → f.root ≡ root → HoldsFileSet f v → HasSoundStarts (setting_of f v) (tree_of f v)
        → AreHeldOf f v held.now → are_ordinary.now ≡ map (λ h. ordinary f v h.at) held.now
        → IfOk result (λ ids. ids.items ≡ map (λ h. wanted_id f v h.at) held.now) }
{
    let identities = identities_of(alloc, root, held, are_ordinary)?;
    let given = wanted_of(alloc, &identities)?;
    given_or_own(alloc, held, &given)
}
