// The numbers of kept entries.
ghost use Rattle.std.specs.Prelude.{◌≡◌, ◌<◌, ◌^◌, None, Some, IfOk, List, get_or, length, map};
ghost use Rattle.std.specs.BTreeMap.{get};
ghost use Rattle.udf_field.specs.declared.address.Addr.{Addr};
ghost use Rattle.udf_kept.specs.Fitted.{at_of};
ghost use Rattle.udf_tree.specs.declared.node.NodeId.{NodeId};
ghost use Rattle.udf_tree.specs.Nodes.{IsNumbering, is_numbered, numbered};
ghost use Rattle.udf_found.specs.Order.{addr_cmp};
ghost use Rattle.udf_tree.specs.Ordered.{AreInOrder};

use crate::node::NodeId;
use std::alloc::{AllocError, Global};
use std::collections::BTreeMap;
use udf_field::Addr;
use udf_held::Held;
use udf_kept::Keeping;

/// The numbers of kept entries by their addresses.
pub(crate) type Numbers = BTreeMap<Addr, NodeId>;

/// How the entry at an index is kept; None where there is none.
pub(crate) fn keeping_at(kept: &[Option<Keeping>], i: usize) -> Option<Keeping>
    ensures { result ≡ get_or kept.now i None }
{
    if i < kept.len() { kept[i] } else { None }
}

// Whether a found entry is kept and has a block of its own.
fn has_number(entry: &Held, keeping: Option<Keeping>) -> bool
    ensures { result ≡ is_numbered entry.now keeping }
{
    keeping.is_some() && entry.shape.is_some()
}

/// The addresses of kept entries, in the order of the found ones.
pub(crate) fn kept_addresses(
    alloc: Global,
    held: &[Held],
    kept: &[Option<Keeping>],
) -> Result<Vec<Addr>, AllocError>
    ensures { IfOk result (λ addresses. addresses.items ≡ numbered kept.now held.now) }
{
    let mut addresses = Vec::new(alloc);
    for (i, entry) in held.iter().enumerate() {
        if has_number(entry, keeping_at(kept, i)) {
            addresses.push(entry.at)?;
        }
    }
    Ok(addresses)
}

/// The indexes of kept entries among the found ones, in order.
pub(crate) fn kept_indexes(
    alloc: Global,
    held: &[Held],
    kept: &[Option<Keeping>],
) -> Result<Vec<usize>, AllocError>
    ensures { IfOk result (λ indexes. map (at_of held.now) indexes.items ≡ map Some (numbered kept.now held.now)) }
{
    let mut indexes = Vec::new(alloc);
    for (i, entry) in held.iter().enumerate() {
        if !has_number(entry, keeping_at(kept, i)) {
            continue;
        }
        indexes.push(i)?;
    }
    Ok(indexes)
}

/// The number of a kept entry.
pub(crate) fn number_of(numbers: &Numbers, at: Addr) -> NodeId
    ensures { (n : NodeId) → get addr_cmp numbers.now at ≡ Some n → result ≡ n }
{
    match numbers.get(&at) {
        Some(number) => *number,
        None => NodeId(0),
    }
}

// The number of a place; want of memory where places would come to have more than 32 bits.
fn number_at(i: usize) -> Result<NodeId, AllocError>
    ensures number { IfOk result (λ number. number.0 ≡ i) }
    ensures few { IfOk result (λ number. i < 4294967295) }
{
    if i >= u32::MAX as usize {
        return Err(AllocError);
    }
    Ok(NodeId(i as u32))
}

/// The numbers of these addresses: each has that of a place where it stands.
pub(crate) fn numbers_of(alloc: Global, addresses: &[Addr]) -> Result<Numbers, AllocError>
    ensures numbers { IfOk result (λ numbers. IsNumbering addresses.now (get addr_cmp numbers)) }
    ensures few { IfOk result (λ numbers. length addresses.now < 2 ^ 32) }
{
    let mut numbers = BTreeMap::new(alloc);
    for (i, at) in addresses.iter().enumerate() {
        numbers.insert(*at, number_at(i)?)?;
    }
    Ok(numbers)
}

/// The numbers in the order of the addresses.
pub(crate) fn in_order(alloc: Global, numbers: &Numbers) -> Result<Vec<NodeId>, AllocError>
    ensures { (addresses : List Addr) → IsNumbering addresses (get addr_cmp numbers.now) → IfOk result (λ order. AreInOrder addresses order.items) }
{
    numbers.values().copied().collect(alloc)
}
