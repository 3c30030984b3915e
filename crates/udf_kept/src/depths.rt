// How many fitted links entries are away from some starts, layer by layer.
ghost use Rattle.std.specs.Prelude.{◌++◌, ◌∷◌, [], ℕ, List, Option, IfOk, OnOk};
ghost use Rattle.std.specs.List.{flat_map};
ghost use Rattle.udf_kept.specs.Depths.{AreDepths, IsReached, edges, starts_in, target_from};

use crate::fitted::{Fitted, Selected};
use std::alloc::{AllocError, Global};

// Gives the entry at an index a depth, where it has none, and puts it into the layer.
fn reach(
    depths: &mut [Option<u64>],
    layer: &mut Vec<usize>,
    entry: usize,
    depth: u64,
) -> Result<(), AllocError>
    ensures { (old : List (Option ℕ)) (done : List ℕ) → IsReached old done depth depths.old layer.old.items
        → OnOk result (IsReached old (done ++ entry ∷ []) depth depths.new layer.new.items) }
{
    if entry < depths.len() && depths[entry].is_none() {
        layer.push(entry)?;
        depths[entry] = Some(depth);
    }
    Ok(())
}

// Reaches the starts.
fn reach_starts(
    depths: &mut [Option<u64>],
    layer: &mut Vec<usize>,
    starts: &[bool],
) -> Result<(), AllocError>
    ensures { (old : List (Option ℕ)) → IsReached old [] 0 depths.old layer.old.items
        → OnOk result (IsReached old (starts_in starts.now) 0 depths.new layer.new.items) }
{
    for (entry, is_start) in starts.iter().enumerate() {
        if *is_start {
            reach(depths, layer, entry, 0)?;
        }
    }
    Ok(())
}

// Reaches what a link leads to, if it is one from a place on.
fn reach_link(
    depths: &mut [Option<u64>],
    layer: &mut Vec<usize>,
    link: Fitted,
    least: u64,
    depth: u64,
) -> Result<(), AllocError>
    ensures { (old : List (Option ℕ)) (done : List ℕ) → IsReached old done depth depths.old layer.old.items
        → OnOk result (IsReached old (done ++ target_from least link) depth depths.new layer.new.items) }
{
    if least <= link.place {
        reach(depths, layer, link.to, depth)
    } else {
        Ok(())
    }
}

// Reaches what links from a place on lead to.
fn reach_links(
    depths: &mut [Option<u64>],
    layer: &mut Vec<usize>,
    links: &[Fitted],
    least: u64,
    depth: u64,
) -> Result<(), AllocError>
    ensures { (old : List (Option ℕ)) (done : List ℕ) → IsReached old done depth depths.old layer.old.items
        → OnOk result (IsReached old (done ++ flat_map (target_from least) links.now) depth depths.new layer.new.items) }
{
    for link in links {
        reach_link(depths, layer, *link, least, depth)?;
    }
    Ok(())
}

// Reaches what the links of the entry at an index lead to.
fn reach_from(
    depths: &mut [Option<u64>],
    layer: &mut Vec<usize>,
    selected: &[Selected],
    entry: usize,
    least: u64,
    depth: u64,
) -> Result<(), AllocError>
    ensures { (old : List (Option ℕ)) (done : List ℕ) → IsReached old done depth depths.old layer.old.items
        → OnOk result (IsReached old (done ++ edges least selected.now entry) depth depths.new layer.new.items) }
{
    match selected.get(entry) {
        Some(links) => reach_links(depths, layer, &links.fitted, least, depth),
        None => Ok(()),
    }
}

// The entries that have no depth yet and to which links of a layer lead.
fn next_layer(
    alloc: Global,
    depths: &mut [Option<u64>],
    layer: &[usize],
    selected: &[Selected],
    least: u64,
    depth: u64,
) -> Result<Vec<usize>, AllocError>
    ensures { IfOk result (λ next. IsReached depths.old (flat_map (edges least selected.now) layer.now) depth depths.new next.items) }
{
    let mut next = Vec::new(alloc);
    for entry in layer {
        reach_from(depths, &mut next, selected, *entry, least, depth)?;
    }
    Ok(next)
}

/// How many links each entry is away from the nearest start, by fitted links from a place on: all from 0 on, and the FIDs alone
/// from 1 on. An entry that no start reaches has no depth.
pub(crate) fn depths_from(
    alloc: Global,
    starts: &[bool],
    selected: &[Selected],
    least: u64,
) -> Result<Vec<Option<u64>>, AllocError>
    ensures { IfOk result (λ depths. AreDepths starts.now selected.now least depths.items) }
{
    let mut depths = vec![in alloc; None; starts.len()]?;
    let mut layer = Vec::new(alloc);
    reach_starts(&mut depths, &mut layer, starts)?;
    let mut depth = 0;
    while !layer.is_empty() {
        depth += 1;
        layer = next_layer(alloc, &mut depths, &layer, selected, least, depth)?;
    }
    Ok(depths)
}
