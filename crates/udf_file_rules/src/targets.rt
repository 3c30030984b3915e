//! The rule on targets, number 6 (ECMA-167 4/14.4, 4/14.17.20, 4/14.1.18).
//!
//! Binds: every kept entry, and the file set where it has a pointer to the system stream directory. Each live FID names a sound
//! entry, and a pointer leads to a sound directory, as the chosen link to it.
//! Reads: nothing, it works from the survey.
//! Finds: the entry or the file set, with the offset of the FID, or 0 of a pointer, and the block of the target.
//! Mends: the directory holds its mended content, and the pointer names nothing.
//! Relies on: which entries are sound, and the pointers that are fitted.
ghost use Rattle.std.specs.Prelude.{◌≡◌, ◌++◌, ◌<◌, OnOk, IfOk, length};
ghost use Rattle.std.specs.List.{flat_map};
ghost use Rattle.udf_file_rules.specs.Seen.{list_of, seen_at};
ghost use Rattle.udf_file_rules.specs.SeenLinks.{before_pointer, pointer_of, target_of, targets_above, targets_along, targets_at, targets_below, targets_of, with_pointers};
ghost use Rattle.udf_tree_model.specs.Chosen.{is_lower};

use std::alloc::{AllocError, Global};
use std::collections::BTreeMap;
use udf_field::Addr;
use udf_rules::{Finding, Findings, Place};
use udf_tree::{NodeId, Survey, Verdict};
use udf_volume::FileSet;

/// The number of the rule.
const RULE: u8 = 6;

fn finding(at: Addr, offset: u64, target: Addr) -> Finding
    ensures { result ≡ seen_at 6 at offset target.block }
{
    Finding {
        rule: RULE,
        place: Place::At(at),
        first: offset,
        second: target.block as u64,
    }
}

// What is found of a link of a kept entry; a pointer has the place 0, a FID one more than its offset.
#[tactic(auto, unfolding(crate::specs::SeenLinks::target_of))]
fn found(at: Addr, place: u64, verdict: &Verdict) -> Option<Finding>
    ensures { list_of result ≡ target_of at (place, verdict.now) }
{
    if place == 0 {
        return None;
    }
    if verdict.sound {
        return None;
    }
    Some(finding(at, place - 1, verdict.target))
}

// What is found of the FIDs of a kept entry.
fn fids_of(
    alloc: Global,
    at: Addr,
    links: &BTreeMap<u64, Verdict>,
) -> Result<Vec<Finding>, AllocError>
    ensures { IfOk result (λ fids. fids.items ≡ targets_of at links.now.entries) }
{
    let mut fids = Vec::new(alloc);
    for (place, verdict) in links {
        if let Some(finding) = found(at, *place, verdict) {
            fids.push(finding)?;
        }
    }
    Ok(fids)
}

// What is found of the pointer that an entry states, by the directory that it keeps.
fn pointer_found(at: Addr, stated: Option<Addr>, kept: Option<NodeId>) -> Option<Finding>
    ensures { list_of result ≡ pointer_of at stated kept }
{
    if kept.is_some() {
        return None;
    }
    match stated {
        Some(target) => Some(finding(at, 0, target)),
        None => None,
    }
}

// How many findings of FIDs stand before that of a pointer.
fn before(pointer: &Finding, fids: &[Finding]) -> usize
    ensures { result ≡ before_pointer pointer.now fids.now }
{
    if fids.is_empty() {
        return 0;
    }
    if fids[0].first == 0 && fids[0].second < pointer.second {
        return 1;
    }
    0
}

fn add_all(found: &[Finding], findings: &mut Findings) -> Result<(), AllocError>
    ensures { OnOk result (findings.new ≡ findings.old ++ found.now) }
{
    for finding in found {
        findings.push(*finding)?;
    }
    Ok(())
}

// Adds what is found of a pointer among what is found of FIDs, in the order of values.
fn add_both(
    pointer: Option<Finding>,
    fids: &[Finding],
    findings: &mut Findings,
) -> Result<(), AllocError>
    ensures { OnOk result (findings.new ≡ findings.old ++ with_pointers (list_of pointer) fids.now) }
{
    let Some(pointer) = pointer else {
        return add_all(fids, findings);
    };
    let front = before(&pointer, fids);
    add_all(&fids[..front], findings)?;
    findings.push(pointer)?;
    add_all(&fids[front..], findings)
}

// Adds what is found of the links of a kept entry.
fn add_targets(
    alloc: Global,
    survey: &Survey,
    id: NodeId,
    findings: &mut Findings,
) -> Result<(), AllocError>
    requires { id.0 < length survey.now.nodes }
    ensures { OnOk result (findings.new ≡ findings.old ++ targets_at survey.now id) }
{
    let at = survey.node(id).at;
    let fids = fids_of(alloc, at, survey.links(id))?;
    let pointer = pointer_found(at, survey.stated(id).pointer, survey.pointer(id));
    add_both(pointer, &fids, findings)
}

// Whether an address stands before another in the order of addresses.
fn stands_below(at: Addr, than: Addr) -> bool
    ensures { result ≡ is_lower at than }
{
    at.part < than.part || (at.part == than.part && at.block < than.block)
}

// Adds what is found of a kept entry that stands below an address.
fn add_below(
    alloc: Global,
    survey: &Survey,
    than: Addr,
    id: NodeId,
    findings: &mut Findings,
) -> Result<(), AllocError>
    requires { id.0 < length survey.now.nodes }
    ensures { OnOk result (findings.new ≡ findings.old ++ targets_below survey.now than id) }
{
    if stands_below(survey.node(id).at, than) {
        return add_targets(alloc, survey, id, findings);
    }
    Ok(())
}

// Adds what is found of a kept entry that does not.
fn add_above(
    alloc: Global,
    survey: &Survey,
    than: Addr,
    id: NodeId,
    findings: &mut Findings,
) -> Result<(), AllocError>
    requires { id.0 < length survey.now.nodes }
    ensures { OnOk result (findings.new ≡ findings.old ++ targets_above survey.now than id) }
{
    if stands_below(survey.node(id).at, than) {
        return Ok(());
    }
    add_targets(alloc, survey, id, findings)
}

fn add_lower(
    alloc: Global,
    survey: &Survey,
    than: Addr,
    findings: &mut Findings,
) -> Result<(), AllocError>
    ensures { OnOk result (findings.new ≡ findings.old ++ flat_map (targets_below survey.now than) survey.now.order) }
{
    let order = survey.in_order();
    for id in order {
        add_below(alloc, survey, than, *id, findings)?;
    }
    Ok(())
}

fn add_higher(
    alloc: Global,
    survey: &Survey,
    than: Addr,
    findings: &mut Findings,
) -> Result<(), AllocError>
    ensures { OnOk result (findings.new ≡ findings.old ++ flat_map (targets_above survey.now than) survey.now.order) }
{
    let order = survey.in_order();
    for id in order {
        add_above(alloc, survey, than, *id, findings)?;
    }
    Ok(())
}

// Adds what is found of the file set's pointer.
fn add_system(survey: &Survey, files: &FileSet, findings: &mut Findings) -> Result<(), AllocError>
    ensures { OnOk result (findings.new ≡ findings.old ++ pointer_of files.now.at files.now.system survey.now.system) }
{
    match pointer_found(files.at, files.system, survey.system()) {
        Some(finding) => findings.push(finding),
        None => Ok(()),
    }
}

/// Adds what breaks the rule on targets.
#[tactic(auto, unfolding(crate::specs::SeenLinks::targets_along))]
pub(crate) fn check_targets(
    alloc: Global,
    survey: &Survey,
    files: &FileSet,
    findings: &mut Findings,
) -> Result<(), AllocError>
    ensures { OnOk result (findings.new ≡ findings.old ++ targets_along survey.now files.now.at files.now.system) }
{
    add_lower(alloc, survey, files.at, findings)?;
    add_system(survey, files, findings)?;
    add_higher(alloc, survey, files.at, findings)
}
