//! The rule on names and links, number 9 (UDF 2.3.4, ECMA-167 4/8.6).
//!
//! Binds: every kept directory. Each live FID is the first of its name there and, where it names a directory that is found, the
//! chosen link to it; an unsound directory has none.
//! Reads: nothing, it works from the survey.
//! Finds: the directory, with the offset of the FID and that of the first of its name where that is an earlier one, else 0.
//! Mends: the directory holds its mended content.
//! Relies on: the chosen links to directories.
ghost use Rattle.std.specs.Prelude.{◌≡◌, ◌++◌, ◌<◌, OnOk, length};
ghost use Rattle.udf_file_rules.specs.Seen.{list_of};
ghost use Rattle.udf_file_rules.specs.SeenLinks.{name_of, names_along, names_at, names_of};

use std::alloc::AllocError;
use std::collections::BTreeMap;
use udf_field::Addr;
use udf_rules::{Finding, Findings, Place};
use udf_tree::{NodeId, Survey, Verdict};

/// The number of the rule.
const RULE: u8 = 9;

// What is found of a link of a kept directory; a pointer has the place 0, a FID one more than its offset.
#[tactic(auto, unfolding(crate::specs::SeenLinks::name_of))]
fn found(at: Addr, place: u64, verdict: &Verdict) -> Option<Finding>
    ensures { list_of result ≡ name_of at (place, verdict.now) }
{
    if place == 0 {
        return None;
    }
    if verdict.earlier.is_none() && verdict.chosen {
        return None;
    }
    Some(Finding {
        rule: RULE,
        place: Place::At(at),
        first: place - 1,
        second: verdict.earlier.unwrap_or(0),
    })
}

// Adds what is found of the links of a kept directory.
fn add_links(
    at: Addr,
    links: &BTreeMap<u64, Verdict>,
    findings: &mut Findings,
) -> Result<(), AllocError>
    ensures { OnOk result (findings.new ≡ findings.old ++ names_of at links.now.entries) }
{
    for (place, verdict) in links {
        if let Some(finding) = found(at, *place, verdict) {
            findings.push(finding)?;
        }
    }
    Ok(())
}

// The same of those of a kept entry, where it is a directory.
fn add_names(survey: &Survey, id: NodeId, findings: &mut Findings) -> Result<(), AllocError>
    requires { id.0 < length survey.now.nodes }
    ensures { OnOk result (findings.new ≡ findings.old ++ names_at survey.now id) }
{
    let node = survey.node(id);
    if !node.directory {
        return Ok(());
    }
    add_links(node.at, survey.links(id), findings)
}

/// Adds what breaks the rule on names and links.
#[tactic(auto, unfolding(crate::specs::SeenLinks::names_along))]
pub(crate) fn check_names(survey: &Survey, findings: &mut Findings) -> Result<(), AllocError>
    ensures { OnOk result (findings.new ≡ findings.old ++ names_along survey.now) }
{
    let order = survey.in_order();
    for id in order {
        add_names(survey, *id, findings)?;
    }
    Ok(())
}
