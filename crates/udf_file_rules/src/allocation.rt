//! The rule on allocation, number 7 (ECMA-167 4/12.1).
//!
//! Binds: every kept entry. Nothing of its list fails, it wins each block and allocation extent of it, and the list has the bytes of
//! the information length; an embedded content likewise.
//! Reads: nothing, it works from the survey.
//! Finds: the entry, with its information length and how many bytes of that it keeps.
//! Mends: the entry is cut to those bytes.
//! Relies on: which entries are kept, and what of each.
ghost use Rattle.std.specs.Prelude.{◌≡◌, ◌++◌, OnOk};
ghost use Rattle.udf_file_rules.specs.Seen.{allocation_along, allocation_of, list_of};

use std::alloc::AllocError;
use udf_rules::{Finding, Findings, Place};
use udf_tree::{Node, Stated, Survey};

/// The number of the rule.
const RULE: u8 = 7;

// What is found of a kept entry.
#[tactic(auto, unfolding(crate::specs::Seen::allocation_of))]
fn found(node: &Node, stated: Stated) -> Option<Finding>
    ensures { list_of result ≡ allocation_of node.now stated }
{
    if node.whole && stated.information <= node.kept_length {
        return None;
    }
    Some(Finding {
        rule: RULE,
        place: Place::At(node.at),
        first: stated.information,
        second: stated.information.min(node.kept_length),
    })
}

/// Adds what breaks the rule on allocation.
#[tactic(auto, unfolding(crate::specs::Seen::allocation_along))]
pub(crate) fn check_allocation(survey: &Survey, findings: &mut Findings) -> Result<(), AllocError>
    ensures { OnOk result (findings.new ≡ findings.old ++ allocation_along survey.now) }
{
    let order = survey.in_order();
    for id in order {
        if let Some(finding) = found(survey.node(*id), survey.stated(*id)) {
            findings.push(finding)?;
        }
    }
    Ok(())
}
