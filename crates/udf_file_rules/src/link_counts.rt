//! The rule on link counts, number 10 (ECMA-167 4/14.9.6).
//!
//! Binds: every kept entry. The count that it states lies from the least to the greatest that is lawful: both habits of counting the
//! links of stream directories are.
//! Reads: nothing, it works from the survey.
//! Finds: the entry, with the count that it states and the one that is wanted.
//! Mends: the entry states the wanted count.
//! Relies on: which entries are kept, and the contents of directories after their mends.
ghost use Rattle.std.specs.Prelude.{◌≡◌, ◌++◌, OnOk};
ghost use Rattle.udf_file_rules.specs.Seen.{counts_along, count_of, list_of};

use std::alloc::AllocError;
use udf_dues::Count;
use udf_rules::{Finding, Findings, Place};
use udf_tree::{Node, Stated, Survey};

/// The number of the rule.
const RULE: u8 = 10;

// What is found of a kept entry.
#[tactic(auto, unfolding(crate::specs::Seen::count_of))]
fn found(node: &Node, stated: Stated, count: Count) -> Option<Finding>
    ensures { list_of result ≡ count_of node.now stated count }
{
    if count.low <= stated.links && stated.links <= count.high {
        return None;
    }
    Some(Finding {
        rule: RULE,
        place: Place::At(node.at),
        first: stated.links as u64,
        second: node.links as u64,
    })
}

/// Adds what breaks the rule on link counts.
#[tactic(auto, unfolding(crate::specs::Seen::counts_along))]
pub(crate) fn check_link_counts(survey: &Survey, findings: &mut Findings) -> Result<(), AllocError>
    ensures { OnOk result (findings.new ≡ findings.old ++ counts_along survey.now) }
{
    let order = survey.in_order();
    for id in order {
        if let Some(finding) = found(survey.node(*id), survey.stated(*id), survey.counts(*id)) {
            findings.push(finding)?;
        }
    }
    Ok(())
}
