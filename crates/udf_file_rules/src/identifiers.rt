//! The rule on unique identifiers, number 11 (ECMA-167 4/14.9.18, UDF 3.2.1.1).
//!
//! Binds: every ordinary entry, which fitted FIDs alone lead to from the root. It states the identifier that is wanted: the root 0;
//! another its own, where that is from 16 on and below 2^63 and no ordinary entry at a lower address states it; else the free one
//! that is its turn in the order of addresses.
//! Reads: nothing, it works from the survey.
//! Finds: the entry, with the identifier that it states and the one that is wanted.
//! Mends: the entry states the wanted identifier.
//! Relies on: which entries are ordinary.
ghost use Rattle.std.specs.Prelude.{◌≡◌, ◌++◌, OnOk};
ghost use Rattle.udf_file_rules.specs.Seen.{identifiers_along, identifier_of, list_of};

use std::alloc::AllocError;
use udf_rules::{Finding, Findings, Place};
use udf_tree::{Node, Stated, Survey};

/// The number of the rule.
const RULE: u8 = 11;

// What is found of a kept entry.
#[tactic(auto, unfolding(crate::specs::Seen::identifier_of))]
fn found(node: &Node, stated: Stated) -> Option<Finding>
    ensures { list_of result ≡ identifier_of node.now stated }
{
    if !node.ordinary || stated.id == node.id {
        return None;
    }
    Some(Finding {
        rule: RULE,
        place: Place::At(node.at),
        first: stated.id,
        second: node.id,
    })
}

/// Adds what breaks the rule on identifiers.
#[tactic(auto, unfolding(crate::specs::Seen::identifiers_along))]
pub(crate) fn check_identifiers(survey: &Survey, findings: &mut Findings) -> Result<(), AllocError>
    ensures { OnOk result (findings.new ≡ findings.old ++ identifiers_along survey.now) }
{
    let order = survey.in_order();
    for id in order {
        if let Some(finding) = found(survey.node(*id), survey.stated(*id)) {
            findings.push(finding)?;
        }
    }
    Ok(())
}
