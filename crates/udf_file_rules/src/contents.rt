//! The rule on contents, number 8 (ECMA-167 4/8.6, 4/14.4).
//!
//! Binds: every kept directory. FIDs stand one after another to the end of its content, each deleted, live or a parent FID; one of them
//! is a parent FID, and unless the directory is a stream directory it names the directory's parent.
//! Reads: nothing, it works from the survey.
//! Finds: the directory, with the lengths of its content and of the mended one.
//! Mends: the directory holds its mended content.
//! Relies on: the parents of kept directories.
ghost use Rattle.std.specs.Prelude.{◌≡◌, ◌++◌, ◌<◌, OnOk, length, get_or, None};
ghost use Rattle.udf_file_rules.specs.SeenContents.{bytes_after, content_at, contents_along};
ghost use Rattle.udf_file_rules.specs.Seen.{list_of};

use std::alloc::AllocError;
use udf_rules::{Finding, Findings, Place};
use udf_tree::{KeptContent, NodeId, Survey};

/// The number of the rule.
const RULE: u8 = 8;

// The bytes of a directory's content after its mend: those that it has, where it stays.
fn mended_bytes(survey: &Survey, id: NodeId, content: KeptContent) -> u64
    requires { id.0 < length survey.now.nodes }
    ensures { result ≡ bytes_after content (get_or survey.now.contents id.0 None) }
{
    match survey.mended(id) {
        Some(bytes) => bytes.len() as u64,
        None => content.bytes,
    }
}

// What is found of a kept entry.
fn found(survey: &Survey, id: NodeId) -> Option<Finding>
    requires { id.0 < length survey.now.nodes }
    ensures { list_of result ≡ content_at survey.now id }
{
    let content = survey.content(id)?;
    if content.whole {
        return None;
    }
    Some(Finding {
        rule: RULE,
        place: Place::At(survey.node(id).at),
        first: content.bytes,
        second: mended_bytes(survey, id, content),
    })
}

/// Adds what breaks the rule on contents.
#[tactic(auto, unfolding(crate::specs::SeenContents::contents_along))]
pub(crate) fn check_contents(survey: &Survey, findings: &mut Findings) -> Result<(), AllocError>
    ensures { OnOk result (findings.new ≡ findings.old ++ contents_along survey.now) }
{
    let order = survey.in_order();
    for id in order {
        if let Some(finding) = found(survey, *id) {
            findings.push(finding)?;
        }
    }
    Ok(())
}
