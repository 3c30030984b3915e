//! The rule on anchors, number 2 (ECMA-167 3/8.4.2.1).
//!
//! Binds: every volume. At least two of the eligible places hold a good anchor, or all do. A place is eligible where it is at
//! least 256 and lies in none of the volume's areas and used packets; it is good where its block is an anchor, whole there, that names the
//! extents of the kept one.
//! Reads: the block of each eligible place.
//! Finds: each eligible place that is not good, with the numbers of good and of eligible places.
//! Mends: each of them becomes the kept anchor's block, relocated (`udf_plan`).
//! Relies on: the kept anchor and what the volume takes, whose parts lie apart from each other.
ghost use Rattle.std.specs.Prelude.{◌≡◌, ◌≤◌, ◌++◌, length, OnOk};
ghost use Rattle.udf_outside.specs.Stops.{bytes_of};
ghost use Rattle.udf_outside.specs.Reads.{OnlyReads};
ghost use Rattle.udf_outside.specs.declared.bench.Role.TheVariants.{Image};
ghost use Rattle.udf_volume.specs.Over.{IsOver};
ghost use Rattle.udf_rules.specs.Findings.{anchor_report};
ghost use Rattle.udf_rules.specs.Reported.{anchors_reported};

use crate::{Finding, Findings, Place};
use std::alloc::{AllocError, Global};
use udf_outside::Bench;
use udf_volume::{AnchorVerdict, Layout, Volume, WorkStop, anchor_verdict};

/// The number of the rule.
const RULE: u8 = 2;

// Adds what is reported of a verdict.
#[tactic(auto, unfolding(crate::specs::Findings::anchor_report))]
fn report_anchors(findings: &mut Findings, verdict: &AnchorVerdict) -> Result<(), AllocError>
    requires { length verdict.now.bad.items ≤ length verdict.now.eligible.items }
    ensures { OnOk result (findings.new ≡ findings.old
        ++ anchor_report verdict.now.holds verdict.now.eligible.items verdict.now.bad.items) }
{
    if verdict.holds {
        return Ok(());
    }
    let eligible = verdict.eligible.len();
    let good = eligible - verdict.bad.len();
    for place in &verdict.bad {
        findings.push(Finding {
            rule: RULE,
            place: Place::Sector(*place),
            first: good as u64,
            second: eligible as u64,
        })?;
    }
    Ok(())
}

// Adds what breaks the rule on anchors.
pub(crate) fn check_anchors<B: Bench>(
    alloc: Global,
    bench: &mut B,
    volume: &Volume,
    layout: &Layout,
    block: &mut [u8],
    findings: &mut Findings,
) -> Result<(), WorkStop>
    requires over { IsOver volume.now (B.files bench.old) }
    requires room { length block.old ≡ volume.now.size }
    ensures found { B.tells → OnOk result (findings.new ≡ findings.old
        ++ anchors_reported volume.now layout.now (bytes_of Image (B.held bench.old))) }
    ensures reads { OnlyReads B.files B.held B.faults bench.old bench.new WorkStop.Fault result }
{
    let verdict = anchor_verdict(alloc, bench, volume, layout, block)?;
    report_anchors(findings, &verdict)?;
    Ok(())
}
