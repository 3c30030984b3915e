//! The rule on sequences, number 3 (ECMA-167 3/8.4.2, 3/8.4.3).
//!
//! Binds: every volume. The sequence that was not kept is whole, and of each kind and subject the same descriptor prevails in
//! it, tags aside.
//! Reads: the extents of both sequences.
//! Finds: the first sector of the other extent, with the number of descriptors read there before its list ended or was spoilt,
//! and that of the kept ones.
//! Mends: the kept descriptors and the block that ends them are copied to the other extent, relocated (`udf_plan`).
//! Relies on: the kept sequence, which is whole.
ghost use Rattle.std.specs.Prelude.{◌≡◌, ◌++◌, length, OnOk};
ghost use Rattle.udf_outside.specs.Stops.{bytes_of};
ghost use Rattle.udf_outside.specs.Reads.{OnlyReads};
ghost use Rattle.udf_outside.specs.declared.bench.Role.TheVariants.{Image};
ghost use Rattle.udf_volume.specs.Over.{IsOver};
ghost use Rattle.udf_volume.specs.Spans.{other_span};
ghost use Rattle.udf_rules.specs.Findings.{sequence_report};
ghost use Rattle.udf_rules.specs.Reported.{sequences_reported};

use crate::{Finding, Findings, Place};
use std::alloc::{AllocError, Global};
use udf_outside::Bench;
use udf_volume::{SequenceVerdict, Volume, WorkStop, sequence_verdict};

/// The number of the rule.
const RULE: u8 = 3;

// Adds what is reported of a verdict.
#[tactic(auto, unfolding(crate::specs::Findings::sequence_report))]
fn report_sequences(
    findings: &mut Findings,
    volume: &Volume,
    verdict: &SequenceVerdict,
) -> Result<(), AllocError>
    ensures { OnOk result (findings.new ≡ findings.old ++ sequence_report verdict.now.holds
        (other_span volume.now).start (length verdict.now.other.items) (length verdict.now.kept.items)) }
{
    if verdict.holds {
        return Ok(());
    }
    findings.push(Finding {
        rule: RULE,
        place: Place::Sector(volume.other_extent().start),
        first: verdict.other.len() as u64,
        second: verdict.kept.len() as u64,
    })
}

// Adds what breaks the rule on sequences.
pub(crate) fn check_sequences<B: Bench>(
    alloc: Global,
    bench: &mut B,
    volume: &Volume,
    block: &mut [u8],
    findings: &mut Findings,
) -> Result<(), WorkStop>
    requires over { IsOver volume.now (B.files bench.old) }
    requires room { length block.old ≡ volume.now.size }
    ensures found { B.tells → OnOk result (findings.new ≡ findings.old
        ++ sequences_reported volume.now (bytes_of Image (B.held bench.old))) }
    ensures reads { OnlyReads B.files B.held B.faults bench.old bench.new WorkStop.Fault result }
{
    let verdict = sequence_verdict(alloc, bench, volume, block)?;
    report_sequences(findings, volume, &verdict)?;
    Ok(())
}
