//! The rule on integrity, number 13 (ECMA-167 3/8.8.2, 3/10.10; UDF 2.2.6).
//!
//! Binds: volumes whose integrity extent has a length. A descriptor prevails in it; it is closed, of one partition, and has the
//! counts of files; its number of free blocks is right where the partition has a bitmap, and so is its number of blocks; its next
//! identifier is at least 16 and above that of every ordinary entry; it counts the ordinary entries that are no directories, or the
//! fitted FIDs that name such, and the ordinary directories.
//! Reads: the extent up to the first block that holds no descriptor, and the prevailing one once more.
//! Finds: the sector of the prevailing descriptor, or the first one of the extent, with its type, 2 where none prevails, and the next
//! identifier after the mend.
//! Mends: the prevailing descriptor becomes a closed one with the right counts; its next identifier stays where it is right, else it
//! is the least that is.
//! Relies on: the ordinary entries with their identifiers, and the free blocks.
ghost use Rattle.std.specs.Prelude.{◌≡◌, ◌≤◌, ◌++◌, length, map, Option, OnOk, option_map};
ghost use Rattle.udf_field.specs.declared.address.Short.{Short};
ghost use Rattle.udf_field.specs.declared.address.Span.{Span};
ghost use Rattle.udf_outside.specs.Stops.{bytes_of};
ghost use Rattle.udf_outside.specs.Reads.{OnlyReads};
ghost use Rattle.udf_outside.specs.declared.bench.Role.TheVariants.{Image};
ghost use Rattle.udf_file_model.specs.Listing as listing;
ghost use Rattle.udf_tree_model.specs.Frame.{Frame};
ghost use Rattle.udf_tree.specs.Survey.{IsSurvey};
ghost use Rattle.udf_volume.specs.Laid.{IsLaidOut};
ghost use Rattle.udf_volume.specs.Over.{IsOver};
ghost use Rattle.udf_rules.specs.Findings.{finding_of};
ghost use Rattle.udf_rules_model.specs.Integrity.{integrity_findings};
ghost use Rattle.udf_file_rules.specs.Right.{IsFreeCount, IsOfImage, IsRight, Prevails, list_of};

use crate::right::Right;
use crate::tally::tally_of;
use std::alloc::AllocError;
use udf_integrity::{integrity_in, prevailing_descriptor};
use udf_outside::Bench;
use udf_rules::{Finding, Findings, Place};
use udf_tree::Survey;
use udf_volume::{Volume, WorkStop};

/// The number of the rule.
const RULE: u8 = 13;

/// What stands for the type where no descriptor prevails.
const NO_TYPE: u64 = 2;

// What is found of the prevailing descriptor, which stands in the block, or where none prevails in an extent that begins at a sector.
fn judge(right: &Right, first: u32, prevailing: Option<u32>, block: &[u8]) -> Option<Finding>
    requires { 512 ≤ length block.now }
    ensures { (f : Frame) (v : listing.Volume) (bitmap : Option Short) (extent : Span) → IsRight f v right.now.blocks bitmap right.now → Prevails v extent first prevailing block.now
        → list_of result ≡ map finding_of (integrity_findings f v right.now.blocks bitmap extent) }
{
    let Some(sector) = prevailing else {
        return Some(Finding {
            rule: RULE,
            place: Place::Sector(first),
            first: NO_TYPE,
            second: right.tally.least_next(),
        });
    };
    let stated = integrity_in(block);
    if right.is_stated(&stated) {
        return None;
    }
    Some(Finding {
        rule: RULE,
        place: Place::Sector(sector),
        first: stated.kind as u64,
        second: right.next_id(&stated),
    })
}

// So many free blocks, where the volume has a bitmap.
fn known_free(volume: &Volume, free: u32) -> Option<u32>
    ensures { result ≡ option_map (λ b. free) volume.now.bitmap }
{
    match volume.bitmap {
        None => None,
        Some(_) => Some(free),
    }
}

/// What a descriptor of a volume is to state, which has so many free blocks where it has a bitmap.
pub fn right_of(volume: &Volume, survey: &Survey, free: u32) -> Right
    ensures right { (f : Frame) (v : listing.Volume) → IsSurvey f v survey.now → IsFreeCount f v volume.now.length volume.now.bitmap free
        → IsRight f v volume.now.length volume.now.bitmap result }
    ensures blocks { result.blocks ≡ volume.now.length }
{
    Right {
        tally: tally_of(survey),
        files_named: survey.files_named(),
        free: known_free(volume, free),
        blocks: volume.length,
    }
}

// Adds a finding where there is one.
fn add(findings: &mut Findings, found: Option<Finding>) -> Result<(), AllocError>
    ensures { OnOk result (findings.new ≡ findings.old ++ list_of found) }
{
    if let Some(finding) = found {
        findings.push(finding)?;
    }
    Ok(())
}

/// Adds what breaks the rule on integrity on a volume with these files, which has so many free blocks where it has a bitmap. `block`
/// is lent and has the block size.
pub(crate) fn check_integrity<B: Bench>(
    bench: &mut B,
    volume: &Volume,
    survey: &Survey,
    free: u32,
    block: &mut [u8],
    findings: &mut Findings,
) -> Result<(), WorkStop>
    requires over { IsOver volume.now (B.files bench.old) }
    requires laid { IsLaidOut volume.now }
    requires room { length block.old ≡ volume.now.size }
    ensures found { B.tells → (f : Frame) (v : listing.Volume) → IsSurvey f v survey.now → IsOfImage volume.now (bytes_of Image (B.held bench.old)) v
        → IsFreeCount f v volume.now.length volume.now.bitmap free
        → OnOk result (findings.new ≡ findings.old ++ map finding_of (integrity_findings f v volume.now.length volume.now.bitmap volume.now.integrity)) }
    ensures reads { OnlyReads B.files B.held B.faults bench.old bench.new WorkStop.Fault result }
{
    if volume.integrity.length == 0 {
        return Ok(());
    }
    let right = right_of(volume, survey, free);
    let prevailing = prevailing_descriptor(bench, volume, block)?;
    let found = judge(&right, volume.integrity.start, prevailing, block);
    add(findings, found)?;
    Ok(())
}
