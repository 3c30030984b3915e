//! The rules of a volume's files and space in their order.
ghost use Rattle.std.specs.Prelude.{◌≡◌, ◌++◌, map, IfOk, OnOk};
ghost use Rattle.udf_file_model.specs.Listing as listing;
ghost use Rattle.udf_outside.specs.Stops.{bytes_of};
ghost use Rattle.udf_outside.specs.Reads.{OnlyReads};
ghost use Rattle.udf_outside.specs.declared.bench.Role.TheVariants.{Image};
ghost use Rattle.udf_tree_model.specs.Frame.{Frame};
ghost use Rattle.udf_volume.specs.Laid.{IsLaidOut};
ghost use Rattle.udf_volume.specs.Over.{IsOver};
ghost use Rattle.udf_rules.specs.Findings.{finding_of};
ghost use Rattle.udf_rules_model.specs.Findings.{of_files_by, of_space};
ghost use Rattle.udf_files.specs.Files.{AreFilesOf, AreOverVolume};
ghost use Rattle.udf_file_rules.specs.Checked.{files_checked};
ghost use Rattle.udf_file_rules.specs.Surveyed.{AreSurveyed};

use crate::allocation::check_allocation;
use crate::bitmap::check_bitmap;
use crate::contents::check_contents;
use crate::identifiers::check_identifiers;
use crate::integrity::check_integrity;
use crate::link_counts::check_link_counts;
use crate::names::check_names;
use crate::targets::check_targets;
use std::alloc::{AllocError, Global};
use udf_files::Files;
use udf_free::free_blocks;
use udf_outside::Bench;
use udf_rules::Findings;
use udf_tree::Survey;
use udf_volume::{FileSet, WorkStop};

// Adds what breaks the rules on kept entries.
fn check_entries(
    alloc: Global,
    survey: &Survey,
    set: &FileSet,
    findings: &mut Findings,
) -> Result<(), AllocError>
    ensures { (f : Frame) (v : listing.Volume) → AreSurveyed f v set.now survey.now → OnOk result (findings.new ≡ findings.old ++ map finding_of (of_files_by f v)) }
{
    check_targets(alloc, survey, set, findings)?;
    check_allocation(survey, findings)?;
    check_contents(survey, findings)?;
    check_names(survey, findings)?;
    check_link_counts(survey, findings)?;
    check_identifiers(survey, findings)?;
    Ok(())
}

// Adds what breaks the rules on the space bitmap and on integrity.
fn check_space<B: Bench>(
    alloc: Global,
    bench: &mut B,
    files: &Files,
    findings: &mut Findings,
) -> Result<(), WorkStop>
    requires over { IsOver files.now.volume (B.files bench.old) }
    requires laid { IsLaidOut files.now.volume }
    requires volume { AreOverVolume files.now.volume files.now }
    requires files { B.tells → AreFilesOf files.now.volume (bytes_of Image (B.held bench.old)) files.now }
    ensures found { B.tells → OnOk result (findings.new ≡ findings.old ++ map finding_of (of_space files.now.volume (bytes_of Image (B.held bench.old)))) }
    ensures reads { OnlyReads B.files B.held B.faults bench.old bench.new WorkStop.Fault result }
{
    let volume = &files.volume;
    let free = free_blocks(alloc, &files.survey, volume.length)?;
    check_bitmap(alloc, bench, volume, &files.parts, &free, findings)?;
    let mut block = vec![in alloc; 0u8; volume.size as usize]?;
    check_integrity(
        bench,
        volume,
        &files.survey,
        free.free_count(),
        &mut block,
        findings,
    )?;
    Ok(())
}

/// What breaks the rules on kept entries, on the space bitmap and on integrity, behind what was found before. `files` are those of a
/// volume that was opened of the image.
pub fn check_files<B: Bench>(
    alloc: Global,
    bench: &mut B,
    files: &Files,
    before: Findings,
) -> Result<Findings, WorkStop>
    requires over { IsOver files.now.volume (B.files bench.old) }
    requires laid { IsLaidOut files.now.volume }
    requires volume { AreOverVolume files.now.volume files.now }
    requires files { B.tells → AreFilesOf files.now.volume (bytes_of Image (B.held bench.old)) files.now }
    ensures found { B.tells → IfOk result (λ findings. findings ≡ before ++ files_checked files.now.volume (bytes_of Image (B.held bench.old))) }
    ensures reads { OnlyReads B.files B.held B.faults bench.old bench.new WorkStop.Fault result }
{
    let mut findings = before;
    check_entries(alloc, &files.survey, &files.set, &mut findings)?;
    check_space(alloc, bench, files, &mut findings)?;
    Ok(findings)
}
