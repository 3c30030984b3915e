//! What is printed at each outcome.
ghost use Rattle.std.specs.Prelude.{◌≡◌, ◌+◌, ◌≤◌, ◌++◌, length, IfOk, OnOk, codes, decimal, take};
ghost use Rattle.udf_layer.specs.declared.missing.Missing.{Missing};
ghost use Rattle.udf_rules.specs.Lines.{lines_of, line_of};
ghost use Rattle.udf_top.specs.Texts.{text_of, name_of, item_name, line_on, replayed_text, mend_text};

use crate::{Finding, Findings, Outcome, report_line};
use itoa::Buffer;
use std::alloc::{AllocError, Global};
use udf_volume::{Missing, ProfileItem};

const USAGE: &str = "udffsck: usage: udffsck -c|-p [-B SIZE] [--redo FILE] MEDIUM\n";

fn item(item: ProfileItem) -> &'static str
    ensures { result.now ≡ item_name item }
{
    match item {
        ProfileItem::BlockSize => "BlockSize",
        ProfileItem::Domain => "Domain",
        ProfileItem::Revision => "Revision",
        ProfileItem::VolumePointer => "VolumePointer",
        ProfileItem::PartitionMaps => "PartitionMaps",
        ProfileItem::Unbuilt => "Unbuilt",
        ProfileItem::SpaceTables => "SpaceTables",
        ProfileItem::IntegrityChain => "IntegrityChain",
        ProfileItem::FileSets => "FileSets",
        ProfileItem::Strategy => "Strategy",
        ProfileItem::ExtendedDescriptors => "ExtendedDescriptors",
        ProfileItem::AttributeFile => "AttributeFile",
    }
}

// The name of a refusal.
fn add_name(text: &mut Vec<u8>, missing: Missing) -> Result<(), AllocError>
    ensures { OnOk result (text.new.items ≡ text.old.items ++ name_of missing) }
{
    match missing {
        Missing::TooLarge => text.extend_from_slice(b"TooLarge"),
        Missing::Anchor => text.extend_from_slice(b"Anchor"),
        Missing::Sequence => text.extend_from_slice(b"Sequence"),
        Missing::Layout => text.extend_from_slice(b"Layout"),
        Missing::SparingTable => text.extend_from_slice(b"SparingTable"),
        Missing::FileSet => text.extend_from_slice(b"FileSet"),
        Missing::RootDirectory => text.extend_from_slice(b"RootDirectory"),
        Missing::WriteProtected => text.extend_from_slice(b"WriteProtected"),
        Missing::Profile(profile) => {
            text.extend_from_slice(b"Profile ")?;
            text.extend_from_slice(item(profile).as_bytes())
        }
    }
}

// Begins a line that tells of a file.
fn begin(text: &mut Vec<u8>, file: &str) -> Result<(), AllocError>
    ensures { OnOk result (text.new.items ≡ text.old.items ++ (codes "udffsck: " ++ file.now ++ codes ": ")) }
{
    text.extend_from_slice(b"udffsck: ")?;
    text.extend_from_slice(file.as_bytes())?;
    text.extend_from_slice(b": ")?;
    Ok(())
}

// Adds a whole line that tells of a file.
fn add_line_on(text: &mut Vec<u8>, file: &str, what: &[u8]) -> Result<(), AllocError>
    ensures { OnOk result (text.new.items ≡ text.old.items ++ line_on file.now what.now) }
{
    begin(text, file)?;
    text.extend_from_slice(what)?;
    text.extend_from_slice(b"\n")
}

fn add_line(text: &mut Vec<u8>, finding: &Finding) -> Result<(), AllocError>
    ensures { OnOk result (text.new.items ≡ text.old.items ++ line_of finding.now) }
{
    let mut line = [0u8; 64];
    let end = report_line(finding, &mut line);
    text.extend_from_slice(&line[..end])
}

// Adds the lines of findings.
#[tactic(auto, using(crate::proofs::LineLists::none, crate::proofs::LineLists::one_more, crate::proofs::LineLists::all))]
fn add_lines(text: &mut Vec<u8>, findings: &Findings) -> Result<(), AllocError>
    ensures { OnOk result (text.new.items ≡ text.old.items ++ lines_of findings.now) }
{
    for i in 0..findings.len() {
        add_line(text, findings.get(i))?;
    }
    Ok(())
}

fn add_number(text: &mut Vec<u8>, number: u64) -> Result<(), AllocError>
    ensures { OnOk result (text.new.items ≡ text.old.items ++ decimal number) }
{
    let mut buffer = Buffer::new();
    text.extend_from_slice(buffer.format(number).as_bytes())
}

/// What is printed at the end of a run: of the medium, or of the side file where that is no log of the image.
#[tactic(auto, unfolding(crate::specs::Texts::text_of))]
pub(crate) fn text(alloc: Global, file: &str, outcome: &Outcome) -> Result<Vec<u8>, AllocError>
    ensures { IfOk result (λ text. text.items ≡ text_of file.now outcome.now) }
{
    let mut text = Vec::new(alloc);
    match outcome {
        Outcome::Clean => add_line_on(&mut text, file, b"clean")?,
        Outcome::Broken(findings) => {
            add_lines(&mut text, findings)?;
            begin(&mut text, file)?;
            add_number(&mut text, findings.len())?;
            text.extend_from_slice(b" broken\n")?;
        }
        Outcome::Refused(missing) => {
            begin(&mut text, file)?;
            text.extend_from_slice(b"refused, ")?;
            add_name(&mut text, *missing)?;
            text.extend_from_slice(b"\n")?;
        }
        Outcome::Usage(_) => text.extend_from_slice(USAGE.as_bytes())?,
        Outcome::SameFile => add_line_on(&mut text, file, b"side file is the medium")?,
        Outcome::NotALog => add_line_on(&mut text, file, b"not a log")?,
        Outcome::BadLog => add_line_on(&mut text, file, b"bad log")?,
        Outcome::WrongImage(_) => add_line_on(&mut text, file, b"another image")?,
        Outcome::Repaired { .. } | Outcome::DeviceFault | Outcome::OutFault | Outcome::Memory => {}
    }
    Ok(text)
}

/// The line of a replay of so many blocks, where there was one.
#[tactic(auto, unfolding(crate::specs::Texts::replayed_text))]
pub(crate) fn replayed_line(
    alloc: Global,
    medium: &str,
    replayed: u32,
) -> Result<Vec<u8>, AllocError>
    ensures { IfOk result (λ text. text.items ≡ replayed_text medium.now replayed) }
{
    let mut text = Vec::new(alloc);
    if replayed > 0 {
        begin(&mut text, medium)?;
        text.extend_from_slice(b"replayed ")?;
        add_number(&mut text, replayed as u64)?;
        text.extend_from_slice(b" blocks\n")?;
    }
    Ok(text)
}

/// What a repair prints before it writes so many blocks.
#[tactic(auto, unfolding(crate::specs::Texts::mend_text))]
pub(crate) fn mend_lines(
    alloc: Global,
    medium: &str,
    findings: &Findings,
    written: u32,
) -> Result<Vec<u8>, AllocError>
    ensures { IfOk result (λ text. text.items ≡ mend_text medium.now findings.now written) }
{
    let mut text = Vec::new(alloc);
    if findings.is_empty() {
        add_line_on(&mut text, medium, b"clean")?;
        return Ok(text);
    }
    add_lines(&mut text, findings)?;
    begin(&mut text, medium)?;
    text.extend_from_slice(b"repairing ")?;
    add_number(&mut text, written as u64)?;
    text.extend_from_slice(b" blocks\n")?;
    Ok(text)
}
