//! A check: `udffsck -c`.
ghost use Rattle.std.specs.Prelude.{◌≡◌, ◌≤◌, ℕ, List, true, Some, None, IfSome, IfErr, IsErrOf};
ghost use Rattle.udf_outside.specs.Stops.{bytes_of};
ghost use Rattle.udf_outside.specs.Files.{IsAttached};
ghost use Rattle.udf_outside.specs.Reads.{OnlyReads};
ghost use Rattle.udf_outside.specs.Causes.{Rose};
ghost use Rattle.udf_outside.specs.declared.bench.Role.TheVariants.{Image};
ghost use Rattle.udf_outside.specs.declared.bench.Access.TheVariants.{Read};
ghost use Rattle.udf_layer.specs.declared.missing.Missing.{Missing};
ghost use Rattle.udf_model.specs.Size.{is_size};
ghost use Rattle.udf_volume.specs.Taken.{IsOpenOver, IsOpenedOf};
ghost use Rattle.udf_words.specs.declared.cause.Cause.{Cause};
ghost use Rattle.udf_top.specs.Endings.{HasEnded};
ghost use Rattle.udf_top.specs.Udffsck.{check_of, by_findings, Examines, ExaminesAt, ExaminesVolume, IsOfCheck, RefusesCheck};

use crate::udffsck::sized::size_for;
use crate::{Findings, Outcome};
use std::alloc::Global;
use udf_file_rules::check_files;
use udf_files::files_of;
use udf_outside::{Access, Bench, Role};
use udf_rules::check_opened;
use udf_volume::{LayerStop, Opened, open_layout};

// What breaks the rules on a volume that was opened of the image, and on its files.
fn examine_opened<B: Bench>(
    alloc: Global,
    bench: &mut B,
    opened: Opened,
) -> Result<Findings, LayerStop>
    requires over { IsOpenOver opened (B.files bench.old) }
    requires size { is_size opened.volume.size ≡ true }
    requires opened { B.tells → IsOpenedOf (bytes_of Image (B.held bench.old)) opened }
    ensures answers { B.tells → ExaminesVolume opened.volume (bytes_of Image (B.held bench.old)) result }
    ensures refusal { IfErr result RefusesCheck }
    ensures reads { OnlyReads B.files B.held B.faults bench.old bench.new LayerStop.Fault result }
{
    let of_volume = check_opened(alloc, bench, &opened)?;
    let files = files_of(alloc, bench, opened)?;
    let findings = check_files(alloc, bench, &files, of_volume)?;
    Ok(findings)
}

// The same of the volume of an image, at a block size.
#[tactic(auto, using(udf_volume::proofs::Openings::open_over, udf_volume::proofs::Openings::of_image, udf_model::proofs::Sizes::large))]
fn examine_at<B: Bench>(
    alloc: Global,
    size: u32,
    length: u64,
    bench: &mut B,
) -> Result<Findings, LayerStop>
    requires attached { IsAttached Image (B.files bench.old) }
    requires size { is_size size ≡ true }
    requires sized { length ≡ (B.files bench.old).image.size }
    ensures answers { B.tells → ExaminesAt size (bytes_of Image (B.held bench.old)) result }
    ensures refusal { IfErr result RefusesCheck }
    ensures reads { OnlyReads B.files B.held B.faults bench.old bench.new LayerStop.Fault result }
{
    let opened = open_layout(alloc, bench, size, length)?;
    examine_opened(alloc, bench, opened)
}

// Reads what a check needs, and answers what breaks the rules.
#[tactic(auto, using(udf_model::proofs::Sizes::large))]
fn examine<B: Bench>(
    alloc: Global,
    given: Option<u32>,
    medium: &str,
    bench: &mut B,
) -> Result<Findings, LayerStop>
    requires image { (B.files bench.old).image.asked ≡ None }
    requires given { IfSome given (λ size. is_size size ≡ true) }
    ensures answers { B.tells → Examines given (bytes_of Image (B.held bench.old)) result }
    ensures refusal { IfErr result RefusesCheck }
    ensures asked { (B.files bench.new).image.asked ≡ Some Read }
    ensures named { IfSome (B.files bench.new).image.name (λ told. told ≡ medium.now) }
    ensures side { (B.files bench.new).side ≡ (B.files bench.old).side }
    ensures held { B.held bench.new ≡ B.held bench.old }
    ensures later { B.faults bench.old ≤ B.faults bench.new }
    ensures fault { IsErrOf result LayerStop.Fault → Rose (B.faults bench.old) (B.faults bench.new) }
{
    bench.attach(Role::Image, medium, Access::Read)?;
    let length = bench.length(Role::Image)?;
    let size = size_for(alloc, bench, length, given)?;
    examine_at(alloc, size, length, bench)
}

fn found(findings: Findings) -> Outcome
    ensures { result ≡ by_findings findings }
{
    if findings.is_empty() {
        Outcome::Clean
    } else {
        Outcome::Broken(findings)
    }
}

/// The outcome of a check, before its lines are put.
pub(crate) fn check<B: Bench>(
    alloc: Global,
    given: Option<u32>,
    medium: &str,
    bench: &mut B,
) -> Outcome
    requires image { (B.files bench.old).image.asked ≡ None }
    requires given { IfSome given (λ size. is_size size ≡ true) }
    ensures answers { B.tells → HasEnded result → result ≡ check_of given (bytes_of Image (B.held bench.old)) }
    ensures asked { (B.files bench.new).image.asked ≡ Some Read }
    ensures named { IfSome (B.files bench.new).image.name (λ told. told ≡ medium.now) }
    ensures side { (B.files bench.new).side ≡ (B.files bench.old).side }
    ensures held { B.held bench.new ≡ B.held bench.old }
    ensures later { B.faults bench.old ≤ B.faults bench.new }
    ensures device { result ≡ Outcome.DeviceFault → Rose (B.faults bench.old) (B.faults bench.new) }
    ensures out { result ≡ Outcome.OutFault → ⊥ }
    ensures usage { (cause : Cause) → result ≡ Outcome.Usage cause → ⊥ }
    ensures other { result ≡ Outcome.SameFile → ⊥ }
    ensures refused { (missing : Missing) → result ≡ Outcome.Refused missing → IsOfCheck missing }
{
    match examine(alloc, given, medium, bench) {
        Ok(findings) => found(findings),
        Err(LayerStop::Missing(missing)) => Outcome::Refused(missing),
        Err(LayerStop::Fault) => Outcome::DeviceFault,
        Err(LayerStop::Memory) => Outcome::Memory,
    }
}
