//! The rules of a volume's description in their order.
ghost use Rattle.std.specs.Prelude.{◌≡◌, ◌++◌, length, map, IfOk, OnOk};
ghost use Rattle.udf_outside.specs.Stops.{bytes_of};
ghost use Rattle.udf_outside.specs.Reads.{OnlyReads};
ghost use Rattle.udf_outside.specs.declared.bench.Role.TheVariants.{Image};
ghost use Rattle.udf_volume.specs.Taken.{IsOpenOver, IsOpenedOf};
ghost use Rattle.udf_rules.specs.Findings.{finding_of, findings_in};
ghost use Rattle.udf_rules_model.specs.Findings.{before_volume};

use crate::Findings;
use crate::anchors::check_anchors;
use crate::recognition::check_recognition;
use crate::sequences::check_sequences;
use crate::tables::check_tables;
use std::alloc::Global;
use udf_outside::Bench;
use udf_volume::{Opened, WorkStop};

// Adds what breaks the rules on anchors, on sequences and on sparing tables. `block` is lent and has the block size.
fn add_volume<B: Bench>(
    alloc: Global,
    bench: &mut B,
    opened: &Opened,
    block: &mut [u8],
    findings: &mut Findings,
) -> Result<(), WorkStop>
    requires over { IsOpenOver opened.now (B.files bench.old) }
    requires opened { B.tells → IsOpenedOf (bytes_of Image (B.held bench.old)) opened.now }
    requires room { length block.old ≡ opened.now.volume.size }
    ensures found { B.tells → OnOk result (findings.new ≡ findings.old ++ findings_in opened.now.volume.size (bytes_of Image (B.held bench.old))) }
    ensures reads { OnlyReads B.files B.held B.faults bench.old bench.new WorkStop.Fault result }
{
    let volume = &opened.volume;
    check_anchors(alloc, bench, volume, &opened.layout, block, findings)?;
    check_sequences(alloc, bench, volume, block, findings)?;
    check_tables(alloc, bench, opened, findings)?;
    Ok(())
}

/// What breaks the rules on the recognition sequence, on anchors, on sequences and on sparing tables, on a volume that was opened
/// of the image.
pub fn check_opened<B: Bench>(
    alloc: Global,
    bench: &mut B,
    opened: &Opened,
) -> Result<Findings, WorkStop>
    requires over { IsOpenOver opened.now (B.files bench.old) }
    requires opened { B.tells → IsOpenedOf (bytes_of Image (B.held bench.old)) opened.now }
    ensures found { B.tells → IfOk result (λ f. f ≡ map finding_of (before_volume opened.now.volume (bytes_of Image (B.held bench.old)))
        ++ findings_in opened.now.volume.size (bytes_of Image (B.held bench.old))) }
    ensures reads { OnlyReads B.files B.held B.faults bench.old bench.new WorkStop.Fault result }
{
    let mut block = vec![in alloc; 0u8; opened.volume.size as usize]?;
    let mut findings = Findings::none(alloc);
    check_recognition(alloc, bench, opened, &mut block, &mut findings)?;
    add_volume(alloc, bench, opened, &mut block, &mut findings)?;
    Ok(findings)
}
