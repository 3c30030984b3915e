//! The rule on the volume recognition sequence, number 1 (ECMA-167 2/8.3, 3/9.1; UDF 2.1.7).
//!
//! Binds: volumes whose first three slots lie in the image, have no block that the volume takes and no place of an anchor, and
//! hold no other file system and no boot descriptor. A slot has 2048 bytes, or a block where blocks are larger, and the first begins
//! at byte 32768. Of the slots before the first that is not clear or has no known identifier, and of 64 at most, one is a beginning,
//! a later one a volume, and a still later one an end.
//! Reads: the first blocks of these slots.
//! Finds: the block of byte 32768, with the digit of the first volume of these slots, 0 without one, and that of the one that is
//! written.
//! Mends: the first three slots become a beginning, a volume of the edition that the partition descriptor names, and an end.
//! Relies on: what the volume takes, and the partition's prevailing descriptor.
ghost use Rattle.std.specs.Prelude.{◌≡◌, ◌++◌, length, map, OnOk};
ghost use Rattle.udf_outside.specs.Stops.{bytes_of};
ghost use Rattle.udf_outside.specs.Reads.{OnlyReads};
ghost use Rattle.udf_outside.specs.declared.bench.Role.TheVariants.{Image};
ghost use Rattle.udf_volume.specs.Taken.{IsOpenOver, IsOpenedOf};
ghost use Rattle.udf_rules_model.specs.Findings.{before_volume};
ghost use Rattle.udf_rules.specs.Findings.{finding_of};

use crate::slots::{FIRST_BYTE, is_bound, read_structures};
use crate::structure::{edition_of, first_digit, is_sequence};
use crate::{Finding, Findings, Place};
use std::alloc::Global;
use udf_outside::{Bench, read_block};
use udf_volume::{Opened, WorkStop, places_of};

/// The number of the rule.
const RULE: u8 = 1;

/// Adds what breaks the rule on the recognition sequence. `block` is lent and has the block size.
pub fn check_recognition<B: Bench>(
    alloc: Global,
    bench: &mut B,
    opened: &Opened,
    block: &mut [u8],
    findings: &mut Findings,
) -> Result<(), WorkStop>
    requires over { IsOpenOver opened.now (B.files bench.old) }
    requires opened { B.tells → IsOpenedOf (bytes_of Image (B.held bench.old)) opened.now }
    requires room { length block.old ≡ opened.now.volume.size }
    ensures found { B.tells → OnOk result (findings.new ≡ findings.old
        ++ map finding_of (before_volume opened.now.volume (bytes_of Image (B.held bench.old)))) }
    ensures reads { OnlyReads B.files B.held B.faults bench.old bench.new WorkStop.Fault result }
{
    let volume = &opened.volume;
    let places = places_of(alloc, volume.blocks)?;
    if !is_bound(bench, opened, &places, block)? {
        return Ok(());
    }
    let structures = read_structures(alloc, bench, opened, &places, block)?;
    if is_sequence(&structures) {
        return Ok(());
    }
    read_block(bench, volume.size, volume.pd, block)?;
    findings.push(Finding {
        rule: RULE,
        place: Place::Sector(FIRST_BYTE / volume.size),
        first: first_digit(&structures),
        second: edition_of(block).digit(),
    })?;
    Ok(())
}
