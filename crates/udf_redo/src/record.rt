//! The records of a log in the side file.
ghost use Rattle.std.specs.Prelude.{◌≡◌, ◌≤◌, ◌<◌, drop, length, slice_get, true, Some, IfOk};
ghost use Rattle.udf_outside.specs.Files.{IsAttached};
ghost use Rattle.udf_outside.specs.Stops.{bytes_of};
ghost use Rattle.udf_outside.specs.Reads.{OnlyReads, failed};
ghost use Rattle.udf_outside.specs.declared.bench.Role.TheVariants.{Side};
ghost use Rattle.udf_redo.specs.Log.{is_head, log_length, are_lawful, records_in};

use crate::LogHead;
use crate::head::SECTOR;
use byteorder::{ByteOrder, LittleEndian};
use udf_outside::{Bench, Failed, Role};

/// Whether the sectors of the records of this head are those of a log.
pub fn hold_lawful_records<B: Bench>(bench: &mut B, head: &LogHead) -> Result<bool, Failed>
    requires attached { IsAttached Side (B.files bench.old) }
    requires lawful { is_head head.now ≡ true }
    requires within { log_length head.now ≤ (B.files bench.old).side.size }
    ensures lawful { B.tells → IfOk result (λ lawful. lawful
        ≡ are_lawful head.now 0 (records_in head.now.size head.now.records (drop 61 (bytes_of Side (B.held bench.old))))) }
    ensures reads { OnlyReads B.files B.held B.faults bench.old bench.new failed result }
{
    let mut least = 0;
    let mut number = [0; 4];
    for k in 0..head.records {
        bench.read_at(Role::Side, head.place(k), &mut number)?;
        let sector = LittleEndian::read_u32(&number);
        if !head.may_hold(least, sector) {
            return Ok(false);
        }
        least = sector + 1;
    }
    Ok(true)
}

/// The sector of a record; its block is read into `block`, which is lent and has the block size.
pub fn read_record<B: Bench>(
    bench: &mut B,
    head: &LogHead,
    k: u32,
    block: &mut [u8],
) -> Result<u32, Failed>
    requires attached { IsAttached Side (B.files bench.old) }
    requires lawful { is_head head.now ≡ true }
    requires within { log_length head.now ≤ (B.files bench.old).side.size }
    requires inside { k < head.now.records }
    requires room { length block.old ≡ head.now.size }
    ensures record { B.tells → IfOk result (λ sector. slice_get (records_in head.now.size head.now.records (drop 61 (bytes_of Side (B.held bench.old)))) k
        ≡ Some (sector, block.new)) }
    ensures reads { OnlyReads B.files B.held B.faults bench.old bench.new failed result }
{
    let at = head.place(k);
    let mut number = [0; 4];
    bench.read_at(Role::Side, at, &mut number)?;
    bench.read_at(Role::Side, at + SECTOR, block)?;
    Ok(LittleEndian::read_u32(&number))
}
