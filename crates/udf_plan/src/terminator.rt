//! A terminating descriptor (ECMA-167 3/10.9) that is made anew.
ghost use Rattle.std.specs.Prelude.{◌≡◌, ◌≤◌, length};
ghost use Rattle.udf_volume_model.specs.Mended.{terminator};

use udf_field::retag;
use udf_volume::TERMINATING;

/// The bytes that its CRC covers.
const COVERED: u16 = 496;

/// Offsets in a tag (3/7.2).
const VERSION: usize = 2;

const SERIAL: usize = 6;

/// Writes a terminating descriptor for a sector over a whole block, and keeps the version and the serial number of its tag.
#[tactic(auto, using(crate::proofs::Terminators::is_written))]
pub fn write_terminator(block: &mut [u8], sector: u32)
    requires room { 512 ≤ length block.old }
    ensures { block.new ≡ terminator (length block.old) sector block.old }
{
    let version = (block[VERSION], block[VERSION + 1]);
    let serial = (block[SERIAL], block[SERIAL + 1]);
    block.fill(0);
    block[0] = TERMINATING as u8;
    block[VERSION] = version.0;
    block[VERSION + 1] = version.1;
    block[SERIAL] = serial.0;
    block[SERIAL + 1] = serial.1;
    retag(block, COVERED, sector);
}
