//! What stands in a log before its records.
ghost use Rattle.std.specs.Prelude.{◌≡◌, ◌≤◌, ◌+◌, ◌*◌, ◌<◌, ◌^◌, IsTrue};
ghost use Rattle.udf_redo.specs.Log.{head_in, head_bytes, is_head, log_length, may_stand};

use byteorder::{ByteOrder, LittleEndian};
use udf_model::is_block_size;

/// The first byte of a file whose gate is open.
pub const GATE_OPEN: u8 = 0x4F;

/// The first byte of a file whose gate was closed here; any byte but the open gate's closes it.
pub const GATE_CLOSED: u8 = 0;

/// What stands behind the gate of every log.
pub const NAME: [u8; 8] = *b"UDFREDO1";

/// The bytes of the gate and the name.
pub const FRONT: usize = 9;

/// The bytes before the records.
pub const HEAD: usize = 61;

/// The bytes of a record's sector.
pub const SECTOR: u64 = 4;

/// What stands in a log before its records: the block size in bytes, the number of blocks of the image, the first sealed
/// sector and their number, the SHA-256 digest of the sealed sectors, and the number of records.
#[derive(Clone, Copy, Debug, PartialEq, Eq)]
pub struct LogHead {
    pub size: u32,
    pub blocks: u32,
    pub first: u32,
    pub sealed: u32,
    pub seal: [u8; 32],
    pub records: u32,
}

impl LogHead {
    /// The head that stands in the first bytes of a file.
    #[tactic(auto, unfolding(udf_model::specs::Bytes::number_at))]
    pub fn read(file: &[u8; 61]) -> LogHead
        ensures { result ≡ head_in file.now }
    {
        let mut seal = [0; 32];
        seal.copy_from_slice(&file[25..57]);
        LogHead {
            size: LittleEndian::read_u32(&file[9..]),
            blocks: LittleEndian::read_u32(&file[13..]),
            first: LittleEndian::read_u32(&file[17..]),
            sealed: LittleEndian::read_u32(&file[21..]),
            seal,
            records: LittleEndian::read_u32(&file[57..]),
        }
    }

    /// The bytes of a file from the name on that stand before the records.
    pub fn bytes(&self) -> [u8; 52]
        ensures { result ≡ head_bytes self.now }
    {
        let mut bytes = [0; 52];
        LittleEndian::write_u32(&mut bytes, self.size);
        LittleEndian::write_u32(&mut bytes[4..], self.blocks);
        LittleEndian::write_u32(&mut bytes[8..], self.first);
        LittleEndian::write_u32(&mut bytes[12..], self.sealed);
        LittleEndian::write_u32(&mut bytes[48..], self.records);
        bytes[16..48].copy_from_slice(&self.seal);
        bytes
    }

    /// Whether the fields are those of a log.
    #[tactic(auto, unfolding(crate::specs::Log::is_head))]
    pub fn is_lawful(&self) -> bool
        ensures { result ≡ is_head self.now }
    {
        is_block_size(self.size)
            && 0 < self.sealed
            && self.first as u64 + self.sealed as u64 <= self.blocks as u64
            && 0 < self.records
    }

    /// The offset of a record in the file.
    pub fn place(&self, k: u32) -> u64
        requires { self.now.size ≤ 4096 }
        ensures { result ≡ 61 + k * (4 + self.now.size) }
    {
        HEAD as u64 + k as u64 * (SECTOR + self.size as u64)
    }

    /// The bytes of the log.
    pub fn length(&self) -> u64
        requires { self.now.size ≤ 4096 }
        ensures { result ≡ log_length self.now }
    {
        self.place(self.records)
    }

    /// Whether a record may name this sector, which has to be at least `least`.
    #[tactic(auto, unfolding(crate::specs::Log::may_stand))]
    pub fn may_hold(&self, least: u32, sector: u32) -> bool
        ensures value { result ≡ may_stand self.now least sector }
        ensures room { IsTrue result → sector + 1 < 2 ^ 32 }
    {
        least <= sector
            && sector < self.blocks
            && (sector < self.first || self.first as u64 + self.sealed as u64 <= sector as u64)
    }
}
