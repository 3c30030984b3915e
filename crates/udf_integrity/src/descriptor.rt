// Integrity descriptors (ECMA-167 3/10.10, UDF 2.2.6).
ghost use Rattle.std.specs.Prelude.{◌≡◌, ◌≤◌, ◌==◌, ◌&&◌, nat_le, not, length};
ghost use Rattle.udf_rules_model.specs.Integrity.{is_integrity, next_extent_in};
ghost use Rattle.udf_integrity.specs.Stated.{States};

use udf_field::{Fields, id_at};

/// The identifier of an integrity descriptor (ECMA-167 3/7.2.1).
const INTEGRITY: u16 = 9;

// Offsets of its fields.
const KIND: usize = 28;

const NEXT_EXTENT: usize = 32;

const NEXT_ID: usize = 40;

const PARTITIONS: usize = 72;

const USE_LENGTH: usize = 76;

/// Where its tables begin, each with a field of four bytes a partition.
const TABLES: usize = 80;

// Offsets of what follows where there is one partition.
const FREE: usize = TABLES;

const BLOCKS: usize = TABLES + 4;

const FILES: usize = TABLES + 8 + 32;

const DIRECTORIES: usize = TABLES + 8 + 36;

/// The least length in bytes of an implementation use with the counts of files (UDF 2.2.6.4).
const LEAST_USE: u32 = 46;

/// What an integrity descriptor states (ECMA-167 3/10.10, UDF 2.2.6). `free` to `directories` are read where they stand in a
/// descriptor of one partition.
#[derive(Clone, Copy, Debug, PartialEq, Eq)]
pub struct Integrity {
    /// Its type: 0 of an open one, 1 of a closed one.
    pub kind: u32,
    /// The next unique identifier.
    pub next_id: u64,
    /// The number of partitions.
    pub partitions: u32,
    /// The length of its implementation use in bytes.
    pub use_length: u32,
    /// The number of free blocks.
    pub free: u32,
    /// The number of blocks of the partition.
    pub blocks: u32,
    /// The number of files.
    pub files: u32,
    /// The number of directories.
    pub directories: u32,
}

impl Integrity {
    /// Whether it is of one partition, and its implementation use has the counts of files (UDF 2.2.6.4).
    pub fn is_formed(&self) -> bool
        ensures { result ≡ ((self.now.partitions == 1) && nat_le 46 self.now.use_length) }
    {
        self.partitions == 1 && LEAST_USE <= self.use_length
    }
}

/// What the block of an integrity descriptor states.
#[tactic(auto, using(crate::proofs::Formed::files_there, crate::proofs::Formed::directories_there))]
pub fn integrity_in(block: &[u8]) -> Integrity
    requires { 512 ≤ length block.now }
    ensures { States block.now result }
{
    let fields = Fields::over(block);
    Integrity {
        kind: fields.u32_at(KIND),
        next_id: fields.u64_at(NEXT_ID),
        partitions: fields.u32_at(PARTITIONS),
        use_length: fields.u32_at(USE_LENGTH),
        free: fields.u32_at(FREE),
        blocks: fields.u32_at(BLOCKS),
        files: fields.u32_at(FILES),
        directories: fields.u32_at(DIRECTORIES),
    }
}

/// Whether an integrity descriptor stands whole at a sector, with its tables and its implementation use in the block.
#[tactic(auto, unfolding(udf_rules_model::specs::Integrity::is_integrity))]
pub(crate) fn is_descriptor(sector: u32, block: &[u8]) -> bool
    requires { 512 ≤ length block.now }
    ensures { result ≡ is_integrity (length block.now) sector block.now }
{
    if id_at(block, sector) != Some(INTEGRITY) {
        return false;
    }
    let fields = Fields::over(block);
    let tables = 8 * fields.u32_at(PARTITIONS) as u64;
    TABLES as u64 + tables + fields.u32_at(USE_LENGTH) as u64 <= block.len() as u64
}

/// Whether a descriptor names a further extent of descriptors (ECMA-167 3/10.10.4).
pub(crate) fn names_further(block: &[u8]) -> bool
    requires { 512 ≤ length block.now }
    ensures { result ≡ not (next_extent_in block.now == 0) }
{
    Fields::over(block).u32_at(NEXT_EXTENT) != 0
}
