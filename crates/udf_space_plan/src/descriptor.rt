// Integrity descriptors that are written (ECMA-167 3/10.10, UDF 2.2.6).
ghost use Rattle.std.specs.Prelude.{◌≡◌, ◌≤◌, ◌+◌, ◌%◌, ◌^◌, length, nat_lt, if◌then◌else◌};
ghost use Rattle.udf_file_model.specs.Wanted.{with_fields};
ghost use Rattle.udf_model.specs.Tag.{retagged};
ghost use Rattle.udf_space_mends.specs.IntegrityMend.{fresh_block, fresh_fields};
ghost use Rattle.udf_space_plan.specs.Descriptor.{counted, made_by, origin_seen};

use crate::origin::Origin;
use udf_field::{FieldsMut, retag};

/// The identifier of an integrity descriptor (ECMA-167 3/7.2.1).
const INTEGRITY: u16 = 9;

/// The type of a closed descriptor (3/10.10.3).
const CLOSED: u32 = 1;

/// The bytes of the implementation use with the counts of files, and no more (UDF 2.2.6.4).
const USE_BYTES: u32 = 46;

/// The bytes of a new descriptor that its CRC covers.
const COVERED: u16 = 118;

/// The least revision whose descriptors have tags of version 3 (UDF 2.1.1.2).
const SECOND_REVISION: u16 = 512;

/// The identifier of the implementation (UDF 2.1.5).
const IMPLEMENTATION: &[u8] = b"*UDFTOOLS-R";

/// What a descriptor states of its volume.
#[derive(Clone, Copy, Debug, PartialEq, Eq)]
pub(crate) struct Counts {
    pub next_id: u64,
    pub free: u32,
    pub blocks: u32,
    pub files: u64,
    pub directories: u64,
}

// The lowest four bytes of a number.
fn low_half(n: u64) -> u32
    ensures { result ≡ n % 2 ^ 32 }
{
    (n % (1 << 32)) as u32
}

// Writes the counts of a closed descriptor of one partition; its tag stays.
#[tactic(auto, using(crate::proofs::Writing::counts_written))]
fn write_counts(counts: &Counts, block: &mut [u8])
    requires { 512 ≤ length block.old }
    ensures { block.new ≡ counted counts.now block.old }
{
    let mut fields = FieldsMut::over(block);
    fields.put_u32(124, low_half(counts.directories));
    fields.put_u32(120, low_half(counts.files));
    fields.put_u32(84, counts.blocks);
    fields.put_u32(80, counts.free);
    fields.put_u64(40, counts.next_id);
    fields.put_u32(28, CLOSED);
}

// Writes the recording time and the identifier of the implementation over a block, and zeros everywhere else.
#[tactic(auto, using(crate::proofs::Writing::blank_written))]
fn write_blank(origin: &Origin, block: &mut [u8])
    requires room { 512 ≤ length block.old }
    requires stamp { length origin.now.stamp ≡ 12 }
    ensures { block.new ≡ fresh_block (length block.old) origin.now.stamp }
{
    block.fill(0);
    block[89..100].copy_from_slice(IMPLEMENTATION);
    block[16..28].copy_from_slice(&origin.stamp);
}

// Writes what each new descriptor of a revision has: tag, one partition, the length of its implementation use, and the revisions.
#[tactic(auto, unfolding(udf_file_model::specs::Wanted::with_fields))]
fn write_front(revision: u16, block: &mut [u8])
    requires { 512 ≤ length block.old }
    ensures { block.new ≡ with_fields (fresh_fields revision) block.old }
{
    let version = if revision < SECOND_REVISION { 2 } else { 3 };
    let mut fields = FieldsMut::over(block);
    fields.put_u16(132, revision);
    fields.put_u16(130, revision);
    fields.put_u16(128, revision);
    fields.put_u32(76, USE_BYTES);
    fields.put_u32(72, 1);
    fields.put_u16(6, 1);
    fields.put_u16(2, version);
    fields.put_u16(0, INTEGRITY);
}

/// Writes a new descriptor for a sector over a whole block.
#[tactic(auto, unfolding(crate::specs::Descriptor::made_by))]
pub(crate) fn write_fresh(counts: &Counts, origin: &Origin, sector: u32, block: &mut [u8])
    requires room { 512 ≤ length block.old }
    requires stamp { length origin.now.stamp ≡ 12 }
    ensures { block.new ≡ made_by (length block.old) counts.now (origin_seen origin.now) sector }
{
    write_blank(origin, block);
    write_front(origin.revision, block);
    write_counts(counts, block);
    retag(block, COVERED, sector);
}

/// Corrects the counts of a descriptor at a sector, whose implementation use has so many bytes.
pub(crate) fn correct(counts: &Counts, use_bytes: u16, sector: u32, block: &mut [u8])
    requires room { 512 ≤ length block.old }
    requires fits { 88 + use_bytes ≤ length block.old }
    requires small { length block.old ≤ 4096 }
    ensures { block.new ≡ retagged sector (72 + use_bytes) (counted counts.now block.old) }
{
    write_counts(counts, block);
    retag(block, 72 + use_bytes, sector);
}
