// The structures of the recognition sequence that are written (ECMA-167 2/9.2, 3/9.1, 2/9.3).
ghost use Rattle.std.specs.Prelude.{◌≡◌, ◌≤◌, ◌<◌, ◌+◌, ◌*◌, ◌++◌, length, true, OnOk, codes};
ghost use Rattle.udf_rules_model.specs.Recognition.{slot_at, slot_blocks};
ghost use Rattle.udf_space_mends.specs.SlotMend.{slot_block, volume_name as name_of};
ghost use Rattle.udf_space_plan.specs.Runs.{is_run_free};
ghost use Rattle.udf_space_plan.specs.Sequence.{sequence_put, slot_front};
ghost use Rattle.udf_wanted.specs.Wanted.{LookAlike};
ghost use Rattle.udf_wanted.specs.Writable.{AreFreeFrom, AreWritable};

use crate::NoMemory;
use udf_volume::Volume;
use udf_wanted::Wanted;

/// Where the first slot begins (ECMA-167 2/8.3).
const FIRST_BYTE: u32 = 32768;

/// The bytes of a slot, where blocks have no more.
const SLOT_BYTES: u32 = 2048;

/// Where the identifier stands in a structure, of five bytes, and the version behind it (ECMA-167 2/9.1).
const NAME: usize = 1;

const VERSION: usize = 6;

/// The blocks of a slot.
#[tactic(auto, unfolding(udf_rules_model::specs::Recognition::slot_blocks))]
pub(crate) fn blocks_in_slot(size: u32) -> u32
    requires { 512 ≤ size }
    ensures blocks { result ≡ slot_blocks size }
    ensures some { 0 < result }
    ensures few { result ≤ 4 }
{
    size.max(SLOT_BYTES) / size
}

/// The first sector of a slot.
#[tactic(auto, unfolding(udf_rules_model::specs::Recognition::slot_at))]
pub(crate) fn first_sector(size: u32, slot: u32) -> u32
    requires large { 512 ≤ size }
    requires slot { slot < 3 }
    ensures sector { result ≡ slot_at size slot }
    ensures low { result ≤ 76 }
{
    FIRST_BYTE / size + slot * blocks_in_slot(size)
}

// The identifier of the volume structure descriptor of an edition.
fn volume_name(digit: u64) -> &'static [u8]
    ensures { result.now ≡ name_of digit }
{
    if digit == 2 {
        b"NSR02".as_slice()
    } else {
        b"NSR03".as_slice()
    }
}

// Writes a block of a structure: the first has its fields.
fn write_slot_block(name: &[u8], index: u32, block: &mut [u8])
    requires room { 512 ≤ length block.old }
    requires name { length name.now ≡ 5 }
    ensures { block.new ≡ slot_block (length block.old) name.now index }
{
    block.fill(0);
    if index == 0 {
        block[NAME..VERSION].copy_from_slice(name);
        block[VERSION] = 1;
    }
}

// Puts a structure at a sector. `block` is lent and has the block size.
fn put_slot(
    volume: &Volume,
    first: u32,
    name: &[u8],
    wanted: &mut Wanted,
    block: &mut [u8],
) -> Result<(), NoMemory>
    requires large { 512 ≤ volume.now.size }
    requires low { first ≤ 76 }
    requires name { length name.now ≡ 5 }
    requires free { AreFreeFrom volume.now first (slot_blocks volume.now.size) }
    requires writable { AreWritable volume.now wanted.old }
    requires room { length block.old ≡ volume.now.size }
    ensures put { OnOk result (LookAlike wanted.new (wanted.old ++ slot_front volume.now.size first name.now (slot_blocks volume.now.size))) }
    ensures writable { OnOk result (AreWritable volume.now wanted.new) }
    ensures room { length block.new ≡ volume.now.size }
{
    for index in 0..blocks_in_slot(volume.size) {
        write_slot_block(name, index, block);
        wanted.put(first + index, block)?;
    }
    Ok(())
}

/// Puts a beginning, a volume of an edition and an end in the first three slots. `block` is lent and has the block size.
pub(crate) fn put_sequence(
    volume: &Volume,
    digit: u64,
    wanted: &mut Wanted,
    block: &mut [u8],
) -> Result<(), NoMemory>
    requires large { 512 ≤ volume.now.size }
    requires free { is_run_free volume.now (slot_at volume.now.size 0) (3 * slot_blocks volume.now.size) ≡ true }
    requires writable { AreWritable volume.now wanted.old }
    requires room { length block.old ≡ volume.now.size }
    ensures put { OnOk result (LookAlike wanted.new (wanted.old ++ sequence_put volume.now.size digit)) }
    ensures writable { OnOk result (AreWritable volume.now wanted.new) }
{
    let size = volume.size;
    put_slot(
        volume,
        first_sector(size, 0),
        b"BEA01".as_slice(),
        wanted,
        block,
    )?;
    put_slot(
        volume,
        first_sector(size, 1),
        volume_name(digit),
        wanted,
        block,
    )?;
    put_slot(
        volume,
        first_sector(size, 2),
        b"TEA01".as_slice(),
        wanted,
        block,
    )?;
    Ok(())
}
