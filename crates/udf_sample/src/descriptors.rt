//! The descriptors outside the partition (ECMA-167 3/10, UDF 2.2). Each is put together without its tag.
use crate::block::{CHARSPEC, DOMAIN, NAME, REVISION, STAMP, WRITER, put, put_dstring, put_number};
use crate::form::{Form, Layer};

/// Identifiers of descriptor tags (ECMA-167 3/7.2.1 and 4/7.2.1).
pub(crate) const PRIMARY: u16 = 1;

pub(crate) const ANCHOR: u16 = 2;

pub(crate) const IMPLEMENTATION_USE: u16 = 4;

pub(crate) const PARTITION: u16 = 5;

pub(crate) const LOGICAL_VOLUME: u16 = 6;

pub(crate) const UNALLOCATED_SPACE: u16 = 7;

pub(crate) const TERMINATING: u16 = 8;

pub(crate) const INTEGRITY: u16 = 9;

/// The blocks of a sequence and of the integrity extent.
const EXTENT_BLOCKS: u32 = 16;

/// The first block of the integrity extent.
pub(crate) const INTEGRITY_AT: u32 = 112;

/// The first original number of a spare packet that is available (UDF 2.2.12).
const AVAILABLE: u32 = 0xFFFF_FFFF;

// The bytes of an extent of 16 blocks.
fn extent_bytes(form: &Form) -> u32 {
    form.size.wrapping_mul(EXTENT_BLOCKS)
}

/// The primary volume descriptor (ECMA-167 3/10.1), with the set identifier of a volume made with the UUID 0123456789abcdef.
pub(crate) fn primary() -> [u8; 512] {
    let mut block = [0; 512];
    put_dstring(&mut block, 24, 32, NAME);
    put(
        &mut block,
        56,
        &[1, 0, 1, 0, 2, 0, 2, 0, 1, 0, 0, 0, 1, 0, 0, 0],
    );
    put_dstring(&mut block, 72, 128, b"0123456789abcdefLinuxUDF");
    put(&mut block, 200, CHARSPEC);
    put(&mut block, 264, CHARSPEC);
    put(&mut block, 376, &STAMP);
    put(&mut block, 389, WRITER);
    block
}

/// The implementation use descriptor `*UDF LV Info` (UDF 2.2.7), with sequence number 1.
pub(crate) fn information() -> [u8; 512] {
    let mut block = [0; 512];
    block[16] = 1;
    put(&mut block, 21, b"*UDF LV Info");
    put(&mut block, 44, &REVISION);
    put(&mut block, 52, CHARSPEC);
    put_dstring(&mut block, 116, 128, NAME);
    put(&mut block, 353, WRITER);
    block
}

/// The partition descriptor (ECMA-167 3/10.5), with sequence number 2 and the space bitmap in the partition's first block.
pub(crate) fn partition(form: &Form) -> [u8; 512] {
    let access = match form.layer {
        Layer::Physical => 4,
        Layer::Sparable(_) => 3,
    };
    let mut block = [0; 512];
    block[16] = 2;
    block[20] = 1;
    put(&mut block, 25, b"+NSR03");
    put_number(&mut block, 64, form.length.div_ceil(8).wrapping_add(24));
    put_number(&mut block, 184, access);
    put_number(&mut block, 188, form.start);
    put_number(&mut block, 192, form.length);
    block
}

// The map of the partition and its length: type 1 (ECMA-167 3/10.7.2), or sparable (UDF 2.2.9).
fn put_map(block: &mut [u8; 512], form: &Form) {
    match form.layer {
        Layer::Physical => {
            put_number(block, 264, 6);
            put(block, 440, &[1, 6, 1]);
        }
        Layer::Sparable(tables) => {
            put_number(block, 264, 64);
            put(block, 440, &[2, 64]);
            put(block, 445, b"*UDF Sparable Partition");
            put(block, 468, &REVISION);
            put(block, 476, &[1, 0, 0, 0, 32, 0, 2]);
            put_number(block, 484, form.size);
            put_number(block, 488, tables[0]);
            put_number(block, 492, tables[1]);
        }
    }
}

/// The logical volume descriptor (ECMA-167 3/10.6), with sequence number 3 and the file set in the partition's block 1.
pub(crate) fn logical_volume(form: &Form) -> [u8; 512] {
    let mut block = [0; 512];
    block[16] = 3;
    put(&mut block, 20, CHARSPEC);
    put_dstring(&mut block, 84, 128, NAME);
    put_number(&mut block, 212, form.size);
    put(&mut block, 217, DOMAIN);
    put(&mut block, 240, &REVISION);
    put_number(&mut block, 248, form.size);
    put_number(&mut block, 252, 1);
    put_number(&mut block, 268, 1);
    put_number(&mut block, 432, extent_bytes(form));
    put_number(&mut block, 436, INTEGRITY_AT);
    put_map(&mut block, form);
    block
}

/// The unallocated space descriptor (ECMA-167 3/10.8), with sequence number 4.
pub(crate) fn unallocated_space() -> [u8; 512] {
    let mut block = [0; 512];
    block[16] = 4;
    block
}

/// An anchor that names both sequences (ECMA-167 3/10.2).
pub(crate) fn anchor(form: &Form) -> [u8; 512] {
    let mut block = [0; 512];
    put_number(&mut block, 16, extent_bytes(form));
    put_number(&mut block, 20, form.main);
    put_number(&mut block, 24, extent_bytes(form));
    put_number(&mut block, 28, form.reserve);
    block
}

/// The integrity descriptor (ECMA-167 3/10.10) of a closed volume with an empty root: bitmap, file set and root are used.
pub(crate) fn integrity(form: &Form) -> [u8; 512] {
    let mut block = [0; 512];
    put(&mut block, 16, &STAMP);
    block[28] = 1;
    block[40] = 16;
    block[72] = 1;
    block[76] = 46;
    put_number(&mut block, 80, form.length.saturating_sub(3));
    put_number(&mut block, 84, form.length);
    put(&mut block, 89, WRITER);
    block[124] = 1;
    put(&mut block, 128, &REVISION);
    put(&mut block, 130, &REVISION);
    put(&mut block, 132, &REVISION);
    block
}

// An entry of a sparing table: the spare packet of this number is available.
fn put_spare(block: &mut [u8; 512], packet: u32) {
    let at = 56 + 8 * (packet % 16) as usize;
    put_number(block, at, AVAILABLE);
    put_number(block, at + 4, 288 + 32 * (packet % 16));
}

/// A sparing table (UDF 2.2.12) of 16 packets from block 288 on, none of them used.
pub(crate) fn sparing_table() -> [u8; 512] {
    let mut block = [0; 512];
    put(&mut block, 17, b"*UDF Sparing Table");
    put(&mut block, 40, &REVISION);
    block[48] = 16;
    for packet in 0..16 {
        put_spare(&mut block, packet);
    }
    block
}
