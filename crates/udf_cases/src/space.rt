//! What a volume says of its space, as words: `used:3:5` and `free:3:5` (the bits of five blocks of the partition from block 3 on)
//! and `integrity:1:18:742:2:1` (the integrity descriptor has type 1, next unique id 18, 742 free blocks, 2 files and 1 directory).

use crate::block::{Block, Ground};
use crate::words::{part, small};

/// Where the bits of a bitmap begin (ECMA-167 4/14.12).
const BITS_AT: u32 = 24;

/// The sector of the integrity descriptor of a test volume.
const INTEGRITY: u32 = 112;

// The bits of a byte of the bitmap, where the bit of one block is set or cleared.
fn changed(bits: u8, block: u32, is_free: bool) -> u8 {
    let bit = 1u8 << (block % 8);
    if is_free { bits | bit } else { bits & !bit }
}

fn set_bits(image: &mut Vec<u8>, bitmap: Block, word: &str) {
    let (first, count) = (small(word, 1), small(word, 2));
    for block in first..first.saturating_add(count) {
        let at = BITS_AT.saturating_add(block / 8);
        let bits = changed(
            bitmap.byte_at(image, at),
            block,
            part(word, ':', 0) == "free",
        );
        bitmap.put(image, at, &[bits]);
    }
}

// Sets the fields of the integrity descriptor of a volume with one partition (ECMA-167 3/10.10, UDF 2.2.6).
fn state(image: &mut Vec<u8>, descriptor: Block, word: &str) {
    for (field, at) in [28, 40, 80, 120, 124].iter().enumerate() {
        descriptor.put_number(image, *at, small(word, field.saturating_add(1)));
    }
    descriptor.retag(image);
}

/// Does what a word says of the space.
pub(crate) fn put_space(image: &mut Vec<u8>, ground: Ground, word: &str) {
    match part(word, ':', 0) {
        "used" | "free" => set_bits(image, ground.block(0), word),
        "integrity" => state(image, ground.sector(INTEGRITY), word),
        _ => {}
    }
}
