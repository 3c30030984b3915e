//! Blocks of the partition, as damages change them. What lies past the image is left out.

use udf_sample::{Damage, hurt};

/// Where the partition of a volume lies: the bytes of a block, and the partition's first sector.
#[derive(Clone, Copy)]
pub(crate) struct Ground {
    pub size: u32,
    pub start: u32,
}

/// A block with its sector, and the location that its tag states.
#[derive(Clone, Copy)]
pub(crate) struct Block {
    pub size: u32,
    pub sector: u32,
    pub location: u32,
}

impl Ground {
    /// The block of this number in the partition.
    pub(crate) fn block(&self, number: u32) -> Block {
        Block {
            size: self.size,
            sector: self.start.saturating_add(number),
            location: number,
        }
    }

    /// The block of this number in the image.
    pub(crate) fn sector(&self, number: u32) -> Block {
        Block {
            size: self.size,
            sector: number,
            location: number,
        }
    }
}

impl Block {
    /// Puts bytes at an offset.
    pub(crate) fn put(&self, image: &mut Vec<u8>, at: u32, bytes: &[u8]) {
        let mut at = at;
        for byte in bytes {
            let damage = Damage::Byte {
                block: self.sector,
                at,
                value: *byte,
            };
            hurt(image, self.size, damage);
            at = at.saturating_add(1);
        }
    }

    /// Puts a number of four bytes at an offset.
    pub(crate) fn put_number(&self, image: &mut Vec<u8>, at: u32, number: u32) {
        self.put(image, at, &number.to_le_bytes());
    }

    /// The byte at an offset.
    pub(crate) fn byte_at(&self, image: &[u8], at: u32) -> u8 {
        let start = self.sector as u64 * self.size as u64 + at as u64;
        image.get(start as usize).copied().unwrap_or(0)
    }

    /// The number of four bytes at an offset.
    pub(crate) fn number_at(&self, image: &[u8], at: u32) -> u32 {
        u32::from_le_bytes([
            self.byte_at(image, at),
            self.byte_at(image, at.saturating_add(1)),
            self.byte_at(image, at.saturating_add(2)),
            self.byte_at(image, at.saturating_add(3)),
        ])
    }

    /// Makes the tag anew over the bytes that its CRC covers (ECMA-167 3/7.2).
    pub(crate) fn retag(&self, image: &mut Vec<u8>) {
        let damage = Damage::Retag {
            block: self.sector,
            location: self.location,
        };
        hurt(image, self.size, damage);
    }

    /// Makes the tag anew over so many bytes.
    pub(crate) fn seal(&self, image: &mut Vec<u8>, covered: u32) {
        self.put(image, 10, &(covered.min(65535) as u16).to_le_bytes());
        self.retag(image);
    }
}
