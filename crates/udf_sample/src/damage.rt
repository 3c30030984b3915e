//! Damages to an image.
ghost use Rattle.std.specs.Prelude.{◌+◌, ◌<◌, ◌≡◌, length};

use crate::block::DESCRIPTOR;
use udf_field::{Fields, retag};

/// A damage to an image. One that lies past the image does nothing.
#[derive(Clone, Copy, Debug, PartialEq, Eq)]
pub enum Damage {
    /// So many blocks from one on hold zeros.
    Zero { first: u32, count: u32 },
    /// A byte of a block.
    Byte { block: u32, at: u32, value: u8 },
    /// The tag of a block is made anew over the bytes that its CRC covers, at a location.
    Retag { block: u32, location: u32 },
    /// A block becomes a copy of another.
    Copy { from: u32, to: u32 },
    /// Only so many bytes are left.
    Cut(u64),
}

fn set(image: &mut [u8], at: u64, value: u8) {
    if at < image.len() as u64 {
        image[at as usize] = value;
    }
}

fn zero(image: &mut [u8], start: u64, bytes: u64) {
    for byte in image.iter_mut().skip(start as usize).take(bytes as usize) {
        *byte = 0;
    }
}

// Makes a descriptor's tag anew.
fn retag_descriptor(descriptor: &mut [u8], location: u32)
    requires { length descriptor.old ≡ 512 }
{
    let covered = Fields::over(descriptor).u16_at(10);
    retag(descriptor, covered.min(496), location);
}

fn retag_block(image: &mut [u8], start: u64, location: u32)
    requires { start < 18446744073709551104 }
{
    if start + DESCRIPTOR as u64 <= image.len() as u64 {
        let start = start as usize;
        retag_descriptor(&mut image[start..start + DESCRIPTOR], location);
    }
}

fn copy(image: &mut [u8], size: u32, from: u64, to: u64)
    requires from { from + size < 18446744073709551616 }
    requires to { to + size < 18446744073709551616 }
{
    for i in 0..size as u64 {
        if from + i < image.len() as u64 {
            let byte = image[(from + i) as usize];
            set(image, to + i, byte);
        }
    }
}

/// Does a damage to an image whose blocks have `size` bytes.
pub fn hurt(image: &mut Vec<u8>, size: u32, damage: Damage) {
    let start_of = |block: u32| block as u64 * size as u64;
    match damage {
        Damage::Zero { first, count } => zero(image, start_of(first), start_of(count)),
        Damage::Byte { block, at, value } => set(image, start_of(block) + at as u64, value),
        Damage::Retag { block, location } => retag_block(image, start_of(block), location),
        Damage::Copy { from, to } => copy(image, size, start_of(from), start_of(to)),
        Damage::Cut(bytes) => image.truncate(bytes as usize),
    }
}
