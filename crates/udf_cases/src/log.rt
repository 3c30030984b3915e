//! The log that a repair leaves, as words: the first of the sealed blocks, their number, and the blocks that are recorded, as
//! `96:5:256:1023`. It is put together here as the manual page gives its format, and not by the calls that are tried.
ghost use Rattle.std.specs.Prelude.{◌<◌};

use crate::words::small;
use sha2::{Digest, Sha256};
use std::alloc::{AllocError, Global};

// The digest of so many blocks from one on.
fn seal_of(image: &[u8], size: usize, first: usize, count: usize) -> [u8; 32]
    requires { 0 < size }
{
    let mut hasher = Sha256::new();
    for block in image.chunks(size).skip(first).take(count) {
        hasher.update(block);
    }
    hasher.finalize()
}

fn add_number(log: &mut Vec<u8>, number: u32) -> Result<(), AllocError> {
    log.extend_from_slice(&number.to_le_bytes())
}

// A record: the number of a block, and the block.
fn add_record(log: &mut Vec<u8>, image: &[u8], size: usize, word: &str) -> Result<(), AllocError>
    requires { 0 < size }
{
    let sector = small(word, 0);
    add_number(log, sector)?;
    for block in image.chunks(size).skip(sector as usize).take(1) {
        log.extend_from_slice(block)?;
    }
    Ok(())
}

// What stands before the records: the gate and the name, four numbers of the image, the seal, and the number of records.
fn add_head(log: &mut Vec<u8>, image: &[u8], size: u32, words: &str) -> Result<(), AllocError>
    requires { 0 < size }
{
    let blocks = u32::try_from(image.len() / size as usize).unwrap_or(0);
    let (first, count) = (small(words, 0), small(words, 1));
    log.extend_from_slice(b"\0UDFREDO1")?;
    for number in [size, blocks, first, count] {
        add_number(log, number)?;
    }
    log.extend_from_slice(&seal_of(image, size as usize, first as usize, count as usize))?;
    let records = words.split(':').skip(2).count();
    add_number(log, u32::try_from(records).unwrap_or(0))
}

/// Appends the closed log of a repair that leaves this image, or nothing where there are no words.
pub(crate) fn add_log(
    log: &mut Vec<u8>,
    image: &[u8],
    size: u32,
    words: &str,
) -> Result<(), AllocError>
    requires { 0 < size }
{
    if words.is_empty() {
        return Ok(());
    }
    add_head(log, image, size, words)?;
    for word in words.split(':').skip(2) {
        add_record(log, image, size as usize, word)?;
    }
    Ok(())
}

/// The log over what a side file held: what lies behind its end stays.
pub(crate) fn over(alloc: Global, log: &[u8], side: &[u8]) -> Result<Vec<u8>, AllocError> {
    let mut bytes = Vec::from_slice(alloc, log)?;
    for byte in side.iter().skip(log.len()) {
        bytes.push(*byte)?;
    }
    Ok(bytes)
}

/// Opens the gate of a log.
pub(crate) fn open(log: &mut Vec<u8>) {
    if let Some(gate) = log.first_mut() {
        *gate = b'O';
    }
}
