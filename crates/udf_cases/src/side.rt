//! The side file at the start, as words one after another: `log` (the log of the case), `log:96:5:256` (another log), `open` (its
//! gate is open), `text:hello` and `zeros:3` (such bytes behind), `put:0:UDF` (letters at an offset), `byte:9:0` (a byte at an
//! offset), `flip` (each bit is turned), and `cut:70` (only so many bytes are left).
ghost use Rattle.std.specs.Prelude.{◌<◌};

use crate::log::{add_log, open};
use crate::words::{byte, fill, number, part};
use std::alloc::{AllocError, Global};

fn flip(side: &mut Vec<u8>) {
    for byte in side.iter_mut() {
        *byte ^= 0xFF;
    }
}

fn add_zeros(side: &mut Vec<u8>, count: u8) -> Result<(), AllocError> {
    for _ in 0..count {
        side.push(0)?;
    }
    Ok(())
}

// Changes the bytes as a word says, and adds none.
fn alter(side: &mut Vec<u8>, word: &str) {
    let at = number(word, 1) as usize;
    match part(word, ':', 0) {
        "open" => open(side),
        "put" => fill(side, at, part(word, ':', 2).as_bytes()),
        "byte" => fill(side, at, &[byte(word, 2)]),
        "flip" => flip(side),
        "cut" => side.truncate(at),
        _ => {}
    }
}

// Does what a word says. `log` are the words of the log, and `image` is what it leaves, of blocks of `size` bytes.
fn change(
    side: &mut Vec<u8>,
    image: &[u8],
    size: u32,
    log: &str,
    word: &str,
) -> Result<(), AllocError>
    requires { 0 < size }
{
    match part(word, ':', 0) {
        "log" => {
            let words = word.split_once(':').map_or(log, |parts| parts.1);
            add_log(side, image, size, words)
        }
        "text" => side.extend_from_slice(part(word, ':', 1).as_bytes()),
        "zeros" => add_zeros(side, byte(word, 1)),
        _ => {
            alter(side, word);
            Ok(())
        }
    }
}

/// The bytes of the side file. `log` are the words of the log, and `image` is what it leaves, of blocks of `size` bytes.
pub(crate) fn side_of(
    alloc: Global,
    image: &[u8],
    size: u32,
    log: &str,
    words: &str,
) -> Result<Vec<u8>, AllocError>
    requires { 0 < size }
{
    let mut side = Vec::new(alloc);
    for word in words.split_whitespace() {
        change(&mut side, image, size, log, word)?;
    }
    Ok(side)
}
