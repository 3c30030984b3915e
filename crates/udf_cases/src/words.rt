//! The words of a case.
use std::alloc::{AllocError, Global};

/// The word at a place between separators, or none.
pub(crate) fn part(text: &str, separator: char, at: usize) -> &str {
    text.split(separator).nth(at).unwrap_or("").trim()
}

/// The number at a place between colons, or 0.
pub(crate) fn number(word: &str, at: usize) -> u64 {
    part(word, ':', at).parse::<u64>().unwrap_or(0)
}

/// The number at a place between colons, where it fits into 32 bits, or 0.
pub(crate) fn small(word: &str, at: usize) -> u32 {
    part(word, ':', at).parse::<u32>().unwrap_or(0)
}

/// The number at a place between colons, where it fits into a byte, or 0.
pub(crate) fn byte(word: &str, at: usize) -> u8 {
    part(word, ':', at).parse::<u8>().unwrap_or(0)
}

/// Puts bytes at an offset. What lies past the end is left out.
pub(crate) fn fill(area: &mut [u8], at: usize, bytes: &[u8]) {
    for (place, byte) in area.iter_mut().skip(at).zip(bytes) {
        *place = *byte;
    }
}

// A word of the command line.
fn spelled(alloc: Global, word: &str) -> Result<String, AllocError> {
    let mut text = String::new(alloc);
    if word != "''" {
        for character in word.chars() {
            text.push(if character == '~' { ' ' } else { character })?;
        }
    }
    Ok(text)
}

/// The words of the command line behind the tool's name.
pub(crate) fn words_of(alloc: Global, column: &str) -> Result<Vec<String>, AllocError> {
    let mut words = Vec::new(alloc);
    for word in column.split_whitespace().skip(1) {
        words.push(spelled(alloc, word)?)?;
    }
    Ok(words)
}
