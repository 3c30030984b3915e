//! Damages as words. Blocks are counted in the image by `zero:256:1` (so many blocks from one on hold zeros), `byte:99:440:2` (a
//! byte of a block), `text:64:1:CD001` (letters in a block, with `~` for a blank), `tag:99` (the tag of a block is made anew at its
//! location), `tag:256:257` (at another one), and `copy:98:101` (a block becomes a copy of the first), and in the partition by the
//! words on files (`entry.rt`, `directory.rt`) and on space (`space.rt`). `cut:511` leaves only so many bytes.

use crate::block::Ground;
use crate::directory::put_names;
use crate::entry::put_file;
use crate::space::put_space;
use crate::words::{byte, number, part, small};
use udf_sample::{Damage, hurt};

// The location of a tag that is made anew.
fn location(word: &str) -> u32 {
    if part(word, ':', 2).is_empty() {
        small(word, 1)
    } else {
        small(word, 2)
    }
}

fn damage_of(word: &str) -> Option<Damage> {
    match part(word, ':', 0) {
        "zero" => Some(Damage::Zero {
            first: small(word, 1),
            count: small(word, 2),
        }),
        "byte" => Some(Damage::Byte {
            block: small(word, 1),
            at: small(word, 2),
            value: byte(word, 3),
        }),
        "tag" => Some(Damage::Retag {
            block: small(word, 1),
            location: location(word),
        }),
        "copy" => Some(Damage::Copy {
            from: small(word, 1),
            to: small(word, 2),
        }),
        "cut" => Some(Damage::Cut(number(word, 1))),
        _ => None,
    }
}

// Puts the letters of a word.
fn put_text(image: &mut Vec<u8>, ground: Ground, word: &str) {
    let block = ground.sector(small(word, 1));
    let mut at = small(word, 2);
    for letter in part(word, ':', 3).bytes() {
        block.put(image, at, &[if letter == b'~' { b' ' } else { letter }]);
        at = at.saturating_add(1);
    }
}

// Does a damage of a kind that has no number of its own.
fn hurt_files(image: &mut Vec<u8>, ground: Ground, word: &str) {
    match part(word, ':', 0) {
        "text" => put_text(image, ground, word),
        "fid" | "chain" => put_names(image, ground, word),
        "entry" | "extent" | "links" | "stream" => put_file(image, ground, word),
        _ => put_space(image, ground, word),
    }
}

/// Does these damages, one after another, to an image whose partition lies so.
pub(crate) fn hurt_by(image: &mut Vec<u8>, ground: Ground, words: &str) {
    for word in words.split_whitespace() {
        match damage_of(word) {
            Some(damage) => hurt(image, ground.size, damage),
            None => hurt_files(image, ground, word),
        }
    }
}
