//! Contents of directories as words: `fid:2:0:a:3` appends to the directory in block 2 of the partition the file identifier
//! descriptor of the name `a`, with characteristics 0, that names block 3. Characteristics are 1 hidden, 2 directory, 4 deleted and
//! 8 parent, and the name of a parent is empty. Where the directory has descriptors it goes into the first extent.
//! `chain:3:600` puts 600 directories from block 3 on, each the only child of the one before, with ids from 16 on.
ghost use Rattle.std.specs.Prelude.{◌≤◌};

use crate::block::{Block, Ground};
use crate::entry::{
    BODY_AT, FLAGS_AT, Head, INFORMATION_AT, OBJECT_AT, USED_AT, close_entry, put_head,
};
use crate::words::{byte, fill, part, small};
use udf_field::retag;

/// The bytes of the longest descriptor that is made, and of the longest name in it.
const LONGEST: usize = 64;

const LONGEST_NAME: usize = 24;

/// The bytes of a descriptor before its name (ECMA-167 4/14.4).
const NAME_AT: usize = 38;

// The bytes of a name in a descriptor: none, or the compression and a byte a character (UDF 2.1.1).
fn name_length(name: &str) -> usize
    ensures { result ≤ 25 }
{
    if name.is_empty() {
        0
    } else {
        name.len().min(LONGEST_NAME) + 1
    }
}

// The bytes of a descriptor, a multiple of four.
fn length_of(name: &str) -> usize {
    (NAME_AT + name_length(name)).div_ceil(4) * 4
}

/// What a file identifier descriptor says: its characteristics, its name, and the block that it names.
#[derive(Clone, Copy)]
struct Fid<'a> {
    marks: u8,
    name: &'a str,
    target: u32,
}

/// The characteristics of a directory, and of a parent.
const DIRECTORY: u8 = 2;

const PARENT: u8 = 10;

// The bytes of a descriptor, and zeros behind it.
fn bytes_of(fid: Fid<'_>, size: u32, location: u32) -> [u8; LONGEST] {
    let mut bytes = [0; LONGEST];
    fill(&mut bytes, 0, &[1, 1, 3, 0, 0, 0, 1, 0]);
    fill(
        &mut bytes,
        16,
        &[1, 0, fid.marks, name_length(fid.name) as u8],
    );
    fill(&mut bytes, 20, &size.to_le_bytes());
    fill(&mut bytes, 24, &fid.target.to_le_bytes());
    if !fid.name.is_empty() {
        fill(&mut bytes, NAME_AT, &[8]);
        fill(&mut bytes, NAME_AT + 1, fid.name.as_bytes());
    }
    let covered = length_of(fid.name).saturating_sub(16).min(LONGEST - 16);
    retag(&mut bytes, covered as u16, location);
    bytes
}

// Whether the body of an entry is its content (ECMA-167 4/14.6.8).
fn is_embedded(image: &[u8], entry: Block) -> bool {
    entry.byte_at(image, FLAGS_AT) % 8 == 3
}

// The block of a content's first byte, and the offset in it.
fn content_of(image: &[u8], ground: Ground, directory: Block) -> (Block, u32) {
    if is_embedded(image, directory) {
        (directory, BODY_AT)
    } else {
        let first = directory.number_at(image, BODY_AT + 4);
        (ground.block(first), 0)
    }
}

// Adds so many bytes to the lengths that an entry states.
fn lengthen(image: &mut Vec<u8>, entry: Block, bytes: u32) {
    let length = entry.number_at(image, INFORMATION_AT).saturating_add(bytes);
    let used = entry.number_at(image, USED_AT);
    entry.put_number(image, INFORMATION_AT, length);
    entry.put_number(image, OBJECT_AT, length);
    let is_embedded = is_embedded(image, entry);
    close_entry(image, entry, if is_embedded { length } else { used });
}

// Appends a descriptor to the content of a directory.
fn append(image: &mut Vec<u8>, ground: Ground, directory: Block, fid: Fid<'_>) {
    let (block, start) = content_of(image, ground, directory);
    let at = start.saturating_add(directory.number_at(image, INFORMATION_AT));
    let bytes = bytes_of(fid, ground.size, block.location);
    let length = length_of(fid.name).min(LONGEST);
    block.put(image, at, &bytes[..length]);
    lengthen(image, directory, length as u32);
}

fn add_fid(image: &mut Vec<u8>, ground: Ground, word: &str) {
    let fid = Fid {
        marks: byte(word, 2),
        name: part(word, ':', 3),
        target: small(word, 4),
    };
    append(image, ground, ground.block(small(word, 1)), fid);
}

// A directory of a chain: it is named by the block before, and names that after it where another follows.
fn put_link(image: &mut Vec<u8>, ground: Ground, number: u32, id: u64, follows: bool) {
    let directory = ground.block(number);
    let head = Head {
        file_type: 4,
        id,
        links: if follows { 2 } else { 1 },
        length: 0,
    };
    put_head(image, directory, head);
    append(
        image,
        ground,
        directory,
        Fid {
            marks: PARENT,
            name: "",
            target: number.saturating_sub(1),
        },
    );
    if follows {
        append(
            image,
            ground,
            directory,
            Fid {
                marks: DIRECTORY,
                name: "d",
                target: number.saturating_add(1),
            },
        );
    }
}

fn put_chain(image: &mut Vec<u8>, ground: Ground, word: &str) {
    let (first, count) = (small(word, 1), small(word, 2));
    let last = first.saturating_add(count).saturating_sub(1);
    for number in first..first.saturating_add(count) {
        let id = 16 + number.saturating_sub(first) as u64;
        put_link(image, ground, number, id, number < last);
    }
}

/// Does what a word says of a directory.
pub(crate) fn put_names(image: &mut Vec<u8>, ground: Ground, word: &str) {
    match part(word, ':', 0) {
        "fid" => add_fid(image, ground, word),
        "chain" => put_chain(image, ground, word),
        _ => {}
    }
}
