//! Entries and allocation extents as words: `entry:3:5:16:1:1024:512@5:512@7` is an extended file entry in block 3 of the partition,
//! of ICB file type 5, with unique id 16, one link, an information length of 1,024 bytes and the short descriptors of 512 bytes at
//! blocks 5 and 7. `512@6@1` has kind 1; without descriptors an empty body is embedded. `extent:4:512@6` is an allocation extent,
//! `links:2:3` sets a link count, and `stream:3:4` names the stream directory of an entry.

use crate::block::{Block, Ground};
use crate::words::{byte, number, part, small};
use udf_sample::file_entry;

/// Offsets of the fields of an extended file entry (ECMA-167 4/14.17).
pub(crate) const FLAGS_AT: u32 = 34;

const LINKS_AT: u32 = 48;

pub(crate) const INFORMATION_AT: u32 = 56;

pub(crate) const OBJECT_AT: u32 = 64;

const STREAM_AT: u32 = 152;

pub(crate) const USED_AT: u32 = 212;

pub(crate) const BODY_AT: u32 = 216;

/// Offsets of the fields of an allocation extent (ECMA-167 4/14.5).
const EXTENT_USED_AT: u32 = 20;

const EXTENT_BODY_AT: u32 = 24;

// The number at a place of a descriptor.
fn descriptor_part(word: &str, at: usize) -> u32 {
    part(word, '@', at).parse::<u32>().unwrap_or(0)
}

// A short descriptor, whose kind is the two highest bits of its length (ECMA-167 4/14.14.1).
fn put_descriptor(image: &mut Vec<u8>, block: Block, at: u32, word: &str) {
    let kind = descriptor_part(word, 2).wrapping_mul(1 << 30);
    block.put_number(image, at, kind.wrapping_add(descriptor_part(word, 0)));
    block.put_number(image, at.saturating_add(4), descriptor_part(word, 1));
}

// The descriptors of a word from a part on. Answers the bytes that they take.
fn put_list(image: &mut Vec<u8>, block: Block, at: u32, word: &str, first: usize) -> u32 {
    let mut used = 0u32;
    for descriptor in word.split(':').skip(first) {
        put_descriptor(image, block, at.saturating_add(used), descriptor);
        used = used.saturating_add(8);
    }
    used
}

/// States how many bytes of the body are used, and makes the tag anew over them.
pub(crate) fn close_entry(image: &mut Vec<u8>, block: Block, used: u32) {
    block.put_number(image, USED_AT, used);
    block.seal(image, used.saturating_add(BODY_AT - 16));
}

fn set_links(image: &mut Vec<u8>, block: Block, links: u32) {
    block.put(image, LINKS_AT, &(links.min(65535) as u16).to_le_bytes());
    block.retag(image);
}

/// What an entry says beside its body: its ICB file type, unique id, link count and information length.
#[derive(Clone, Copy)]
pub(crate) struct Head {
    pub file_type: u8,
    pub id: u64,
    pub links: u32,
    pub length: u64,
}

/// Puts an extended file entry with an embedded body of no bytes.
pub(crate) fn put_head(image: &mut Vec<u8>, block: Block, head: Head) {
    let entry = file_entry(head.file_type, head.id, head.length);
    block.put(image, 0, &entry);
    set_links(image, block, head.links);
}

fn put_entry(image: &mut Vec<u8>, block: Block, word: &str) {
    let head = Head {
        file_type: byte(word, 2),
        id: number(word, 3),
        links: small(word, 4),
        length: number(word, 5),
    };
    put_head(image, block, head);
    let used = put_list(image, block, BODY_AT, word, 6);
    if used > 0 {
        block.put(image, FLAGS_AT, &[0]);
    }
    close_entry(image, block, used);
}

// An allocation extent: its tag with version 3 and serial number 1, no previous location, and its descriptors.
fn put_extent(image: &mut Vec<u8>, block: Block, word: &str) {
    block.put(image, 0, &[2, 1, 3, 0, 0, 0, 1, 0]);
    let used = put_list(image, block, EXTENT_BODY_AT, word, 2);
    block.put_number(image, EXTENT_USED_AT, used);
    block.seal(image, used.saturating_add(EXTENT_BODY_AT - 16));
}

fn set_stream(image: &mut Vec<u8>, block: Block, target: u32) {
    block.put_number(image, STREAM_AT, block.size);
    block.put_number(image, STREAM_AT + 4, target);
    block.retag(image);
}

/// Does what a word says of an entry.
pub(crate) fn put_file(image: &mut Vec<u8>, ground: Ground, word: &str) {
    let block = ground.block(small(word, 1));
    match part(word, ':', 0) {
        "entry" => put_entry(image, block, word),
        "extent" => put_extent(image, block, word),
        "links" => set_links(image, block, small(word, 2)),
        "stream" => set_stream(image, block, small(word, 2)),
        _ => {}
    }
}
