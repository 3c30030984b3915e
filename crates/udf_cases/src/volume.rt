//! Volumes as words: `fresh` (the fresh volume of 1,024 blocks of 512 bytes), `bare` (the same with a partition of zeros), `files`
//! (the fresh one with entries), `tree` (the fresh one with a directory and two files, counted everywhere), `disc:BLOCKS` (a fresh
//! sparable volume of at least 850 blocks of 512 bytes), `sparable` (the one of 850 blocks with a partition of zeros),
//! `three:SIZE:BLOCKS` (a volume of any block size, at least 540 blocks, three anchors and a partition of zeros),
//! `whole:SIZE:BLOCKS` (the same with an empty root), `short:BLOCKS` (a volume of at least 290 blocks of 512 bytes, with two
//! anchors and a partition of zeros), `few:BLOCKS` (the same with an empty root).
//! `zeros:BYTES` is no volume, but an image of so many zeros.
ghost use Rattle.std.specs.Prelude.{◌<◌, ◌≤◌, ◌^◌};

use crate::block::Ground;
use crate::damage::hurt_by;
use crate::words::{part, small};
use std::alloc::Global;
use udf_field::Short;
use udf_sample::{Form, NoMemory, bare_volume, put_entry, volume_a, volume_of, volume_s};

/// The bytes of a volume's block.
pub(crate) fn size_of(word: &str) -> u32
    ensures { 0 < result }
{
    match part(word, ':', 0) {
        "three" | "whole" => small(word, 1).clamp(512, 4096),
        _ => 512,
    }
}

/// Where the partition of a volume lies.
pub(crate) fn ground_of(word: &str) -> Ground {
    let start = match part(word, ':', 0) {
        "three" | "whole" | "few" | "short" => 170,
        "disc" | "sparable" => 800,
        _ => 257,
    };
    Ground {
        size: size_of(word),
        start,
    }
}

// An extent of a file.
fn extent(kind: u8, length: u32, block: u32) -> Short
    requires kind { kind ≤ 3 }
    requires length { length < 2 ^ 30 }
    ensures kind { result.kind ≤ 3 }
    ensures length { result.length < 2 ^ 30 }
{
    Short {
        kind,
        length,
        block,
    }
}

// The fresh volume with two files, one of recorded, allocated and missing blocks, and with a directory of five bytes.
fn volume_with_files(alloc: Global) -> Result<Vec<u8>, NoMemory> {
    let mut image = volume_a(alloc)?;
    put_entry(&mut image, 3, false, 16, 1024, &[extent(0, 1024, 5)], b"");
    let list = [extent(0, 512, 7), extent(1, 512, 6), extent(2, 512, 0)];
    put_entry(&mut image, 4, false, 17, 1536, &list, b"");
    put_entry(&mut image, 8, true, u64::MAX, 5, &[], b"hello");
    Ok(image)
}

// The fresh volume with a directory `d` of a file `b` and with a file `a`, as damages.
const TREE: &str =
    "entry:3:4:16:1:0 fid:3:10::2 fid:3:0:b:5 entry:4:5:17:1:1024:512@6:512@7 entry:5:5:18:1:512:512@8 \
    fid:2:2:d:3 fid:2:0:a:4 links:2:2 used:3:6 integrity:1:19:741:2:2";

fn tree(alloc: Global) -> Result<Vec<u8>, NoMemory> {
    let mut image = volume_a(alloc)?;
    hurt_by(&mut image, ground_of("fresh"), TREE);
    Ok(image)
}

/// The volume of this name. Another name is that of an empty image.
pub(crate) fn volume_named(alloc: Global, word: &str) -> Result<Vec<u8>, NoMemory> {
    match part(word, ':', 0) {
        "fresh" => volume_a(alloc),
        "bare" => bare_volume(alloc, &Form::hard_disk(512, 1024)),
        "files" => volume_with_files(alloc),
        "tree" => tree(alloc),
        "disc" => volume_of(alloc, &Form::rewritable_disc(512, small(word, 1).max(850))),
        "sparable" => volume_s(alloc),
        "three" => bare_volume(
            alloc,
            &Form::three_anchors(size_of(word), small(word, 2).max(540)),
        ),
        "whole" => volume_of(
            alloc,
            &Form::three_anchors(size_of(word), small(word, 2).max(540)),
        ),
        "few" => volume_of(alloc, &Form::two_anchors(512, small(word, 1).max(290))),
        "short" => bare_volume(alloc, &Form::two_anchors(512, small(word, 1).max(290))),
        _ => Ok(Vec::new(alloc)),
    }
}
