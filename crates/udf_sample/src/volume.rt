//! Whole volumes.
ghost use Rattle.std.specs.Prelude.{◌≡◌, ◌*◌, ◌<◌, IfOk, vec_len};

use crate::block::{put, put_block, put_tag, tagged};
use crate::descriptors::{
    ANCHOR, IMPLEMENTATION_USE, INTEGRITY, INTEGRITY_AT, LOGICAL_VOLUME, PARTITION, PRIMARY,
    TERMINATING, UNALLOCATED_SPACE, anchor, information, integrity, logical_volume, partition,
    primary, sparing_table, unallocated_space,
};
use crate::files::{FILE_SET_AT, ROOT_AT, file_set, root, space_bitmap};
use crate::form::{Form, Layer};
use std::alloc::Global;
use udf_outside::NoMemory;

/// Where the volume recognition area begins, and the least distance of its descriptors (ECMA-167 2/8.2, UDF 2.1.7).
const RECOGNITION: u64 = 32768;

const SLOT: u64 = 2048;

// Puts an identifier of the volume recognition sequence (ECMA-167 2/9.1), with type 0 and version 1.
fn put_slot(image: &mut [u8], size: u32, slot: u64, identifier: &[u8; 5])
    requires { slot < 64 }
{
    let at = RECOGNITION + slot * SLOT.max(size as u64) + 1;
    if at + 6 <= image.len() as u64 {
        put(image, at as usize, identifier);
        put(image, at as usize + 5, &[1]);
    }
}

fn put_recognition(image: &mut [u8], size: u32) {
    put_slot(image, size, 0, b"BEA01");
    put_slot(image, size, 1, b"NSR03");
    put_slot(image, size, 2, b"TEA01");
}

fn put_sequence(image: &mut [u8], form: &Form, first: u32) {
    let descriptors = [
        (PRIMARY, primary()),
        (IMPLEMENTATION_USE, information()),
        (PARTITION, partition(form)),
        (LOGICAL_VOLUME, logical_volume(form)),
        (UNALLOCATED_SPACE, unallocated_space()),
        (TERMINATING, [0; 512]),
    ];
    let mut at = first;
    for (id, descriptor) in descriptors {
        put_block(image, form.size, at, &tagged(descriptor, id, at));
        at = at.saturating_add(1);
    }
}

// The integrity descriptor and its terminator.
fn put_integrity(image: &mut [u8], form: &Form) {
    let mut block = integrity(form);
    put_tag(&mut block, INTEGRITY, 118, INTEGRITY_AT);
    put_block(image, form.size, INTEGRITY_AT, &block);
    let end = INTEGRITY_AT + 1;
    put_block(image, form.size, end, &tagged([0; 512], TERMINATING, end));
}

fn put_anchor(image: &mut [u8], form: &Form, at: u32) {
    put_block(image, form.size, at, &tagged(anchor(form), ANCHOR, at));
}

fn put_anchors(image: &mut [u8], form: &Form) {
    put_anchor(image, form, 256);
    put_anchor(image, form, form.blocks.saturating_sub(1));
    if let Some(at) = form.anchor {
        put_anchor(image, form, at);
    }
}

fn put_sparing_table(image: &mut [u8], form: &Form, at: u32) {
    let mut block = sparing_table();
    put_tag(&mut block, 0, 168, at);
    put_block(image, form.size, at, &block);
}

/// The volume with a partition of zeros.
pub fn bare_volume(alloc: Global, form: &Form) -> Result<Vec<u8>, NoMemory>
    ensures { IfOk result (λ image. vec_len image ≡ form.now.blocks * form.now.size) }
{
    let mut image = vec![in alloc; 0u8; form.blocks as usize * form.size as usize]?;
    put_recognition(&mut image, form.size);
    put_sequence(&mut image, form, form.main);
    put_sequence(&mut image, form, form.reserve);
    put_integrity(&mut image, form);
    put_anchors(&mut image, form);
    if let Layer::Sparable(tables) = form.layer {
        put_sparing_table(&mut image, form, tables[0]);
        put_sparing_table(&mut image, form, tables[1]);
    }
    Ok(image)
}

/// The volume with an empty root: space bitmap, file set and root stand in the first three blocks of the partition.
pub fn volume_of(alloc: Global, form: &Form) -> Result<Vec<u8>, NoMemory>
    ensures { IfOk result (λ image. vec_len image ≡ form.now.blocks * form.now.size) }
{
    let mut image = bare_volume(alloc, form)?;
    let (size, start) = (form.size, form.start);
    put_block(&mut image, size, start, &space_bitmap(form));
    put_block(
        &mut image,
        size,
        start.saturating_add(FILE_SET_AT),
        &file_set(form),
    );
    put_block(&mut image, size, start.saturating_add(ROOT_AT), &root(form));
    Ok(image)
}

/// The fresh volume of 1,024 blocks of 512 bytes with UUID 0123456789abcdef, as `mkudffs` makes it for a hard disk.
pub fn volume_a(alloc: Global) -> Result<Vec<u8>, NoMemory>
    ensures { IfOk result (λ image. vec_len image ≡ 524288) }
{
    volume_of(alloc, &Form::hard_disk(512, 1024))
}

/// The fresh volume of 850 blocks of 512 bytes with UUID 0123456789abcdef, as `mkudffs` makes it for a rewritable CD, but with a
/// partition of zeros.
pub fn volume_s(alloc: Global) -> Result<Vec<u8>, NoMemory>
    ensures { IfOk result (λ image. vec_len image ≡ 435200) }
{
    bare_volume(alloc, &Form::rewritable_disc(512, 850))
}
