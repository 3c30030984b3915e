// A small volume, for the tests: blocks of 512 bytes, with the file set at block 2 and entries at blocks 3 to 6.
ghost use Rattle.std.specs.Prelude.{◌≡◌, ◌≤◌, IfOk};
ghost use Rattle.udf_outside.specs.Files.{Files, IsAttached};
ghost use Rattle.udf_outside.specs.Memory.{files_in};
ghost use Rattle.udf_outside.specs.declared.bench.Role.TheVariants.{Image};
ghost use Rattle.udf_volume.specs.Over.{IsOver};

use crate::file_survey::survey;
use crate::surveyed::Survey;
use std::alloc::Global;
use udf_field::{Addr, FieldsMut, Long, Span, retag};
use udf_layer::{LayerStop, One, Physical};
use udf_outside::{Access, Bench, MemBench, Role};
use udf_volume::{Shape, Upper, Volume, Which, file_set};

// A live FID that names block 4, with the CRC and checksum of another program.
const NAMED_A: [u8; 40] = [
    0x01, 0x01, 0x02, 0x00, 0xa6, 0x00, 0x01, 0x00, 0x2d, 0x55, 0x18, 0x00, 0x07, 0x00, 0x00, 0x00,
    0x01, 0x00, 0x00, 0x02, 0x00, 0x02, 0x00, 0x00, 0x04, 0x00, 0x00, 0x00, 0x00, 0x00, 0x00, 0x00,
    0x00, 0x00, 0x00, 0x00, 0x00, 0x00, 0x08, 0x61,
];

// That FID, naming a block by a letter.
pub(crate) fn named(letter: u8, block: u32) -> [u8; 40] {
    let mut fid = NAMED_A;
    let mut fields = FieldsMut::over(&mut fid);
    fields.put_u32(24, block);
    fields.put_u8(39, letter);
    retag(&mut fid, 24, 7);
    fid
}

// A parent FID that names block 3.
fn parent() -> [u8; 40] {
    let mut fid = [0u8; 40];
    let mut fields = FieldsMut::over(&mut fid);
    fields.put_u16(0, 257);
    fields.put_u16(16, 1);
    fields.put_u8(18, 10);
    fields.put_u32(20, 512);
    fields.put_u32(24, 3);
    retag(&mut fid, 24, 3);
    fid
}

// Puts a FID at an offset.
fn put_fid(block: &mut [u8; 512], at: usize, fid: &[u8; 40])
    requires { at ≤ 472 }
{
    block[at..at + 40].copy_from_slice(fid);
}

// The extended entry of a directory at a block, with both FIDs.
pub(crate) fn directory(at: u32) -> [u8; 512] {
    let mut block = [0u8; 512];
    put_fid(&mut block, 216, &parent());
    put_fid(&mut block, 256, &NAMED_A);
    let mut fields = FieldsMut::over(&mut block);
    fields.put_u16(0, 266);
    fields.put_u16(20, 4);
    fields.put_u8(27, 4);
    fields.put_u16(34, 3);
    fields.put_u64(56, 80);
    fields.put_u32(212, 80);
    retag(&mut block, 280, at);
    block
}

// The root, with a pointer to a stream directory at block 5.
pub(crate) fn root_with_pointer() -> [u8; 512] {
    let mut block = directory(3);
    let mut fields = FieldsMut::over(&mut block);
    fields.put_u32(152, 512);
    fields.put_u32(156, 5);
    retag(&mut block, 280, 3);
    block
}

// A directory with an identifier, and a third FID.
pub(crate) fn directory_with(at: u32, id: u64, fid: &[u8; 40]) -> [u8; 512] {
    let mut block = directory(at);
    put_fid(&mut block, 296, fid);
    let mut fields = FieldsMut::over(&mut block);
    fields.put_u64(56, 120);
    fields.put_u64(200, id);
    fields.put_u32(212, 120);
    retag(&mut block, 320, at);
    block
}

// The extended entry of an empty file at a block.
pub(crate) fn file(at: u32) -> [u8; 512] {
    let mut block = [0u8; 512];
    let mut fields = FieldsMut::over(&mut block);
    fields.put_u16(0, 266);
    fields.put_u16(20, 4);
    fields.put_u8(27, 5);
    fields.put_u16(34, 3);
    retag(&mut block, 200, at);
    block
}

// A file set at block 2, whose root is at block 3, and whose pointer to the system stream directory at block 6 has a length.
fn files(system: u32) -> [u8; 512] {
    let mut block = [0u8; 512];
    let mut fields = FieldsMut::over(&mut block);
    fields.put_u16(0, 256);
    fields.put_u32(400, 512);
    fields.put_u32(404, 3);
    fields.put_u32(464, system);
    fields.put_u32(468, 6);
    retag(&mut block, 496, 2);
    block
}

// Puts a block at an offset.
fn put(blocks: &mut [u8; 2560], at: usize, block: &[u8; 512])
    requires { at ≤ 2048 }
{
    blocks[at..at + 512].copy_from_slice(block);
}

// The file set, and entries at blocks 3 to 6: the root, a file, and these two.
pub(crate) fn blocks(
    system: u32,
    root: &[u8; 512],
    fifth: &[u8; 512],
    sixth: &[u8; 512],
) -> [u8; 2560] {
    let mut blocks = [0u8; 2560];
    put(&mut blocks, 0, &files(system));
    put(&mut blocks, 512, root);
    put(&mut blocks, 1024, &file(4));
    put(&mut blocks, 1536, fifth);
    put(&mut blocks, 2048, sixth);
    blocks
}

// A bench whose image has those blocks in a partition from sector 257 on.
fn bench_with(alloc: Global, blocks: &[u8; 2560]) -> Result<MemBench, LayerStop>
    ensures { IfOk result (λ bench. IsAttached Image (files_in bench)) }
{
    let mut bench = MemBench::sparse(alloc, 524_288);
    bench.attach(Role::Image, "a.img", Access::Write)?;
    if bench.length(Role::Image)? < 524_288 {
        return Err(LayerStop::Fault);
    }
    bench.write_at(Role::Image, 259 * 512, blocks)?;
    Ok(bench)
}

// The volume of that partition, whose file set stands at block 2.
fn volume() -> Volume
    ensures over { (files : Files) → IsAttached Image files → 524288 ≤ files.image.size → IsOver result files }
    ensures size { result.size ≡ 512 }
{
    let sequence = Span {
        length: 8192,
        start: 32,
    };
    Volume {
        size: 512,
        blocks: 1024,
        anchor: 256,
        main: sequence,
        reserve: sequence,
        kept: Which::Main,
        count: 6,
        pvd: 32,
        lvd: 34,
        pd: 35,
        info: None,
        shape: Shape {
            base: 0,
            sparing: None,
            upper: Upper::Absent,
        },
        start: 257,
        length: 750,
        bitmap: None,
        integrity: sequence,
        file_set: Long {
            kind: 0,
            length: 512,
            at: Addr { part: 0, block: 2 },
        },
        revision: 0x0201,
        access: 4,
        guarded: false,
    }
}

// The survey of the files of that volume.
#[tactic(auto, using(crate::proofs::TestParts::inside, crate::proofs::TestParts::inside_of), unfolding(udf_model::specs::Size::is_size))]
fn survey_in(alloc: Global, bench: &mut MemBench) -> Result<Survey, LayerStop>
    requires { IsAttached Image (files_in bench.old) }
{
    if bench.length(Role::Image)? < 524_288 {
        return Err(LayerStop::Fault);
    }
    let parts = One::new(Physical::new(257, 750));
    let files = file_set(alloc, bench, &volume(), &parts)?;
    survey(alloc, bench, &parts, 512, &files)
}

// The survey of the files of that volume with these blocks; None where it could not be made.
pub(crate) fn survey_over(alloc: Global, blocks: &[u8; 2560]) -> Option<Survey> {
    let mut bench = bench_with(alloc, blocks).ok()?;
    survey_in(alloc, &mut bench).ok()
}
