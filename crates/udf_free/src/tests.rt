// A fresh volume whose partition has 750 blocks: its space bitmap, its file set and its root stand in the first three of them.
ghost use Rattle.std.specs.Prelude.{◌≡◌, ◌≤◌, IfOk, length};
ghost use Rattle.udf_outside.specs.Files.{Files, IsAttached};
ghost use Rattle.udf_outside.specs.Memory.{files_in};
ghost use Rattle.udf_outside.specs.declared.bench.Role.TheVariants.{Image};
ghost use Rattle.udf_volume.specs.Over.{IsOver};

use crate::{BitmapVerdict, bitmap_verdict, free_blocks};
use std::alloc::{AllocError, Global};
use std::test::Fail;
use udf_field::{Addr, FieldsMut, Long, Short, Span, retag};
use udf_layer::{LayerStop, One, Physical, WorkStop};
use udf_outside::{Access, Bench, MemBench, Role};
use udf_space::Bitmap;
use udf_tree::{Survey, survey};
use udf_volume::{Shape, Upper, Volume, Which, file_set};

// The blocks of the partition.
const BLOCKS: u32 = 750;

// The extent of the bitmap.
const BITMAP: Short = Short {
    kind: 0,
    length: 512,
    block: 0,
};

// The descriptor of the file set, whose root is at block 2.
fn files() -> [u8; 512] {
    let mut block = [0u8; 512];
    let mut fields = FieldsMut::over(&mut block);
    fields.put_u16(0, 256);
    fields.put_u32(400, 512);
    fields.put_u32(404, 2);
    retag(&mut block, 496, 1);
    block
}

// A parent FID that names block 2.
fn parent() -> [u8; 40] {
    let mut fid = [0u8; 40];
    let mut fields = FieldsMut::over(&mut fid);
    fields.put_u16(0, 257);
    fields.put_u16(16, 1);
    fields.put_u8(18, 10);
    fields.put_u32(20, 512);
    fields.put_u32(24, 2);
    retag(&mut fid, 24, 2);
    fid
}

// The extended entry of the empty root.
fn root() -> [u8; 512] {
    let mut block = [0u8; 512];
    block[216..256].copy_from_slice(&parent());
    let mut fields = FieldsMut::over(&mut block);
    fields.put_u16(0, 266);
    fields.put_u16(20, 4);
    fields.put_u8(27, 4);
    fields.put_u16(34, 3);
    fields.put_u64(56, 40);
    fields.put_u32(212, 40);
    retag(&mut block, 240, 2);
    block
}

// Puts a block at an offset.
fn put(blocks: &mut [u8; 1536], at: usize, block: &[u8; 512])
    requires { at ≤ 1024 }
{
    blocks[at..at + 512].copy_from_slice(block);
}

// The first three blocks of the partition.
fn blocks(bitmap: &Bitmap) -> [u8; 1536]
    requires { length bitmap.now ≡ 750 }
{
    let mut first = [0u8; 512];
    bitmap.encode(3, 1, 0, &mut first);
    let mut blocks = [0u8; 1536];
    put(&mut blocks, 0, &first);
    put(&mut blocks, 512, &files());
    put(&mut blocks, 1024, &root());
    blocks
}

// A bench whose image has those blocks in a partition from sector 257 on.
fn bench_with(alloc: Global, blocks: &[u8; 1536]) -> Result<MemBench, LayerStop>
    ensures { IfOk result (λ bench. IsAttached Image (files_in bench)) }
{
    let mut bench = MemBench::sparse(alloc, 524_288);
    bench.attach(Role::Image, "a.img", Access::Write)?;
    if bench.length(Role::Image)? < 524_288 {
        return Err(LayerStop::Fault);
    }
    bench.write_at(Role::Image, 257 * 512, blocks)?;
    Ok(bench)
}

// Where the blocks of that partition stand.
fn parts() -> One<Physical>
    ensures start { result.layer.start ≡ 257 }
    ensures blocks { result.layer.blocks ≡ 750 }
{
    One::new(Physical::new(257, BLOCKS))
}

// What its descriptors state.
fn volume() -> Volume
    ensures over { (files : Files) → IsAttached Image files → 524288 ≤ files.image.size → IsOver result files }
    ensures size { result.size ≡ 512 }
{
    let sequence = Span {
        length: 8192,
        start: 32,
    };
    Volume {
        size: 512,
        blocks: 1024,
        anchor: 256,
        main: sequence,
        reserve: sequence,
        kept: Which::Main,
        count: 6,
        pvd: 32,
        lvd: 34,
        pd: 35,
        info: None,
        shape: Shape {
            base: 0,
            sparing: None,
            upper: Upper::Absent,
        },
        start: 257,
        length: BLOCKS,
        bitmap: Some(BITMAP),
        integrity: sequence,
        file_set: Long {
            kind: 0,
            length: 512,
            at: Addr { part: 0, block: 1 },
        },
        revision: 0x0201,
        access: 4,
        guarded: false,
    }
}

// The survey of its files.
#[tactic(auto, unfolding(udf_model::specs::Size::is_size))]
fn survey_in(alloc: Global, bench: &mut MemBench) -> Result<Survey, LayerStop>
    requires { IsAttached Image (files_in bench.old) }
    ensures { IfOk result (λ survey. files_in bench.new ≡ files_in bench.old) }
{
    if bench.length(Role::Image)? < 524_288 {
        return Err(LayerStop::Fault);
    }
    let parts = parts();
    let files = file_set(alloc, bench, &volume(), &parts)?;
    let survey = survey(alloc, bench, &parts, 512, &files)?;
    Ok(survey)
}

// The verdict on its bitmap, by the blocks that are to be free.
fn verdict_in(alloc: Global, bench: &mut MemBench, free: &Bitmap) -> Result<BitmapVerdict, WorkStop>
    requires attached { IsAttached Image (files_in bench.old) }
    requires free { length free.now ≡ 750 }
    ensures { IfOk result (λ verdict. files_in bench.new ≡ files_in bench.old) }
{
    if bench.length(Role::Image)? < 524_288 {
        return Err(WorkStop::Fault);
    }
    let parts = parts();
    let verdict = bitmap_verdict(alloc, bench, &parts, 512, BLOCKS, BITMAP, free)?;
    Ok(verdict)
}

// The bitmap of which the blocks of the bitmap, the file set and the root are used.
fn bitmap(alloc: Global) -> Result<Bitmap, AllocError>
    ensures { IfOk result (λ bitmap. length bitmap ≡ 750) }
{
    let mut bitmap = Bitmap::blank(alloc, BLOCKS)?;
    bitmap.claim(0);
    bitmap.claim(1);
    bitmap.claim(2);
    Ok(bitmap)
}

#[test]
fn fresh_bitmap_is_right(rt: HostRuntime) -> Result<(), Fail> {
    let alloc = rt.alloc();
    let mut bench = bench_with(alloc, &blocks(&bitmap(alloc)?))?;
    let survey = survey_in(alloc, &mut bench)?;
    let free = free_blocks(alloc, &survey, BLOCKS)?;
    assert_eq!(rt; free.free_count(), 747);
    assert!(rt; verdict_in(alloc, &mut bench, &free)?.holds());
    let other = Bitmap::blank(alloc, BLOCKS)?;
    let verdict = verdict_in(alloc, &mut bench, &other)?;
    assert!(rt; verdict.headed && verdict.wrong == 3);
    Ok(())
}
