// The worked cases of entries and their lists.
ghost use Rattle.std.specs.Prelude.{◌^◌, ◌<◌, ◌≤◌, IfOk};
ghost use Rattle.udf_outside.specs.Files.{IsAttached};
ghost use Rattle.udf_outside.specs.Memory.{files_in};
ghost use Rattle.udf_outside.specs.declared.bench.Role.TheVariants.{Image};

use crate::{IcbFlags, List, ListStop, content_of, list_of, read_entry};
use bitflags::Flags;
use std::alloc::Global;
use std::test::Fail;
use udf_field::{Addr, FieldsMut, Short, retag};
use udf_layer::{One, Physical};
use udf_outside::{Access, Bench, MemBench, Role};

// A short descriptor of 512 bytes.
fn short(kind: u8, block: u32) -> Short
    requires { kind ≤ 3 }
    ensures kind { result.kind ≤ 3 }
    ensures length { result.length < 2 ^ 30 }
{
    Short {
        kind,
        length: 512,
        block,
    }
}

// An extended entry of a file with short descriptors at a block: 512 bytes at block 5, and then another descriptor.
fn entry(at: u32, information: u64, second: Short, attributes: u32, descriptors: u32) -> [u8; 512]
    requires kind { second.kind ≤ 3 }
    requires length { second.length < 2 ^ 30 }
{
    let mut block = [0u8; 512];
    let mut fields = FieldsMut::over(&mut block);
    fields.put_u16(0, 266);
    fields.put_u8(27, 5);
    fields.put_u16(34, 1024);
    fields.put_u64(56, information);
    fields.put_u64(64, information);
    fields.put_u32(208, attributes);
    fields.put_u32(212, descriptors);
    fields.put_short(216, short(0, 5));
    fields.put_short(224, second);
    retag(&mut block, 216, at);
    block
}

// An allocation extent at block 4: 512 bytes at block 6, and then itself.
fn extent_to_itself() -> [u8; 512] {
    let mut block = [0u8; 512];
    let mut fields = FieldsMut::over(&mut block);
    fields.put_u16(0, 258);
    fields.put_u32(20, 16);
    fields.put_short(24, short(0, 6));
    fields.put_short(32, short(3, 4));
    retag(&mut block, 24, 4);
    block
}

// A bench whose image has an allocation extent in block 4 of a partition from sector 257 on.
fn bench_with(alloc: Global, bytes: u64, extent: &[u8; 512]) -> Result<MemBench, ListStop>
    ensures { IfOk result (λ bench. IsAttached Image (files_in bench)) }
{
    let mut bench = MemBench::sparse(alloc, bytes);
    bench.attach(Role::Image, "a.img", Access::Write)?;
    if bench.length(Role::Image)? < 134_144 {
        return Err(ListStop::Fault);
    }
    bench.write_at(Role::Image, 261 * 512, extent)?;
    Ok(bench)
}

// The list of an entry at block 3 of the partition, and the bytes of its content up to 2000.
#[tactic(auto, using(crate::proofs::TestParts::inside), unfolding(udf_model::specs::Size::is_size))]
fn read_with(
    alloc: Global,
    bench: &mut MemBench,
    entry: &[u8; 512],
) -> Result<(List, usize), ListStop>
    requires { IsAttached Image (files_in bench.old) }
{
    if bench.length(Role::Image)? < 524_288 {
        return Err(ListStop::Fault);
    }
    let parts = One::new(Physical::new(257, 750));
    let at = Addr { part: 0, block: 3 };
    let list = list_of(alloc, bench, &parts, at, entry)?;
    let content = content_of(alloc, bench, &parts, entry, &list, 2000)?;
    Ok((list, content.len()))
}

// The runs, the block of the last of them, the allocation extents, whether all is good, and the good length of a list, and the
// bytes of its content.
fn chain_read(alloc: Global) -> Result<(u64, u32, u32, bool, u64, usize), ListStop> {
    let mut bench = bench_with(alloc, 524_288, &extent_to_itself())?;
    let (list, bytes) = read_with(alloc, &mut bench, &entry(3, 1536, short(3, 4), 0, 16))?;
    let runs = list.len();
    let last = if runs == 0 {
        0
    } else {
        list.run(runs - 1).at.block
    };
    Ok((
        runs,
        last,
        list.extents(),
        list.good(),
        list.good_length(),
        bytes,
    ))
}

#[test]
fn body_fits_its_block(rt: HostRuntime) -> Result<(), Fail> {
    assert!(rt; read_entry(&entry(3, 0, short(0, 6), 0, 296), 3).is_some());
    assert!(rt; read_entry(&entry(3, 0, short(0, 6), 0, 297), 3).is_none());
    assert!(rt; read_entry(&entry(3, 0, short(0, 6), 101, 195), 3).is_some());
    assert!(rt; read_entry(&entry(3, 0, short(0, 6), 101, 196), 3).is_none());
    Ok(())
}

#[test]
fn chain_that_comes_back_to_itself(rt: HostRuntime) -> Result<(), Fail> {
    let read = chain_read(rt.alloc()).ok().ok_or("not read")?;
    assert!(rt; read == (2, 6, 1, false, 1024, 1024));
    Ok(())
}

#[test]
fn values_that_are_stated(rt: HostRuntime) -> Result<(), Fail> {
    let block = entry(3, 1536, short(3, 4), 0, 16);
    let read = read_entry(&block, 3).ok_or("not readable")?;
    assert_eq!(rt; read.info_length(), 1536);
    assert!(rt; read.flags().contains(IcbFlags::SYSTEM));
    Ok(())
}
