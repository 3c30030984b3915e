// Worked cases of sparable partitions and of their tables.
ghost use Rattle.std.specs.Prelude.{◌≡◌, length};

use crate::{
    Area, Deviation, Layer, LayerStop, One, Parts, Physical, Sparable, SparingMap, SparingTable,
    TableVerdict, sparing_table, table_verdict,
};
use std::alloc::Global;
use std::test::Fail;
use udf_field::{Addr, FieldsMut, retag};
use udf_outside::{Access, Bench, MemBench, Role};

// A table of two entries with a sequence number, whole at a sector.
fn put_table(block: &mut [u8], at: u32, number: u32, pairs: [(u32, u32); 2])
    requires { length block.old ≡ 512 }
    ensures { length block.new ≡ 512 }
{
    block[17..35].copy_from_slice(b"*UDF Sparing Table");
    let mut fields = FieldsMut::over(block);
    fields.put_u16(48, 2);
    fields.put_u32(52, number);
    fields.put_u32(56, pairs[0].0);
    fields.put_u32(60, pairs[0].1);
    fields.put_u32(64, pairs[1].0);
    fields.put_u32(68, pairs[1].1);
    retag(block, 56, at);
}

// The used entries of the tables at 1 and 2 and the verdict on them, where these calls of the bench fail.
fn used(
    alloc: Global,
    image: Vec<u8>,
    fail: &[u64],
) -> Result<(SparingTable, TableVerdict), LayerStop> {
    let fail = Vec::from_slice(alloc, fail)?;
    let mut bench = MemBench::new(alloc, image, Vec::new(alloc), fail, None);
    bench.attach(Role::Image, "image", Access::Read)?;
    if bench.length(Role::Image)? < 2048 {
        return Err(LayerStop::Fault);
    }
    let map = SparingMap {
        packet: 32,
        count: 2,
        bytes: 512,
        at: [1, 2, 0, 0],
    };
    let table = sparing_table(alloc, &mut bench, 512, &map, 64)?;
    let verdict = table_verdict(alloc, &mut bench, 512, &map)?;
    Ok((table, verdict))
}

#[test]
fn a_mapped_packet_stands_elsewhere(rt: HostRuntime) -> Result<(), Fail> {
    let table = SparingTable::new(rt.alloc(), 32).with(0, 288)?;
    let layer = Sparable::new(Physical::new(800, 32), table);
    assert_eq!(rt; layer.locate(3), Some(291));
    assert_eq!(rt; layer.locate(31), Some(319));
    assert_eq!(rt; layer.locate(32), None);
    assert_eq!(rt; layer.twin(3), None);
    assert_eq!(rt; layer.placed(3, 40), 29);
    Ok(())
}

#[test]
fn one_partition_has_the_reference_0(rt: HostRuntime) -> Result<(), Fail> {
    let parts = One::new(Physical::new(800, 32));
    assert_eq!(rt; parts.locate(Addr { part: 0, block: 3 }), Some(803));
    assert_eq!(rt; parts.locate(Addr { part: 1, block: 3 }), None);
    assert_eq!(rt; parts.placed(Addr { part: 0, block: 3 }, 40), 29);
    assert_eq!(rt; parts.base().blocks(), 32);
    assert!(rt; !parts.inner(Addr { part: 0, block: 3 }));
    Ok(())
}

#[test]
fn the_higher_table_prevails(rt: HostRuntime) -> Result<(), Fail> {
    let alloc = rt.alloc();
    let mut image = vec![in alloc; 0u8; 2048]?;
    put_table(&mut image[512..1024], 1, 1, [(0, 288), (32, 320)]);
    put_table(&mut image[1024..1536], 2, 2, [(32, 352), (32, 384)]);
    let fails = used(alloc, image.clone()?, &[4]);
    assert!(rt; matches!(fails, Err(LayerStop::Fault)));
    match used(alloc, image, &[]) {
        Ok((table, verdict)) => {
            assert_eq!(rt; table.count(), 1);
            assert_eq!(rt; table.pair(0), (32, 352));
            assert!(rt; table.lies_outside(351));
            assert!(rt; !table.lies_outside(383));
            assert!(rt; matches!(&verdict.prevailing, Some(bytes) if bytes.len() == 72));
            let deviating = verdict.deviating.first().copied();
            assert_eq!(rt; deviating, Some(Deviation { at: 1, number: 1 }));
        }
        Err(_) => assert!(rt; false),
    }
    Ok(())
}
