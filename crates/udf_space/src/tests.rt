// Worked cases: the bitmap of the fresh volume of 1,024 blocks, whose partition has 750, the first three of them used.
use crate::Bitmap;
use std::test::Fail;

const FRESH_BLOCKS: u32 = 750;

// The bytes of the fresh volume's bitmap, of which 94 hold bits.
const FRESH_BYTES: usize = 118;

// Its tag, which has version 3 and serial number 1, and its counts.
const FRESH_HEADER: [u8; 24] = [
    0x08, 0x01, 0x03, 0x00, 0x0d, 0x00, 0x01, 0x00, 0x00, 0x00, 0x00, 0x00, 0x00, 0x00, 0x00, 0x00,
    0xee, 0x02, 0x00, 0x00, 0x5e, 0x00, 0x00, 0x00,
];

#[test]
fn three_of_ten_claimed(rt: HostRuntime) -> Result<(), Fail> {
    let mut bitmap = Bitmap::blank(rt.alloc(), 10)?;
    assert_eq!(rt; bitmap.free_count(), 10);
    bitmap.claim(0);
    bitmap.claim(8);
    bitmap.claim(9);
    assert_eq!(rt; bitmap.free_count(), 7);
    assert!(rt; bitmap.is_free(7));
    assert!(rt; !bitmap.is_free(8));
    Ok(())
}

#[test]
fn run_claimed_over_three_bytes(rt: HostRuntime) -> Result<(), Fail> {
    let blank = Bitmap::blank(rt.alloc(), 30)?;
    let mut bitmap = Bitmap::blank(rt.alloc(), 30)?;
    bitmap.claim_run(5, 18);
    assert_eq!(rt; bitmap.free_count(), 12);
    assert!(rt; bitmap.is_free(4) && !bitmap.is_free(5));
    assert!(rt; !bitmap.is_free(22) && bitmap.is_free(23));
    assert_eq!(rt; blank.differing(&bitmap), 18);
    bitmap.claim_run(9, 0);
    assert_eq!(rt; bitmap.free_count(), 12);
    Ok(())
}

#[test]
fn fresh_bitmap_written(rt: HostRuntime) -> Result<(), Fail> {
    let mut bitmap = Bitmap::blank(rt.alloc(), FRESH_BLOCKS)?;
    bitmap.claim(0);
    bitmap.claim(1);
    bitmap.claim(2);
    assert_eq!(rt; bitmap.free_count(), 747);
    let mut area = [0xaau8; FRESH_BYTES + 1];
    bitmap.encode(3, 1, 0, &mut area);
    assert!(rt; area.starts_with(&FRESH_HEADER));
    assert_eq!(rt; area[24], 0xf8);
    assert_eq!(rt; area[25], 0xff);
    assert!(rt; area.ends_with(&[0xff, 0x3f, 0xaa]));
    Ok(())
}

#[test]
fn fresh_bitmap_read(rt: HostRuntime) -> Result<(), Fail> {
    let alloc = rt.alloc();
    let mut area = [0xffu8; FRESH_BYTES];
    area[..24].copy_from_slice(&FRESH_HEADER);
    area[24] = 0xf8;
    let free = match Bitmap::read(alloc, &area, FRESH_BLOCKS)? {
        Some(bitmap) => bitmap.free_count(),
        None => 0,
    };
    assert_eq!(rt; free, 747, "bits past the last block are not counted");
    assert!(rt;
        Bitmap::read(alloc, &area, FRESH_BLOCKS - 1)?.is_none(),
        "another bit count"
    );
    area[20] = 0x5f;
    assert!(rt;
        Bitmap::read(alloc, &area, FRESH_BLOCKS)?.is_none(),
        "another byte count"
    );
    Ok(())
}
