// The worked cases of directories.
ghost use Rattle.std.specs.Prelude.{◌≡◌, ◌≤◌, IfOk};
ghost use Rattle.udf_file_model.specs.Scan.{fids, offsets};

use crate::{
    CanonicalName, Marks, NoMemory, Packed, canonical_name, is_whole, pack, same_name, scan,
};
use bitflags::Flags;
use std::alloc::Global;
use std::collections::BTreeSet;
use std::test::Fail;
use udf_field::{Addr, Long};

// A parent FID, and FIDs named `a` and `b`, with the CRC and checksum of another program.
const PARENT: [u8; 40] = [
    0x01, 0x01, 0x02, 0x00, 0x5c, 0x00, 0x01, 0x00, 0x42, 0xf6, 0x18, 0x00, 0x07, 0x00, 0x00, 0x00,
    0x01, 0x00, 0x0a, 0x00, 0x00, 0x02, 0x00, 0x00, 0x03, 0x00, 0x00, 0x00, 0x00, 0x00, 0x00, 0x00,
    0x00, 0x00, 0x00, 0x00, 0x00, 0x00, 0x00, 0x00,
];

const NAMED_A: [u8; 40] = [
    0x01, 0x01, 0x02, 0x00, 0xa6, 0x00, 0x01, 0x00, 0x2d, 0x55, 0x18, 0x00, 0x07, 0x00, 0x00, 0x00,
    0x01, 0x00, 0x00, 0x02, 0x00, 0x02, 0x00, 0x00, 0x04, 0x00, 0x00, 0x00, 0x00, 0x00, 0x00, 0x00,
    0x00, 0x00, 0x00, 0x00, 0x00, 0x00, 0x08, 0x61,
];

const NAMED_B: [u8; 40] = [
    0x01, 0x01, 0x02, 0x00, 0x5b, 0x00, 0x01, 0x00, 0x6a, 0xcd, 0x18, 0x00, 0x07, 0x00, 0x00, 0x00,
    0x01, 0x00, 0x00, 0x02, 0x00, 0x02, 0x00, 0x00, 0x05, 0x00, 0x00, 0x00, 0x00, 0x00, 0x00, 0x00,
    0x00, 0x00, 0x00, 0x00, 0x00, 0x00, 0x08, 0x62,
];

fn offsets_in(alloc: Global, content: &[u8]) -> Result<Vec<u64>, NoMemory>
    ensures { IfOk result (λ at. at.items ≡ offsets (fids 512 content.now)) }
{
    scan(content, 512).map(|(at, _)| at).collect(alloc)
}

// All FIDs of a content behind the parent FID, as many as the limit has room for.
fn packed_within(alloc: Global, content: &[u8], limit: u64) -> Result<Packed, NoMemory>
    requires { 40 ≤ limit }
{
    let at = offsets_in(alloc, content)?;
    pack(alloc, &PARENT, content, 512, at.as_slice(), limit)
}

#[test]
fn as_many_as_fit(rt: HostRuntime) -> Result<(), Fail> {
    let alloc = rt.alloc();
    let mut content = [0u8; 80];
    content[..40].copy_from_slice(&NAMED_A);
    content[40..].copy_from_slice(&NAMED_B);
    assert_eq!(rt; packed_within(alloc, &content, 119)?.taken(), 1);
    assert_eq!(rt; packed_within(alloc, &content, 79)?.taken(), 0);
    let all = packed_within(alloc, &content, 120)?;
    assert_eq!(rt; all.taken(), 2);
    assert!(rt; all.bytes().starts_with(&PARENT));
    assert!(rt; all.bytes().ends_with(&content));
    assert!(rt; is_whole(all.bytes(), 512));
    Ok(())
}

#[test]
fn names_in_both_widths(rt: HostRuntime) -> Result<(), Fail> {
    let alloc = rt.alloc();
    assert!(rt; same_name(alloc, &[8, 0x61], &[16, 0x00, 0x61])?);
    assert!(rt; same_name(alloc, &[9, 0x61], &[9, 0x61])?);
    assert!(rt; !same_name(alloc, &[9, 0x61], &[8, 0x61])?);
    assert!(rt; !same_name(alloc, &[9, 0x61], &[9, 0x62])?);
    Ok(())
}

fn are_equal(alloc: Global, a: &[u8], b: &[u8]) -> Result<bool, NoMemory> {
    Ok(canonical_name(alloc, a)? == canonical_name(alloc, b)?)
}

fn add_name(
    alloc: Global,
    names: &mut BTreeSet<CanonicalName>,
    bytes: &[u8],
) -> Result<(), NoMemory> {
    let name = canonical_name(alloc, bytes)?;
    names.insert(name)?;
    Ok(())
}

// How many names a set has of two.
fn told_apart(alloc: Global, a: &[u8], b: &[u8]) -> Result<usize, NoMemory> {
    let mut names = BTreeSet::new(alloc);
    add_name(alloc, &mut names, a)?;
    add_name(alloc, &mut names, b)?;
    Ok(names.len())
}

#[test]
fn names_in_a_set(rt: HostRuntime) -> Result<(), Fail> {
    assert_eq!(rt; told_apart(rt.alloc(), &[8, 0x61], &[16, 0x00, 0x61])?, 1);
    assert_eq!(rt; told_apart(rt.alloc(), &[9, 0x61], &[9, 0x62])?, 2);
    assert!(rt; are_equal(rt.alloc(), &[9, 0x61], &[9, 0x61])?);
    Ok(())
}

// Four bytes that are no FID stand before the second one.
#[test]
fn bytes_between_are_skipped(rt: HostRuntime) -> Result<(), Fail> {
    let mut content = [0xffu8; 84];
    content[..40].copy_from_slice(&PARENT);
    content[44..].copy_from_slice(&NAMED_A);
    let at = offsets_in(rt.alloc(), &content)?;
    assert_eq!(rt; at.as_slice(), [0, 44].as_slice());
    assert!(rt; !is_whole(&content, 512));
    Ok(())
}

#[test]
fn fields_of_a_fid(rt: HostRuntime) -> Result<(), Fail> {
    let (_, parent) = scan(&PARENT, 512).next().ok_or("no FID")?;
    assert!(rt; parent.is_parent() && !parent.is_live());
    let (_, named) = scan(&NAMED_B, 512).next().ok_or("no FID")?;
    assert!(rt; named.is_live() && !named.is_parent());
    assert_eq!(rt; named.marks(), Marks::empty());
    assert_eq!(rt; named.name(), [8, 0x62].as_slice());
    let at = Addr { part: 0, block: 5 };
    let wanted = Long {
        kind: 0,
        length: 512,
        at,
    };
    assert_eq!(rt; named.target(), wanted);
    assert_eq!(rt; named.bytes(), NAMED_B.as_slice());
    Ok(())
}
