// Addresses, extents and allocation descriptors.
ghost use Rattle.std.specs.Prelude.{◌≡◌, ◌≤◌, ◌<◌, ◌^◌};
ghost use Rattle.udf_field.specs.FieldView.{kind_bits, length_bits};
ghost use Rattle.udf_field.specs.FieldView.{stored_length as stored_number};

/// An address in a volume: a block of a partition, which its reference in the partition maps names
/// (ECMA-167 4/7.1, lb_addr). Ordered by reference, then by block.
#[derive(Clone, Copy, Debug, PartialEq, Eq, PartialOrd, Ord, Hash)]
pub struct Addr {
    pub part: u16,
    pub block: u32,
}

/// An extent of the volume: its length in bytes and its first sector (ECMA-167 3/7.1, extent_ad).
#[derive(Clone, Copy, Debug, PartialEq, Eq, Hash)]
pub struct Span {
    pub length: u32,
    pub start: u32,
}

/// A short allocation descriptor (ECMA-167 4/14.14.1). The kind is from 0 to 3: recorded, allocated only, hole, or
/// continuation; the length is in bytes and below 2^30, and the block lies in the partition of the entry.
#[derive(Clone, Copy, Debug, PartialEq, Eq, Hash)]
pub struct Short {
    pub kind: u8,
    pub length: u32,
    pub block: u32,
}

/// A long allocation descriptor (ECMA-167 4/14.14.2): kind and length as in a short one, and the address of the
/// extent. Its six bytes of implementation use are no part of it.
#[derive(Clone, Copy, Debug, PartialEq, Eq, Hash)]
pub struct Long {
    pub kind: u8,
    pub length: u32,
    pub at: Addr,
}

// The place of the kind in a stored length.
const KIND_SHIFT: u32 = 30;

// The bits of a stored length that are the length.
const LENGTH_MASK: u32 = 0x3fff_ffff;

// The kind in the stored length of an allocation descriptor.
pub fn kind_of(stored: u32) -> u8
    ensures { result ≡ kind_bits stored }
{
    (stored >> KIND_SHIFT) as u8
}

// The length in the stored length of an allocation descriptor.
pub fn length_of(stored: u32) -> u32
    ensures { result ≡ length_bits stored }
{
    stored & LENGTH_MASK
}

// The stored length of an allocation descriptor: kind and length in one number.
pub fn stored_length(kind: u8, length: u32) -> u32
    requires kind { kind ≤ 3 }
    requires fits { length < 2 ^ 30 }
    ensures { result ≡ stored_number kind length }
{
    (kind as u32) << KIND_SHIFT | length
}
