// The bytes in which a bitmap keeps its bits.
ghost use Rattle.std.specs.Prelude.{◌≡◌, ◌-◌, ◌*◌, ◌<◌, ◌≤◌, ◌^◌, bit_and, length, slice_index, slice_set};
ghost use Rattle.udf_model.specs.Bytes.{IsBytes};
ghost use Rattle.udf_space.specs.Bits.{bits_of, bytes_for};
ghost use Rattle.udf_space.specs.Stored.{IsStored, Clears, kept_around};

// The bits of a byte.
pub(crate) const BYTE_BITS: u32 = 8;

// The bytes that the bits of so many blocks take.
pub(crate) fn stored_bytes(blocks: u32) -> usize
    ensures { result ≡ bytes_for blocks }
{
    blocks.div_ceil(BYTE_BITS) as usize
}

// Clears the bits of a byte from a place on.
fn keep_below(bytes: &mut [u8], at: usize, place: u32)
    requires at { at < length bytes.old }
    requires place { place < 8 }
    ensures { bytes.new ≡ slice_set bytes.old at (bit_and (slice_index bytes.old at) (2 ^ place - 1)) }
{
    bytes[at] &= (1u8 << place) - 1;
}

// Clears the bits past the last block.
pub(crate) fn clear_rest(bytes: &mut [u8], blocks: u32)
    requires { length bytes.old ≡ bytes_for blocks }
    ensures stored { IsStored blocks bytes.new }
    ensures same_bits { bits_of blocks bytes.new ≡ bits_of blocks bytes.old }
{
    let used = blocks % BYTE_BITS;
    if used != 0 {
        keep_below(bytes, (blocks / BYTE_BITS) as usize, used);
    }
}

// The ones below a place.
fn ones_below(place: u32) -> u8
    requires { place ≤ 8 }
    ensures { result ≡ 2 ^ place - 1 }
{
    ((1u16 << place) - 1) as u8
}

// Clears the bits of a byte from a place on, below another.
fn clear_between(bytes: &mut [u8], at: usize, low: u32, high: u32)
    requires at { at < length bytes.old }
    requires low { low ≤ 8 }
    requires high { high ≤ 8 }
    ensures { bytes.new ≡ slice_set bytes.old at (kept_around (slice_index bytes.old at) low high) }
{
    let below = ones_below(low);
    let behind = !ones_below(high);
    bytes[at] &= below | behind;
}

// Clears the bits of a run of blocks, from one on, below another.
pub(crate) fn clear_run(bytes: &mut [u8], start: u32, end: u32)
    requires forward { start ≤ end }
    requires within { end ≤ 8 * length bytes.old }
    ensures clears { Clears start end bytes.old bytes.new }
    ensures bytes { IsBytes bytes.new }
{
    for i in (start / BYTE_BITS)..end.div_ceil(BYTE_BITS) {
        let first = i * BYTE_BITS;
        let low = start.saturating_sub(first).min(BYTE_BITS);
        let high = (end - first).min(BYTE_BITS);
        clear_between(bytes, i as usize, low, high);
    }
}
