// A content made anew of a parent FID and kept FIDs.
ghost use Rattle.std.specs.Prelude.{◌≡◌, ◌+◌, ◌≤◌, All, Contains, IfOk, length, drop};
ghost use Rattle.udf_file_model.specs.Fid.{fid_bytes, fid_length};
ghost use Rattle.udf_file_model.specs.Scan.{fids, offsets};
ghost use Rattle.udf_file_model.specs.Pack.{IsPacking, fids_at};

use crate::fid::length_of;
use std::alloc::Global;
use std::marker::Model;
use udf_text::NoMemory;

/// A packed content, and how many FIDs it has behind the parent FID.
#[derive(Debug, Drop)]
pub struct Packed {
    bytes: Vec<u8>,
    taken: u64,
}

impl Model for Packed {
    ghost use Rattle.udf_file_model.specs.Pack.{Packing};

    ghost Value = { Packing };

    ghost view = { λ packed. record { bytes = packed.bytes.items; taken = packed.taken } };
}

impl Packed {
    /// The bytes of the content.
    pub fn bytes(&self) -> &[u8]
        ensures { result.now ≡ self.now.bytes }
    {
        self.bytes.as_slice()
    }

    /// How many of the FIDs were taken.
    pub fn taken(&self) -> u64
        ensures { result ≡ self.now.taken }
    {
        self.taken
    }
}

/// The bytes of a parent FID, followed by those of the FIDs at these offsets of a content, in this order: as many of them,
/// from the first on, as leave the whole within `limit` bytes. The offsets, in bytes, are of FIDs that the scan of the
/// content at blocks of `size` bytes takes.
pub fn pack(
    alloc: Global,
    parent: &[u8],
    content: &[u8],
    size: u32,
    at: &[u64],
    limit: u64,
) -> Result<Packed, NoMemory>
    requires parent_fits { length parent.now ≤ limit }
    requires scanned { All (Contains (offsets (fids size content.now))) at.now }
    ensures longest { IfOk result (IsPacking parent.now (fids_at content.now at.now) limit) }
{
    let mut bytes = Vec::from_slice(alloc, parent)?;
    let mut taken = 0;
    for offset in at {
        let fid = fid_from(content, *offset);
        if fid.len() as u64 > limit - bytes.len() as u64 {
            return Ok(Packed { bytes, taken });
        }
        bytes.extend_from_slice(fid)?;
        taken += 1;
    }
    Ok(Packed { bytes, taken })
}

// The bytes of the FID at an offset of a content.
fn fid_from(content: &[u8], at: u64) -> &[u8]
    requires { at + fid_length (drop at content.now) ≤ length content.now }
    ensures { result.now ≡ fid_bytes (drop at content.now) }
{
    let (_, from) = content.split_at(at as usize);
    let (fid, _) = from.split_at(length_of(from));
    fid
}
