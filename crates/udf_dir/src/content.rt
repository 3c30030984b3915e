// The FIDs of a content.
ghost use Rattle.std.specs.Prelude.{◌≡◌, ◌↔◌, IsTrue, drop};
ghost use Rattle.udf_file_model.specs.Fid.{fid_at};
ghost use Rattle.udf_file_model.specs.Scan.{fids};
ghost use Rattle.udf_file_model.specs.Pack.{IsWholeContent};

use crate::fid::fid_in;
use crate::{Fid, Scan};

/// The whole FIDs of a directory's content at blocks of `size` bytes, each with its offset in bytes (ECMA-167 4/14.4): at
/// offsets that are multiples of four, a FID of at most a block whose tag is whole and has identifier 257 is yielded and
/// passed. Where there is none, the scan goes on four bytes later. Takes no memory, and
/// at each offset at most the time of the CRC of one block.
pub fn scan(content: &[u8], size: u32) -> Scan<'_>
    ensures { result ≡ fids size content.now }
{
    Scan {
        rest: content,
        at: 0,
        size,
    }
}

/// The whole FID of at most `size` bytes that begins at an offset of a content, in bytes, where one does. Takes no memory.
#[tactic(auto, using(crate::proofs::Beginning::none_past))]
pub fn fid_at(content: &[u8], at: u64, size: u32) -> Option<Fid<'_>>
    ensures { result ≡ fid_at size (drop at content.now) }
{
    if at > content.len() as u64 {
        return None;
    }
    let (_, rest) = content.split_at(at as usize);
    fid_in(rest, size)
}

/// Whether a content is whole: the scan passes whole FIDs alone and reaches the content's end. Takes no memory.
pub fn is_whole(content: &[u8], size: u32) -> bool
    ensures { IsTrue result ↔ IsWholeContent size content.now }
{
    let mut rest = content;
    while let Some(fid) = fid_in(rest, size) {
        let (_, after) = rest.split_at(fid.bytes().len());
        rest = after;
    }
    rest.is_empty()
}
