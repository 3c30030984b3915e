// The FIDs of a content, one by one.
ghost use Rattle.udf_dir.specs.First.{IsFirst};

use crate::Fid;
use crate::fid::fid_in;
use std::marker::Model;

/// The FIDs of a content that a scan has still to yield, seen as the list of them, each with its offset.
#[derive(Drop)]
pub struct Scan<'a> {
    pub(crate) rest: &'a [u8],
    pub(crate) at: usize,
    pub(crate) size: u32,
}

impl<'a> Model for Scan<'a> {
    ghost use Rattle.std.specs.Prelude.{ℕ, List, ◌+◌, ◌≤◌, ◌^◌, length};
    ghost use Rattle.udf_file_model.specs.Scan.{Placed, fids_from};

    ghost Value = { List Placed };

    ghost view = { λ scan. fids_from scan.size scan.at 0 scan.rest.now };

    ghost invariant = { λ scan. scan.at + length scan.rest.now ≤ 2 ^ 63 };
}

impl<'a> Iterator for Scan<'a> {
    type Item = (u64, Fid<'a>);

    ghost use Rattle.std.specs.Iterator.{YieldsFirst, item_count};

    ghost next_gives = { YieldsFirst (λ left. left) };

    ghost remaining = { item_count (λ left. left) };

    fn next(&mut self) -> Option<(u64, Fid<'a>)> {
        let Some((skipped, fid)) = first_fid(self.rest, self.size) else {
            self.rest = &[];
            return None;
        };
        let at = self.at + skipped;
        let passed = skipped + fid.bytes().len();
        self.at += passed;
        let (_, rest) = self.rest.split_at(passed);
        self.rest = rest;
        Some((at as u64, fid))
    }
}

// The first FID in some bytes, and how many bytes come before it.
fn first_fid(bytes: &[u8], size: u32) -> Option<(usize, Fid<'_>)>
    ensures { IsFirst size bytes.now result }
{
    let mut at = 0;
    while at < bytes.len() {
        let (_, rest) = bytes.split_at(at);
        if let Some(fid) = fid_in(rest, size) {
            return Some((at, fid));
        }
        at += 4;
    }
    None
}
