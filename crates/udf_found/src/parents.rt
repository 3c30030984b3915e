// What the parent FIDs of a directory's content tell.
ghost use Rattle.std.specs.Prelude.{◌≡◌};
ghost use Rattle.std.specs.List.{filter, list_all};
ghost use Rattle.udf_file_model.specs.Fid.{is_parent};
ghost use Rattle.udf_file_model.specs.Scan.{fids, fids_of};
ghost use Rattle.udf_tree_model.specs.Frame.{parent_length};
ghost use Rattle.udf_found.specs.Parents.{alone, is_lawful, is_lawful_kind, more_named, one_of, only_parent};

use udf_dir::{Fid, is_whole, scan};
use udf_field::Addr;

// The bytes of a parent FID without a name (ECMA-167 4/14.4).
const FRESH_BYTES: u64 = 40;

/// The parent FIDs of a content.
#[derive(Clone, Copy, Debug, PartialEq, Eq)]
pub struct ParentFids {
    /// The bytes of the first, or of a fresh one where there is none.
    pub bytes: u64,
    /// Where FIDs stand one after another to the content's end, each deleted, live or a parent FID, and one of them is a parent
    /// FID: the address that it names.
    pub only: Option<Addr>,
}

// The addresses that parent FIDs name.
#[derive(Clone, Copy, Debug, PartialEq, Eq)]
enum Named {
    Nothing,
    One(Addr),
    Several,
}

// The bytes of the first parent FID of a content, or of a fresh one.
#[tactic(auto, using(crate::proofs::Alone::first_here, crate::proofs::Alone::first_later, crate::proofs::Alone::first_nowhere))]
fn first_bytes(content: &[u8], size: u32) -> u64
    ensures { result ≡ parent_length (fids_of (fids size content.now)) }
{
    for (_, fid) in scan(content, size) {
        if fid.is_parent() {
            return fid.bytes().len() as u64;
        }
    }
    FRESH_BYTES
}

// Whether a FID is deleted, live or a parent FID.
fn is_lawful_kind(fid: &Fid<'_>) -> bool
    ensures { result ≡ is_lawful_kind fid.now }
{
    fid.is_deleted() || fid.is_live() || fid.is_parent()
}

// Whether each FID of a content is deleted, live or a parent FID.
#[tactic(auto, using(crate::proofs::Alone::kind_here, crate::proofs::Alone::kind_later, crate::proofs::Alone::kind_end))]
fn are_lawful_kinds(content: &[u8], size: u32) -> bool
    ensures { result ≡ list_all is_lawful_kind (fids_of (fids size content.now)) }
{
    for (_, fid) in scan(content, size) {
        if !is_lawful_kind(&fid) {
            return false;
        }
    }
    true
}

// What is named with one FID more.
#[tactic(auto, unfolding(crate::specs::Parents::more_named))]
fn more(named: Named, fid: &Fid<'_>) -> Named
    ensures { result ≡ more_named named fid.now }
{
    if !fid.is_parent() {
        return named;
    }
    match named {
        Named::Nothing => Named::One(fid.target().at),
        Named::One(_) | Named::Several => Named::Several,
    }
}

// The address that is named alone.
fn one_of(named: Named) -> Option<Addr>
    ensures { result ≡ one_of named }
{
    match named {
        Named::One(at) => Some(at),
        Named::Nothing | Named::Several => None,
    }
}

// The address that the parent FID of a content names, where there is one such FID.
fn alone(content: &[u8], size: u32) -> Option<Addr>
    ensures { result ≡ alone (filter is_parent (fids_of (fids size content.now))) }
{
    let mut named = Named::Nothing;
    for (_, fid) in scan(content, size) {
        named = more(named, &fid);
    }
    one_of(named)
}

// Whether FIDs stand one after another to the content's end, each deleted, live or a parent FID.
#[tactic(auto, using(crate::proofs::Alone::whole_kinds, crate::proofs::Alone::not_whole))]
fn is_lawful(content: &[u8], size: u32) -> bool
    ensures { result ≡ is_lawful size content.now }
{
    if !is_whole(content, size) {
        return false;
    }
    are_lawful_kinds(content, size)
}

// The address that the one parent FID of a lawful content names.
#[tactic(auto, unfolding(crate::specs::Parents::only_parent))]
fn only_parent(content: &[u8], size: u32) -> Option<Addr>
    ensures { result ≡ only_parent size content.now }
{
    if is_lawful(content, size) {
        alone(content, size)
    } else {
        None
    }
}

/// What the parent FIDs of a content at blocks of `size` bytes tell.
pub fn parent_fids(content: &[u8], size: u32) -> ParentFids
    ensures bytes { result.bytes ≡ parent_length (fids_of (fids size content.now)) }
    ensures only { result.only ≡ only_parent size content.now }
{
    ParentFids {
        bytes: first_bytes(content, size),
        only: only_parent(content, size),
    }
}
