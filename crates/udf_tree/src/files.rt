// How many FIDs of ordinary directories name files (UDF 2.2.6.4).
ghost use Rattle.std.specs.Prelude.{◌≡◌, ◌+◌, ℕ, List, IfOk, count_by};
ghost use Rattle.udf_field.specs.declared.address.Addr.{Addr};
ghost use Rattle.udf_file_model.specs.Listing.{Volume};
ghost use Rattle.udf_tree_model.specs.Frame.{Frame};
ghost use Rattle.udf_tree_model.specs.Ordinary.{files_named};
ghost use Rattle.udf_tree.specs.Files.{files_seen, is_directory_in, is_of_file};
ghost use Rattle.udf_tree.specs.Nodes.{AreSurveyed};

use crate::nodes::is_ordinary;
use std::alloc::AllocError;
use udf_contents::fitted_at;
use udf_held::Held;
use udf_kept::{Entries, Fitted};

/// The least place of a FID; a pointer has the place 0.
const FIRST_FID: u64 = 1;

// Whether a directory with a block of its own stands at an index.
fn is_directory(held: &[Held], i: usize) -> bool
    ensures { result ≡ is_directory_in held.now i }
{
    i < held.len() && held[i].directory && held[i].shape.is_some()
}

// Whether a fitted link is a FID that names a file.
fn names_file(held: &[Held], link: Fitted) -> bool
    ensures { result ≡ is_of_file held.now link }
{
    FIRST_FID <= link.place && !is_directory(held, link.to)
}

// How many of fitted links are such.
fn files_among(held: &[Held], fitted: &[Fitted]) -> u64
    ensures { result ≡ count_by (is_of_file held.now) fitted.now }
{
    let mut files = 0;
    for link in fitted {
        if names_file(held, *link) {
            files += 1;
        }
    }
    files
}

// How many the entry at an index has, where it is an ordinary directory.
fn files_at(entries: &Entries, i: usize) -> u64
    ensures { result ≡ files_seen entries.now i }
{
    if is_ordinary(&entries.ordinary, i) && is_directory(&entries.held, i) {
        files_among(&entries.held, fitted_at(&entries.selected, i))
    } else {
        0
    }
}

// A sum; want of memory where it would have more than 64 bits.
fn sum(files: u64, more: u64) -> Result<u64, AllocError>
    ensures { IfOk result (λ all. all ≡ files + more) }
{
    match files.checked_add(more) {
        Some(all) => Ok(all),
        None => Err(AllocError),
    }
}

/// How many FIDs of ordinary directories name entries that are no directories; want of memory where these are 2^64 or more.
pub(crate) fn files_of(entries: &Entries) -> Result<u64, AllocError>
    ensures { (f : Frame) (v : Volume) (root file_set : Addr) (links ids : List ℕ) → AreSurveyed f v root file_set entries.now links ids → IfOk result (λ files. files ≡ files_named f v) }
{
    let mut files = 0;
    for i in 0..entries.held.len() {
        files = sum(files, files_at(entries, i))?;
    }
    Ok(files)
}
