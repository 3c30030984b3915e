// What kept entries claim after their mends.
ghost use Rattle.std.specs.Prelude.{◌≡◌, ◌<◌, if◌then◌else◌, OnOk, IfOk, Some, length, slice_get};
ghost use Rattle.udf_field.specs.declared.address.Addr.{Addr};
ghost use Rattle.udf_file_model.specs.Cut.{cut_pieces};
ghost use Rattle.udf_file_model.specs.Entry.{Entry};
ghost use Rattle.udf_file_model.specs.Listing.{Volume};
ghost use Rattle.udf_tree_model.specs.Claimed as model;
ghost use Rattle.udf_tree_model.specs.Frame.{Frame, setting_of, tree_of};
ghost use Rattle.udf_tree_model.specs.Laws.{HasSoundStarts};
ghost use Rattle.udf_held.specs.declared.held.Held.{Held};
ghost use Rattle.udf_contents.specs.After.{Adds, AddsPiece, IsMending, IsTold, TellsTaken, claims_kept, has_address, some_claims};
ghost use Rattle.udf_found.specs.Beyond.{HoldsFileSet};
ghost use Rattle.udf_contents.specs.Contents.{AreContents};
ghost use Rattle.udf_held.specs.Held.{AreHeldOf};
ghost use Rattle.udf_kept.specs.Keeping.{AreKept};
ghost use Rattle.udf_found.specs.Shape.{piece_seen, pieces_seen};
ghost use Rattle.udf_volume.specs.Fixed.{stretches_over};

use crate::allocation::allocation_holds;
use crate::contents::MendedContent;
use std::alloc::{AllocError, Global};
use udf_claims::Claims;
use udf_entry::Run;
use udf_field::Addr;
use udf_found::{Piece, Shape};
use udf_held::{Held, add_extents, add_fixed, add_run, add_runs, add_want, owner_of};
use udf_kept::Keeping;
use udf_layer::Parts;
use udf_volume::Stretch;

// The class of the claims of kept entries: it is asked which blocks are claimed, not who wins them, so one serves.
const KEPT: u8 = 1;

// Adds the claims of a whole list.
fn add_list<P: Parts>(
    claims: &mut Claims,
    parts: &P,
    size: u32,
    owner: u64,
    pieces: &[Piece],
) -> Result<(), AllocError>
    requires { 0 < size }
    ensures { OnOk result (Adds (P.blocks parts.now) claims.old claims.new (has_address size (pieces_seen pieces.now))) }
{
    add_extents(claims, parts, owner, KEPT, pieces)?;
    add_runs(claims, parts, size, owner, KEPT, pieces)
}

// Adds the claims of a piece of a list of which so many bytes are left, or of its front, and answers how many are left after it.
fn add_piece<P: Parts>(
    claims: &mut Claims,
    parts: &P,
    size: u32,
    owner: u64,
    piece: &Piece,
    left: u64,
) -> Result<u64, AllocError>
    requires size { 0 < size }
    requires left { 0 < left }
    ensures { IfOk result (λ after. AddsPiece (P.blocks parts.now) size claims.old claims.new left after (piece_seen piece.now)) }
{
    match piece {
        Piece::Extent(at) => {
            add_want(claims, parts, owner, KEPT, *at, 1)?;
            Ok(left)
        }
        Piece::Blocks(run) => {
            let length = left.min(run.length as u64) as u32;
            add_run(claims, parts, size, owner, KEPT, Run { length, ..*run })?;
            Ok(left - length as u64)
        }
    }
}

// Adds the claims of the front of a list with so many bytes.
fn add_front<P: Parts>(
    claims: &mut Claims,
    parts: &P,
    size: u32,
    owner: u64,
    pieces: &[Piece],
    bytes: u64,
) -> Result<(), AllocError>
    requires { 0 < size }
    ensures { OnOk result (Adds (P.blocks parts.now) claims.old claims.new (has_address size (cut_pieces bytes (pieces_seen pieces.now)))) }
{
    let mut left = bytes;
    for piece in pieces {
        if left == 0 {
            return Ok(());
        }
        left = add_piece(claims, parts, size, owner, piece, left)?;
    }
    Ok(())
}

// Whether the mend of a kept entry leaves its list as it is: the rule on allocation holds of it, and its content stays.
fn list_stays(held: &Held, shape: &Shape, content: &Option<MendedContent>) -> bool
    ensures { (f : Frame) (v : Volume) (e : Entry) → IsMending f v held.now e shape.now content.now
        → result ≡ model.list_stays f v held.now.at e }
{
    match content {
        Some(_) => false,
        None => allocation_holds(held, shape),
    }
}

// The bytes of content that an entry states: of a directory those that were read.
fn stated_length(shape: &Shape) -> u64
    ensures { result ≡ (if shape.now.directory then shape.now.content else shape.now.information) }
{
    if shape.directory {
        shape.content
    } else {
        shape.information
    }
}

// The bytes of content that the mend of a kept entry leaves.
fn mended_length(held: &Held, shape: &Shape, content: &Option<MendedContent>) -> u64
    ensures { (f : Frame) (v : Volume) (e : Entry) → 0 < v.size → IsMending f v held.now e shape.now content.now
        → result ≡ model.mended_length f v held.now.at e }
{
    match content {
        Some(new) => new.bytes.len() as u64,
        None => held.kept.min(stated_length(shape)),
    }
}

// Adds the claims of a kept entry with a shape after its mend: its own block, and the list that the mend leaves.
fn add_mended<P: Parts>(
    claims: &mut Claims,
    parts: &P,
    size: u32,
    held: &Held,
    shape: &Shape,
    content: &Option<MendedContent>,
) -> Result<(), AllocError>
    requires { 0 < size }
    ensures { (f : Frame) (v : Volume) (e : Entry) → v.size ≡ size → IsMending f v held.now e shape.now content.now
        → OnOk result (Adds (P.blocks parts.now) claims.old claims.new (model.claims f v held.now.at)) }
{
    let owner = owner_of(held.at);
    add_want(claims, parts, owner, KEPT, held.at, 1)?;
    if list_stays(held, shape, content) {
        add_list(claims, parts, size, owner, &shape.pieces)
    } else {
        let bytes = mended_length(held, shape, content);
        add_front(claims, parts, size, owner, &shape.pieces, bytes)
    }
}

// Adds the claims of a held entry, where it is kept; the holder of the pointer to the system stream directory has none.
fn add_kept<P: Parts>(
    claims: &mut Claims,
    parts: &P,
    size: u32,
    held: &Held,
    kept: Option<Keeping>,
    content: &Option<MendedContent>,
) -> Result<(), AllocError>
    requires { 0 < size }
    ensures { (f : Frame) (v : Volume) → v.size ≡ size → HoldsFileSet f v → IsTold f v held.now kept content.now
        → OnOk result (Adds (P.blocks parts.now) claims.old claims.new (claims_kept f v held.now.at)) }
{
    if kept.is_none() {
        return Ok(());
    }
    match &held.shape {
        Some(shape) => add_mended(claims, parts, size, held, shape, content),
        None => Ok(()),
    }
}

// Adds the claims of the held entry at an index, where it is kept.
fn add_at<P: Parts>(
    claims: &mut Claims,
    parts: &P,
    size: u32,
    held: &[Held],
    kept: &[Option<Keeping>],
    contents: &[Option<MendedContent>],
    i: usize,
) -> Result<(), AllocError>
    requires size { 0 < size }
    requires index { i < length held.now }
    ensures { (f : Frame) (v : Volume) → v.size ≡ size → HoldsFileSet f v → AreHeldOf f v held.now → AreKept (setting_of f v) (tree_of f v) held.now kept.now → AreContents f v held.now kept.now contents.now
        → (h : Held) → slice_get held.now i ≡ Some h → OnOk result (Adds (P.blocks parts.now) claims.old claims.new (claims_kept f v h.at)) }
{
    let Some(kept) = kept.get(i) else {
        return Ok(());
    };
    let Some(content) = contents.get(i) else {
        return Ok(());
    };
    add_kept(claims, parts, size, &held[i], *kept, content)
}

// Adds the claims of the held entries that are kept.
fn add_all<P: Parts>(
    claims: &mut Claims,
    parts: &P,
    size: u32,
    held: &[Held],
    kept: &[Option<Keeping>],
    contents: &[Option<MendedContent>],
) -> Result<(), AllocError>
    requires { 0 < size }
    ensures { (f : Frame) (v : Volume) → v.size ≡ size → HoldsFileSet f v → AreHeldOf f v held.now → AreKept (setting_of f v) (tree_of f v) held.now kept.now → AreContents f v held.now kept.now contents.now
        → OnOk result (Adds (P.blocks parts.now) claims.old claims.new (some_claims f v held.now)) }
{
    for i in 0..held.len() {
        add_at(claims, parts, size, held, kept, contents, i)?;
    }
    Ok(())
}

/// The claims of kept entries after their mends at blocks of `size` bytes, with the fixed addresses: of each entry its own block and
/// the blocks and allocation extents of the list that its mend leaves. Nothing is read. Takes n log n in the runs.
pub fn claims_after<P: Parts>(
    alloc: Global,
    parts: &P,
    size: u32,
    fixed: &[Stretch],
    held: &[Held],
    kept: &[Option<Keeping>],
    contents: &[Option<MendedContent>],
) -> Result<Claims, AllocError>
    requires { 0 < size }
    ensures { (f : Frame) (v : Volume) → ((a : Addr) → f.fixed a ≡ stretches_over fixed.now a) → v.size ≡ size → v.place ≡ P.place parts.now
        → HoldsFileSet f v → HasSoundStarts (setting_of f v) (tree_of f v) → AreHeldOf f v held.now → AreKept (setting_of f v) (tree_of f v) held.now kept.now
        → AreContents f v held.now kept.now contents.now → IfOk result (TellsTaken f v) }
{
    let mut claims = Claims::new(alloc);
    add_fixed(&mut claims, parts, fixed)?;
    add_all(&mut claims, parts, size, held, kept, contents)?;
    Ok(claims)
}
