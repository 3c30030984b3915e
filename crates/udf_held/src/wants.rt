// What an entry wants of a volume's blocks.
ghost use Rattle.std.specs.Prelude.{◌≡◌, ◌++◌, ◌∷◌, [], ◌<◌, OnOk, Some};
ghost use Rattle.udf_field.specs.declared.address.Addr.{Addr};
ghost use Rattle.udf_claims.specs.Winner.{number};
ghost use Rattle.udf_file_model.specs.Entry.{Entry, is_directory};
ghost use Rattle.udf_file_model.specs.Front.{blocks_for};
ghost use Rattle.udf_file_model.specs.Listing.{Volume};
ghost use Rattle.udf_file_model.specs.Pieces.{extents_of, runs_of};
ghost use Rattle.udf_tree_model.specs.Frame.{Frame, block_class, entry_at, extent_class};
ghost use Rattle.udf_entry.specs.RunView.{run_seen};
ghost use Rattle.udf_found.specs.Shape.{IsShape, piece_seen, pieces_seen};
ghost use Rattle.udf_found.specs.Wanted.{extent_wants, fixed_wants, run_want, run_wants, want, wants_at};

use std::alloc::AllocError;
use udf_claims::Claims;
use udf_entry::Run;
use udf_field::Addr;
use udf_found::{Piece, Shape};
use udf_layer::Parts;
use udf_volume::Stretch;

// How strong a want is: a lower class is stronger. Of the root its whole list is of the class ROOT.
const FIXED: u8 = 0;

const OWN_BLOCK: u8 = 1;

const ROOT: u8 = 2;

const EXTENT: u8 = 3;

const DIRECTORY: u8 = 4;

const FILE: u8 = 5;

// The owner of the fixed addresses: one more than the greatest number of an address.
const FIXED_OWNER: u64 = 0x1_0000_0000_0000;

// The kind of a descriptor of a hole (ECMA-167 4/14.14.1.1).
pub(crate) const HOLE: u8 = 2;

// The blocks of a part: one for each block number.
const BLOCKS: u64 = 0x1_0000_0000;

/// The number by which an entry at an address is known as an owner.
pub fn owner_of(at: Addr) -> u64
    ensures { result ≡ number at }
{
    at.part as u64 * BLOCKS + at.block as u64
}

// The blocks that so many bytes take.
pub(crate) fn blocks_of(size: u32, bytes: u32) -> u32
    requires { 0 < size }
    ensures { result ≡ blocks_for size bytes }
{
    ((bytes as u64 + (size - 1) as u64) / size as u64) as u32
}

// The class of the allocation extents of an entry.
#[tactic(auto, unfolding(udf_tree_model::specs::Frame::extent_class))]
fn extent_class(root: Addr, at: Addr) -> u8
    ensures { (f : Frame) → f.root ≡ root → result ≡ extent_class f at }
{
    if at == root { ROOT } else { EXTENT }
}

// The class of the blocks of an entry.
#[tactic(auto, unfolding(udf_tree_model::specs::Frame::block_class))]
fn block_class(root: Addr, at: Addr, directory: bool) -> u8
    ensures { (f : Frame) (e : Entry) → f.root ≡ root → is_directory e ≡ directory → result ≡ block_class f at e }
{
    if at == root {
        ROOT
    } else if directory {
        DIRECTORY
    } else {
        FILE
    }
}

/// Adds an owner's want of so many blocks from an address on, as far as its part has blocks.
pub fn add_want<P: Parts>(
    claims: &mut Claims,
    parts: &P,
    owner: u64,
    class: u8,
    at: Addr,
    many: u32,
) -> Result<(), AllocError>
    ensures { OnOk result (claims.new ≡ claims.old ++ want (P.blocks parts.now) owner class at many ∷ []) }
{
    let left = parts.blocks(at.part).saturating_sub(at.block);
    claims.add(owner, at, many.min(left), class)
}

// Adds an owner's want of a piece that is an allocation extent.
fn add_extent<P: Parts>(
    claims: &mut Claims,
    parts: &P,
    owner: u64,
    class: u8,
    piece: &Piece,
) -> Result<(), AllocError>
    ensures { OnOk result (claims.new ≡ claims.old ++ extent_wants (P.blocks parts.now) owner class (extents_of (piece_seen piece.now ∷ []))) }
{
    match piece {
        Piece::Extent(at) => add_want(claims, parts, owner, class, *at, 1),
        Piece::Blocks(_) => Ok(()),
    }
}

/// Adds an owner's wants of the allocation extents of its list.
pub fn add_extents<P: Parts>(
    claims: &mut Claims,
    parts: &P,
    owner: u64,
    class: u8,
    pieces: &[Piece],
) -> Result<(), AllocError>
    ensures { OnOk result (claims.new ≡ claims.old ++ extent_wants (P.blocks parts.now) owner class (extents_of (pieces_seen pieces.now))) }
{
    for piece in pieces {
        add_extent(claims, parts, owner, class, piece)?;
    }
    Ok(())
}

/// Adds an owner's wants of a run's blocks; a hole has none.
#[tactic(auto, unfolding(udf_found::specs::Wanted::run_want), using(udf_found::proofs::Wanting::nothing_more))]
pub fn add_run<P: Parts>(
    claims: &mut Claims,
    parts: &P,
    size: u32,
    owner: u64,
    class: u8,
    run: Run,
) -> Result<(), AllocError>
    requires { 0 < size }
    ensures { OnOk result (claims.new ≡ claims.old ++ run_want (P.blocks parts.now) size owner class (run_seen run)) }
{
    if run.kind == HOLE {
        return Ok(());
    }
    add_want(
        claims,
        parts,
        owner,
        class,
        run.at,
        blocks_of(size, run.length),
    )
}

// Adds an owner's want of the blocks of a piece that is a run.
fn add_blocks<P: Parts>(
    claims: &mut Claims,
    parts: &P,
    size: u32,
    owner: u64,
    class: u8,
    piece: &Piece,
) -> Result<(), AllocError>
    requires { 0 < size }
    ensures { OnOk result (claims.new ≡ claims.old ++ run_wants (P.blocks parts.now) size owner class (runs_of (piece_seen piece.now ∷ []))) }
{
    match piece {
        Piece::Extent(_) => Ok(()),
        Piece::Blocks(run) => add_run(claims, parts, size, owner, class, *run),
    }
}

/// Adds an owner's wants of the blocks of its list.
pub fn add_runs<P: Parts>(
    claims: &mut Claims,
    parts: &P,
    size: u32,
    owner: u64,
    class: u8,
    pieces: &[Piece],
) -> Result<(), AllocError>
    requires { 0 < size }
    ensures { OnOk result (claims.new ≡ claims.old ++ run_wants (P.blocks parts.now) size owner class (runs_of (pieces_seen pieces.now))) }
{
    for piece in pieces {
        add_blocks(claims, parts, size, owner, class, piece)?;
    }
    Ok(())
}

/// Adds the fixed addresses, which no entry wins.
pub fn add_fixed<P: Parts>(
    claims: &mut Claims,
    parts: &P,
    fixed: &[Stretch],
) -> Result<(), AllocError>
    ensures { OnOk result (claims.new ≡ claims.old ++ fixed_wants (P.blocks parts.now) fixed.now) }
{
    for stretch in fixed {
        add_want(
            claims,
            parts,
            FIXED_OWNER,
            FIXED,
            stretch.at,
            stretch.blocks,
        )?;
    }
    Ok(())
}

/// Adds what the entry of a shape at an address wants.
pub(crate) fn add_wants<P: Parts>(
    claims: &mut Claims,
    parts: &P,
    size: u32,
    root: Addr,
    at: Addr,
    shape: &Shape,
) -> Result<(), AllocError>
    requires { 0 < size }
    ensures { (f : Frame) (v : Volume) (e : Entry) → f.root ≡ root → v.size ≡ size → entry_at v at ≡ Some e → IsShape v at e shape.now
        → OnOk result (claims.new ≡ claims.old ++ wants_at (P.blocks parts.now) f v at) }
{
    let owner = owner_of(at);
    let class = block_class(root, at, shape.directory);
    add_want(claims, parts, owner, OWN_BLOCK, at, 1)?;
    add_extents(claims, parts, owner, extent_class(root, at), &shape.pieces)?;
    add_runs(claims, parts, size, owner, class, &shape.pieces)
}
