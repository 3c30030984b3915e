// The pieces of a list, in order.
ghost use Rattle.std.specs.Prelude.{◌≡◌, ◌++◌, ◌∷◌, List as Listed, IfOk, OnOk, drop, map};
ghost use Rattle.udf_entry.specs.RunView.{run_seen};
ghost use Rattle.udf_file_model.specs.Descriptors.{Descriptor};
ghost use Rattle.udf_file_model.specs.Pieces.{Extent};
ghost use Rattle.udf_found.specs.Merged.{extents_after, extents_until, merged};
ghost use Rattle.udf_found.specs.Shape.{pieces_seen};

use std::alloc::{AllocError, Global};
use udf_entry::{List, Run};
use udf_field::Addr;

/// A piece of a list: an allocation extent (ECMA-167 4/14.5), before what it continues, or a descriptor of blocks or of a hole.
#[derive(Clone, Copy, Debug, PartialEq, Eq)]
pub enum Piece {
    Extent(Addr),
    Blocks(Run),
}

// Appends the allocation extents of a list from one on, up to that at an address, and answers the number of the next.
fn add_until(
    pieces: &mut Vec<Piece>,
    list: &List,
    next: u32,
    holder: Addr,
) -> Result<u32, AllocError>
    ensures pieces { OnOk result (pieces_seen pieces.new.items ≡ pieces_seen pieces.old.items ++ map Extent (extents_until holder (drop next list.now.extents))) }
    ensures next { IfOk result (λ n. drop n list.now.extents ≡ extents_after holder (drop next list.now.extents)) }
{
    for i in next..list.extents() {
        let extent = list.extent(i);
        pieces.push(Piece::Extent(extent))?;
        if holder == extent {
            return Ok(i + 1);
        }
    }
    Ok(list.extents())
}

// Appends the allocation extents of a list from one on.
fn add_rest(pieces: &mut Vec<Piece>, list: &List, next: u32) -> Result<(), AllocError>
    ensures { OnOk result (pieces_seen pieces.new.items ≡ pieces_seen pieces.old.items ++ map Extent (drop next list.now.extents)) }
{
    for i in next..list.extents() {
        pieces.push(Piece::Extent(list.extent(i)))?;
    }
    Ok(())
}

// Appends a run, after the allocation extents from one on up to that which holds it, where the run before has another holder;
// answers the number of the next.
fn add_run(
    pieces: &mut Vec<Piece>,
    list: &List,
    next: u32,
    holder: Addr,
    run: Run,
) -> Result<u32, AllocError>
    ensures { IfOk result (λ n. (rest : Listed Descriptor) → pieces_seen pieces.new.items ++ merged run.holder (drop n list.now.extents) rest
        ≡ pieces_seen pieces.old.items ++ merged holder (drop next list.now.extents) (run_seen run ∷ rest)) }
{
    if run.holder == holder {
        pieces.push(Piece::Blocks(run))?;
        return Ok(next);
    }
    let after = add_until(pieces, list, next, run.holder)?;
    pieces.push(Piece::Blocks(run))?;
    Ok(after)
}

/// The pieces of the list of an entry at an address, by what holds each run.
pub(crate) fn pieces_of(alloc: Global, own: Addr, list: &List) -> Result<Vec<Piece>, AllocError>
    ensures { IfOk result (λ pieces. pieces_seen pieces.items ≡ merged own list.now.extents list.now.runs) }
{
    let many = list.len().saturating_add(list.extents() as u64);
    let mut pieces = Vec::with_capacity(alloc, many as usize)?;
    let mut holder = own;
    let mut next = 0;
    for i in 0..list.len() {
        let run = list.run(i);
        next = add_run(&mut pieces, list, next, holder, run)?;
        holder = run.holder;
    }
    add_rest(&mut pieces, list, next)?;
    Ok(pieces)
}
