// How much of found entries is kept, and which are sound.
ghost use Rattle.std.specs.Prelude.{◌≡◌, ◌<◌, ◌≤◌, ◌+◌, ◌^◌, ◌∷◌, [], ◌&&◌, ◌||◌, not, min, nat_le, ℕ, true, false, IfOk};
ghost use Rattle.udf_field.specs.declared.address.Addr.{Addr};
ghost use Rattle.udf_claims.specs.Winner as winner;
ghost use Rattle.udf_file_model.specs.Address.{addr, same_addr};
ghost use Rattle.udf_file_model.specs.Entry.{Entry};
ghost use Rattle.udf_file_model.specs.Listing.{Volume, addresses, list_for};
ghost use Rattle.udf_file_model.specs.Pieces.{Blocks, runs_of, size_of};
ghost use Rattle.udf_entry.specs.RunView.{run_seen};
ghost use Rattle.udf_tree_model.specs.Found.{found};
ghost use Rattle.udf_tree_model.specs.Frame.{Frame, is_first, items, items_of, run_items, setting_of, tree_of};
ghost use Rattle.udf_found.specs.Seen.{AreRead, spots};
ghost use Rattle.udf_found.specs.Shape.{IsShape, IsShaped, piece_seen, pieces_seen};
ghost use Rattle.udf_found.specs.Spot.{IsFoundList};
ghost use Rattle.udf_held.specs.Standing.{AreBelow, AreStanding, IsFront, IsStanding, is_bar, piece_items, stands};
ghost use Rattle.udf_held.specs.Winners.{TellsWinners};

use crate::wants::{HOLE, blocks_of, owner_of};
use std::alloc::{AllocError, Global};
use udf_claims::Claims;
use udf_entry::Run;
use udf_field::Addr;
use udf_found::{Arena, Found, Piece, Shape};
use udf_layer::Parts;

// The least bytes of a directory's content: those of a parent FID (ECMA-167 4/14.4).
const PARENT_BYTES: u64 = 40;

/// How a found entry stands among all that want blocks.
#[derive(Clone, Copy, Debug, PartialEq, Eq)]
pub struct Standing {
    /// The bytes of its content that it keeps: those before the first block or allocation extent that it does not win.
    pub kept: u64,
    /// Whether it wins each block and allocation extent of its list.
    pub whole: bool,
    /// Whether it wins its own block and, if it is a directory, keeps room for a parent FID.
    pub sound: bool,
}

// What is kept of a piece or a list: its bytes before the first block that is lost, and whether none is.
#[derive(Clone, Copy, Debug, PartialEq, Eq)]
struct Front {
    pub bytes: u64,
    pub whole: bool,
}

fn wins(claims: &Claims, owner: u64, at: Addr) -> bool
    ensures { result ≡ winner.wins claims.now owner at }
{
    match claims.winner(at) {
        Some(winner) => winner == owner,
        None => false,
    }
}

// How many of so many blocks from an address on stand before the barred one.
fn before_bar(bar: Option<Addr>, at: Addr, many: u32) -> u32
    ensures within { result ≤ many }
    ensures free { (k : ℕ) → k < result → is_bar bar (addr at.part (at.block + k)) ≡ false }
    ensures bar { result < many → is_bar bar (addr at.part (at.block + result)) ≡ true }
{
    match bar {
        Some(bar) => {
            if bar.part == at.part && at.block <= bar.block && bar.block - at.block < many {
                bar.block - at.block
            } else {
                many
            }
        }
        None => many,
    }
}

// How many of so many blocks from an address on the owner wins, before the first that it does not.
#[tactic(auto, unfolding(udf_claims::specs::Winner::wins_block))]
fn won_blocks(claims: &Claims, owner: u64, at: Addr, many: u32) -> u32
    requires { at.block + many < 2 ^ 32 }
    ensures within { result ≤ many }
    ensures won { (k : ℕ) → k < result → winner.wins claims.now owner (addr at.part (at.block + k)) ≡ true }
    ensures lost { result < many → winner.wins claims.now owner (addr at.part (at.block + result)) ≡ false }
{
    match claims.lost(owner, at, many) {
        Some(lost) => lost,
        None => many,
    }
}

// What is kept of a run.
fn run_front<P: Parts>(
    claims: &Claims,
    parts: &P,
    size: u32,
    owner: u64,
    bar: Option<Addr>,
    run: Run,
) -> Front
    requires { 0 < size }
    ensures { (class : ℕ) → AreBelow (P.blocks parts.now) (addresses size (Blocks (run_seen run) ∷ []))
        → IsFront (stands claims.now owner) (run_items size class (is_bar bar) (run_seen run)) result }
{
    if run.kind == HOLE {
        return Front {
            bytes: run.length as u64,
            whole: true,
        };
    }
    let blocks = blocks_of(size, run.length);
    let left = parts.blocks(run.at.part).saturating_sub(run.at.block);
    let many = before_bar(bar, run.at, blocks.min(left));
    let won = won_blocks(claims, owner, run.at, many);
    Front {
        bytes: (won as u64 * size as u64).min(run.length as u64),
        whole: won == blocks,
    }
}

// What is kept of a piece.
fn piece_front<P: Parts>(
    claims: &Claims,
    parts: &P,
    size: u32,
    owner: u64,
    bar: Option<Addr>,
    piece: &Piece,
) -> Front
    requires { 0 < size }
    ensures { (extents class : ℕ) → AreBelow (P.blocks parts.now) (addresses size (piece_seen piece.now ∷ []))
        → IsFront (stands claims.now owner) (piece_items size extents class (is_bar bar) (piece_seen piece.now)) result }
{
    match piece {
        Piece::Extent(at) => Front {
            bytes: 0,
            whole: wins(claims, owner, *at),
        },
        Piece::Blocks(run) => run_front(claims, parts, size, owner, bar, *run),
    }
}

// What is kept of a list: its bytes before the first block or allocation extent that the owner does not win, or that is barred.
fn list_front<P: Parts>(
    claims: &Claims,
    parts: &P,
    size: u32,
    owner: u64,
    bar: Option<Addr>,
    pieces: &[Piece],
) -> Front
    requires { 0 < size }
    ensures { (extents class : ℕ) → AreBelow (P.blocks parts.now) (addresses size (pieces_seen pieces.now)) → size_of (pieces_seen pieces.now) < 2 ^ 63
        → IsFront (stands claims.now owner) (items size extents class (is_bar bar) (pieces_seen pieces.now)) result }
{
    let mut kept: u64 = 0;
    for piece in pieces {
        let front = piece_front(claims, parts, size, owner, bar, piece);
        kept = kept.saturating_add(front.bytes);
        if !front.whole {
            return Front {
                bytes: kept,
                whole: false,
            };
        }
    }
    Front {
        bytes: kept,
        whole: true,
    }
}

// Whether the first run of a list begins at an address.
fn begins_at(pieces: &[Piece], at: Addr) -> bool
    ensures { result ≡ is_first (runs_of (pieces_seen pieces.now)) at }
{
    for piece in pieces {
        if let Piece::Blocks(run) = piece {
            return run.at == at;
        }
    }
    false
}

// The address after the file set, where the entry may not win it: a directory wins it only where its list begins there.
fn bar_of(after: Addr, shape: &Shape) -> Option<Addr>
    ensures { (x : Addr) → is_bar result x ≡ (shape.now.directory && (same_addr x after && not (is_first (runs_of (pieces_seen shape.now.pieces.items)) x))) }
{
    if !shape.directory || begins_at(&shape.pieces, after) {
        None
    } else {
        Some(after)
    }
}

// What the owner of a shape keeps of its content; an embedded one takes no block, so it is whole.
fn shape_front<P: Parts>(
    claims: &Claims,
    parts: &P,
    size: u32,
    owner: u64,
    after: Addr,
    shape: &Shape,
) -> Front
    requires { 0 < size }
    ensures { (f : Frame) (v : Volume) (a : Addr) (e : Entry) → f.after ≡ after → v.size ≡ size → v.place ≡ P.place parts.now → IsShape v a e shape.now
        → IsFront (stands claims.now owner) (items_of f v.size a e (list_for v a e)) result }
{
    match shape.embedded {
        Some(bytes) => Front {
            bytes: bytes as u64,
            whole: true,
        },
        None => list_front(
            claims,
            parts,
            size,
            owner,
            bar_of(after, shape),
            &shape.pieces,
        ),
    }
}

// Whether the owner of a shape, which wins its own block or not, is sound with so many bytes of content: a directory has a parent
// FID.
fn is_sound(shape: &Shape, kept: u64, own: bool) -> bool
    ensures { result ≡ ((not shape.now.directory || nat_le 40 (min kept shape.now.content)) && own) }
{
    if shape.directory {
        PARENT_BYTES <= kept.min(shape.content) && own
    } else {
        own
    }
}

// How one found entry stands. The holder of the pointer to the system stream directory wants nothing.
fn standing_of<P: Parts>(
    claims: &Claims,
    parts: &P,
    size: u32,
    after: Addr,
    node: &Found,
) -> Standing
    requires { 0 < size }
    ensures { (f : Frame) (v : Volume) → f.after ≡ after → v.size ≡ size → v.place ≡ P.place parts.now
        → found (setting_of f v) (tree_of f v) node.now.at ≡ true → IsShaped f v node.now.at node.now.shape
        → TellsWinners (setting_of f v) (tree_of f v) claims.now → IsStanding (setting_of f v) (tree_of f v) node.now.at result }
{
    let Some(shape) = &node.shape else {
        return Standing {
            kept: 0,
            whole: true,
            sound: true,
        };
    };
    let owner = owner_of(node.at);
    let front = shape_front(claims, parts, size, owner, after, shape);
    let own = wins(claims, owner, node.at);
    Standing {
        kept: front.bytes,
        whole: front.whole,
        sound: is_sound(shape, front.bytes, own),
    }
}

/// How each found entry of a volume with blocks of `size` bytes stands, in the order of the arena, by the claims of all of them.
/// `after` is the address after the extent of the file set, which a directory wins only where its list begins there. Nothing is
/// read.
pub fn standings_of<P: Parts>(
    alloc: Global,
    parts: &P,
    size: u32,
    after: Addr,
    claims: &Claims,
    arena: &Arena,
) -> Result<Vec<Standing>, AllocError>
    requires { 0 < size }
    ensures standings { (f : Frame) (v : Volume) → f.after ≡ after → v.size ≡ size → v.place ≡ P.place parts.now → AreRead f v arena.now
        → IsFoundList (setting_of f v) (tree_of f v) (spots arena.now) → TellsWinners (setting_of f v) (tree_of f v) claims.now
        → IfOk result (λ list. AreStanding (setting_of f v) (tree_of f v) arena.now list.items) }
{
    let mut standings = Vec::new(alloc);
    for i in 0..arena.len() {
        standings.push(standing_of(claims, parts, size, after, arena.node(i)))?;
    }
    Ok(standings)
}
