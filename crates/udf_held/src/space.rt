// The room for FIDs in the content of an entry.
ghost use Rattle.std.specs.Prelude.{◌≡◌, ◌+◌, ◌<◌, ◌^◌, if◌then◌else◌, ◌∷◌, List};
ghost use Rattle.udf_field.specs.declared.address.Addr.{Addr};
ghost use Rattle.udf_file_model.specs.Cut.{to_part};
ghost use Rattle.udf_file_model.specs.Entry.{Entry};
ghost use Rattle.udf_file_model.specs.Listing.{Volume, list_for};
ghost use Rattle.udf_file_model.specs.Pieces.{size_of};
ghost use Rattle.udf_file_model.specs.Pieces as model;
ghost use Rattle.udf_tree_model.specs.Frame.{capacity};
ghost use Rattle.udf_found.specs.Shape.{IsShape, piece_seen, pieces_seen};

use udf_found::{Piece, Shape};

// The bytes of a piece, and whether its last block is part.
#[derive(Clone, Copy, Debug, PartialEq, Eq)]
struct Length {
    bytes: u32,
    part: bool,
}

fn length_of(size: u32, piece: &Piece) -> Length
    requires { 0 < size }
    ensures { (rest : List model.Piece) → to_part size (piece_seen piece.now ∷ rest) ≡ (if result.part then result.bytes else result.bytes + to_part size rest) }
{
    match piece {
        Piece::Extent(_) => Length {
            bytes: 0,
            part: false,
        },
        Piece::Blocks(run) => Length {
            bytes: run.length,
            part: run.length % size != 0,
        },
    }
}

// The bytes of a list up to the end of the first descriptor of part blocks.
fn to_part(size: u32, pieces: &[Piece]) -> u64
    requires { 0 < size }
    ensures { size_of (pieces_seen pieces.now) < 2 ^ 63 → result ≡ to_part size (pieces_seen pieces.now) }
{
    let mut bytes: u64 = 0;
    for piece in pieces {
        let length = length_of(size, piece);
        bytes = bytes.saturating_add(length.bytes as u64);
        if length.part {
            return bytes;
        }
    }
    bytes
}

/// The bytes that the content of an entry with a shape may have at blocks of `size` bytes: an embedded one as many as stand there,
/// another as many as its list has up to the end of the first descriptor of part blocks.
pub(crate) fn capacity(size: u32, shape: &Shape) -> u64
    requires { 0 < size }
    ensures { (v : Volume) (a : Addr) (e : Entry) → v.size ≡ size → IsShape v a e shape.now → result ≡ capacity v.size e (list_for v a e) }
{
    match shape.embedded {
        Some(bytes) => bytes as u64,
        None => to_part(size, &shape.pieces),
    }
}
