// Reading an allocation extent of a list.
ghost use Rattle.std.specs.Prelude.{◌≡◌, ℕ, ◌+◌, ◌*◌, ◌/◌, ◌<◌, ◌≤◌, IfOk, List, ◌∷◌, ◌++◌, [], length, Some};
ghost use Rattle.udf_field.specs.declared.address.Addr.{Addr};
ghost use Rattle.udf_outside.specs.Files.{IsAttached};
ghost use Rattle.udf_outside.specs.Stops.{bytes_of};
ghost use Rattle.udf_outside.specs.Reads.{OnlyReads};
ghost use Rattle.udf_outside.specs.declared.bench.Role.TheVariants.{Image};
ghost use Rattle.udf_file_model.specs.Pieces.{Piece, Extent, pieces};
ghost use Rattle.udf_file_model.specs.Listing.{descriptors_in, is_extent, volume_of};
ghost use Rattle.udf_entry.specs.Outcome.{outcome};
ghost use Rattle.udf_entry.specs.NextView.{outcome_next};
ghost use Rattle.udf_entry.specs.ReadingView.{Grows, past_of, rules_seen};

use crate::ListStop;
use crate::body::{Next, read_body};
use crate::header::extent_in;
use crate::reading::Reading;
use udf_field::Addr;
use udf_layer::Parts;
use udf_outside::{Bench, read_block};

/// Reads the allocation extent at an address, in which a list goes on. `block` is lent and has the block size.
pub(crate) fn read_extent<B: Bench, P: Parts>(
    bench: &mut B,
    reading: Reading,
    parts: &P,
    kind: u8,
    x: Addr,
    block: &mut [u8],
) -> Result<(Reading, Next), ListStop>
    requires attached { IsAttached Image (B.files bench.old) }
    requires placed { (a : Addr) (s : ℕ) → P.place parts.now a ≡ Some s → s < (B.files bench.old).image.size / reading.rules.size }
    requires room { length block.old ≡ reading.rules.size }
    requires small { reading.rules.size ≤ 4096 }
    ensures outcome { B.tells → IfOk result (λ t. (k : Addr → List Piece) (rest : List Piece)
        → let v = volume_of reading.rules.size (bytes_of Image (B.held bench.old)) (P.place parts.now) in
        (t.0.extents.items ≡ reading.extents.items ++ (x ∷ []) → rest ≡ pieces k (descriptors_in v kind x))
        → outcome_next (rules_seen reading.rules (P.place parts.now)) (is_extent v) (past_of t.0) k t.1
        ≡ outcome (rules_seen reading.rules (P.place parts.now)) (is_extent v) (past_of reading) (Extent x ∷ rest)) }
    ensures grows { IfOk result (Grows reading (P.place parts.now) x) }
    ensures rules { IfOk result (λ t. t.0.rules ≡ reading.rules) }
    ensures reads { OnlyReads B.files B.held B.faults bench.old bench.new ListStop.Fault result }
{
    if !reading.is_new(parts, x) {
        return Ok((reading, Next::Failed));
    }
    let Some(sector) = parts.locate(x) else {
        return Ok((reading, Next::Failed));
    };
    read_block(bench, reading.rules.size, sector, block)?;
    let Some(body) = extent_in(block, x.block) else {
        return Ok((reading, Next::Failed));
    };
    let longer = reading.with_extent(x)?;
    let read = read_body(longer, parts, kind, x, body)?;
    Ok(read)
}
