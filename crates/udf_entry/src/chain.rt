// The list of an entry, read through its allocation extents.
ghost use Rattle.std.specs.Prelude.{◌≡◌, ℕ, ◌+◌, ◌*◌, ◌/◌, ◌<◌, ◌≤◌, ◌^◌, IfOk, List, [], length, Some};
ghost use Rattle.udf_field.specs.declared.address.Addr.{Addr};
ghost use Rattle.udf_model.specs.Image.{blocks_in};
ghost use Rattle.udf_outside.specs.Files.{IsAttached};
ghost use Rattle.udf_outside.specs.Stops.{bytes_of};
ghost use Rattle.udf_outside.specs.Reads.{OnlyReads};
ghost use Rattle.udf_outside.specs.declared.bench.Role.TheVariants.{Image};
ghost use Rattle.udf_file_model.specs.Descriptors.{descriptors};
ghost use Rattle.udf_file_model.specs.Pieces.{flat};
ghost use Rattle.udf_file_model.specs.Listing.{descriptors_in, is_extent, volume_of};
ghost use Rattle.udf_entry.specs.Outcome.{ended, outcome};
ghost use Rattle.udf_entry.specs.ReadingView.{past_of, rules_seen};

use crate::ListStop;
use crate::body::{Next, read_body};
use crate::extent::read_extent;
use crate::reading::Reading;
use udf_layer::Parts;
use udf_outside::Bench;

/// Reads a list from the descriptors of its entry on, and tells whether all of it is good. `block` is lent and has the block
/// size.
pub(crate) fn read_list<B: Bench, P: Parts>(
    bench: &mut B,
    start: Reading,
    parts: &P,
    kind: u8,
    body: &[u8],
    block: &mut [u8],
) -> Result<(Reading, bool), ListStop>
    requires attached { IsAttached Image (B.files bench.old) }
    requires placed { (a : Addr) (s : ℕ) → P.place parts.now a ≡ Some s → s < (B.files bench.old).image.size / start.rules.size }
    requires room { length block.old ≡ start.rules.size }
    requires small { start.rules.size ≤ 4096 }
    requires short { length body.now < 2 ^ 32 }
    requires fresh { start.extents.items ≡ [] }
    ensures outcome { B.tells → IfOk result (λ t.
        let v = volume_of start.rules.size (bytes_of Image (B.held bench.old)) (P.place parts.now) in
        ended (past_of t.0) t.1
        ≡ outcome (rules_seen start.rules (P.place parts.now)) (is_extent v) (past_of start)
        (flat (descriptors_in v kind) (2 * v.blocks) (descriptors kind start.rules.own body.now))) }
    ensures reads { OnlyReads B.files B.held B.faults bench.old bench.new ListStop.Fault result }
{
    let own = start.rules.own;
    let (mut reading, mut next) = read_body(start, parts, kind, own, body)?;
    'list: while let Next::Onward(x) = next {
        let (read, end) = read_extent(bench, reading, parts, kind, x, block)?;
        reading = read;
        next = end;
    }
    Ok((reading, next == Next::End))
}
