// Lists of entries, as they are told.
ghost use Rattle.std.specs.Prelude.{◌≡◌, ◌+◌, ◌*◌, ◌/◌, ◌<◌, ◌≤◌, ◌==◌, ◌^◌, ℕ, true, IfOk, [], Some, length, slice_get, if◌then◌else◌};
ghost use Rattle.udf_field.specs.declared.address.Addr.{Addr};
ghost use Rattle.udf_model.specs.Size.{is_size};
ghost use Rattle.udf_outside.specs.Files.{IsAttached};
ghost use Rattle.udf_outside.specs.Stops.{bytes_of};
ghost use Rattle.udf_outside.specs.Reads.{OnlyReads};
ghost use Rattle.udf_outside.specs.declared.bench.Role.TheVariants.{Image};
ghost use Rattle.udf_file_model.specs.Pieces.{bytes_in};
ghost use Rattle.udf_file_model.specs.Listing.{listing_at, listing_by, volume_of};
ghost use Rattle.udf_entry.specs.RunView.{run_seen, runs_seen};
ghost use Rattle.udf_entry.specs.ReadingView.{past_of};

use crate::chain::read_list;
use crate::reading::Reading;
use crate::rules::Rules;
use crate::{ListStop, Run, read_entry};
use std::alloc::Global;
use std::marker::Model;
use udf_field::Addr;
use udf_layer::Parts;
use udf_outside::Bench;

// The kind of an entry whose content is embedded (ECMA-167 4/14.6.8).
const EMBEDDED: u8 = 3;

/// The list of an entry: its runs, its allocation extents in order, the bytes before the first failure, and whether nothing
/// fails. The list of an embedded entry has no runs, and its body's bytes.
#[derive(Drop)]
pub struct List {
    runs: Vec<Run>,
    extents: Vec<Addr>,
    good_length: u64,
    good: bool,
}

impl Model for List {
    ghost use Rattle.std.specs.Prelude.{◌<◌, ◌^◌, length};
    ghost use Rattle.udf_file_model.specs.Listing.{Listing};
    ghost use Rattle.udf_entry.specs.ListView.{listing_seen};

    ghost Value = { Listing };

    ghost view = { λ list. listing_seen list.runs.items list.extents.items list.good_length list.good };

    ghost invariant = { λ list. length list.extents.items < 2 ^ 32 };
}

impl List {
    /// Whether nothing of it fails.
    pub fn good(&self) -> bool
        ensures { result ≡ self.now.good }
    {
        self.good
    }

    /// The bytes before the first failure.
    pub fn good_length(&self) -> u64
        ensures { result ≡ self.now.good_length }
    {
        self.good_length
    }

    /// How many runs it has.
    pub fn len(&self) -> u64
        ensures { result ≡ length self.now.runs }
    {
        self.runs.len() as u64
    }

    /// Run i.
    pub fn run(&self, i: u64) -> Run
        requires { i < length self.now.runs }
        ensures { slice_get self.now.runs i ≡ Some (run_seen result) }
    {
        self.runs[i as usize]
    }

    /// Its runs.
    pub(crate) fn runs(&self) -> &[Run]
        ensures { runs_seen result.now ≡ self.now.runs }
    {
        &self.runs
    }

    /// How many allocation extents it has, those that give no run included.
    pub fn extents(&self) -> u32
        ensures { result ≡ length self.now.extents }
    {
        self.extents.len() as u32
    }

    /// Allocation extent i.
    pub fn extent(&self, i: u32) -> Addr
        requires { i < length self.now.extents }
        ensures { slice_get self.now.extents i ≡ Some result }
    {
        self.extents[i as usize]
    }

    // The list of a block that holds no readable entry.
    fn none(alloc: Global) -> List
        ensures { result ≡ record { runs = []; extents = []; good_length = 0; good = true } }
    {
        List {
            runs: Vec::new(alloc),
            extents: Vec::new(alloc),
            good_length: 0,
            good: true,
        }
    }

    // What was read, as it is told.
    fn of(reading: Reading, embedded: bool, bytes: u64, good: bool) -> List
        ensures runs { result.runs ≡ (past_of reading).runs }
        ensures extents { result.extents ≡ (past_of reading).extents }
        ensures good_length { result.good_length ≡ (if embedded then bytes else bytes_in (past_of reading).runs) }
        ensures good { result.good ≡ good }
    {
        let total = reading.total();
        let (runs, extents) = reading.into_parts();
        List {
            runs,
            extents,
            good_length: if embedded { bytes } else { total },
            good,
        }
    }
}

/// The list of the readable entry in a block at an address, read up to the first block or descriptor that fails. A block without
/// a readable entry has an empty list. Time grows with the number of runs times its logarithm.
pub fn list_of<B: Bench, P: Parts>(
    alloc: Global,
    bench: &mut B,
    parts: &P,
    at: Addr,
    block: &[u8],
) -> Result<List, ListStop>
    requires attached { IsAttached Image (B.files bench.old) }
    requires size { is_size (length block.now) ≡ true }
    requires placed { (a : Addr) (s : ℕ) → P.place parts.now a ≡ Some s → s < (B.files bench.old).image.size / length block.now }
    ensures list { B.tells → IfOk result (λ list. list
        ≡ listing_at (volume_of (length block.now) (bytes_of Image (B.held bench.old)) (P.place parts.now)) at block.now) }
    ensures reads { OnlyReads B.files B.held B.faults bench.old bench.new ListStop.Fault result }
{
    let Some(entry) = read_entry(block, at.block) else {
        return Ok(List::none(alloc));
    };
    let rules = Rules {
        size: block.len() as u32,
        own: at,
        directory: entry.is_directory(),
        information: entry.info_length(),
    };
    let kind = entry.kind();
    let body = entry.body();
    let mut room = vec![in alloc; 0; block.len()]?;
    let start = Reading::new(alloc, rules)?;
    let (reading, good) = read_list(bench, start, parts, kind, body, &mut room)?;
    Ok(List::of(reading, kind == EMBEDDED, body.len() as u64, good))
}
