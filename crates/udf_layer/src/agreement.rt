// Whether the sparing tables of a volume agree (UDF 2.50 2.2.12).
ghost use Rattle.std.specs.Prelude.{◌≡◌, ◌≤◌, ◌-◌, nat_le, ◌++◌, ◌∷◌, [], ℕ, List, IfOk, IfSome, All, Some, None, if◌then◌else◌, option_map, unwrap_or, length, drop};
ghost use Rattle.std.specs.Str.{bytes_eq};
ghost use Rattle.udf_outside.specs.Files.{IsAttached};
ghost use Rattle.udf_outside.specs.Reads.{OnlyReads};
ghost use Rattle.udf_outside.specs.Sectors.{disk_of};
ghost use Rattle.udf_outside.specs.declared.bench.Role.TheVariants.{Image};
ghost use Rattle.udf_layer.specs.Fronts.{IsTableBytes, table_bytes};
ghost use Rattle.udf_layer.specs.Prevailing.{IsTableMap};
ghost use Rattle.udf_layer.specs.Read.{IsRead};
ghost use Rattle.udf_layer.specs.Tables.{map_seen};
ghost use Rattle.udf_layer.specs.Verdict.{IsListed, deviations_by, verdict_number};
ghost use Rattle.udf_layer.specs.declared.agreement.Deviation.{Deviation as deviation};
ghost use Rattle.udf_volume_model.specs.SparingRule.{agrees_with, is_coverable};
ghost use Rattle.udf_volume_model.specs.SparingTable.{prevailing_area, table_end, table_number};

use crate::prevailing::{best_table, read_table};
use crate::whole_table::{TAG_BYTES, WholeTable, sequence_of};
use crate::{SparingMap, WorkStop};
use std::alloc::{AllocError, Global};
use udf_outside::Bench;

/// The most bytes behind a tag that its CRC can cover (ECMA-167 3/7.2.7).
const MOST_COVERED: u32 = 65535;

/// A listed table that does not agree with the prevailing one: its sector, and its sequence number, 0 where it is not whole.
#[derive(Clone, Copy, Debug, PartialEq, Eq)]
pub struct Deviation {
    pub at: u32,
    pub number: u32,
}

/// The verdict of the rule on sparing tables: the bytes of the prevailing one up to the end of its entries, where one is whole,
/// and the listed ones that do not agree with it, in the order of the map. None deviates where the prevailing one has more
/// entries than a CRC can cover.
#[derive(Debug, Drop)]
pub struct TableVerdict {
    pub prevailing: Option<Vec<u8>>,
    pub deviating: Vec<Deviation>,
}

impl TableVerdict {
    /// None prevails, and none deviates.
    pub fn none(alloc: Global) -> TableVerdict
        ensures prevailing { result.prevailing ≡ None }
        ensures deviating { result.deviating.items ≡ [] }
    {
        TableVerdict {
            prevailing: None,
            deviating: Vec::new(alloc),
        }
    }

    /// The sequence number of the prevailing table, or 0.
    pub fn number(&self) -> u32
        requires { IfSome self.now.prevailing (λ v. 56 ≤ length v.items) }
        ensures { result ≡ verdict_number self.now }
    {
        match &self.prevailing {
            None => 0,
            Some(table) => sequence_of(table),
        }
    }
}

/// How many bytes stand behind the tag of a table, where a CRC can cover them all (ECMA-167 3/7.2.7).
pub fn coverable_bytes(table: &[u8]) -> Option<u16>
    requires { 16 ≤ length table.now }
    ensures { result ≡ (if nat_le (length table.now) 65551 then Some (length table.now - 16) else None) }
{
    let bytes = table.len() - TAG_BYTES as usize;
    if bytes <= MOST_COVERED as usize {
        Some(bytes as u16)
    } else {
        None
    }
}

// Whether a CRC can cover all that a table says.
fn is_coverable(table: &[u8]) -> bool
    requires { length table.now ≡ table_end table.now }
    ensures { result ≡ is_coverable table.now }
{
    coverable_bytes(table).is_some()
}

// What a table says behind its tag.
fn behind_tag(table: &[u8]) -> &[u8]
    requires { 16 ≤ length table.now }
    ensures { result.now ≡ drop 16 table.now }
{
    &table[TAG_BYTES as usize..]
}

// Whether two tables say the same behind their tags.
fn say_the_same(table: &[u8], other: &[u8]) -> bool
    requires table { 16 ≤ length table.now }
    requires other { 16 ≤ length other.now }
    ensures { result ≡ bytes_eq (drop 16 table.now) (drop 16 other.now) }
{
    behind_tag(table) == behind_tag(other)
}

// The table that was found at a sector, where it does not agree with the prevailing one.
fn deviation_of(at: u32, found: Option<WholeTable>, prevailing: &[u8]) -> Option<Deviation>
    requires { length prevailing.now ≡ table_end prevailing.now }
    ensures told { (bytes : ℕ) (area : List ℕ) → IsRead (table_number bytes at area) (table_bytes area) found
        → result ≡ (if agrees_with bytes at area prevailing.now then None else Some (record { at = at; number = unwrap_or (table_number bytes at area) 0 })) }
    ensures at { IfSome result (λ d. d.at ≡ at) }
{
    let Some(table) = found else {
        return Some(Deviation { at, number: 0 });
    };
    if say_the_same(&table.bytes, prevailing) {
        return None;
    }
    Some(Deviation {
        at,
        number: table.number,
    })
}

// The deviations so far, and one more where there is one.
fn with_deviation(
    deviating: Vec<Deviation>,
    found: Option<Deviation>,
) -> Result<Vec<Deviation>, AllocError>
    ensures none { found ≡ None → IfOk result (λ more. more.items ≡ deviating.items) }
    ensures one { (d : deviation) → found ≡ Some d → IfOk result (λ more. more.items ≡ deviating.items ++ d ∷ []) }
{
    let mut deviating = deviating;
    if let Some(deviation) = found {
        deviating.push(deviation)?;
    }
    Ok(deviating)
}

// The listed tables that do not agree with the prevailing one.
fn deviations<B: Bench>(
    alloc: Global,
    bench: &mut B,
    size: u32,
    map: &SparingMap,
    prevailing: &[u8],
) -> Result<Vec<Deviation>, WorkStop>
    requires attached { IsAttached Image (B.files bench.old) }
    requires large { 512 ≤ size }
    requires map { IsTableMap size (B.files bench.old).image.size map.now }
    requires ends { length prevailing.now ≡ table_end prevailing.now }
    ensures deviating { B.tells → IfOk result (λ found. found.items ≡ deviations_by size (disk_of size (B.held bench.old)) (map_seen map.now) (Some prevailing.now)) }
    ensures listed { IfOk result (λ found. All (λ d. IsListed map.now d.at) found.items) }
    ensures reads { OnlyReads B.files B.held B.faults bench.old bench.new WorkStop.Fault result }
{
    let mut deviating = Vec::new(alloc);
    if !is_coverable(prevailing) {
        return Ok(deviating);
    }
    for i in 0..map.count as usize {
        let found = read_table(alloc, bench, size, map.bytes, map.at[i])?;
        let deviation = deviation_of(map.at[i], found, prevailing);
        deviating = with_deviation(deviating, deviation)?;
    }
    Ok(deviating)
}

/// Which of the tables that a map lists prevails, and which do not agree with it: each is to say behind its tag, up to the end of
/// its entries, what the prevailing one says. `size` is the block size in bytes. A table is read at most twice, and the bytes
/// that count of at most two are held in memory.
pub fn table_verdict<B: Bench>(
    alloc: Global,
    bench: &mut B,
    size: u32,
    map: &SparingMap,
) -> Result<TableVerdict, WorkStop>
    requires attached { IsAttached Image (B.files bench.old) }
    requires large { 512 ≤ size }
    requires map { IsTableMap size (B.files bench.old).image.size map.now }
    ensures prevailing { B.tells → IfOk result (λ verdict. option_map (λ v. v.items) verdict.prevailing
        ≡ option_map table_bytes (prevailing_area size (disk_of size (B.held bench.old)) (map_seen map.now))) }
    ensures deviating { B.tells → IfOk result (λ verdict. verdict.deviating.items
        ≡ deviations_by size (disk_of size (B.held bench.old)) (map_seen map.now) (prevailing_area size (disk_of size (B.held bench.old)) (map_seen map.now))) }
    ensures table { IfOk result (λ verdict. IfSome verdict.prevailing (λ v. IsTableBytes map.now.bytes v.items)) }
    ensures listed { IfOk result (λ verdict. All (λ d. IsListed map.now d.at) verdict.deviating.items) }
    ensures reads { OnlyReads B.files B.held B.faults bench.old bench.new WorkStop.Fault result }
{
    let Some(table) = best_table(alloc, bench, size, map)? else {
        return Ok(TableVerdict::none(alloc));
    };
    let deviating = deviations(alloc, bench, size, map, &table.bytes)?;
    Ok(TableVerdict {
        prevailing: Some(table.bytes),
        deviating,
    })
}
