//! The line of a finding.
ghost use Rattle.std.specs.Prelude.{◌≡◌, ◌+◌, ◌≤◌, ◌++◌, take, length, codes, decimal};
ghost use Rattle.udf_rules.specs.Lines.{line_of, place_of};

use crate::{Finding, Place};
use itoa::{Buffer, Integer};

// Writes bytes from an offset on, and answers where they end.
fn append(into: &mut [u8], at: usize, bytes: &[u8]) -> usize
    requires { at + length bytes.now ≤ length into.old }
    ensures end { result ≡ at + length bytes.now }
    ensures text { take result into.new ≡ take at into.old ++ bytes.now }
{
    let end = at + bytes.len();
    into[at..end].copy_from_slice(bytes);
    end
}

// Writes a number in decimal digits.
fn append_number<I: Integer>(into: &mut [u8], at: usize, number: I) -> usize
    requires { at + I.MAX_STR_LEN ≤ length into.old }
    ensures end { result ≤ at + I.MAX_STR_LEN }
    ensures text { take result into.new ≡ take at into.old ++ I.text number }
{
    let mut buffer = Buffer::new();
    append(into, at, buffer.format(number).as_bytes())
}

// Writes `-:SECTOR` or `REFERENCE:BLOCK`.
fn append_place(into: &mut [u8], at: usize, place: Place) -> usize
    requires { at + 16 ≤ length into.old }
    ensures end { result ≤ at + 16 }
    ensures text { take result into.new ≡ take at into.old ++ place_of place }
{
    match place {
        Place::Sector(sector) => {
            let at = append(into, at, b"-:");
            append_number(into, at, sector)
        }
        Place::At(address) => {
            let at = append_number(into, at, address.part);
            let at = append(into, at, b":");
            append_number(into, at, address.block)
        }
    }
}

/// Writes the line of a finding, its line feed included, and answers its length: `V`, the rule, the place, and both values
/// in decimal digits.
#[tactic(auto, unfolding(crate::specs::Lines::line_of))]
pub fn report_line(finding: &Finding, into: &mut [u8; 64]) -> usize
    ensures fits { result ≤ 64 }
    ensures line { take result into.new ≡ line_of finding.now }
{
    let at = append(into, 0, b"V");
    let at = append_number(into, at, finding.rule);
    let at = append(into, at, b" ");
    let at = append_place(into, at, finding.place);
    let at = append(into, at, b" ");
    let at = append_number(into, at, finding.first);
    let at = append(into, at, b" ");
    let at = append_number(into, at, finding.second);
    append(into, at, b"\n")
}
