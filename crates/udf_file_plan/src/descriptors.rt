// Allocation descriptors in the body of an entry or of an allocation extent, and what a cut leaves of them (ECMA-167 4/14.14).
ghost use Rattle.std.specs.Prelude.{◌≡◌, ◌+◌, ◌-◌, ◌*◌, ◌/◌, ◌<◌, ◌≤◌, ◌^◌, IfOk, length, option_map};
ghost use Rattle.udf_file_model.specs.Cut.{onward};
ghost use Rattle.udf_file_model.specs.CutBody.{cut_body, first_of, width_of, with_last, with_length};
ghost use Rattle.udf_file_model.specs.Descriptors.{descriptor_at, descriptor_count, descriptors};
ghost use Rattle.udf_entry.specs.RunView.{run_seen};
ghost use Rattle.udf_file_plan.specs.Cuts.{CutsTo, FitsBody, further_seen};

use std::alloc::{AllocError, Global};
use udf_entry::Run;
use udf_field::{Addr, Fields, FieldsMut};

// Kinds of allocation descriptors: short, and long (ECMA-167 4/14.6.8).
const SHORT: u8 = 0;

const LONG: u8 = 1;

// The bytes of a short and of a long descriptor.
const SHORT_BYTES: u32 = 8;

const LONG_BYTES: u32 = 16;

// The kind of a descriptor that names an allocation extent in which the list goes on (ECMA-167 4/14.14.1.1).
const CONTINUATION: u8 = 3;

// The unit of a descriptor's kind in its stored length (ECMA-167 4/14.14.1.1).
const KIND_UNIT: u32 = 0x4000_0000;

/// Where a cut of a body ends.
#[derive(Clone, Copy, Debug, PartialEq, Eq)]
pub(crate) enum Cut {
    /// In the body, which keeps so many descriptors, the last of them with a length in bytes.
    Within { descriptors: u32, last: u32 },
    /// In the allocation extent at an address or behind it, with so many bytes left there; the body stays.
    Beyond { next: Addr, left: u64 },
}

/// The allocation extent in which a cut goes on, and how many bytes are left of it there.
#[derive(Clone, Copy, Debug, PartialEq, Eq)]
pub(crate) struct Further {
    pub at: Addr,
    pub left: u64,
}

// How many whole descriptors a body of so many bytes has.
#[tactic(auto, unfolding(udf_file_model::specs::Descriptors::descriptor_count))]
fn count_of(kind: u8, bytes: u32) -> u32
    ensures { result ≡ descriptor_count kind bytes }
{
    match kind {
        SHORT => bytes / SHORT_BYTES,
        LONG => bytes / LONG_BYTES,
        _ => 0,
    }
}

// Descriptor i of a body.
#[tactic(auto, unfolding(udf_file_model::specs::Descriptors::descriptor_at))]
fn run_at(kind: u8, holder: Addr, body: &[u8], i: u32) -> Run
    requires short { kind ≡ 0 → 8 * i + 8 ≤ length body.now }
    requires long { (kind ≡ 0 → ⊥) → 16 * i + 16 ≤ length body.now }
    ensures run { run_seen result ≡ descriptor_at kind holder body.now i }
    ensures small { result.length < 2 ^ 30 }
{
    let fields = Fields::over(body);
    if kind == SHORT {
        let short = fields.short_at(SHORT_BYTES as usize * i as usize);
        return Run {
            kind: short.kind,
            length: short.length,
            at: Addr {
                part: holder.part,
                block: short.block,
            },
            holder,
            index: i,
        };
    }
    let long = fields.long_at(LONG_BYTES as usize * i as usize);
    Run {
        kind: long.kind,
        length: long.length,
        at: long.at,
        holder,
        index: i,
    }
}

/// Where a cut of a body to so many bytes ends.
pub(crate) fn cut_at(kind: u8, holder: Addr, body: &[u8], bytes: u64) -> Cut
    requires small { length body.now < 2 ^ 32 }
    ensures cut { CutsTo bytes (descriptors kind holder body.now) result }
    ensures fits { FitsBody kind (length body.now) result }
{
    let many = count_of(kind, body.len() as u32);
    let mut left = bytes;
    for i in 0..many {
        let run = run_at(kind, holder, body, i);
        if run.length == 0 {
            return Cut::Within {
                descriptors: i,
                last: 0,
            };
        }
        if run.kind == CONTINUATION {
            return Cut::Beyond { next: run.at, left };
        }
        if left <= run.length as u64 {
            return Cut::Within {
                descriptors: i + 1,
                last: left as u32,
            };
        }
        left -= run.length as u64;
    }
    Cut::Within {
        descriptors: many,
        last: 0,
    }
}

// The bytes of a descriptor of a kind.
#[tactic(auto, unfolding(udf_file_model::specs::CutBody::width_of))]
fn width(kind: u8) -> usize
    ensures value { result ≡ width_of kind }
    ensures least { 8 ≤ result }
    ensures most { result ≤ 16 }
{
    if kind == SHORT {
        SHORT_BYTES as usize
    } else {
        LONG_BYTES as usize
    }
}

// The number that has the kind of a stored length, and so many bytes.
fn with_kind_of(stored: u32, bytes: u32) -> u32
    requires { bytes < 2 ^ 30 }
    ensures { result ≡ stored / 1073741824 * 1073741824 + bytes }
{
    stored / KIND_UNIT * KIND_UNIT + bytes
}

// Gives the descriptor at an offset another length.
#[tactic(auto, unfolding(udf_file_model::specs::CutBody::with_length))]
fn put_length(body: &mut [u8], at: usize, bytes: u32)
    requires room { at + 4 ≤ length body.old }
    requires fits { bytes < 2 ^ 30 }
    ensures { body.new ≡ with_length at bytes body.old }
{
    let stored = with_kind_of(Fields::over(body).u32_at(at), bytes);
    let mut fields = FieldsMut::over(body);
    fields.put_u32(at, stored);
}

// Gives the last of the first descriptors another length.
#[tactic(auto, unfolding(udf_file_model::specs::CutBody::with_last))]
fn put_last(body: &mut [u8], width: usize, many: usize, last: u32)
    requires room { many * width ≤ length body.old }
    requires wide { 8 ≤ width }
    requires fits { last < 2 ^ 30 }
    ensures { body.new ≡ with_last 0 width many last body.old }
{
    let _ = &body; // in memory, so that each offset fits
    if many > 0 {
        put_length(body, (many - 1) * width, last);
    }
}

// The first descriptors of a body, the last of them with a length.
fn first_of(
    alloc: Global,
    kind: u8,
    body: &[u8],
    descriptors: u32,
    last: u32,
) -> Result<Vec<u8>, AllocError>
    requires many { descriptors ≤ descriptor_count kind (length body.now) }
    requires last { last < 2 ^ 30 }
    ensures first { IfOk result (λ left. left.items ≡ first_of kind descriptors last body.now) }
    ensures shorter { IfOk result (λ left. length left.items ≤ length body.now) }
{
    let wide = width(kind);
    let mut left = body.to_vec(alloc)?;
    put_last(&mut left, wide, descriptors as usize, last);
    left.truncate(descriptors as usize * wide);
    Ok(left)
}

/// A body that is cut to so many bytes (ECMA-167 4/14.14); one that goes on elsewhere before that stays.
pub(crate) fn body_after(
    alloc: Global,
    kind: u8,
    holder: Addr,
    body: &[u8],
    bytes: u64,
) -> Result<Vec<u8>, AllocError>
    requires small { length body.now < 2 ^ 32 }
    ensures body { IfOk result (λ left. left.items ≡ cut_body kind holder bytes body.now) }
    ensures shorter { IfOk result (λ left. length left.items ≤ length body.now) }
{
    if bytes == 0 {
        return Ok(Vec::new(alloc));
    }
    match cut_at(kind, holder, body, bytes) {
        Cut::Beyond { .. } => body.to_vec(alloc),
        Cut::Within { descriptors, last } => first_of(alloc, kind, body, descriptors, last),
    }
}

/// Where the cut of a body to so many bytes goes on.
pub(crate) fn further_at(kind: u8, holder: Addr, body: &[u8], bytes: u64) -> Option<Further>
    requires small { length body.now < 2 ^ 32 }
    ensures { option_map further_seen result ≡ onward bytes (descriptors kind holder body.now) }
{
    match cut_at(kind, holder, body, bytes) {
        Cut::Within { .. } => None,
        Cut::Beyond { next, left } => Some(Further { at: next, left }),
    }
}
