// The mend of a kept entry, by what the survey tells of it.
ghost use Rattle.std.specs.Prelude.{◌≡◌, ◌<◌, ◌≤◌, ◌&&◌, Bool, not, is_some, nat_le, get_or, IfOk, OnOk, None, Some, length, min, option_map, slice_get, true};
ghost use Rattle.udf_field.specs.declared.address.Addr.{Addr};
ghost use Rattle.udf_outside.specs.Reads.{OnlyReads};
ghost use Rattle.udf_file_model.specs.Content as content;
ghost use Rattle.udf_file_model.specs.Entry.{Entry, body_of, descriptor_bytes, entry_header, entry_of};
ghost use Rattle.udf_model.specs.Tag.{location};
ghost use Rattle.udf_file_model.specs.Wanted.{own};
ghost use Rattle.udf_entry.specs.Opened.{IsOpened};
ghost use Rattle.udf_entry.specs.ValuesView.{wanted_of};
ghost use Rattle.udf_tree_model.specs.Frame.{Frame};
ghost use Rattle.udf_tree.specs.Nodes.{node_addresses};
ghost use Rattle.udf_tree.specs.Survey.{IsSurvey};
ghost use Rattle.udf_file_mends.specs.Mends.{mend_of};
ghost use Rattle.udf_file_mends.specs.Repairable.{IsRepairable};
ghost use Rattle.udf_wanted.specs.Writable.{AreWritable};
ghost use Rattle.udf_file_plan.specs.Base.{IsPlannedOver, PutsOf, listed};
ghost use Rattle.udf_file_plan.specs.Node.{content_by, cut_left, given_by, own_by, stays_by, values_by};
ghost use Rattle.udf_file_plan.specs.Parts.{body_left, bytes_or as bytes_of, seen_bytes};

use crate::WorkStop;
use crate::mend::{Mending, Standing, content_at, list_at, put_cut, put_same};
use std::alloc::Global;
use udf_entry::{List, Values, header_at};
use udf_layer::Parts;
use udf_outside::{Bench, read_block};
use udf_tree::{Node, NodeId, Stated, Survey};
use udf_volume::Volume;
use udf_wanted::Wanted;

// Whether the mend leaves the list of a kept entry as it is.
fn list_stays(node: &Node, stated: Stated, mended: Option<&[u8]>) -> bool
    ensures { result ≡ stays_by node.now stated (option_map (λ c. c.now) mended.entry) }
{
    node.whole && stated.information <= node.kept_length && mended.is_none()
}

// Whether a kept entry states the link count and the identifier that it is to state, and loses no pointer.
fn is_own(node: &Node, stated: Stated, pointer: Option<NodeId>) -> bool
    ensures { result ≡ own_by node.now stated pointer }
{
    let lost = stated.pointer.is_some() && pointer.is_none();
    stated.links == node.links && stated.id == node.id && !lost
}

// The values of the entry with this header in a block, with the link count and the identifier that it is to state, and without a pointer
// to a stream directory where that is not selected.
fn values_of(
    node: &Node,
    stated: Stated,
    pointer: Option<NodeId>,
    block: &[u8],
    header: usize,
) -> Values
    requires { IsOpened header block.now }
    ensures wanted { wanted_of result (body_of header block.now) ≡ values_by node.now stated pointer (own header block.now) }
    ensures bytes { result.bytes ≡ length (body_of header block.now) }
{
    let mut values = Values::of(block, header);
    values.links = node.links;
    values.id = node.id;
    values.clear = stated.pointer.is_some() && pointer.is_none();
    values
}

// The mended content of a kept directory, whose list is cut; that which stays is read again. None of another entry.
fn content_for<B: Bench, P: Parts>(
    alloc: Global,
    bench: &mut B,
    volume: &Volume,
    parts: &P,
    node: &Node,
    mended: Option<&[u8]>,
    block: &[u8],
    list: &List,
) -> Result<Option<Vec<u8>>, WorkStop>
    requires over { IsPlannedOver volume.now (P.place parts.now) (B.files bench.old) }
    requires whole { length block.now ≡ volume.now.size }
    ensures content { B.tells → let v = listed volume.now (B.held bench.old) (P.place parts.now) in
        IfOk result (λ c. seen_bytes c ≡ content_by node.now (option_map (λ m. m.now) mended.entry)
        (content.content_by v list.now.runs node.now.kept_length (entry_of (location block.now) block.now))) }
    ensures reads { OnlyReads B.files B.held B.faults bench.old bench.new WorkStop.Fault result }
{
    if !node.directory {
        return Ok(None);
    }
    if let Some(mended) = mended {
        return Ok(Some(mended.to_vec(alloc)?));
    }
    let content = content_at(alloc, bench, volume, parts, block, list, node.kept_length)?;
    Ok(Some(content))
}

// The bytes of a content, or the given number where there is none.
fn bytes_or(bytes: u64, content: &Option<Vec<u8>>) -> u64
    ensures { result ≡ bytes_of bytes (seen_bytes content.now) }
{
    match content {
        Some(content) => content.len() as u64,
        None => bytes,
    }
}

// The bytes of a content, where there is one.
fn bytes_in(content: &Option<Vec<u8>>) -> Option<&[u8]>
    ensures { option_map (λ c. c.now) result ≡ seen_bytes content.now }
{
    match content {
        Some(content) => Some(content),
        None => None,
    }
}

// Puts the mend of a kept entry whose list is cut, and which else has these values.
fn put_shorter<B: Bench, P: Parts>(
    alloc: Global,
    bench: &mut B,
    volume: &Volume,
    parts: &P,
    node: &Node,
    bytes: u64,
    mended: Option<&[u8]>,
    kept: Mending<'_>,
    wanted: &mut Wanted,
    room: &mut [u8],
) -> Result<(), WorkStop>
    requires over { IsPlannedOver volume.now (P.place parts.now) (B.files bench.old) }
    requires there { P.place parts.now kept.own.at ≡ Some kept.own.sector }
    requires whole { length kept.block.now ≡ volume.now.size }
    requires opened { IsOpened kept.own.header kept.block.now }
    requires header { entry_header kept.own.at.block kept.block.now ≡ Some kept.own.header }
    requires room { length room.old ≡ volume.now.size }
    requires writable { AreWritable volume.now wanted.old }
    ensures put { B.tells → let v = listed volume.now (B.held bench.old) (P.place parts.now) in (e : Entry) → entry_of kept.entry.own.at.block kept.entry.block.now ≡ Some e
        → kept.entry.block.now ≡ v.disk kept.entry.own.sector → let given = given_by v kept.entry.own.at e node.now (option_map (λ m. m.now) mended.entry) in
        length (body_left e.kind kept.entry.own.at e.body (bytes_of bytes given) given) ≤ descriptor_bytes kept.entry.own.header kept.entry.block.now
        → OnOk result (PutsOf v wanted.old wanted.new (cut_left v kept.entry.own.at e (wanted_of kept.entry.values.now e.body) bytes given)) }
    ensures writable { OnOk result (AreWritable volume.now wanted.new) }
    ensures room { length room.new ≡ length room.old }
    ensures reads { OnlyReads B.files B.held B.faults bench.old bench.new WorkStop.Fault result }
{
    let Mending { own, block, .. } = kept;
    let list = list_at(alloc, bench, volume, parts, own.at, block)?;
    let content = content_for(alloc, bench, volume, parts, node, mended, block, &list)?;
    let bytes = bytes_or(bytes, &content);
    let given = bytes_in(&content);
    put_cut(
        alloc, bench, volume, parts, kept, bytes, given, &list, wanted, room,
    )
}

/// Puts the mend of the kept entry of a number. Where that changes nothing nothing is read; else its block is read, and what its list names
/// only where that is cut. `block` and `room` are lent and have the block size.
pub(crate) fn put_node<B: Bench, P: Parts>(
    alloc: Global,
    bench: &mut B,
    volume: &Volume,
    parts: &P,
    survey: &Survey,
    id: NodeId,
    wanted: &mut Wanted,
    block: &mut [u8],
    room: &mut [u8],
) -> Result<(), WorkStop>
    requires over { IsPlannedOver volume.now (P.place parts.now) (B.files bench.old) }
    requires id { id.0 < length survey.now.nodes }
    requires block { length block.old ≡ volume.now.size }
    requires room { length room.old ≡ volume.now.size }
    requires writable { AreWritable volume.now wanted.old }
    ensures put { B.tells → let v = listed volume.now (B.held bench.old) (P.place parts.now) in (f : Frame) (a : Addr) → IsSurvey f v survey.now → IsRepairable f v
        → slice_get (node_addresses survey.now.nodes) id.0 ≡ Some a → OnOk result (PutsOf v wanted.old wanted.new (mend_of f v a)) }
    ensures writable { OnOk result (AreWritable volume.now wanted.new) }
    ensures block { length block.new ≡ length block.old }
    ensures room { length room.new ≡ length room.old }
    ensures reads { OnlyReads B.files B.held B.faults bench.old bench.new WorkStop.Fault result }
{
    let node = survey.node(id);
    let stated = survey.stated(id);
    let mended = survey.mended(id);
    let pointer = survey.pointer(id);
    let stays = list_stays(node, stated, mended);
    if stays && is_own(node, stated, pointer) {
        return Ok(());
    }
    let Some(sector) = parts.locate(node.at) else {
        return Ok(());
    };
    read_block(bench, volume.size, sector, block)?;
    let Some(header) = header_at(block, node.at.block) else {
        return Ok(());
    };
    let at = node.at;
    let own = Standing { at, sector, header };
    let values = values_of(node, stated, pointer, block, header);
    let kept = Mending {
        own,
        block,
        values: &values,
    };
    if stays {
        put_same(alloc, volume, kept, wanted)?;
        return Ok(());
    }
    let bytes = stated.information.min(node.kept_length);
    put_shorter(
        alloc, bench, volume, parts, node, bytes, mended, kept, wanted, room,
    )
}
