// The links of an entry, read of its pointer and of its content.
ghost use Rattle.std.specs.Prelude.{◌≡◌, ◌++◌, ◌∷◌, ◌<◌, ◌^◌, [], Option, List, IfOk, OnOk};
ghost use Rattle.std.specs.BTreeMap.{get};
ghost use Rattle.std.specs.Ordering.{is_eq};
ghost use Rattle.udf_field.specs.declared.address.Addr.{Addr};
ghost use Rattle.udf_file_model.specs.Name.{canonical_cmp};
ghost use Rattle.udf_tree_model.specs.Frame.{stream_of};
ghost use Rattle.udf_tree_model.specs.Link as model;
ghost use Rattle.udf_tree_model.specs.Link.{fid_link, fid_links, pointer_link, pointer_links};
ghost use Rattle.udf_found.specs.Linked.{AreLines, AreLinks, AreTold, IsLine, Learns, ends_of, live_link};

use crate::link::Link;
use std::alloc::{AllocError, Global};
use std::collections::BTreeMap;
use udf_dir::{CanonicalName, Fid, canonical_name, scan};
use udf_field::{Addr, Long};

/// The addresses to which links lead.
pub(crate) fn ends(alloc: Global, links: &[Link]) -> Result<Vec<Addr>, AllocError>
    ensures { IfOk result (λ targets. targets.items ≡ ends_of links.now) }
{
    let mut targets = Vec::new(alloc);
    for link in links {
        targets.push(link.target)?;
    }
    Ok(targets)
}

/// The link of a pointer to an address, alone.
pub(crate) fn pointer_to(alloc: Global, target: Addr) -> Result<Vec<Link>, AllocError>
    ensures { IfOk result (λ links. AreLinks (pointer_link target ∷ []) links.items) }
{
    let mut links = Vec::new(alloc);
    links.push(Link {
        place: 0,
        target,
        room: 0,
        earlier: None,
        name: Vec::new(alloc),
    })?;
    Ok(links)
}

// The link of a pointer to a stream directory, where its length is not 0.
#[tactic(auto, using(crate::proofs::Lines::no_links), unfolding(udf_tree_model::specs::Frame::stream_of))]
fn pointer_of(alloc: Global, stream: Option<Long>) -> Result<Vec<Link>, AllocError>
    ensures { IfOk result (λ links. AreLinks (pointer_links (stream_of stream)) links.items) }
{
    let Some(pointer) = stream else {
        return Ok(Vec::new(alloc));
    };
    if pointer.length == 0 {
        return Ok(Vec::new(alloc));
    }
    pointer_to(alloc, pointer.at)
}

// The link that a live FID at an offset makes, where the first of its name stands at another.
fn link_of(alloc: Global, at: u64, fid: &Fid<'_>, earlier: Option<u64>) -> Result<Link, AllocError>
    requires { at < 2 ^ 63 }
    ensures { IfOk result (λ link. IsLine (fid_link (at, fid.now)) earlier link) }
{
    Ok(Link {
        place: at + 1,
        target: fid.target().at,
        room: fid.bytes().len() as u64,
        earlier,
        name: Vec::from_slice(alloc, fid.name())?,
    })
}

// The offset of the first FID of a name. The set of names gets that name, where it is new.
fn first_of(
    seen: &mut BTreeMap<CanonicalName, u64>,
    name: CanonicalName,
    at: u64,
) -> Result<Option<u64>, AllocError>
    ensures first { IfOk result (λ first. first ≡ get canonical_cmp seen.old name) }
    ensures learns { OnOk result (Learns (get canonical_cmp seen.old) (get canonical_cmp seen.new) (λ c. is_eq (canonical_cmp name c)) at) }
{
    if let Some(first) = seen.get(&name) {
        return Ok(Some(*first));
    }
    seen.insert(name, at)?;
    Ok(None)
}

// Appends the link that a FID at an offset makes, where it is live.
fn add_fid(
    alloc: Global,
    links: &mut Vec<Link>,
    seen: &mut BTreeMap<CanonicalName, u64>,
    at: u64,
    fid: &Fid<'_>,
) -> Result<(), AllocError>
    requires { at < 2 ^ 63 }
    ensures { (fs : List model.Link) → AreTold (get canonical_cmp seen.old) fs links.old.items
        → OnOk result (AreTold (get canonical_cmp seen.new) (fs ++ live_link (at, fid.now)) links.new.items) }
{
    if !fid.is_live() {
        return Ok(());
    }
    let name = canonical_name(alloc, fid.name())?;
    let earlier = first_of(seen, name, at)?;
    links.push(link_of(alloc, at, fid, earlier)?)?;
    Ok(())
}

// Appends the links that the live FIDs of a content make.
fn add_fids(
    alloc: Global,
    links: &mut Vec<Link>,
    content: &[u8],
    size: u32,
) -> Result<(), AllocError>
    ensures { (o : Option Addr) → AreLines (pointer_links o) links.old.items
        → OnOk result (AreLines (pointer_links o ++ fid_links size content.now) links.new.items) }
{
    let mut seen = BTreeMap::new(alloc);
    for (at, fid) in scan(content, size) {
        add_fid(alloc, links, &mut seen, at, &fid)?;
    }
    Ok(())
}

/// The links of an entry: of its pointer to a stream directory, and of the live FIDs of its content at blocks of `size` bytes.
pub fn links_of(
    alloc: Global,
    stream: Option<Long>,
    content: &[u8],
    size: u32,
) -> Result<Vec<Link>, AllocError>
    ensures { IfOk result (λ links. AreLinks (pointer_links (stream_of stream) ++ fid_links size content.now) links.items) }
{
    let mut links = pointer_of(alloc, stream)?;
    add_fids(alloc, &mut links, content, size)?;
    links.shrink_to_fit();
    Ok(links)
}
