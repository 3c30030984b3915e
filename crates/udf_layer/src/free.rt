// Packets that lie where nothing else of a volume does.
ghost use Rattle.std.specs.Prelude.{◌≡◌};
ghost use Rattle.std.specs.List.{list_all};
ghost use Rattle.udf_layer.specs.Lawful.{area_apart, is_free};

use crate::Area;

/// A packet starts above this block: those up to it are the recognition sequence's (ECMA-167 2/8.3).
const LAST_RESERVED: u32 = 128;

// Whether a packet is apart from an area.
#[tactic(auto, unfolding(crate::specs::Lawful::area_apart))]
fn is_apart(packet: u32, first: u32, area: &Area) -> bool
    ensures { result ≡ area_apart packet first area.now }
{
    if area.blocks == 0 {
        return true;
    }
    if area.start as u64 + area.blocks as u64 <= first as u64 {
        return true;
    }
    first as u64 + packet as u64 <= area.start as u64
}

fn is_apart_from(packet: u32, first: u32, areas: &[Area]) -> bool
    ensures { result ≡ list_all (area_apart packet first) areas.now }
{
    areas.iter().all(|area| is_apart(packet, first, area))
}

#[tactic(auto, unfolding(crate::specs::Lawful::is_free))]
fn is_free_packet(packet: u32, areas: &[Area], image: u32, first: u32) -> bool
    ensures { result ≡ is_free packet areas.now image first }
{
    if first as u64 + packet as u64 > image as u64 {
        return false;
    }
    if first <= LAST_RESERVED {
        return false;
    }
    is_apart_from(packet, first, areas)
}

/// Whether each packet to which an entry maps lies in an image of so many blocks, starts above block 128, and is apart from some
/// areas.
pub(crate) fn are_free(packet: u32, areas: &[Area], image: u32, pairs: &[(u32, u32)]) -> bool
    ensures { result ≡ list_all (λ pair. is_free packet areas.now image pair.1) pairs.now }
{
    pairs
        .iter()
        .all(|pair| is_free_packet(packet, areas, image, pair.1))
}
