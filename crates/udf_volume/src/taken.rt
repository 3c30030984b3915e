//! What a volume takes of its image: its areas, and the packets of its sparing table.
ghost use Rattle.std.specs.Prelude.{◌≡◌, ◌≤◌, ◌++◌, map, Some, true, IfOk, IfErr, OnOk};
ghost use Rattle.udf_outside.specs.Reads.{OnlyReads};
ghost use Rattle.udf_outside.specs.Sectors.{disk_of};
ghost use Rattle.udf_layer.specs.Read.{IsTableStop};
ghost use Rattle.udf_volume_model.specs.Areas.{is_outside, packets_of, taken};
ghost use Rattle.udf_volume_model.specs.Layout.{anchor_areas, are_packets, earlier};
ghost use Rattle.udf_volume.specs.Areas.{area_seen, areas_stated, block_area, layout_seen};
ghost use Rattle.udf_volume.specs.Laid.{IsLaidOut};
ghost use Rattle.udf_volume.specs.Over.{IsOver};
ghost use Rattle.udf_volume.specs.Taken.{IsTaken, Lays, SparesBy};

use crate::anchor::places_of;
use crate::{Area, LayerStop, Missing, SparingMap, Volume, areas_of, lies_outside};
use std::alloc::{AllocError, Global};
use udf_layer::{SparingTable, sparing_table};
use udf_outside::Bench;

/// What a volume takes of its image: its areas, and its sparing table, whose packets are taken too, where it has one.
#[derive(Drop)]
pub struct Layout {
    pub areas: Vec<Area>,
    pub table: Option<SparingTable>,
}

impl Layout {
    /// Whether a sector lies in no area and in no used packet.
    #[tactic(auto, using(crate::proofs::Packets::in_area, crate::proofs::Packets::no_packets, crate::proofs::Packets::in_packets))]
    pub fn lies_outside(&self, sector: u32) -> bool
        ensures { result ≡ is_outside (taken (layout_seen self.now)) sector }
    {
        if !lies_outside(&self.areas, sector) {
            return false;
        }
        match &self.table {
            None => true,
            Some(table) => table.lies_outside(sector),
        }
    }
}

// Adds the places before one as areas of one block.
#[tactic(auto, using(crate::proofs::Packets::none_before, crate::proofs::Packets::kept_before))]
fn add_places_before(areas: &mut Vec<Area>, places: &[u32], kept: u32) -> Result<(), AllocError>
    ensures { OnOk result (map area_seen areas.new.items ≡ map area_seen areas.old.items ++ map block_area (earlier kept places.now)) }
{
    let Some((first, rest)) = places.split_first() else {
        return Ok(());
    };
    if *first == kept {
        return Ok(());
    }
    areas.push(Area {
        start: *first,
        blocks: 1,
    })?;
    add_places_before(areas, rest, kept)
}

// The areas of a volume, and its kept anchor and the places before it as areas of one block: what a used packet is to be apart
// from.
fn areas_and_anchors(alloc: Global, volume: &Volume) -> Result<Vec<Area>, AllocError>
    requires { 512 ≤ volume.now.size }
    ensures { IfOk result (λ v. map area_seen v.items ≡ areas_stated volume.now ++ anchor_areas volume.now.blocks volume.now.anchor) }
{
    let mut areas = areas_of(alloc, volume)?;
    let places = places_of(alloc, volume.blocks)?;
    areas.push(Area {
        start: volume.anchor,
        blocks: 1,
    })?;
    add_places_before(&mut areas, &places, volume.anchor)?;
    Ok(areas)
}

// The sparing table that prevails of those that a map lists, where it is lawful.
#[tactic(auto, using(crate::proofs::Packets::has_map, crate::proofs::Packets::unprevailing))]
fn lawful_table<B: Bench>(
    alloc: Global,
    bench: &mut B,
    volume: &Volume,
    map: &SparingMap,
) -> Result<SparingTable, LayerStop>
    requires over { IsOver volume.now (B.files bench.old) }
    requires laid { IsLaidOut volume.now }
    requires map { volume.now.shape.sparing ≡ Some map.now }
    ensures table { B.tells → SparesBy volume.now (disk_of volume.now.size (B.held bench.old)) result }
    ensures packets { IfOk result (λ table. are_packets volume.now.blocks volume.now.anchor (areas_stated volume.now) (packets_of table) ≡ true) }
    ensures refusal { IfErr result IsTableStop }
    ensures reads { OnlyReads B.files B.held B.faults bench.old bench.new LayerStop.Fault result }
{
    let table = sparing_table(alloc, bench, volume.size, map, volume.length)?;
    let areas = areas_and_anchors(alloc, volume)?;
    if table.lawful(&areas, volume.blocks) {
        Ok(table)
    } else {
        Err(LayerStop::Missing(Missing::SparingTable))
    }
}

/// The layout of a volume of the image. `Missing(SparingTable)` where it is sparable and no sparing table is whole, or a used packet
/// of the prevailing one does not lie in the image, above block 128, apart from the areas, the kept anchor, the places before it
/// and the other used packets (UDF 2.50 2.2.12).
#[tactic(auto, using(crate::proofs::Packets::physical_spared, crate::proofs::Packets::physical_layout, crate::proofs::Packets::none_packed, crate::proofs::Packets::sparable_layout))]
pub fn layout_of<B: Bench>(
    alloc: Global,
    bench: &mut B,
    volume: &Volume,
) -> Result<Layout, LayerStop>
    requires over { IsOver volume.now (B.files bench.old) }
    requires laid { IsLaidOut volume.now }
    ensures answers { B.tells → Lays volume.now (disk_of volume.now.size (B.held bench.old)) result }
    ensures taken { IfOk result (IsTaken volume.now) }
    ensures refusal { IfErr result IsTableStop }
    ensures reads { OnlyReads B.files B.held B.faults bench.old bench.new LayerStop.Fault result }
{
    let areas = areas_of(alloc, volume)?;
    let table = match &volume.shape.sparing {
        None => None,
        Some(map) => Some(lawful_table(alloc, bench, volume, map)?),
    };
    Ok(Layout { areas, table })
}
