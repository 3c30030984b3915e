// Sparing tables (UDF 2.50 2.2.12), as they are used.
ghost use Rattle.std.specs.Prelude.{◌≡◌, ◌+◌, ◌++◌, ◌∷◌, [], ◌<◌, ◌^◌, IfOk, is_some, length, true, slice_get, Some, None};
ghost use Rattle.udf_file_model.specs.Place.{spared_to};
ghost use Rattle.udf_layer.specs.Indexes.{mapped_from};
ghost use Rattle.udf_layer.specs.Lawful.{is_lawful};
ghost use Rattle.udf_layer.specs.Packets.{outside_packets, packets_fit};

use crate::Area;
use crate::free::are_free;
use crate::sectors::{is_apart_from, is_outside};
use std::alloc::{AllocError, Global};
use std::collections::{BTreeMap, BTreeSet};
use std::marker::Model;

/// The entries of a sparing table that are used. A contract sees the blocks of a packet and the list of these entries, each the
/// first block of an original packet of the partition and the first sector of the packet to which it is mapped.
#[derive(Drop)]
pub struct SparingTable {
    packet: u32,
    pairs: Vec<(u32, u32)>,

    // The mapped packets by their originals, and their first sectors.
    moved: BTreeMap<u32, u32>,
    starts: BTreeSet<u64>,

    // Whether the mapped packets are pairwise apart.
    apart: bool,
}

impl Model for SparingTable {
    ghost use Rattle.udf_volume_model.specs.SparingTable.{Table};
    ghost use Rattle.udf_layer.specs.Indexes.{HasIndexes};

    ghost Value = { Table };

    ghost view = { λ table. record { packet = table.packet; pairs = table.pairs.items } };

    ghost invariant = { λ table. HasIndexes table.packet table.pairs.items table.moved table.starts table.apart };
}

impl SparingTable {
    /// The table of packets of so many blocks that maps none.
    pub(crate) fn new(alloc: Global, packet: u32) -> SparingTable
        requires { 0 < packet }
        ensures packet { result.packet ≡ packet }
        ensures pairs { result.pairs ≡ [] }
    {
        SparingTable {
            packet,
            pairs: Vec::new(alloc),
            moved: BTreeMap::new(alloc),
            starts: BTreeSet::new(alloc),
            apart: true,
        }
    }

    /// The blocks of a packet, at least one.
    pub fn packet(&self) -> u32
        ensures packet { result ≡ self.now.packet }
        ensures some { 0 < self.now.packet }
    {
        self.packet
    }

    /// How many entries are used.
    pub fn count(&self) -> u32
        ensures { result ≡ length self.now.pairs }
    {
        self.pairs.len() as u32
    }

    /// A used entry: the first block of its original packet, and the first sector of the packet to which it is mapped.
    pub fn pair(&self, i: u32) -> (u32, u32)
        requires { i < length self.now.pairs }
        ensures { Some result ≡ slice_get self.now.pairs i }
    {
        self.pairs[i as usize]
    }

    // The packet to which the first entry of an original maps.
    fn mapped(&self, original: u32) -> Option<u32>
        ensures { result ≡ mapped_from self.now.pairs original }
    {
        self.moved.get(&original).copied()
    }

    /// Whether an entry has this original.
    pub(crate) fn maps(&self, original: u32) -> bool
        ensures { result ≡ is_some (mapped_from self.now.pairs original) }
    {
        self.mapped(original).is_some()
    }

    /// The table with one entry more, whose original no other has.
    pub(crate) fn with(self, original: u32, sector: u32) -> Result<SparingTable, AllocError>
        requires new { mapped_from self.pairs original ≡ None }
        requires few { length self.pairs + 1 < 2 ^ 32 }
        ensures packet { IfOk result (λ table. table.packet ≡ self.packet) }
        ensures pairs { IfOk result (λ table. table.pairs ≡ self.pairs ++ (original, sector) ∷ []) }
    {
        let SparingTable {
            packet,
            mut pairs,
            mut moved,
            mut starts,
            apart,
        } = self;
        let is_apart = is_apart_from(&starts, packet, sector);
        moved.insert(original, sector)?;
        starts.insert(sector as u64)?;
        pairs.push((original, sector))?;
        Ok(SparingTable {
            packet,
            pairs,
            moved,
            starts,
            apart: apart & is_apart,
        })
    }

    /// The sector to which a block is mapped, if its packet is.
    #[tactic(auto, using(crate::proofs::Mapping::ends_low), unfolding(udf_file_model::specs::Place::spared_to))]
    pub(crate) fn spared(&self, block: u32) -> Option<u32>
        requires fit { packets_fit self.now.packet self.now.pairs ≡ true }
        ensures { result ≡ spared_to self.now.packet self.now.pairs block }
    {
        let distance = block % self.packet;
        match self.mapped(block - distance) {
            None => None,
            Some(first) => Some(first + distance),
        }
    }

    /// Whether a sector lies in none of the packets to which entries map.
    pub fn lies_outside(&self, sector: u32) -> bool
        ensures { result ≡ outside_packets self.now.packet self.now.pairs sector }
    {
        is_outside(&self.starts, self.packet, sector)
    }

    /// Whether each used packet lies in an image of so many blocks, starts above block 128, and is apart from these areas and from
    /// the other used packets. A call takes a step for each entry and area.
    #[tactic(auto, unfolding(crate::specs::Lawful::is_lawful))]
    pub fn lawful(&self, areas: &[Area], image: u32) -> bool
        ensures { result ≡ is_lawful self.now.packet self.now.pairs areas.now image }
    {
        are_free(self.packet, areas, image, &self.pairs) && self.apart
    }
}
