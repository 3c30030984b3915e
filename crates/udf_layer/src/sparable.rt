// Sparable partitions (UDF 2.50 2.2.9): packets of which some stand elsewhere.
ghost use Rattle.std.specs.Prelude.{◌≡◌, ◌+◌, ◌<◌, ◌≤◌, ℕ, IsSome, None, List, true, Contains};
ghost use Rattle.udf_file_model.specs.Place.{physical_place, sparable_place};
ghost use Rattle.udf_layer.specs.declared.area.Area.{Area};
ghost use Rattle.udf_layer.specs.Lawful.{is_lawful};
ghost use Rattle.udf_layer.specs.Packets.{AreSpare};

use crate::{Layer, SparingTable};

/// A partition over another layer. The packets that its sparing table maps stand elsewhere, the others as in that layer.
#[derive(Drop)]
pub struct Sparable<L: Layer> {
    below: L,
    table: SparingTable,
    ghost some: { 0 < table.packet },
    ghost spare: { AreSpare table.packet table.pairs (L.place below) },
}

impl<L: Layer> Sparable<L> {
    /// The partition over a layer, with this table. A `lawful` table meets the condition over a physical partition that is
    /// one of the areas (`spare_law`).
    pub fn new(below: L, table: SparingTable) -> Sparable<L>
        requires { AreSpare table.packet table.pairs (L.place below) }
        ensures below { result.below ≡ below }
        ensures table { result.table ≡ table }
    {
        // A packet has a block, which keeps the places of two packets apart.
        let _blocks = table.packet();
        Sparable { below, table }
    }

    // How many of so many blocks from one on the layer below places together, or one where it places none and the block's
    // packet is mapped, or none.
    fn step(&self, block: u32, many: u32) -> u32
        requires some { 0 < many }
        requires inside { block < L.blocks self.now.below }
        ensures few { result ≤ many }
        ensures placed { (k : ℕ) → k < result → IsSome (sparable_place self.now.table.packet self.now.table.pairs (L.blocks self.now.below) (L.place self.now.below) (block + k)) }
        ensures gap { result ≡ 0 → sparable_place self.now.table.packet self.now.table.pairs (L.blocks self.now.below) (L.place self.now.below) block ≡ None }
    {
        let run = self.below.placed(block, many);
        if run > 0 {
            return run;
        }
        if self.table.spared(block).is_some() {
            1
        } else {
            0
        }
    }
}

impl<L: Layer> Layer for Sparable<L> {
    ghost use Rattle.udf_file_model.specs.Place.{nowhere, sparable_place};
    ghost use Rattle.udf_layer.specs.Spared.{sparable_within, sparable_apart};

    ghost blocks = { λ layer. L.blocks layer.below };

    ghost place = { λ layer. sparable_place layer.table.packet layer.table.pairs (L.blocks layer.below) (L.place layer.below) };

    ghost twin = { λ layer. nowhere };

    fn blocks(&self) -> u32 {
        self.below.blocks()
    }

    #[tactic(auto, unfolding(udf_file_model::specs::Place::sparable_place))]
    fn locate(&self, block: u32) -> Option<u32> {
        if block < self.below.blocks() {
            match self.table.spared(block) {
                Some(sector) => Some(sector),
                None => self.below.locate(block),
            }
        } else {
            None
        }
    }

    fn twin(&self, _: u32) -> Option<u32> {
        None
    }

    // Over a physical partition one step reaches the end.
    fn placed(&self, block: u32, many: u32) -> u32 {
        let limit = self.below.blocks();
        let mut front = 0;
        while front < many && (block as u64 + front as u64) < limit as u64 {
            let step = self.step(block + front, many - front);
            if step == 0 {
                return front;
            }
            front += step;
        }
        front
    }

    ghost within = { λ layer. sparable_within layer.table.packet layer.table.pairs (L.blocks layer.below) (L.place layer.below) };

    ghost apart = { λ layer. sparable_apart layer.table.packet layer.table.pairs (L.blocks layer.below) (L.place layer.below)
        layer.some layer.spare (L.apart layer.below) };

    ghost twins_off = { λ layer m n s p q. Prim.cc };

    ghost twins_apart = { λ layer m n s p q. Prim.cc };
}

/// A lawful table with the base partition among the areas is spare over that partition: `Sparable::new` may take both.
pub fn spare_law()
    ensures { (packet image : ℕ) (pairs : List (ℕ × ℕ)) (areas : List Area) (area : Area) → image < 4294967296 → Contains areas area
        → is_lawful packet pairs areas image ≡ true → AreSpare packet pairs (physical_place area.start area.blocks) }
{}
