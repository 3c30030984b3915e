// Physical partitions (ECMA-167 3/10.7.2): blocks that follow one another.
ghost use Rattle.std.specs.Prelude.{◌≡◌, ◌+◌, ◌<◌, ◌^◌};
ghost use Rattle.udf_file_model.specs.Place.{placed_front, physical_place};

use crate::Layer;

/// A partition whose blocks stand one after another, from a sector on.
#[derive(Clone, Copy, Debug, PartialEq, Eq)]
pub struct Physical {
    start: u32,
    blocks: u32,
    ghost fits: { start + blocks < 2 ^ 32 },
}

impl Physical {
    /// The partition of so many blocks from the sector `start` on.
    pub fn new(start: u32, blocks: u32) -> Physical
        requires { start + blocks < 2 ^ 32 }
        ensures start { result.start ≡ start }
        ensures blocks { result.blocks ≡ blocks }
    {
        Physical { start, blocks }
    }
}

impl Layer for Physical {
    ghost use Rattle.udf_file_model.specs.Place.{nowhere, physical_place};
    ghost use Rattle.udf_layer.specs.Physicals.{physical_within, physical_apart};

    ghost blocks = { λ layer. layer.blocks };

    ghost place = { λ layer. physical_place layer.start layer.blocks };

    ghost twin = { λ layer. nowhere };

    fn blocks(&self) -> u32 {
        self.blocks
    }

    #[tactic(auto, unfolding(udf_file_model::specs::Place::physical_place))]
    fn locate(&self, block: u32) -> Option<u32> {
        if block < self.blocks {
            Some(self.start + block)
        } else {
            None
        }
    }

    fn twin(&self, _: u32) -> Option<u32> {
        None
    }

    #[tactic(auto, using(crate::proofs::PlacedFronts::physical_front))]
    fn placed(&self, block: u32, many: u32) -> u32 {
        if block < self.blocks {
            many.min(self.blocks - block)
        } else {
            0
        }
    }

    ghost within = { λ layer. physical_within layer.start layer.blocks };

    ghost apart = { λ layer. physical_apart layer.start layer.blocks };

    ghost twins_off = { λ layer m n s p q. Prim.cc };

    ghost twins_apart = { λ layer m n s p q. Prim.cc };
}
