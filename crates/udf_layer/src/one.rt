// Volumes of one partition map.
ghost use Rattle.std.specs.Prelude.{◌≡◌};

use crate::{Layer, Parts};
use udf_field::Addr;

/// The partition of a volume with one map, which has the reference 0.
#[derive(Debug, Drop)]
pub struct One<L: Layer> {
    layer: L,
}

impl<L: Layer> One<L> {
    /// The volume of this partition alone.
    pub fn new(layer: L) -> One<L>
        ensures { result.layer ≡ layer }
    {
        One { layer }
    }
}

impl<L: Layer> Parts for One<L> {
    ghost use Rattle.std.proofs.Common.{arith};
    ghost use Rattle.udf_file_model.specs.Address.{lone_places};
    ghost use Rattle.udf_layer.specs.StandsAt.{none_inner};
    ghost use Rattle.udf_layer.specs.Lone.{all_apart, lone_apart, lone_apart_in_part, lone_within, part_blocks};

    type Base = L;

    ghost base = { λ parts. parts.layer };

    ghost count = { λ parts. 1 };

    ghost blocks = { λ parts. part_blocks 0 (L.blocks parts.layer) };

    ghost place = { λ parts. lone_places 0 (L.place parts.layer) };

    ghost twin = { λ parts. lone_places 0 (L.twin parts.layer) };

    ghost inner = { λ parts. none_inner };

    fn base(&self) -> &L {
        &self.layer
    }

    fn count(&self) -> u16 {
        1
    }

    #[tactic(auto, unfolding(crate::specs::Lone::part_blocks))]
    fn blocks(&self, part: u16) -> u32 {
        if part == 0 { self.layer.blocks() } else { 0 }
    }

    #[tactic(auto, unfolding(udf_file_model::specs::Address::lone_places))]
    fn locate(&self, at: Addr) -> Option<u32> {
        if at.part == 0 {
            self.layer.locate(at.block)
        } else {
            None
        }
    }

    #[tactic(auto, unfolding(udf_file_model::specs::Address::lone_places))]
    fn twin(&self, at: Addr) -> Option<u32> {
        if at.part == 0 {
            self.layer.twin(at.block)
        } else {
            None
        }
    }

    fn inner(&self, _: Addr) -> bool {
        false
    }

    #[tactic(auto, using(crate::proofs::PlacedFronts::lone_front, crate::proofs::PlacedFronts::no_front))]
    fn placed(&self, at: Addr, many: u32) -> u32 {
        if at.part == 0 {
            self.layer.placed(at.block, many)
        } else {
            0
        }
    }

    ghost few = { λ parts. Prim.omega arith };

    ghost within_count = { λ parts a s h. (lone_within 0 (L.place parts.layer) (L.blocks parts.layer) (L.within parts.layer) a s h).0 };

    ghost within_blocks = { λ parts a s h. (lone_within 0 (L.place parts.layer) (L.blocks parts.layer) (L.within parts.layer) a s h).1 };

    ghost apart_in_part = { λ parts. lone_apart_in_part 0 (L.place parts.layer) (L.apart parts.layer) };

    ghost apart = { λ parts a b s x y. lone_apart 0 (L.place parts.layer) (L.twin parts.layer)
        (all_apart (L.place parts.layer) (L.twin parts.layer) (L.apart parts.layer) (L.twins_off parts.layer) (L.twins_apart parts.layer)) a b s };
}
