// The base partition of a volume.
use udf_layer::{Layer, Physical, Sparable};

/// The base partition of a volume: its blocks follow one another, or some packets of them stand elsewhere.
#[derive(Drop)]
pub enum Base {
    Physical(Physical),
    Sparable(Sparable<Physical>),
}

impl Layer for Base {
    ghost use Rattle.udf_file_model.specs.Place.{nowhere};
    ghost use Rattle.udf_partitions.specs.Base.{base_blocks, base_place, base_within, base_apart};

    ghost blocks = { base_blocks };

    ghost place = { base_place };

    ghost twin = { λ base. nowhere };

    fn blocks(&self) -> u32 {
        match self {
            Base::Physical(layer) => layer.blocks(),
            Base::Sparable(layer) => layer.blocks(),
        }
    }

    fn locate(&self, block: u32) -> Option<u32> {
        match self {
            Base::Physical(layer) => layer.locate(block),
            Base::Sparable(layer) => layer.locate(block),
        }
    }

    fn twin(&self, _: u32) -> Option<u32> {
        None
    }

    fn placed(&self, block: u32, many: u32) -> u32 {
        match self {
            Base::Physical(layer) => layer.placed(block, many),
            Base::Sparable(layer) => layer.placed(block, many),
        }
    }

    ghost within = { base_within };

    ghost apart = { base_apart };

    ghost twins_off = { λ base m n s p q. Prim.cc };

    ghost twins_apart = { λ base m n s p q. Prim.cc };
}
