//! A plan: blocks at ascending sectors.
ghost use Rattle.std.specs.Prelude.{◌≡◌, ◌<◌, ◌++◌, ◌∷◌, [], length, slice_get, Some, OnOk, OnErr, true};
ghost use Rattle.udf_blocks.specs.Planned.{are_below, IsLawful};

use std::alloc::Global;
use std::marker::Model;
use udf_outside::NoMemory;

/// One block of a plan.
#[derive(Drop)]
pub(crate) struct Placed {
    pub sector: u32,
    pub block: Vec<u8>,
}

/// Blocks of one size, by ascending sectors.
#[derive(Drop)]
pub struct Plan {
    alloc: Global,
    size: u32,
    blocks: Vec<Placed>,
}

impl Model for Plan {
    ghost use Rattle.udf_blocks.specs.Planned.{Planned, IsLawful};
    ghost use Rattle.udf_blocks.specs.Recorded.{recorded};

    ghost Value = { Planned };

    ghost view = { λ plan. record { size = plan.size; blocks = recorded plan.blocks.items } };

    ghost invariant = { λ plan. IsLawful (record { size = plan.size; blocks = recorded plan.blocks.items }) };
}

impl Plan {
    /// A plan without blocks. `size` is the block size in bytes.
    pub fn blank(alloc: Global, size: u32) -> Plan
        ensures { result ≡ record { size = size; blocks = [] } }
    {
        Plan {
            alloc,
            size,
            blocks: Vec::new(alloc),
        }
    }

    /// Appends a block, whose sector is above all those before it.
    pub fn push(&mut self, sector: u32, block: &[u8]) -> Result<(), NoMemory>
        requires sized { length block.now ≡ self.old.size }
        requires above { are_below sector self.old.blocks ≡ true }
        requires below { sector < 4294967295 }
        ensures pushed { OnOk result (self.new ≡ record self.old { blocks = self.old.blocks ++ (sector, block.now) ∷ [] }) }
        ensures unchanged { OnErr result (self.new ≡ self.old) }
    {
        let block = block.to_vec(self.alloc)?;
        self.blocks.push(Placed { sector, block })?;
        Ok(())
    }

    /// The block size in bytes.
    pub fn size(&self) -> u32
        ensures { result ≡ self.now.size }
    {
        self.size
    }

    /// The number of blocks.
    pub fn len(&self) -> u32
        ensures count { result ≡ length self.now.blocks }
        ensures lawful { IsLawful self.now }
    {
        self.blocks.len() as u32
    }

    /// The sector and the bytes of a block, by its index.
    pub fn block(&self, i: u32) -> (u32, &[u8])
        requires { i < length self.now.blocks }
        ensures { slice_get self.now.blocks i ≡ Some (result.0, result.1.now) }
    {
        let placed = &self.blocks[i as usize];
        (placed.sector, &placed.block)
    }
}
