//! The blocks that rules want on an image. They are put in any order, and of two at a sector the first counts.
ghost use Rattle.std.specs.Prelude.{◌≡◌, ℕ, Bool, true, ◌++◌, ◌∷◌, [], List, OnOk};
ghost use Rattle.std.specs.List.{list_all};
ghost use Rattle.udf_wanted.specs.Wanted.{LookAlike};

use std::alloc::{AllocError, Global};
use std::collections::BTreeMap;
use std::marker::Model;

/// Wanted blocks, seen as the list of their sectors with the blocks, by ascending sectors.
#[derive(Drop)]
pub struct Wanted {
    alloc: Global,
    pub(crate) blocks: BTreeMap<u32, Vec<u8>>,
}

impl Model for Wanted {
    ghost use Rattle.std.specs.Prelude.{ℕ, List};
    ghost use Rattle.udf_wanted.specs.Kept.{kept};

    ghost Value = { List (ℕ × List ℕ) };

    ghost view = { λ wanted. kept wanted.blocks.entries };
}

impl Wanted {
    /// No block.
    pub fn new(alloc: Global) -> Wanted
        ensures { result ≡ [] }
    {
        Wanted {
            alloc,
            blocks: BTreeMap::new(alloc),
        }
    }

    /// Puts a block at a sector, unless one is there already.
    pub fn put(&mut self, sector: u32, block: &[u8]) -> Result<(), AllocError>
        ensures put { OnOk result (LookAlike self.new (self.old ++ (sector, block.now) ∷ [])) }
        ensures among { OnOk result ((test : ℕ × List ℕ → Bool) → list_all test self.old ≡ true → test (sector, block.now) ≡ true → list_all test self.new ≡ true) }
    {
        if self.blocks.contains_key(&sector) {
            return Ok(());
        }
        let block = block.to_vec(self.alloc)?;
        self.blocks.insert(sector, block)?;
        Ok(())
    }
}
