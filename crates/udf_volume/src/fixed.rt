//! The addresses that no file of a volume may take, and the address after its file set.
ghost use Rattle.std.specs.Prelude.{◌≡◌, ◌||◌, ◌++◌, ◌∷◌, [], IfOk};
ghost use Rattle.udf_field.specs.declared.address.Addr.{Addr};
ghost use Rattle.udf_volume_model.specs.FileSet.{stretch_has};
ghost use Rattle.udf_volume.specs.Fixed.{in_stretch, stretches_over};

use crate::Stretch;
use std::alloc::{AllocError, Global};
use std::marker::Model;
use udf_field::Addr;

/// The addresses that no file may take, and the address after the file set. A contract sees the addresses as stretches.
#[derive(Debug, Drop)]
pub struct Fixed {
    stretches: Vec<Stretch>,
    after: Addr,
}

impl Model for Fixed {
    ghost use Rattle.udf_volume.specs.Fixed.{FixedAddresses};

    ghost Value = { FixedAddresses };

    ghost view = { λ fixed. record { stretches = fixed.stretches.items; after = fixed.after } };
}

#[tactic(auto, unfolding(udf_volume_model::specs::FileSet::stretch_has))]
fn has(stretch: Stretch, at: Addr) -> bool
    ensures { result ≡ stretch_has stretch.at stretch.blocks at }
{
    stretch.at.part == at.part
        && stretch.at.block <= at.block
        && (at.block as u64) < stretch.at.block as u64 + stretch.blocks as u64
}

impl Fixed {
    /// No address, with this one after the file set.
    pub(crate) fn none(alloc: Global, after: Addr) -> Fixed
        ensures stretches { result.stretches ≡ [] }
        ensures after { result.after ≡ after }
    {
        Fixed {
            stretches: Vec::new(alloc),
            after,
        }
    }

    fn push(self, stretch: Stretch) -> Result<Fixed, AllocError>
        ensures stretches { IfOk result (λ fixed. fixed.stretches ≡ self.stretches ++ stretch ∷ []) }
        ensures after { IfOk result (λ fixed. fixed.after ≡ self.after) }
    {
        let Fixed {
            mut stretches,
            after,
        } = self;
        stretches.push(stretch)?;
        Ok(Fixed { stretches, after })
    }

    /// With the addresses of a stretch beside, where there is one.
    #[tactic(auto, using(crate::proofs::Stretched::no_more))]
    pub(crate) fn with(self, stretch: Option<Stretch>) -> Result<Fixed, AllocError>
        ensures stretches { IfOk result (λ fixed. (a : Addr) → stretches_over fixed.stretches a ≡ (stretches_over self.stretches a || in_stretch stretch a)) }
        ensures after { IfOk result (λ fixed. fixed.after ≡ self.after) }
    {
        match stretch {
            None => Ok(self),
            Some(more) => self.push(more),
        }
    }

    /// Whether no file may take an address.
    #[tactic(auto, unfolding(crate::specs::Fixed::stretches_over))]
    pub fn holds(&self, at: Addr) -> bool
        ensures { result ≡ stretches_over self.now.stretches at }
    {
        self.stretches.iter().any(|stretch| has(*stretch, at))
    }

    /// The address after the extent of the file set.
    pub fn after(&self) -> Addr
        ensures { result ≡ self.now.after }
    {
        self.after
    }

    /// The addresses as stretches of blocks.
    pub fn stretches(&self) -> &[Stretch]
        ensures { result.now ≡ self.now.stretches }
    {
        &self.stretches
    }
}
