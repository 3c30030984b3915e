// The prevailing descriptors of a whole list, found in one pass (ECMA-167 3/8.4.3).
ghost use Rattle.std.specs.Prelude.{◌≡◌, ◌+◌, ◌<◌, length, IfOk, OnOk, IfSome};
ghost use Rattle.std.specs.Option.{option_copied};
ghost use Rattle.udf_volume_model.specs.Prevailing.{subject_of, prevailing as prevails_in, prevailing_index as index_of};
ghost use Rattle.udf_volume.specs.Best.{AreBest};

use crate::Descriptor;
use crate::matter::Matter;
use crate::prevailing::higher;
use std::alloc::{AllocError, Global};
use std::collections::BTreeMap;
use std::marker::Model;

/// A list of descriptors, seen as the list, with the index of the best one of each matter.
#[derive(Drop)]
pub(crate) struct Ranked<'a> {
    list: &'a [Descriptor],
    best: BTreeMap<Matter<'a>, usize>,
}

impl<'a> Model for Ranked<'a> {
    ghost use Rattle.std.specs.Prelude.{List, length};
    ghost use Rattle.udf_volume_model.specs.Sequence.{Descriptor};
    ghost use Rattle.udf_volume.specs.Best.{AreBest};

    ghost Value = { List Descriptor };

    ghost view = { λ ranked. ranked.list.now };

    ghost invariant = { λ ranked. AreBest ranked.list.now (length ranked.list.now) ranked.best };
}

// Takes the descriptor at an index to those before it.
fn take_next<'a>(
    best: &mut BTreeMap<Matter<'a>, usize>,
    list: &'a [Descriptor],
    at: usize,
) -> Result<(), AllocError>
    requires inside { at < length list.now }
    requires before { AreBest list.now at best.old }
    ensures { OnOk result (AreBest list.now (at + 1) best.new) }
{
    let matter = Matter::of(&list[at]);
    let before = best.get(&matter).copied();
    let index = higher(list, before, at);
    best.insert(matter, index)?;
    Ok(())
}

impl<'a> Ranked<'a> {
    /// A list, ranked.
    #[tactic(auto, using(crate::proofs::Ranking::none_yet))]
    pub fn of(alloc: Global, list: &'a [Descriptor]) -> Result<Ranked<'a>, AllocError>
        ensures { IfOk result (λ ranked. ranked ≡ list.now) }
    {
        let mut best: BTreeMap<Matter<'a>, usize> = BTreeMap::new(alloc);
        for at in 0..list.len() {
            take_next(&mut best, list, at)?;
        }
        Ok(Ranked { list, best })
    }

    // The index of the descriptor that prevails of the matter of another.
    #[tactic(auto, using(crate::proofs::Ranking::is_found, crate::proofs::Ranking::is_inside))]
    fn index_like(&self, like: &'a Descriptor) -> Option<usize>
        ensures index { result ≡ index_of like.now.id (subject_of like.now) self.now }
        ensures inside { IfSome result (λ i. i < length self.now) }
    {
        self.best.get(&Matter::of(like)).copied()
    }

    /// The descriptor that prevails of the matter of another.
    #[tactic(auto, using(crate::proofs::Prevail::found, crate::proofs::Prevail::not_found))]
    pub fn prevailing(&self, like: &'a Descriptor) -> Option<&'a Descriptor>
        ensures { option_copied result ≡ prevails_in like.now.id (subject_of like.now) self.now }
    {
        match self.index_like(like) {
            None => None,
            Some(index) => Some(&self.list[index]),
        }
    }
}
