//! Prevailing descriptors (ECMA-167 3/8.4.3).
ghost use Rattle.std.specs.Prelude.{◌≡◌, ◌+◌, ◌<◌, ℕ, List, length, Some, true, slice_get, IfSome};
ghost use Rattle.std.specs.Option.{ForSome};
ghost use Rattle.udf_volume_model.specs.Sequence as model;
ghost use Rattle.udf_volume_model.specs.Prevailing.{is_of, prevailing_index as index_of};
ghost use Rattle.udf_volume.specs.Best.{IsBest};

use crate::Descriptor;

#[tactic(auto, unfolding(udf_volume_model::specs::Prevailing::is_of))]
fn is_about(descriptor: &Descriptor, kind: u16, subject: &[u8]) -> bool
    ensures { result ≡ is_of kind subject.now descriptor.now }
{
    descriptor.id() == kind && descriptor.subject() == subject
}

// The best of the front up to the descriptor at an index, which is of the kind and subject, from the best before it.
#[tactic(auto, using(crate::proofs::Prevail::first, crate::proofs::Prevail::rises, crate::proofs::Prevail::stays))]
pub(crate) fn higher(list: &[Descriptor], best: Option<usize>, at: usize) -> usize
    requires inside { at < length list.now }
    requires best_inside { ForSome best (λ b. b < length list.now) }
    ensures best { (kind : ℕ) (subject : List ℕ) (descriptor : model.Descriptor) → IsBest kind subject list.now at best
        → slice_get list.now at ≡ Some descriptor → is_of kind subject descriptor ≡ true
        → IsBest kind subject list.now (at + 1) (Some result) }
    ensures inside { result < length list.now }
{
    let Some(highest) = best else {
        return at;
    };
    if list[highest].number() < list[at].number() {
        at
    } else {
        highest
    }
}

/// The index of the best descriptor of a kind and subject.
#[tactic(auto, using(crate::proofs::Prevail::begins, crate::proofs::Prevail::passes))]
pub(crate) fn best_of(list: &[Descriptor], kind: u16, subject: &[u8]) -> Option<usize>
    ensures best { IsBest kind subject.now list.now (length list.now) result }
    ensures inside { IfSome result (λ i. i < length list.now) }
{
    let mut best: Option<usize> = None;
    for (i, descriptor) in list.iter().enumerate() {
        if is_about(descriptor, kind, subject) {
            best = Some(higher(list, best, i));
        }
    }
    best
}

/// The index of the descriptor that prevails of a kind, which is the identifier of its tag, and a subject
/// (`Descriptor::subject`).
#[tactic(auto, using(crate::proofs::Prevail::is_found))]
pub(crate) fn prevailing_index(list: &[Descriptor], kind: u16, subject: &[u8]) -> Option<usize>
    ensures index { result ≡ index_of kind subject.now list.now }
    ensures inside { IfSome result (λ i. i < length list.now) }
{
    best_of(list, kind, subject)
}
