// What descriptors are about, in an order.
ghost use Rattle.std.specs.Prelude.{◌≡◌, Some, nat_eq, refl, List, ◌∷◌};
ghost use Rattle.std.specs.Ordering.{nat_cmp};
ghost use Rattle.std.specs.Cmp.Lexicographic.{pointwise, slice_cmp, nat_list_eq_equiv, nat_list_cmp_total, texts_po, texts_ties};
ghost use Rattle.std.specs.Cmp.{partial_equiv_from_equiv};
ghost use Rattle.udf_volume_model.specs.Prevailing.{subject_of};

use crate::Descriptor;
use std::cmp::Ordering;
use std::marker::Model;

/// The kind of a descriptor and its subject, seen as one list: the identifier of its tag, then the bytes of its subject. Of
/// all descriptors with one matter the same one prevails (ECMA-167 3/8.4.3).
#[derive(Drop)]
pub(crate) struct Matter<'a> {
    kind: u16,
    subject: &'a [u8],
}

impl<'a> Model for Matter<'a> {
    ghost use Rattle.std.specs.Prelude.{ℕ, List, ◌∷◌};

    ghost Value = { List ℕ };

    ghost view = { λ matter. matter.kind ∷ matter.subject.now };
}

impl<'a> Matter<'a> {
    /// The matter of a descriptor.
    pub fn of(descriptor: &'a Descriptor) -> Matter<'a>
        ensures { result ≡ descriptor.now.id ∷ subject_of descriptor.now }
    {
        Matter {
            kind: descriptor.id(),
            subject: descriptor.subject(),
        }
    }
}

impl<'a> PartialEq for Matter<'a> {
    ghost eq = { pointwise nat_eq };

    ghost laws = { partial_equiv_from_equiv nat_list_eq_equiv };

    fn eq(&self, other: &Matter<'a>) -> bool {
        self.kind == other.kind && self.subject == other.subject
    }
}

impl<'a> Eq for Matter<'a> {
    ghost laws = { nat_list_eq_equiv };
}

impl<'a> PartialOrd for Matter<'a> {
    ghost partial_cmp = { λ a b. Some (slice_cmp nat_cmp a b) };

    ghost laws = { texts_po };

    fn partial_cmp(&self, other: &Matter<'a>) -> Option<Ordering> {
        Some(self.cmp(other))
    }
}

impl<'a> Ord for Matter<'a> {
    ghost cmp = { slice_cmp nat_cmp };

    ghost total = { nat_list_cmp_total };

    ghost matches_partial_cmp = { λ a b. refl };

    ghost matches_eq = { texts_ties };

    fn cmp(&self, other: &Matter<'a>) -> Ordering {
        let by_kind = self.kind.cmp(&other.kind);
        by_kind.then(self.subject.cmp(other.subject))
    }
}
