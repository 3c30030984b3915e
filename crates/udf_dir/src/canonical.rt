// What tells a name from others.
ghost use Rattle.std.specs.Prelude.{◌≡◌, IfOk, Some, nat_eq, refl};
ghost use Rattle.std.specs.Ordering.{nat_cmp};
ghost use Rattle.std.specs.Cmp.Lexicographic.{pointwise, slice_cmp, nat_list_eq_equiv, nat_list_cmp_total, texts_po, texts_ties};
ghost use Rattle.std.specs.Cmp.{on_equiv, on_per, on_po, on_total, partial_equiv_from_equiv};
ghost use Rattle.udf_file_model.specs.Name.{canonical, canonical_key, canonical_cmp};

use crate::same::decoded;
use std::alloc::Global;
use std::cmp::Ordering;
use std::marker::Model;
use udf_text::{Name, NoMemory};

/// What is equal of two names of a directory exactly where they are the same: the characters of a name, or its bytes where
/// they do not decode. A set of them tells all the names of a directory apart.
#[derive(Drop)]
pub struct CanonicalName {
    spelling: Spelling,
}

#[derive(Drop)]
enum Spelling {
    Decoded(Name),
    Raw(Vec<u8>),
}

impl Model for CanonicalName {
    ghost use Rattle.udf_file_model.specs.Name.{Canonical};
    ghost use Rattle.udf_dir.specs.Spelled.{spelled};

    ghost Value = { Canonical };

    ghost view = { λ name. spelled name.spelling };
}

/// The canonical name of the name with these bytes.
#[tactic(auto, using(crate::proofs::Ordered::decodes, crate::proofs::Ordered::decodes_not))]
pub fn canonical_name(alloc: Global, bytes: &[u8]) -> Result<CanonicalName, NoMemory>
    ensures { IfOk result (λ name. name ≡ canonical bytes.now) }
{
    match decoded(alloc, bytes)? {
        Some(name) => Ok(CanonicalName {
            spelling: Spelling::Decoded(name),
        }),
        None => {
            let copy = Vec::from_slice(alloc, bytes)?;
            Ok(CanonicalName {
                spelling: Spelling::Raw(copy),
            })
        }
    }
}

impl PartialEq for CanonicalName {
    ghost eq = { λ a b. pointwise nat_eq (canonical_key a) (canonical_key b) };

    ghost laws = { on_per canonical_key (partial_equiv_from_equiv nat_list_eq_equiv) };

    fn eq(&self, other: &CanonicalName) -> bool {
        self.cmp(other).is_eq()
    }
}

impl Eq for CanonicalName {
    ghost laws = { on_equiv canonical_key nat_list_eq_equiv };
}

impl PartialOrd for CanonicalName {
    ghost partial_cmp = { λ a b. Some (canonical_cmp a b) };

    ghost laws = { on_po canonical_key texts_po };

    fn partial_cmp(&self, other: &CanonicalName) -> Option<Ordering> {
        Some(self.cmp(other))
    }
}

impl Ord for CanonicalName {
    ghost cmp = { canonical_cmp };

    ghost total = { on_total canonical_key nat_list_cmp_total };

    ghost matches_partial_cmp = { λ a b. refl };

    ghost matches_eq = { λ a b. texts_ties (canonical_key a) (canonical_key b) };

    fn cmp(&self, other: &CanonicalName) -> Ordering {
        match (&self.spelling, &other.spelling) {
            (Spelling::Decoded(a), Spelling::Decoded(b)) => a.cmp(b),
            (Spelling::Decoded(_), Spelling::Raw(_)) => Ordering::Less,
            (Spelling::Raw(_), Spelling::Decoded(_)) => Ordering::Greater,
            (Spelling::Raw(a), Spelling::Raw(b)) => a.cmp(b),
        }
    }
}
