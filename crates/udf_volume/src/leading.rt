// The descriptors by which a volume is stated, found once in a kept sequence (ECMA-167 3/8.4.3).
ghost use Rattle.std.specs.Prelude.{◌≡◌, ◌<◌, ◌⊎◌, [], length, Some, true};
ghost use Rattle.udf_volume_model.specs.Kept.{has_id};
ghost use Rattle.udf_volume_model.specs.Prevailing.{prevailing_index as index_of};
ghost use Rattle.udf_volume.specs.Leads.{IsLeading};

use crate::Descriptor;
use crate::descriptor::{IMPLEMENTATION_USE, LOGICAL_VOLUME, PARTITION, PRIMARY};
use crate::maps::partition_number;
use crate::prevailing::{best_of, prevailing_index};

/// The descriptors that prevail in a list and by which a volume is stated, by their indexes.
#[derive(Clone, Copy, Debug)]
pub(crate) struct Leading {
    pub primary: usize,
    pub logical: usize,
    /// That with the partition number of the first map, where there is one.
    pub partition: Option<usize>,
    /// The implementation use descriptor with the volume's names, where there is one.
    pub information: Option<usize>,
}

/// The identifier of the implementation use descriptor with the volume's names (UDF 2.2.7).
const LV_INFO: [u8; 23] = *b"*UDF LV Info\0\0\0\0\0\0\0\0\0\0\0";

// The index of the descriptor that prevails of a kind that the list has and that has one subject.
#[tactic(auto, using(crate::proofs::Leads::is_there, crate::proofs::Prevail::is_found))]
fn index_of_only(list: &[Descriptor], kind: u16) -> usize
    requires kind { (kind ≡ 1) ⊎ (kind ≡ 6) }
    requires there { has_id kind list.now ≡ true }
    ensures index { Some result ≡ index_of kind [] list.now }
    ensures inside { result < length list.now }
{
    best_of(list, kind, &[]).unwrap()
}

/// The descriptors by which a volume is stated, of a list that has a primary and a logical volume descriptor.
pub(crate) fn leading_of(list: &[Descriptor]) -> Leading
    requires primary { has_id 1 list.now ≡ true }
    requires logical { has_id 6 list.now ≡ true }
    ensures { IsLeading list.now result }
{
    let primary = index_of_only(list, PRIMARY);
    let logical = index_of_only(list, LOGICAL_VOLUME);
    let partition = prevailing_index(list, PARTITION, partition_number(&list[logical]));
    let information = prevailing_index(list, IMPLEMENTATION_USE, &LV_INFO);
    Leading {
        primary,
        logical,
        partition,
        information,
    }
}
