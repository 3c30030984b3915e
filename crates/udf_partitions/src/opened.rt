// The partitions of a volume.
ghost use Rattle.std.specs.Prelude.{◌≡◌, ◌<◌, ◌^◌, ℕ, true, Some};
ghost use Rattle.udf_field.specs.declared.address.Addr.{Addr};
ghost use Rattle.udf_file_model.specs.Address.{lone_places};
ghost use Rattle.udf_volume_model.specs.Areas.{packets_of, table_or_none};
ghost use Rattle.udf_volume_model.specs.Layout.{are_packets};
ghost use Rattle.udf_volume.specs.Areas.{areas_stated, partition_stated};
ghost use Rattle.udf_volume.specs.Laid.{IsLaidOut};
ghost use Rattle.udf_rules_model.specs.Places.{place_by};
ghost use Rattle.udf_partitions.specs.Base.{IsPartition, base_place};

use crate::Base;
use udf_layer::{One, Physical, Sparable, SparingTable};
use udf_volume::Volume;

// A volume's partition of blocks that follow one another, with its sparing table over it.
#[tactic(auto, using(crate::proofs::Placing::spare_there, crate::proofs::Placing::stands_inside))]
fn sparable(volume: &Volume, below: Physical, table: SparingTable) -> Base
    requires laid { IsLaidOut volume.now }
    requires few { volume.now.blocks < 2 ^ 32 }
    requires below { IsPartition volume.now below }
    requires packets { are_packets volume.now.blocks volume.now.anchor (areas_stated volume.now) (packets_of table) ≡ true }
    ensures place { (n : ℕ) → base_place result n ≡ place_by (partition_stated volume.now) table n }
    ensures inside { (n s : ℕ) → base_place result n ≡ Some s → s < volume.now.blocks }
{
    // A packet has a block, which keeps the places of two packets apart.
    let _blocks = table.packet();
    Base::Sparable(Sparable::new(below, table))
}

// The base partition of a volume over that of blocks that follow one another.
#[tactic(auto, using(crate::proofs::Placing::none_spared, crate::proofs::Placing::below_inside))]
fn base_of(volume: &Volume, below: Physical, table: Option<SparingTable>) -> Base
    requires laid { IsLaidOut volume.now }
    requires few { volume.now.blocks < 2 ^ 32 }
    requires below { IsPartition volume.now below }
    requires packets { are_packets volume.now.blocks volume.now.anchor (areas_stated volume.now) (packets_of (table_or_none table)) ≡ true }
    ensures place { (n : ℕ) → base_place result n ≡ place_by (partition_stated volume.now) (table_or_none table) n }
    ensures inside { (n s : ℕ) → base_place result n ≡ Some s → s < volume.now.blocks }
{
    match table {
        None => Base::Physical(below),
        Some(table) => sparable(volume, below, table),
    }
}

/// The partitions of a volume that was opened, with its sparing table, where it has one: the base partition alone, at the reference
/// 0 (ECMA-167 3/10.7, UDF 2.50 2.2.8 and 2.2.9).
#[tactic(auto, using(crate::proofs::Placing::partition_low, crate::proofs::Placing::all_inside, crate::proofs::Placing::same_places))]
pub fn partitions(volume: &Volume, table: Option<SparingTable>) -> One<Base>
    requires laid { IsLaidOut volume.now }
    requires few { volume.now.blocks < 2 ^ 32 }
    requires packets { are_packets volume.now.blocks volume.now.anchor (areas_stated volume.now) (packets_of (table_or_none table)) ≡ true }
    ensures place { (a : Addr) → lone_places 0 (base_place result.layer) a ≡ lone_places 0 (place_by (partition_stated volume.now) (table_or_none table)) a }
    ensures inside { (a : Addr) (s : ℕ) → lone_places 0 (base_place result.layer) a ≡ Some s → s < volume.now.blocks }
{
    let below = Physical::new(volume.start, volume.length);
    One::new(base_of(volume, below, table))
}
