// The partitions of a volume: addresses that stand at sectors.
ghost use Rattle.std.specs.Prelude.{◌≡◌, ◌<◌, ◌≤◌, ℕ, Bool, false, Option, Some};
ghost use Rattle.udf_field.specs.declared.address.Addr.{Addr};
ghost use Rattle.udf_file_model.specs.Address.{placed_blocks};
ghost use Rattle.udf_layer.specs.StandsAt.{StandsAt};

use crate::Layer;
use udf_field::Addr;

/// The partitions of a volume, by their references, which are the indexes of the partition maps (ECMA-167 4/7.1).
pub trait Parts {
    type Base: Layer;

    /// The base partition.
    ghost base: { Self → Self.Base };

    /// How many references there are.
    ghost count: { Self → ℕ };

    /// How many blocks a reference has.
    ghost blocks: { Self → ℕ → ℕ };

    /// The sector at which an address stands.
    ghost place: { Self → Addr → Option ℕ };

    /// The second sector of an address.
    ghost twin: { Self → Addr → Option ℕ };

    /// Whether an upper partition stands on the address.
    ghost inner: { Self → Addr → Bool };

    /// The base partition.
    fn base(&self) -> &Self::Base
        ensures { result.now ≡ base self.now };

    /// How many references there are: 1 or 2.
    fn count(&self) -> u16
        ensures { result ≡ count self.now };

    /// How many blocks a reference has; 0 where there is no such reference.
    fn blocks(&self, part: u16) -> u32
        ensures { result ≡ blocks self.now part };

    /// The sector at which an address stands, if it does.
    fn locate(&self, at: Addr) -> Option<u32>
        ensures { result ≡ place self.now at };

    /// The second sector of an address, if it has one.
    fn twin(&self, at: Addr) -> Option<u32>
        ensures { result ≡ twin self.now at };

    /// Whether an upper partition stands on the address.
    fn inner(&self, at: Addr) -> bool
        ensures { result ≡ inner self.now at };

    /// How many of so many blocks from an address on, in its partition, are placed before the first that is not.
    fn placed(&self, at: Addr, many: u32) -> u32
        ensures { result ≡ placed_blocks (place self.now) at many }
    {
        let limit = self.blocks(at.part);
        for i in 0..many {
            if limit as u64 <= at.block as u64 + i as u64 {
                return i;
            }
            let next = Addr {
                part: at.part,
                block: at.block + i,
            };
            if self.locate(next).is_none() {
                return i;
            }
        }
        many
    }

    /// There are at most two.
    ghost few: { (parts : Self) → count parts ≤ 2 };

    /// Only addresses of the references ..
    ghost within_count: { (parts : Self) (a : Addr) (s : ℕ) → place parts a ≡ Some s → a.part < count parts };

    /// .. and of their blocks are placed.
    ghost within_blocks: { (parts : Self) (a : Addr) (s : ℕ) → place parts a ≡ Some s → a.block < blocks parts a.part };

    /// Different addresses of one reference have different sectors.
    ghost apart_in_part: { (parts : Self) (a b : Addr) (s : ℕ) → a.part ≡ b.part → place parts a ≡ Some s → place parts b ≡ Some s → a ≡ b };

    /// Sectors and twins of different addresses that are not inner are all different.
    ghost apart: { (parts : Self) (a b : Addr) (s : ℕ) → inner parts a ≡ false → inner parts b ≡ false
        → StandsAt (place parts) (twin parts) a s → StandsAt (place parts) (twin parts) b s → a ≡ b };
}
