// Layers: partitions whose blocks stand at sectors.
ghost use Rattle.std.specs.Prelude.{◌≡◌, ◌<◌, ℕ, Option, Some};
ghost use Rattle.udf_file_model.specs.Place.{placed_front};

/// A partition whose blocks stand at sectors of the image, some of them twice (ECMA-167 3/10.7, UDF 2.50 2.2.8 to 2.2.11).
/// Blocks are counted from 0.
pub trait Layer {
    /// How many blocks it has.
    ghost blocks: { Self → ℕ };

    /// The sector at which a block stands.
    ghost place: { Self → ℕ → Option ℕ };

    /// The second sector of a block.
    ghost twin: { Self → ℕ → Option ℕ };

    /// How many blocks it has.
    fn blocks(&self) -> u32
        ensures { result ≡ blocks self.now };

    /// The sector at which a block stands, if it does.
    fn locate(&self, block: u32) -> Option<u32>
        ensures { result ≡ place self.now block };

    /// The second sector of a block, if it has one.
    fn twin(&self, block: u32) -> Option<u32>
        ensures { result ≡ twin self.now block };

    /// How many of so many blocks from one on stand at sectors before the first that does not.
    fn placed(&self, block: u32, many: u32) -> u32
        ensures { result ≡ placed_front (place self.now) block many }
    {
        let limit = self.blocks();
        for i in 0..many {
            if limit as u64 <= block as u64 + i as u64 {
                return i;
            }
            if self.locate(block + i).is_none() {
                return i;
            }
        }
        many
    }

    /// Only its blocks stand at sectors.
    ghost within: { (layer : Self) (n s : ℕ) → place layer n ≡ Some s → n < blocks layer };

    /// Different blocks have different sectors.
    ghost apart: { (layer : Self) (m n s : ℕ) → place layer m ≡ Some s → place layer n ≡ Some s → m ≡ n };

    /// A twin differs from every sector of a block ..
    ghost twins_off: { (layer : Self) (m n s : ℕ) → place layer m ≡ Some s → twin layer n ≡ Some s → ⊥ };

    /// .. and from every other twin.
    ghost twins_apart: { (layer : Self) (m n s : ℕ) → twin layer m ≡ Some s → twin layer n ≡ Some s → m ≡ n };
}
