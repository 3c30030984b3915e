// Partition maps of type 2 (ECMA-167 3/10.7.3) that name what lies elsewhere in the volume.
ghost use Rattle.std.specs.Prelude.{◌≡◌};
ghost use Rattle.udf_layer.specs.Tables.{map_seen};

/// The sparing tables for which a sparable map has room.
const MOST_TABLES: usize = 4;

/// A sparable partition map (UDF 2.50 2.2.9): blocks in a packet, number of tables, bytes of a table, and the tables' sectors.
#[derive(Clone, Copy, Debug, PartialEq, Eq)]
pub struct SparingMap {
    pub packet: u16,
    pub count: u8,
    pub bytes: u32,
    pub at: [u32; 4],
}

impl SparingMap {
    /// The sectors of the tables: as many as the map counts, of the four for which it has room.
    #[tactic(auto, using(crate::proofs::Listed::listed))]
    pub fn tables(&self) -> &[u32]
        ensures { result.now ≡ (map_seen self.now).tables }
    {
        &self.at[..(self.count as usize).min(MOST_TABLES)]
    }
}

/// A metadata partition map (UDF 2.50 2.2.10): the blocks of the entries of the main, the mirror and the bitmap file
/// (0xFFFFFFFF for none), allocation and alignment unit in blocks, and the flags, of which bit 0 says that the mirror is a
/// duplicate.
#[derive(Clone, Copy, Debug, PartialEq, Eq)]
pub struct MetaMap {
    pub main: u32,
    pub mirror: u32,
    pub bitmap: u32,
    pub unit: u32,
    pub align: u16,
    pub flags: u8,
}
