//! Where the parts of a test volume lie.
ghost use Rattle.std.specs.Prelude.{◌≤◌, ◌≡◌};

/// What the partition's map is.
#[derive(Clone, Copy, Debug, PartialEq, Eq)]
pub enum Layer {
    /// A type 1 map: the partition may be overwritten (access type 4).
    Physical,
    /// A sparable map with packets of 32 blocks (UDF 2.2.9): the partition is rewritable (access type 3). Its two tables stand
    /// in these blocks.
    Sparable([u32; 2]),
}

/// Where the parts of a volume lie. Places and lengths are in blocks.
#[derive(Clone, Copy, Debug, PartialEq, Eq)]
pub struct Form {
    /// The bytes of a block: 512, 1024, 2048 or 4096.
    pub size: u32,
    /// The blocks of the volume, more than 256.
    pub blocks: u32,
    /// The first block of the main sequence, of 16 blocks.
    pub main: u32,
    /// The first block of the reserve sequence, of 16 blocks.
    pub reserve: u32,
    /// The first block of the partition.
    pub start: u32,
    /// The length of the partition. Its bitmap of 24 bytes and a bit a block fits into 512 bytes.
    pub length: u32,
    /// A place of an anchor beside block 256 and the last one.
    pub anchor: Option<u32>,
    pub layer: Layer,
}

impl Form {
    /// The volume that `mkudffs` makes for a hard disk, of at least 290 blocks.
    pub fn hard_disk(size: u32, blocks: u32) -> Form
        requires { 290 ≤ blocks }
        ensures size { result.size ≡ size }
        ensures blocks { result.blocks ≡ blocks }
    {
        Form {
            size,
            blocks,
            main: 96,
            reserve: blocks - 17,
            start: 257,
            length: blocks - 274,
            anchor: None,
            layer: Layer::Physical,
        }
    }

    /// The volume that `mkudffs` makes for a rewritable CD, of at least 850 blocks: sparing tables in block 257 and before the
    /// reserve sequence, packets from block 288 on, and a partition of whole packets from block 800 on.
    pub fn rewritable_disc(size: u32, blocks: u32) -> Form
        requires { 850 ≤ blocks }
        ensures size { result.size ≡ size }
        ensures blocks { result.blocks ≡ blocks }
    {
        Form {
            size,
            blocks,
            main: 96,
            reserve: blocks - 17,
            start: 800,
            length: (blocks - 818) / 32 * 32,
            anchor: None,
            layer: Layer::Sparable([257, blocks - 18]),
        }
    }

    /// A volume whose partition of 80 blocks lies before block 256, with anchors in block 256 and the last one.
    pub fn two_anchors(size: u32, blocks: u32) -> Form
        requires { 257 ≤ blocks }
        ensures size { result.size ≡ size }
        ensures blocks { result.blocks ≡ blocks }
    {
        Form {
            size,
            blocks,
            main: 132,
            reserve: 148,
            start: 170,
            length: 80,
            anchor: None,
            layer: Layer::Physical,
        }
    }

    /// A volume of at least 540 blocks whose partition of 80 blocks lies before block 256, so that each of the three places of
    /// an anchor may bear one (ECMA-167 3/8.4.2.1).
    pub fn three_anchors(size: u32, blocks: u32) -> Form
        requires { 257 ≤ blocks }
        ensures size { result.size ≡ size }
        ensures blocks { result.blocks ≡ blocks }
    {
        Form {
            size,
            blocks,
            main: 132,
            reserve: 148,
            start: 170,
            length: 80,
            anchor: Some(blocks - 257),
            layer: Layer::Physical,
        }
    }
}
