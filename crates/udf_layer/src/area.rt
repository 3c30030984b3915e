// Areas of an image.

/// A run of blocks, by its first sector.
#[derive(Clone, Copy, Debug, PartialEq, Eq)]
pub struct Area {
    pub start: u32,
    pub blocks: u32,
}
