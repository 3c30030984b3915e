//! What the prevailing descriptors of a volume state.
ghost use Rattle.std.specs.Prelude.{◌≡◌, ◌≤◌};
ghost use Rattle.udf_volume_model.specs.Anchor.{blocks_for};
ghost use Rattle.udf_volume.specs.Spans.{kept_span, other_span, limit_stated};

use crate::anchor::blocks_of;
use crate::{MetaMap, SparingMap};
use udf_field::{Long, Short, Span};

/// One of the two sequences that an anchor names.
#[derive(Clone, Copy, Debug, PartialEq, Eq)]
pub enum Which {
    Main,
    Reserve,
}

/// What stands over the base partition.
#[derive(Clone, Copy, Debug, PartialEq, Eq)]
pub enum Upper {
    Absent,
    Metadata(MetaMap),
    Virtual,
}

/// The layers of a volume's partitions; `base` is the index of the base partition's map.
#[derive(Clone, Copy, Debug, PartialEq, Eq)]
pub struct Shape {
    pub base: u16,
    pub sparing: Option<SparingMap>,
    pub upper: Upper,
}

/// A volume. Sizes are in bytes, sectors and counts in blocks of `size` bytes.
#[derive(Clone, Copy, Debug, PartialEq, Eq)]
pub struct Volume {
    /// The block size.
    pub size: u32,
    /// The number of whole blocks of the image.
    pub blocks: u32,
    /// The sector of the kept anchor.
    pub anchor: u32,
    /// The extent of the main sequence.
    pub main: Span,
    /// The extent of the reserve sequence.
    pub reserve: Span,
    /// The kept sequence.
    pub kept: Which,
    /// The number of its descriptors.
    pub count: u32,
    /// The sector of the prevailing primary descriptor.
    pub pvd: u32,
    /// The sector of the prevailing logical volume descriptor.
    pub lvd: u32,
    /// The sector of the partition's prevailing descriptor.
    pub pd: u32,
    /// The sector of the prevailing implementation use descriptor `*UDF LV Info`.
    pub info: Option<u32>,
    pub shape: Shape,
    /// The first sector of the partition.
    pub start: u32,
    /// The blocks of the partition.
    pub length: u32,
    /// The extent of the space bitmap in the partition, where its length is not 0.
    pub bitmap: Option<Short>,
    /// The extent of the integrity sequence.
    pub integrity: Span,
    /// The extent of the file set.
    pub file_set: Long,
    /// The revision in the domain's suffix, 0x0102 to 0x0260 in lawful volumes.
    pub revision: u16,
    /// The access type of the partition.
    pub access: u32,
    /// Whether a protection bit stands in the domain's suffix.
    pub guarded: bool,
}

impl Volume {
    /// The extent of the kept sequence.
    pub fn kept_extent(&self) -> Span
        ensures { result ≡ kept_span self.now }
    {
        match self.kept {
            Which::Main => self.main,
            Which::Reserve => self.reserve,
        }
    }

    /// The extent of the other sequence.
    pub fn other_extent(&self) -> Span
        ensures { result ≡ other_span self.now }
    {
        match self.kept {
            Which::Main => self.reserve,
            Which::Reserve => self.main,
        }
    }

    /// The blocks of an extent.
    pub fn blocks_of(&self, extent: Span) -> u32
        requires { 512 ≤ self.now.size }
        ensures { result ≡ blocks_for self.now.size extent.length }
    {
        blocks_of(self.size, extent.length)
    }

    /// The blocks of the smaller of both extents: a whole sequence has fewer descriptors.
    pub fn limit(&self) -> u32
        requires { 512 ≤ self.now.size }
        ensures { result ≡ limit_stated self.now }
    {
        self.blocks_of(self.main).min(self.blocks_of(self.reserve))
    }
}
