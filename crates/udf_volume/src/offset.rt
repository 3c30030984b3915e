//! Offsets of fields in descriptors, behind the tag.
use crate::descriptor::TAG;

/// Of a logical volume descriptor (ECMA-167 3/10.6): the block size, the domain's identifier behind its flags, and of the
/// domain's suffix (UDF 2.1.5.3) the revision and the protection bits.
pub(crate) const BLOCK_SIZE: usize = 212 - TAG;

pub(crate) const DOMAIN: usize = 217 - TAG;

pub(crate) const REVISION: usize = 240 - TAG;

pub(crate) const PROTECTION: usize = 242 - TAG;

/// Its file set, the length of its map table in bytes, the number of its maps, its integrity extent, and its map table.
pub(crate) const FILE_SET: usize = 248 - TAG;

pub(crate) const MAP_TABLE_LENGTH: usize = 264 - TAG;

pub(crate) const MAP_COUNT: usize = 268 - TAG;

pub(crate) const INTEGRITY: usize = 432 - TAG;

pub(crate) const MAPS: usize = 440 - TAG;

/// Of a partition descriptor (3/10.5), in the header in its contents use (4/14.3): the space table and bitmap, the integrity
/// table, and the table and bitmap of freed space.
pub(crate) const SPACE_TABLE: usize = 56 - TAG;

pub(crate) const SPACE_BITMAP: usize = 64 - TAG;

pub(crate) const INTEGRITY_TABLE: usize = 72 - TAG;

pub(crate) const FREED_TABLE: usize = 80 - TAG;

pub(crate) const FREED_BITMAP: usize = 88 - TAG;

/// Its access type, its first sector and its blocks.
pub(crate) const ACCESS: usize = 184 - TAG;

pub(crate) const START: usize = 188 - TAG;

pub(crate) const LENGTH: usize = 192 - TAG;
