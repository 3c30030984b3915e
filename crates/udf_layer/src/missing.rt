// Why an image is no volume of this profile, and why a layer gave no answer.
ghost use Rattle.std.specs.Prelude.{◌≡◌};
ghost use Rattle.udf_layer.specs.declared.missing.WorkStop.TheVariants.{Fault, Memory};
ghost use Rattle.udf_layer.specs.declared.missing.LayerStop.TheVariants as stops;

use std::alloc::{AllocError, AllocFailed};
use udf_outside::Failed;

/// What a volume asks that this profile has not.
#[derive(Clone, Copy, Debug, PartialEq, Eq)]
pub enum ProfileItem {
    /// Another block size than the given one.
    BlockSize,
    /// Another domain than `*OSTA UDF Compliant`.
    Domain,
    /// A revision outside 1.00 to 2.60.
    Revision,
    /// A volume descriptor pointer.
    VolumePointer,
    /// Partition maps of none of the five shapes, whose partition is not described, or whose packets or sparing tables are none.
    PartitionMaps,
    /// A partition that is not built yet: a metadata or a virtual one.
    Unbuilt,
    /// A space table, an integrity table or freed space.
    SpaceTables,
    /// A prevailing integrity descriptor that names a further extent of integrity descriptors (ECMA-167 3/10.10.4).
    IntegrityChain,
    /// A file set that names a further extent of file sets (ECMA-167 4/14.1.17).
    FileSets,
    /// A found entry of another strategy than 4, or a link to an indirect entry (ECMA-167 4/14.6.2 and 4/14.7).
    Strategy,
    /// A found entry with extended allocation descriptors (ECMA-167 4/14.6.8).
    ExtendedDescriptors,
    /// A found entry whose extended attributes stand in a file of their own (ECMA-167 4/14.9.16).
    AttributeFile,
}

/// The first thing that an image lacks.
#[derive(Clone, Copy, Debug, PartialEq, Eq)]
pub enum Missing {
    /// It has more than 4,294,967,295 blocks.
    TooLarge,
    /// No place holds a whole anchor.
    Anchor,
    /// No whole anchor leads to a whole sequence.
    Sequence,
    Profile(ProfileItem),
    /// The areas of the volume do not lie as they must.
    Layout,
    /// No sparing table is whole, or a used packet of the prevailing one does not lie as it must.
    SparingTable,
    /// No file set stands whole in the extent that the logical volume names, or that extent does not lie as it must.
    FileSet,
    /// The root is not a directory that wins its own block and has room for a parent FID.
    RootDirectory,
    /// The volume is not to be written, which a repair would do.
    WriteProtected,
}

/// Why work ended.
#[derive(Clone, Copy, Debug, PartialEq, Eq)]
pub enum WorkStop {
    Fault,
    Memory,
}

impl From<Failed> for WorkStop {
    ghost from_gives = { λ _ e. e ≡ Fault };

    fn from(_: Failed) -> Self {
        WorkStop::Fault
    }
}

impl From<AllocError> for WorkStop {
    ghost from_gives = { λ _ e. e ≡ Memory };

    fn from(_: AllocError) -> Self {
        WorkStop::Memory
    }
}

impl<T: Drop> From<AllocFailed<T>> for WorkStop {
    ghost from_gives = { λ _ e. e ≡ Memory };

    fn from(_: AllocFailed<T>) -> Self {
        WorkStop::Memory
    }
}

/// Why a layer gave no answer.
#[derive(Clone, Copy, Debug, PartialEq, Eq)]
pub enum LayerStop {
    Missing(Missing),
    Fault,
    Memory,
}

impl From<WorkStop> for LayerStop {
    ghost use Rattle.udf_layer.specs.Causes.{layer_stop};

    ghost from_gives = { λ stop e. e ≡ layer_stop stop };

    fn from(stop: WorkStop) -> Self {
        match stop {
            WorkStop::Fault => LayerStop::Fault,
            WorkStop::Memory => LayerStop::Memory,
        }
    }
}

impl From<Failed> for LayerStop {
    ghost from_gives = { λ _ e. e ≡ stops.Fault };

    fn from(_: Failed) -> Self {
        LayerStop::Fault
    }
}

impl From<AllocError> for LayerStop {
    ghost from_gives = { λ _ e. e ≡ stops.Memory };

    fn from(_: AllocError) -> Self {
        LayerStop::Memory
    }
}
