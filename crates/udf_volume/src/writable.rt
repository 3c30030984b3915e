//! Write protection of a volume.
ghost use Rattle.std.specs.Prelude.{◌≡◌};
ghost use Rattle.udf_volume.specs.Writable.{is_protected as is_protected_stated};

use crate::Volume;

/// The access types of partitions whose blocks can be written again (ECMA-167 3/10.5.7), and the one that says nothing.
const UNSPECIFIED: u32 = 0;

const REWRITABLE: u32 = 3;

const OVERWRITABLE: u32 = 4;

impl Volume {
    /// Whether the volume is not to be written: a bit of hard or soft write protection stands (UDF 2.1.5.3), or the access
    /// type of the partition (ECMA-167 3/10.5.7) is one under which its blocks cannot be written again.
    #[tactic(auto, unfolding(crate::specs::Writable::is_protected, udf_volume_model::specs::Profile::is_rewritable))]
    pub fn is_protected(&self) -> bool
        ensures { result ≡ is_protected_stated self.now }
    {
        self.guarded
            || !(self.access == UNSPECIFIED
                || self.access == REWRITABLE
                || self.access == OVERWRITABLE)
    }
}
