// Why reading a list or a content ended early.
ghost use Rattle.std.specs.Prelude.{◌≡◌};
ghost use Rattle.udf_entry.specs.declared.stop.ListStop.TheVariants.{Fault, Memory};

use std::alloc::{AllocError, AllocFailed};
use udf_layer::LayerStop;
use udf_outside::Failed;

/// Why a list or a content was not read: a fault of the bench, or want of memory.
#[derive(Clone, Copy, Debug, PartialEq, Eq)]
pub enum ListStop {
    Fault,
    Memory,
}

impl From<Failed> for ListStop {
    ghost from_gives = { λ _ stop. stop ≡ Fault };

    fn from(_: Failed) -> Self {
        ListStop::Fault
    }
}

impl From<AllocError> for ListStop {
    ghost from_gives = { λ _ stop. stop ≡ Memory };

    fn from(_: AllocError) -> Self {
        ListStop::Memory
    }
}

impl<T: Drop> From<AllocFailed<T>> for ListStop {
    ghost from_gives = { λ _ stop. stop ≡ Memory };

    fn from(_: AllocFailed<T>) -> Self {
        ListStop::Memory
    }
}

impl From<ListStop> for LayerStop {
    ghost use Rattle.udf_entry.specs.Stopped.{layer_stop};

    ghost from_gives = { λ stop e. e ≡ layer_stop stop };

    fn from(stop: ListStop) -> Self {
        match stop {
            ListStop::Fault => LayerStop::Fault,
            ListStop::Memory => LayerStop::Memory,
        }
    }
}
