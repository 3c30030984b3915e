// Where a volume's files are first sought.
ghost use Rattle.std.specs.Prelude.{◌≡◌, IfOk};
ghost use Rattle.udf_file_model.specs.Listing.{Volume};
ghost use Rattle.udf_tree_model.specs.Frame.{Frame};
ghost use Rattle.udf_found.specs.Begin.{IsHolderAlone};

use crate::arena::{Arena, Found};
use crate::links::pointer_to;
use std::alloc::{AllocError, Global};
use udf_field::Addr;
use udf_layer::Parts;

/// Where a volume's files are first sought (ECMA-167 4/14.1): the address of the file set, that of the root directory, and the
/// address that the file set's pointer to the system stream directory names, where the length of that pointer is not 0.
#[derive(Clone, Copy, Debug, PartialEq, Eq)]
pub struct Starts {
    pub file_set: Addr,
    pub root: Addr,
    pub system: Option<Addr>,
}

// The entries to begin with: the file set alone, where it is placed and has a pointer to the system stream directory.
pub(crate) fn holder<P: Parts>(
    alloc: Global,
    parts: &P,
    file_set: Addr,
    system: Option<Addr>,
) -> Result<Arena, AllocError>
    ensures { (f : Frame) (v : Volume) → f.file_set ≡ file_set → f.system ≡ system → v.place ≡ P.place parts.now
        → IfOk result (λ arena. IsHolderAlone f v arena) }
{
    let mut arena = Arena::new(alloc);
    let Some(target) = system else {
        return Ok(arena);
    };
    if parts.locate(file_set).is_none() {
        return Ok(arena);
    }
    let links = pointer_to(alloc, target)?;
    arena.push(Found {
        at: file_set,
        level: 0,
        links,
        shape: None,
    })?;
    Ok(arena)
}
