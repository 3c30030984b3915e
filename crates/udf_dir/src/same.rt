// Names that are the same.
ghost use Rattle.std.specs.Prelude.{◌≡◌, ◌↔◌, IfOk, IsTrue};
ghost use Rattle.std.specs.Result.{result_ok};
ghost use Rattle.udf_text.specs.Compressed.{decoding};
ghost use Rattle.udf_file_model.specs.Name.{IsSameName};

use std::alloc::Global;
use udf_text::{Name, NoMemory, TextFault, decode_name};

/// Whether two names of a directory, given by their bytes, are the same: the bytes are equal, or both decode to the same
/// characters (OSTA UDF 2.1.1), in whichever width.
pub fn same_name(alloc: Global, a: &[u8], b: &[u8]) -> Result<bool, NoMemory>
    ensures { IfOk result (λ same. IsTrue same ↔ IsSameName a.now b.now) }
{
    if a == b {
        return Ok(true);
    }
    match (decoded(alloc, a)?, decoded(alloc, b)?) {
        (Some(left), Some(right)) => Ok(left == right),
        _ => Ok(false),
    }
}

// The name that the bytes encode, if they are in order.
pub(crate) fn decoded(alloc: Global, bytes: &[u8]) -> Result<Option<Name>, NoMemory>
    ensures { IfOk result (λ name. name ≡ result_ok (decoding bytes.now)) }
{
    match decode_name(alloc, bytes) {
        Ok(name) => Ok(Some(name)),
        Err(TextFault::Memory) => Err(NoMemory),
        Err(_) => Ok(None),
    }
}
