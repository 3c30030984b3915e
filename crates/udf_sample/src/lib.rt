//! Test volumes, made block by block as ECMA-167 and OSTA UDF 2.01 describe them: a fresh one of any block size, with an empty
//! root or with a partition of zeros, entries that are put into it, and damages to it. Its one contract towards the tests:
//! a volume has exactly the bytes of its blocks, and `put_entry` changes one block. No program stands on it. It stands on
//! the fields of descriptors and on the outside's want of memory.
#![tactic(auto)]

mod block;
mod damage;
mod descriptors;
mod files;
mod form;
mod volume;

pub use damage::{Damage, hurt};
pub use files::{file_entry, put_entry};
pub use form::{Form, Layer};
pub use udf_outside::NoMemory;
pub use volume::{bare_volume, volume_a, volume_of, volume_s};
