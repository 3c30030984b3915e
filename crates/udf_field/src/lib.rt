//! The small structures of a volume: numbers, extents, allocation descriptors and entities at offsets, and
//! descriptor tags with their CRC (ECMA-167 1/7, 3/7, 4/14.14). Its one contract: what a call answers is a function of
//! the bytes, namely the definition of that structure over them, and no byte string is out of its reach. It stands
//! on the definitions of `udf_model` and on `byteorder`, and takes no memory.
#![tactic(auto)]

mod address;
mod entity;
mod fields;
mod fields_mut;
mod remainder;
mod tag;

pub use address::{Addr, Long, Short, Span};
pub use fields::Fields;
pub use fields_mut::FieldsMut;
pub use remainder::crc;
pub use tag::{Tag, id_at, relocate, retag, tag_of, whole_id};

#[cfg(test)]
mod tests;
