//! Space bitmaps: which blocks of a partition are free (ECMA-167 4/14.12). Its one contract: a `Bitmap` is its list of
//! bits, true for a free block, read from any lawful area and written to an area byte for byte. It stands on the tags
//! and fields of `udf_field` and on the definitions of `udf_model`.
#![tactic(auto)]

mod bitmap;
mod header;
mod laws;
mod stored;

pub use bitmap::Bitmap;
pub use laws::{bits_law, encode_law};
pub use std::alloc::AllocError as NoMemory;

#[cfg(test)]
mod tests;
