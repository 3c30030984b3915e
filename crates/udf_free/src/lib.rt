//! The free blocks of a surveyed volume, and the verdict of the rule on its space bitmap. Towards the layers above: `free_blocks` is
//! the bitmap that the base partition is to have by the definitions, and `bitmap_verdict` says of the bitmap in an image whether its
//! header is whole and how many of its bits are wrong. It stands on the survey of files and on bitmaps.
#![tactic(auto)]

mod area;
mod free;
mod taken;
#[cfg(test)]
mod tests;
mod verdict;

pub use area::read_area;
pub use free::free_blocks;
pub use verdict::{BitmapVerdict, bitmap_verdict};
