//! Wants of addresses as runs of blocks, and for each address the one owner that wins it. Its contract towards the
//! layer above: a `Claims` is the list of the runs that were added, and every answer is a definition over that list,
//! whatever the runs are and however they overlap. It stands on the addresses of `udf_field`, and works on runs, never
//! on single blocks.
#![tactic(auto)]

mod best;
mod claims;
mod pieces;
mod run;
mod shares;
mod steps;

pub use claims::Claims;
pub use run::{Claimed, Run};
pub use std::alloc::AllocError as NoMemory;

#[cfg(test)]
mod tests;
