//! What found entries hold: who wins each block that they want, how much of its content each keeps, and the links and parent FIDs of
//! that. Its one contract: whatever the blocks of a volume hold, claims, kept lengths, soundness and held links are those of the
//! definitions of trees. It stands on what is found, on claims, entries, directories, partition layers and the bench.
#![tactic(auto)]

mod claimed;
mod held;
mod holding;
mod space;
mod standing;
mod wants;

pub use claimed::claims_of;
pub use held::Held;
pub use holding::hold_all;
pub use standing::{Standing, standings_of};
pub use wants::{add_extents, add_fixed, add_run, add_runs, add_want, owner_of};
