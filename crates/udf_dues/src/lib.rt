//! What kept entries are to state: their link counts and their identifiers. Its one contract: these are the wanted ones of the
//! definitions of trees. It stands on what is kept, and on the contents after the mend.
#![tactic(auto)]

mod counts;
mod dues;
mod entry_identifiers;
mod identifiers;
mod link_counts;
mod named_parents;

pub use counts::{Count, counts_at, counts_of};
pub use dues::Dues;
pub use entry_identifiers::identifiers_of;
pub use identifiers::{Identity, identifiers_differ_law, identifiers_law, wanted_identifiers};
pub use link_counts::link_counts_of;
