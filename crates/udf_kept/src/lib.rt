//! What of the found entries is kept: which links are chosen and fit, what they lead to, how deep, and by which link. Its one contract:
//! `survey_entries` gives what the definitions of trees call kept, or the first refusal of entries by those definitions, a fault that
//! the bench counted, or want of memory. It stands on what found entries hold.
#![tactic(auto)]

mod choices;
mod depths;
mod entries;
mod first_links;
mod fitted;
mod keep;
mod keeping;
mod ordinary;
mod positions;
mod select;

pub use entries::{Entries, survey_entries};
pub use fitted::{Choice, Fitted, Selected};
pub use keeping::Keeping;
pub use positions::{Positions, positions_of};
