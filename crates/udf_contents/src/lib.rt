//! What becomes of the contents and lists of kept entries: which contents stay, what is written in place of the others, and which blocks
//! are claimed after the mend. Its one contract: these are the mended contents and the claims of the definitions of trees. It stands on
//! what is kept.
#![tactic(auto)]

mod after;
mod allocation;
mod anew;
mod contents;
mod parent;
mod stays;

pub use after::claims_after;
pub use contents::{MendedContent, fitted_at, mended_contents};
pub use parent::{address_at, is_link, is_stream_directory, parent_of};
pub use stays::{chosen_at, is_sound_entry, parents_stay};
