//! The redo log: a file beside the image whose first byte, the gate, decides whether its records count. A plan goes into
//! the image such that a stop at any moment leaves files that stand for the image as it was or for the image with the whole
//! plan. Towards the layer above: `settled` names the image that two files stand for; `write_log`, `open_gate`, `apply` and
//! `close_gate` in this order lead from an image to the image with the plan, and `replay` ends what was begun. It knows no
//! rule of volumes. It stands on the bench and on plans.
#![tactic(auto)]

mod blocks;
mod body;
mod front;
mod gate;
mod head;
mod laws;
mod record;
mod replaying;
mod seal;
mod side;
mod stop;
mod written;

pub use blocks::apply;
pub use gate::{close_gate, open_gate};
pub use head::LogHead;
pub use laws::{applied_law, settled_law};
pub use replaying::replay;
pub use seal::SealedRun;
pub use side::{SideState, side_state};
pub use stop::{Clash, RedoStop};
pub use written::write_log;
