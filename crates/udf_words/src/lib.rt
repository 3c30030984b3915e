//! The words of a command line, as `clap` reads them. Towards the layer above: `command_of` answers what the words ask for, or
//! why they are no command, exactly as `clap` takes or refuses them. It stands on `clap` and on the block sizes.
#![tactic(auto)]

mod arguments;
mod cause;
mod command;
mod laws;

pub use cause::{Cause, WordsStop};
pub use command::{Command, Work, command_of, side_name};
pub use laws::{exact_law, order_law, refused_law, taken_law};
