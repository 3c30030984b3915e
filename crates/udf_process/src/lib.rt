//! The tools as processes: the words that the process was given, real files, its standard output, and the status with which it
//! ends. Its one contract towards a program's `main`: a call runs the tool and answers how the process ends. That answer comes
//! from nowhere else and cannot be dropped, so that a `main` hands it on. It stands on the top calls and on the outside.
#![tactic(auto)]

mod ended;
mod process;

pub use ended::Ended;
pub use process::udffsck;
