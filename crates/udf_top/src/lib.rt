//! The top calls of the tools, over a bench and a sink: the words of a command line, what an image lacks, the rules, the
//! repair, and the lines that are printed. Towards the programs: `run_udffsck` answers an outcome, has put exactly its lines,
//! and ends a repair in the one image of its files, however often it is stopped and begun again; `status` is the number with
//! which a program ends. It stands on volumes, plans, the redo log and the outside.
#![tactic(auto)]

mod laws;
mod outcome;
mod say;
mod text;
mod udffsck;

pub use laws::{chain_law, clean_law, rerun_law};
pub use outcome::{Outcome, status};
pub use udf_rules::{Finding, Findings, Place, report_line};
pub use udf_words::Cause;
pub use udffsck::run_udffsck;
