//! `udffsck`: checks or repairs an image of the Universal Disk Format. It runs the tool as a process, and ends as that ended.
#![tactic(auto)]

use std::io;
use udf_process::{Ended, udffsck};

fn main(rt: HostRuntime) -> io::Result<Ended> {
    udffsck(&rt)
}
