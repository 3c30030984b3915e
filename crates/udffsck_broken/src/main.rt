//! `udffsck` over a broken volume: the program again, for its second stored run, which ends with status 4.
#![tactic(auto)]

use std::io;
use udf_process::{Ended, udffsck};

fn main(rt: HostRuntime) -> io::Result<Ended> {
    udffsck(&rt)
}
