//! The logical volume integrity sequence of a volume (ECMA-167 3/8.8.2, 3/10.10; UDF 2.2.6). Its one contract: `prevailing_descriptor`
//! answers which descriptor of the extent prevails, by the definitions; `integrity_of` refuses a volume whose prevailing one names a
//! further extent; `integrity_in` tells what a descriptor states. It stands on volumes and fields, and takes no memory.
#![tactic(auto)]

mod descriptor;
mod sequence;

pub use descriptor::{Integrity, integrity_in};
pub use sequence::{integrity_of, prevailing_descriptor};
