//! The standard streams of a process. Where a program starts with one of them closed, the next file that it opens gets its
//! number, and lines meant for the stream would be written into that file.
use std::fs::{Files, OpenOptions};
use std::os::fd::{AsRawFd, IntoRawFd};
use std::{fs, io};

/// The number of the last standard stream.
const LAST: i32 = 2;

/// Makes sure that the descriptors 0 to 2 are open, for as long as the process lasts. One that was closed becomes the null
/// device: lines that are put there go nowhere. A program calls it before it opens any other file.
pub fn hold_standard_streams<R: Files<File = fs::File>>(runtime: &R) -> io::Result<()> {
    // The system gives the least free number, so the fourth one is past the last.
    for _ in 0..=LAST + 1 {
        let null = OpenOptions::new()
            .read(true)
            .write(true)
            .open(runtime, "/dev/null")?;
        if null.as_raw_fd() > LAST {
            return Ok(());
        }
        let _ = null.into_raw_fd();
    }
    Ok(())
}
