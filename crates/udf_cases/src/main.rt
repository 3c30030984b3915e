//! Runs the tools over damaged test volumes, in memory. A line of standard input is a case, a line of standard output what
//! came of it; lines that are empty or begin with `#` are passed over. Its one contract: it never writes outside, and prints
//! just what the top calls did. It stands on the top calls, on the bench in memory and on the test volumes.
//!
//! A case has up to seven columns, with `|` between them:
//!
//! 1. its name;
//! 2. the words of the command line, the tool's name first. `''` is an empty word, and `~` a blank in a word. `digest` prints the
//!    SHA-256 of the image instead, and `volume` what the image's volume states;
//! 3. the image: a volume (`volume.rt`) and damages to it (`damage.rt`): bytes, and files in words;
//! 4. the log that a repair leaves (`log.rt`);
//! 5. what the side file holds at the start (`side.rt`);
//! 6. the trouble of the first run (`trouble.rt`);
//! 7. the image that a repair leaves, as damages to the volume. With none it is the volume.
//!
//! A run is told by the lines that it printed, its status, and what it left. One that ends with status 1 or 8 is followed by
//! another with the same words over what a stop would then leave, up to two times.
#![tactic(auto)]

mod block;
mod case;
mod damage;
mod directory;
mod entry;
mod every;
mod log;
mod rounds;
mod run;
mod side;
mod space;
mod told;
mod trial;
mod trouble;
mod volume;
mod words;

use std::io;

fn main(rt: HostRuntime) -> io::Result<()> {
    let alloc = rt.alloc();
    for line in rt.lines(alloc) {
        let line = line?;
        let text = line.as_str().trim();
        if !text.is_empty() && !text.starts_with('#') {
            let told = case::told(alloc, text)?;
            println!(rt; "{told}")?;
        }
    }
    Ok(())
}
