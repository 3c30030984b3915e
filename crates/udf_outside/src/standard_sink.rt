//! A sink over a writer of the system. It tells no bytes.
ghost use Rattle.std.specs.Prelude.{◌≡◌, None, OnOk};
ghost use Rattle.udf_outside.specs.Causes.{HasCause};
ghost use Rattle.udf_outside.specs.Written.{Appends};

use crate::{Failed, Sink};
use std::io;
use std::io::Write;
use std::marker::Model;

/// A sink over a real writer. Each line is flushed.
#[derive(Drop)]
pub struct StdSink<W: Write + Drop> {
    inner: W,
    faults: u64,
}

fn put_down<W: Write>(inner: &mut W, bytes: &[u8]) -> io::Result<()> {
    inner.write_all(bytes)?;
    inner.flush()
}

impl<W: Write + Drop> Model for StdSink<W> {
    ghost use Rattle.std.specs.Prelude.{ℕ};

    ghost Value = { ℕ };

    ghost view = { λ sink. sink.faults };
}

impl<W: Write + Drop> StdSink<W> {
    /// A sink of which no put failed so far.
    pub fn new(inner: W) -> StdSink<W>
        ensures { result ≡ 0 }
    {
        StdSink { inner, faults: 0 }
    }
}

impl<W: Write + Drop> Sink for StdSink<W> {
    ghost told = { λ sink. None };

    ghost faults = { λ sink. sink };

    fn put(&mut self, bytes: &[u8]) -> Result<(), Failed>
        ensures written { Appends None None bytes.now result }
        ensures cause { HasCause self.old self.new result }
        ensures calm { OnOk result (self.new ≡ self.old) }
    {
        match put_down(&mut self.inner, bytes) {
            Ok(()) => Ok(()),
            Err(_) => {
                self.faults = self.faults.saturating_add(1);
                Err(Failed)
            }
        }
    }
}
