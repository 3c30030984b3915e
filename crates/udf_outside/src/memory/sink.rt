//! A sink in memory, some of whose puts fail.
ghost use Rattle.std.specs.Prelude.{◌≡◌, Some, OnOk, OnErr};
ghost use Rattle.udf_outside.specs.Causes.{HasCause};
ghost use Rattle.udf_outside.specs.Numbered.{next_number, FailsExactly};
ghost use Rattle.udf_outside.specs.SinkInMemory.{gathers_nothing, IsPutToFail};
ghost use Rattle.udf_outside.specs.Written.{Appends};

use crate::{Failed, Sink};
use std::alloc::Global;
use std::marker::Model;

/// A sink in memory. Its puts are numbered from 1, and after the last value of `u64` each later one bears that number.
#[derive(Drop)]
pub struct MemSink {
    bytes: Vec<u8>,
    fail: Vec<u64>,
    puts: u64,
    faults: u64,
    wants: u64,
}

impl Model for MemSink {
    ghost use Rattle.udf_outside.specs.SinkInMemory.{Gathered};

    ghost Value = { Gathered };

    ghost view = { λ sink. record {
      bytes = sink.bytes.items;
      fail = sink.fail.items;
      puts = sink.puts;
      faults = sink.faults;
      wants = sink.wants;
    } };
}

impl MemSink {
    /// An empty sink whose puts with the numbers in `fail` fail.
    pub fn new(alloc: Global, fail: Vec<u64>) -> MemSink
        ensures { result ≡ gathers_nothing fail.items }
    {
        MemSink {
            bytes: Vec::new(alloc),
            fail,
            puts: 0,
            faults: 0,
            wants: 0,
        }
    }

    /// What was put so far.
    pub fn bytes(&self) -> &[u8]
        ensures { result.now ≡ self.now.bytes }
    {
        &self.bytes
    }

    /// How many puts found no memory. The count stands still at the last value of `u64`.
    pub fn wants(&self) -> u64
        ensures { result ≡ self.now.wants }
    {
        self.wants
    }
}

impl Sink for MemSink {
    ghost told = { λ sink. Some sink.bytes };

    ghost faults = { λ sink. sink.faults };

    fn put(&mut self, bytes: &[u8]) -> Result<(), Failed>
        ensures written { Appends (Some self.old.bytes) (Some self.new.bytes) bytes.now result }
        ensures unchanged { OnErr result (self.new.bytes ≡ self.old.bytes) }
        ensures cause { HasCause self.old.faults self.new.faults result }
        ensures calm { OnOk result (self.new.faults ≡ self.old.faults) }
        ensures fails { FailsExactly (IsPutToFail self.old) self.old.wants self.new.wants result }
        ensures counted { self.new.puts ≡ next_number self.old.puts }
        ensures same { self.new.fail ≡ self.old.fail }
    {
        self.puts = self.puts.saturating_add(1);
        if self.fail.contains(&self.puts) {
            self.faults = self.faults.saturating_add(1);
            return Err(Failed);
        }
        match self.bytes.extend_from_slice(bytes) {
            Ok(()) => Ok(()),
            Err(_) => {
                self.wants = self.wants.saturating_add(1);
                self.faults = self.faults.saturating_add(1);
                Err(Failed)
            }
        }
    }
}
