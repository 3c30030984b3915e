//! Which calls of a bench in memory fail, where it stops, and what it counts. Calls are numbered from 1, and after the last
//! value of `u64` each later one bears that number.
ghost use Rattle.std.specs.Prelude.{◌≡◌, ◌≤◌, is_ok};
ghost use Rattle.udf_outside.specs.Causes.{HasCause};
ghost use Rattle.udf_outside.specs.Refill.{spared_range};
ghost use Rattle.udf_outside.specs.Script.{not_begun, Takes, after_call, after_fault, after_want, writes_of, with_write, Ends, done_of};

use crate::memory::range::Range;
use crate::{Failed, Role};
use std::alloc::AllocError;
use std::marker::Model;

/// The call that is cut short, by its number, and how many bytes of it are written.
#[derive(Clone, Copy, Debug, PartialEq, Eq)]
pub struct Stop {
    pub call: u64,
    pub bytes: u64,
}

/// What a call does. After the stop each is over before it begins.
#[derive(Clone, Copy, Debug, PartialEq, Eq)]
pub enum Turn {
    Works,
    Fails,
    Stops(u64),
    Over,
}

impl Turn {
    /// How many of the bytes of a write are written.
    pub fn done(self, len: usize) -> usize
        ensures { result ≡ done_of self len }
    {
        match self {
            Turn::Works => len,
            Turn::Stops(bytes) => len.min(bytes as usize),
            Turn::Fails | Turn::Over => 0,
        }
    }
}

/// What the stopped call wrote.
#[derive(Clone, Copy, Debug, PartialEq, Eq)]
pub struct Spared {
    pub role: Role,
    pub range: Range,
}

/// The calls that are to fail and the stop, and the counts.
#[derive(Drop)]
pub struct Script {
    calls: u64,
    fail: Vec<u64>,
    stop: Option<Stop>,
    is_over: bool,
    faults: u64,
    wants: u64,
    image_writes: u64,
    side_writes: u64,
    spared: Option<Spared>,
}

impl Model for Script {
    ghost use Rattle.udf_outside.specs.Script.{Scripted};

    ghost Value = { Scripted };

    ghost view = { λ script. record {
      calls = script.calls;
      fail = script.fail.items;
      stop = script.stop;
      is_over = script.is_over;
      faults = script.faults;
      wants = script.wants;
      image_writes = script.image_writes;
      side_writes = script.side_writes;
      spared = script.spared;
    } };
}

impl Script {
    /// A script of which no call was made.
    pub fn new(fail: Vec<u64>, stop: Option<Stop>) -> Script
        ensures { result ≡ not_begun fail.items stop }
    {
        Script {
            calls: 0,
            fail,
            stop,
            is_over: false,
            faults: 0,
            wants: 0,
            image_writes: 0,
            side_writes: 0,
            spared: None,
        }
    }

    /// Counts a call, and tells what it does.
    pub fn turn(&mut self) -> Turn
        ensures turn { Takes self.old result }
        ensures counted { self.new ≡ after_call self.old }
    {
        self.calls = self.calls.saturating_add(1);
        if self.is_over {
            return Turn::Over;
        }
        match self.stop {
            Some(stop) if stop.call == self.calls => {
                self.is_over = true;
                Turn::Stops(stop.bytes)
            }
            _ => {
                if self.fail.contains(&self.calls) {
                    Turn::Fails
                } else {
                    Turn::Works
                }
            }
        }
    }

    /// Counts a call that failed.
    pub fn fault(&mut self) -> Failed
        ensures counted { self.new ≡ after_fault self.old }
        ensures later { self.old.faults ≤ self.new.faults }
    {
        self.faults = self.faults.saturating_add(1);
        Failed
    }

    /// Counts a call that found no memory.
    pub fn want(&mut self) -> Failed
        ensures counted { self.new ≡ after_want self.old }
        ensures later { self.old.faults ≤ self.new.faults }
    {
        self.wants = self.wants.saturating_add(1);
        self.fault()
    }

    /// The answer of a call by its turn and by whether it found memory. A failure is counted.
    pub fn answer(&mut self, turn: Turn, found: Result<(), AllocError>) -> Result<(), Failed>
        ensures ends { Ends turn (is_ok found) self.old self.new result }
        ensures cause { HasCause self.old.faults self.new.faults result }
    {
        match (turn, found) {
            (_, Err(_)) => Err(self.want()),
            (Turn::Works, Ok(())) => Ok(()),
            (_, Ok(())) => Err(self.fault()),
        }
    }

    /// Counts a write of a role.
    pub fn count_write(&mut self, role: Role)
        ensures { self.new ≡ with_write role self.old }
    {
        match role {
            Role::Image => self.image_writes = self.image_writes.saturating_add(1),
            Role::Side => self.side_writes = self.side_writes.saturating_add(1),
        }
    }

    /// Keeps what the stopped call wrote.
    pub fn spare(&mut self, role: Role, range: Range)
        ensures { self.new ≡ record self.old { spared = Some (record { role = role; range = range }) } }
    {
        self.spared = Some(Spared { role, range });
    }

    /// The number of calls so far.
    pub fn calls(&self) -> u64
        ensures { result ≡ self.now.calls }
    {
        self.calls
    }

    /// How many calls found no memory.
    pub fn wants(&self) -> u64
        ensures { result ≡ self.now.wants }
    {
        self.wants
    }

    /// How many writes of a role there were.
    pub fn writes(&self, role: Role) -> u64
        ensures { result ≡ writes_of role self.now }
    {
        match role {
            Role::Image => self.image_writes,
            Role::Side => self.side_writes,
        }
    }

    /// The calls that are to fail.
    pub fn fail(&self) -> &[u64]
        ensures { result.now ≡ self.now.fail }
    {
        &self.fail
    }

    /// The stop.
    pub fn stop(&self) -> Option<Stop>
        ensures { result ≡ self.now.stop }
    {
        self.stop
    }

    /// What the stopped call wrote of a role.
    pub fn spared(&self, role: Role) -> Option<Range>
        ensures { result ≡ spared_range role self.now.spared }
    {
        match self.spared {
            Some(spared) if spared.role == role => Some(spared.range),
            _ => None,
        }
    }
}
