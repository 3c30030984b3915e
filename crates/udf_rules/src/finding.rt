//! What is found where a rule is broken.
ghost use Rattle.std.specs.Prelude.{◌≡◌, ◌<◌, [], ◌∷◌, ◌++◌, ◌==◌, length, slice_get, Some, OnOk, OnErr};

use std::alloc::{AllocError, Global};
use std::marker::Model;
use udf_field::Addr;

/// Where something is found: a block of the image, or a block of a partition.
#[derive(Clone, Copy, Debug, PartialEq, Eq)]
pub enum Place {
    Sector(u32),
    At(Addr),
}

/// A finding: the number of the broken rule, the place, and two values whose meaning is the rule's.
#[derive(Clone, Copy, Debug, PartialEq, Eq)]
pub struct Finding {
    pub rule: u8,
    pub place: Place,
    pub first: u64,
    pub second: u64,
}

/// Findings in order of rule, place and values, seen as their list.
#[derive(Debug, Drop)]
pub struct Findings {
    list: Vec<Finding>,
}

impl Model for Findings {
    ghost use Rattle.std.specs.Prelude.{List};
    ghost use Rattle.udf_rules.specs.declared.finding.Finding.{Finding};

    ghost Value = { List Finding };

    ghost view = { λ findings. findings.list.items };
}

impl Findings {
    /// No findings.
    pub fn none(alloc: Global) -> Findings
        ensures { result ≡ [] }
    {
        Findings {
            list: Vec::new(alloc),
        }
    }

    /// Adds a finding at the end.
    pub fn push(&mut self, finding: Finding) -> Result<(), AllocError>
        ensures ok { OnOk result (self.new ≡ self.old ++ finding ∷ []) }
        ensures err { OnErr result (self.new ≡ self.old) }
    {
        self.list.push(finding)?;
        Ok(())
    }

    /// The number of findings.
    pub fn len(&self) -> u64
        ensures { result ≡ length self.now }
    {
        self.list.len() as u64
    }

    /// Whether there are none.
    pub fn is_empty(&self) -> bool
        ensures { result ≡ (length self.now == 0) }
    {
        self.list.is_empty()
    }

    /// The finding at an index.
    pub fn get(&self, i: u64) -> &Finding
        requires { i < length self.now }
        ensures { slice_get self.now i ≡ Some result.now }
    {
        &self.list[i as usize]
    }
}
