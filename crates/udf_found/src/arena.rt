// The found entries, in the order in which they were found.
ghost use Rattle.std.specs.Prelude.{◌≡◌, ◌<◌, ◌+◌, ◌^◌, ◌++◌, ◌∷◌, [], length, OnOk, OnErr, false, slice_index_or};
ghost use Rattle.udf_found.specs.Order.{is_known};

use crate::link::Link;
use crate::shape::Shape;
use std::alloc::{AllocError, Global};
use std::collections::BTreeSet;
use std::marker::Model;
use udf_field::Addr;

/// A found entry: its address, how many links it is away from a start, its links up to the good length of its content, and what its
/// block states. The holder of the pointer to the system stream directory has no shape.
#[derive(Debug, Drop)]
pub struct Found {
    pub at: Addr,
    pub level: u64,
    pub links: Vec<Link>,
    pub shape: Option<Shape>,
}

/// The found entries, seen as their list.
#[derive(Drop)]
pub struct Arena {
    nodes: Vec<Found>,
    known: BTreeSet<Addr>,
}

impl Model for Arena {
    ghost use Rattle.std.specs.Prelude.{◌≡◌, List};
    ghost use Rattle.std.specs.BTreeSet.{contains};
    ghost use Rattle.udf_field.specs.declared.address.Addr.{Addr};
    ghost use Rattle.udf_found.specs.declared.arena.Found.{Found};
    ghost use Rattle.udf_found.specs.Order.{addr_cmp, is_known};

    ghost Value = { List Found };

    ghost view = { λ arena. arena.nodes.items };

    ghost invariant = { λ arena. (q : Addr) → contains addr_cmp arena.known q ≡ is_known q arena.nodes.items };
}

impl Arena {
    /// With no entry.
    pub fn new(alloc: Global) -> Self
        ensures { result ≡ [] }
    {
        Arena {
            nodes: Vec::new(alloc),
            known: BTreeSet::new(alloc),
        }
    }

    /// How many entries it has.
    pub fn len(&self) -> usize
        ensures { result ≡ length self.now }
    {
        self.nodes.len()
    }

    /// The entry at an index.
    pub fn node(&self, i: usize) -> &Found
        requires { i < length self.now }
        ensures node { result.now ≡ slice_index_or self.now i result.now }
        ensures few { length self.now < 2 ^ 64 }
    {
        &self.nodes[i]
    }

    /// Whether the entry at an address is one of them.
    pub fn knows(&self, at: Addr) -> bool
        ensures { result ≡ is_known at self.now }
    {
        self.known.contains(&at)
    }

    /// Its entries, in order.
    pub fn into_nodes(self) -> Vec<Found>
        ensures { result.items ≡ self }
    {
        self.nodes
    }

    /// Puts an entry with a new address behind the others.
    pub fn push(&mut self, node: Found) -> Result<(), AllocError>
        requires new { is_known node.at self.old ≡ false }
        ensures ok { OnOk result (self.new ≡ self.old ++ node ∷ []) }
        ensures err { OnErr result (self.new ≡ self.old) }
    {
        self.nodes.reserve(1)?;
        self.known.insert(node.at)?;
        self.nodes.push_reserved(node);
        Ok(())
    }
}
