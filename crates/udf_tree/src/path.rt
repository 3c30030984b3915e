// Paths of kept entries.
ghost use Rattle.std.specs.Prelude.{◌≡◌, ◌<◌, Some, IfOk, length, slice_get};
ghost use Rattle.udf_field.specs.declared.address.Addr.{Addr};
ghost use Rattle.udf_file_model.specs.Listing.{Volume};
ghost use Rattle.udf_tree_model.specs.Climb.{IsDistance};
ghost use Rattle.udf_tree_model.specs.Frame.{Frame};
ghost use Rattle.udf_tree.specs.Nodes.{node_addresses};
ghost use Rattle.udf_tree.specs.Path.{IsRise, texts_of};
ghost use Rattle.udf_tree.specs.Rise.{AreSteps, name_at};

use crate::climb::above;
use crate::node::{Node, NodeId};
use std::alloc::{AllocError, Global};
use std::marker::Model;

/// The names from the root to a kept entry.
#[derive(Debug, Drop)]
pub struct Path {
    /// From the entry up.
    pub(crate) upward: Vec<Vec<u8>>,
}

impl Model for Path {
    ghost use Rattle.std.specs.Prelude.{◌<◌, ◌^◌, List, ℕ, length, reverse};
    ghost use Rattle.udf_tree.specs.Path.{texts_of};

    ghost Value = { List (List ℕ) };

    ghost view = { λ p. reverse (texts_of p.upward.items) };

    ghost invariant = { λ p. length p.upward.items < 2 ^ 32 };
}

impl Path {
    /// How many names there are; none on the path of the root.
    pub fn len(&self) -> u32
        ensures { result ≡ length self.now }
    {
        self.upward.len() as u32
    }

    /// The name of a step, counted from the root.
    pub fn name(&self, i: u32) -> &[u8]
        requires { i < length self.now }
        ensures { slice_get self.now i ≡ Some result.now }
    {
        &self.upward[self.upward.len() - 1 - i as usize]
    }
}

/// The node of a number.
pub(crate) fn node_of(nodes: &[Node], id: NodeId) -> Option<Node>
    ensures { result ≡ slice_get nodes.now id.0 }
{
    let i = id.0 as usize;
    if i < nodes.len() {
        Some(nodes[i])
    } else {
        None
    }
}

// The name of the step to a node.
fn name_of(names: &[Vec<u8>], id: NodeId) -> &[u8]
    ensures { result.now ≡ name_at (slice_get names.now id.0) }
{
    let i = id.0 as usize;
    if i < names.len() { &names[i] } else { &[] }
}

/// The names of so many steps from a node up.
pub(crate) fn names_up(
    alloc: Global,
    nodes: &[Node],
    names: &[Vec<u8>],
    id: NodeId,
    steps: u32,
) -> Result<Vec<Vec<u8>>, AllocError>
    ensures many { IfOk result (λ upward. length upward.items ≡ steps) }
    ensures rise { (f : Frame) (v : Volume) → AreSteps f v nodes.now (texts_of names.now) → (a : Addr) → slice_get (node_addresses nodes.now) id.0 ≡ Some a → IsDistance f v a steps
        → IfOk result (λ upward. IsRise f v a (texts_of upward.items)) }
{
    let mut upward = Vec::new(alloc);
    let mut at = id;
    for _ in 0..steps {
        let name = Vec::from_slice(alloc, name_of(names, at))?;
        upward.push(name)?;
        at = above(nodes, at);
    }
    Ok(upward)
}
