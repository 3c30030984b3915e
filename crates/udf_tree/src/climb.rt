// How far nodes are from the root by their parents.
ghost use Rattle.std.specs.Prelude.{◌≡◌, ◌<◌, ◌^◌, Some, length, slice_get};
ghost use Rattle.udf_field.specs.declared.address.Addr.{Addr};
ghost use Rattle.udf_file_model.specs.Listing.{Volume};
ghost use Rattle.udf_tree_model.specs.Climb.{IsDistance};
ghost use Rattle.udf_tree_model.specs.Frame.{Frame};
ghost use Rattle.udf_tree.specs.Nodes.{AreNodes, node_addresses};
ghost use Rattle.udf_tree.specs.Rise.{above_by};

use crate::node::{Node, NodeId};
use crate::path::node_of;

/// The number of a node's parent; a number that no node has stays.
pub(crate) fn above(nodes: &[Node], id: NodeId) -> NodeId
    ensures { result ≡ above_by id (slice_get nodes.now id.0) }
{
    match node_of(nodes, id) {
        Some(node) => node.parent,
        None => id,
    }
}

/// How many steps lead from a node up to the root. Of a survey's nodes none is met twice on the way, so they are fewer than there
/// are nodes.
pub(crate) fn steps_up(nodes: &[Node], root: NodeId, id: NodeId) -> u32
    requires { length nodes.now < 2 ^ 32 }
    ensures { (f : Frame) (v : Volume) → AreNodes f v nodes.now → slice_get (node_addresses nodes.now) root.0 ≡ Some f.root → (a : Addr) → slice_get (node_addresses nodes.now) id.0 ≡ Some a
        → IsDistance f v a result }
{
    let mut at = id;
    for steps in 0..nodes.len() {
        if at == root {
            return steps as u32;
        }
        at = above(nodes, at);
    }
    nodes.len() as u32
}
