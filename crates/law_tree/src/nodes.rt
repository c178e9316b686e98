ghost use Rattle.std.specs.Prelude.{◌≡◌, ◌<◌, length, slice_set, vec_len, vec_capacity};

use law_value::ValueId;

/// What stands at a node: the number of an item, or a test at which the items below differ.
#[derive(Clone, Copy, Debug)]
pub enum Spot {
    Leaf(u64),
    Split(u64),
}

/// The way up from a node: the place of the split above it, and the value that all items at the node and below it have there.
#[derive(Clone, Copy, Debug)]
pub struct Edge {
    pub above: usize,
    pub value: ValueId,
}

/// A node of a tree that is kept flat. The root has no edge.
#[derive(Clone, Copy, Debug)]
pub struct Node {
    pub edge: Option<Edge>,
    pub spot: Spot,
}

/// Puts a node in the place of another one.
pub fn put(nodes: &mut Vec<Node>, at: usize, node: Node)
    requires { at < length nodes.old.items }
    ensures items { nodes.new.items ≡ slice_set nodes.old.items at node }
    ensures len { vec_len nodes.new ≡ vec_len nodes.old }
    ensures capacity { vec_capacity nodes.new ≡ vec_capacity nodes.old }
{
    nodes[at] = node;
}
