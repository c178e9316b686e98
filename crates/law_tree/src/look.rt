use super::compare::Difference;
use law_value::ValueId;

/// Where the way of an item ends: at a split that has no child with its value, or at the leaf of an item.
#[derive(Clone, Copy, Debug)]
pub enum End {
    Split(usize, ValueId),
    Leaf(usize, u64),
}

/// What a look for an item finds: no tree, an old item that agrees, or the place where it belongs: a split that has no child
/// with its value, or a leaf whose item differs.
#[derive(Clone, Copy, Debug)]
pub enum Look {
    Empty,
    Same(u64),
    Child(usize, ValueId),
    Apart(usize, u64, Difference),
}
