use law_sig::{SortId, SymId};

/// What stands at a node of a term: a variable by its sort and its index, or a symbol.
#[derive(Clone, Copy, Debug, PartialEq, Eq, Hash)]
pub enum Head {
    Var(SortId, u32),
    Sym(SymId),
}

/// A node of a shared term. Equal terms of one bank are one node, and its arguments have smaller ids.
#[derive(Clone, Copy)]
pub struct Node<'a> {
    /// The place of the node's tree in its bank, from 0, in the order of making.
    pub id: u64,
    pub head: Head,
    pub args: &'a [&'a Node<'a>],
    /// How many nodes the tree has, or 2^64 - 1 where it has that many or more.
    pub size: u64,
    /// The weight of the tree, or 2^64 - 1 where it is that or more.
    pub weight: u64,
    /// The variable's sort, or the result sort of the symbol.
    pub sort: SortId,
}

/// A term, as the node at its root.
pub type Term<'a> = &'a Node<'a>;
