use law_sig::{Equation, Seq, SortId, Step, Tree};

/// An entry of a certificate. A law and a lemma have their equation's number. A killed schema is shown by its most
/// general instance and the term that it equals, a moved term with the live term that it equals.
#[derive(Debug, Drop)]
pub enum Entry {
    Law(u64, Equation),
    Lemma(u64, Equation, Seq<Step>),
    Spread(Tree),
    Killed(Equation, Seq<Step>),
    Live(Tree),
    Moved(Equation, Seq<Step>),
}

/// A tree of splits, each at a test.
#[derive(Debug, Drop)]
pub enum Branch<T> {
    Leaf(T),
    Split(u64, Seq<Branch<T>>),
}

/// The spread schemas of a class, by number, and a tree of their live terms, by number. Both are numbered from 1 in the
/// order of the entries.
#[derive(Debug, Drop)]
pub struct Class {
    pub schemas: Seq<u64>,
    pub terms: Branch<u64>,
}

/// The tree of a sort.
#[derive(Debug, Drop)]
pub struct SortTree {
    pub sort: SortId,
    pub tree: Branch<Class>,
}
