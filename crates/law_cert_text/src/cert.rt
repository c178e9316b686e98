use law_lines::{RawSig, RawTerm};
use law_sig::{Dir, Seq, Text};

/// How a law came: the completion had saturated, had spent its pairs, or had set pairs aside. `Plain` is
/// the mark of law lists, which no completion made.
#[derive(Clone, Copy, Debug, PartialEq, Eq)]
pub enum Mark {
    Saturated,
    Spent,
    Aside,
    Plain,
}

/// A term that a step puts in place of a variable, which is named by its sort and its index.
#[derive(Debug, Drop)]
pub struct RawBind {
    pub sort: Text,
    pub index: u32,
    pub term: RawTerm,
}

/// One step of a chain: where in the term it is taken, as argument numbers from the root on, by which
/// equation, from which side, and what stands for that equation's variables.
#[derive(Debug, Drop)]
pub struct RawStep {
    pub pos: Seq<u32>,
    pub eq: u64,
    pub dir: Dir,
    pub binds: Seq<RawBind>,
}

/// An entry of a certificate: a law; a lemma with the chain that derives it; a schema that is spread, or
/// killed by its most general instance with a chain to the target; an instance that is live, or moved to
/// a live target by a chain.
#[derive(Debug, Drop)]
pub enum Entry {
    Law {
        number: u64,
        mark: Mark,
        left: RawTerm,
        right: RawTerm,
    },
    Lemma {
        number: u64,
        left: RawTerm,
        right: RawTerm,
        steps: Seq<RawStep>,
    },
    Spread(RawTerm),
    Killed {
        general: RawTerm,
        target: RawTerm,
        steps: Seq<RawStep>,
    },
    Live(RawTerm),
    Moved {
        term: RawTerm,
        target: RawTerm,
        steps: Seq<RawStep>,
    },
}

/// A line of a tree: a split at a test with so many trees behind it, a class of the spread schemas with
/// these numbers, or the leaf of the live term with this number.
#[derive(Debug, Drop)]
pub enum TreeLine {
    Split { test: u64, count: u64 },
    Class(Seq<u64>),
    Leaf(u64),
}

/// The tree of a sort, in prefix order.
#[derive(Debug, Drop)]
pub struct SortTree {
    pub sort: Text,
    pub lines: Seq<TreeLine>,
}

/// The values that a pool gives to the variables of a sort.
#[derive(Debug, Drop)]
pub struct RawValues {
    pub sort: Text,
    pub values: Seq<RawTerm>,
}

/// A certificate, before anything is known of its names and numbers.
#[derive(Debug, Drop)]
pub struct Cert {
    pub sig: RawSig,
    pub pools: Seq<Seq<RawValues>>,
    pub entries: Seq<Entry>,
    pub trees: Seq<SortTree>,
}

/// A list of laws, which are entries `Law`, with the signature and the test values that they hold at.
#[derive(Debug, Drop)]
pub struct LawList {
    pub sig: RawSig,
    pub pools: Seq<Seq<RawValues>>,
    pub laws: Seq<Entry>,
}
