use crate::cert::{Entry, RawValues, SortTree};
use law_sig::Seq;

/// What was read of a certificate behind its signature. The last pool, entry or tree stands apart, since
/// it may go on; of a tree that is how many trees of sorts and of terms are still owed.
#[derive(Debug, Drop)]
pub enum Draft {
    Start,
    Pools {
        pools: Seq<Seq<RawValues>>,
        pool: Seq<RawValues>,
    },
    Entries {
        pools: Seq<Seq<RawValues>>,
        entries: Seq<Entry>,
        entry: Entry,
    },
    Trees {
        pools: Seq<Seq<RawValues>>,
        entries: Seq<Entry>,
        trees: Seq<SortTree>,
        tree: SortTree,
        owed: Owed,
    },
    Over {
        pools: Seq<Seq<RawValues>>,
        entries: Seq<Entry>,
        trees: Seq<SortTree>,
    },
}

/// How many trees must still come: so many of terms, and then so many of sorts.
#[derive(Clone, Copy, Debug)]
pub struct Owed {
    pub sorts: u128,
    pub terms: u128,
}
