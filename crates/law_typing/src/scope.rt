use law_sig::{Seq, SortId};

/// Where a term stands: a value of a pool, a side of a background equation, or a body of a function.
#[derive(Clone, Copy, Debug, PartialEq, Eq)]
pub enum Standing {
    Value,
    Side,
    Body,
}

/// What a term may name where it stands. In a body: the number of the function at work, its match place, the sorts of the
/// fields of the matched constructor, and those of the parameters. Elsewhere there are no fields and no parameters.
#[derive(Drop)]
pub struct Scope {
    pub standing: Standing,
    pub owner: u32,
    pub place: Option<u64>,
    pub fields: Seq<SortId>,
    pub params: Seq<SortId>,
}
