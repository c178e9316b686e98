use crate::names::Names;

/// How far a text has been gone through: how many lines of sorts, of symbols and of pools there were, the match place of
/// the function at work and the constructors that its cases have named, and how many lines of values the pool at work has.
#[derive(Drop)]
pub struct Seen {
    pub sorts: u32,
    pub symbols: u32,
    pub place: Option<u64>,
    pub cases: Names,
    pub pools: u32,
    pub values: u32,
}
