use super::seq::Seq;
use super::tree::{SortId, Tree};

/// From which side of an equation a step leads.
#[derive(Clone, Copy, Debug, PartialEq, Eq)]
pub enum Dir {
    LeftToRight,
    RightToLeft,
}

/// The term that a variable stands for.
#[derive(Debug, Drop)]
pub struct Bind {
    pub sort: SortId,
    pub index: u32,
    pub term: Tree,
}

/// One replacement: at a place, by the equation with this number, with a term for each of its variables. A place is
/// the numbers of the arguments on the way down, from 0.
#[derive(Debug, Drop)]
pub struct Step {
    pub place: Seq<u32>,
    pub number: u64,
    pub dir: Dir,
    pub binds: Seq<Bind>,
}
