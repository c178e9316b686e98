use law_bank::Term;

/// The number of an equation, from 1, in the order in which equations were stated.
#[derive(Clone, Copy, Debug, PartialEq, Eq, PartialOrd, Ord, Hash)]
pub struct EqId(pub u64);

/// An equation between two terms of one bank.
#[derive(Clone, Copy)]
pub struct Eqn<'a> {
    pub left: Term<'a>,
    pub right: Term<'a>,
}
