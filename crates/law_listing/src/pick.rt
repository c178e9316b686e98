/// What stands at a place of a row: how much it weighs, and which one of this weight it is, from 0.
#[derive(Clone, Copy, Debug, PartialEq, Eq)]
pub struct Pick {
    pub weight: usize,
    pub at: usize,
}
