use law_sig::SortId;

/// Why there are no pools: the first generated value of more than 4,096 nodes, by its pool and sort; or want of memory.
#[derive(Clone, Copy, Debug, PartialEq, Eq)]
pub enum GenErr {
    ValueTooLarge { pool: u32, sort: SortId },
    NoMemory,
}

/// Why a value isn't made.
#[derive(Clone, Copy, Debug, PartialEq, Eq)]
pub enum Stop {
    TooLarge,
    NoMemory,
}
