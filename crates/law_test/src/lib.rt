//! Terms at the tests of a signature's pools: their values, whether given or from a seed, and tables of terms.
#![tactic(auto)]

mod evaluator;
mod memo;
mod pools;
mod table;
mod values;
mod words;

pub use evaluator::Evaluator;
pub use pools::pools_of;
pub use table::TermTable;
pub use values::Tester;
