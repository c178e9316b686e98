//! A term is handed to the bank that made it. With another bank the same lines aren't proved (`must-fail`), and where the arena was
//! given up they don't compile.
use bumpalo::Bump;
use law_sig::{NoMemory, Seq, SortId, Tree};
use law_term::{Head, TermBank};
use std::alloc::Global;

/// The schema of a variable, in one of two banks.
pub fn schema_in_its_bank(alloc: Global) -> Result<Tree, NoMemory> {
    let arena = Bump::new(alloc);
    let mut bank = TermBank::new(alloc, &arena, Seq::new(alloc), Seq::new(alloc));
    let mut other = TermBank::new(alloc, &arena, Seq::new(alloc), Seq::new(alloc));
    let _first = other.intern(Head::Var(SortId(1), 0), &[])?;
    let term = bank.intern(Head::Var(SortId(0), 7), &[])?;
    let made = bank.flatten(term)?;
    bank.to_tree(made)
}
