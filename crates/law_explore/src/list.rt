ghost use Rattle.std.specs.Prelude.{◌≡◌, ◌++◌, ◌∷◌, IfOk, OnOk};

use law_sig::{NoMemory, Seq, Tree};
use std::alloc::Global;

/// Adds copies of these terms at the end.
pub fn push_copies(alloc: Global, found: &mut Seq<Tree>, terms: &[Tree]) -> Result<(), NoMemory>
    ensures { OnOk result (found.new ≡ found.old ++ terms.now) }
{
    for term in terms {
        found.push(term.copy(alloc)?)?;
    }
    Ok(())
}

/// A row of its own: a term and then the terms of a row.
pub fn in_front(alloc: Global, term: &Tree, row: &[Tree]) -> Result<Seq<Tree>, NoMemory>
    ensures { IfOk result (λ made. made ≡ term.now ∷ row.now) }
{
    let mut made = Seq::new(alloc);
    made.push(term.copy(alloc)?)?;
    push_copies(alloc, &mut made, row)?;
    Ok(made)
}
