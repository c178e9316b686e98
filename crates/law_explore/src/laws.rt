ghost use Rattle.std.specs.Prelude.{◌≡◌, ℕ, ◌<◌, length, slice_index_or, IfOk};
ghost use Rattle.law_explore.specs.Equations.{equations};

use law_sig::{Equation, NoMemory, Seq, Tree};
use std::alloc::Global;

/// The equation of each term with the term at its first place, for those that stand at another place.
pub fn equations(alloc: Global, terms: &[Tree], firsts: &[usize]) -> Result<Seq<Equation>, NoMemory>
    requires long { length firsts.now ≡ length terms.now }
    requires within { (at : ℕ) → at < length firsts.now → slice_index_or firsts.now at 0 < length terms.now }
    ensures { IfOk result (λ laws. laws ≡ equations terms.now firsts.now) }
{
    let mut found = Seq::new(alloc);
    for (at, term) in terms.iter().enumerate() {
        let first = firsts[at];
        if first == at {
            continue;
        }
        found.push(Equation {
            left: term.copy(alloc)?,
            right: terms[first].copy(alloc)?,
        })?;
    }
    Ok(found)
}
