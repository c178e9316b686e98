ghost use Rattle.std.specs.Prelude.{◌≡◌, ◌+◌, ◌<◌, ◌≤◌, [], ◌∷◌, IfOk, MatchOption, slice_set};
ghost use Rattle.law_sig.specs.Trees.{schema_of};
ghost use Rattle.law_bank.specs.Terms.{tree_of};
ghost use Rattle.law_bank.specs.Bank.{IsOf, Grows};
ghost use Rattle.law_term.specs.Numbers.{number_at, IsGeneralOf, HasTooMany, AreUsed, AreNext, AreTooMany};

use super::bank::TermBank;
use law_bank::{Head, Term};
use law_sig::{NoMemory, SortId};

/// The next number of a sort, which is then used; `None` where all are.
fn take_number(vars: &[u32], used: &mut Vec<u32>, sort: SortId) -> Option<u32>
    requires { AreUsed vars.now used.old.items }
    ensures used { AreUsed vars.now used.new.items }
    ensures taken { MatchOption result ((number_at vars.now sort ≤ number_at used.old.items sort) × (used.new.items ≡ used.old.items))
        (λ n. (n ≡ number_at used.old.items sort) × (n < number_at vars.now sort) × (used.new.items ≡ slice_set used.old.items sort.0 (n + 1))) }
{
    let at = sort.0 as usize;
    if at >= vars.len() {
        return None;
    }
    let number = used[at];
    if number >= vars[at] {
        return None;
    }
    used[at] = number + 1;
    Some(number)
}

/// A term with its variables given the next numbers of their sorts, from left to right; `None` where a sort has too few.
fn numbered<'a>(
    bank: &mut TermBank<'a>,
    vars: &[u32],
    used: &mut Vec<u32>,
    term: Term<'a>,
) -> Result<Option<Term<'a>>, NoMemory>
    requires term { IsOf bank.old term.now }
    requires used { AreUsed vars.now used.old.items }
    ensures used { AreUsed vars.now used.new.items }
    ensures next { IfOk result (λ o. MatchOption o (AreTooMany vars.now used.old.items (tree_of term.now ∷ []))
        (λ g. (schema_of (tree_of g.now) ≡ schema_of (tree_of term.now)) × AreNext used.old.items used.new.items (tree_of term.now ∷ []) (tree_of g.now ∷ []))) }
    ensures held { IfOk result (λ o. MatchOption o (Unit {0}) (λ g. IsOf bank.new g.now)) }
    ensures grows { Grows bank.old bank.new }
{
    match term.head {
        Head::Var(sort, _) => {
            let Some(number) = take_number(vars, used, sort) else {
                return Ok(None);
            };
            let made = bank.intern(Head::Var(sort, number), &[])?;
            Ok(Some(made))
        }
        Head::Sym(symbol) => {
            let mut args = Vec::new(bank.alloc());
            for arg in term.args {
                let Some(made) = numbered(bank, vars, used, arg)? else {
                    return Ok(None);
                };
                let Ok(()) = args.push(made) else {
                    return Err(NoMemory);
                };
            }
            let made = bank.intern(Head::Sym(symbol), args.as_slice())?;
            Ok(Some(made))
        }
    }
}

/// Nothing used yet.
fn none_used(bank: &TermBank<'_>, vars: &[u32]) -> Result<Vec<u32>, NoMemory>
    ensures { IfOk result (λ used. AreUsed vars.now used.items × ((s : SortId) → number_at used.items s ≡ 0)) }
{
    let mut used = Vec::new(bank.alloc());
    for _ in vars {
        let Ok(()) = used.push(0) else {
            return Err(NoMemory);
        };
    }
    Ok(used)
}

impl<'a> TermBank<'a> {
    /// The most general instance of a schema: the variables of each sort are numbered from 0, from left to right. `None` exactly
    /// where a sort has more holes than its number in `vars`, which has one for each sort from the first on; where it ends, a
    /// sort has none. It takes time in the size of the schema, and the machine's stack as deep as it is, at most 32 in the search.
    pub fn general(&mut self, schema: Term<'a>, vars: &[u32]) -> Result<Option<Term<'a>>, NoMemory>
        requires { IsOf self.old schema.now }
        ensures general { IfOk result (λ o. MatchOption o (HasTooMany vars.now (tree_of schema.now)) (λ g. IsGeneralOf vars.now (tree_of schema.now) (tree_of g.now))) }
        ensures held { IfOk result (λ o. MatchOption o (Unit {0}) (λ g. IsOf self.new g.now)) }
        ensures grows { Grows self.old self.new }
    {
        let mut used = none_used(self, vars)?;
        let found = numbered(self, vars, &mut used, schema)?;
        Ok(found)
    }
}
