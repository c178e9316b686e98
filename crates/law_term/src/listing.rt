ghost use Rattle.std.specs.Prelude.{◌<◌, ◌^◌, ℕ, IfOk, OnOk};
ghost use Rattle.law_sig.specs.Lists.{Each};
ghost use Rattle.law_sig.specs.declared.tree.SortId.{SortId};
ghost use Rattle.law_bank.specs.Terms.{trees_of};
ghost use Rattle.law_bank.specs.Bank.{AllOf};
ghost use Rattle.law_term.specs.Variables.{AreVariables};
ghost use Rattle.law_term.specs.Walks.{IsHeadNoted, IsNoted};

use super::bank::TermBank;
use super::walk::{Visit, enter, enter_all};
use indexmap::IndexMap;
use law_bank::{Head, Term};
use law_sig::{NoMemory, SortId};

/// Puts the variable of a head behind others, where it is one.
fn note_head(variables: &mut Vec<(SortId, u32)>, head: Head) -> Result<(), NoMemory>
    ensures noted { OnOk result (IsHeadNoted head variables.old.items variables.new.items) }
    ensures small { OnOk result (Each (λ (v : SortId × ℕ). v.1 < 2 ^ 32) variables.old.items → Each (λ (v : SortId × ℕ). v.1 < 2 ^ 32) variables.new.items) }
{
    match head {
        Head::Var(sort, index) => {
            let Ok(()) = variables.push((sort, index)) else {
                return Err(NoMemory);
            };
            Ok(())
        }
        Head::Sym(_) => Ok(()),
    }
}

/// Notes a node that isn't done yet, and its variable where it is one.
fn note<'a>(
    done: &mut IndexMap<u64, Term<'a>>,
    variables: &mut Vec<(SortId, u32)>,
    node: Term<'a>,
) -> Result<(), NoMemory>
    ensures noted { OnOk result (IsNoted node.entry done.old.entries done.new.entries variables.old.items variables.new.items) }
    ensures small { OnOk result (Each (λ (v : SortId × ℕ). v.1 < 2 ^ 32) variables.old.items → Each (λ (v : SortId × ℕ). v.1 < 2 ^ 32) variables.new.items) }
{
    if done.get(&node.id).is_some() {
        return Ok(());
    }
    note_head(variables, node.head)?;
    let Ok(_) = done.insert(node.id, node) else {
        return Err(NoMemory);
    };
    Ok(())
}

impl<'a> TermBank<'a> {
    /// The variables of these terms, each once: those of each sort in order of first occurrence, from the left. It takes time in
    /// the number of the different nodes, and the machine's stack for no depth of the terms.
    pub fn variables(&self, terms: &[Term<'a>]) -> Result<Vec<(SortId, u32)>, NoMemory>
        requires { AllOf self.now terms.now }
        ensures exact { IfOk result (λ vs. AreVariables (trees_of terms.now) vs.items) }
        ensures small { IfOk result (λ vs. Each (λ (v : SortId × ℕ). v.1 < 2 ^ 32) vs.items) }
    {
        self.shared();
        let mut done = IndexMap::new(self.alloc());
        let mut visits = Vec::new(self.alloc());
        let mut found = Vec::new(self.alloc());
        enter_all(&mut visits, terms)?;
        while let Some(visit) = visits.pop() {
            match visit {
                Visit::Enter(node) => enter(&done, &mut visits, node)?,
                Visit::Leave(node) => note(&mut done, &mut found, node)?,
            }
        }
        Ok(found)
    }
}
