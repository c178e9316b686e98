ghost use Rattle.std.specs.Prelude.{◌≡◌, ◌++◌, OnOk, IfOk, MatchOption};
ghost use Rattle.law_rewriting.specs.Unifiers.{IsMatch, HasNoMatch};
ghost use Rattle.law_rewriting.specs.UnifyingState.{both_args};
ghost use Rattle.law_bank.specs.Terms.{tree_of, trees_of};
ghost use Rattle.law_bank.specs.Bank.{Terms, IsOf, AllOf, IsShared, sorts_by};
ghost use Rattle.law_bank.specs.Bindings.{AllBound, AreRising, binds_of};
ghost use Rattle.law_term.specs.Turns.{open_of, AllOpen, MatchNext};

use super::bank::TermBank;
use super::subst::Subst;
use law_bank::{Head, Term};
use law_sig::{NoMemory, SortId};

/// The arguments in pairs, the first on top.
fn push_args<'a>(
    left: &mut Vec<(Term<'a>, Term<'a>)>,
    patterns: &[Term<'a>],
    terms: &[Term<'a>],
) -> Result<(), NoMemory>
    ensures pairs { OnOk result (open_of left.new.items ≡ both_args (trees_of patterns.now) (trees_of terms.now) ++ open_of left.old.items) }
    ensures held { OnOk result ((bank : Terms) → AllOf bank patterns.now → AllOf bank terms.now → AllOpen bank left.old.items → AllOpen bank left.new.items) }
{
    match patterns {
        [] => Ok(()),
        [pattern, patterns @ ..] => match terms {
            [] => Ok(()),
            [term, terms @ ..] => {
                push_args(left, patterns, terms)?;
                let Ok(()) = left.push((*pattern, *term)) else {
                    return Err(NoMemory);
                };
                Ok(())
            }
        },
    }
}

/// Matches a variable; false where no substitution does.
fn bind_match<'a>(
    bank: &TermBank<'a>,
    bound: &mut Subst<'a>,
    sort: SortId,
    index: u32,
    term: Term<'a>,
) -> Result<bool, NoMemory>
    requires shared { IsShared bank.now }
    requires term { IsOf bank.now term.now }
    requires held { AllBound bank.now bound.old }
    requires rising { AreRising bound.old }
    ensures next { IfOk result (λ went. MatchNext (sorts_by bank.now.sorts) sort index (tree_of term.now) bound.old bound.new went) }
    ensures held { OnOk result (AllBound bank.now bound.new) }
    ensures rising { AreRising bound.new }
{
    match bound.find(sort, index) {
        Some(known) => Ok(known.id == term.id),
        None => {
            if term.sort.0 != sort.0 {
                return Ok(false);
            }
            bound.bind(sort, index, term)?;
            Ok(true)
        }
    }
}

/// The bindings of exactly the pattern's variables that give the term, each to a term of the variable's sort; `None` exactly where
/// no substitution gives it. It takes time in the size of the pattern.
pub fn matches<'a>(
    bank: &TermBank<'a>,
    pattern: Term<'a>,
    term: Term<'a>,
) -> Result<Option<Subst<'a>>, NoMemory>
    requires pattern { IsOf bank.now pattern.now }
    requires term { IsOf bank.now term.now }
    ensures found { IfOk result (λ o. MatchOption o (HasNoMatch (sorts_by bank.now.sorts) (tree_of pattern.now) (tree_of term.now)) (λ s. IsMatch (sorts_by bank.now.sorts) (tree_of pattern.now) (tree_of term.now) (binds_of s))) }
    ensures held { IfOk result (λ o. MatchOption o (Unit {0}) (λ s. AllBound bank.now s)) }
    ensures rising { IfOk result (λ o. MatchOption o (Unit {0}) (λ s. AreRising s)) }
{
    bank.shared();
    let mut left = Vec::new(bank.alloc());
    let Ok(()) = left.push((pattern, term)) else {
        return Err(NoMemory);
    };
    let mut bound = Subst::new(bank.alloc());
    while let Some((a, b)) = left.pop() {
        match (a.head, b.head) {
            (Head::Var(sort, index), _) => {
                let went = bind_match(bank, &mut bound, sort, index, b)?;
                if !went {
                    return Ok(None);
                }
            }
            (Head::Sym(f), Head::Sym(g)) => {
                if f.0 != g.0 {
                    return Ok(None);
                }
                if a.args.len() != b.args.len() {
                    return Ok(None);
                }
                push_args(&mut left, a.args, b.args)?;
            }
            (Head::Sym(_), Head::Var(_, _)) => return Ok(None),
        }
    }
    Ok(Some(bound))
}
