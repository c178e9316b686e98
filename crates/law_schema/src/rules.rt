ghost use Rattle.std.specs.Prelude.{◌≡◌, ◌<◌, ◌≤◌, [], length, slice_index_or, false, IfOk, IsTrue, ℕ};
ghost use Rattle.std.specs.Option.{MatchOption};
ghost use Rattle.law_sig.specs.Lists.{Each};
ghost use Rattle.law_sig.specs.Signature.{weight_at};
ghost use Rattle.law_sig.specs.Tests.{is_explored};
ghost use Rattle.law_sig.specs.declared.tree.SymId.{SymId};
ghost use Rattle.law_schema.specs.Rules.{AreMarks, AreMarksOf, IsRule, AreBetween, AreRules, HasNone, IsFirstSort};

use law_sig::{NoMemory, Seq, Sig, SortId, SymId};
use std::alloc::Global;

/// An explored symbol: what it weighs, the sorts of its arguments, and the sort of its results.
#[derive(Debug, Drop)]
pub struct Rule {
    pub symbol: SymId,
    pub weight: u32,
    pub args: Seq<SortId>,
    pub result: SortId,
}

/// What is kept of a signature: how many sorts there are, how many variables each of them has, the greatest weight of a term, and the
/// explored symbols in order of number.
#[derive(Debug, Drop)]
pub struct Rules {
    pub sorts: u32,
    pub vars: Seq<u32>,
    pub size: u32,
    pub symbols: Seq<Rule>,
}

/// Marks, none of which is set yet, with those of these symbols set.
fn with_marks(mut marks: Vec<bool>, symbols: &[SymId]) -> Vec<bool>
    requires within { Each (λ (f : SymId). f.0 < length marks.items) symbols.now }
    requires fresh { AreMarksOf [] marks.items }
    ensures { AreMarksOf symbols.now result.items }
{
    for symbol in symbols {
        marks[symbol.0 as usize] = true;
    }
    marks
}

/// For each symbol, by number, whether it is explored.
fn explored_marks(alloc: Global, sig: &Sig) -> Result<Vec<bool>, NoMemory>
    ensures { IfOk result (λ marks. AreMarks sig.now marks.items) }
{
    match vec![in alloc; false; sig.symbols() as usize] {
        Ok(marks) => Ok(with_marks(marks, sig.settings().explored.as_slice())),
        Err(_) => Err(NoMemory),
    }
}

#[tactic(auto, using(crate::proofs::Items::present, crate::proofs::Items::missing))]
/// What a symbol weighs.
fn weight_at(sig: &Sig, symbol: SymId) -> u32
    ensures { result ≡ weight_at sig.now symbol }
{
    match sig.settings().weights.get(symbol.0 as usize) {
        Some(weight) => *weight,
        None => 1,
    }
}

/// The same sorts.
fn copied(alloc: Global, sorts: &[SortId]) -> Result<Seq<SortId>, NoMemory>
    ensures { IfOk result (λ copy. copy ≡ sorts.now) }
{
    let mut copy = Seq::new(alloc);
    for sort in sorts {
        copy.push(*sort)?;
    }
    Ok(copy)
}

/// The same numbers.
fn copied_numbers(alloc: Global, numbers: &[u32]) -> Result<Seq<u32>, NoMemory>
    ensures { IfOk result (λ copy. copy ≡ numbers.now) }
{
    let mut copy = Seq::new(alloc);
    for number in numbers {
        copy.push(*number)?;
    }
    Ok(copy)
}

/// The rule of an explored symbol.
fn rule_of(alloc: Global, sig: &Sig, symbol: SymId) -> Result<Rule, NoMemory>
    requires declared { symbol.0 < length sig.now.symbols }
    requires explored { IsTrue (is_explored sig.now symbol) }
    ensures rule { IfOk result (IsRule sig.now) }
    ensures symbol { IfOk result (λ rule. rule.symbol ≡ symbol) }
{
    Ok(Rule {
        symbol,
        weight: weight_at(sig, symbol),
        args: copied(alloc, sig.args_of(symbol))?,
        result: sig.result_of(symbol),
    })
}

/// Whether there is a mark at a symbol's number.
fn is_marked(marks: &[bool], symbol: SymId) -> bool
    ensures { result ≡ slice_index_or marks.now symbol.0 false }
{
    match marks.get(symbol.0 as usize) {
        Some(mark) => *mark,
        None => false,
    }
}

/// The rules of the explored symbols in order of number.
fn symbol_rules(alloc: Global, sig: &Sig) -> Result<Seq<Rule>, NoMemory>
    ensures { IfOk result (AreBetween sig.now 0 (length sig.now.symbols)) }
{
    let marks = explored_marks(alloc, sig)?;
    let mut rules = Seq::new(alloc);
    for number in 0..sig.symbols() {
        if !is_marked(marks.as_slice(), SymId(number)) {
            continue;
        }
        rules.push(rule_of(alloc, sig, SymId(number))?)?;
    }
    Ok(rules)
}

/// What is kept of a signature.
pub fn rules_of(alloc: Global, sig: &Sig) -> Result<Rules, NoMemory>
    ensures { IfOk result (AreRules sig.now) }
{
    let settings = sig.settings();
    Ok(Rules {
        sorts: sig.sorts(),
        vars: copied_numbers(alloc, settings.vars.as_slice())?,
        size: settings.size,
        symbols: symbol_rules(alloc, sig)?,
    })
}

#[tactic(auto, using(crate::proofs::Items::present, crate::proofs::Items::missing))]
/// How many variables a sort has.
pub fn vars_at(rules: &Rules, sort: SortId) -> u32
    ensures { result ≡ slice_index_or rules.now.vars sort.0 0 }
{
    match rules.vars.get(sort.0 as usize) {
        Some(count) => *count,
        None => 0,
    }
}

/// The first sort from this number on that has a variable.
pub fn first_sort(rules: &Rules, from: u32) -> Option<SortId>
    ensures { MatchOption result ((n : ℕ) → from ≤ n → n < rules.now.sorts → HasNone rules.now n) (IsFirstSort rules.now from) }
{
    for number in from..rules.sorts {
        if vars_at(rules, SortId(number)) == 0 {
            continue;
        }
        return Some(SortId(number));
    }
    None
}
