ghost use Rattle.std.specs.Prelude.{◌≡◌, ◌+◌, ◌++◌, ◌<◌, ◌≤◌, ◌^◌, length, IfOk, OnOk};
ghost use Rattle.law_sig.specs.Signature.{symbol_at, vars_at, weight_at};
ghost use Rattle.law_sig.specs.Tests.{is_explored};
ghost use Rattle.law_sig.specs.declared.tree.Tree.TheViews.{out-Tree};
ghost use Rattle.law_listing.specs.Rows.{crossed, rows_of};
ghost use Rattle.law_listing.specs.Listing.{heads_sort, gives_sort, of_sort, of_weight, first_variables, applications, level, levels_to};

use super::rows::{push_behind, push_over};
use law_sig::{NoMemory, Seq, Sig, SortId, Sym, SymId, Tree};
use std::alloc::Global;

/// How many variables a sort has.
pub fn vars_at(sig: &Sig, sort: SortId) -> u32
    ensures { result ≡ vars_at sig.now sort }
{
    match sig.settings().vars.get(sort.0 as usize) {
        Some(count) => *count,
        None => 0,
    }
}

/// What a symbol weighs, at least 1.
fn weight_at(sig: &Sig, sym: SymId) -> u32
    ensures weight { result ≡ weight_at sig.now sym }
    ensures positive { 1 ≤ result }
{
    match sig.settings().weights.get(sym.0 as usize) {
        Some(weight) => *weight,
        None => 1,
    }
}

/// Whether terms are to be built from a symbol.
fn is_explored(sig: &Sig, sym: SymId) -> bool
    ensures { result ≡ is_explored sig.now sym }
{
    for explored in sig.settings().explored.as_slice() {
        if sym.0 == explored.0 {
            return true;
        }
    }
    false
}

/// Whether a term's head has this sort.
fn heads_sort(sig: &Sig, sort: SortId, term: &Tree) -> bool
    ensures { result ≡ heads_sort sig.now sort (out-Tree term.now) }
{
    match term {
        Tree::Var(own, _) => own.0 == sort.0,
        Tree::App(head, _) => gives_sort(sig, sort, *head),
    }
}

/// Whether a symbol's results have this sort.
fn gives_sort(sig: &Sig, sort: SortId, sym: SymId) -> bool
    ensures { result ≡ gives_sort sort (symbol_at sig.now sym) }
{
    match sig.symbol(sym) {
        Some(Sym::Con(con)) => con.sort.0 == sort.0,
        Some(Sym::Fun(fun)) => fun.result.0 == sort.0,
        None => false,
    }
}

/// Adds the rows that have one of these terms, if it is of this sort, in front of one of the rows.
fn push_crossed_of(
    alloc: Global,
    sig: &Sig,
    sort: SortId,
    found: &mut Seq<Seq<Tree>>,
    terms: &[Tree],
    rows: &[Seq<Tree>],
) -> Result<(), NoMemory>
    ensures { OnOk result (found.new ≡ found.old ++ crossed (of_sort sig.now sort terms.now) rows.now) }
{
    for term in terms {
        if !heads_sort(sig, sort, term) {
            continue;
        }
        push_behind(alloc, found, term, rows)?;
    }
    Ok(())
}

/// The rows of schemas of these sorts that have this weight in all.
fn rows_of(
    alloc: Global,
    sig: &Sig,
    levels: &[Seq<Tree>],
    sorts: &[SortId],
    weight: u32,
) -> Result<Seq<Seq<Tree>>, NoMemory>
    requires within { weight < length levels.now }
    requires small { length levels.now < 2 ^ 32 }
    ensures { IfOk result (λ rows. rows ≡ rows_of (of_weight sig.now levels.now) sorts.now weight) }
{
    let mut found = Seq::new(alloc);
    let Some((first, rest)) = sorts.split_first() else {
        if weight == 0 {
            found.push(Seq::new(alloc))?;
        }
        return Ok(found);
    };
    for lighter in 0..weight + 1 {
        let terms = levels[lighter as usize].as_slice();
        if terms.len() == 0 {
            continue;
        }
        let below = rows_of(alloc, sig, levels, rest, weight - lighter)?;
        if below.len() == 0 {
            continue;
        }
        push_crossed_of(alloc, sig, *first, &mut found, terms, below.as_slice())?;
    }
    Ok(found)
}

/// Adds the schemas of this weight that have this symbol on top.
fn push_applications(
    alloc: Global,
    sig: &Sig,
    found: &mut Seq<Tree>,
    levels: &[Seq<Tree>],
    sym: SymId,
) -> Result<(), NoMemory>
    requires declared { sym.0 < length sig.now.symbols }
    requires small { length levels.now < 2 ^ 32 }
    ensures { OnOk result (found.new ≡ found.old ++ applications sig.now (of_weight sig.now levels.now) (length levels.now) sym) }
{
    let own = weight_at(sig, sym);
    if !is_explored(sig, sym) || levels.len() < own as usize {
        return Ok(());
    }
    let rest = (levels.len() - own as usize) as u32;
    let rows = rows_of(alloc, sig, levels, sig.args_of(sym), rest)?;
    push_over(alloc, found, sym, rows.as_slice())
}

/// The first variable of each sort that has any.
fn first_variables(alloc: Global, sig: &Sig) -> Result<Seq<Tree>, NoMemory>
    ensures { IfOk result (λ found. found ≡ first_variables sig.now) }
{
    let mut found = Seq::new(alloc);
    for number in 0..sig.sorts() {
        if vars_at(sig, SortId(number)) == 0 {
            continue;
        }
        found.push(Tree::Var(SortId(number), 0))?;
    }
    Ok(found)
}

/// The schemas of the weight that comes after those listed.
fn level(alloc: Global, sig: &Sig, levels: &[Seq<Tree>]) -> Result<Seq<Tree>, NoMemory>
    requires { length levels.now < 2 ^ 32 }
    ensures { IfOk result (λ found. found ≡ level sig.now levels.now (length levels.now)) }
{
    let mut found = if levels.len() == 1 {
        first_variables(alloc, sig)?
    } else {
        Seq::new(alloc)
    };
    for number in 0..sig.symbols() {
        push_applications(alloc, sig, &mut found, levels, SymId(number))?;
    }
    Ok(found)
}

/// The schemas of each weight from 0 to this one.
pub fn levels(alloc: Global, sig: &Sig, size: u32) -> Result<Seq<Seq<Tree>>, NoMemory>
    requires { size ≤ 32 }
    ensures { IfOk result (λ levels. levels ≡ levels_to sig.now size) }
{
    let mut levels = Seq::new(alloc);
    levels.push(Seq::new(alloc))?;
    for _made in 0..size {
        let next = level(alloc, sig, levels.as_slice())?;
        levels.push(next)?;
    }
    Ok(levels)
}
