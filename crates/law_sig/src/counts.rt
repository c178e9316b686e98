ghost use Rattle.std.specs.Prelude.{◌≡◌, ℕ, suc, [], ◌+◌, ◌-◌, ◌*◌, ◌<◌, ◌≤◌, length, slice_index_or, IfOk};
ghost use Rattle.law_sig.specs.Lists.{total};
ghost use Rattle.law_sig.specs.Signature.{symbol_at, weight_at};
ghost use Rattle.law_sig.specs.Tests.{assignments, first_of};
ghost use Rattle.law_sig.specs.Counts.{at_most, count_at, lists_at, stopped, applications_of, terms_at, term_count};
ghost use Rattle.law_sig.specs.WellFormed.{IsWellFormed};
ghost use Rattle.law_sig.specs.declared.tree.SortId.{SortId};

use super::seq::{NoMemory, Seq};
use super::sig::Sig;
use super::tree::{SortId, SymId};
use std::alloc::Global;

/// The most ways in which the variables may be given places in a pool.
const MOST_ASSIGNMENTS: u64 = 4096;

impl Sig {
    /// In how many ways the variables of all sorts can be given places in a pool; `None` exactly where these are more
    /// than 4,096.
    pub fn assignments(&self) -> Option<u64>
        ensures { result ≡ at_most 4096 (assignments self.now) }
    {
        let settings = self.settings();
        let mut ways = 1u64;
        for (at, vars) in settings.vars.as_slice().iter().enumerate() {
            let width = settings.width.as_slice()[at] as u64;
            ways = ways.saturating_mul(width.pow(*vars));
        }
        if ways <= MOST_ASSIGNMENTS {
            Some(ways)
        } else {
            None
        }
    }

    /// How many terms the universe has, of all sorts together; `None` exactly where these are more than the limit. The
    /// terms are counted, by weight and sort, and not listed.
    pub fn terms_up_to(&self, alloc: Global, limit: u64) -> Result<Option<u64>, NoMemory>
        ensures { IfOk result (λ found. found ≡ at_most limit (term_count self.now)) }
    {
        let mut rows = Seq::new(alloc);
        rows.push(no_terms(alloc, self)?)?;
        let mut count = 0u128;
        for _ in 0..self.settings().size {
            let row = next_row(alloc, self, rows.as_slice())?;
            count = with_row(count, row.as_slice());
            if count > limit as u128 {
                return Ok(None);
            }
            rows.push(row)?;
        }
        Ok(Some(count as u64))
    }
}

/// For each sort no term, since nothing weighs 0.
fn no_terms(alloc: Global, sig: &Sig) -> Result<Seq<u128>, NoMemory>
    ensures { IfOk result (λ row. row ≡ first_of (length sig.now.sort_names) (λ sort. 0)) }
{
    let mut row = Seq::new(alloc);
    for _ in 0..sig.sorts() {
        row.push(0u128)?;
    }
    Ok(row)
}

/// A number and all of a row, stopped at 2^128 - 1.
fn with_row(count: u128, row: &[u128]) -> u128
    ensures { result ≡ stopped (count + total row.now) }
{
    let mut sum = count;
    for number in row {
        sum = sum.saturating_add(*number);
    }
    sum
}

/// For each sort how many of its terms have the next weight, where the rows tell of all lower ones.
fn next_row(alloc: Global, sig: &Sig, rows: &[Seq<u128>]) -> Result<Seq<u128>, NoMemory>
    ensures { IfOk result (λ row. row ≡ first_of (length sig.now.sort_names) (λ sort. stopped (terms_at sig.now rows.now (length rows.now) (record { 0 = sort })))) }
{
    let mut row = Seq::new(alloc);
    for sort in 0..sig.sorts() {
        row.push(terms_of(alloc, sig, rows, SortId(sort))?)?;
    }
    Ok(row)
}

/// How many terms of a sort have the next weight.
fn terms_of(alloc: Global, sig: &Sig, rows: &[Seq<u128>], sort: SortId) -> Result<u128, NoMemory>
    ensures { IfOk result (λ count. count ≡ stopped (terms_at sig.now rows.now (length rows.now) sort)) }
{
    let settings = sig.settings();
    let mut count = 0u128;
    if rows.len() == 1 {
        count = vars_of(settings.vars.as_slice(), sort) as u128;
    }
    for sym in settings.explored.as_slice() {
        count = count.saturating_add(applications(alloc, sig, rows, sort, *sym)?);
    }
    Ok(count)
}

/// How many variables a sort has.
fn vars_of(vars: &[u32], sort: SortId) -> u32
    ensures { result ≡ slice_index_or vars.now sort.0 0 }
{
    match vars.get(sort.0 as usize) {
        Some(found) => *found,
        None => 0,
    }
}

/// The weight of a symbol.
fn weight_of(weights: &[u32], sym: SymId) -> u32
    ensures { result ≡ slice_index_or weights.now sym.0 1 }
{
    match weights.get(sym.0 as usize) {
        Some(found) => *found,
        None => 1,
    }
}

/// How many terms of a sort with this symbol at their head have the next weight.
fn applications(
    alloc: Global,
    sig: &Sig,
    rows: &[Seq<u128>],
    sort: SortId,
    sym: SymId,
) -> Result<u128, NoMemory>
    requires { sym.0 < length sig.now.symbols }
    ensures { IfOk result (λ count. count ≡ stopped (applications_of sig.now rows.now (length rows.now) sort sym (symbol_at sig.now sym))) }
{
    if sig.result_of(sym).0 != sort.0 {
        return Ok(0);
    }
    let own = weight_of(sig.settings().weights.as_slice(), sym) as usize;
    if rows.len() < own {
        return Ok(0);
    }
    let left = rows.len() - own;
    let lists = lists_of(alloc, rows, sig.args_of(sym), left)?;
    Ok(number_at(lists.as_slice(), left))
}

/// How many lists of terms of these sorts in turn have each weight up to this one.
fn lists_of(
    alloc: Global,
    rows: &[Seq<u128>],
    sorts: &[SortId],
    weight: usize,
) -> Result<Seq<u128>, NoMemory>
    ensures { IfOk result (λ lists. lists ≡ first_of (suc weight) (λ w. stopped (lists_at rows.now sorts.now w))) }
{
    let mut lists = empty_lists(alloc, weight)?;
    for done in 0..sorts.len() {
        let sort = sorts[sorts.len() - 1 - done];
        lists = with_first(alloc, rows, sort, lists.as_slice())?;
    }
    Ok(lists)
}

/// How many empty lists have each weight up to this one.
fn empty_lists(alloc: Global, weight: usize) -> Result<Seq<u128>, NoMemory>
    ensures { IfOk result (λ lists. lists ≡ first_of (suc weight) (λ w. lists_at [] [] w)) }
{
    let mut lists = Seq::new(alloc);
    lists.push(1u128)?;
    for _ in 0..weight {
        lists.push(0u128)?;
    }
    Ok(lists)
}

/// How many lists have each weight, with one term more in front.
fn with_first(
    alloc: Global,
    rows: &[Seq<u128>],
    sort: SortId,
    rest: &[u128],
) -> Result<Seq<u128>, NoMemory>
    ensures { IfOk result (λ lists. lists ≡ first_of (length rest.now) (λ w. stopped (total (first_of (suc w) (λ first. count_at rows.now first sort * slice_index_or rest.now (w - first) 0))))) }
{
    let mut lists = Seq::new(alloc);
    for weight in 0..rest.len() {
        lists.push(with_first_at(rows, sort, rest, weight))?;
    }
    Ok(lists)
}

/// How many of these lists have one weight.
fn with_first_at(rows: &[Seq<u128>], sort: SortId, rest: &[u128], weight: usize) -> u128
    requires { weight < length rest.now }
    ensures { result ≡ stopped (total (first_of (suc weight) (λ first. count_at rows.now first sort * slice_index_or rest.now (weight - first) 0))) }
{
    let mut sum = 0u128;
    for first in 0..weight + 1 {
        let here = count_in(rows, first, sort);
        sum = sum.saturating_add(here.saturating_mul(number_at(rest, weight - first)));
    }
    sum
}

/// How many terms of a sort have a weight, by what is known; none where nothing is.
fn count_in(rows: &[Seq<u128>], weight: usize, sort: SortId) -> u128
    ensures { result ≡ count_at rows.now weight sort }
{
    match rows.get(weight) {
        Some(row) => number_at(row.as_slice(), sort.0 as usize),
        None => 0,
    }
}

/// The number at a place, and 0 past the end.
fn number_at(numbers: &[u128], at: usize) -> u128
    ensures { result ≡ slice_index_or numbers.now at 0 }
{
    match numbers.get(at) {
        Some(found) => *found,
        None => 0,
    }
}
