ghost use Rattle.std.specs.Prelude.{◌≡◌, ◌&&◌, ◌||◌, ◌<◌, ◌^◌, not, length, Some, slice_get, nat_lt, IfOk};
ghost use Rattle.std.specs.List.{list_all};
ghost use Rattle.law_sig.specs.Signature.{constructors_from, makes_sort, args_of, result_of};
ghost use Rattle.law_sig.specs.WellFormed.{is_function};
ghost use Rattle.law_typing.specs.Names.{number_of};
ghost use Rattle.law_types.specs.Rows.{AreRows};
ghost use Rattle.law_typing.specs.LineFaults.{owner, case_names, has_case, match_faults, wrong_case, matched, symbol_case_faults, case_faults};

use crate::lines::{body_fault, own_sorts, owner};
use crate::terms::{args_of, fault_if, is_function, result_of, sort_at};
use law_lines::{RawLine, RawTerm};
use law_sig::{NoMemory, Seq, SortId, Sym, SymId, Text};
use law_typing::{Names, Seen, TypeKind, Whole};
use std::alloc::Global;

/// Whether a symbol is a constructor of this sort.
fn makes(symbol: &Sym, sort: SortId) -> bool
    ensures { result ≡ makes_sort sort symbol.now }
{
    match symbol {
        Sym::Con(con) => con.sort.0 == sort.0,
        Sym::Fun(_) => false,
    }
}

/// The constructors of a sort, in order of number.
pub(crate) fn constructors(
    alloc: Global,
    symbols: &[Sym],
    sort: SortId,
) -> Result<Seq<SymId>, NoMemory>
    ensures { IfOk result (λ found. found ≡ constructors_from 0 symbols.now sort) }
{
    let mut found = Seq::new(alloc);
    for (at, symbol) in symbols.iter().enumerate() {
        if at > u32::MAX as usize {
            return Err(NoMemory);
        }
        if makes(symbol, sort) {
            found.push(SymId(at as u32))?;
        }
    }
    Ok(found)
}

/// The constructors of each of the first 64 sorts.
#[tactic(auto, using(crate::proofs::RowFacts::are_rows))]
pub(crate) fn rows(alloc: Global, text: &Whole) -> Result<Seq<Seq<SymId>>, NoMemory>
    ensures { IfOk result (λ rows. AreRows text.now rows) }
{
    let mut rows = Seq::new(alloc);
    for at in 0..text.sorts.len().min(64) {
        let row = constructors(alloc, text.symbols.as_slice(), SortId(at))?;
        rows.push(row)?;
    }
    Ok(rows)
}

/// The names of the cases that come first.
pub(crate) fn case_names(alloc: Global, lines: &[RawLine]) -> Result<Names, NoMemory>
    ensures { IfOk result (λ names. names ≡ case_names lines.now) }
{
    let mut names = Names::new(alloc);
    for line in lines {
        let RawLine::CaseLine { con, body: _ } = line else {
            return Ok(names);
        };
        names = names.with(alloc, con)?;
    }
    Ok(names)
}

fn has_case(text: &Whole, cases: &Names, con: SymId) -> bool
    ensures { result ≡ has_case text.now cases.now con }
{
    match text.names.get(con.0) {
        Some(name) => cases.find(name).is_some(),
        None => false,
    }
}

fn all_have_cases(text: &Whole, cases: &Names, cons: &[SymId]) -> bool
    ensures { result ≡ list_all (has_case text.now cases.now) cons.now }
{
    for con in cons {
        if !has_case(text, cases, *con) {
            return false;
        }
    }
    true
}

/// Whether all constructors of a sort have a case.
fn is_complete(
    alloc: Global,
    text: &Whole,
    rows: &[Seq<SymId>],
    cases: &Names,
    sort: SortId,
) -> Result<bool, NoMemory>
    requires { AreRows text.now rows.now }
    ensures { IfOk result (λ all. all ≡ list_all (has_case text.now cases.now) (constructors_from 0 text.now.symbols sort)) }
{
    match rows.get(sort.0 as usize) {
        Some(row) => Ok(all_have_cases(text, cases, row.as_slice())),
        None => {
            let row = constructors(alloc, text.symbols.as_slice(), sort)?;
            Ok(all_have_cases(text, cases, row.as_slice()))
        }
    }
}

/// The first fault of a match on an argument of this sort, before these lines.
pub(crate) fn match_fault(
    alloc: Global,
    text: &Whole,
    rows: &[Seq<SymId>],
    rest: &[RawLine],
    sort: Option<SortId>,
) -> Result<Option<TypeKind>, NoMemory>
    requires { AreRows text.now rows.now }
    ensures { IfOk result (λ fault. fault ≡ match_faults text.now (case_names rest.now) sort) }
{
    match sort {
        Some(sort) => {
            let cases = case_names(alloc, rest)?;
            let all = is_complete(alloc, text, rows, &cases, sort)?;
            Ok(fault_if(!all, TypeKind::CaseMissing))
        }
        None => Ok(Some(TypeKind::Arity)),
    }
}

/// Where a case is of a constructor of another sort than that of the match, or of a function.
fn wrong_case(sort: Option<SortId>, symbol: &Sym) -> Option<TypeKind>
    ensures { result ≡ wrong_case sort symbol.now }
{
    match sort {
        Some(wanted) => {
            let found = result_of(symbol);
            let calls = is_function(symbol);
            fault_if(
                calls || wanted.0 != found.0,
                TypeKind::SortMismatch { wanted, found },
            )
        }
        None => None,
    }
}

/// The sort of the argument at the match place.
fn matched(text: &Whole, seen: &Seen) -> Option<SortId>
    ensures { result ≡ matched text.now seen.now }
{
    match seen.place {
        Some(place) => sort_at(own_sorts(text, seen), place),
        None => None,
    }
}

/// Whether a case is of a function that is declared later.
fn is_later(seen: &Seen, number: u32, symbol: &Sym) -> bool
    ensures { result ≡ (is_function (Some symbol.now) && nat_lt (owner seen.now) number) }
{
    is_function(symbol) && owner(seen) < number
}

fn symbol_case_fault(
    alloc: Global,
    text: &Whole,
    seen: &Seen,
    con: &Text,
    body: &RawTerm,
    number: u32,
    symbol: &Sym,
) -> Result<Option<TypeKind>, NoMemory>
    ensures { IfOk result (λ fault. fault ≡ symbol_case_faults text.now seen.now con.now body.now number (Some symbol.now)) }
{
    let later = fault_if(is_later(seen, number, symbol), TypeKind::UnknownName);
    let wrong = wrong_case(matched(text, seen), symbol);
    let twice = fault_if(seen.cases.find(con).is_some(), TypeKind::CaseTwice);
    let inner = body_fault(alloc, text, seen, args_of(symbol), body)?;
    Ok(later.or(wrong.or(twice.or(inner))))
}

/// The first fault of a case.
pub(crate) fn case_fault(
    alloc: Global,
    text: &Whole,
    seen: &Seen,
    con: &Text,
    body: &RawTerm,
) -> Result<Option<TypeKind>, NoMemory>
    ensures { IfOk result (λ fault. fault ≡ case_faults text.now seen.now con.now body.now (number_of text.now.names con.now)) }
{
    let Some(number) = text.names.find(con) else {
        return Ok(Some(TypeKind::UnknownName));
    };
    match text.symbols.get(number as usize) {
        Some(symbol) => symbol_case_fault(alloc, text, seen, con, body, number, symbol),
        None => Ok(Some(TypeKind::UnknownName)),
    }
}
