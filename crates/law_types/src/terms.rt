ghost use Rattle.std.specs.Prelude.{◌≡◌, ◌==◌, ◌&&◌, not, nat_lt, length, map, Some, None, slice_get};
ghost use Rattle.law_sig.specs.WellFormed.{is_function};
ghost use Rattle.law_sig.specs.Signature.{args_of, result_of};
ghost use Rattle.law_typing.specs.Names.{number_of};
ghost use Rattle.law_typing.specs.TermFaults.{fault_if, mismatch, is_value, is_body, falls_at, symbol_faults, name_faults, variable_faults, atom_faults, is_in_range, root_faults, head_symbol, wanted_of, is_field_term, term_fault};

use law_lines::{RawHead, RawTerm};
use law_sig::{SortId, Sym, Text};
use law_typing::{Scope, Standing, TypeKind, Whole};

/// The fault where the test holds.
pub(crate) fn fault_if(holds: bool, fault: TypeKind) -> Option<TypeKind>
    ensures { result ≡ fault_if holds fault }
{
    if holds { Some(fault) } else { None }
}

/// Where another sort is wanted than the one that is found.
pub(crate) fn mismatch(wanted: Option<SortId>, found: SortId) -> Option<TypeKind>
    ensures { result ≡ mismatch wanted found }
{
    match wanted {
        Some(wanted) => fault_if(
            wanted.0 != found.0,
            TypeKind::SortMismatch { wanted, found },
        ),
        None => None,
    }
}

/// Whether a symbol is a function.
pub(crate) fn is_function(symbol: &Sym) -> bool
    ensures { result ≡ is_function (Some symbol.now) }
{
    match symbol {
        Sym::Con(_) => false,
        Sym::Fun(_) => true,
    }
}

/// The sorts of a symbol's arguments.
pub(crate) fn args_of(symbol: &Sym) -> &[SortId]
    ensures { result.now ≡ args_of symbol.now }
{
    match symbol {
        Sym::Con(con) => con.args.as_slice(),
        Sym::Fun(fun) => fun.args.as_slice(),
    }
}

/// The sort of what a symbol gives.
pub(crate) fn result_of(symbol: &Sym) -> SortId
    ensures { result ≡ result_of symbol.now }
{
    match symbol {
        Sym::Con(con) => con.sort,
        Sym::Fun(fun) => fun.result,
    }
}

/// Whether a term is directly a field.
fn is_field(term: &RawTerm) -> bool
    ensures { result ≡ is_field_term term.now }
{
    match &term.head {
        RawHead::Field(_) => true,
        _ => false,
    }
}

/// Whether the argument at the match place is directly a field.
fn falls(place: Option<u64>, args: &[RawTerm]) -> bool
    ensures { result ≡ falls_at place (map is_field_term args.now) }
{
    match place {
        Some(at) => match args.get(at as usize) {
            Some(arg) => is_field(arg),
            None => false,
        },
        None => false,
    }
}

/// Whether there are as many arguments as the symbol has.
fn has_arity(args: &[RawTerm], symbol: &Sym) -> bool
    ensures { result ≡ (length (map is_field_term args.now) == length (args_of symbol.now)) }
{
    args.len() == args_of(symbol).len()
}

/// Whether a symbol is a function, which no value has.
fn is_unknown(scope: &Scope, symbol: &Sym) -> bool
    ensures { result ≡ (is_value scope.now.standing && is_function (Some symbol.now)) }
{
    scope.standing == Standing::Value && is_function(symbol)
}

/// Whether a body calls a function that is declared later.
fn is_later(scope: &Scope, number: u32, symbol: &Sym) -> bool
    ensures { result ≡ (is_body scope.now.standing && is_function (Some symbol.now) && nat_lt scope.now.owner number) }
{
    scope.standing == Standing::Body && is_function(symbol) && scope.owner < number
}

/// Whether a function calls itself on something else than directly a field.
fn is_not_smaller(scope: &Scope, number: u32, args: &[RawTerm]) -> bool
    ensures { result ≡ (is_body scope.now.standing && (number == scope.now.owner) && not (falls_at scope.now.place (map is_field_term args.now))) }
{
    scope.standing == Standing::Body && number == scope.owner && !falls(scope.place, args)
}

/// The first fault of a node, but for its arguments' own, whose head is the symbol of this number.
fn symbol_fault(
    scope: &Scope,
    number: u32,
    args: &[RawTerm],
    wanted: Option<SortId>,
    symbol: &Sym,
) -> Option<TypeKind>
    ensures { result ≡ symbol_faults scope.now number (map is_field_term args.now) wanted (Some symbol.now) }
{
    let unknown = fault_if(is_unknown(scope, symbol), TypeKind::UnknownName);
    let later = fault_if(is_later(scope, number, symbol), TypeKind::LaterCall);
    let arity = fault_if(!has_arity(args, symbol), TypeKind::Arity);
    let sort = mismatch(wanted, result_of(symbol));
    let not_smaller = fault_if(is_not_smaller(scope, number, args), TypeKind::NotSmaller);
    unknown.or(later.or(arity.or(sort.or(not_smaller))))
}

fn name_fault(
    text: &Whole,
    scope: &Scope,
    args: &[RawTerm],
    wanted: Option<SortId>,
    name: &Text,
) -> Option<TypeKind>
    ensures { result ≡ name_faults text.now scope.now (map is_field_term args.now) wanted (number_of text.now.names name.now) }
{
    let Some(number) = text.names.find(name) else {
        return Some(TypeKind::UnknownName);
    };
    match text.symbols.get(number as usize) {
        Some(symbol) => symbol_fault(scope, number, args, wanted, symbol),
        None => Some(TypeKind::UnknownName),
    }
}

/// Whether an index is below a sort's number of variables.
fn is_in_range(text: &Whole, index: u32, sort: u32) -> bool
    ensures { result ≡ is_in_range index (slice_get text.now.vars sort) }
{
    match text.vars.get(sort as usize) {
        Some(vars) => (index as u64) < *vars,
        None => false,
    }
}

fn variable_fault(
    text: &Whole,
    scope: &Scope,
    index: u32,
    count: usize,
    wanted: Option<SortId>,
    sort: &Text,
) -> Option<TypeKind>
    ensures { result ≡ variable_faults text.now scope.now index count wanted (number_of text.now.sorts sort.now) }
{
    let unknown = fault_if(scope.standing != Standing::Side, TypeKind::UnknownName);
    let arity = fault_if(count != 0, TypeKind::Arity);
    match text.sorts.find(sort) {
        Some(number) => {
            let range = fault_if(!is_in_range(text, index, number), TypeKind::SettingRange);
            let sort = mismatch(wanted, SortId(number));
            unknown.or(arity.or(range.or(sort)))
        }
        None => unknown.or(arity.or(Some(TypeKind::UnknownSort))),
    }
}

/// The first fault of a parameter or a field that has this sort.
fn atom_fault(count: usize, wanted: Option<SortId>, sort: Option<SortId>) -> Option<TypeKind>
    ensures { result ≡ atom_faults count wanted sort }
{
    match sort {
        Some(sort) => fault_if(count != 0, TypeKind::Arity).or(mismatch(wanted, sort)),
        None => Some(TypeKind::Arity),
    }
}

/// The sort at a place.
pub(crate) fn sort_at(sorts: &[SortId], place: u64) -> Option<SortId>
    ensures { result ≡ slice_get sorts.now place }
{
    sorts.get(place as usize).copied()
}

/// The first fault of a node, but for its arguments' own.
fn node_fault(
    text: &Whole,
    scope: &Scope,
    wanted: Option<SortId>,
    term: &RawTerm,
) -> Option<TypeKind>
    ensures { result ≡ root_faults text.now scope.now wanted term.now }
{
    let args = term.args.as_slice();
    match &term.head {
        RawHead::Name(name) => name_fault(text, scope, args, wanted, name),
        RawHead::Var(sort, index) => {
            variable_fault(text, scope, *index, args.len(), wanted, sort)
        }
        RawHead::Param(number) => {
            atom_fault(
                args.len(),
                wanted,
                sort_at(scope.params.as_slice(), *number as u64),
            )
        }
        RawHead::Field(number) => {
            atom_fault(
                args.len(),
                wanted,
                sort_at(scope.fields.as_slice(), *number as u64),
            )
        }
    }
}

/// The sorts that a head wants of its arguments.
fn wanted_sorts<'t>(text: &'t Whole, head: &RawHead) -> &'t [SortId]
    ensures { result.now ≡ wanted_of (head_symbol text.now head.now) }
{
    match head {
        RawHead::Name(name) => match text.names.find(name) {
            Some(number) => match text.symbols.get(number as usize) {
                Some(symbol) => args_of(symbol),
                None => &[],
            },
            None => &[],
        },
        _ => &[],
    }
}

/// The first fault of a term of which a sort, or none, is wanted: that of the root, and then those of the arguments, from
/// left to right.
#[tactic(auto, using(law_typing::proofs::TermFacts::term_facts))]
pub(crate) fn term_fault(
    text: &Whole,
    scope: &Scope,
    wanted: Option<SortId>,
    term: &RawTerm,
) -> Option<TypeKind>
    ensures { result ≡ term_fault text.now scope.now wanted term.now }
{
    let root = node_fault(text, scope, wanted, term);
    if root.is_some() {
        return root;
    }
    let sorts = wanted_sorts(text, &term.head);
    for (at, arg) in term.args.as_slice().iter().enumerate() {
        let Some(sort) = sort_at(sorts, at as u64) else {
            return None;
        };
        let fault = term_fault(text, scope, Some(sort), arg);
        if fault.is_some() {
            return fault;
        }
    }
    None
}
