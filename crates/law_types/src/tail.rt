ghost use Rattle.std.specs.Prelude.{◌≡◌, ◌+◌, length, [], None, Some, slice_get, IfOk};
ghost use Rattle.law_typing.specs.Names.{number_of};
ghost use Rattle.law_types.specs.Heights.{AreLow};
ghost use Rattle.law_typing.specs.LineFaults.{is_too_low, some_too_low, seed_faults, explored_fault, explored_faults, side_scope, value_scope, name_sort, root_sort, sides_mismatch, background_faults, values_count, pool_faults, is_width, each_value_fault, values_faults};

use crate::heights::{has_low, has_value, lows_at};
use crate::lines::out_of;
use crate::terms::{fault_if, mismatch, result_of, term_fault};
use law_lines::{RawHead, RawLine, RawTerm};
use law_sig::{NoMemory, Seq, SortId, Text};
use law_typing::{Names, Scope, Seen, Standing, TypeKind, Whole};
use std::alloc::Global;

/// Whether a height is below the least height of a sort that has a value.
fn is_too_low(text: &Whole, has: &[bool], height: u64, lows: &[bool], sort: SortId) -> bool
    requires has { AreLow text.now (length text.now.sorts + 1) has.now }
    requires lows { AreLow text.now height lows.now }
    ensures { result ≡ is_too_low text.now height sort }
{
    let valued = has_value(text, has, sort);
    let low = has_low(text, height, lows, sort);
    valued && !low
}

/// Whether that is so of some sort.
#[tactic(auto, using(crate::proofs::TailFacts::high_enough))]
fn some_too_low(text: &Whole, has: &[bool], height: u64, lows: &[bool]) -> bool
    requires has { AreLow text.now (length text.now.sorts + 1) has.now }
    requires lows { AreLow text.now height lows.now }
    ensures { result ≡ some_too_low text.now height 0 (length text.now.sorts) }
{
    for at in 0..text.sorts.len() {
        if is_too_low(text, has, height, lows, SortId(at)) {
            return true;
        }
    }
    false
}

/// The first fault of the line of pools from a seed.
pub(crate) fn seed_fault(
    alloc: Global,
    text: &Whole,
    has: &[bool],
    height: u64,
    count: u64,
) -> Result<Option<TypeKind>, NoMemory>
    requires { AreLow text.now (length text.now.sorts + 1) has.now }
    ensures { IfOk result (λ fault. fault ≡ seed_faults text.now height count) }
{
    let high = out_of(1, 16, height);
    if high.is_some() || height > 16 {
        return Ok(high);
    }
    let many = out_of(1, 16, count);
    let lows = lows_at(alloc, text, height)?;
    let low = some_too_low(text, has, height, lows.as_slice());
    Ok(high.or(many.or(fault_if(low, TypeKind::SettingRange))))
}

/// The first fault of a name, behind those that were explored before.
fn explored_fault(text: &Whole, before: &Names, name: &Text) -> Option<TypeKind>
    ensures { result ≡ explored_fault text.now before.now name.now }
{
    let unknown = fault_if(text.names.find(name).is_none(), TypeKind::UnknownName);
    let twice = fault_if(before.find(name).is_some(), TypeKind::NameTwice);
    unknown.or(twice)
}

/// The first fault of the explored names.
pub(crate) fn explored_faults(
    alloc: Global,
    text: &Whole,
    names: &[Text],
) -> Result<Option<TypeKind>, NoMemory>
    ensures { IfOk result (λ fault. fault ≡ explored_faults text.now [] names.now) }
{
    let mut before = Names::new(alloc);
    for name in names {
        let fault = explored_fault(text, &before, name);
        if fault.is_some() {
            return Ok(fault);
        }
        before = before.with(alloc, name)?;
    }
    Ok(None)
}

/// What a side or a value may name.
fn side_scope(alloc: Global) -> Scope
    ensures { result ≡ side_scope }
{
    Scope {
        standing: Standing::Side,
        owner: 0,
        place: None,
        fields: Seq::new(alloc),
        params: Seq::new(alloc),
    }
}

fn value_scope(alloc: Global) -> Scope
    ensures { result ≡ value_scope }
{
    Scope {
        standing: Standing::Value,
        owner: 0,
        place: None,
        fields: Seq::new(alloc),
        params: Seq::new(alloc),
    }
}

/// The sort of what a symbol's name gives.
fn name_sort(text: &Whole, name: &Text) -> Option<SortId>
    ensures { result ≡ name_sort text.now (number_of text.now.names name.now) }
{
    let Some(number) = text.names.find(name) else {
        return None;
    };
    match text.symbols.get(number as usize) {
        Some(symbol) => Some(result_of(symbol)),
        None => None,
    }
}

/// The sort of a term, by its head.
fn root_sort(text: &Whole, term: &RawTerm) -> Option<SortId>
    ensures { result ≡ root_sort text.now term.now }
{
    match &term.head {
        RawHead::Name(name) => name_sort(text, name),
        RawHead::Var(sort, _) => match text.sorts.find(sort) {
            Some(number) => Some(SortId(number)),
            None => None,
        },
        RawHead::Param(_) => None,
        RawHead::Field(_) => None,
    }
}

fn sides_mismatch(left: Option<SortId>, right: Option<SortId>) -> Option<TypeKind>
    ensures { result ≡ sides_mismatch left right }
{
    match right {
        Some(right) => mismatch(left, right),
        None => None,
    }
}

/// The first fault of a background equation.
pub(crate) fn background_fault(
    alloc: Global,
    text: &Whole,
    left: &RawTerm,
    right: &RawTerm,
) -> Option<TypeKind>
    ensures { result ≡ background_faults text.now left.now right.now }
{
    let scope = side_scope(alloc);
    let first = term_fault(text, &scope, None, left);
    let second = term_fault(text, &scope, None, right);
    let sorts = sides_mismatch(root_sort(text, left), root_sort(text, right));
    first.or(second.or(sorts))
}

/// How many lines of values come first.
fn values_count(lines: &[RawLine]) -> usize
    ensures { result ≡ values_count lines.now }
{
    let mut count = 0;
    for line in lines {
        let RawLine::Values { sort: _, values: _ } = line else {
            return count;
        };
        count += 1;
    }
    count
}

/// The first fault of the line of a pool, before these lines.
pub(crate) fn pool_fault(text: &Whole, seen: &Seen, rest: &[RawLine]) -> Option<TypeKind>
    ensures { result ≡ pool_faults text.now seen.now rest.now }
{
    let range = fault_if(16 <= seen.pools, TypeKind::SettingRange);
    let count = values_count(rest);
    let arity = fault_if(count != text.sorts.len() as usize, TypeKind::Arity);
    range.or(arity)
}

fn each_value_fault(
    text: &Whole,
    scope: &Scope,
    sort: SortId,
    values: &[RawTerm],
) -> Option<TypeKind>
    requires { scope.now ≡ value_scope }
    ensures { result ≡ each_value_fault text.now sort values.now }
{
    for value in values {
        let fault = term_fault(text, scope, Some(sort), value);
        if fault.is_some() {
            return fault;
        }
    }
    None
}

/// Whether there are as many values as the width of their sort.
fn is_width(text: &Whole, count: usize, sort: u32) -> bool
    ensures { result ≡ is_width count (slice_get text.now.widths sort) }
{
    match text.widths.get(sort as usize) {
        Some(width) => count as u64 == *width,
        None => false,
    }
}

/// The first fault of a line of values.
pub(crate) fn values_fault(
    alloc: Global,
    text: &Whole,
    seen: &Seen,
    sort: &Text,
    values: &[RawTerm],
) -> Option<TypeKind>
    ensures { result ≡ values_faults text.now seen.now values.now (number_of text.now.sorts sort.now) }
{
    let Some(number) = text.sorts.find(sort) else {
        return Some(TypeKind::UnknownSort);
    };
    let turn = mismatch(Some(SortId(seen.values)), SortId(number));
    let arity = fault_if(!is_width(text, values.len(), number), TypeKind::Arity);
    let scope = value_scope(alloc);
    let inner = each_value_fault(text, &scope, SortId(number), values);
    turn.or(arity.or(inner))
}
