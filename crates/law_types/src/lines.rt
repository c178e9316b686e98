ghost use Rattle.std.specs.Prelude.{◌≡◌, ◌+◌, length, IfOk};
ghost use Rattle.law_typing.specs.Names.{stands_before};
ghost use Rattle.law_types.specs.Heights.{AreLow};
ghost use Rattle.law_typing.specs.LineFaults.{out_of, sort_faults, unknown_sort, unknown_sorts, name_faults, con_faults, fun_faults, owner, own_symbol, sort_given, body_scope, body_fault};
ghost use Rattle.law_typing.specs.TermFaults.{wanted_of};

use crate::heights::has_value;
use crate::terms::{args_of, fault_if, result_of, term_fault};
use law_lines::RawTerm;
use law_sig::{NoMemory, Seq, SortId, Text};
use law_typing::{Names, Scope, Seen, Standing, TypeKind, Whole};
use std::alloc::Global;

/// Where a number is outside of a range, both ends included.
pub(crate) fn out_of(low: u64, high: u64, n: u64) -> Option<TypeKind>
    ensures { result ≡ out_of low high n }
{
    fault_if(!(low <= n && n <= high), TypeKind::SettingRange)
}

/// Whether a name stands among these before a place.
fn stands_before(names: &Names, place: u32, name: &Text) -> bool
    ensures { result ≡ stands_before names.now place name.now }
{
    match names.find(name) {
        Some(number) => number < place,
        None => false,
    }
}

/// The first fault of the line of a sort, but for its numbers.
pub(crate) fn sort_fault(text: &Whole, has: &[bool], seen: &Seen, name: &Text) -> Option<TypeKind>
    requires { AreLow text.now (length text.now.sorts + 1) has.now }
    ensures { result ≡ sort_faults text.now seen.now name.now }
{
    let range = fault_if(64 <= seen.sorts, TypeKind::SettingRange);
    let twice = fault_if(
        stands_before(&text.sorts, seen.sorts, name),
        TypeKind::NameTwice,
    );
    let valued = has_value(text, has, SortId(seen.sorts));
    let empty = fault_if(!valued, TypeKind::EmptySort);
    range.or(twice.or(empty))
}

fn unknown_sort(text: &Whole, name: &Text) -> Option<TypeKind>
    ensures { result ≡ unknown_sort text.now name.now }
{
    fault_if(text.sorts.find(name).is_none(), TypeKind::UnknownSort)
}

fn unknown_sorts(text: &Whole, names: &[Text]) -> Option<TypeKind>
    ensures { result ≡ unknown_sorts text.now names.now }
{
    for name in names {
        let fault = unknown_sort(text, name);
        if fault.is_some() {
            return fault;
        }
    }
    None
}

/// The first fault of the name of a symbol.
fn name_fault(text: &Whole, seen: &Seen, name: &Text) -> Option<TypeKind>
    ensures { result ≡ name_faults text.now seen.now name.now }
{
    let range = fault_if(u32::MAX <= seen.symbols, TypeKind::SettingRange);
    let twice = fault_if(
        stands_before(&text.names, seen.symbols, name),
        TypeKind::NameTwice,
    );
    range.or(twice)
}

/// The first fault of the line of a constructor, but for its weight.
pub(crate) fn con_fault(text: &Whole, seen: &Seen, name: &Text, args: &[Text]) -> Option<TypeKind>
    ensures { result ≡ con_faults text.now seen.now name.now args.now }
{
    name_fault(text, seen, name).or(unknown_sorts(text, args))
}

/// The first fault of the line of a function, but for its weight.
pub(crate) fn fun_fault(
    text: &Whole,
    seen: &Seen,
    name: &Text,
    args: &[Text],
    gives: &Text,
) -> Option<TypeKind>
    ensures { result ≡ fun_faults text.now seen.now name.now args.now gives.now }
{
    let sorts = unknown_sorts(text, args).or(unknown_sort(text, gives));
    name_fault(text, seen, name).or(sorts)
}

/// The number of the function at work, the symbol that was declared last.
pub(crate) fn owner(seen: &Seen) -> u32
    ensures { result ≡ owner seen.now }
{
    seen.symbols.saturating_sub(1)
}

/// The sorts of the arguments of the function at work.
pub(crate) fn own_sorts<'t>(text: &'t Whole, seen: &Seen) -> &'t [SortId]
    ensures { result.now ≡ wanted_of (own_symbol text.now seen.now) }
{
    match text.symbols.get(owner(seen) as usize) {
        Some(symbol) => args_of(symbol),
        None => &[],
    }
}

/// The sort of what the function at work gives.
fn own_result(text: &Whole, seen: &Seen) -> Option<SortId>
    ensures { result ≡ sort_given (own_symbol text.now seen.now) }
{
    match text.symbols.get(owner(seen) as usize) {
        Some(symbol) => Some(result_of(symbol)),
        None => None,
    }
}

fn copy_sorts(alloc: Global, sorts: &[SortId]) -> Result<Seq<SortId>, NoMemory>
    ensures { IfOk result (λ copies. copies ≡ sorts.now) }
{
    let mut copies = Seq::new(alloc);
    for sort in sorts {
        copies.push(*sort)?;
    }
    Ok(copies)
}

/// What a body may name, with these fields.
fn body_scope(
    alloc: Global,
    text: &Whole,
    seen: &Seen,
    fields: &[SortId],
) -> Result<Scope, NoMemory>
    ensures { IfOk result (λ scope. scope ≡ body_scope text.now seen.now fields.now) }
{
    Ok(Scope {
        standing: Standing::Body,
        owner: owner(seen),
        place: seen.place,
        fields: copy_sorts(alloc, fields)?,
        params: copy_sorts(alloc, own_sorts(text, seen))?,
    })
}

/// The first fault of a body, with these fields.
pub(crate) fn body_fault(
    alloc: Global,
    text: &Whole,
    seen: &Seen,
    fields: &[SortId],
    body: &RawTerm,
) -> Result<Option<TypeKind>, NoMemory>
    ensures { IfOk result (λ fault. fault ≡ body_fault text.now seen.now fields.now body.now) }
{
    let scope = body_scope(alloc, text, seen, fields)?;
    Ok(term_fault(text, &scope, own_result(text, seen), body))
}
