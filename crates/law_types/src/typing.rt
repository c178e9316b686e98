ghost use Rattle.std.specs.Prelude.{◌≡◌, Some, length, slice_get, IfOk};
ghost use Rattle.law_typing.specs.Names.{same_name, is_named, number_of};
ghost use Rattle.law_typing.specs.TypedTerm.{IsTyped, tree_over, tree_of};

use law_lines::{RawHead, RawTerm};
use law_sig::{NoMemory, Seq, Sig, SortId, SymId, Text, Tree};
use std::alloc::Global;

/// The term that a written term states; `None` exactly where it isn't well-sorted, over the declared symbols and variables
/// of declared sorts with any index.
#[tactic(auto, using(law_typing::proofs::TreeOfFacts::typed_facts))]
pub fn typed(alloc: Global, sig: &Sig, term: &RawTerm) -> Result<Option<Tree>, NoMemory>
    ensures { IfOk result (λ found. IsTyped sig.now term.now found) }
{
    let settings = sig.settings();
    match tree_of(alloc, sig, term)? {
        Some(tree) => {
            if sig.sort_of(&tree).is_some() {
                Ok(Some(tree))
            } else {
                Ok(None)
            }
        }
        None => Ok(None),
    }
}

fn is_same(left: &Text, right: &Text) -> bool
    ensures { result ≡ same_name left.now right.now }
{
    left.as_slice() == right.as_slice()
}

/// Whether a name is that of a sort.
fn names_sort(sig: &Sig, name: &Text, sort: SortId) -> bool
    ensures { result ≡ is_named name.now (slice_get sig.now.sort_names sort.0) }
{
    match sig.sort_name(sort) {
        Some(other) => is_same(name, other),
        None => false,
    }
}

fn names_symbol(sig: &Sig, name: &Text, sym: SymId) -> bool
    ensures { result ≡ is_named name.now (slice_get sig.now.symbol_names sym.0) }
{
    match sig.symbol_name(sym) {
        Some(other) => is_same(name, other),
        None => false,
    }
}

/// The number of a sort by its name.
#[tactic(auto, using(law_typing::proofs::NumberFacts::find_facts))]
fn find_sort(sig: &Sig, name: &Text) -> Option<u32>
    ensures { result ≡ number_of sig.now.sort_names name.now }
{
    for at in 0..sig.sorts() {
        if names_sort(sig, name, SortId(at)) {
            return Some(at);
        }
    }
    None
}

/// How many symbols have a name: all.
fn name_count(sig: &Sig) -> u32
    ensures { result ≡ length sig.now.symbol_names }
{
    let _ = sig.settings();
    sig.symbols()
}

/// The number of a symbol by its name.
#[tactic(auto, using(law_typing::proofs::NumberFacts::find_facts))]
fn find_symbol(sig: &Sig, name: &Text) -> Option<u32>
    ensures { result ≡ number_of sig.now.symbol_names name.now }
{
    for at in 0..name_count(sig) {
        if names_symbol(sig, name, SymId(at)) {
            return Some(at);
        }
    }
    None
}

/// A symbol or a variable over arguments.
fn tree_over(sig: &Sig, head: &RawHead, args: Seq<Tree>) -> Option<Tree>
    ensures { result ≡ tree_over sig.now head.now (Some args) }
{
    match head {
        RawHead::Name(name) => match find_symbol(sig, name) {
            Some(number) => Some(Tree::App(SymId(number), args)),
            None => None,
        },
        RawHead::Var(sort, index) => match find_sort(sig, sort) {
            Some(number) => {
                if args.len() > 0 {
                    return None;
                }
                Some(Tree::Var(SortId(number), *index))
            }
            None => None,
        },
        RawHead::Param(_) => None,
        RawHead::Field(_) => None,
    }
}

/// The term with each name replaced by its number.
#[tactic(auto, using(law_typing::proofs::TreeOfFacts::tree_facts))]
fn tree_of(alloc: Global, sig: &Sig, term: &RawTerm) -> Result<Option<Tree>, NoMemory>
    ensures { IfOk result (λ found. found ≡ tree_of sig.now term.now) }
{
    let mut args = Seq::new(alloc);
    for arg in term.args.as_slice() {
        match tree_of(alloc, sig, arg)? {
            Some(tree) => args.push(tree)?,
            None => return Ok(None),
        }
    }
    Ok(tree_over(sig, &term.head, args))
}
