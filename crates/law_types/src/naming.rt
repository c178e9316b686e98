ghost use Rattle.std.specs.Prelude.{◌≡◌, [], slice_index_or, IfOk};
ghost use Rattle.law_typing.specs.Naming.{sort_name, symbol_name, named_term};

use law_lines::{RawHead, RawTerm};
use law_sig::{NoMemory, Seq, Sig, SortId, SymId, Text, Tree};
use std::alloc::Global;

/// A term with each number replaced by the name of its sort or symbol, which is empty for a number that isn't declared.
pub fn raw_term(alloc: Global, sig: &Sig, tree: &Tree) -> Result<RawTerm, NoMemory>
    ensures { IfOk result (λ term. term ≡ named_term sig.now tree.now) }
{
    match tree {
        Tree::Var(sort, index) => {
            let name = name_of_sort(alloc, sig, *sort)?;
            Ok(RawTerm {
                head: RawHead::Var(name, *index),
                args: Seq::new(alloc),
            })
        }
        Tree::App(head, args) => {
            let name = name_of_symbol(alloc, sig, *head)?;
            let mut terms = Seq::new(alloc);
            for arg in args.as_slice() {
                terms.push(raw_term(alloc, sig, arg)?)?;
            }
            Ok(RawTerm {
                head: RawHead::Name(name),
                args: terms,
            })
        }
    }
}

/// The name of a sort, empty for one that isn't declared.
pub fn name_of_sort(alloc: Global, sig: &Sig, sort: SortId) -> Result<Text, NoMemory>
    ensures { IfOk result (λ name. name ≡ sort_name sig.now sort) }
{
    match sig.sort_name(sort) {
        Some(name) => name.copy(alloc),
        None => Ok(Text::new(alloc)),
    }
}

/// The name of a symbol, empty for one that isn't declared.
pub fn name_of_symbol(alloc: Global, sig: &Sig, sym: SymId) -> Result<Text, NoMemory>
    ensures { IfOk result (λ name. name ≡ symbol_name sig.now sym) }
{
    match sig.symbol_name(sym) {
        Some(name) => name.copy(alloc),
        None => Ok(Text::new(alloc)),
    }
}
