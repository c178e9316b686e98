ghost use Rattle.std.specs.Prelude.{◌≡◌, ◌<◌, ◌^◌, ◌-◌, ◌++◌, min, length, slice_get, slice_index_or, option_map, IfOk, IsTrue};
ghost use Rattle.std.specs.Option.{option_copied};
ghost use Rattle.law_sig.specs.WellFormed.{IsWellFormed};
ghost use Rattle.law_sig.specs.Table.{HasRows};
ghost use Rattle.law_sig.specs.Signature.{makes_sort, constructors, constructors_from, is_declared_sort, symbol_at, sort_of, args_of, result_of, has_sort};
ghost use Rattle.law_sig.specs.Tests.{weight};

use super::parts::{Settings, SigParts, Sym};
use super::seq::{NoMemory, Seq};
use super::text::Text;
use super::tree::{SortId, SymId, Tree};
use std::alloc::Global;
use std::marker::Model;

/// A well-formed signature. Contracts see its parts.
#[derive(Debug, Drop)]
pub struct Sig {
    parts: SigParts,
    by_sort: Seq<Seq<SymId>>,
}

impl Model for Sig {
    ghost use Rattle.law_sig.specs.declared.parts.SigParts.{SigParts};
    ghost use Rattle.std.specs.Coded.{codes};
    ghost use Rattle.law_sig.specs.contracts.tree.Tree as tree;
    ghost use Rattle.law_sig.specs.contracts.tree.Body as body;

    ghost Value = { SigParts };

    ghost coded = { Prim.hlevel (codes, tree.the_row.coded, body.the_row.coded) };

    ghost use Rattle.law_sig.specs.Table.{IsIndexed};

    ghost view = { λ sig. sig.parts };

    ghost invariant = { λ sig. IsIndexed sig.parts sig.by_sort };
}

/// The constructors of a sort among these symbols, in order of number.
fn constructors_in(alloc: Global, symbols: &[Sym], sort: SortId) -> Result<Seq<SymId>, NoMemory>
    requires { length symbols.now < 2 ^ 32 }
    ensures { IfOk result (λ found. found ≡ constructors_from 0 symbols.now sort) }
{
    let mut found = Seq::new(alloc);
    for (at, symbol) in symbols.iter().enumerate() {
        if makes(symbol, sort) {
            found.push(SymId(at as u32))?;
        }
    }
    Ok(found)
}

/// Whether a symbol is a constructor of this sort.
fn makes(symbol: &Sym, sort: SortId) -> bool
    ensures { result ≡ makes_sort sort symbol.now }
{
    match symbol {
        Sym::Con(con) => con.sort.0 == sort.0,
        Sym::Fun(_) => false,
    }
}

/// The sorts of a symbol's arguments.
fn args_of(symbol: &Sym) -> &[SortId]
    ensures { result.now ≡ args_of symbol.now }
{
    match symbol {
        Sym::Con(con) => con.args.as_slice(),
        Sym::Fun(fun) => fun.args.as_slice(),
    }
}

/// The sort of what a symbol gives.
fn result_of(symbol: &Sym) -> SortId
    ensures { result ≡ result_of symbol.now }
{
    match symbol {
        Sym::Con(con) => con.sort,
        Sym::Fun(fun) => fun.result,
    }
}

/// Whether there is a sort, and it is the one that is wanted.
fn is_sort(sort: Option<SortId>, wanted: SortId) -> bool
    ensures { result ≡ has_sort sort wanted }
{
    match sort {
        Some(found) => found.0 == wanted.0,
        None => false,
    }
}

/// The weight that is stated for a symbol, and 1 where none is.
fn weight_in(weights: &[u32], sym: SymId) -> u32
    ensures { result ≡ slice_index_or weights.now sym.0 1 }
{
    match weights.get(sym.0 as usize) {
        Some(found) => *found,
        None => 1,
    }
}

impl Sig {
    /// A signature of these parts, which have to be well-formed.
    pub fn build(alloc: Global, parts: SigParts) -> Result<Sig, NoMemory>
        requires { IsWellFormed parts }
        ensures { IfOk result (λ sig. sig ≡ parts) }
    {
        let by_sort = tables(alloc, &parts)?;
        Ok(Sig { parts, by_sort })
    }

    /// How many sorts are declared, at most 64.
    pub fn sorts(&self) -> u32
        ensures { result ≡ length self.now.sort_names }
    {
        self.parts.sort_names.len() as u32
    }

    /// How many symbols are declared, constructors and functions together.
    pub fn symbols(&self) -> u32
        ensures { result ≡ length self.now.symbols }
    {
        self.parts.symbols.len() as u32
    }

    /// What an exploration of this signature is asked to do.
    pub fn settings(&self) -> &Settings
        ensures settings { result.now ≡ self.now.settings }
        ensures well_formed { IsWellFormed self.now }
    {
        &self.parts.settings
    }

    /// The name of a sort; `None` exactly where it isn't declared.
    pub fn sort_name(&self, sort: SortId) -> Option<&Text>
        ensures { option_copied result ≡ slice_get self.now.sort_names sort.0 }
    {
        self.parts.sort_names.get(sort.0 as usize)
    }

    /// The name of a symbol; `None` exactly where it isn't declared.
    pub fn symbol_name(&self, sym: SymId) -> Option<&Text>
        ensures { option_copied result ≡ slice_get self.now.symbol_names sym.0 }
    {
        self.parts.symbol_names.get(sym.0 as usize)
    }

    /// The declaration of a symbol; `None` exactly where it isn't declared.
    pub fn symbol(&self, sym: SymId) -> Option<&Sym>
        ensures { option_copied result ≡ symbol_at self.now sym }
    {
        self.parts.symbols.get(sym.0 as usize)
    }

    /// The constructors of a declared sort, in order of number.
    pub fn constructors(&self, sort: SortId) -> &[SymId]
        requires { IsTrue (is_declared_sort self.now sort) }
        ensures { result.now ≡ constructors self.now sort }
    {
        match self.by_sort.get(sort.0 as usize) {
            Some(found) => found.as_slice(),
            None => unreachable!(),
        }
    }

    /// The sorts of the arguments of a declared symbol.
    pub fn args_of(&self, sym: SymId) -> &[SortId]
        requires { sym.0 < length self.now.symbols }
        ensures { option_map args_of (symbol_at self.now sym) ≡ Some result.now }
    {
        match self.parts.symbols.get(sym.0 as usize) {
            Some(symbol) => args_of(symbol),
            None => unreachable!(),
        }
    }

    /// The sort of a term over the declared symbols and variables of declared sorts with any index; `None` exactly where
    /// the term isn't well-sorted.
    pub fn sort_of(&self, tree: &Tree) -> Option<SortId>
        ensures { result ≡ sort_of self.now tree.now }
    {
        match tree {
            Tree::Var(sort, _) => {
                if (sort.0 as usize) < self.parts.sort_names.len() {
                    Some(*sort)
                } else {
                    None
                }
            }
            Tree::App(head, args) => {
                let Some(symbol) = self.parts.symbols.get(head.0 as usize) else {
                    return None;
                };
                let wanted = args_of(symbol);
                if args.len() != wanted.len() {
                    return None;
                }
                for (at, arg) in args.as_slice().iter().enumerate() {
                    if !is_sort(self.sort_of(arg), wanted[at]) {
                        return None;
                    }
                }
                Some(result_of(symbol))
            }
        }
    }

    /// The weight of a term, or 2^64 - 1 where it is that or more: a variable weighs 1, a symbol its stated weight.
    pub fn weight(&self, tree: &Tree) -> u64
        ensures { result ≡ min (weight self.now tree.now) (2 ^ 64 - 1) }
    {
        match tree {
            Tree::Var(_, _) => 1,
            Tree::App(head, args) => {
                let mut sum = weight_in(self.parts.settings.weights.as_slice(), *head) as u64;
                for arg in args.as_slice() {
                    sum = sum.saturating_add(self.weight(arg));
                }
                sum
            }
        }
    }

    /// The sort of what a declared symbol gives.
    pub fn result_of(&self, sym: SymId) -> SortId
        requires { sym.0 < length self.now.symbols }
        ensures { option_map result_of (symbol_at self.now sym) ≡ Some result }
    {
        match self.parts.symbols.get(sym.0 as usize) {
            Some(symbol) => result_of(symbol),
            None => unreachable!(),
        }
    }
}

/// For each sort its constructors.
fn tables(alloc: Global, parts: &SigParts) -> Result<Seq<Seq<SymId>>, NoMemory>
    requires sorts { length parts.now.sort_names < 2 ^ 32 }
    requires symbols { length parts.now.symbols < 2 ^ 32 }
    ensures { IfOk result (λ table. HasRows parts.now (length parts.now.sort_names) table) }
{
    let mut table = Seq::new(alloc);
    for at in 0..parts.sort_names.len() as u32 {
        let found = constructors_in(alloc, parts.symbols.as_slice(), SortId(at))?;
        table.push(found)?;
    }
    Ok(table)
}
