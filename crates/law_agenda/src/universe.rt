ghost use Rattle.std.specs.Prelude.{◌≡◌, ◌↔◌, ◌<◌, ◌≤◌, [], length, IfOk, IsTrue, Some, nat_lt, vec_len};
ghost use Rattle.std.specs.Option.{option_map};
ghost use Rattle.law_sig.specs.Lists.{Each};
ghost use Rattle.law_sig.specs.declared.tree.SymId.{SymId};
ghost use Rattle.law_sig.specs.Signature.{args_of, symbol_at, vars_at, weight_at};
ghost use Rattle.law_sig.specs.Tests.{is_explored, is_bounded};
ghost use Rattle.law_valid.specs.Judged.{HasSides};
ghost use Rattle.law_agenda.specs.Marks.{AreMarksOf, AreMarks, IsUniverseSort};

use law_sig::{Equation, NoMemory, Sig, SortId, SymId, Tree};
use std::alloc::Global;
use std::marker::Model;

/// A signature with a mark for each explored symbol, by number, so that none is looked for.
#[derive(Drop)]
pub struct Universe<'s> {
    sig: &'s Sig,
    marks: Vec<bool>,
}

impl<'s> Model for Universe<'s> {
    ghost use Rattle.law_sig.specs.declared.parts.SigParts.{SigParts};
    ghost use Rattle.std.specs.Coded.{codes};
    ghost use Rattle.law_sig.specs.contracts.tree.Tree as tree;
    ghost use Rattle.law_sig.specs.contracts.tree.Body as body;
    ghost use Rattle.law_agenda.specs.Marks.{AreMarks};

    ghost Value = { SigParts };

    ghost coded = { Prim.hlevel (codes, tree.the_row.coded, body.the_row.coded) };

    ghost view = { λ it. it.sig.now };

    ghost invariant = { λ it. AreMarks it.sig.now it.marks.items };
}

/// Marks, none of which is set yet, with those of these symbols set.
fn marked(mut marks: Vec<bool>, symbols: &[SymId]) -> Vec<bool>
    requires within { Each (λ (f : SymId). f.0 < vec_len marks) symbols.now }
    requires fresh { AreMarksOf [] marks.items }
    ensures { AreMarksOf symbols.now result.items }
{
    for sym in symbols {
        marks[sym.0 as usize] = true;
    }
    marks
}

/// For each symbol whether it is explored.
fn marks_of(alloc: Global, sig: &Sig) -> Result<Vec<bool>, NoMemory>
    ensures { IfOk result (λ marks. AreMarks sig.now marks.items) }
{
    let Ok(marks) = vec![in alloc; false; sig.symbols() as usize] else {
        return Err(NoMemory);
    };
    Ok(marked(marks, sig.settings().explored.as_slice()))
}

/// Whether a variable is below its sort's number.
fn is_variable(sig: &Sig, sort: SortId, index: u32) -> bool
    ensures { result ≡ nat_lt index (vars_at sig.now sort) }
{
    match sig.settings().vars.get(sort.0 as usize) {
        Some(count) => index < *count,
        None => false,
    }
}

impl<'s> Universe<'s> {
    /// The universe of a signature.
    pub fn new(alloc: Global, sig: &'s Sig) -> Result<Universe<'s>, NoMemory>
        ensures { IfOk result (λ universe. universe ≡ sig.now) }
    {
        let marks = marks_of(alloc, sig)?;
        Ok(Universe { sig, marks })
    }

    /// The signature.
    pub fn sig(&self) -> &'s Sig
        ensures { result.now ≡ self.now }
    {
        self.sig
    }

    /// How many symbols there are.
    pub(crate) fn symbols(&self) -> u32
        ensures { result ≡ length self.now.symbols }
    {
        self.sig.symbols()
    }

    /// The sorts of the arguments of a declared symbol.
    pub(crate) fn args_of(&self, sym: SymId) -> &'s [SortId]
        requires { sym.0 < length self.now.symbols }
        ensures { option_map args_of (symbol_at self.now sym) ≡ Some result.now }
    {
        self.sig.args_of(sym)
    }

    /// The greatest weight of its terms.
    pub(crate) fn size(&self) -> u32
        ensures { result ≡ self.now.settings.size }
    {
        self.sig.settings().size
    }

    /// What a symbol weighs, at least 1.
    pub(crate) fn weight_at(&self, sym: SymId) -> u32
        ensures weight { result ≡ weight_at self.now sym }
        ensures positive { 1 ≤ result }
    {
        match self.sig.settings().weights.get(sym.0 as usize) {
            Some(weight) => *weight,
            None => 1,
        }
    }

    /// Whether a symbol is explored.
    pub(crate) fn is_explored(&self, sym: SymId) -> bool
        ensures { result ≡ is_explored self.now sym }
    {
        match self.marks.get(sym.0 as usize) {
            Some(mark) => *mark,
            None => false,
        }
    }

    /// Whether a term has explored symbols alone, and variables below their sort's number.
    fn is_bounded(&self, term: &Tree) -> bool
        ensures { result ≡ is_bounded self.now term.now }
    {
        match term {
            Tree::Var(sort, index) => is_variable(self.sig, *sort, *index),
            Tree::App(head, args) => {
                if !self.is_explored(*head) {
                    return false;
                }
                for arg in args.as_slice() {
                    if !self.is_bounded(arg) {
                        return false;
                    }
                }
                true
            }
        }
    }

    /// The sort at which a term is in the universe; `None` exactly where it isn't in it.
    pub fn sort_of(&self, term: &Tree) -> Option<SortId>
        ensures { IsUniverseSort self.now term.now result }
    {
        let sort = self.sig.sort_of(term)?;
        if !self.is_bounded(term) {
            return None;
        }
        if self.sig.weight(term) > self.sig.settings().size as u64 {
            return None;
        }
        Some(sort)
    }

    /// Whether both sides of an equation are in the universe, of one sort.
    pub fn has_sides(&self, q: &Equation) -> bool
        ensures { IsTrue result ↔ HasSides self.now q.now }
    {
        let Some(left) = self.sort_of(&q.left) else {
            return false;
        };
        let Some(right) = self.sort_of(&q.right) else {
            return false;
        };
        left.0 == right.0
    }
}
