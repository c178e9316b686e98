ghost use Rattle.std.specs.Prelude.{◌≡◌, ◌==◌, ◌&&◌, [], MatchOption, OnOk, OnErr, slice_get};
ghost use Rattle.law_bank.specs.Bindings.{AreRising, comes_before, with_binding, before_count};
ghost use Rattle.law_sig.specs.Trees.{same_sort};
ghost use Rattle.law_bank.specs.Bank.{Terms, IsOf};
ghost use Rattle.law_bank.specs.Bindings.{AllBound};
ghost use Rattle.law_term.specs.Substs.{IsBound, IsFree, is_there};
ghost use Rattle.std.specs.Prelude.{IfSome};

use law_bank::Term;
use law_sig::{NoMemory, SortId};
use std::alloc::Global;
use std::marker::Model;

/// Terms for variables, in order by the number of the sort and then by index.
#[derive(Drop)]
pub struct Subst<'a> {
    bindings: Vec<(SortId, u32, Term<'a>)>,
}

impl<'a> Model for Subst<'a> {
    ghost use Rattle.std.specs.Prelude.{List, []};
    ghost use Rattle.std.specs.Coded.{codes};
    ghost use Rattle.law_bank.specs.contracts.node.Node as node;
    ghost use mir.Syntax.{named};
    ghost use Rattle.law_bank.specs.Bindings.{Binding, AreRising};

    ghost Value = { List Binding };

    ghost coded = { Prim.hlevel (codes, (node.the_row (record { mir = named 0; lft = [] })).coded) };

    ghost view = { λ s. s.bindings.items };

    ghost invariant = { λ s. AreRising s.bindings.items };
}

/// Whether two variables are the same.
pub fn is_variable(sort: SortId, index: u32, other: SortId, number: u32) -> bool
    ensures { result ≡ (same_sort sort other && (index == number)) }
{
    sort.0 == other.0 && index == number
}

/// The term that is put for a variable, where there is one.
pub fn find<'a>(bindings: &[(SortId, u32, Term<'a>)], sort: SortId, index: u32) -> Option<Term<'a>>
    ensures found { MatchOption result (IsFree bindings.now sort index) (IsBound bindings.now sort index) }
    ensures held { (bank : Terms) → AllBound bank bindings.now → IfSome result (λ t. IsOf bank t.now) }
{
    for at in 0..bindings.len() {
        let binding = bindings[at];
        if is_variable(binding.0, binding.1, sort, index) {
            return Some(binding.2);
        }
    }
    None
}

/// Whether a variable stands before another one, by sort and then index.
pub fn comes_before(sort: SortId, index: u32, other: SortId, number: u32) -> bool
    ensures { result ≡ comes_before sort index other number }
{
    sort.0 < other.0 || sort.0 == other.0 && index < number
}

/// How many bindings stand before the place of a variable.
fn place(bindings: &[(SortId, u32, Term<'_>)], sort: SortId, index: u32) -> usize
    ensures { result ≡ before_count sort index bindings.now }
{
    for at in 0..bindings.len() {
        let binding = bindings[at];
        if !comes_before(binding.0, binding.1, sort, index) {
            return at;
        }
    }
    bindings.len()
}

/// Whether the binding at a place is that of a variable.
fn is_there(bindings: &[(SortId, u32, Term<'_>)], at: usize, sort: SortId, index: u32) -> bool
    ensures { result ≡ is_there sort index (slice_get bindings.now at) }
{
    match bindings.get(at) {
        Some(binding) => is_variable(binding.0, binding.1, sort, index),
        None => false,
    }
}

impl<'a> Subst<'a> {
    /// No bindings. It takes no memory.
    pub fn new(alloc: Global) -> Subst<'a>
        ensures { result ≡ [] }
    {
        Subst {
            bindings: Vec::new(alloc),
        }
    }

    /// The term that is bound to a variable; `None` exactly where it isn't bound.
    pub fn find(&self, sort: SortId, index: u32) -> Option<Term<'a>>
        ensures found { MatchOption result (IsFree self.now sort index) (IsBound self.now sort index) }
        ensures held { (bank : Terms) → AllBound bank self.now → IfSome result (λ t. IsOf bank t.now) }
    {
        find(self.bindings.as_slice(), sort, index)
    }

    /// Binds a variable to a term, in place of the one that it was bound to, and leaves all others. After a refusal the bindings
    /// are as before.
    pub fn bind(&mut self, sort: SortId, index: u32, term: Term<'a>) -> Result<(), NoMemory>
        ensures ok { OnOk result (self.new ≡ with_binding (sort, index, term.entry) self.old) }
        ensures err { OnErr result (self.new ≡ self.old) }
        ensures rising { AreRising self.new }
    {
        let at = place(self.bindings.as_slice(), sort, index);
        let there = is_there(self.bindings.as_slice(), at, sort, index);
        let Ok(()) = self.bindings.insert(at, (sort, index, term)) else {
            return Err(NoMemory);
        };
        if there {
            self.bindings.remove(at + 1);
            return Ok(());
        }
        Ok(())
    }

    /// The bindings in order.
    pub fn as_slice(&self) -> &[(SortId, u32, Term<'a>)]
        ensures { result.now ≡ self.now }
    {
        self.bindings.as_slice()
    }
}
