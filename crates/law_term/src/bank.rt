ghost use Rattle.std.specs.Prelude.{◌≡◌, ◌+◌, ◌<◌, ◌^◌, List, [], ◌∷◌, map, IfOk, OnErr, slice_index_or};
ghost use Rattle.law_sig.specs.Lists.{total};
ghost use Rattle.law_sig.specs.Trees.{node_count};
ghost use Rattle.law_sig.specs.Tests.{weight};
ghost use Rattle.law_sig.specs.declared.parts.SigParts.{SigParts};
ghost use Rattle.law_sig.specs.declared.tree.Tree.{Tree};
ghost use Rattle.law_rewriting.specs.Heads.{head_sort};
ghost use Rattle.law_bank.specs.Terms.{tree_at, tree_of, trees_of, ids_of, Fits};
ghost use Rattle.law_bank.specs.Bank.{Terms, AllOf, IsOf, IsShared, Grows, sorts_by, capped};
ghost use Rattle.law_term.specs.Keys.{key, IsNode};

use bumpalo::Bump;
use bumpalo::collections::into_bump_slice;
use indexmap::IndexMap;
use law_bank::{Head, Node, Term};
use law_sig::{NoMemory, Seq, SortId, SymId};
use std::alloc::Global;
use std::marker::Model;

/// Terms over one arena, each kept once. Contracts see the sort and the weight of each symbol, and the tree of each id.
#[derive(Drop)]
pub struct TermBank<'a> {
    alloc: Global,
    arena: &'a Bump<Global>,
    sorts: Seq<SortId>,
    weights: Seq<u32>,
    nodes: IndexMap<Vec<u64>, Term<'a>>,
}

impl<'a> Model for TermBank<'a> {
    ghost use Rattle.std.specs.Coded.{codes};
    ghost use Rattle.law_sig.specs.contracts.tree.Tree as tree;
    ghost use Rattle.law_bank.specs.Bank.{Terms};

    ghost Value = { Terms };

    ghost coded = { Prim.hlevel (codes, tree.the_row.coded) };

    ghost use Rattle.law_term.specs.Inside.{terms_in, IsBank};

    ghost view = { terms_in };

    ghost invariant = { IsBank };
}

/// What a node tells of its tree, and its id.
#[derive(Clone, Copy)]
struct Told {
    id: u64,
    size: u64,
    weight: u64,
    sort: SortId,
}

/// A new node in the arena.
fn place<'a>(
    arena: &'a Bump<Global>,
    head: Head,
    args: &[Term<'a>],
    told: Told,
) -> Result<Term<'a>, NoMemory>
    ensures { IfOk result (λ t. IsNode head args.now told t.now) }
{
    let mut copy: Vec<Term<'a>, &'a Bump<Global>> = Vec::new(arena);
    let Ok(()) = copy.extend_from_slice(args) else {
        return Err(NoMemory);
    };
    let node = Node {
        id: told.id,
        head,
        args: into_bump_slice(copy),
        size: told.size,
        weight: told.weight,
        sort: told.sort,
    };
    match arena.try_alloc(node) {
        Ok(term) => Ok(term),
        Err(_) => Err(NoMemory),
    }
}

/// The key of a node in the table: its head, and the ids of its arguments.
fn key(alloc: Global, head: Head, args: &[Term<'_>]) -> Result<Vec<u64>, NoMemory>
    ensures { IfOk result (λ k. k.items ≡ key head (ids_of args.now)) }
{
    let mut numbers = start(alloc, head)?;
    for arg in args {
        let Ok(()) = numbers.push(arg.id) else {
            return Err(NoMemory);
        };
    }
    Ok(numbers)
}

/// The head as numbers.
fn start(alloc: Global, head: Head) -> Result<Vec<u64>, NoMemory>
    ensures { IfOk result (λ k. k.items ≡ key head []) }
{
    let numbers = match head {
        Head::Var(sort, index) => Vec::from_slice(alloc, &[0, u64::from(sort.0), u64::from(index)]),
        Head::Sym(symbol) => Vec::from_slice(alloc, &[1, u64::from(symbol.0)]),
    };
    match numbers {
        Ok(numbers) => Ok(numbers),
        Err(_) => Err(NoMemory),
    }
}

/// 1 and the sizes of the arguments, or 2^64 - 1 where that is less.
fn size_over(args: &[Term<'_>]) -> u64
    ensures { (bank : Terms) → AllOf bank args.now → result ≡ capped (1 + total (map node_count (trees_of args.now))) }
{
    let mut size = 1u64;
    for arg in args {
        size = size.saturating_add(arg.size);
    }
    size
}

/// A weight and the weights of the arguments, or 2^64 - 1 where that is less.
fn weight_over(own: u64, args: &[Term<'_>]) -> u64
    requires { own < 2 ^ 64 }
    ensures { (bank : Terms) (parts : SigParts) → AllOf bank args.now → parts.settings.weights ≡ bank.weights
        → result ≡ capped (own + total (map (weight parts) (trees_of args.now))) }
{
    let mut weight = own;
    for arg in args {
        weight = weight.saturating_add(arg.weight);
    }
    weight
}

impl<'a> TermBank<'a> {
    /// A bank without terms, by the result sort and the weight of each symbol. It takes no memory.
    pub fn new(
        alloc: Global,
        arena: &'a Bump<Global>,
        sorts: Seq<SortId>,
        weights: Seq<u32>,
    ) -> TermBank<'a>
        ensures { result ≡ record { sorts = sorts; weights = weights; trees = [] } }
    {
        TermBank {
            alloc,
            arena,
            sorts,
            weights,
            nodes: IndexMap::new(alloc),
        }
    }

    /// Where the bank, and what is made with it, takes memory.
    pub fn alloc(&self) -> Global {
        self.alloc
    }

    /// Does nothing. Its contract says of any bank that no two of its ids have one tree.
    pub fn shared(&self)
        ensures { IsShared self.now }
    {
        let _ = &self.nodes;
    }

    /// The weight of a symbol.
    fn weight_at(&self, symbol: SymId) -> u64
        ensures weight { result ≡ slice_index_or self.now.weights symbol.0 1 }
        ensures small { result < 2 ^ 64 }
    {
        match self.weights.get(symbol.0 as usize) {
            Some(weight) => u64::from(*weight),
            None => 1,
        }
    }

    /// The result sort of a symbol.
    fn sort_at(&self, symbol: SymId) -> SortId
        ensures { result ≡ sorts_by self.now.sorts symbol }
    {
        match self.sorts.get(symbol.0 as usize) {
            Some(sort) => *sort,
            None => SortId(0),
        }
    }

    /// The weight of a term, by its head and its arguments.
    fn weight_of(&self, head: Head, args: &[Term<'a>]) -> u64
        requires { AllOf self.now args.now }
        ensures { (parts : SigParts) → parts.settings.weights ≡ self.now.weights → result ≡ capped (weight parts (tree_at head (trees_of args.now))) }
    {
        match head {
            Head::Var(_, _) => 1,
            Head::Sym(symbol) => weight_over(self.weight_at(symbol), args),
        }
    }

    /// The sort of a term, by its head.
    fn sort_of(&self, head: Head) -> SortId
        ensures { (below : List Tree) → result ≡ head_sort (sorts_by self.now.sorts) (tree_at head below) }
    {
        match head {
            Head::Var(sort, _) => sort,
            Head::Sym(symbol) => self.sort_at(symbol),
        }
    }

    /// The term with this head over these arguments. A term that the bank has already keeps its node. After a refusal the bank
    /// is as before.
    pub fn intern(&mut self, head: Head, args: &[Term<'a>]) -> Result<Term<'a>, NoMemory>
        requires fits { Fits head args.now }
        requires held { AllOf self.old args.now }
        ensures tree { IfOk result (λ t. tree_of t.now ≡ tree_at head (trees_of args.now)) }
        ensures held { IfOk result (λ t. IsOf self.new t.now) }
        ensures grows { Grows self.old self.new }
        ensures shared { IsShared self.new }
        ensures err { OnErr result (self.new ≡ self.old) }
    {
        let key = key(self.alloc, head, args)?;
        if let Some(known) = self.nodes.get(&key) {
            return Ok(*known);
        }
        let told = Told {
            id: self.nodes.len() as u64,
            size: size_over(args),
            weight: self.weight_of(head, args),
            sort: self.sort_of(head),
        };
        let made = place(self.arena, head, args, told)?;
        let Ok(_) = self.nodes.insert(key, made) else {
            return Err(NoMemory);
        };
        Ok(made)
    }
}
