ghost use Rattle.std.specs.Prelude.{◌≡◌, ◌≢◌, ◌<◌, ◌≤◌, ◌+◌, ℕ, List, [], ◌∷◌, ◌++◌, length, slice_get, Some, None, IfOk, IfErr, OnOk, OnErr, IsTrue, false};
ghost use Rattle.law_sig.specs.Lists.{Rising};
ghost use Rattle.law_tree.specs.declared.nodes.Spot.TheVariants.{Leaf};
ghost use Rattle.law_tree.specs.Asking.{MayAll, AllMay, MayStays, MeaningStays, Rose, IsOf};
ghost use Rattle.law_tree.specs.Nodes.{IsSpot, IsChild, HasTest, AreNodes, tree_of};
ghost use Rattle.law_tree.specs.Grown.{Grown, IsTree};
ghost use Rattle.law_tree.specs.Finding.{IsFound, IsExact, IsAsked, IsPlaced, same_as, IsCause, IsRise};
ghost use Rattle.law_tree.specs.Looking.{AreApart, IsEnd, IsStopped, IsLooked, leaf_node, root_node, IsSplitLeaf, FindsChild};
ghost use Rattle.law_tree.specs.Listing.{shape_of};

use super::ask::Ask;
use super::compare::{Difference, first_difference};
use super::look::{End, Look};
use super::nodes::{Edge, Node, Spot, put};
use super::shape::{Shape, lines};
use law_sig::{NoMemory, Seq};
use law_value::ValueId;
use std::alloc::Global;
use std::collections::HashMap;
use std::marker::Model;

/// Where an item went: it is new, with this number, or agrees with the old item of this number.
#[derive(Clone, Copy, Debug, PartialEq, Eq)]
pub enum Placed {
    Fresh(u64),
    Same(u64),
}

/// Why an item wasn't placed.
#[derive(Debug, Drop)]
pub enum PlaceErr<F> {
    Ask(F),
    NoMemory,
}

/// Items at leaves, told apart by splits. Contracts see the tests that are allowed, the items in the order in which they were
/// placed, and the nodes, which stand for a tree of the items' numbers.
#[derive(Drop)]
pub struct SplitTree<T> {
    alloc: Global,
    tests: Seq<u64>,
    items: Vec<T>,
    nodes: Vec<Node>,
    children: HashMap<(usize, u64), usize>,
}

impl<T> Model for SplitTree<T> {
    ghost use Rattle.std.specs.Prelude.{length};
    ghost use Rattle.std.specs.HashMap.{get};
    ghost use Rattle.law_tree.specs.Grown.{Grown};
    ghost use Rattle.law_tree.specs.Looking.{IsSound, same_key};

    ghost Value = { Grown T };

    ghost view = { λ tree. record { tests = tree.tests; items = tree.items.items; nodes = tree.nodes.items } };

    ghost invariant = { λ tree. IsSound tree.tests tree.nodes.items (get same_key tree.children) };
}

impl<T> SplitTree<T> {
    /// The tree of no items, over these tests. It takes no memory.
    pub fn new(alloc: Global, tests: Seq<u64>) -> SplitTree<T>
        requires rising { Rising (λ n m. n < m) tests }
        ensures tests { result.tests ≡ tests }
        ensures items { result.items ≡ [] }
        ensures nodes { result.nodes ≡ [] }
    {
        SplitTree {
            alloc,
            tests,
            items: Vec::new(alloc),
            nodes: Vec::new(alloc),
            children: HashMap::new(alloc),
        }
    }

    /// The lines of the tree in prefix order: for each split its test and how many children follow, in their order, and for each
    /// leaf the number of its item.
    pub fn shape(&self) -> Result<Seq<Shape>, NoMemory>
        ensures { IfOk result (λ shape. shape ≡ shape_of (tree_of self.now.nodes)) }
    {
        lines(self.alloc, self.nodes.as_slice())
    }

    /// Does nothing. Its contract says how a tree is made.
    fn made(&self)
        ensures rising { Rising (λ n m. n < m) self.now.tests }
        ensures nodes { AreNodes self.now.nodes }
        ensures apart { AreApart self.now.nodes }
    {
        let _ = &self.nodes;
    }

    /// How many items were placed.
    fn count(&self) -> u64
        ensures { result ≡ length self.now.items }
    {
        self.items.len() as u64
    }

    /// The tests that are allowed.
    fn tests(&self) -> &[u64]
        ensures { result.now ≡ self.now.tests }
    {
        self.tests.as_slice()
    }

    /// Whether no item was placed.
    fn is_empty(&self) -> bool
        ensures yes { IsTrue result → self.now.nodes ≡ [] }
        ensures no { result ≡ false → 0 < length self.now.nodes }
    {
        self.nodes.is_empty()
    }

    /// What stands at a place.
    fn spot(&self, at: usize) -> Spot
        requires { at < length self.now.nodes }
        ensures { IsSpot self.now.nodes at result }
    {
        self.nodes[at].spot
    }

    /// The child of a split with a value.
    fn child(&self, at: usize, value: ValueId) -> Option<usize>
        ensures { FindsChild self.now.nodes at value result }
    {
        self.children.get(&(at, value.0)).copied()
    }
}

impl<T: Copy> SplitTree<T> {
    /// The item with a number.
    fn item(&self, number: u64) -> T
        requires { number < length self.now.items }
        ensures { slice_get self.now.items number ≡ Some result }
    {
        self.items[number as usize]
    }

    /// Goes down from the root by the values of an item.
    fn walk<A: Ask<Item = T>>(&self, item: T, ask: &mut A) -> Result<End, A::Fault>
        requires may_item { MayAll (A.may ask.old) item self.now.tests }
        requires tree { IsTree (A.means ask.old) self.now }
        requires some { 0 < length self.now.nodes }
        ensures end { IfOk result (IsEnd (A.means ask.new) item self.now (A.asks ask.old) (A.asks ask.new)) }
        ensures asked { OnErr result (IsStopped (A.means ask.new) item self.now (A.asks ask.old) (A.asks ask.new)) }
        ensures fault { IfErr result (λ f. IsOf (A.true_fault ask.new) (item ∷ []) self.now.tests f) }
        ensures rose { IfErr result (λ f. Rose (A.faults ask.old) (A.faults ask.new)) }
        ensures faults { A.faults ask.old ≤ A.faults ask.new }
        ensures may_stays { MayStays (A.may ask.old) (A.may ask.new) }
        ensures meaning_stays { MeaningStays (A.means ask.old) (A.means ask.new) }
        ensures telling_stays { (ts : List ℕ) → A.tells ask.old ts → A.tells ask.new ts }
        ensures counted { A.asks ask.old ≤ A.asks ask.new }
    {
        self.made();
        let mut at = 0;
        loop {
            match self.spot(at) {
                Spot::Leaf(number) => return Ok(End::Leaf(at, number)),
                Spot::Split(test) => {
                    let value = ask.value(&item, test)?;
                    let Some(next) = self.child(at, value) else {
                        return Ok(End::Split(at, value));
                    };
                    at = next;
                }
            }
        }
    }

    /// Looks for an item: an old one that agrees with it at all tests, or the place where it belongs.
    fn look<A: Ask<Item = T>>(&self, item: T, ask: &mut A) -> Result<Look, A::Fault>
        requires may_item { MayAll (A.may ask.old) item self.now.tests }
        requires may_old { AllMay (A.may ask.old) self.now.items self.now.tests }
        requires tells { A.tells ask.old self.now.tests }
        requires tree { IsTree (A.means ask.old) self.now }
        ensures looked { IfOk result (IsLooked (A.means ask.new) item self.now) }
        ensures asked { IsAsked (A.means ask.new) item self.now (A.asks ask.old) (A.asks ask.new) }
        ensures fault { IfErr result (λ f. IsOf (A.true_fault ask.new) (self.now.items ++ item ∷ []) self.now.tests f) }
        ensures rose { IfErr result (λ f. Rose (A.faults ask.old) (A.faults ask.new)) }
        ensures faults { A.faults ask.old ≤ A.faults ask.new }
        ensures tree { IsTree (A.means ask.new) self.now }
        ensures may_stays { MayStays (A.may ask.old) (A.may ask.new) }
        ensures meaning_stays { MeaningStays (A.means ask.old) (A.means ask.new) }
        ensures telling_stays { (ts : List ℕ) → A.tells ask.old ts → A.tells ask.new ts }
        ensures counted { A.asks ask.old ≤ A.asks ask.new }
    {
        self.made();
        if self.is_empty() {
            return Ok(Look::Empty);
        }
        match self.walk(item, ask)? {
            End::Split(at, value) => Ok(Look::Child(at, value)),
            End::Leaf(at, number) => {
                let old = self.item(number);
                match first_difference(ask, item, old, self.tests())? {
                    None => Ok(Look::Same(number)),
                    Some(difference) => Ok(Look::Apart(at, number, difference)),
                }
            }
        }
    }

    /// The number of the old item that has the same value at all allowed tests.
    pub fn find<A: Ask<Item = T>>(&self, item: T, ask: &mut A) -> Result<Option<u64>, A::Fault>
        requires may_item { MayAll (A.may ask.old) item self.now.tests }
        requires may_old { AllMay (A.may ask.old) self.now.items self.now.tests }
        requires tells { A.tells ask.old self.now.tests }
        requires tree { IsTree (A.means ask.old) self.now }
        ensures found { IfOk result (IsFound (A.means ask.new) item self.now) }
        ensures exact { IfOk result (IsExact (A.means ask.new) item self.now) }
        ensures asked { IsAsked (A.means ask.new) item self.now (A.asks ask.old) (A.asks ask.new) }
        ensures fault { IfErr result (λ f. IsOf (A.true_fault ask.new) (self.now.items ++ item ∷ []) self.now.tests f) }
        ensures rose { IfErr result (λ f. Rose (A.faults ask.old) (A.faults ask.new)) }
        ensures faults { A.faults ask.old ≤ A.faults ask.new }
        ensures tree { IsTree (A.means ask.new) self.now }
        ensures may_stays { MayStays (A.may ask.old) (A.may ask.new) }
        ensures meaning_stays { MeaningStays (A.means ask.old) (A.means ask.new) }
        ensures telling_stays { (ts : List ℕ) → A.tells ask.old ts → A.tells ask.new ts }
        ensures counted { A.asks ask.old ≤ A.asks ask.new }
    {
        match self.look(item, ask)? {
            Look::Same(number) => Ok(Some(number)),
            Look::Empty => Ok(None),
            Look::Child(_, _) => Ok(None),
            Look::Apart(_, _, _) => Ok(None),
        }
    }

    /// Puts the first item into an empty tree.
    fn plant(&mut self, item: T) -> Result<(), NoMemory>
        requires nodes { self.old.nodes ≡ [] }
        ensures tests { self.new.tests ≡ self.old.tests }
        ensures items { OnOk result (self.new.items ≡ self.old.items ++ item ∷ []) }
        ensures nodes { OnOk result (self.new.nodes ≡ root_node ∷ []) }
        ensures err { OnErr result (self.new ≡ self.old) }
    {
        let Ok(()) = self.items.reserve(1) else {
            return Err(NoMemory);
        };
        let root = Node {
            edge: None,
            spot: Spot::Leaf(0),
        };
        let Ok(()) = self.nodes.push(root) else {
            return Err(NoMemory);
        };
        let Ok(()) = self.items.push(item) else {
            unreachable!()
        };
        Ok(())
    }

    /// Adds a last child to a split, the leaf of a new item.
    fn add_child(&mut self, at: usize, value: ValueId, item: T) -> Result<(), NoMemory>
        requires split { HasTest self.old.nodes at }
        requires nowhere { (c : ℕ) → IsChild self.old.nodes at c value → ⊥ }
        ensures tests { self.new.tests ≡ self.old.tests }
        ensures items { OnOk result (self.new.items ≡ self.old.items ++ item ∷ []) }
        ensures nodes { OnOk result (self.new.nodes ≡ self.old.nodes ++ leaf_node at value (length self.old.items) ∷ []) }
        ensures err { OnErr result (self.new ≡ self.old) }
    {
        let number = self.items.len() as u64;
        let child = self.nodes.len();
        let Ok(()) = self.items.reserve(1) else {
            return Err(NoMemory);
        };
        let Ok(()) = self.nodes.reserve(1) else {
            return Err(NoMemory);
        };
        let Ok(_) = self.children.insert((at, value.0), child) else {
            return Err(NoMemory);
        };
        let Ok(()) = self.items.push(item) else {
            unreachable!()
        };
        let leaf = leaf_at(at, value, number);
        let Ok(()) = self.nodes.push(leaf) else {
            unreachable!()
        };
        Ok(())
    }

    /// Makes a split of a leaf: below it are the leaf of the old item and, after it, that of a new one.
    fn split_leaf(
        &mut self,
        at: usize,
        number: u64,
        difference: Difference,
        item: T,
    ) -> Result<(), NoMemory>
        requires leaf { IsSpot self.old.nodes at (Leaf number) }
        requires differ { difference.old ≢ difference.new }
        ensures tests { self.new.tests ≡ self.old.tests }
        ensures items { OnOk result (self.new.items ≡ self.old.items ++ item ∷ []) }
        ensures nodes { OnOk result (IsSplitLeaf self.old.nodes self.new.nodes at number (length self.old.items) difference) }
        ensures err { OnErr result (self.new ≡ self.old) }
    {
        let edge = self.nodes[at].edge;
        let new_number = self.items.len() as u64;
        let child = self.nodes.len();
        let Ok(()) = self.items.reserve(1) else {
            return Err(NoMemory);
        };
        let Ok(()) = self.nodes.reserve(2) else {
            return Err(NoMemory);
        };
        let Ok(()) = self.children.reserve(2) else {
            return Err(NoMemory);
        };
        let Ok(_) = self.children.insert((at, difference.old.0), child) else {
            unreachable!()
        };
        let Ok(_) = self.children.insert((at, difference.new.0), child + 1) else {
            unreachable!()
        };
        let Ok(()) = self.items.push(item) else {
            unreachable!()
        };
        let split = Node {
            edge,
            spot: Spot::Split(difference.test),
        };
        put(&mut self.nodes, at, split);
        let Ok(()) = self.nodes.push(leaf_at(at, difference.old, number)) else {
            unreachable!()
        };
        let Ok(()) = self.nodes.push(leaf_at(at, difference.new, new_number)) else {
            unreachable!()
        };
        Ok(())
    }

    /// Places an item: an old one that agrees with it at all allowed tests is `Same`, else it gets the next number.
    pub fn place<A: Ask<Item = T>>(
        &mut self,
        item: T,
        ask: &mut A,
    ) -> Result<Placed, PlaceErr<A::Fault>>
        requires may_item { MayAll (A.may ask.old) item self.old.tests }
        requires may_old { AllMay (A.may ask.old) self.old.items self.old.tests }
        requires tells { A.tells ask.old self.old.tests }
        requires tree { IsTree (A.means ask.old) self.old }
        ensures placed { IfOk result (IsPlaced (A.means ask.new) item self.old self.new) }
        ensures exact { IfOk result (λ placed. IsExact (A.means ask.new) item self.old (same_as placed)) }
        ensures tree { IsTree (A.means ask.new) self.new }
        ensures asked { IsAsked (A.means ask.new) item self.old (A.asks ask.old) (A.asks ask.new) }
        ensures fault { IfErr result (IsCause (A.true_fault ask.new) (self.old.items ++ item ∷ []) self.old.tests) }
        ensures rose { IfErr result (IsRise (A.faults ask.old) (A.faults ask.new)) }
        ensures faults { A.faults ask.old ≤ A.faults ask.new }
        ensures err { OnErr result (self.new ≡ self.old) }
        ensures may_stays { MayStays (A.may ask.old) (A.may ask.new) }
        ensures meaning_stays { MeaningStays (A.means ask.old) (A.means ask.new) }
        ensures telling_stays { (ts : List ℕ) → A.tells ask.old ts → A.tells ask.new ts }
        ensures counted { A.asks ask.old ≤ A.asks ask.new }
    {
        self.made();
        let number = self.count();
        let found = match self.look(item, ask) {
            Ok(found) => found,
            Err(fault) => return Err(PlaceErr::Ask(fault)),
        };
        match found {
            Look::Same(old) => Ok(Placed::Same(old)),
            Look::Empty => match self.plant(item) {
                Ok(()) => Ok(Placed::Fresh(number)),
                Err(_) => Err(PlaceErr::NoMemory),
            },
            Look::Child(at, value) => match self.add_child(at, value, item) {
                Ok(()) => Ok(Placed::Fresh(number)),
                Err(_) => Err(PlaceErr::NoMemory),
            },
            Look::Apart(at, old, difference) => match self.split_leaf(at, old, difference, item) {
                Ok(()) => Ok(Placed::Fresh(number)),
                Err(_) => Err(PlaceErr::NoMemory),
            },
        }
    }
}

/// The leaf of an item, below a split.
fn leaf_at(above: usize, value: ValueId, number: u64) -> Node
    ensures { result ≡ leaf_node above value number }
{
    Node {
        edge: Some(Edge { above, value }),
        spot: Spot::Leaf(number),
    }
}
