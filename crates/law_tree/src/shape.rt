ghost use Rattle.std.specs.Prelude.{◌≡◌, ◌<◌, ◌==◌, if◌then◌else◌, ◌++◌, ◌∷◌, ℕ, [], length, map, slice_set, slice_index_or, IfOk, OnOk};
ghost use Rattle.law_tree.specs.Nodes.{IsSpot, AreNodes, tree_of};
ghost use Rattle.law_tree.specs.Listing.{shape_of, AreOf, AreChildLists, line_of};

use super::nodes::{Node, Spot};
use law_sig::{NoMemory, Seq};
use std::alloc::Global;

/// A line of a tree: a split at a test with so many children, whose lines follow it, or the leaf of the item with a number.
#[derive(Clone, Copy, Debug, PartialEq, Eq)]
pub enum Shape {
    Split { test: u64, count: u64 },
    Leaf(u64),
}

/// The line of a node that has so many children.
fn line(spot: Spot, count: u64) -> Shape
    ensures { result ≡ line_of spot count }
{
    match spot {
        Spot::Leaf(number) => Shape::Leaf(number),
        Spot::Split(test) => Shape::Split { test, count },
    }
}

/// So many empty lists.
fn empty_lists(alloc: Global, count: usize) -> Result<Vec<Vec<usize>>, NoMemory>
    ensures { IfOk result (λ lists. AreOf (λ _. []) count (map (λ l. l.items) lists.items)) }
{
    let mut lists = Vec::new(alloc);
    for _ in 0..count {
        let Ok(()) = lists.push(Vec::new(alloc)) else {
            return Err(NoMemory);
        };
    }
    Ok(lists)
}

/// Adds a place to the list of another one.
fn add(lists: &mut Vec<Vec<usize>>, above: usize, at: usize) -> Result<(), NoMemory>
    requires { above < length lists.old.items }
    ensures { OnOk result (map (λ l. l.items) lists.new.items ≡ slice_set (map (λ l. l.items) lists.old.items) above (slice_index_or (map (λ l. l.items) lists.old.items) above [] ++ at ∷ [])) }
{
    match lists[above].push(at) {
        Ok(()) => Ok(()),
        Err(_) => Err(NoMemory),
    }
}

/// The places of the children of each node, the last one first.
fn child_lists(alloc: Global, nodes: &[Node]) -> Result<Vec<Vec<usize>>, NoMemory>
    requires { AreNodes nodes.now }
    ensures { IfOk result (λ lists. AreChildLists nodes.now (map (λ l. l.items) lists.items)) }
{
    let mut lists = empty_lists(alloc, nodes.len())?;
    let mut at = nodes.len();
    while at > 0 {
        at -= 1;
        if let Some(edge) = nodes[at].edge {
            add(&mut lists, edge.above, at)?;
        }
    }
    Ok(lists)
}

/// The place of the root, where there are so many nodes.
fn root_place(alloc: Global, count: usize) -> Result<Vec<usize>, NoMemory>
    ensures { IfOk result (λ places. places.items ≡ (if count == 0 then [] else 0 ∷ [])) }
{
    let mut places = Vec::new(alloc);
    if count == 0 {
        return Ok(places);
    }
    let Ok(()) = places.push(0) else {
        return Err(NoMemory);
    };
    Ok(places)
}

/// The lines of a tree in prefix order. It takes the machine's stack for no depth of the tree.
pub fn lines(alloc: Global, nodes: &[Node]) -> Result<Seq<Shape>, NoMemory>
    requires { AreNodes nodes.now }
    ensures { IfOk result (λ lines. lines ≡ shape_of (tree_of nodes.now)) }
{
    let lists = child_lists(alloc, nodes)?;
    let mut lines = Seq::new(alloc);
    let mut left = root_place(alloc, nodes.len())?;
    while let Some(at) = left.pop() {
        let kids = lists[at].as_slice();
        lines.push(line(nodes[at].spot, kids.len() as u64))?;
        let Ok(()) = left.extend_from_slice(kids) else {
            return Err(NoMemory);
        };
    }
    Ok(lines)
}
