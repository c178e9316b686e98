//! Trees of splits, the rule by which items are placed in them, and its laws: each function has an empty body, and its
//! contract is the law.
#![tactic(auto)]

ghost use Rattle.std.specs.Prelude.{ℕ};
ghost use Rattle.law_splits.specs.Laws.{RuleFixesTree, EachHasOneLeaf, SplitsTell, PlacingGrows, OthersArePlaced, LeavesAreExact, NewChildrenAreExact, TreesAreRenamed};

/// Items that have values at tests, some of which are allowed.
pub trait Meaning {
    type Item;

    type Value;

    /// A test may be used.
    ghost allowed: { ℕ → Type 0 };

    /// An item has a value at a test.
    ghost means: { Self.Item → ℕ → Self.Value → Type 0 };
}

/// The rule fixes the tree of a list of items; each item has one leaf in it; and at each split, which stands at an allowed test,
/// items below one child agree and items below different children differ.
pub fn rule_laws<M: Meaning>()
    ensures fixes { RuleFixesTree M.allowed M.means }
    ensures leaves { EachHasOneLeaf M.allowed M.means }
    ensures tells { SplitsTell M.allowed M.means }
{}

/// A tree in which an item was placed is that of the items with this one at their end, and there is a way to place an item that
/// differs from all others. Where its values lead an item to a leaf, it differs from all items but the one there; where they
/// lead it to a split that has no child for it, it differs from all.
pub fn placing_laws<M: Meaning>()
    ensures grows { PlacingGrows M.allowed M.means }
    ensures placed { OthersArePlaced M.allowed M.means }
    ensures leaf { LeavesAreExact M.allowed M.means }
    ensures child { NewChildrenAreExact M.allowed M.means }
{}

/// A tree stays that of the rule where its items and values get other names, under which what is meant is still meant, and no two
/// values get one name.
pub fn renaming_laws<M: Meaning, N: Meaning>()
    ensures { TreesAreRenamed M.allowed M.means N.means }
{}
