ghost use Rattle.std.specs.Prelude.{◌≡◌, [], ◌∷◌, ◌++◌, slice_get, Some, IfOk, MatchOption, OnOk, OnErr};
ghost use Rattle.law_sig.specs.Lists.{In};

use super::words::word_of;
use indexmap::IndexMap;
use law_sig::{NoMemory, Tree};
use std::alloc::Global;
use std::marker::Model;

/// A list of terms, in which each is found without a walk.
#[derive(Drop)]
pub struct TermTable {
    alloc: Global,
    terms: Vec<Tree>,
    places: IndexMap<Vec<u8>, usize>,
}

impl Model for TermTable {
    ghost use Rattle.std.specs.Prelude.{List};
    ghost use Rattle.std.specs.Coded.{codes};
    ghost use Rattle.indexmap.specs.IndexMap.{get};
    ghost use Rattle.law_sig.specs.declared.tree.Tree.{Tree};
    ghost use Rattle.law_sig.specs.contracts.tree.Tree as tree;
    ghost use Rattle.law_test.specs.Words.{FindsTerms, same_items};

    ghost Value = { List Tree };

    ghost coded = { Prim.hlevel (codes, tree.the_row.coded) };

    ghost view = { λ table. table.terms.items };

    ghost invariant = { λ table. FindsTerms table.terms.items (get same_items table.places) };
}

impl TermTable {
    /// The table of no terms. It takes no memory.
    pub fn new(alloc: Global) -> TermTable
        ensures { result ≡ [] }
    {
        TermTable {
            alloc,
            terms: Vec::new(alloc),
            places: IndexMap::new(alloc),
        }
    }

    /// All terms, in order.
    pub fn as_slice(&self) -> &[Tree]
        ensures { result.now ≡ self.now }
    {
        self.terms.as_slice()
    }

    /// A place of a term, counted from 0; `None` exactly where it isn't in the table.
    pub fn find(&self, term: &Tree) -> Result<Option<usize>, NoMemory>
        ensures { IfOk result (λ place. MatchOption place (In term.now self.now → ⊥) (λ k. slice_get self.now k ≡ Some term.now)) }
    {
        let word = word_of(self.alloc, term)?;
        match self.places.get(&word) {
            Some(place) => Ok(Some(*place)),
            None => Ok(None),
        }
    }

    /// Adds a term at the end. After a refusal the table is as before.
    pub fn push(&mut self, term: Tree) -> Result<(), NoMemory>
        ensures ok { OnOk result (self.new ≡ self.old ++ term ∷ []) }
        ensures err { OnErr result (self.new ≡ self.old) }
    {
        let word = word_of(self.alloc, &term)?;
        let at = self.terms.len();
        let Ok(()) = self.terms.push(term) else {
            return Err(NoMemory);
        };
        match self.places.insert(word, at) {
            Ok(_) => Ok(()),
            Err(_) => {
                self.terms.pop();
                Err(NoMemory)
            }
        }
    }
}
