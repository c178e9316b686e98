ghost use Rattle.std.specs.Prelude.{◌≡◌, IfOk};
ghost use Rattle.law_bank.specs.Terms.{tree_of};
ghost use Rattle.law_bank.specs.Bank.{IsOf, Grows};

use super::bank::TermBank;
use law_bank::{Head, Term};
use law_sig::{NoMemory, Seq, Tree};
use std::alloc::Global;

/// The tree of a term. It recurs as deep as the tree is.
fn written(alloc: Global, term: Term<'_>) -> Result<Tree, NoMemory>
    ensures { IfOk result (λ tree. tree ≡ tree_of term.now) }
{
    match term.head {
        Head::Var(sort, index) => Ok(Tree::Var(sort, index)),
        Head::Sym(symbol) => {
            let mut args = Seq::new(alloc);
            for arg in term.args {
                args.push(written(alloc, arg)?)?;
            }
            Ok(Tree::App(symbol, args))
        }
    }
}

impl<'a> TermBank<'a> {
    /// The term of a tree. It recurs as deep as the tree is, which is at most 256, the bound of written terms. What was added before
    /// a refusal stays in the bank.
    pub fn from_tree(&mut self, tree: &Tree) -> Result<Term<'a>, NoMemory>
        ensures tree { IfOk result (λ t. tree_of t.now ≡ tree.now) }
        ensures held { IfOk result (λ t. IsOf self.new t.now) }
        ensures grows { Grows self.old self.new }
    {
        match tree {
            Tree::Var(sort, index) => {
                let made = self.intern(Head::Var(*sort, *index), &[])?;
                Ok(made)
            }
            Tree::App(symbol, args) => {
                let mut terms = Vec::new(self.alloc());
                for arg in args.as_slice() {
                    let term = self.from_tree(arg)?;
                    let Ok(()) = terms.push(term) else {
                        return Err(NoMemory);
                    };
                }
                let made = self.intern(Head::Sym(*symbol), terms.as_slice())?;
                Ok(made)
            }
        }
    }

    /// The tree of a term. It takes time in the number of the tree's nodes, which may be far more than the term's, and recurs as
    /// deep as the tree is, which is at most 256, the bound of written terms.
    pub fn to_tree(&self, term: Term<'a>) -> Result<Tree, NoMemory>
        ensures { IfOk result (λ tree. tree ≡ tree_of term.now) }
    {
        let tree = written(self.alloc(), term)?;
        Ok(tree)
    }
}
