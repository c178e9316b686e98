ghost use Rattle.std.specs.Prelude.{◌≡◌, ◌<◌, ◌≤◌, ◌^◌, List, [], Some, None, length, IfOk, IsErrOf, IfSome};
ghost use Rattle.lru.specs.LruCache.{lru_cache};
ghost use Rattle.law_sig.specs.Evaluate.{ap};
ghost use Rattle.law_sig.specs.declared.tree.Tree.{Tree};
ghost use Rattle.law_sig.specs.declared.parts.SigParts.{SigParts};
ghost use Rattle.law_ids.specs.Values.{IsOf, AreOf, tree_of, trees_of, Grows};
ghost use Rattle.law_memo.specs.Right.{IsRight, AreRight};

use law_eval::EvalErr;
use law_sig::{NoMemory, Sig, SymId};
use law_value::{ValueBank, ValueId};
use lru::LruCache;
use std::alloc::Global;
use std::marker::Model;
use std::num::NonZeroUsize;

/// An application: a symbol and the values that it is applied to.
#[derive(PartialEq, Eq, Hash, Drop)]
pub struct Call {
    pub sym: SymId,
    pub args: Vec<ValueId>,
}

/// What an application gave, and what it cost.
#[derive(Clone, Copy)]
pub struct Known {
    pub value: ValueId,
    pub cost: u64,
}

/// The applications that were asked for last, each with its value and its cost, up to a number that is set when the memo is
/// made. Contracts see its entries, the one used last first, and that number.
#[derive(Drop)]
pub struct Memo {
    alloc: Global,
    cache: LruCache<Call, Known>,
}

impl Model for Memo {
    ghost use Rattle.lru.specs.LruCache.{LruCache};
    ghost use Rattle.law_memo.specs.declared.memo.Call.{Call};
    ghost use Rattle.law_memo.specs.declared.memo.Known.{Known};

    ghost Value = { LruCache Call Known };

    ghost view = { λ memo. memo.cache };
}

impl Memo {
    /// A memo without entries, which keeps at most `capacity` of them. It takes memory for an entry only when there is one.
    #[tactic(auto, using(crate::proofs::RightFacts::none_wrong))]
    pub fn new(alloc: Global, capacity: usize) -> Result<Memo, NoMemory>
        requires { 1 ≤ capacity }
        ensures empty { IfOk result (λ memo. memo ≡ lru_cache [] capacity) }
        ensures right { IfOk result (λ memo. (parts : SigParts) (bank : List Tree) → AreRight parts bank memo.entries) }
    {
        let Some(capacity) = NonZeroUsize::new(capacity) else {
            unreachable!()
        };
        match LruCache::sparse(alloc, capacity) {
            Ok(cache) => Ok(Memo { alloc, cache }),
            Err(_) => Err(NoMemory),
        }
    }

    /// Does nothing. Its contract says of any memo that it keeps no more entries than its capacity, and that entries that are
    /// right for a bank are right for it as it grows.
    pub fn laws(&self)
        ensures bounded { length self.now.entries ≤ self.now.cap }
        ensures stays { (parts : SigParts) (old new : List Tree) → Grows old new → AreRight parts old self.now.entries → AreRight parts new self.now.entries }
    {
        let _count = self.cache.len();
    }

    /// What is kept of an application, which is then the one used last.
    fn known(&mut self, call: &Call) -> Option<Known>
        ensures found { IfSome result (λ known. (parts : SigParts) (bank : List Tree) → AreRight parts bank self.old.entries → IsRight parts bank call.now.sym call.now.args.items known) }
        ensures right { (parts : SigParts) (bank : List Tree) → AreRight parts bank self.old.entries → AreRight parts bank self.new.entries }
        ensures capacity { self.new.cap ≡ self.old.cap }
    {
        self.cache.get(call).copied()
    }

    /// Keeps what an application gave; where the memo is full, in the place of the entry that was used longest ago. Without memory
    /// for it, nothing changes.
    fn keep(&mut self, call: Call, known: Known)
        ensures right { (parts : SigParts) (bank : List Tree) → AreRight parts bank self.old.entries → IsRight parts bank call.sym call.args.items known → AreRight parts bank self.new.entries }
        ensures capacity { self.new.cap ≡ self.old.cap }
    {
        let _ = self.cache.put(call, known);
    }

    /// The value and the cost of a symbol applied to these values of the bank, exactly as `law_eval::apply` gives them, whether
    /// the memo has them or not: what it has costs what it cost when it was made. The entries have to be right for the signature
    /// and the bank, and are so afterwards, also where there is no answer.
    #[tactic(auto, using(crate::proofs::RightFacts::all_stay))]
    pub fn apply(
        &mut self,
        sig: &Sig,
        bank: &mut ValueBank,
        sym: SymId,
        args: &[ValueId],
        budget: u64,
    ) -> Result<(ValueId, u64), EvalErr>
        requires held { AreOf bank.old args.now }
        requires few { length args.now < 2 ^ 32 }
        requires right { AreRight sig.now bank.old self.old.entries }
        ensures id { IfOk result (λ r. IsOf bank.new r.0) }
        ensures value { IfOk result (λ r. ap sig.now sym (trees_of bank.old args.now) budget ≡ Some (record { value = tree_of bank.new r.0; cost = r.1 })) }
        ensures over { IsErrOf result EvalErr.Over → ap sig.now sym (trees_of bank.old args.now) budget ≡ None }
        ensures grows { Grows bank.old bank.new }
        ensures right { AreRight sig.now bank.new self.new.entries }
        ensures capacity { self.new.cap ≡ self.old.cap }
    {
        let call = Call {
            sym,
            args: Vec::from_slice(self.alloc, args)?,
        };
        if let Some(known) = self.known(&call) {
            if known.cost > budget {
                return Err(EvalErr::Over);
            }
            return Ok((known.value, known.cost));
        }
        let (value, cost) = law_eval::apply(self.alloc, sig, bank, sym, args, budget)?;
        self.keep(call, Known { value, cost });
        Ok((value, cost))
    }
}
