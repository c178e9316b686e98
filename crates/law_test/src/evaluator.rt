ghost use Rattle.std.specs.Prelude.{◌≡◌, ◌<◌, ◌^◌, length, None, IfOk, IsErrOf};
ghost use Rattle.law_ids.specs.Values.{AreOf, IsShared};
ghost use Rattle.law_testing.specs.Values.{IsTestable, IsValue, applied_value, tests_by, val_by};
ghost use Rattle.law_test.specs.Memo.{Gives};
ghost use Rattle.law_testing.specs.Evaluators.{AreReady, Extends};

use super::memo::{Known, Memo, key_of};
use super::values::Tester;
use law_eval::{Buffers, EvalErr, apply_with};
use law_sig::{Sig, SymId, Tree};
use law_value::{ValueBank, ValueId};
use std::alloc::Global;
use std::marker::Model;

/// Values of terms over one signature, in a bank of its own. What a symbol gave of values is known for a while, and is not
/// evaluated again; the room of one application is left to the next. Contracts see the signature and the bank.
#[derive(Drop)]
pub struct Evaluator<'s> {
    alloc: Global,
    sig: &'s Sig,
    bank: ValueBank,
    memo: Memo,
    buffers: Buffers<'s>,
}

impl<'s> Model for Evaluator<'s> {
    ghost use Rattle.std.specs.Coded.{codes};
    ghost use Rattle.law_sig.specs.contracts.tree.Tree as tree;
    ghost use Rattle.law_sig.specs.contracts.tree.Body as body;
    ghost use Rattle.law_test.specs.Memo.{AreRight};
    ghost use Rattle.law_testing.specs.Evaluators.{Values};

    ghost Value = { Values };

    ghost coded = { Prim.hlevel (codes, tree.the_row.coded, body.the_row.coded) };

    ghost view = { λ e. record { parts = e.sig.now; bank = e.bank } };

    ghost invariant = { λ e. AreRight e.sig.now e.bank e.memo.places.items };
}

impl<'s> Evaluator<'s> {
    /// An evaluator by a signature, with the values of a bank. It takes no memory.
    pub fn new(alloc: Global, sig: &'s Sig, bank: ValueBank) -> Evaluator<'s>
        ensures { result ≡ record { parts = sig.now; bank = bank } }
    {
        Evaluator {
            alloc,
            sig,
            bank,
            memo: Memo::new(alloc),
            buffers: Buffers::new(alloc),
        }
    }

    /// Does nothing. Its contract says that no two ids of its bank have one value.
    pub fn shared(&self)
        ensures { IsShared self.now.bank }
    {
        self.bank.shared()
    }

    /// What a symbol gives of values, evaluated, with the full budget.
    fn evaluated(&mut self, sym: SymId, ids: &[ValueId]) -> Result<ValueId, EvalErr>
        requires held { AreOf self.old.bank ids.now }
        requires few { length ids.now < 2 ^ 32 }
        ensures gives { IfOk result (Gives self.old.parts self.new.bank sym ids.now) }
        ensures over { IsErrOf result EvalErr.Over → applied_value self.old.parts sym self.old.bank ids.now ≡ None }
        ensures extends { Extends self.old self.new }
    {
        let budget = self.sig.settings().budget;
        let (value, _) = apply_with(
            &mut self.buffers,
            self.alloc,
            self.sig,
            &mut self.bank,
            sym,
            ids,
            budget,
        )?;
        Ok(value)
    }

    /// What a symbol gives of values, with the full budget. Of at most three values it is kept, and is not evaluated where it is
    /// known.
    pub fn apply(&mut self, sym: SymId, ids: &[ValueId]) -> Result<ValueId, EvalErr>
        requires held { AreOf self.old.bank ids.now }
        requires few { length ids.now < 2 ^ 32 }
        ensures gives { IfOk result (Gives self.old.parts self.new.bank sym ids.now) }
        ensures over { IsErrOf result EvalErr.Over → applied_value self.old.parts sym self.old.bank ids.now ≡ None }
        ensures extends { Extends self.old self.new }
    {
        let Some(key) = key_of(sym, ids) else {
            return self.evaluated(sym, ids);
        };
        if let Some(value) = self.memo.get(&key) {
            return Ok(value);
        }
        let value = self.evaluated(sym, ids)?;
        self.memo.keep(self.alloc, Known { key, value })?;
        Ok(value)
    }

    /// The value of a term at a test, node by node, each application with the full budget.
    pub fn value(&mut self, tester: &Tester, test: u64, term: &Tree) -> Result<ValueId, EvalErr>
        requires ready { AreReady tester.now.sig.now self.old tester.now.pools.now }
        requires test { test < tests_by tester.now.sig.now }
        requires term { IsTestable tester.now.sig.now term.now }
        ensures value { IfOk result (IsValue tester.now.sig.now self.new.bank test term.now) }
        ensures over { IsErrOf result EvalErr.Over → val_by tester.now.sig.now test term.now ≡ None }
        ensures extends { Extends self.old self.new }
    {
        match term {
            Tree::Var(sort, index) => Ok(tester.pools.value_at(test, *sort, *index)),
            Tree::App(head, args) => {
                let _well_formed = tester.sig.settings();
                let args = args.as_slice();
                let mut row = [ValueId(0); 8];
                for (at, arg) in args.iter().enumerate() {
                    row[at] = self.value(tester, test, arg)?;
                }
                self.apply(*head, &row[..args.len()])
            }
        }
    }
}
