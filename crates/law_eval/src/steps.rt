ghost use Rattle.std.specs.Prelude.{◌≡◌, ◌+◌, ◌≤◌, ◌⊎◌, [], ◌∷◌, Some, None, OnOk, IfOk, IsErrOf, length, slice_get};
ghost use Rattle.law_sig.specs.Lists.{Each};
ghost use Rattle.law_sig.specs.Signature.{symbol_at};
ghost use Rattle.law_sig.specs.WellFormed.{IsWellFormed};
ghost use Rattle.law_sig.specs.declared.parts.SigParts.{SigParts};
ghost use Rattle.law_sig.specs.declared.parts.Sym.TheVariants.{Fun as a_function};
ghost use Rattle.law_ids.specs.Values.{IsOf, AreOf, Grows, tree_of};
ghost use Rattle.law_eval.specs.Work.{ids_of, todo_of, Running, IsFirst};
ghost use Rattle.law_eval.specs.Work.Todo.{eval, apply};
ghost use Rattle.law_eval.specs.Runs.{seen, matched_fields, Stuck};
ghost use Rattle.law_eval.specs.Took.{on_top, IsFrameOf, IsSound, IsBuilt, LacksRows, IsRun, Took};

use super::choose::choose;
use super::error::EvalErr;
use super::work::{Task, Work, give_back};
use law_sig::{Body, Fun, Sig, Sym, SymId};
use law_value::{ValueBank, ValueId};
use std::alloc::Global;

/// A field of the value that the function that runs has matched.
fn field(bank: &ValueBank, work: &Work<'_>, number: u32) -> Result<ValueId, EvalErr>
    requires { Each (IsFrameOf bank.now) (ids_of work.now).frames }
    ensures id { IfOk result (λ value. IsOf bank.now value) }
    ensures ok { IfOk result (λ value. (frame : Running) × IsFirst (ids_of work.now).frames frame × (slice_get (matched_fields bank.now frame.matched) number ≡ Some (tree_of bank.now value))) }
    ensures over { IsErrOf result EvalErr.Over → (frame : Running) → IsFirst (ids_of work.now).frames frame → slice_get (matched_fields bank.now frame.matched) number ≡ None }
{
    let Some(frame) = work.running() else {
        return Err(EvalErr::Over);
    };
    let Some(matched) = frame.matched else {
        return Err(EvalErr::Over);
    };
    if number < bank.fields(matched) {
        Ok(bank.field(matched, number))
    } else {
        Err(EvalErr::Over)
    }
}

/// Evaluates a body: a field or a parameter is there, and for a symbol its arguments come first.
fn eval<'s>(
    alloc: Global,
    bank: &ValueBank,
    work: &mut Work<'s>,
    body: &'s Body,
) -> Result<(), EvalErr>
    requires { IsSound bank.now (on_top (eval body.now) (ids_of work.old)) }
    ensures took { OnOk result ((parts : SigParts) → Took parts bank.now bank.now (on_top (eval body.now) (ids_of work.old)) (ids_of work.new)) }
    ensures over { IsErrOf result EvalErr.Over → (parts : SigParts) → Stuck parts (seen bank.now (on_top (eval body.now) (ids_of work.old))) }
{
    match body {
        Body::Field(number) => {
            let value = field(bank, work, *number)?;
            work.add(value)
        }
        Body::Param(number) => {
            let value = work.param(*number)?;
            work.add(value)
        }
        Body::Make(sym, args) => {
            let count = args.len() as u32;
            work.gather(alloc, Task::Build(*sym, count), args.as_slice())
        }
        Body::Call(sym, args) => {
            let count = args.len() as u32;
            work.gather(alloc, Task::Apply(*sym, count), args.as_slice())
        }
    }
}

/// Takes the last row and adds what the constructor makes of it to the row below, which costs 1.
fn build(bank: &mut ValueBank, work: &mut Work<'_>, sym: SymId, count: u32) -> Result<(), EvalErr>
    requires { Each (AreOf bank.old) (ids_of work.old).rows }
    ensures ok { OnOk result (IsBuilt bank.old bank.new (ids_of work.old) sym count (ids_of work.new)) }
    ensures over { IsErrOf result EvalErr.Over → LacksRows (ids_of work.old) count }
    ensures grows { Grows bank.old bank.new }
{
    let row = work.take_row(count)?;
    work.pay()?;
    let value = bank.make(sym, row.as_slice())?;
    give_back(&mut work.spare, row);
    work.add(value)
}

/// Applies a symbol to the last row: what a constructor makes of it is there, and of a function the body comes first.
/// Either costs 1.
fn call<'s>(
    sig: &'s Sig,
    bank: &mut ValueBank,
    work: &mut Work<'s>,
    sym: SymId,
    count: u32,
) -> Result<(), EvalErr>
    requires well_formed { IsWellFormed sig.now }
    requires sound { IsSound bank.old (on_top (apply sym count) (ids_of work.old)) }
    ensures took { OnOk result (Took sig.now bank.old bank.new (on_top (apply sym count) (ids_of work.old)) (ids_of work.new)) }
    ensures over { IsErrOf result EvalErr.Over → Stuck sig.now (seen bank.old (on_top (apply sym count) (ids_of work.old))) }
    ensures grows { Grows bank.old bank.new }
{
    let Some(symbol) = sig.symbol(sym) else {
        return Err(EvalErr::Over);
    };
    match symbol {
        Sym::Con(_) => build(bank, work, sym, count),
        Sym::Fun(fun) => run_body(sig, bank, work, sym, fun, count),
    }
}

/// Takes the last row as the arguments of a function, and begins to evaluate the body that it takes.
fn run_body<'s>(
    sig: &'s Sig,
    bank: &ValueBank,
    work: &mut Work<'s>,
    sym: SymId,
    fun: &'s Fun,
    count: u32,
) -> Result<(), EvalErr>
    requires well_formed { IsWellFormed sig.now }
    requires declared { symbol_at sig.now sym ≡ Some (a_function fun.now) }
    requires sound { IsSound bank.now (on_top (apply sym count) (ids_of work.old)) }
    ensures took { OnOk result (Took sig.now bank.now bank.now (on_top (apply sym count) (ids_of work.old)) (ids_of work.new)) }
    ensures over { IsErrOf result EvalErr.Over → Stuck sig.now (seen bank.now (on_top (apply sym count) (ids_of work.old))) }
{
    let args = work.take_row(count)?;
    work.pay()?;
    let Some(choice) = choose(sig, bank, fun, args.as_slice()) else {
        return Err(EvalErr::Over);
    };
    work.enter(choice.body, choice.matched, args)
}

/// Does a task.
fn step<'s>(
    alloc: Global,
    sig: &'s Sig,
    bank: &mut ValueBank,
    work: &mut Work<'s>,
    task: Task<'s>,
) -> Result<(), EvalErr>
    requires well_formed { IsWellFormed sig.now }
    requires sound { IsSound bank.old (on_top (todo_of task) (ids_of work.old)) }
    ensures took { OnOk result (Took sig.now bank.old bank.new (on_top (todo_of task.entry) (ids_of work.old)) (ids_of work.new)) }
    ensures over { IsErrOf result EvalErr.Over → Stuck sig.now (seen bank.old (on_top (todo_of task.entry) (ids_of work.old))) }
    ensures grows { Grows bank.old bank.new }
{
    match task {
        Task::Eval(body) => eval(alloc, bank, work, body),
        Task::Each(bodies) => work.spread(bodies),
        Task::Build(sym, count) => build(bank, work, sym, count),
        Task::Apply(sym, count) => call(sig, bank, work, sym, count),
        Task::Leave => work.leave(),
    }
}

/// Does all that is left to do.
pub fn run<'s>(
    alloc: Global,
    sig: &'s Sig,
    bank: &mut ValueBank,
    work: &mut Work<'s>,
) -> Result<(), EvalErr>
    requires well_formed { IsWellFormed sig.now }
    requires sound { IsSound bank.old (ids_of work.old) }
    ensures ran { OnOk result (IsRun sig.now bank.old (ids_of work.old) bank.new (ids_of work.new)) }
    ensures done { OnOk result ((ids_of work.new).tasks ≡ []) }
    ensures over { IsErrOf result EvalErr.Over → Stuck sig.now (seen bank.old (ids_of work.old)) }
    ensures grows { Grows bank.old bank.new }
{
    while let Some(task) = work.tasks.pop() {
        step(alloc, sig, bank, work, task)?;
    }
    Ok(())
}
