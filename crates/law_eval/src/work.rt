ghost use Rattle.std.specs.Prelude.{◌≡◌, ◌+◌, [], ◌∷◌, ◌++◌, ◌⊎◌, List, Some, None, slice_get, MatchOption, length, OnOk, IfOk, IsErrOf};
ghost use Rattle.law_eval.specs.Work.{ids_of, todo_of, running, Ids, Running, IsAdded, IsTaken, LacksRow, IsLeft, IsSpread, IsFirst, IsAnswer};
ghost use Rattle.law_eval.specs.Work.Todo.{eval, each, apply, leave};
ghost use Rattle.law_ids.specs.declared.ids.ValueId.{ValueId};

use super::error::EvalErr;
use law_sig::{Body, SymId};
use law_value::ValueId;
use std::alloc::Global;

/// Something that is left to do.
#[derive(Clone, Copy)]
pub enum Task<'s> {
    /// Add the value of this body of the function that runs to the last row.
    Eval(&'s Body),
    /// Do so with each of these, from left to right.
    Each(&'s [Body]),
    /// Take the last row, which has so many values, and add what the constructor makes of it to the row below.
    Build(SymId, u32),
    /// Take the last row, which has so many values, and add what the symbol gives of it to the row below.
    Apply(SymId, u32),
    /// The function that runs is done.
    Leave,
}

/// A function that runs: the value that it matched, whose fields a body may name, and its arguments.
#[derive(Drop)]
pub struct Frame {
    pub matched: Option<ValueId>,
    pub params: Vec<ValueId>,
}

/// An evaluation under way. The last of each list is the one that comes next: the task that is done next, the row that
/// takes the next value, the function that runs. `left` is what is left of the budget. Rows that were given back are `spare`;
/// what stands in them counts for nothing.
#[derive(Drop)]
pub struct Work<'s> {
    pub tasks: Vec<Task<'s>>,
    pub rows: Vec<Vec<ValueId>>,
    pub frames: Vec<Frame>,
    pub left: u64,
    pub spare: Vec<Vec<ValueId>>,
}

/// An empty row: one that was given back, if there is one.
fn empty_row(alloc: Global, spare: &mut Vec<Vec<ValueId>>) -> Vec<ValueId>
    ensures { result.items ≡ [] }
{
    let Some(mut row) = spare.pop() else {
        return Vec::new(alloc);
    };
    row.clear();
    row
}

/// Gives a row back. Without memory for that, it goes.
pub fn give_back(spare: &mut Vec<Vec<ValueId>>, row: Vec<ValueId>) {
    let _ = spare.push(row);
}

/// Takes all rows away, and gives the last one back: after an answer there is no other.
fn take_all(rows: &mut Vec<Vec<ValueId>>, spare: &mut Vec<Vec<ValueId>>)
    ensures { rows.new.items ≡ [] }
{
    if let Some(row) = rows.pop() {
        give_back(spare, row);
    }
    rows.clear();
}

impl<'s> Work<'s> {
    /// Nothing to do. It takes no memory.
    pub fn new(alloc: Global) -> Work<'s> {
        Work {
            tasks: Vec::new(alloc),
            rows: Vec::new(alloc),
            frames: Vec::new(alloc),
            left: 0,
            spare: Vec::new(alloc),
        }
    }

    /// The work of applying a symbol to these values, and nothing else, in the room of what was done before.
    pub fn begin(
        &mut self,
        alloc: Global,
        sym: SymId,
        count: u32,
        args: &[ValueId],
        budget: u64,
    ) -> Result<(), EvalErr>
        ensures ok { OnOk result (ids_of self.new ≡ record { tasks = apply sym count ∷ []; rows = args.now ∷ ([] ∷ []); frames = []; left = budget }) }
        ensures over { IsErrOf result EvalErr.Over → ⊥ }
    {
        take_all(&mut self.rows, &mut self.spare);
        self.rows.push(empty_row(alloc, &mut self.spare))?;
        let mut row = empty_row(alloc, &mut self.spare);
        row.extend_from_slice(args)?;
        self.rows.push(row)?;
        self.tasks.clear();
        self.tasks.push(Task::Apply(sym, count))?;
        self.frames.clear();
        self.left = budget;
        Ok(())
    }

    /// Adds a value to the last row.
    pub fn add(&mut self, value: ValueId) -> Result<(), EvalErr>
        ensures ok { OnOk result (IsAdded (ids_of self.old) value (ids_of self.new)) }
        ensures over { IsErrOf result EvalErr.Over → (ids_of self.old).rows ≡ [] }
    {
        let Some(mut row) = self.rows.pop() else {
            return Err(EvalErr::Over);
        };
        row.push(value)?;
        self.rows.push(row)?;
        Ok(())
    }

    /// Takes the last row, which has to have so many values.
    pub fn take_row(&mut self, count: u32) -> Result<Vec<ValueId>, EvalErr>
        ensures ok { IfOk result (λ row. IsTaken (ids_of self.old) row.items count (ids_of self.new)) }
        ensures over { IsErrOf result EvalErr.Over → LacksRow (ids_of self.old) count }
    {
        let Some(row) = self.rows.pop() else {
            return Err(EvalErr::Over);
        };
        if row.len() != count as usize {
            return Err(EvalErr::Over);
        }
        Ok(row)
    }

    /// Takes 1 from what is left of the budget.
    pub fn pay(&mut self) -> Result<(), EvalErr>
        ensures ok { OnOk result (ids_of self.old ≡ record (ids_of self.new) { left = (ids_of self.new).left + 1 }) }
        ensures over { IsErrOf result EvalErr.Over → (ids_of self.old).left ≡ 0 }
    {
        if self.left == 0 {
            return Err(EvalErr::Over);
        }
        self.left -= 1;
        Ok(())
    }

    /// Begins a row for the values of these bodies, which the next task will take.
    pub fn gather(
        &mut self,
        alloc: Global,
        next: Task<'s>,
        bodies: &'s [Body],
    ) -> Result<(), EvalErr>
        ensures ok { OnOk result (ids_of self.new ≡ record (ids_of self.old) { tasks = each bodies.now ∷ (todo_of next.entry ∷ (ids_of self.old).tasks); rows = [] ∷ (ids_of self.old).rows }) }
        ensures over { IsErrOf result EvalErr.Over → ⊥ }
    {
        self.rows.push(empty_row(alloc, &mut self.spare))?;
        self.tasks.push(next)?;
        self.tasks.push(Task::Each(bodies))?;
        Ok(())
    }

    /// Begins to evaluate the body of a function at these arguments.
    pub fn enter(
        &mut self,
        body: &'s Body,
        matched: Option<ValueId>,
        params: Vec<ValueId>,
    ) -> Result<(), EvalErr>
        ensures ok { OnOk result (ids_of self.new ≡ record (ids_of self.old) { tasks = eval body.now ∷ (leave ∷ (ids_of self.old).tasks); frames = record { matched = matched; params = params.items } ∷ (ids_of self.old).frames }) }
        ensures over { IsErrOf result EvalErr.Over → ⊥ }
    {
        self.frames.push(Frame { matched, params })?;
        self.tasks.push(Task::Leave)?;
        self.tasks.push(Task::Eval(body))?;
        Ok(())
    }

    /// Ends the function that runs.
    pub fn leave(&mut self) -> Result<(), EvalErr>
        ensures ok { OnOk result (IsLeft (ids_of self.old) (ids_of self.new)) }
        ensures over { IsErrOf result EvalErr.Over → (ids_of self.old).frames ≡ [] }
    {
        let Some(frame) = self.frames.pop() else {
            return Err(EvalErr::Over);
        };
        let Frame { matched: _, params } = frame;
        give_back(&mut self.spare, params);
        Ok(())
    }

    /// Evaluates the first of these bodies next, and then the others.
    pub fn spread(&mut self, bodies: &'s [Body]) -> Result<(), EvalErr>
        ensures ok { OnOk result (IsSpread (ids_of self.old) bodies.now (ids_of self.new)) }
        ensures over { IsErrOf result EvalErr.Over → ((ids_of self.old).rows ≡ []) ⊎ ((ids_of self.old).frames ≡ []) }
    {
        if self.rows.is_empty() {
            return Err(EvalErr::Over);
        }
        if self.frames.is_empty() {
            return Err(EvalErr::Over);
        }
        if let [first, rest @ ..] = bodies {
            self.tasks.push(Task::Each(rest))?;
            self.tasks.push(Task::Eval(first))?;
        }
        Ok(())
    }

    /// The function that runs.
    pub fn running(&self) -> Option<&Frame>
        ensures { MatchOption result ((ids_of self.now).frames ≡ []) (λ frame. IsFirst (ids_of self.now).frames (running frame.now)) }
    {
        self.frames.last()
    }

    /// An argument of the function that runs.
    pub fn param(&self, number: u32) -> Result<ValueId, EvalErr>
        ensures ok { IfOk result (λ value. (frame : Running) × IsFirst (ids_of self.now).frames frame × (slice_get frame.params number ≡ Some value)) }
        ensures over { IsErrOf result EvalErr.Over → (frame : Running) → IsFirst (ids_of self.now).frames frame → slice_get frame.params number ≡ None }
    {
        let Some(frame) = self.running() else {
            return Err(EvalErr::Over);
        };
        match frame.params.get(number as usize) {
            Some(value) => Ok(*value),
            None => Err(EvalErr::Over),
        }
    }

    /// The value that stands first in the last row.
    pub fn answer(&self) -> Result<ValueId, EvalErr>
        ensures ok { IfOk result (λ value. IsAnswer (ids_of self.now) value) }
        ensures over { IsErrOf result EvalErr.Over → (value : ValueId) → IsAnswer (ids_of self.now) value → ⊥ }
    {
        let Some(row) = self.rows.last() else {
            return Err(EvalErr::Over);
        };
        match row.first() {
            Some(value) => Ok(*value),
            None => Err(EvalErr::Over),
        }
    }
}
