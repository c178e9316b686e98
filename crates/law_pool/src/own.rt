ghost use Rattle.std.specs.Prelude.{◌≡◌, ◌+◌, ◌*◌, ◌^◌, ◌≤◌, ◌<◌, ◌++◌, ◌||◌, slice_index_or, IfOk, OnOk};
ghost use Rattle.law_sig.specs.Tests.{assignments};
ghost use Rattle.law_sig.specs.declared.parts.SigParts.{SigParts};
ghost use Rattle.law_own.specs.Own.{VarSet, own, IsOwn, IsNextOwn, stands, vars_of};
ghost use Rattle.law_pool.specs.Wheels.{IsTrackOf, turned, places_of, where_wanted, wheels_in, ways_in, sort_slots};

use law_sig::{NoMemory, Seq, Sig, SortId, Tree};
use std::alloc::Global;
use std::marker::Model;

/// A variable whose places are counted: what one place more adds to a test's number, and how many places there are.
#[derive(Clone, Copy, Debug)]
struct Wheel {
    step: u64,
    width: u32,
}

/// The own tests of the variables of two terms: those at which all other variables read place 0. Contracts see a wheel for
/// each of these variables, and how many tests a pool has.
#[derive(Debug, Drop)]
pub struct OwnTests {
    wheels: Seq<Wheel>,
    assignments: u64,
}

impl Model for OwnTests {
    ghost use Rattle.law_pool.specs.Wheels.{Track, AreSound};

    ghost Value = { Track };

    ghost view = { λ own. record { wheels = own.wheels; above = own.assignments } };

    ghost invariant = { λ own. AreSound own.wheels own.assignments };
}

/// Whether a variable stands in a term.
fn stands(term: &Tree, sort: SortId, index: u32) -> bool
    ensures { result ≡ stands sort index term.now }
{
    match term {
        Tree::Var(own, number) => own.0 == sort.0 && *number == index,
        Tree::App(_, args) => {
            for arg in args.as_slice() {
                if stands(arg, sort, index) {
                    return true;
                }
            }
            false
        }
    }
}

/// The number at a place of a list, and this one where there is none.
fn number_at(numbers: &[u32], at: u32, other: u32) -> u32
    ensures { result ≡ slice_index_or numbers.now at other }
{
    match numbers.get(at as usize) {
        Some(found) => *found,
        None => other,
    }
}

/// Adds the wheel of a variable, where it stands in one of these terms.
fn push_wheel(
    wheels: &mut Seq<Wheel>,
    left: &Tree,
    right: &Tree,
    sort: SortId,
    index: u32,
    wheel: Wheel,
) -> Result<(), NoMemory>
    ensures { OnOk result (wheels.new ≡ wheels.old ++ where_wanted (vars_of left.now right.now sort index) wheel) }
{
    if stands(left, sort, index) || stands(right, sort, index) {
        wheels.push(wheel)
    } else {
        Ok(())
    }
}

/// Adds the wheels of a sort's variables that stand in one of these terms, and gives the step of the variable after them.
fn push_wheels(
    wheels: &mut Seq<Wheel>,
    sig: &Sig,
    left: &Tree,
    right: &Tree,
    sort: u32,
    first: u64,
) -> Result<u64, NoMemory>
    requires few { first * ways_in (sort_slots sig.now (vars_of left.now right.now) sort) ≤ 4096 }
    ensures wheels { OnOk result (wheels.new ≡ wheels.old ++ wheels_in (sort_slots sig.now (vars_of left.now right.now) sort) first) }
    ensures step { IfOk result (λ step. step ≡ first * ways_in (sort_slots sig.now (vars_of left.now right.now) sort)) }
{
    let settings = sig.settings();
    let vars = number_at(settings.vars.as_slice(), sort, 0);
    let width = number_at(settings.width.as_slice(), sort, 1);
    let mut step = first;
    for index in 0..vars {
        push_wheel(
            wheels,
            left,
            right,
            SortId(sort),
            index,
            Wheel { step, width },
        )?;
        step *= width as u64;
    }
    Ok(step)
}

impl OwnTests {
    /// The own tests of the variables of two terms of a signature, whose variables can be given places in at most 4,096 ways.
    pub fn of(alloc: Global, sig: &Sig, left: &Tree, right: &Tree) -> Result<OwnTests, NoMemory>
        requires { assignments sig.now ≤ 4096 }
        ensures { IfOk result (IsTrackOf sig.now (vars_of left.now right.now)) }
    {
        let mut wheels = Seq::new(alloc);
        let mut step = 1u64;
        for sort in 0..sig.settings().vars.len() as u32 {
            step = push_wheels(&mut wheels, sig, left, right, sort, step)?;
        }
        Ok(OwnTests {
            wheels,
            assignments: step,
        })
    }

    /// One turn of the wheels.
    fn turn(&self, test: u64) -> u64
        requires { test < 2 ^ 63 }
        ensures { result ≡ turned self.now.above self.now.wheels test }
    {
        let mut at = test;
        for wheel in self.wheels.as_slice() {
            let width = wheel.width as u64;
            let place = at / wheel.step % width;
            if place + 1 < width {
                return at + wheel.step;
            }
            at -= place * wheel.step;
        }
        at + self.assignments
    }

    /// The next own test after an own test: there is none between. It is found without a walk through those between.
    pub fn next(&self, test: u64) -> u64
        requires { test < 2 ^ 63 }
        ensures { (parts : SigParts) (vars : VarSet) → IsTrackOf parts vars self.now → IsOwn parts vars test → IsNextOwn parts vars test result }
    {
        self.turn(test)
    }

    /// The own test of a test: the variables read the places that they read there, and all others place 0.
    pub fn own(&self, test: u64) -> u64
        requires { test < 2 ^ 63 }
        ensures { (parts : SigParts) (vars : VarSet) → IsTrackOf parts vars self.now → result ≡ own parts vars test }
    {
        let mut own = test - test % self.assignments;
        for wheel in self.wheels.as_slice() {
            own += test / wheel.step % wheel.width as u64 * wheel.step;
        }
        own
    }
}
