ghost use Rattle.std.specs.Prelude.{◌≡◌, ◌↔◌, IfOk, IsTrue};
ghost use Rattle.law_sig.specs.Trees.{schema_of};
ghost use Rattle.law_sig.specs.Signature.{sort_of};
ghost use Rattle.law_sig.specs.Order.{IsBefore};
ghost use Rattle.law_valid.specs.Judged.{HasSides};
ghost use Rattle.law_laws.specs.Derivation.{HasOneSort};
ghost use Rattle.law_checking.specs.Rules.{TellsLemma, TellsKilled, TellsMoved};

use law_agenda::Universe;
use law_replay::{compare, is_general, replays, schema};
use law_sig::{Equation, NoMemory, Sig, Step};
use std::alloc::Global;
use std::cmp::Ordering;

/// Whether both sides of an equation are well-sorted, of one sort.
fn has_one_sort(sig: &Sig, q: &Equation) -> bool
    ensures { IsTrue result ↔ HasOneSort sig.now q.now }
{
    let Some(left) = sig.sort_of(&q.left) else {
        return false;
    };
    let Some(right) = sig.sort_of(&q.right) else {
        return false;
    };
    left.0 == right.0
}

/// Whether both sides of an equation have the same sort, or none has one.
fn has_same_sorts(sig: &Sig, q: &Equation) -> bool
    ensures { IsTrue result ↔ (sort_of sig.now q.now.left ≡ sort_of sig.now q.now.right) }
{
    match (sig.sort_of(&q.left), sig.sort_of(&q.right)) {
        (Some(left), Some(right)) => left.0 == right.0,
        (None, None) => true,
        _ => false,
    }
}

/// Whether the right side's schema stands before the left side's.
fn falls(alloc: Global, sig: &Sig, q: &Equation) -> Result<bool, NoMemory>
    requires { HasSides sig.now q.now }
    ensures { IfOk result (λ falls. IsTrue falls ↔ IsBefore sig.now (schema_of q.now.right) (schema_of q.now.left)) }
{
    let _settings = sig.settings();
    let lower = schema(alloc, &q.right)?;
    let upper = schema(alloc, &q.left)?;
    match compare(sig, &lower, &upper) {
        Ordering::Less => Ok(true),
        Ordering::Equal => Ok(false),
        Ordering::Greater => Ok(false),
    }
}

/// Whether an equation is a lemma: its sides have one sort, and the chain leads from left to right.
pub fn is_lemma(
    alloc: Global,
    sig: &Sig,
    known: &[Equation],
    q: &Equation,
    steps: &[Step],
) -> Result<bool, NoMemory>
    ensures { IfOk result (TellsLemma sig.now known.now q.now steps.now) }
{
    if !has_one_sort(sig, q) {
        return Ok(false);
    }
    let leads = replays(alloc, sig, known, steps, &q.left, &q.right)?;
    Ok(leads)
}

/// Whether a schema is killed by its most general instance and the term that it equals.
pub fn is_killed(
    alloc: Global,
    universe: &Universe<'_>,
    known: &[Equation],
    q: &Equation,
    steps: &[Step],
) -> Result<bool, NoMemory>
    ensures { IfOk result (TellsKilled universe.now known.now q.now steps.now) }
{
    let sig = universe.sig();
    if !universe.has_sides(q) {
        return Ok(false);
    }
    if !is_general(sig, &q.left) {
        return Ok(false);
    }
    let below = falls(alloc, sig, q)?;
    if !below {
        return Ok(false);
    }
    let leads = replays(alloc, sig, known, steps, &q.left, &q.right)?;
    Ok(leads)
}

/// Whether a term is moved to the term that it equals, where it is known whether that is an earlier live one.
pub fn is_moved(
    alloc: Global,
    sig: &Sig,
    known: &[Equation],
    earlier: bool,
    q: &Equation,
    steps: &[Step],
) -> Result<bool, NoMemory>
    ensures { IfOk result (TellsMoved sig.now known.now earlier q.now steps.now) }
{
    if !earlier {
        return Ok(false);
    }
    if !has_same_sorts(sig, q) {
        return Ok(false);
    }
    let leads = replays(alloc, sig, known, steps, &q.left, &q.right)?;
    Ok(leads)
}
