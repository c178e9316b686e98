//! Terms far larger than what they take in a bank, and terms far deeper than a stack: what calls make of them, by their ids.
ghost use Rattle.std.specs.Prelude.{IfOk, ◌+◌, ◌<◌, ◌^◌};
ghost use Rattle.law_bank.specs.Terms.{tree_of};
ghost use Rattle.law_bank.specs.Bank.{IsOf, Grows};
ghost use Rattle.law_acceptance.specs.Low.{IsLow};

use bumpalo::Bump;
use law_sig::{NoMemory, Seq, SortId, SymId};
use law_term::{Head, Pos, Subst, Term, TermBank, size, weight};
use std::alloc::Global;

/// What stands over a term, again and again.
#[derive(Clone, Copy)]
enum Shape {
    /// A symbol with the term as each of its two arguments.
    Wide,
    /// A symbol with one argument.
    Deep,
}

const TWICE: SymId = SymId(0);

const ONCE: SymId = SymId(1);

const ONLY: SortId = SortId(0);

/// A bank without terms: each symbol weighs 1, and there is one sort.
fn bank<'a>(alloc: Global, arena: &'a Bump<Global>) -> TermBank<'a> {
    TermBank::new(alloc, arena, Seq::new(alloc), Seq::new(alloc))
}

/// A term on the way: a loop moves it along, which it can't do with a reference.
#[derive(Clone, Copy)]
pub struct Top<'a> {
    pub term: Term<'a>,
}

/// A symbol over a term.
fn once<'a>(bank: &mut TermBank<'a>, term: Term<'a>) -> Result<Term<'a>, NoMemory>
    requires held { IsOf bank.old term.now }
    requires low { IsLow (tree_of term.now) }
    ensures held { IfOk result (λ t. IsOf bank.new t.now) }
    ensures low { IfOk result (λ t. IsLow (tree_of t.now)) }
{
    let mut args = Vec::new(bank.alloc());
    let Ok(()) = args.push(term) else {
        return Err(NoMemory);
    };
    bank.intern(Head::Sym(ONCE), args.as_slice())
}

/// A symbol over two terms.
fn twice<'a>(bank: &mut TermBank<'a>, left: Term<'a>, right: Term<'a>) -> Result<Term<'a>, NoMemory>
    requires left { IsOf bank.old left.now }
    requires right { IsOf bank.old right.now }
    requires low_left { IsLow (tree_of left.now) }
    requires low_right { IsLow (tree_of right.now) }
    ensures held { IfOk result (λ t. IsOf bank.new t.now) }
    ensures low { IfOk result (λ t. IsLow (tree_of t.now)) }
    ensures grows { Grows bank.old bank.new }
{
    let mut args = Vec::new(bank.alloc());
    let Ok(()) = args.push(left) else {
        return Err(NoMemory);
    };
    let Ok(()) = args.push(right) else {
        return Err(NoMemory);
    };
    bank.intern(Head::Sym(TWICE), args.as_slice())
}

fn more<'a>(bank: &mut TermBank<'a>, term: Term<'a>, shape: Shape) -> Result<Term<'a>, NoMemory>
    requires held { IsOf bank.old term.now }
    requires low { IsLow (tree_of term.now) }
    ensures held { IfOk result (λ t. IsOf bank.new t.now) }
    ensures low { IfOk result (λ t. IsLow (tree_of t.now)) }
{
    match shape {
        Shape::Wide => twice(bank, term, term),
        Shape::Deep => once(bank, term),
    }
}

/// A term with the shape over it, so many times.
fn over<'a>(
    bank: &mut TermBank<'a>,
    below: Term<'a>,
    shape: Shape,
    times: u32,
) -> Result<Term<'a>, NoMemory>
    requires held { IsOf bank.old below.now }
    requires low { IsLow (tree_of below.now) }
    ensures held { IfOk result (λ t. IsOf bank.new t.now) }
    ensures low { IfOk result (λ t. IsLow (tree_of t.now)) }
{
    let mut top = Top { term: below };
    for _ in 0..times {
        let term = more(bank, top.term, shape)?;
        top = Top { term };
    }
    Ok(top.term)
}

/// The same over a variable.
fn tower<'a>(
    bank: &mut TermBank<'a>,
    index: u32,
    shape: Shape,
    times: u32,
) -> Result<Term<'a>, NoMemory>
    requires { index + 3 < 2 ^ 32 }
    ensures held { IfOk result (λ t. IsOf bank.new t.now) }
    ensures low { IfOk result (λ t. IsLow (tree_of t.now)) }
{
    let below = bank.intern(Head::Var(ONLY, index), &[])?;
    over(bank, below, shape, times)
}

/// The size and the weight.
fn measured(alloc: Global, shape: Shape, times: u32) -> Result<(u64, u64), NoMemory> {
    let arena = Bump::new(alloc);
    let mut bank = bank(alloc, &arena);
    let term = tower(&mut bank, 1, shape, times)?;
    Ok((size(term), weight(term)))
}

const MEASURED: &[(Shape, u32, u64)] = &[
    (Shape::Wide, 0, 1),
    (Shape::Wide, 3, 15),
    (Shape::Wide, 62, 9_223_372_036_854_775_807),
    (Shape::Wide, 63, u64::MAX),
    (Shape::Wide, 64, u64::MAX),
    (Shape::Wide, 100, u64::MAX),
    (Shape::Deep, 5_000, 5_001),
];

fn measured_are(alloc: Global) -> bool {
    for (shape, times, expected) in MEASURED {
        if measured(alloc, *shape, *times) != Ok((*expected, *expected)) {
            return false;
        }
    }
    true
}

#[test]
fn sizes_and_weights(rt: HostRuntime) {
    assert!(rt; measured_are(rt.alloc()));
}

fn is_flat(alloc: Global, shape: Shape, times: u32) -> Result<bool, NoMemory> {
    let arena = Bump::new(alloc);
    let mut bank = bank(alloc, &arena);
    let term = tower(&mut bank, 1, shape, times)?;
    let made = bank.flatten(term)?;
    let expected = tower(&mut bank, 0, shape, times)?;
    Ok(made.id == expected.id)
}

fn is_shifted(alloc: Global, shape: Shape, times: u32) -> Result<bool, NoMemory> {
    let arena = Bump::new(alloc);
    let mut bank = bank(alloc, &arena);
    let term = tower(&mut bank, 1, shape, times)?;
    let made = bank.shift(term, 3)?;
    let expected = tower(&mut bank, 4, shape, times)?;
    Ok(made.id == expected.id)
}

fn is_tidy(alloc: Global, shape: Shape, times: u32) -> Result<bool, NoMemory> {
    let arena = Bump::new(alloc);
    let mut bank = bank(alloc, &arena);
    let term = tower(&mut bank, 7, shape, times)?;
    let made = bank.tidy(term, term)?;
    let expected = tower(&mut bank, 0, shape, times)?;
    Ok(made.left.id == expected.id && made.right.id == expected.id)
}

/// The term put for its own variable.
fn is_put(alloc: Global, shape: Shape, times: u32) -> Result<bool, NoMemory> {
    let arena = Bump::new(alloc);
    let mut bank = bank(alloc, &arena);
    let term = tower(&mut bank, 1, shape, times)?;
    let mut map = Subst::new(alloc);
    map.bind(ONLY, 1, term)?;
    let made = bank.subst(term, &map)?;
    let once = tower(&mut bank, 1, shape, times)?;
    let expected = over(&mut bank, once, shape, times)?;
    Ok(made.id == expected.id)
}

fn has_one_variable(alloc: Global, shape: Shape, times: u32) -> Result<bool, NoMemory> {
    let arena = Bump::new(alloc);
    let mut bank = bank(alloc, &arena);
    let term = tower(&mut bank, 1, shape, times)?;
    let found = bank.variables(&[term])?;
    Ok(found.as_slice() == [(ONLY, 1)].as_slice())
}

/// The place of first arguments, so deep.
fn first_places(alloc: Global, depth: u32) -> Result<Pos, NoMemory> {
    let mut place = Pos::new(alloc);
    for _ in 0..depth {
        place.push(0)?;
    }
    Ok(place)
}

/// The id of a term with itself put at the place of first arguments, so deep.
fn put_at<'a>(bank: &mut TermBank<'a>, term: Term<'a>, depth: u32) -> Result<Option<u64>, NoMemory>
    requires { IsOf bank.old term.now }
{
    let place = first_places(bank.alloc(), depth)?;
    match bank.replace_at(term, &place, term)? {
        Some(made) => Ok(Some(made.id)),
        None => Ok(None),
    }
}

/// A wide tower, and the one below it on its right.
fn leaning<'a>(bank: &mut TermBank<'a>, times: u32) -> Result<Term<'a>, NoMemory> {
    let below = tower(bank, 1, Shape::Wide, times)?;
    let term = twice(bank, below, below)?;
    twice(bank, term, below)
}

/// The term put in the place of its own first argument.
fn is_replaced_wide(alloc: Global, times: u32) -> Result<bool, NoMemory> {
    let arena = Bump::new(alloc);
    let mut bank = bank(alloc, &arena);
    let below = tower(&mut bank, 1, Shape::Wide, times)?;
    let term = more(&mut bank, below, Shape::Wide)?;
    let made = put_at(&mut bank, term, 1)?;
    let expected = leaning(&mut bank, times)?;
    Ok(made == Some(expected.id))
}

/// The term put in the place of its own variable.
fn is_replaced_deep(alloc: Global, times: u32) -> Result<bool, NoMemory> {
    let arena = Bump::new(alloc);
    let mut bank = bank(alloc, &arena);
    let term = tower(&mut bank, 1, Shape::Deep, times)?;
    let made = put_at(&mut bank, term, times)?;
    let below = tower(&mut bank, 1, Shape::Deep, times)?;
    let expected = over(&mut bank, below, Shape::Deep, times)?;
    Ok(made == Some(expected.id))
}

#[test]
fn flatten_and_tidy(rt: HostRuntime) {
    let alloc = rt.alloc();
    assert!(rt; is_flat(alloc, Shape::Wide, 100) == Ok(true));
    assert!(rt; is_flat(alloc, Shape::Deep, 5_000) == Ok(true));
    assert!(rt; is_tidy(alloc, Shape::Wide, 100) == Ok(true));
    assert!(rt; is_tidy(alloc, Shape::Deep, 5_000) == Ok(true));
}

#[test]
fn shift_and_subst(rt: HostRuntime) {
    let alloc = rt.alloc();
    assert!(rt; is_shifted(alloc, Shape::Wide, 100) == Ok(true));
    assert!(rt; is_shifted(alloc, Shape::Deep, 5_000) == Ok(true));
    assert!(rt; is_put(alloc, Shape::Wide, 100) == Ok(true));
    assert!(rt; is_put(alloc, Shape::Deep, 5_000) == Ok(true));
}

#[test]
fn replace_at(rt: HostRuntime) {
    let alloc = rt.alloc();
    assert!(rt; is_replaced_wide(alloc, 100) == Ok(true));
    assert!(rt; is_replaced_deep(alloc, 5_000) == Ok(true));
}

#[test]
fn variables(rt: HostRuntime) {
    let alloc = rt.alloc();
    assert!(rt; has_one_variable(alloc, Shape::Wide, 100) == Ok(true));
    assert!(rt; has_one_variable(alloc, Shape::Deep, 5_000) == Ok(true));
}
