ghost use Rattle.std.specs.Prelude.{◌≡◌, ◌<◌, ◌≤◌, ◌∷◌, length, IfOk, IfErr, OnOk, IsErrOf, None};
ghost use Rattle.indexmap.specs.IndexMap.{get};
ghost use Rattle.law_sig.specs.Lists.{Each};
ghost use Rattle.law_sig.specs.WellFormed.{IsWellFormed};
ghost use Rattle.law_ids.specs.Values.{AreOf};
ghost use Rattle.law_draws.specs.Draws.{pools_by};
ghost use Rattle.law_testing.specs.Evaluators.{AreReady, Extends};
ghost use Rattle.law_testing.specs.Values.{IsTestable, IsValue, Both, applied_value, tests_by, val_by};
ghost use Rattle.law_test.specs.Words.{same_items};
ghost use Rattle.law_explore.specs.Universe.{IsUniverse};
ghost use Rattle.law_explore.specs.Refusals.{LacksValue, HasLackingTerm, IsTold};
ghost use Rattle.law_explore.specs.Values.{AreIds, IsVector, IsPlaced, HasClass, AreArgsPlaced, HasArgClasses, HasArgVectors, HasVector, IsRead, IsMadeIn, id_of, ids_at};
ghost use Rattle.law_explore.specs.Classes.{AreDistinct, AddsVectors, IsLearned, Remembers, AreClasses};

use super::refusal::{ExploreErr, over};
use indexmap::{IndexMap, IndexSet};
use law_eval::EvalErr;
use law_sig::{NoMemory, Seq, SymId, Tree};
use law_test::{Evaluator, TermTable, Tester};
use law_value::ValueId;
use std::alloc::Global;

/// The classes of these terms, which stand in a table, each at a place that has one.
fn classes_at(
    alloc: Global,
    table: &TermTable,
    classes: &[usize],
    terms: &[Tree],
) -> Result<Seq<usize>, NoMemory>
    requires { Each (IsPlaced table.now classes.now) terms.now }
    ensures { IfOk result (λ found. Both (HasClass table.now classes.now) terms.now found) }
{
    let mut found = Seq::new(alloc);
    for term in terms {
        let Some(place) = table.find(term)? else {
            unreachable!()
        };
        found.push(classes[place])?;
    }
    Ok(found)
}

/// The classes of a term's arguments.
fn arg_classes(
    alloc: Global,
    table: &TermTable,
    classes: &[usize],
    term: &Tree,
) -> Result<Seq<usize>, NoMemory>
    requires { AreArgsPlaced table.now classes.now term.now }
    ensures { IfOk result (λ found. HasArgClasses table.now classes.now term.now found) }
{
    match term {
        Tree::Var(..) => Ok(Seq::new(alloc)),
        Tree::App(_, args) => classes_at(alloc, table, classes, args.as_slice()),
    }
}

/// The value of a symbol at a test, over classes of terms.
fn applied_at(
    evaluator: &mut Evaluator<'_>,
    vectors: &IndexSet<Vec<u64>>,
    test: u64,
    head: SymId,
    classes: &[usize],
) -> Result<ValueId, EvalErr>
    requires read { Each (IsRead vectors.now.keys test) classes.now }
    requires held { AreOf evaluator.old.bank (ids_at vectors.now.keys test classes.now) }
    requires few { length classes.now ≤ 8 }
    ensures value { IfOk result (IsMadeIn (applied_value evaluator.old.parts head evaluator.old.bank (ids_at vectors.now.keys test classes.now)) evaluator.new.bank) }
    ensures over { IsErrOf result EvalErr.Over → applied_value evaluator.old.parts head evaluator.old.bank (ids_at vectors.now.keys test classes.now) ≡ None }
    ensures extends { Extends evaluator.old evaluator.new }
{
    let mut row = [ValueId(0); 8];
    for (at, class) in classes.iter().enumerate() {
        let Some(vector) = vectors.get_index(*class) else {
            unreachable!()
        };
        row[at] = ValueId(vector.as_slice()[test as usize]);
    }
    evaluator.apply(head, &row[..classes.len()])
}

/// The value of a term at a test, where the classes of its arguments are these.
fn value_over(
    tester: &Tester,
    evaluator: &mut Evaluator<'_>,
    vectors: &IndexSet<Vec<u64>>,
    test: u64,
    term: &Tree,
    classes: &[usize],
) -> Result<ValueId, EvalErr>
    requires well_formed { IsWellFormed tester.now.sig.now }
    requires pools { AreReady tester.now.sig.now evaluator.old tester.now.pools.now }
    requires test { test < tests_by tester.now.sig.now }
    requires term { IsTestable tester.now.sig.now term.now }
    requires args { HasArgVectors tester.now.sig.now evaluator.old.bank vectors.now.keys term.now classes.now }
    ensures value { IfOk result (IsValue tester.now.sig.now evaluator.new.bank test term.now) }
    ensures over { IsErrOf result EvalErr.Over → val_by tester.now.sig.now test term.now ≡ None }
    ensures extends { Extends evaluator.old evaluator.new }
{
    match term {
        Tree::Var(..) => evaluator.value(tester, test, term),
        Tree::App(head, _) => applied_at(evaluator, vectors, test, *head, classes),
    }
}

/// The id of a term's value at a test: the one at its own test, where that comes before; else it is asked for.
fn id_at(
    tester: &Tester,
    evaluator: &mut Evaluator<'_>,
    vectors: &IndexSet<Vec<u64>>,
    ids: &[u64],
    own: u64,
    test: u64,
    term: &Tree,
    classes: &[usize],
) -> Result<u64, ExploreErr>
    requires well_formed { IsWellFormed tester.now.sig.now }
    requires pools { AreReady tester.now.sig.now evaluator.old tester.now.pools.now }
    requires test { test < tests_by tester.now.sig.now }
    requires own { val_by tester.now.sig.now own term.now ≡ val_by tester.now.sig.now test term.now }
    requires term { IsTestable tester.now.sig.now term.now }
    requires args { HasArgVectors tester.now.sig.now evaluator.old.bank vectors.now.keys term.now classes.now }
    requires ids { AreIds tester.now.sig.now evaluator.old.bank term.now test ids.now }
    ensures id { IfOk result (λ id. IsValue tester.now.sig.now evaluator.new.bank test term.now (id_of id)) }
    ensures lacks { IfErr result (IsTold tester.now.sig.now (LacksValue tester.now.sig.now (pools_by tester.now.sig.now) term.now)) }
    ensures extends { Extends evaluator.old evaluator.new }
{
    if own < test {
        return Ok(ids[own as usize]);
    }
    match value_over(tester, evaluator, vectors, test, term, classes) {
        Ok(id) => Ok(id.0),
        Err(EvalErr::Over) => Err(over(tester.alloc, tester.sig, term, test)),
        Err(EvalErr::NoMemory) => Err(ExploreErr::NoMemory),
    }
}

/// The ids of a term's values at each test, one application for each own test of its variables.
fn ids_of(
    tester: &Tester,
    evaluator: &mut Evaluator<'_>,
    vectors: &IndexSet<Vec<u64>>,
    term: &Tree,
    classes: &[usize],
) -> Result<Vec<u64>, ExploreErr>
    requires well_formed { IsWellFormed tester.now.sig.now }
    requires pools { AreReady tester.now.sig.now evaluator.old tester.now.pools.now }
    requires term { IsTestable tester.now.sig.now term.now }
    requires args { HasArgVectors tester.now.sig.now evaluator.old.bank vectors.now.keys term.now classes.now }
    ensures ids { IfOk result (λ ids. AreIds tester.now.sig.now evaluator.new.bank term.now (tests_by tester.now.sig.now) ids.items) }
    ensures lacks { IfErr result (IsTold tester.now.sig.now (LacksValue tester.now.sig.now (pools_by tester.now.sig.now) term.now)) }
    ensures extends { Extends evaluator.old evaluator.new }
{
    let own = tester.own_tests(term, term)?;
    let mut ids = Vec::new(tester.alloc);
    for test in 0..tester.tests() {
        let first = own.own(test);
        let id = id_at(
            tester,
            evaluator,
            vectors,
            ids.as_slice(),
            first,
            test,
            term,
            classes,
        )?;
        let Ok(()) = ids.push(id) else {
            return Err(ExploreErr::NoMemory);
        };
    }
    Ok(ids)
}

/// The vector of a term: the ids of its values at each test, and then its sort. It takes no more room than that.
fn vector(
    tester: &Tester,
    evaluator: &mut Evaluator<'_>,
    vectors: &IndexSet<Vec<u64>>,
    term: &Tree,
    classes: &[usize],
) -> Result<Vec<u64>, ExploreErr>
    requires well_formed { IsWellFormed tester.now.sig.now }
    requires pools { AreReady tester.now.sig.now evaluator.old tester.now.pools.now }
    requires term { IsTestable tester.now.sig.now term.now }
    requires args { HasArgVectors tester.now.sig.now evaluator.old.bank vectors.now.keys term.now classes.now }
    ensures vector { IfOk result (λ vector. IsVector tester.now.sig.now evaluator.new.bank term.now vector.items) }
    ensures lacks { IfErr result (IsTold tester.now.sig.now (LacksValue tester.now.sig.now (pools_by tester.now.sig.now) term.now)) }
    ensures extends { Extends evaluator.old evaluator.new }
{
    let mut vector = ids_of(tester, evaluator, vectors, term, classes)?;
    let Some(sort) = tester.sig.sort_of(term) else {
        unreachable!()
    };
    match vector.push(sort.0 as u64) {
        Ok(()) => {
            vector.shrink_to_fit();
            Ok(vector)
        }
        Err(_) => Err(ExploreErr::NoMemory),
    }
}

/// The class of a term: the number of its vector, which is kept once.
fn asked_class(
    tester: &Tester,
    evaluator: &mut Evaluator<'_>,
    vectors: &mut IndexSet<Vec<u64>>,
    term: &Tree,
    classes: &[usize],
) -> Result<usize, ExploreErr>
    requires well_formed { IsWellFormed tester.now.sig.now }
    requires pools { AreReady tester.now.sig.now evaluator.old tester.now.pools.now }
    requires term { IsTestable tester.now.sig.now term.now }
    requires args { HasArgVectors tester.now.sig.now evaluator.old.bank vectors.old.keys term.now classes.now }
    requires distinct { AreDistinct vectors.old.keys }
    ensures class { IfOk result (HasVector tester.now.sig.now evaluator.new.bank vectors.new.keys term.now) }
    ensures lacks { IfErr result (IsTold tester.now.sig.now (LacksValue tester.now.sig.now (pools_by tester.now.sig.now) term.now)) }
    ensures extends { Extends evaluator.old evaluator.new }
    ensures distinct { IfOk result (λ class. AreDistinct vectors.new.keys) }
    ensures adds { IfOk result (λ class. AddsVectors vectors.old.keys vectors.new.keys) }
{
    let found = vector(tester, evaluator, vectors, term, classes)?;
    let Ok((class, _)) = vectors.insert_full(found) else {
        return Err(ExploreErr::NoMemory);
    };
    Ok(class)
}

/// A symbol and classes of arguments as a word.
fn word(alloc: Global, head: SymId, classes: &[usize]) -> Result<Vec<u64>, NoMemory>
    ensures { IfOk result (λ word. word.items ≡ head.0 ∷ classes.now) }
{
    let mut word = Vec::new(alloc);
    let Ok(()) = word.push(head.0 as u64) else {
        return Err(NoMemory);
    };
    for class in classes {
        let Ok(()) = word.push(*class as u64) else {
            return Err(NoMemory);
        };
    }
    word.shrink_to_fit();
    Ok(word)
}

/// The class that is found for a word.
fn recalled(made: &IndexMap<Vec<u64>, usize>, word: &Vec<u64>) -> Option<usize>
    ensures { result ≡ get same_items made.now word.now }
{
    match made.get(word) {
        Some(class) => Some(*class),
        None => None,
    }
}

/// Lets a class be found for a word.
fn remember(
    made: &mut IndexMap<Vec<u64>, usize>,
    word: Vec<u64>,
    class: usize,
) -> Result<(), NoMemory>
    ensures { OnOk result (IsLearned (get same_items made.old) (get same_items made.new) word class) }
{
    match made.insert(word, class) {
        Ok(_) => Ok(()),
        Err(_) => Err(NoMemory),
    }
}

/// The class of a term. An application is in the class of an earlier one with the same symbol and the same classes of
/// arguments, if there is one; else it is asked at the tests.
fn class(
    tester: &Tester,
    evaluator: &mut Evaluator<'_>,
    vectors: &mut IndexSet<Vec<u64>>,
    made: &mut IndexMap<Vec<u64>, usize>,
    term: &Tree,
    classes: &[usize],
) -> Result<usize, ExploreErr>
    requires well_formed { IsWellFormed tester.now.sig.now }
    requires pools { AreReady tester.now.sig.now evaluator.old tester.now.pools.now }
    requires term { IsTestable tester.now.sig.now term.now }
    requires args { HasArgVectors tester.now.sig.now evaluator.old.bank vectors.old.keys term.now classes.now }
    requires distinct { AreDistinct vectors.old.keys }
    requires made { Remembers tester.now.sig.now evaluator.old.bank vectors.old.keys (get same_items made.old) }
    ensures class { IfOk result (HasVector tester.now.sig.now evaluator.new.bank vectors.new.keys term.now) }
    ensures lacks { IfErr result (IsTold tester.now.sig.now (LacksValue tester.now.sig.now (pools_by tester.now.sig.now) term.now)) }
    ensures extends { Extends evaluator.old evaluator.new }
    ensures distinct { IfOk result (λ class. AreDistinct vectors.new.keys) }
    ensures adds { IfOk result (λ class. AddsVectors vectors.old.keys vectors.new.keys) }
    ensures made { IfOk result (λ class. Remembers tester.now.sig.now evaluator.new.bank vectors.new.keys (get same_items made.new)) }
{
    let Tree::App(head, _) = term else {
        return asked_class(tester, evaluator, vectors, term, classes);
    };
    let word = word(tester.alloc, *head, classes)?;
    if let Some(class) = recalled(made, &word) {
        return Ok(class);
    }
    let class = asked_class(tester, evaluator, vectors, term, classes)?;
    remember(made, word, class)?;
    Ok(class)
}

/// The class of each term of the universe, in order. Arguments stand before their term, so their classes are known.
pub fn classes_of(
    tester: &Tester,
    evaluator: &mut Evaluator<'_>,
    terms: &TermTable,
) -> Result<Vec<usize>, ExploreErr>
    requires pools { AreReady tester.now.sig.now evaluator.old tester.now.pools.now }
    requires terms { IsUniverse tester.now.sig.now terms.now }
    ensures classes { IfOk result (λ classes. AreClasses tester.now.sig.now evaluator.new.bank terms.now classes.items) }
    ensures lacks { IfErr result (IsTold tester.now.sig.now (HasLackingTerm tester.now.sig.now (pools_by tester.now.sig.now))) }
    ensures extends { Extends evaluator.old evaluator.new }
{
    let _well_formed = tester.sig.settings();
    let mut vectors = IndexSet::new(tester.alloc);
    let mut made = IndexMap::new(tester.alloc);
    let mut classes = Vec::new(tester.alloc);
    for term in terms.as_slice() {
        let below = arg_classes(tester.alloc, terms, classes.as_slice(), term)?;
        let found = class(
            tester,
            evaluator,
            &mut vectors,
            &mut made,
            term,
            below.as_slice(),
        )?;
        let Ok(()) = classes.push(found) else {
            return Err(ExploreErr::NoMemory);
        };
    }
    Ok(classes)
}
