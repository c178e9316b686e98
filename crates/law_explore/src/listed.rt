ghost use Rattle.std.specs.Prelude.{◌≤◌, IfOk, IfErr};
ghost use Rattle.law_sig.specs.Tests.{assignments};
ghost use Rattle.law_ids.specs.Values.{Grows};
ghost use Rattle.law_draws.specs.Draws.{pools_by};
ghost use Rattle.law_lines.specs.Signature.{IsRawSig};
ghost use Rattle.law_testing.specs.Evaluators.{AreReady, Extends};
ghost use Rattle.law_testing.specs.Values.{ArePools};
ghost use Rattle.law_explore.specs.LawList.{AreLaws, IsLawListOf, OneRefusal, NoneWithin};
ghost use Rattle.law_explore.specs.Refusals.{IsRefusal, HasLargeValue, HasSmallValues, HasLackingTerm, IsTold};
ghost use Rattle.law_explore.specs.Named.{IsNamedLawList};

use super::background::check_background;
use super::classes::classes_of;
use super::explore::universe;
use super::firsts::first_same;
use super::laws::equations;
use super::named::named_list;
use super::refusal::ExploreErr;
use law_cert_text::LawList;
use law_gen::GenErr;
use law_lines::RawSig;
use law_pool::Pools;
use law_sig::{Equation, Seq, Sig, Tree};
use law_test::{Evaluator, Tester, pools_of};
use law_value::ValueBank;
use std::alloc::Global;

/// The pools of a signature, by pool, sort and place, and its laws.
#[derive(Debug, Drop)]
pub struct Listed {
    pub pools: Seq<Seq<Seq<Tree>>>,
    pub laws: Seq<Equation>,
}

/// The pools of a signature, given or from its seed, in which no value is too large.
fn small_pools(alloc: Global, sig: &Sig, bank: &mut ValueBank) -> Result<Pools, ExploreErr>
    requires { assignments sig.now ≤ 4096 }
    ensures pools { IfOk result (λ pools. ArePools sig.now bank.new pools) }
    ensures small { IfOk result (λ pools. HasSmallValues sig.now) }
    ensures large { IfErr result (IsTold sig.now (HasLargeValue sig.now)) }
    ensures grows { Grows bank.old bank.new }
{
    match pools_of(alloc, sig, bank) {
        Ok(pools) => Ok(pools),
        Err(GenErr::ValueTooLarge { pool, sort }) => Err(ExploreErr::ValueTooLarge { pool, sort }),
        Err(GenErr::NoMemory) => Err(ExploreErr::NoMemory),
    }
}

/// The laws that hold at every test: for each term of the universe that isn't the least of its values, the equation
/// with the least.
fn laws_of(tester: &Tester, evaluator: &mut Evaluator<'_>) -> Result<Seq<Equation>, ExploreErr>
    requires { AreReady tester.now.sig.now evaluator.old tester.now.pools.now }
    ensures laws { IfOk result (AreLaws tester.now.sig.now) }
    ensures lacks { IfErr result (IsTold tester.now.sig.now (HasLackingTerm tester.now.sig.now (pools_by tester.now.sig.now))) }
    ensures extends { Extends evaluator.old evaluator.new }
{
    let terms = universe(tester.alloc, tester.sig)?;
    let classes = classes_of(tester, evaluator, &terms)?;
    evaluator.shared();
    let firsts = first_same(tester.alloc, classes)?;
    Ok(equations(tester.alloc, terms.as_slice(), firsts.as_slice())?)
}

/// The law list of a signature, which covers its universe of at most so many terms, by numbers.
fn by_numbers(alloc: Global, sig: &Sig, terms: u64) -> Result<Listed, ExploreErr>
    ensures listed { IfOk result (λ listed. IsLawListOf sig.now terms listed.pools listed.laws) }
    ensures refused { IfErr result (IsTold sig.now (IsRefusal sig.now terms)) }
{
    let Some(_) = sig.assignments() else {
        return Err(ExploreErr::Assignments);
    };
    let Some(_) = sig.terms_up_to(alloc, terms)? else {
        return Err(ExploreErr::TooManyTerms);
    };
    let mut bank = ValueBank::new(alloc);
    let pools = small_pools(alloc, sig, &mut bank)?;
    let written = pools.written(alloc, &bank)?;
    let tester = Tester {
        alloc,
        sig,
        pools: &pools,
    };
    let mut evaluator = Evaluator::new(alloc, sig, bank);
    check_background(&tester, &mut evaluator)?;
    let laws = laws_of(&tester, &mut evaluator)?;
    Ok(Listed {
        pools: written,
        laws,
    })
}

/// The law list of a signature with these lines, which covers its universe of at most so many terms; the grammar of law
/// lists spells it. Each error but want of memory tells the first cause that there is.
pub fn plain(alloc: Global, raw: RawSig, sig: &Sig, terms: u64) -> Result<LawList, ExploreErr>
    requires { IsRawSig raw }
    ensures listed { IfOk result (IsNamedLawList raw sig.now terms) }
    ensures refused { IfErr result (IsTold sig.now (IsRefusal sig.now terms)) }
{
    let Listed { pools, laws } = by_numbers(alloc, sig, terms)?;
    Ok(named_list(alloc, raw, sig, pools.as_slice(), laws.as_slice())?)
}

/// Does nothing. Its contract says of every signature that it has at most one refusal, and none within its limits.
pub fn refusal_laws()
    ensures one { OneRefusal }
    ensures none { NoneWithin }
{}
