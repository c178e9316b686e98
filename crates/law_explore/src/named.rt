ghost use Rattle.std.specs.Prelude.{◌≡◌, ◌+◌, ◌^◌, ◌<◌, ◌↔◌, length, map, IfOk, IsTrue};
ghost use Rattle.law_sig.specs.Lists.{Each};
ghost use Rattle.law_sig.specs.Laws.{IsLaw};
ghost use Rattle.law_lines.specs.Signature.{IsRawSig};
ghost use Rattle.law_typing.specs.Naming.{named_term};
ghost use Rattle.law_typing.specs.Typed.{HasFewSorts};
ghost use Rattle.law_draws.specs.Draws.{pools_by};
ghost use Rattle.law_cert_text.specs.Certificates.{IsListText};
ghost use Rattle.law_explore.specs.Refusals.{HasSmallValues};
ghost use Rattle.law_explore.specs.Named.{HasFewLaws, named_laws, named_list, named_pools, named_values};

use law_cert_text::{Entry, LawList, Mark, RawValues};
use law_lines::{RawSig, RawTerm};
use law_sig::{Equation, NoMemory, Seq, Sig, SortId, Tree};
use law_types::{name_of_sort, raw_term};
use std::alloc::Global;

/// The law list with its pools and laws by their names, which the grammar spells. More laws than can be numbered are more
/// than memory holds.
pub fn named_list(
    alloc: Global,
    raw: RawSig,
    sig: &Sig,
    pools: &[Seq<Seq<Tree>>],
    laws: &[Equation],
) -> Result<LawList, NoMemory>
    requires signature { IsRawSig raw }
    requires pools { pools.now ≡ pools_by sig.now }
    requires small { HasSmallValues sig.now }
    requires laws { Each (IsLaw sig.now pools.now) laws.now }
    ensures named { IfOk result (λ list. list ≡ named_list raw sig.now pools.now laws.now) }
    ensures spelled { IfOk result IsListText }
{
    let background = sig.settings().background.len();
    if !can_number(background as u64, laws.len() as u64) {
        return Err(NoMemory);
    }
    let pools = named_pools(alloc, sig, pools)?;
    let laws = named_laws(alloc, sig, laws)?;
    Ok(LawList {
        sig: raw,
        pools,
        laws,
    })
}

/// Whether so many equations behind these can be numbered.
fn can_number(before: u64, more: u64) -> bool
    ensures { IsTrue result ↔ (before + more < 2 ^ 63) }
{
    before < (1 << 63) && more < (1 << 63) - before
}

/// The values of each pool, by the names of their sorts.
fn named_pools(
    alloc: Global,
    sig: &Sig,
    pools: &[Seq<Seq<Tree>>],
) -> Result<Seq<Seq<RawValues>>, NoMemory>
    requires { Each HasFewSorts pools.now }
    ensures { IfOk result (λ found. found ≡ named_pools sig.now pools.now) }
{
    let mut found = Seq::new(alloc);
    for pool in pools {
        found.push(named_values(alloc, sig, pool.as_slice())?)?;
    }
    Ok(found)
}

/// The values of each sort, in order.
fn named_values(alloc: Global, sig: &Sig, pool: &[Seq<Tree>]) -> Result<Seq<RawValues>, NoMemory>
    requires { HasFewSorts pool.now }
    ensures { IfOk result (λ found. found ≡ named_values sig.now 0 pool.now) }
{
    let mut found = Seq::new(alloc);
    for (at, values) in pool.iter().enumerate() {
        let sort = name_of_sort(alloc, sig, SortId(at as u32))?;
        let values = named_terms(alloc, sig, values.as_slice())?;
        found.push(RawValues { sort, values })?;
    }
    Ok(found)
}

fn named_terms(alloc: Global, sig: &Sig, trees: &[Tree]) -> Result<Seq<RawTerm>, NoMemory>
    ensures { IfOk result (λ terms. terms ≡ map (named_term sig.now) trees.now) }
{
    let mut terms = Seq::new(alloc);
    for tree in trees {
        terms.push(raw_term(alloc, sig, tree)?)?;
    }
    Ok(terms)
}

/// The laws, numbered after the background.
fn named_laws(alloc: Global, sig: &Sig, laws: &[Equation]) -> Result<Seq<Entry>, NoMemory>
    requires { HasFewLaws sig.now laws.now }
    ensures { IfOk result (λ found. found ≡ named_laws sig.now (length sig.now.settings.background + 1) laws.now) }
{
    let mut number = sig.settings().background.len() as u64 + 1;
    let mut found = Seq::new(alloc);
    for law in laws {
        let left = raw_term(alloc, sig, &law.left)?;
        let right = raw_term(alloc, sig, &law.right)?;
        found.push(Entry::Law {
            number,
            mark: Mark::Plain,
            left,
            right,
        })?;
        number += 1;
    }
    Ok(found)
}
