ghost use Rattle.std.specs.Prelude.{◌≡◌, ℕ, suc, [], ◌<◌, ◌≤◌, length, slice_index_or, IfOk, IsTrue};
ghost use Rattle.std.specs.List.{list_all};
ghost use Rattle.law_sig.specs.Lists.{Each};
ghost use Rattle.law_sig.specs.Signature.{is_declared_sort};
ghost use Rattle.law_sig.specs.WellFormed.{IsWellFormed};
ghost use Rattle.law_sig.specs.declared.tree.SortId.{SortId};
ghost use Rattle.law_draws.specs.Draws.{choices};
ghost use Rattle.law_draws.specs.Choices.{level_of, table_of, is_some_choice};

use law_sig::{NoMemory, Seq, Sig, SortId, SymId};
use std::alloc::Global;

/// The constructors that may be chosen, by the height left, from 0 to this one, and then by sort.
pub fn choices_up_to(
    alloc: Global,
    sig: &Sig,
    height: u32,
) -> Result<Seq<Seq<Seq<SymId>>>, NoMemory>
    requires well_formed { IsWellFormed sig.now }
    requires height { height ≤ 16 }
    ensures { IfOk result (λ table. table ≡ table_of sig.now height) }
{
    let mut levels = Seq::new(alloc);
    levels.push(no_choices(alloc, sig)?)?;
    for below in 0..height {
        let level = level_over(alloc, sig, levels.as_slice()[below as usize].as_slice())?;
        levels.push(level)?;
    }
    Ok(levels)
}

/// For each sort no constructor, since no value has height 0.
fn no_choices(alloc: Global, sig: &Sig) -> Result<Seq<Seq<SymId>>, NoMemory>
    ensures { IfOk result (λ level. level ≡ level_of sig.now 0) }
{
    let mut level = Seq::new(alloc);
    for _ in 0..sig.sorts() {
        level.push(Seq::new(alloc))?;
    }
    Ok(level)
}

/// For each sort its constructors of a height, where these are those of one height less.
fn level_over(alloc: Global, sig: &Sig, below: &[Seq<SymId>]) -> Result<Seq<Seq<SymId>>, NoMemory>
    requires well_formed { IsWellFormed sig.now }
    requires below { length below.now ≡ length sig.now.sort_names }
    ensures { (height : ℕ) → below.now ≡ level_of sig.now height → IfOk result (λ level. level ≡ level_of sig.now (suc height)) }
{
    let mut level = Seq::new(alloc);
    for sort in 0..sig.sorts() {
        level.push(choices_over(alloc, sig, below, SortId(sort))?)?;
    }
    Ok(level)
}

/// The constructors of a sort whose fields all have values by these of one height less.
fn choices_over(
    alloc: Global,
    sig: &Sig,
    below: &[Seq<SymId>],
    sort: SortId,
) -> Result<Seq<SymId>, NoMemory>
    requires well_formed { IsWellFormed sig.now }
    requires below { length below.now ≡ length sig.now.sort_names }
    requires sort { IsTrue (is_declared_sort sig.now sort) }
    ensures { (height : ℕ) → below.now ≡ level_of sig.now height → IfOk result (λ found. found ≡ choices sig.now (suc height) sort) }
{
    let mut found = Seq::new(alloc);
    for sym in sig.constructors(sort) {
        if fits(below, sig.args_of(*sym)) {
            found.push(*sym)?;
        }
    }
    Ok(found)
}

/// Whether each of these sorts has a constructor here.
fn fits(below: &[Seq<SymId>], sorts: &[SortId]) -> bool
    requires { Each (λ (s : SortId). s.0 < length below.now) sorts.now }
    ensures { result ≡ list_all (λ (s : SortId). is_some_choice (slice_index_or below.now s.0 [])) sorts.now }
{
    for sort in sorts {
        if below[sort.0 as usize].len() == 0 {
            return false;
        }
    }
    true
}
