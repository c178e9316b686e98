ghost use Rattle.std.specs.Prelude.{◌≡◌, ◌↔◌, map, IfOk, IsTrue};
ghost use Rattle.law_named.specs.Named.{term_named, values_named, pool_named, pools_named};

use crate::names::Names;
use law_cert_text::RawValues;
use law_lines::RawTerm;
use law_sig::{NoMemory, Seq, Tree};
use std::alloc::Global;

/// Whether these terms are written so.
fn are_terms(
    alloc: Global,
    names: &Names,
    written: &[RawTerm],
    terms: &[Tree],
) -> Result<bool, NoMemory>
    ensures { IfOk result (λ r. IsTrue r ↔ (map (term_named names.now) written.now ≡ terms.now)) }
{
    if written.len() != terms.len() {
        return Ok(false);
    }
    for (at, raw) in written.iter().enumerate() {
        let term = names.term(alloc, raw)?;
        if !term.is_same(&terms[at]) {
            return Ok(false);
        }
    }
    Ok(true)
}

/// Whether a line gives these values to the sort whose turn it is.
fn are_values(
    alloc: Global,
    names: &Names,
    turn: u64,
    written: &RawValues,
    values: &[Tree],
) -> Result<bool, NoMemory>
    ensures { IfOk result (λ r. IsTrue r ↔ (values_named names.now turn written.now ≡ values.now)) }
{
    if names.sort(&written.sort).0 as u64 != turn {
        return are_terms(alloc, names, &[], values);
    }
    are_terms(alloc, names, written.values.as_slice(), values)
}

/// Whether the lines of a pool give these values.
fn is_pool(
    alloc: Global,
    names: &Names,
    written: &[RawValues],
    pool: &[Seq<Tree>],
) -> Result<bool, NoMemory>
    ensures { IfOk result (λ r. IsTrue r ↔ (pool_named names.now 0 written.now ≡ pool.now)) }
{
    if written.len() != pool.len() {
        return Ok(false);
    }
    for (at, raw) in written.iter().enumerate() {
        if !are_values(alloc, names, at as u64, raw, pool[at].as_slice())? {
            return Ok(false);
        }
    }
    Ok(true)
}

/// Whether the pools of a certificate are these.
pub(crate) fn are_pools(
    alloc: Global,
    names: &Names,
    written: &[Seq<RawValues>],
    pools: &[Seq<Seq<Tree>>],
) -> Result<bool, NoMemory>
    ensures { IfOk result (λ r. IsTrue r ↔ (pools_named names.now written.now ≡ pools.now)) }
{
    if written.len() != pools.len() {
        return Ok(false);
    }
    for (at, raw) in written.iter().enumerate() {
        if !is_pool(alloc, names, raw.as_slice(), pools[at].as_slice())? {
            return Ok(false);
        }
    }
    Ok(true)
}
