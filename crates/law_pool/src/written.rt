ghost use Rattle.std.specs.Prelude.{◌≡◌, map, IfOk};
ghost use Rattle.law_sig.specs.Lists.{Each};
ghost use Rattle.law_ids.specs.Values.{AreOf, trees_of};

use law_sig::{NoMemory, Seq, Tree};
use law_value::{ValueBank, ValueId};
use std::alloc::Global;

/// The values of a pool as trees.
pub fn write_pool(
    alloc: Global,
    bank: &ValueBank,
    pool: &[Seq<ValueId>],
) -> Result<Seq<Seq<Tree>>, NoMemory>
    requires { Each (AreOf bank.now) pool.now }
    ensures { IfOk result (λ sorts. sorts ≡ map (trees_of bank.now) pool.now) }
{
    let mut sorts = Seq::new(alloc);
    for values in pool {
        sorts.push(write_values(alloc, bank, values.as_slice())?)?;
    }
    Ok(sorts)
}

/// A list of values as trees.
fn write_values(alloc: Global, bank: &ValueBank, values: &[ValueId]) -> Result<Seq<Tree>, NoMemory>
    requires { AreOf bank.now values.now }
    ensures { IfOk result (λ trees. trees ≡ trees_of bank.now values.now) }
{
    let mut trees = Seq::new(alloc);
    for value in values {
        trees.push(bank.write_value(*value)?)?;
    }
    Ok(trees)
}
