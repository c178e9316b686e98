ghost use Rattle.std.specs.Prelude.{◌≡◌, ◌≤◌, ◌++◌, IfOk, OnOk};
ghost use Rattle.std.specs.List.{flat_map};
ghost use Rattle.law_listing.specs.Listing.{variables_of, instances, listing};
ghost use Rattle.law_explore.specs.Universe.{IsUniverse};

use super::rows::{choices, push_over};
use super::schemas::{levels, vars_at};
use law_sig::{NoMemory, Seq, Sig, SortId, Tree};
use law_test::TermTable;
use std::alloc::Global;

/// The variables of a sort.
fn variables_of(alloc: Global, sig: &Sig, sort: SortId) -> Result<Seq<Tree>, NoMemory>
    ensures { IfOk result (λ found. found ≡ variables_of sig.now sort) }
{
    let mut found = Seq::new(alloc);
    for index in 0..vars_at(sig, sort) {
        found.push(Tree::Var(sort, index))?;
    }
    Ok(found)
}

/// The instances of a schema, in order.
fn instances(alloc: Global, sig: &Sig, schema: &Tree) -> Result<Seq<Tree>, NoMemory>
    ensures { IfOk result (λ found. found ≡ instances sig.now schema.now) }
{
    match schema {
        Tree::Var(sort, _) => variables_of(alloc, sig, *sort),
        Tree::App(head, args) => {
            let mut lists = Seq::new(alloc);
            for arg in args.as_slice() {
                lists.push(instances(alloc, sig, arg)?)?;
            }
            let rows = choices(alloc, lists.as_slice())?;
            let mut found = Seq::new(alloc);
            push_over(alloc, &mut found, *head, rows.as_slice())?;
            Ok(found)
        }
    }
}

/// Adds copies of these terms at the end.
fn push_terms(alloc: Global, found: &mut TermTable, terms: &[Tree]) -> Result<(), NoMemory>
    ensures { OnOk result (found.new ≡ found.old ++ terms.now) }
{
    for term in terms {
        found.push(term.copy(alloc)?)?;
    }
    Ok(())
}

/// Adds the instances of these schemas.
fn push_instances(
    alloc: Global,
    sig: &Sig,
    found: &mut TermTable,
    schemas: &[Tree],
) -> Result<(), NoMemory>
    ensures { OnOk result (found.new ≡ found.old ++ flat_map (instances sig.now) schemas.now) }
{
    for schema in schemas {
        let terms = instances(alloc, sig, schema)?;
        push_terms(alloc, found, terms.as_slice())?;
    }
    Ok(())
}

/// The instances of all schemas up to this weight.
fn listing(alloc: Global, sig: &Sig, size: u32) -> Result<TermTable, NoMemory>
    requires { size ≤ 32 }
    ensures { IfOk result (λ found. found ≡ listing sig.now size) }
{
    let levels = levels(alloc, sig, size)?;
    let mut found = TermTable::new(alloc);
    for schemas in levels.as_slice() {
        push_instances(alloc, sig, &mut found, schemas.as_slice())?;
    }
    Ok(found)
}

/// All terms of a signature's universe, of all sorts, in the order of exploring.
pub fn universe(alloc: Global, sig: &Sig) -> Result<TermTable, NoMemory>
    ensures { IfOk result (λ terms. IsUniverse sig.now terms) }
{
    listing(alloc, sig, sig.settings().size)
}
