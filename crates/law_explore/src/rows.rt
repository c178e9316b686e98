ghost use Rattle.std.specs.Prelude.{◌≡◌, ◌++◌, ◌∷◌, map, IfOk, OnOk};
ghost use Rattle.law_listing.specs.Rows.{crossed, choices};
ghost use Rattle.law_listing.specs.Listing.{over_each};

use super::list::{in_front, push_copies};
use law_sig::{NoMemory, Seq, SymId, Tree};
use std::alloc::Global;

/// Adds the rows with this term in front of each.
pub fn push_behind(
    alloc: Global,
    found: &mut Seq<Seq<Tree>>,
    term: &Tree,
    rows: &[Seq<Tree>],
) -> Result<(), NoMemory>
    ensures { OnOk result (found.new ≡ found.old ++ map (λ row. term.now ∷ row) rows.now) }
{
    for row in rows {
        found.push(in_front(alloc, term, row.as_slice())?)?;
    }
    Ok(())
}

/// Adds the rows that have one of these terms in front of one of the rows.
pub fn push_crossed(
    alloc: Global,
    found: &mut Seq<Seq<Tree>>,
    terms: &[Tree],
    rows: &[Seq<Tree>],
) -> Result<(), NoMemory>
    ensures { OnOk result (found.new ≡ found.old ++ crossed terms.now rows.now) }
{
    for term in terms {
        push_behind(alloc, found, term, rows)?;
    }
    Ok(())
}

/// Every way to choose one term from each list, the first list counting most.
pub fn choices(alloc: Global, lists: &[Seq<Tree>]) -> Result<Seq<Seq<Tree>>, NoMemory>
    ensures { IfOk result (λ rows. rows ≡ choices lists.now) }
{
    let mut found = Seq::new(alloc);
    let Some((first, rest)) = lists.split_first() else {
        found.push(Seq::new(alloc))?;
        return Ok(found);
    };
    let below = choices(alloc, rest)?;
    push_crossed(alloc, &mut found, first.as_slice(), below.as_slice())?;
    Ok(found)
}

/// Adds a symbol over each of these rows.
pub fn push_over(
    alloc: Global,
    found: &mut Seq<Tree>,
    head: SymId,
    rows: &[Seq<Tree>],
) -> Result<(), NoMemory>
    ensures { OnOk result (found.new ≡ found.old ++ over_each head rows.now) }
{
    for row in rows {
        let mut args = Seq::new(alloc);
        push_copies(alloc, &mut args, row.as_slice())?;
        found.push(Tree::App(head, args))?;
    }
    Ok(())
}
