ghost use Rattle.std.specs.Prelude.{◌≡◌, ◌+◌, ◌*◌, ◌^◌, ◌≤◌, ◌<◌, IfOk};
ghost use Rattle.law_cert_text.specs.CertLines.{IsCertLine};
ghost use Rattle.law_cert_text.specs.Certificates.{IsNode};
ghost use Rattle.law_cert_text.specs.Drafts.{IsDraft, IsDraftWith, IsGrowing, behind_pools, behind_trees, closed_by, closed_pool, entered, grown, paid, pooled, started, with_line, with_step};

use law_cert_text::{CertLine, Draft, Entry, Owed, RawStep, RawValues, SortTree, TreeLine};
use law_sig::{NoMemory, Seq, Text};
use std::alloc::Global;

/// What was read with one more line; `None` where the line may not come.
pub fn with_line(alloc: Global, draft: Draft, line: CertLine) -> Result<Option<Draft>, NoMemory>
    requires draft { IsDraft draft }
    requires line { IsCertLine line }
    ensures next { IfOk result (λ next. next ≡ with_line draft line) }
    ensures more { IfOk result (IsDraftWith draft line) }
{
    match draft {
        Draft::Start => Ok(started(alloc, line)),
        Draft::Pools { pools, pool } => pooled(alloc, pools, pool, line),
        Draft::Entries {
            pools,
            entries,
            entry,
        } => entered(alloc, pools, entries, entry, line),
        Draft::Trees {
            pools,
            entries,
            trees,
            tree,
            owed,
        } => grown(alloc, pools, entries, trees, tree, owed, line),
        Draft::Over { .. } => Ok(None),
    }
}

fn started(alloc: Global, line: CertLine) -> Option<Draft>
    ensures { result ≡ started line }
{
    match line {
        CertLine::Pool => Some(Draft::Pools {
            pools: Seq::new(alloc),
            pool: Seq::new(alloc),
        }),
        _ => None,
    }
}

fn pooled(
    alloc: Global,
    pools: Seq<Seq<RawValues>>,
    mut pool: Seq<RawValues>,
    line: CertLine,
) -> Result<Option<Draft>, NoMemory>
    ensures { IfOk result (λ next. next ≡ pooled pools pool line) }
{
    match line {
        CertLine::Values(values) => {
            pool.push(values)?;
            Ok(Some(Draft::Pools { pools, pool }))
        }
        line => closed_pool(alloc, pools, pool, line),
    }
}

fn closed_pool(
    alloc: Global,
    mut pools: Seq<Seq<RawValues>>,
    pool: Seq<RawValues>,
    line: CertLine,
) -> Result<Option<Draft>, NoMemory>
    ensures { IfOk result (λ next. next ≡ closed_pool pools pool line) }
{
    if pool.len() == 0 {
        return Ok(None);
    }
    pools.push(pool)?;
    Ok(behind_pools(alloc, pools, line))
}

fn behind_pools(alloc: Global, pools: Seq<Seq<RawValues>>, line: CertLine) -> Option<Draft>
    ensures { result ≡ behind_pools pools line }
{
    match line {
        CertLine::Pool => Some(Draft::Pools {
            pools,
            pool: Seq::new(alloc),
        }),
        CertLine::Entry(entry) => Some(Draft::Entries {
            pools,
            entries: Seq::new(alloc),
            entry,
        }),
        line => behind_trees(alloc, pools, Seq::new(alloc), Seq::new(alloc), line),
    }
}

fn behind_trees(
    alloc: Global,
    pools: Seq<Seq<RawValues>>,
    entries: Seq<Entry>,
    trees: Seq<SortTree>,
    line: CertLine,
) -> Option<Draft>
    ensures { result ≡ behind_trees pools entries trees line }
{
    match line {
        CertLine::Tree(sort) => Some(Draft::Trees {
            pools,
            entries,
            trees,
            tree: SortTree {
                sort,
                lines: Seq::new(alloc),
            },
            owed: Owed { sorts: 1, terms: 0 },
        }),
        CertLine::End => Some(Draft::Over {
            pools,
            entries,
            trees,
        }),
        _ => None,
    }
}

fn entered(
    alloc: Global,
    pools: Seq<Seq<RawValues>>,
    mut entries: Seq<Entry>,
    entry: Entry,
    line: CertLine,
) -> Result<Option<Draft>, NoMemory>
    ensures { IfOk result (λ next. next ≡ entered pools entries entry line) }
{
    match line {
        CertLine::Step(step) => match with_step(entry, step)? {
            None => Ok(None),
            Some(entry) => Ok(Some(Draft::Entries {
                pools,
                entries,
                entry,
            })),
        },
        CertLine::Entry(next) => {
            entries.push(entry)?;
            Ok(Some(Draft::Entries {
                pools,
                entries,
                entry: next,
            }))
        }
        line => {
            entries.push(entry)?;
            Ok(behind_trees(alloc, pools, entries, Seq::new(alloc), line))
        }
    }
}

/// The entry with one more step, where it has a chain.
fn with_step(entry: Entry, step: RawStep) -> Result<Option<Entry>, NoMemory>
    ensures { IfOk result (λ next. next ≡ with_step entry step) }
{
    match entry {
        Entry::Lemma {
            number,
            left,
            right,
            mut steps,
        } => {
            steps.push(step)?;
            Ok(Some(Entry::Lemma {
                number,
                left,
                right,
                steps,
            }))
        }
        Entry::Killed {
            general,
            target,
            mut steps,
        } => {
            steps.push(step)?;
            Ok(Some(Entry::Killed {
                general,
                target,
                steps,
            }))
        }
        Entry::Moved {
            term,
            target,
            mut steps,
        } => {
            steps.push(step)?;
            Ok(Some(Entry::Moved {
                term,
                target,
                steps,
            }))
        }
        _ => Ok(None),
    }
}

fn grown(
    alloc: Global,
    pools: Seq<Seq<RawValues>>,
    entries: Seq<Entry>,
    trees: Seq<SortTree>,
    mut tree: SortTree,
    owed: Owed,
    line: CertLine,
) -> Result<Option<Draft>, NoMemory>
    requires tree { IsGrowing tree owed }
    requires line { IsCertLine line }
    ensures { IfOk result (λ next. next ≡ grown pools entries trees tree owed line) }
{
    match line {
        CertLine::Node(node) => match paid(owed, &node, tree.lines.len()) {
            None => Ok(None),
            Some(owed) => {
                tree.lines.push(node)?;
                Ok(Some(Draft::Trees {
                    pools,
                    entries,
                    trees,
                    tree,
                    owed,
                }))
            }
        },
        line => closed_tree(alloc, pools, entries, trees, tree, owed, line),
    }
}

fn closed_tree(
    alloc: Global,
    pools: Seq<Seq<RawValues>>,
    entries: Seq<Entry>,
    mut trees: Seq<SortTree>,
    tree: SortTree,
    owed: Owed,
    line: CertLine,
) -> Result<Option<Draft>, NoMemory>
    ensures { IfOk result (λ next. next ≡ closed_by owed.sorts owed.terms pools entries trees tree line) }
{
    if owed.sorts > 0 || owed.terms > 0 {
        return Ok(None);
    }
    trees.push(tree)?;
    Ok(behind_trees(alloc, pools, entries, trees, line))
}

/// What is owed behind a line of a tree, which has so many lines so far; `None` where the line may not
/// come.
fn paid(owed: Owed, node: &TreeLine, count: usize) -> Option<Owed>
    requires bound { owed.sorts + owed.terms ≤ 2 ^ 63 * (count + 1) }
    requires node { IsNode node.now }
    ensures { result ≡ paid owed node.now }
{
    if owed.terms > 0 {
        return paid_term(owed, node);
    }
    if owed.sorts > 0 {
        return paid_sort(owed, node);
    }
    None
}

fn paid_term(owed: Owed, node: &TreeLine) -> Option<Owed>
    requires some { 0 < owed.terms }
    requires bound { owed.terms < 2 ^ 127 + 1 }
    requires node { IsNode node.now }
    ensures { result ≡ paid owed node.now }
{
    let terms = owed.terms - 1;
    match node {
        TreeLine::Leaf(_) => Some(Owed {
            sorts: owed.sorts,
            terms,
        }),
        TreeLine::Split { test: _, count } => Some(Owed {
            sorts: owed.sorts,
            terms: terms + u128::from(*count),
        }),
        TreeLine::Class(_) => None,
    }
}

fn paid_sort(owed: Owed, node: &TreeLine) -> Option<Owed>
    requires none { owed.terms ≡ 0 }
    requires some { 0 < owed.sorts }
    requires bound { owed.sorts < 2 ^ 127 + 1 }
    requires node { IsNode node.now }
    ensures { result ≡ paid owed node.now }
{
    let sorts = owed.sorts - 1;
    match node {
        TreeLine::Class(_) => Some(Owed { sorts, terms: 1 }),
        TreeLine::Split { test: _, count } => Some(Owed {
            sorts: sorts + u128::from(*count),
            terms: 0,
        }),
        TreeLine::Leaf(_) => None,
    }
}
