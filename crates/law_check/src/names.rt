ghost use Rattle.std.specs.Prelude.{◌≡◌, [], ◌∷◌, ◌++◌, length, map, None, Some, IfOk, OnOk};
ghost use Rattle.law_typing.specs.Table.{Finds};
ghost use Rattle.law_typing.specs.TypedTerm.{tree_over, tree_of};
ghost use Rattle.law_named.specs.Named.{sort_named, term_named, bind_named, step_named, entry_named};
ghost use Rattle.law_checking.specs.NameTables.{noted, FindsMore};

use indexmap::IndexMap;
use law_cert_text::{Entry as Written, RawBind, RawStep};
use law_lines::{RawHead, RawTerm};
use law_sig::{Bind, Equation, NoMemory, Seq, Sig, SortId, Step, SymId, Text, Tree};
use law_valid::Entry;
use std::alloc::Global;
use std::marker::Model;

/// The names of a signature, with tables that find the number of each.
#[derive(Drop)]
pub(crate) struct Names<'s> {
    sig: &'s Sig,
    sorts: IndexMap<Vec<u8>, u32>,
    symbols: IndexMap<Vec<u8>, u32>,
}

impl<'s> Model for Names<'s> {
    ghost use Rattle.law_sig.specs.declared.parts.SigParts.{SigParts};
    ghost use Rattle.std.specs.Coded.{codes};
    ghost use Rattle.law_sig.specs.contracts.tree.Tree as tree;
    ghost use Rattle.law_sig.specs.contracts.tree.Body as body;

    ghost Value = { SigParts };

    ghost coded = { Prim.hlevel (codes, tree.the_row.coded, body.the_row.coded) };

    ghost use Rattle.law_typing.specs.Table.{Finds};

    ghost view = { λ names. names.sig.now };

    ghost invariant = { λ names. Finds names.sig.now.sort_names names.sorts.entries × Finds names.sig.now.symbol_names names.symbols.entries };
}

impl<'s> Names<'s> {
    /// The names of this signature.
    pub(crate) fn new(alloc: Global, sig: &'s Sig) -> Result<Names<'s>, NoMemory>
        ensures { IfOk result (λ names. names ≡ sig.now) }
    {
        let sorts = sort_table(alloc, sig)?;
        let symbols = symbol_table(alloc, sig)?;
        Ok(Names {
            sig,
            sorts,
            symbols,
        })
    }

    /// The number of a sort, and one that no sort has where the name isn't declared.
    pub(crate) fn sort(&self, name: &Text) -> SortId
        ensures { result ≡ sort_named self.now name.now }
    {
        match find(&self.sorts, name) {
            Some(number) => SortId(number),
            None => SortId(self.sig.sorts()),
        }
    }

    /// A symbol or a variable over arguments; `None` where its name isn't declared.
    fn over(&self, head: &RawHead, args: Seq<Tree>) -> Option<Tree>
        ensures { result ≡ tree_over self.now head.now (Some args) }
    {
        match head {
            RawHead::Name(name) => match find(&self.symbols, name) {
                Some(number) => Some(Tree::App(SymId(number), args)),
                None => None,
            },
            RawHead::Var(sort, index) => match find(&self.sorts, sort) {
                Some(number) => {
                    if args.len() > 0 {
                        return None;
                    }
                    Some(Tree::Var(SortId(number), *index))
                }
                None => None,
            },
            RawHead::Param(_) => None,
            RawHead::Field(_) => None,
        }
    }

    /// The term with each name replaced by its number; `None` where one isn't declared.
    fn tree(&self, alloc: Global, term: &RawTerm) -> Result<Option<Tree>, NoMemory>
        ensures { IfOk result (λ found. found ≡ tree_of self.now term.now) }
    {
        let mut args = Seq::new(alloc);
        for arg in term.args.as_slice() {
            match self.tree(alloc, arg)? {
                Some(tree) => args.push(tree)?,
                None => return Ok(None),
            }
        }
        Ok(self.over(&term.head, args))
    }

    /// The term that is written so, and a variable of no declared sort where a name in it isn't declared.
    pub(crate) fn term(&self, alloc: Global, term: &RawTerm) -> Result<Tree, NoMemory>
        ensures { IfOk result (λ tree. tree ≡ term_named self.now term.now) }
    {
        match self.tree(alloc, term)? {
            Some(tree) => Ok(tree),
            None => Ok(Tree::Var(SortId(self.sig.sorts()), 0)),
        }
    }

    fn equation(&self, alloc: Global, left: &RawTerm, right: &RawTerm) -> Result<Equation, NoMemory>
        ensures { IfOk result (λ q. q ≡ record { left = term_named self.now left.now; right = term_named self.now right.now }) }
    {
        let left = self.term(alloc, left)?;
        let right = self.term(alloc, right)?;
        Ok(Equation { left, right })
    }

    fn bind(&self, alloc: Global, bind: &RawBind) -> Result<Bind, NoMemory>
        ensures { IfOk result (λ b. b ≡ bind_named self.now bind.now) }
    {
        let sort = self.sort(&bind.sort);
        let term = self.term(alloc, &bind.term)?;
        Ok(Bind {
            sort,
            index: bind.index,
            term,
        })
    }

    fn binds(&self, alloc: Global, binds: &[RawBind]) -> Result<Seq<Bind>, NoMemory>
        ensures { IfOk result (λ bs. bs ≡ map (bind_named self.now) binds.now) }
    {
        let mut found = Seq::new(alloc);
        for bind in binds {
            found.push(self.bind(alloc, bind)?)?;
        }
        Ok(found)
    }

    fn step(&self, alloc: Global, step: &RawStep) -> Result<Step, NoMemory>
        ensures { IfOk result (λ s. s ≡ step_named self.now step.now) }
    {
        let place = copy_place(alloc, step.pos.as_slice())?;
        let binds = self.binds(alloc, step.binds.as_slice())?;
        Ok(Step {
            place,
            number: step.eq,
            dir: step.dir,
            binds,
        })
    }

    fn steps(&self, alloc: Global, steps: &[RawStep]) -> Result<Seq<Step>, NoMemory>
        ensures { IfOk result (λ ss. ss ≡ map (step_named self.now) steps.now) }
    {
        let mut found = Seq::new(alloc);
        for step in steps {
            found.push(self.step(alloc, step)?)?;
        }
        Ok(found)
    }

    /// The entry with each name replaced by its number.
    pub(crate) fn entry(&self, alloc: Global, entry: &Written) -> Result<Entry, NoMemory>
        ensures { IfOk result (λ e. e ≡ entry_named self.now entry.now) }
    {
        match entry {
            Written::Law {
                number,
                mark: _,
                left,
                right,
            } => Ok(Entry::Law(*number, self.equation(alloc, left, right)?)),
            Written::Lemma {
                number,
                left,
                right,
                steps,
            } => {
                let equation = self.equation(alloc, left, right)?;
                let steps = self.steps(alloc, steps.as_slice())?;
                Ok(Entry::Lemma(*number, equation, steps))
            }
            Written::Spread(term) => Ok(Entry::Spread(self.term(alloc, term)?)),
            Written::Killed {
                general,
                target,
                steps,
            } => {
                let equation = self.equation(alloc, general, target)?;
                let steps = self.steps(alloc, steps.as_slice())?;
                Ok(Entry::Killed(equation, steps))
            }
            Written::Live(term) => Ok(Entry::Live(self.term(alloc, term)?)),
            Written::Moved {
                term,
                target,
                steps,
            } => {
                let equation = self.equation(alloc, term, target)?;
                let steps = self.steps(alloc, steps.as_slice())?;
                Ok(Entry::Moved(equation, steps))
            }
        }
    }
}

fn copy_place(alloc: Global, place: &[u32]) -> Result<Seq<u32>, NoMemory>
    ensures { IfOk result (λ copy. copy ≡ place.now) }
{
    let mut copy = Seq::new(alloc);
    for number in place {
        copy.push(*number)?;
    }
    Ok(copy)
}

/// What a table has for a name.
fn find(table: &IndexMap<Vec<u8>, u32>, name: &Text) -> Option<u32>
    ensures { result ≡ noted name.now table.now.entries }
{
    table.get(name.as_slice()).copied()
}

fn copy_bytes(alloc: Global, name: &Text) -> Result<Vec<u8>, NoMemory>
    ensures { IfOk result (λ bytes. bytes.items ≡ name.now) }
{
    match name.as_slice().to_vec(alloc) {
        Ok(bytes) => Ok(bytes),
        Err(_) => Err(NoMemory),
    }
}

/// Adds an entry for a key that has none.
fn note(table: &mut IndexMap<Vec<u8>, u32>, key: Vec<u8>, number: u32) -> Result<(), NoMemory>
    requires { noted key.items table.old.entries ≡ None }
    ensures { OnOk result (table.new.entries ≡ table.old.entries ++ (key, number) ∷ []) }
{
    match table.insert(key, number) {
        Ok(_) => Ok(()),
        Err(_) => Err(NoMemory),
    }
}

/// A table with one more name. A name that it has keeps its number.
fn with_name(
    alloc: Global,
    table: IndexMap<Vec<u8>, u32>,
    name: &Text,
    number: u32,
) -> Result<IndexMap<Vec<u8>, u32>, NoMemory>
    ensures { IfOk result (λ new. FindsMore table.entries name.now number new.entries) }
{
    if find(&table, name).is_some() {
        return Ok(table);
    }
    let key = copy_bytes(alloc, name)?;
    let mut table = table;
    note(&mut table, key, number)?;
    Ok(table)
}

fn sort_table(alloc: Global, sig: &Sig) -> Result<IndexMap<Vec<u8>, u32>, NoMemory>
    ensures { IfOk result (λ table. Finds sig.now.sort_names table.entries) }
{
    let mut table = IndexMap::new(alloc);
    for at in 0..sig.sorts() {
        let Some(name) = sig.sort_name(SortId(at)) else {
            continue;
        };
        table = with_name(alloc, table, name, at)?;
    }
    Ok(table)
}

/// How many symbols have a name: all.
fn name_count(sig: &Sig) -> u32
    ensures { result ≡ length sig.now.symbol_names }
{
    let _ = sig.settings();
    sig.symbols()
}

fn symbol_table(alloc: Global, sig: &Sig) -> Result<IndexMap<Vec<u8>, u32>, NoMemory>
    ensures { IfOk result (λ table. Finds sig.now.symbol_names table.entries) }
{
    let mut table = IndexMap::new(alloc);
    for at in 0..name_count(sig) {
        let Some(name) = sig.symbol_name(SymId(at)) else {
            continue;
        };
        table = with_name(alloc, table, name, at)?;
    }
    Ok(table)
}
