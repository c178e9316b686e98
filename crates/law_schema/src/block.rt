ghost use Rattle.std.specs.Prelude.{◌≡◌, [], ◌<◌, List, Option, Some, None, IfOk, OnErr};
ghost use Rattle.std.specs.Option.{MatchOption};
ghost use Rattle.law_sig.specs.declared.tree.Tree.{Tree};
ghost use Rattle.law_sig.specs.declared.parts.SigParts.{SigParts};
ghost use Rattle.law_bank.specs.Terms.{tree_of};
ghost use Rattle.law_bank.specs.Bank.{IsOf, AllOf, Grows};
ghost use Rattle.law_schema.specs.declared.rules.Rules.{Rules};
ghost use Rattle.law_schema.specs.Rules.{AreRules};
ghost use Rattle.law_schema.specs.Columns.{columns_of};
ghost use Rattle.law_schema.specs.Spreads.{live_terms};
ghost use Rattle.law_schema.specs.Places.{IsAt};
ghost use Rattle.law_schema.specs.Walks.{IsWalk};
ghost use Rattle.law_schema.specs.Blocks.{AreLinked, IsBlock, IsHoused, GivesNext, after_given, IsNextVariable, IsSameWalk, HasSameRow, IsNextApplication};

use super::places::{Application, Place};
use super::rules::{Rules, vars_at};
use super::stock::{Entry, Spread, live_counts, numbers_in, push_entries, push_lives};
use super::walk::Walk;
use law_bank::{Head, Term};
use law_sig::{NoMemory, Seq, SortId, SymId};
use law_term::TermBank;
use std::alloc::Global;

/// The variables of a sort, of which those below `next` were given.
#[derive(Debug, Drop)]
pub struct Variables {
    pub sort: SortId,
    pub count: u32,
    pub next: u32,
}

/// A symbol over live terms of the spread schemas with these numbers.
#[derive(Debug, Drop)]
pub struct Fillings {
    pub symbol: SymId,
    pub numbers: Seq<usize>,
    pub walk: Walk,
}

/// The instances of the schema that was spread last: those of a variable, or of an application. At first no schema was spread.
#[derive(Debug, Drop)]
pub enum Block {
    Closed,
    Vars(Variables),
    Apps(Fillings),
}

/// The instances of the schema at a place, none of which was given yet.
pub fn open(
    alloc: Global,
    rules: &Rules,
    columns: &[Vec<Seq<Entry<'_>>>],
    spreads: &[Spread<'_>],
    place: &Place,
) -> Result<Block, NoMemory>
    requires { (t : Tree) × IsAt rules.now (columns_of columns.now) place.now t }
    ensures { IfOk result (λ block. (t : Tree) → IsAt rules.now (columns_of columns.now) place.now t → AreLinked spreads.now (columns_of columns.now) → IsBlock rules.now spreads.now t None block) }
{
    match place {
        Place::Start => unreachable!(),
        Place::Var(sort) => Ok(Block::Vars(Variables {
            sort: *sort,
            count: vars_at(rules, *sort),
            next: 0,
        })),
        Place::App(application) => {
            let fillings = fillings_of(alloc, rules, columns, spreads, application)?;
            Ok(Block::Apps(fillings))
        }
    }
}

/// The ways to fill the arguments of an application.
fn fillings_of(
    alloc: Global,
    rules: &Rules,
    columns: &[Vec<Seq<Entry<'_>>>],
    spreads: &[Spread<'_>],
    application: &Application,
) -> Result<Fillings, NoMemory>
    requires { (t : Tree) × IsAt rules.now (columns_of columns.now) (Place.App application.now) t }
    ensures { IfOk result (λ fillings. (t : Tree) → IsAt rules.now (columns_of columns.now) (Place.App application.now) t → AreLinked spreads.now (columns_of columns.now) → IsBlock rules.now spreads.now t None (Block.Apps fillings)) }
{
    let rule = &rules.symbols.as_slice()[application.rule];
    let mut entries = Vec::new(alloc);
    push_entries(
        &mut entries,
        columns,
        rule.args.as_slice(),
        application.walk.row.as_slice(),
    )?;
    let numbers = numbers_in(alloc, entries.as_slice())?;
    let counts = live_counts(alloc, spreads, numbers.as_slice())?;
    Ok(Fillings {
        symbol: rule.symbol,
        numbers,
        walk: Walk::start(alloc, counts, 0)?,
    })
}

/// The next variable of a block.
fn next_variable<'a>(
    bank: &mut TermBank<'a>,
    variables: &mut Variables,
) -> Result<Option<Term<'a>>, NoMemory>
    ensures some { IfOk result (IsNextVariable variables.old variables.new) }
    ensures err { OnErr result (variables.new ≡ variables.old) }
    ensures held { IfOk result (λ r. MatchOption r (Unit {0}) (λ term. IsOf bank.new term.now)) }
    ensures grows { Grows bank.old bank.new }
{
    if variables.next >= variables.count {
        return Ok(None);
    }
    let made = bank.intern(Head::Var(variables.sort, variables.next), &[])?;
    variables.next += 1;
    Ok(Some(made))
}

/// The next application of a block.
fn next_application<'a>(
    alloc: Global,
    bank: &mut TermBank<'a>,
    spreads: &[Spread<'a>],
    fillings: &mut Fillings,
) -> Result<Option<Term<'a>>, NoMemory>
    requires walk { IsWalk fillings.old.walk }
    requires held { AllOf bank.old (live_terms spreads.now) }
    ensures kept { IsSameWalk fillings.old fillings.new }
    ensures some { IfOk result (IsNextApplication spreads.now fillings.old fillings.new) }
    ensures err { OnErr result (HasSameRow fillings.old fillings.new) }
    ensures held { IfOk result (λ r. MatchOption r (Unit {0}) (λ term. IsOf bank.new term.now)) }
    ensures grows { Grows bank.old bank.new }
{
    if !fillings.walk.look() {
        return Ok(None);
    }
    let mut args = Vec::new(alloc);
    push_lives(
        &mut args,
        spreads,
        fillings.numbers.as_slice(),
        fillings.walk.next.as_slice(),
    )?;
    let made = bank.intern(Head::Sym(fillings.symbol), args.as_slice())?;
    fillings.walk.go();
    Ok(Some(made))
}

/// The next instance of a block, if there is one.
pub fn next_in<'a>(
    alloc: Global,
    bank: &mut TermBank<'a>,
    spreads: &[Spread<'a>],
    block: &mut Block,
) -> Result<Option<Term<'a>>, NoMemory>
    requires block { (rules : Rules) × (c : Tree) × (o : Option Tree) × IsBlock rules spreads.now c o block.old }
    requires held { AllOf bank.old (live_terms spreads.now) }
    ensures next { IfOk result (λ r. (parts : SigParts) (rules : Rules) (c : Tree) (o : Option Tree) → AreRules parts rules → IsHoused parts spreads.now c → IsBlock rules spreads.now c o block.old
        → GivesNext parts spreads.now c o r) }
    ensures some { IfOk result (λ r. (rules : Rules) (c : Tree) (o : Option Tree) → IsBlock rules spreads.now c o block.old → IsBlock rules spreads.now c (after_given o r) block.new) }
    ensures err { OnErr result ((rules : Rules) (c : Tree) (o : Option Tree) → IsBlock rules spreads.now c o block.old → IsBlock rules spreads.now c o block.new) }
    ensures held { IfOk result (λ r. MatchOption r (Unit {0}) (λ term. IsOf bank.new term.now)) }
    ensures grows { Grows bank.old bank.new }
{
    match block {
        Block::Closed => Ok(None),
        Block::Vars(variables) => {
            let found = next_variable(bank, variables)?;
            Ok(found)
        }
        Block::Apps(fillings) => {
            let found = next_application(alloc, bank, spreads, fillings)?;
            Ok(found)
        }
    }
}
