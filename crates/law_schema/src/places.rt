ghost use Rattle.std.specs.Prelude.{◌≡◌, ◌<◌, ◌≤◌, ℕ, [], length, drop, List, Option, IfOk};
ghost use Rattle.std.specs.Option.{MatchOption};
ghost use Rattle.law_sig.specs.declared.tree.Tree.{Tree};
ghost use Rattle.law_sig.specs.declared.parts.SigParts.{SigParts};
ghost use Rattle.law_bank.specs.Terms.{tree_of};
ghost use Rattle.law_bank.specs.Bank.{Terms, IsOf, Grows};
ghost use Rattle.law_schema.specs.Rules.{AreBetween, AreRules};
ghost use Rattle.law_schema.specs.Columns.{Columns, columns_of};
ghost use Rattle.law_schema.specs.Places.{IsStarted, NoRows, IsAt, IsAhead, IsStanding, AllFiled, IsStocked, IsConsideredAt, FirstRow, FirstApp, FirstPlace, GoesAhead};

use super::rules::{Rule, Rules, first_sort};
use super::stock::{Entry, counts_below, push_entries, schemas_in};
use super::walk::{Stand, Walk};
use law_bank::{Head, Term};
use law_sig::{NoMemory, Seq, SortId};
use law_term::TermBank;
use std::alloc::Global;

/// A row of spread schemas for the arguments of a symbol, which is told by its place among the rules, for applications of a weight.
#[derive(Debug, Drop)]
pub struct Application {
    pub weight: u32,
    pub rule: usize,
    pub walk: Walk,
}

/// Where the schema that was given last stands: none was given; the first variable of a sort; a symbol over a row of spread schemas.
#[derive(Debug, Drop)]
pub enum Place {
    Start,
    Var(SortId),
    App(Application),
}

/// Where the next schema stands: there is none; at the next row of the same symbol; at another place.
#[derive(Debug, Drop)]
pub enum Ahead {
    Spent,
    Beside,
    At(Place),
}

/// Before the first row for a symbol's arguments, for applications of this weight.
fn start(
    alloc: Global,
    rule: &Rule,
    columns: &[Vec<Seq<Entry<'_>>>],
    weight: u32,
) -> Result<Option<Walk>, NoMemory>
    ensures { IfOk result (λ r. MatchOption r (NoRows rule.now (columns_of columns.now) weight) (IsStarted rule.now (columns_of columns.now) weight)) }
{
    if weight < rule.weight {
        return Ok(None);
    }
    let counts = counts_below(alloc, columns, rule.args.as_slice(), weight as usize)?;
    let walk = Walk::start(alloc, counts, weight - rule.weight)?;
    match walk.stand {
        Stand::Before => Ok(Some(walk)),
        Stand::Nowhere | Stand::At => Ok(None),
    }
}

/// The first application of this weight, from a rule on.
fn first_row(
    alloc: Global,
    rules: &Rules,
    columns: &[Vec<Seq<Entry<'_>>>],
    weight: u32,
    from: usize,
) -> Result<Option<Place>, NoMemory>
    ensures { IfOk result (λ r. (parts : SigParts) (schemas : List Tree) (n : ℕ) → AreRules parts rules.now → IsStocked parts schemas (columns_of columns.now) → weight ≤ rules.now.size
        → AreBetween parts n (length parts.symbols) (drop from rules.now.symbols) → FirstRow parts rules.now (columns_of columns.now) schemas weight n r) }
{
    let symbols = rules.symbols.as_slice();
    for rule in from..symbols.len() {
        if let Some(walk) = start(alloc, &symbols[rule], columns, weight)? {
            return Ok(Some(Place::App(Application { weight, rule, walk })));
        }
    }
    Ok(None)
}

/// The first application of this weight, from a rule on, or of a greater one.
fn first_app(
    alloc: Global,
    rules: &Rules,
    columns: &[Vec<Seq<Entry<'_>>>],
    weight: u32,
    from: usize,
) -> Result<Option<Place>, NoMemory>
    ensures { IfOk result (λ r. (parts : SigParts) (schemas : List Tree) (n : ℕ) → AreRules parts rules.now → IsStocked parts schemas (columns_of columns.now) → 1 ≤ weight → weight ≤ parts.settings.size
        → AreBetween parts n (length parts.symbols) (drop from rules.now.symbols) → FirstApp parts rules.now (columns_of columns.now) schemas weight n r) }
{
    let mut at = weight;
    let mut first = from;
    loop {
        if let Some(place) = first_row(alloc, rules, columns, at, first)? {
            return Ok(Some(place));
        }
        if at >= rules.size {
            return Ok(None);
        }
        at += 1;
        first = 0;
    }
}

/// The first variable, from a sort on, or the first application.
fn first_place(
    alloc: Global,
    rules: &Rules,
    columns: &[Vec<Seq<Entry<'_>>>],
    from: u32,
) -> Result<Option<Place>, NoMemory>
    ensures { IfOk result (λ r. (parts : SigParts) (schemas : List Tree) → AreRules parts rules.now → IsStocked parts schemas (columns_of columns.now)
        → FirstPlace parts rules.now (columns_of columns.now) schemas from r) }
{
    match first_sort(rules, from) {
        Some(sort) => Ok(Some(Place::Var(sort))),
        None => first_app(alloc, rules, columns, 1, 0),
    }
}

/// At this place, if there is one.
fn at_place(place: Option<Place>) -> Ahead
    ensures { MatchOption place (result ≡ Ahead.Spent) (λ p. result ≡ Ahead.At p) }
{
    match place {
        Some(place) => Ahead::At(place),
        None => Ahead::Spent,
    }
}

/// Where the schema stands that comes after the one at a place. The place stays the same.
pub fn look_ahead(
    alloc: Global,
    rules: &Rules,
    columns: &[Vec<Seq<Entry<'_>>>],
    place: &mut Place,
) -> Result<Ahead, NoMemory>
    requires { (o : Option Tree) × IsStanding rules.now (columns_of columns.now) place.old o }
    ensures kept { (o : Option Tree) → IsStanding rules.now (columns_of columns.now) place.old o → IsStanding rules.now (columns_of columns.now) place.new o }
    ensures ahead { IfOk result (λ a. (parts : SigParts) (schemas : List Tree) (o : Option Tree) → AreRules parts rules.now → IsStocked parts schemas (columns_of columns.now)
        → IsStanding rules.now (columns_of columns.now) place.old o → IsConsideredAt parts schemas o
        → GoesAhead parts rules.now (columns_of columns.now) schemas o place.new a) }
{
    match place {
        Place::Start => Ok(at_place(first_place(alloc, rules, columns, 0)?)),
        Place::Var(sort) => {
            let next = sort.0.saturating_add(1);
            Ok(at_place(first_place(alloc, rules, columns, next)?))
        }
        Place::App(application) => {
            if application.walk.look() {
                return Ok(Ahead::Beside);
            }
            let next = application.rule.saturating_add(1);
            Ok(at_place(first_app(alloc, rules, columns, application.weight, next)?))
        }
    }
}

/// The schema at the place that was looked for.
pub fn term_ahead<'a>(
    alloc: Global,
    bank: &mut TermBank<'a>,
    rules: &Rules,
    columns: &[Vec<Seq<Entry<'a>>>],
    place: &Place,
) -> Result<Term<'a>, NoMemory>
    requires ahead { (t : Tree) × IsAhead rules.now (columns_of columns.now) place.now t }
    requires held { AllFiled bank.old (columns_of columns.now) }
    ensures tree { IfOk result (λ term. (t : Tree) → IsAhead rules.now (columns_of columns.now) place.now t → tree_of term.now ≡ t) }
    ensures held { IfOk result (λ term. IsOf bank.new term.now) }
    ensures grows { Grows bank.old bank.new }
{
    match place {
        Place::Start => unreachable!(),
        Place::Var(sort) => {
            let made = bank.intern(Head::Var(*sort, 0), &[])?;
            Ok(made)
        }
        Place::App(application) => {
            let rule = &rules.symbols.as_slice()[application.rule];
            let mut entries = Vec::new(alloc);
            push_entries(
                &mut entries,
                columns,
                rule.args.as_slice(),
                application.walk.next.as_slice(),
            )?;
            let args = schemas_in(alloc, entries.as_slice())?;
            let made = bank.intern(Head::Sym(rule.symbol), args.as_slice())?;
            Ok(made)
        }
    }
}

/// Goes to the place that was looked for.
pub fn go(place: &mut Place, rules: &Rules, columns: &[Vec<Seq<Entry<'_>>>])
    requires { (t : Tree) × IsAhead rules.now (columns_of columns.now) place.old t }
    ensures { (t : Tree) → IsAhead rules.now (columns_of columns.now) place.old t → IsAt rules.now (columns_of columns.now) place.new t }
{
    match place {
        Place::App(application) => application.walk.go(),
        Place::Start | Place::Var(_) => {}
    }
}
