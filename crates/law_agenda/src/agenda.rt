ghost use Rattle.std.specs.Prelude.{◌≡◌, ◌↔◌, suc, if◌then◌else◌, List, Some, None, IfOk, IsTrue};
ghost use Rattle.law_sig.specs.declared.tree.Tree.{Tree};
ghost use Rattle.law_agenda.specs.Instances.{IsOpened, FirstInstance};
ghost use Rattle.law_agenda.specs.Agendas.{IsAt, IsFinished, Begins, Continues};
ghost use Rattle.law_valid.specs.Order.{Progress, at_start, after_spread, after_killed, after_term, IsSchemaNext, AreSpent, IsTermNext, IsTermSpent, IsSchemaTurn, IsTermTurn};

use super::candidates::Candidate;
use super::closing::{close, empty_store, is_candidate};
use super::instances::{Instance, first_instance, next_instance};
use super::shelves::Spread;
use super::stores::{Found, Store, first_schema, next_schema};
use super::universe::Universe;
use law_sig::{NoMemory, Sig, Tree};
use std::alloc::Global;

/// A spread schema whose instances are gone through, and the instance that is expected.
#[derive(Debug, Drop)]
pub struct Going {
    spread: Spread,
    instance: Instance,
}

/// Which schema and which instance is expected next. While instances of a schema are gone through, it is the schema at hand.
#[derive(Debug, Drop)]
pub struct Agenda {
    store: Store,
    schema: Option<Candidate>,
    going: Option<Going>,
    lives: usize,
}

/// How many live terms there are after one more term, which is live or moved.
fn more_lives(count: usize, live: bool) -> Result<usize, NoMemory>
    ensures { IfOk result (λ n. n ≡ (if live then suc count else count)) }
{
    if !live {
        return Ok(count);
    }
    match count.checked_add(1) {
        Some(more) => Ok(more),
        None => Err(NoMemory),
    }
}

/// No instance is expected, and the schema at hand is the one that was found.
fn at_schema(found: Found, lives: usize) -> Agenda
    ensures { result ≡ record { store = found.store; schema = found.next; going = None; lives = lives } }
{
    Agenda {
        store: found.store,
        schema: found.next,
        going: None,
        lives,
    }
}

/// Instances of the schema at hand are gone through.
fn at_instance(
    store: Store,
    schema: Candidate,
    spread: Spread,
    instance: Instance,
    lives: usize,
) -> Agenda
    ensures { result ≡ record { store = store; schema = Some schema; going = Some (record { spread = spread; instance = instance }); lives = lives } }
{
    Agenda {
        store,
        schema: Some(schema),
        going: Some(Going { spread, instance }),
        lives,
    }
}

/// The first instance of the schema at hand.
fn first_of(
    alloc: Global,
    universe: &Universe,
    store: &Store,
    schema: &Candidate,
) -> Result<Option<Instance>, NoMemory>
    ensures { IfOk result (λ r. (lives : List Tree) (c : Tree) → IsOpened universe.now lives store.now.shelf schema.now c → FirstInstance universe.now lives c r) }
{
    first_instance(alloc, universe.sig(), store.shelf.as_slice(), schema)
}

/// The schema at hand is done, and the next one is looked for.
fn finish(
    alloc: Global,
    universe: &Universe,
    store: Store,
    last: Candidate,
    spread: Spread,
    lives: usize,
) -> Result<Agenda, NoMemory>
    ensures { IfOk result (IsFinished universe.now store last spread lives) }
{
    let found = close(alloc, universe, store, last, spread)?;
    Ok(at_schema(found, lives))
}

/// The schema at hand is spread.
fn begin(
    alloc: Global,
    universe: &Universe,
    store: Store,
    last: Candidate,
    schema: Tree,
    lives: usize,
) -> Result<Agenda, NoMemory>
    ensures { IfOk result (Begins universe.now store last schema lives) }
{
    let instance = first_of(alloc, universe, &store, &last)?;
    let spread = Spread {
        schema,
        from: lives,
        to: lives,
    };
    match instance {
        Some(first) => Ok(at_instance(store, last, spread, first, lives)),
        None => finish(alloc, universe, store, last, spread, lives),
    }
}

/// The instance at hand is done, after which there are so many live terms.
fn go_on(
    alloc: Global,
    universe: &Universe,
    store: Store,
    last: Candidate,
    going: Going,
    lives: usize,
) -> Result<Agenda, NoMemory>
    ensures { IfOk result (Continues universe.now store last going lives) }
{
    let Going { spread, instance } = going;
    match next_instance(alloc, instance)? {
        Some(next) => Ok(at_instance(store, last, spread, next, lives)),
        None => {
            let closed = Spread {
                schema: spread.schema,
                from: spread.from,
                to: lives,
            };
            finish(alloc, universe, store, last, closed, lives)
        }
    }
}

impl Agenda {
    /// Before the first entry.
    pub fn new(alloc: Global, universe: &Universe) -> Result<Agenda, NoMemory>
        ensures { IfOk result (λ agenda. IsAt agenda (at_start universe.now)) }
    {
        let found = first_schema(alloc, universe, empty_store(alloc, universe.sig())?, 0)?;
        Ok(at_schema(found, 0))
    }

    /// Whether an instance is expected.
    pub fn awaits_term(&self) -> bool
        ensures { (p : Progress) → IsAt self.now p → IsTrue result ↔ (IsTermSpent p → ⊥) }
    {
        match &self.going {
            Some(_) => true,
            None => false,
        }
    }

    /// Whether this instance is expected.
    pub fn is_next_term(&self, lives: &[Tree], term: &Tree) -> bool
        ensures { (p : Progress) → IsAt self.now p → lives.now ≡ p.lives → IsTrue result ↔ IsTermNext p term.now }
    {
        match &self.going {
            Some(going) => going.instance.is_term(lives, term),
            None => false,
        }
    }

    /// Whether a schema is still to come, where no instance is.
    pub fn awaits_schema(&self) -> bool
        ensures { (p : Progress) → IsAt self.now p → IsTermSpent p → IsTrue result ↔ (AreSpent p → ⊥) }
    {
        match &self.schema {
            Some(_) => true,
            None => false,
        }
    }

    /// Whether this schema is expected, where no instance is.
    pub fn is_next_schema(&self, sig: &Sig, schema: &Tree) -> bool
        ensures { (p : Progress) → IsAt self.now p → sig.now ≡ p.parts → IsTermSpent p → IsTrue result ↔ IsSchemaNext p schema.now }
    {
        match &self.schema {
            Some(next) => is_candidate(sig, &self.store, next, schema),
            None => false,
        }
    }

    /// The next schema is killed.
    pub fn kill(self, alloc: Global, universe: &Universe) -> Result<Agenda, NoMemory>
        requires turn { (c : Tree) × IsSchemaTurn (IsAt self) universe.now c }
        ensures { IfOk result (λ agenda. (p : Progress) (c : Tree) → IsAt self p → universe.now ≡ p.parts → IsTermSpent p → IsSchemaNext p c → IsAt agenda (after_killed p c)) }
    {
        let Agenda {
            store,
            schema,
            going: _,
            lives,
        } = self;
        let Some(last) = schema else { unreachable!() };
        let found = next_schema(alloc, universe, store, last)?;
        Ok(at_schema(found, lives))
    }

    /// The next schema, which is this one, is spread.
    pub fn spread(
        self,
        alloc: Global,
        universe: &Universe,
        schema: &Tree,
    ) -> Result<Agenda, NoMemory>
        requires turn { IsSchemaTurn (IsAt self) universe.now schema.now }
        ensures { IfOk result (λ agenda. (p : Progress) → IsAt self p → universe.now ≡ p.parts → IsTermSpent p → IsSchemaNext p schema.now → IsAt agenda (after_spread p schema.now)) }
    {
        let Agenda {
            store,
            schema: next,
            going: _,
            lives,
        } = self;
        let Some(last) = next else { unreachable!() };
        let own = schema.copy(alloc)?;
        begin(alloc, universe, store, last, own, lives)
    }

    /// The next instance is a live term, or a moved one.
    pub fn take_term(
        self,
        alloc: Global,
        universe: &Universe,
        live: bool,
    ) -> Result<Agenda, NoMemory>
        requires turn { (t : Tree) × IsTermTurn (IsAt self) universe.now t }
        ensures { IfOk result (λ agenda. (p : Progress) (t : Tree) → IsAt self p → universe.now ≡ p.parts → IsTermNext p t → IsAt agenda (after_term p t live)) }
    {
        let Agenda {
            store,
            schema,
            going,
            lives: count,
        } = self;
        let Some(going) = going else { unreachable!() };
        let Some(last) = schema else { unreachable!() };
        let lives = more_lives(count, live)?;
        go_on(alloc, universe, store, last, going, lives)
    }
}
