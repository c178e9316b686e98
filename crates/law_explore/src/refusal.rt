ghost use Rattle.law_explore.specs.Refusals.{IsOver};

use law_lines::RawTerm;
use law_sig::{NoMemory, Sig, SortId, Tree};
use law_types::raw_term;
use std::alloc::Global;

/// Why a signature has no law list: a term has no value at a test within the budget; a background equation, counted
/// from 1, has two values at a test; the variables can be given places in a pool in more than 4,096 ways; the universe
/// has too many terms; a generated value has more than 4,096 nodes; or memory ran out.
#[derive(Debug, Drop)]
pub enum ExploreErr {
    Over { term: RawTerm, test: u64 },
    BackgroundFails { law: u64, test: u64 },
    Assignments,
    TooManyTerms,
    ValueTooLarge { pool: u32, sort: SortId },
    NoMemory,
}

impl From<NoMemory> for ExploreErr {
    ghost use Rattle.law_explore.specs.declared.refusal.ExploreErr.TheVariants as which;
    ghost use Rattle.std.specs.Prelude.{◌≡◌};

    ghost from_gives = { λ _ e. e ≡ which.NoMemory };

    fn from(_refused: NoMemory) -> ExploreErr {
        ExploreErr::NoMemory
    }
}

/// That a term has no value at a test.
pub fn over(alloc: Global, sig: &Sig, term: &Tree, test: u64) -> ExploreErr
    ensures { IsOver sig.now term.now test result }
{
    match raw_term(alloc, sig, term) {
        Ok(term) => ExploreErr::Over { term, test },
        Err(_) => ExploreErr::NoMemory,
    }
}
