use law_lines::RawTerm;
use law_sig::NoMemory;
use law_valid::Rule;

/// How many entries of a certificate are laws, live terms, moved terms and killed schemas.
#[derive(Clone, Copy, Debug, PartialEq, Eq)]
pub struct Counts {
    pub laws: u64,
    pub live: u64,
    pub moved: u64,
    pub killed: u64,
}

/// That a certificate is valid, with what it counts; or the first rule that fails, and at which entry. Entries are numbered
/// from 1, trees go on counting, and 0 is what stands before the entries.
#[derive(Clone, Copy, Debug, PartialEq, Eq)]
pub enum Verdict {
    Yes(Counts),
    No { rule: Rule, entry: u64 },
}

/// Why there is no verdict: a term has no value within the budget at a test, which an entry asks for before any rule fails;
/// or memory ran out.
#[derive(Debug, Drop)]
pub enum CheckErr {
    Over {
        entry: u64,
        test: u64,
        term: RawTerm,
    },
    NoMemory,
}

impl From<NoMemory> for CheckErr {
    ghost use Rattle.law_checking.specs.declared.verdict.CheckErr.TheVariants as which;
    ghost use Rattle.std.specs.Prelude.{◌≡◌};

    ghost from_gives = { λ _ e. e ≡ which.NoMemory };

    fn from(_refused: NoMemory) -> CheckErr {
        CheckErr::NoMemory
    }
}
