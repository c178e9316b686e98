ghost use Rattle.std.specs.Prelude.{◌≡◌, ◌∷◌, ◌<◌, [], IfOk};
ghost use Rattle.std.specs.Option.{MatchOption};
ghost use Rattle.law_sig.specs.Expected.{IsFirstAbove, IsSpent};
ghost use Rattle.law_listing.specs.Rows.{Lex};
ghost use Rattle.law_listing.specs.Picks.{IsLower, IsRow};
ghost use Rattle.law_agenda.specs.Walking.{IsWalk};

use super::rows::{first_from, fits_of, next_row};
use law_listing::Pick;
use law_sig::{NoMemory, Seq};
use std::alloc::Global;

/// One of the rows of a weight in all, over so many choices at each place of each weight.
#[derive(Debug, Drop)]
pub struct Walk {
    choices: Seq<Seq<usize>>,
    fits: Seq<Seq<bool>>,
    weight: u32,
    row: Seq<Pick>,
}

impl Walk {
    /// At the first row.
    pub fn start(
        alloc: Global,
        choices: Seq<Seq<usize>>,
        weight: u32,
    ) -> Result<Option<Walk>, NoMemory>
        ensures { IfOk result (λ r. MatchOption r (IsSpent (Lex IsLower) (IsRow choices weight) [])
            (λ walk. IsWalk walk choices weight × IsFirstAbove (Lex IsLower) (IsRow choices weight) [] walk.row)) }
    {
        let fits = fits_of(alloc, choices.as_slice(), weight as usize)?;
        match first_from(
            alloc,
            choices.as_slice(),
            fits.as_slice(),
            weight as usize,
            0,
        )? {
            Some(row) => Ok(Some(Walk {
                choices,
                fits,
                weight,
                row,
            })),
            None => Ok(None),
        }
    }

    /// At the next row.
    pub fn step(self, alloc: Global) -> Result<Option<Walk>, NoMemory>
        ensures { IfOk result (λ r. IsWalk self self.choices self.weight → MatchOption r (IsSpent (Lex IsLower) (IsRow self.choices self.weight) (self.row ∷ []))
            (λ walk. IsWalk walk self.choices self.weight × IsFirstAbove (Lex IsLower) (IsRow self.choices self.weight) (self.row ∷ []) walk.row)) }
    {
        match next_row(
            alloc,
            self.choices.as_slice(),
            self.fits.as_slice(),
            self.weight as usize,
            self.row.as_slice(),
        )? {
            Some(row) => Ok(Some(Walk {
                choices: self.choices,
                fits: self.fits,
                weight: self.weight,
                row,
            })),
            None => Ok(None),
        }
    }

    /// The row.
    pub fn row(&self) -> &[Pick]
        ensures { result.now ≡ self.now.row }
    {
        self.row.as_slice()
    }
}
