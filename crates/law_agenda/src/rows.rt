ghost use Rattle.std.specs.Prelude.{◌≡◌, ℕ, ◌≢◌, ◌∷◌, ◌+◌, ◌<◌, ◌^◌, [], slice_index_or, true, false, IfOk};
ghost use Rattle.std.specs.Option.{MatchOption};
ghost use Rattle.law_sig.specs.Expected.{IsFirstAbove, IsSpent};
ghost use Rattle.law_listing.specs.Rows.{Lex};
ghost use Rattle.law_listing.specs.Picks.{IsLower, IsRow, IsRowFrom, AreFits, AreAllFits, NoSum};

use law_listing::Pick;
use law_sig::{NoMemory, Seq};
use std::alloc::Global;

/// How many choices there are of a weight.
fn count_at(counts: &[usize], weight: usize) -> usize
    ensures { result ≡ slice_index_or counts.now weight 0 }
{
    match counts.get(weight) {
        Some(count) => *count,
        None => 0,
    }
}

/// Whether rows may have a weight: not where they are known to have none.
fn may_be(fits: &[bool], weight: usize) -> bool
    ensures { result ≡ slice_index_or fits.now weight true }
{
    match fits.get(weight) {
        Some(may) => *may,
        None => true,
    }
}

/// The row with this pick in front.
fn in_front(alloc: Global, pick: Pick, row: &[Pick]) -> Result<Seq<Pick>, NoMemory>
    ensures { IfOk result (λ found. found ≡ pick ∷ row.now) }
{
    let mut found = Seq::new(alloc);
    found.push(pick)?;
    for other in row {
        found.push(*other)?;
    }
    Ok(found)
}

/// The first row of this weight in all whose first pick weighs at least `from`. What `fits` says of the rows of the last
/// places spares it the weights that they don't have.
pub fn first_from(
    alloc: Global,
    choices: &[Seq<usize>],
    fits: &[Seq<bool>],
    weight: usize,
    from: usize,
) -> Result<Option<Seq<Pick>>, NoMemory>
    requires { weight < 2 ^ 32 }
    ensures { IfOk result (λ r. AreFits choices.now fits.now → MatchOption r (IsSpent (Lex IsLower) (IsRowFrom choices.now weight from) [])
        (λ row. IsFirstAbove (Lex IsLower) (IsRowFrom choices.now weight from) [] row)) }
{
    let Some((first, rest)) = choices.split_first() else {
        if weight == 0 {
            return Ok(Some(Seq::new(alloc)));
        }
        return Ok(None);
    };
    for own in from..weight + 1 {
        if count_at(first.as_slice(), own) == 0 {
            continue;
        }
        if !can_be(fits, rest.len(), weight - own) {
            continue;
        }
        let Some(below) = first_from(alloc, rest, fits, weight - own, 0)? else {
            continue;
        };
        return Ok(Some(in_front(alloc, Pick { weight: own, at: 0 }, below.as_slice())?));
    }
    Ok(None)
}

/// Whether rows of so many last places may have a weight.
fn can_be(fits: &[Seq<bool>], places: usize, weight: usize) -> bool
    ensures { result ≡ slice_index_or (slice_index_or fits.now places []) weight true }
{
    match fits.get(places) {
        Some(known) => may_be(known.as_slice(), weight),
        None => true,
    }
}

/// The next pick of the same weight.
fn beside(counts: &[usize], pick: Pick) -> Option<Pick>
    ensures { MatchOption result (pick.at + 1 < slice_index_or counts.now pick.weight 0 → ⊥)
        (λ other. (other.weight ≡ pick.weight) × (other.at ≡ pick.at + 1) × (pick.at + 1 < slice_index_or counts.now pick.weight 0)) }
{
    let count = count_at(counts, pick.weight);
    if count == 0 {
        return None;
    }
    if pick.at >= count - 1 {
        return None;
    }
    Some(Pick {
        weight: pick.weight,
        at: pick.at + 1,
    })
}

/// The row that comes next after this one.
pub fn next_row(
    alloc: Global,
    choices: &[Seq<usize>],
    fits: &[Seq<bool>],
    weight: usize,
    row: &[Pick],
) -> Result<Option<Seq<Pick>>, NoMemory>
    requires { weight < 2 ^ 32 }
    ensures { IfOk result (λ r. AreFits choices.now fits.now → IsRow choices.now weight row.now → MatchOption r (IsSpent (Lex IsLower) (IsRow choices.now weight) (row.now ∷ []))
        (λ next. IsFirstAbove (Lex IsLower) (IsRow choices.now weight) (row.now ∷ []) next)) }
{
    let Some((first, rest)) = choices.split_first() else {
        return Ok(None);
    };
    let Some((pick, behind)) = row.split_first() else {
        return Ok(None);
    };
    if weight < pick.weight {
        return Ok(None);
    }
    if let Some(below) = next_row(alloc, rest, fits, weight - pick.weight, behind)? {
        return Ok(Some(in_front(alloc, *pick, below.as_slice())?));
    }
    if let Some(other) = beside(first.as_slice(), *pick) {
        if let Some(below) = first_from(alloc, rest, fits, weight - pick.weight, 0)? {
            return Ok(Some(in_front(alloc, other, below.as_slice())?));
        }
    }
    first_from(alloc, choices, fits, weight, pick.weight + 1)
}

/// Whether the choices at a place, and the rows behind it, may have this weight together.
fn is_sum(counts: &[usize], known: &[bool], weight: usize) -> bool
    requires { weight < 2 ^ 32 }
    ensures { result ≡ false → NoSum counts.now known.now weight }
{
    for own in 0..weight + 1 {
        if count_at(counts, own) == 0 {
            continue;
        }
        if may_be(known, weight - own) {
            return true;
        }
    }
    false
}

/// Which weights up to this one the rows with one more place may have.
fn sums(
    alloc: Global,
    counts: &[usize],
    known: &[bool],
    weight: usize,
) -> Result<Seq<bool>, NoMemory>
    requires { weight < 2 ^ 32 }
    ensures { IfOk result (λ found. (n : ℕ) → slice_index_or found n true ≡ false → NoSum counts.now known.now n) }
{
    let mut found = Seq::new(alloc);
    for total in 0..weight + 1 {
        found.push(is_sum(counts, known, total))?;
    }
    Ok(found)
}

/// Which weights up to this one the row of no places has.
fn nothing(alloc: Global, weight: usize) -> Result<Seq<bool>, NoMemory>
    requires { weight < 2 ^ 32 }
    ensures { IfOk result (λ found. (n : ℕ) → slice_index_or found n true ≡ false → n ≢ 0) }
{
    let mut found = Seq::new(alloc);
    for total in 0..weight + 1 {
        found.push(total == 0)?;
    }
    Ok(found)
}

#[tactic(auto, using(law_listing::proofs::PickFacts::more_fits, law_listing::proofs::PickFacts::no_fits))]
/// For each number of last places, which weights up to this one their rows may have.
pub fn fits_of(
    alloc: Global,
    choices: &[Seq<usize>],
    weight: usize,
) -> Result<Seq<Seq<bool>>, NoMemory>
    requires { weight < 2 ^ 32 }
    ensures { IfOk result (AreAllFits choices.now) }
{
    let Some((first, rest)) = choices.split_first() else {
        let mut found = Seq::new(alloc);
        found.push(nothing(alloc, weight)?)?;
        return Ok(found);
    };
    let mut found = fits_of(alloc, rest, weight)?;
    let known = &found.as_slice()[rest.len()];
    let more = sums(alloc, first.as_slice(), known.as_slice(), weight)?;
    found.push(more)?;
    Ok(found)
}
