ghost use Rattle.std.specs.Prelude.{◌≡◌, ◌+◌, IfOk};
ghost use Rattle.law_typing.specs.LineFaults.{nothing_seen, after_sort, after_symbol, after_match, after_case, after_pool, after_values, seen_after};

use law_lines::RawLine;
use law_sig::{NoMemory, Text};
use law_typing::{Names, Seen};
use std::alloc::Global;

/// A count that goes up, where it has room.
fn count_up(count: u32) -> Result<u32, NoMemory>
    ensures { IfOk result (λ more. more ≡ count + 1) }
{
    match count.checked_add(1) {
        Some(more) => Ok(more),
        None => Err(NoMemory),
    }
}

/// Before the first line.
pub(crate) fn nothing_seen(alloc: Global) -> Seen
    ensures { result ≡ nothing_seen }
{
    Seen {
        sorts: 0,
        symbols: 0,
        place: None,
        cases: Names::new(alloc),
        pools: 0,
        values: 0,
    }
}

/// After one more line.
pub(crate) fn seen_after(alloc: Global, seen: Seen, line: &RawLine) -> Result<Seen, NoMemory>
    ensures { IfOk result (λ next. next ≡ seen_after seen line.now) }
{
    match line {
        RawLine::SortLine(_) => after_sort(seen),
        RawLine::SortLine2 {
            name: _,
            vars: _,
            width: _,
        } => after_sort(seen),
        RawLine::ConLine { name: _, args: _ } => after_symbol(alloc, seen),
        RawLine::ConLine3 {
            weight: _,
            name: _,
            args: _,
        } => after_symbol(alloc, seen),
        RawLine::FunLine {
            name: _,
            args: _,
            result: _,
        } => after_symbol(alloc, seen),
        RawLine::FunLine3 {
            weight: _,
            name: _,
            args: _,
            result: _,
        } => after_symbol(alloc, seen),
        RawLine::MatchLine(place) => Ok(after_match(alloc, seen, *place)),
        RawLine::CaseLine { con, body: _ } => after_case(alloc, seen, con),
        RawLine::Pool => after_pool(seen),
        RawLine::Values { sort: _, values: _ } => after_values(seen),
        _ => Ok(seen),
    }
}

fn after_sort(mut seen: Seen) -> Result<Seen, NoMemory>
    ensures { IfOk result (λ next. next ≡ after_sort seen) }
{
    seen.sorts = count_up(seen.sorts)?;
    Ok(seen)
}

fn after_symbol(alloc: Global, mut seen: Seen) -> Result<Seen, NoMemory>
    ensures { IfOk result (λ next. next ≡ after_symbol seen) }
{
    seen.symbols = count_up(seen.symbols)?;
    seen.place = None;
    seen.cases = Names::new(alloc);
    Ok(seen)
}

fn after_match(alloc: Global, mut seen: Seen, place: u64) -> Seen
    ensures { result ≡ after_match place seen }
{
    seen.place = Some(place);
    seen.cases = Names::new(alloc);
    seen
}

fn after_case(alloc: Global, seen: Seen, con: &Text) -> Result<Seen, NoMemory>
    ensures { IfOk result (λ next. next ≡ after_case con.now seen) }
{
    let Seen {
        sorts,
        symbols,
        place,
        cases,
        pools,
        values,
    } = seen;
    Ok(Seen {
        sorts,
        symbols,
        place,
        cases: cases.with(alloc, con)?,
        pools,
        values,
    })
}

fn after_pool(mut seen: Seen) -> Result<Seen, NoMemory>
    ensures { IfOk result (λ next. next ≡ after_pool seen) }
{
    seen.pools = count_up(seen.pools)?;
    seen.values = 0;
    Ok(seen)
}

fn after_values(mut seen: Seen) -> Result<Seen, NoMemory>
    ensures { IfOk result (λ next. next ≡ after_values seen) }
{
    seen.values = count_up(seen.values)?;
    Ok(seen)
}
