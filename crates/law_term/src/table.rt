ghost use Rattle.std.specs.Prelude.{◌≡◌, ◌<◌, ◌^◌, IfOk, OnOk};
ghost use Rattle.law_term.specs.Tables.{var_key, place_by, IsCounted, IsNumberPut, HavePlaces};

use indexmap::IndexMap;
use law_sig::{NoMemory, SortId};
use std::alloc::Global;

/// The key of a variable.
fn key_of(sort: SortId, index: u32) -> u64
    ensures key { result ≡ var_key sort index }
    ensures small { index < 2 ^ 32 }
{
    u64::from(sort.0) * 4_294_967_296 + u64::from(index)
}

/// How many were counted under a key; now one more is, up to 2^32 - 1.
fn count(counts: &mut IndexMap<u64, u32>, key: u64) -> Result<u32, NoMemory>
    ensures { IfOk result (λ n. IsCounted key n counts.old.entries counts.new.entries) }
{
    let count = match counts.get(&key) {
        Some(count) => *count,
        None => 0,
    };
    let Ok(_) = counts.insert(key, count.saturating_add(1)) else {
        return Err(NoMemory);
    };
    Ok(count)
}

/// Puts a number under a key that has none.
fn put(places: &mut IndexMap<u64, u32>, key: u64, number: u32) -> Result<(), NoMemory>
    ensures { OnOk result (IsNumberPut key number places.old.entries places.new.entries) }
{
    if places.get(&key).is_some() {
        return Ok(());
    }
    let Ok(_) = places.insert(key, number) else {
        return Err(NoMemory);
    };
    Ok(())
}

/// How many variables of its sort stand before each of these, up to 2^32 - 1.
pub fn places_of(alloc: Global, variables: &[(SortId, u32)]) -> Result<IndexMap<u64, u32>, NoMemory>
    ensures { IfOk result (λ places. HavePlaces variables.now places.entries) }
{
    let mut counts = IndexMap::new(alloc);
    let mut places = IndexMap::new(alloc);
    for at in 0..variables.len() {
        let variable = variables[at];
        let number = count(&mut counts, u64::from(variable.0.0))?;
        put(&mut places, key_of(variable.0, variable.1), number)?;
    }
    Ok(places)
}

/// The place of a variable.
pub fn place_by(places: &IndexMap<u64, u32>, sort: SortId, index: u32) -> u32
    ensures { result ≡ place_by places.now.entries sort index }
{
    match places.get(&key_of(sort, index)) {
        Some(place) => *place,
        None => u32::MAX,
    }
}
