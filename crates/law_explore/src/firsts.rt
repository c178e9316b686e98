ghost use Rattle.std.specs.Prelude.{◌==◌, IfOk};
ghost use Rattle.indexmap.specs.IndexMap.{get};
ghost use Rattle.law_explore.specs.Firsts.{AreFirsts, IsNoted};

use indexmap::IndexMap;
use law_sig::NoMemory;
use std::alloc::Global;

/// The first place of a class: the one that is noted, or else this one, which is noted from then on.
fn note(places: &mut IndexMap<usize, usize>, class: usize, at: usize) -> Result<usize, NoMemory>
    ensures { IfOk result (λ first. IsNoted (get ◌==◌ places.old) (get ◌==◌ places.new) class at first) }
{
    if let Some(first) = places.get(&class) {
        return Ok(*first);
    }
    match places.insert(class, at) {
        Ok(_) => Ok(at),
        Err(_) => Err(NoMemory),
    }
}

/// For each place the first place that has the same class.
pub fn first_same(alloc: Global, classes: Vec<usize>) -> Result<Vec<usize>, NoMemory>
    ensures { IfOk result (λ firsts. AreFirsts classes.items firsts.items) }
{
    let mut places = IndexMap::new(alloc);
    let mut firsts = Vec::new(alloc);
    for class in classes {
        let at = firsts.len();
        let first = note(&mut places, class, at)?;
        let Ok(()) = firsts.push(first) else {
            return Err(NoMemory);
        };
    }
    Ok(firsts)
}
