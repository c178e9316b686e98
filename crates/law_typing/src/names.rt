ghost use Rattle.std.specs.Prelude.{◌≡◌, [], ◌∷◌, ◌++◌, ◌<◌, ◌^◌, length, None, slice_get, IfOk, OnOk};
ghost use Rattle.std.specs.Option.{option_copied};
ghost use Rattle.indexmap.specs.IndexMap.{get};
ghost use Rattle.law_typing.specs.Names.{number_of};

use indexmap::IndexMap;
use law_sig::{NoMemory, Seq, Text};
use std::alloc::Global;
use std::marker::Model;

/// Names in order, and a table that finds the first place of each. Contracts see the names.
#[derive(Drop)]
pub struct Names {
    list: Seq<Text>,
    places: IndexMap<Vec<u8>, u32>,
}

impl Model for Names {
    ghost use Rattle.std.specs.Prelude.{List, ℕ};

    ghost Value = { List (List ℕ) };

    ghost view = { λ names. names.list };

    ghost use Rattle.std.specs.Prelude.{◌<◌, ◌^◌, length};
    ghost use Rattle.law_typing.specs.Table.{Finds};

    ghost invariant = { λ names. (length names.list < 2 ^ 32) × Finds names.list names.places.entries };
}

impl Names {
    /// No names.
    pub fn new(alloc: Global) -> Names
        ensures { result ≡ [] }
    {
        Names {
            list: Seq::new(alloc),
            places: IndexMap::new(alloc),
        }
    }

    /// How many names there are.
    pub fn len(&self) -> u32
        ensures { result ≡ length self.now }
    {
        self.list.len() as u32
    }

    /// The names themselves.
    pub fn into_list(self) -> Seq<Text>
        ensures { result ≡ self }
    {
        self.list
    }

    /// The name at a place.
    pub fn get(&self, place: u32) -> Option<&Text>
        ensures { option_copied result ≡ slice_get self.now place }
    {
        self.list.get(place as usize)
    }

    /// The first place of a name.
    pub fn find(&self, name: &Text) -> Option<u32>
        ensures { result ≡ number_of self.now name.now }
    {
        self.places.get(name.as_slice()).copied()
    }

    /// The names with one more at the end.
    pub fn with(self, alloc: Global, name: &Text) -> Result<Names, NoMemory>
        ensures { IfOk result (λ names. names ≡ self ++ name.now ∷ []) }
    {
        let place = self.len();
        if place == u32::MAX {
            return Err(NoMemory);
        }
        let known = self.find(name).is_some();
        let Names {
            mut list,
            mut places,
        } = self;
        list.push(name.copy(alloc)?)?;
        if !known {
            note(&mut places, copy_bytes(alloc, name)?, place)?;
        }
        Ok(Names { list, places })
    }
}

fn copy_bytes(alloc: Global, name: &Text) -> Result<Vec<u8>, NoMemory>
    ensures { IfOk result (λ bytes. bytes.items ≡ name.now) }
{
    match name.as_slice().to_vec(alloc) {
        Ok(bytes) => Ok(bytes),
        Err(_) => Err(NoMemory),
    }
}

/// Adds an entry for a key that has none.
#[tactic(auto, using(crate::proofs::NameTable::noted))]
fn note(places: &mut IndexMap<Vec<u8>, u32>, key: Vec<u8>, place: u32) -> Result<(), NoMemory>
    requires { get ⟦<Vec<u8> as PartialEq>⟧.eq places.old key ≡ None }
    ensures { OnOk result (places.new.entries ≡ places.old.entries ++ (key, place) ∷ []) }
{
    match places.insert(key, place) {
        Ok(_) => Ok(()),
        Err(_) => Err(NoMemory),
    }
}
