ghost use Rattle.std.specs.Prelude.{◌≡◌, [], ◌∷◌, ◌++◌, OnOk, OnErr};

use law_sig::{NoMemory, Seq};
use std::alloc::Global;
use std::marker::Model;

/// A place of a term: the numbers of the arguments on the way down, from 0.
#[derive(Debug, Drop)]
pub struct Pos {
    numbers: Seq<u32>,
}

impl Model for Pos {
    ghost use Rattle.std.specs.Prelude.{List, ℕ};

    ghost Value = { List ℕ };

    ghost view = { λ pos. pos.numbers };
}

impl Pos {
    /// The root. It takes no memory.
    pub fn new(alloc: Global) -> Pos
        ensures { result ≡ [] }
    {
        Pos {
            numbers: Seq::new(alloc),
        }
    }

    /// Goes on to an argument. After a refusal the place is as before.
    pub fn push(&mut self, at: u32) -> Result<(), NoMemory>
        ensures ok { OnOk result (self.new ≡ self.old ++ at ∷ []) }
        ensures err { OnErr result (self.new ≡ self.old) }
    {
        self.numbers.push(at)
    }

    /// The numbers, from the root down.
    pub fn as_slice(&self) -> &[u32]
        ensures { result.now ≡ self.now }
    {
        self.numbers.as_slice()
    }
}
