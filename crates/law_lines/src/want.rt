ghost use Rattle.std.specs.Prelude.{◌≡◌};
ghost use Rattle.law_lines.specs.Walk.{mark_text};

use crate::stage::Stage;

/// Whether the bounds on names, arguments, nodes and depth hold. Without them is how a place is
/// looked at that has no reading, to tell what passes a bound from what is wrong altogether.
#[derive(Clone, Copy, Debug)]
pub enum Bounds {
    Kept,
    Free,
}

/// Where a term stands: in an equation, in the body of a function, or as a value of a pool.
#[derive(Clone, Copy, Debug)]
pub enum Place {
    Equation,
    Body,
    Value,
}

/// A fixed word inside a line.
#[derive(Clone, Copy, Debug)]
pub enum Mark {
    Equals,
    Arrow,
    Height,
    Count,
}

impl Mark {
    /// The bytes of the word.
    pub fn text(self) -> &'static [u8]
        ensures { result.now ≡ mark_text self }
    {
        match self {
            Mark::Equals => b"=",
            Mark::Arrow => b"->",
            Mark::Height => b"height",
            Mark::Count => b"count",
        }
    }
}

/// What comes behind a row: the end of the line, a closing bracket, or a space and a fixed word.
#[derive(Clone, Copy, Debug)]
pub enum Ending {
    Line,
    Bracket,
    Mark(Mark),
}

/// Words and terms in a row, each behind a space: the argument sorts of a symbol, names in any
/// number, the arguments of a term, or the values of a pool.
#[derive(Clone, Copy, Debug)]
pub enum Row {
    Sorts,
    Names,
    Args(Place),
    Values,
}

/// What a line wants next. At the start that is the key of a line that may come at this stage; behind
/// `signature` the version, and behind `pools` how the pools are given. A row has its depth, how many items it has so far, and what ends it; at
/// `Item` the space before one more item, or before the fixed word at the end, was read.
#[derive(Clone, Copy, Debug)]
pub enum Want {
    Key(Stage),
    Version,
    Pools,
    Gap,
    Fixed(Mark),
    Number,
    Name,
    Head,
    Root {
        place: Place,
        ending: Ending,
    },
    Row {
        row: Row,
        depth: u32,
        count: usize,
        ending: Ending,
    },
    Item {
        row: Row,
        depth: u32,
        count: usize,
        ending: Ending,
    },
}
