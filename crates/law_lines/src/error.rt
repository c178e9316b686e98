ghost use Rattle.std.specs.Prelude.{◌≡◌};

use law_sig::NoMemory;

/// Why a line has no reading: a byte that no text has; something that isn't what is wanted; a number
/// that isn't one; an end where something is needed; a space too many; or more than the bounds let in.
#[derive(Clone, Copy, Debug, PartialEq, Eq)]
pub enum ReadKind {
    Byte,
    Word,
    Number,
    Missing,
    Doubled,
    TooLong,
}

/// Why a text isn't read: the first line that has no reading, counted from 1, or want of memory.
#[derive(Clone, Copy, Debug, PartialEq, Eq)]
pub enum ReadErr {
    Form { line: u64, kind: ReadKind },
    NoMemory,
}

impl From<NoMemory> for ReadErr {
    ghost use Rattle.law_lines.specs.declared.error.ReadErr.TheVariants as e;

    ghost from_gives = { λ _ error. error ≡ e.NoMemory };

    fn from(_: NoMemory) -> ReadErr {
        ReadErr::NoMemory
    }
}

/// Why the reading of one line stops.
#[derive(Clone, Copy, Debug)]
pub enum Stop {
    Form(ReadKind),
    NoMemory,
}

impl From<NoMemory> for Stop {
    ghost use Rattle.law_lines.specs.declared.error.Stop.TheVariants as s;

    ghost from_gives = { λ _ stop. stop ≡ s.NoMemory };

    fn from(_: NoMemory) -> Stop {
        Stop::NoMemory
    }
}

impl From<ReadKind> for Stop {
    ghost use Rattle.law_lines.specs.declared.error.Stop.TheVariants as s;

    ghost from_gives = { λ kind stop. stop ≡ s.Form kind };

    fn from(kind: ReadKind) -> Stop {
        Stop::Form(kind)
    }
}
