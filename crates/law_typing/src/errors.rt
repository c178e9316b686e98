use law_sig::{NoMemory, SortId};

/// What is wrong with a line of a signature.
#[derive(Clone, Copy, Debug, PartialEq, Eq)]
pub enum TypeKind {
    /// A sort that isn't declared.
    UnknownSort,
    /// A symbol that isn't declared.
    UnknownName,
    /// A name that stood before.
    NameTwice,
    /// A wrong number of arguments, values or lines, or a number of an argument that there isn't.
    Arity,
    /// Something of another sort than the one that is wanted.
    SortMismatch { wanted: SortId, found: SortId },
    /// A constructor without a case.
    CaseMissing,
    /// A second case for a constructor.
    CaseTwice,
    /// A function that calls itself on something else than a field of what it matches.
    NotSmaller,
    /// A call of a function that is declared later.
    LaterCall,
    /// A sort without values.
    EmptySort,
    /// A number outside of its range.
    SettingRange,
}

/// Why lines state no signature: the first line that shows a fault, counted from 1, with its first fault; or memory
/// ran out.
#[derive(Clone, Copy, Debug, PartialEq, Eq)]
pub enum TypeErr {
    At { line: u64, kind: TypeKind },
    NoMemory,
}

impl From<NoMemory> for TypeErr {
    ghost use Rattle.law_typing.specs.declared.errors.TypeErr.TheVariants as e;
    ghost use Rattle.std.specs.Prelude.{◌≡◌};

    ghost from_gives = { λ _ d. d ≡ e.NoMemory };

    fn from(_: NoMemory) -> TypeErr {
        TypeErr::NoMemory
    }
}
