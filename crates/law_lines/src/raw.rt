use law_sig::{Seq, Text};

/// What a written term begins with: a name, a variable by its sort's name and its index, a parameter
/// of a function, or a field of a matched constructor.
#[derive(Debug, Drop)]
pub enum RawHead {
    Name(Text),
    Var(Text, u32),
    Param(u32),
    Field(u32),
}

/// A written term, before anything is known of its names.
#[derive(Debug, Drop)]
pub struct RawTerm {
    pub head: RawHead,
    pub args: Seq<RawTerm>,
}

/// A line of a signature. `Head`, `Head2` and `Head3` begin a text of the first, second and third
/// version; a variant whose name ends in a number is the form of that line from that version on.
#[derive(Debug, Drop)]
pub enum RawLine {
    Head,
    Head2,
    Head3,
    Vars(u64),
    Size(u64),
    Width(u64),
    Budget(u64),
    Pairs(u64),
    PoolsGiven,
    PoolsSeed {
        seed: u64,
        height: u64,
        count: u64,
    },
    SortLine(Text),
    SortLine2 {
        name: Text,
        vars: u64,
        width: u64,
    },
    ConLine {
        name: Text,
        args: Seq<Text>,
    },
    ConLine3 {
        weight: u64,
        name: Text,
        args: Seq<Text>,
    },
    FunLine {
        name: Text,
        args: Seq<Text>,
        result: Text,
    },
    FunLine3 {
        weight: u64,
        name: Text,
        args: Seq<Text>,
        result: Text,
    },
    MatchLine(u64),
    BodyLine(RawTerm),
    CaseLine {
        con: Text,
        body: RawTerm,
    },
    Explore(Seq<Text>),
    Background {
        left: RawTerm,
        right: RawTerm,
    },
    Pool,
    Values {
        sort: Text,
        values: Seq<RawTerm>,
    },
    End,
}
