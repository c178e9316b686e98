ghost use Rattle.std.specs.Prelude.{◌≡◌};
ghost use Rattle.law_lines.specs.Order.{shape_of};
ghost use Rattle.law_lines.specs.Stages.{allows, allows_after, allows_first, allows_last, allows_width, given_after, key_number, line_key, same_key, stage_after, version_after};

use crate::raw::RawLine;

/// The version of a text, which its first line names.
#[derive(Clone, Copy, Debug)]
pub enum Version {
    First,
    Second,
    Third,
}

/// The word that a line begins with.
#[derive(Clone, Copy, Debug)]
pub enum Key {
    Signature,
    Vars,
    Size,
    Width,
    Budget,
    Pairs,
    Pools,
    Sort,
    Con,
    Fun,
    Match,
    Body,
    Case,
    Explore,
    Background,
    Pool,
    Values,
    End,
}

/// How far a text has come: its version, whether its pools are given, and the last line's key. Before
/// the first line the version is `First` and nothing is given.
#[derive(Clone, Copy, Debug)]
pub struct Stage {
    pub version: Version,
    pub given: bool,
    pub last: Option<Key>,
}

impl Key {
    fn number(self) -> u8
        ensures { result ≡ key_number self }
    {
        match self {
            Key::Signature => 0,
            Key::Vars => 1,
            Key::Size => 2,
            Key::Width => 3,
            Key::Budget => 4,
            Key::Pairs => 5,
            Key::Pools => 6,
            Key::Sort => 7,
            Key::Con => 8,
            Key::Fun => 9,
            Key::Match => 10,
            Key::Body => 11,
            Key::Case => 12,
            Key::Explore => 13,
            Key::Background => 14,
            Key::Pool => 15,
            Key::Values => 16,
            Key::End => 17,
        }
    }

    /// Whether both are the same word.
    pub fn is(self, other: Key) -> bool
        ensures { result ≡ same_key self other }
    {
        self.number() == other.number()
    }
}

impl Stage {
    /// Whether a line with this key may come next.
    pub fn allows(self, key: Key) -> bool
        ensures { result ≡ allows self key }
    {
        match self.last {
            None => key.is(Key::Signature),
            Some(last) => self.allows_after(last, key),
        }
    }

    fn allows_after(self, last: Key, key: Key) -> bool
        ensures { result ≡ allows_after self.version self.given last key }
    {
        match last {
            Key::Signature => self.allows_first(key),
            Key::Vars => key.is(Key::Size),
            Key::Size => self.allows_width(key),
            Key::Width => key.is(Key::Budget),
            Key::Budget => key.is(Key::Pairs),
            Key::Pairs => key.is(Key::Pools),
            Key::Pools => key.is(Key::Sort),
            Key::Sort => key.is(Key::Con),
            Key::Con => key.is(Key::Con)
                || key.is(Key::Sort)
                || key.is(Key::Fun)
                || key.is(Key::Explore),
            Key::Fun => key.is(Key::Body) || key.is(Key::Match),
            Key::Match => key.is(Key::Case),
            Key::Body => key.is(Key::Fun) || key.is(Key::Explore),
            Key::Case => key.is(Key::Case) || key.is(Key::Fun) || key.is(Key::Explore),
            Key::Explore => self.allows_last(key),
            Key::Background => self.allows_last(key),
            Key::Pool => key.is(Key::Values),
            Key::Values => key.is(Key::Values) || key.is(Key::Pool) || key.is(Key::End),
            Key::End => false,
        }
    }

    fn allows_first(self, key: Key) -> bool
        ensures { result ≡ allows_first self.version key }
    {
        match self.version {
            Version::First => key.is(Key::Vars),
            Version::Second => key.is(Key::Size),
            Version::Third => key.is(Key::Size),
        }
    }

    fn allows_width(self, key: Key) -> bool
        ensures { result ≡ allows_width self.version key }
    {
        match self.version {
            Version::First => key.is(Key::Width),
            Version::Second => key.is(Key::Budget),
            Version::Third => key.is(Key::Budget),
        }
    }

    fn allows_last(self, key: Key) -> bool
        ensures { result ≡ allows_last self.given key }
    {
        if self.given {
            key.is(Key::Background) || key.is(Key::Pool)
        } else {
            key.is(Key::Background) || key.is(Key::End)
        }
    }

    /// The stage behind one more line.
    pub fn after(self, line: &RawLine) -> Stage
        ensures { result ≡ stage_after self line.now }
    {
        Stage {
            version: version_after(self.version, line),
            given: given_after(self.given, line),
            last: Some(key_of_line(line)),
        }
    }
}

fn version_after(version: Version, line: &RawLine) -> Version
    ensures { result ≡ version_after version (shape_of line.now) }
{
    match line {
        RawLine::Head => Version::First,
        RawLine::Head2 => Version::Second,
        RawLine::Head3 => Version::Third,
        _ => version,
    }
}

fn given_after(given: bool, line: &RawLine) -> bool
    ensures { result ≡ given_after given (shape_of line.now) }
{
    match line {
        RawLine::PoolsGiven => true,
        RawLine::PoolsSeed { .. } => false,
        _ => given,
    }
}

fn key_of_line(line: &RawLine) -> Key
    ensures { result ≡ line_key line.now }
{
    match line {
        RawLine::Head | RawLine::Head2 | RawLine::Head3 => Key::Signature,
        RawLine::Vars(_) => Key::Vars,
        RawLine::Size(_) => Key::Size,
        RawLine::Width(_) => Key::Width,
        RawLine::Budget(_) => Key::Budget,
        RawLine::Pairs(_) => Key::Pairs,
        RawLine::PoolsGiven | RawLine::PoolsSeed { .. } => Key::Pools,
        RawLine::SortLine(_) | RawLine::SortLine2 { .. } => Key::Sort,
        RawLine::ConLine { .. } | RawLine::ConLine3 { .. } => Key::Con,
        RawLine::FunLine { .. } | RawLine::FunLine3 { .. } => Key::Fun,
        RawLine::MatchLine(_) => Key::Match,
        RawLine::BodyLine(_) => Key::Body,
        RawLine::CaseLine { .. } => Key::Case,
        RawLine::Explore(_) => Key::Explore,
        RawLine::Background { .. } => Key::Background,
        RawLine::Pool => Key::Pool,
        RawLine::Values { .. } => Key::Values,
        RawLine::End => Key::End,
    }
}
