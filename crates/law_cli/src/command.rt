ghost use Rattle.std.specs.Prelude.{◌≡◌, ◌↔◌, ◌<◌, ◌^◌, map, string_bytes, IsTrue, MatchOption};
ghost use Rattle.law_cli.specs.Commands.{AreOtherWords, AreWordsOf, IsOtherWord, most_bytes, word_of};

/// What the program is asked to do.
#[derive(Clone, Copy, Debug)]
pub enum Command {
    /// To print the law list of a signature.
    Plain,
    /// To judge a certificate.
    Check,
}

impl Command {
    /// The command that the words name.
    pub fn of(words: &[String]) -> Option<Command>
        ensures { MatchOption result (AreOtherWords (map string_bytes words.now)) (AreWordsOf (map string_bytes words.now)) }
    {
        match words {
            [word] => Command::named(word.as_bytes()),
            _ => None,
        }
    }

    /// The command with this word.
    fn named(word: &[u8]) -> Option<Command>
        ensures { MatchOption result (IsOtherWord word.now) (λ asked. word.now ≡ word_of asked) }
    {
        if is_same(word, b"plain") {
            return Some(Command::Plain);
        }
        if is_same(word, b"check") {
            return Some(Command::Check);
        }
        None
    }

    /// How many bytes its input may have.
    pub fn most_bytes(self) -> u64
        ensures most { result ≡ most_bytes self }
        ensures few { result < 2 ^ 63 }
    {
        match self {
            Command::Plain => 1048576,
            Command::Check => 9223372036854775807,
        }
    }
}

/// Whether two texts are the same.
fn is_same(left: &[u8], right: &[u8]) -> bool
    ensures { IsTrue result ↔ (left.now ≡ right.now) }
{
    left == right
}
