ghost use Rattle.std.specs.Prelude.{◌≡◌, ◌≤◌, [], length, MatchOption};
ghost use Rattle.std.specs.List.{prefix_len};
ghost use Rattle.law_lines.specs.Pieces.{FirstPiece, is_plain, piece_of};

use law_lines::Token;

/// The first piece of some bytes, and the bytes behind it; `None` where there are no bytes.
pub(crate) fn first_piece(bytes: &[u8]) -> Option<(Token<'_>, &[u8])>
    ensures { MatchOption result (bytes.now ≡ []) (λ found. FirstPiece bytes.now (piece_of found.0) found.1.now) }
{
    match bytes {
        [] => None,
        [first, rest @ ..] => {
            if *first == b' ' {
                return Some((Token::Space, rest));
            }
            if *first == b'(' {
                return Some((Token::Open, rest));
            }
            if *first == b')' {
                return Some((Token::Close, rest));
            }
            let (word, rest) = bytes.split_at(word_len(bytes));
            Some((Token::Word(word), rest))
        }
    }
}

fn word_len(bytes: &[u8]) -> usize
    ensures length { result ≡ prefix_len is_plain bytes.now }
    ensures within { result ≤ length bytes.now }
{
    let mut count = 0;
    for byte in bytes {
        if matches!(*byte, b' ' | b'(' | b')') {
            return count;
        }
        count += 1;
    }
    count
}
