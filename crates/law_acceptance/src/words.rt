//! Numbers, names, and the pieces of a line.
use law_sig::Text;
use law_text::{Line, Span, Token, index, is_name, number, put_number};

const NUMBERS: &[(&str, Option<u64>)] = &[
    ("4096", Some(4096)),
    ("0", Some(0)),
    ("9223372036854775807", Some(9223372036854775807)),
    ("9223372036854775808", None),
    ("01", None),
    ("", None),
];

const INDICES: &[(&str, Option<u32>)] = &[
    ("0", Some(0)),
    ("4294967295", Some(4294967295)),
    ("4294967296", None),
    ("x", None),
];

#[test]
fn numbers(rt: HostRuntime) {
    for (word, want) in NUMBERS {
        assert_eq!(rt; number(word.as_bytes()), *want, "{word}");
    }
    for (word, want) in INDICES {
        assert_eq!(rt; index(word.as_bytes()), *want, "{word}");
    }
}

#[test]
fn a_number_is_spelled(rt: HostRuntime) {
    let mut text = Text::new(rt.alloc());
    assert!(rt; put_number(&mut text, 4096).is_ok() && text.as_slice() == b"4096".as_slice());
}

/// Whether the next piece is of this form, and stands between these places.
fn is_next(line: &mut Line, form: &str, from: usize, to: usize) -> bool {
    let Some((token, Span { start, end })) = line.next() else {
        return false;
    };
    let found = match token {
        Token::Open => "(",
        Token::Close => ")",
        Token::Space => " ",
        Token::Word(_) => "word",
    };
    found == form && start == from && end == to
}

/// The pieces of `f (ab)`, and where each stands.
const PIECES: &[(&str, usize, usize)] = &[
    ("word", 0, 1),
    (" ", 1, 2),
    ("(", 2, 3),
    ("word", 3, 5),
    (")", 5, 6),
];

#[test]
fn pieces(rt: HostRuntime) {
    let mut line = Line::new(b"f (ab)");
    for (form, start, end) in PIECES {
        assert!(rt; is_next(&mut line, form, *start, *end), "{form}");
    }
    assert!(rt; line.next().is_none());
    assert!(rt; is_name(b"a_1"));
    assert!(rt; !is_name(b"1a"));
}
