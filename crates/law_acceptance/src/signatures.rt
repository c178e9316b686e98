//! The texts of signatures and terms: what is read and spelled again, and the first line that has no reading.
use crate::samples::NOT;
use law_read::{ReadErr, ReadKind, SigLines, read_sig, read_term, write_sig, write_term};
use law_sig::Text;
use std::alloc::{AllocError, Global};
use std::test::Fail;

const NOT_2: &str = "\
signature 2
size 3
budget 10
pairs 20
pools seed 7 height 5 count 10
sort B 1 2
con F
con T B
fun not B -> B
body = f (g #0 @1) h
explore
background not (not B.0) = B.0
end
";

const NOT_3: &str = "\
signature 3
size 3
budget 10
pairs 20
pools given
sort B 1 2
con 1 F
con 4 T
fun 1 not B -> B
match 0
case F = T
case T = F
explore not
pool
values B F (T F)
end
";

/// What is spelled of the copy of a text that is read.
fn text_again(alloc: Global, text: &[u8]) -> Result<Text, ReadErr> {
    let raw = read_sig(alloc, text)?;
    let copy = raw.copy(alloc)?;
    Ok(write_sig(alloc, &copy)?)
}

/// Whether that is the same text.
fn is_text_again(alloc: Global, text: &[u8]) -> bool {
    match text_again(alloc, text) {
        Ok(again) => again.as_slice() == text,
        Err(_) => false,
    }
}

/// A text, and what stands in it in place of what.
type Change = (&'static str, &'static str, &'static str);

const AGAIN: &[Change] = &[
    (NOT, "", ""),
    (NOT_2, "", ""),
    (NOT_3, "", ""),
    (NOT, "vars 1", "vars 9223372036854775807"),
    (NOT_3, "con 4", "con 9223372036854775807"),
    (NOT_2, "f (g #0 @1) h", "f #4294967295 @4294967295"),
];

#[test]
fn texts_are_spelled_again(rt: HostRuntime) -> Result<(), Fail> {
    for (text, from, to) in AGAIN {
        let text = text.replacen(rt.alloc(), from, to, 1)?;
        assert!(rt; is_text_again(rt.alloc(), text.as_bytes()), "{to}");
    }
    Ok(())
}

/// The first line of a text that has no reading, and why.
fn refusal(alloc: Global, text: &[u8]) -> Option<(u64, ReadKind)> {
    match text_again(alloc, text) {
        Err(ReadErr::Form { line, kind }) => Some((line, kind)),
        _ => None,
    }
}

/// A text, what stands in it in place of what, and the line that then has no reading, with the reason.
type Fault = (&'static str, &'static str, &'static str, u64, ReadKind);

const LINES: &[Fault] = &[
    (NOT, "vars 1", "vars  1", 2, ReadKind::Doubled),
    (NOT, "vars 1", " vars 1", 2, ReadKind::Doubled),
    (NOT, "vars 1", "vars 1 ", 2, ReadKind::Doubled),
    (NOT, "vars 1", "vars 01", 2, ReadKind::Number),
    (
        NOT,
        "vars 1",
        "vars 9223372036854775808",
        2,
        ReadKind::Number,
    ),
    (NOT, "vars 1", "size 3", 2, ReadKind::Word),
    (NOT, "vars 1", "vars", 2, ReadKind::Missing),
    (NOT, "vars 1", "vars\t", 2, ReadKind::Byte),
    (NOT, "vars 1", "", 2, ReadKind::Missing),
    (NOT, "vars 1", "vars 1 2", 2, ReadKind::Word),
    (NOT, "vars 1", "vars (", 2, ReadKind::Word),
    (NOT, "signature 1", "signature 4", 1, ReadKind::Word),
    (NOT, "signature 1", "signature x", 1, ReadKind::Word),
    (NOT_2, "size 3", "vars 1", 2, ReadKind::Word),
    (
        NOT,
        "sort B",
        "sort BBBBBBBBBBBBBBBBBBBBBBBBBBBBBBBBB",
        8,
        ReadKind::TooLong,
    ),
    (
        NOT,
        "con T",
        "con T B B B B B B B B B",
        10,
        ReadKind::TooLong,
    ),
    (NOT, "not B", "not B B B B B B B B B", 11, ReadKind::TooLong),
    (NOT, "not B", "not B B B B B B B B 9", 11, ReadKind::Word),
    (NOT, "con F", "con 1 F", 9, ReadKind::Word),
    (NOT_3, "con 1 F", "con F", 7, ReadKind::Number),
    (NOT_3, "con 1 F", "con 1", 7, ReadKind::Missing),
    (
        NOT_3,
        "con 4",
        "con 9223372036854775808",
        8,
        ReadKind::Number,
    ),
    (NOT_2, "f (g #0 @1) h", "f #01", 10, ReadKind::Number),
    (
        NOT_2,
        "f (g #0 @1) h",
        "f #4294967296",
        10,
        ReadKind::Number,
    ),
    (
        NOT_2,
        "f (g #0 @1) h",
        "f @4294967296",
        10,
        ReadKind::Number,
    ),
    (NOT_2, "f (g #0 @1) h", "B.0", 10, ReadKind::Word),
    (NOT, "B F T", "B", 17, ReadKind::Missing),
    (NOT, "B F T", "B (F)", 17, ReadKind::Word),
];

/// Where two kinds compete, and where a bound is kept just so.
const COMPETING: &[Fault] = &[
    (NOT, "vars 1", "vars  \t", 2, ReadKind::Byte),
    (NOT, "vars 1", "size  x", 2, ReadKind::Doubled),
    (NOT, "vars 1", " ", 2, ReadKind::Doubled),
    (NOT, "vars 1", "\x7f", 2, ReadKind::Byte),
    (
        NOT,
        "con T",
        "con T B B B B B B B B 9",
        10,
        ReadKind::TooLong,
    ),
    (
        NOT,
        "F = T",
        "F = f a a a a a a a a (",
        13,
        ReadKind::TooLong,
    ),
    (
        NOT_2,
        "not (not B.0) = B.0",
        "f a a a a a a a a B.x = a",
        12,
        ReadKind::Number,
    ),
    (
        NOT_2,
        "not (not B.0) = B.0",
        "f a a a a a a a a 9 = a",
        12,
        ReadKind::Word,
    ),
    (
        NOT_2,
        "not (not B.0) = B.0",
        "f a a a a a a a a b = a",
        12,
        ReadKind::TooLong,
    ),
    (
        NOT_2,
        "not (not B.0) = B.0",
        "f a a a a a a a a =",
        12,
        ReadKind::Missing,
    ),
    (NOT_2, "height 5 count 10", "height (", 5, ReadKind::Word),
    (NOT_2, "height 5 count 10", "heigth x", 5, ReadKind::Word),
    (
        NOT_2,
        "pools seed 7 height 5 count 10",
        "pools",
        5,
        ReadKind::Missing,
    ),
    (
        NOT_2,
        "pools seed 7 height 5 count 10",
        "pools x",
        5,
        ReadKind::Word,
    ),
];

const TEXTS: &[Fault] = &[
    ("", "", "", 1, ReadKind::Missing),
    ("signature 1\n\n", "", "", 2, ReadKind::Missing),
    ("signature 1\nvars\t1", "", "", 2, ReadKind::Missing),
    ("signature 1\nvars  \t", "", "", 2, ReadKind::Missing),
    ("signature 1\nvars 1\n", "", "", 3, ReadKind::Missing),
    (NOT, "end\n", "end", 18, ReadKind::Missing),
    (NOT, "end\n", "end\nend\n", 19, ReadKind::Word),
    (NOT, "end\n", "end\n\n", 19, ReadKind::Word),
];

/// The place of the first of these, from 0, that is refused otherwise.
fn first_other(alloc: Global, table: &[Fault]) -> Result<Option<usize>, AllocError> {
    for (at, (text, from, to, line, kind)) in table.iter().enumerate() {
        let text = text.replacen(alloc, from, to, 1)?;
        if refusal(alloc, text.as_bytes()) != Some((*line, *kind)) {
            return Ok(Some(at));
        }
    }
    Ok(None)
}

#[test]
fn first_lines_without_a_reading(rt: HostRuntime) -> Result<(), Fail> {
    assert_eq!(rt; first_other(rt.alloc(), LINES)?, None);
    assert_eq!(rt; first_other(rt.alloc(), COMPETING)?, None);
    assert_eq!(rt; first_other(rt.alloc(), TEXTS)?, None);
    Ok(())
}

/// What is spelled of a text that is read line by line, of which the last one alone is its end.
fn again_by_lines(alloc: Global, text: &str) -> Result<Option<Text>, ReadErr> {
    let mut reader = SigLines::new(alloc);
    for line in text.lines() {
        if reader.add(line.as_bytes())? != (line == "end") {
            return Ok(None);
        }
    }
    let raw = reader.finish()?;
    Ok(Some(write_sig(alloc, &raw)?))
}

/// Whether that is the same text.
fn is_text_by_lines(alloc: Global, text: &str) -> bool {
    match again_by_lines(alloc, text) {
        Ok(Some(again)) => again.as_slice() == text.as_bytes(),
        _ => false,
    }
}

#[test]
fn lines_one_by_one(rt: HostRuntime) {
    assert!(rt; is_text_by_lines(rt.alloc(), NOT));
}

/// Whether the second of these lines is refused, and then each call gives the same answer.
fn stays_refused(alloc: Global, lines: &[&str]) -> bool {
    let mut reader = SigLines::new(alloc);
    let refused = ReadErr::Form {
        line: 2,
        kind: ReadKind::Number,
    };
    for (at, line) in lines.iter().enumerate() {
        let want = if at == 0 { Ok(false) } else { Err(refused) };
        if reader.add(line.as_bytes()) != want {
            return false;
        }
    }
    reader.finish().err() == Some(refused)
}

#[test]
fn lines_stay_refused(rt: HostRuntime) {
    assert!(rt; stays_refused(rt.alloc(), &["signature 1", "vars x", "vars 1"]));
}

/// What is spelled of the copy of a term that is read.
fn term_again(alloc: Global, text: &[u8]) -> Result<Text, ReadErr> {
    let term = read_term(alloc, text)?;
    let copy = term.copy(alloc)?;
    Ok(write_term(alloc, &copy)?)
}

/// Whether a term is read and spelled again, where no fault is wanted; or has no reading, for this reason.
fn is_term(alloc: Global, text: &[u8], want: Option<ReadKind>) -> bool {
    match (term_again(alloc, text), want) {
        (Ok(again), None) => again.as_slice() == text,
        (Err(ReadErr::Form { line: 1, kind }), Some(want)) => kind == want,
        _ => false,
    }
}

/// A text, and why it is no term, where it is none.
type Read = (&'static str, Option<ReadKind>);

const TERMS: &[Read] = &[
    ("not (not B.0)", None),
    ("f a a a a a a a (g B.4294967295)", None),
    ("not (B.0)", Some(ReadKind::Word)),
    ("B.x", Some(ReadKind::Number)),
    ("B.", Some(ReadKind::Number)),
    ("B.01", Some(ReadKind::Number)),
    ("B.4294967296", Some(ReadKind::Number)),
    ("1a.x", Some(ReadKind::Number)),
    ("#0", Some(ReadKind::Word)),
    ("f (B.x a)", Some(ReadKind::Word)),
    ("f (g a", Some(ReadKind::Missing)),
    ("f a)", Some(ReadKind::Word)),
    ("f a a a a a a a a a", Some(ReadKind::TooLong)),
    ("", Some(ReadKind::Missing)),
    ("BBBBBBBBBBBBBBBBBBBBBBBBBBBBBBBB.0", None),
    (
        "BBBBBBBBBBBBBBBBBBBBBBBBBBBBBBBBB.0",
        Some(ReadKind::TooLong),
    ),
    (
        "BBBBBBBBBBBBBBBBBBBBBBBBBBBBBBBBB.x",
        Some(ReadKind::Number),
    ),
    ("BBBBBBBBBBBBBBBBBBBBBBBBBBBBBBBB_", Some(ReadKind::TooLong)),
    ("_BBBBBBBBBBBBBBBBBBBBBBBBBBBBBBBBB", Some(ReadKind::Word)),
];

/// The first of these texts that is read otherwise.
fn first_other_term(alloc: Global, table: &[Read]) -> Option<&'static str> {
    for (text, want) in table {
        if !is_term(alloc, text.as_bytes(), *want) {
            return Some(text);
        }
    }
    None
}

#[test]
fn terms(rt: HostRuntime) {
    assert_eq!(rt; first_other_term(rt.alloc(), TERMS), None);
}

/// `f (f (.. (f a)))` with this many pairs of brackets.
fn nested(alloc: Global, pairs: usize) -> Result<String, AllocError> {
    let open = "f (".repeat(alloc, pairs)?;
    let close = ")".repeat(alloc, pairs)?;
    format!(in alloc; "{open}f a{close}")
}

/// `f` and this many arguments of 585 nodes each, and then the tail.
fn broad(alloc: Global, count: usize, tail: &str) -> Result<String, AllocError> {
    let mut part = String::from_str(alloc, " a")?;
    for _ in 0..3u32 {
        let inside = part.as_str().repeat(alloc, 8)?;
        part = format!(in alloc; " (f{inside})")?;
    }
    let all = part.as_str().repeat(alloc, count)?;
    format!(in alloc; "f{all}{tail}")
}

/// 256 levels and 4,096 nodes are the most.
#[test]
fn bounds_of_terms(rt: HostRuntime) -> Result<(), Fail> {
    let alloc = rt.alloc();
    for (text, want) in [
        (nested(alloc, 254)?, None),
        (nested(alloc, 255)?, Some(ReadKind::TooLong)),
        (broad(alloc, 7, "")?, None),
        (broad(alloc, 7, " a")?, Some(ReadKind::TooLong)),
    ] {
        assert!(rt; is_term(alloc, text.as_bytes(), want));
    }
    Ok(())
}
