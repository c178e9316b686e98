//! The texts of certificates: what is read and spelled again, whole and in pieces, and the first line that has no reading.
use crate::samples::{
    AND_CERT, CONSTANT_CERT, Cert, FIRST_CERT, NOT_CERT, ONE_VALUE_CERT, PAIRS_CERT, PLUS_CERT,
    ROTATIONS_CERT, SEEDED_CERT, text_of,
};
use law_cert::{CertErr, CertReader, read_cert, write_cert};
use law_sig::Text;
use std::alloc::{AllocError, Global};
use std::test::Fail;

/// What is spelled of a certificate that is read whole.
fn again(alloc: Global, text: &[u8]) -> Result<Text, CertErr> {
    let cert = read_cert(alloc, text)?;
    Ok(write_cert(alloc, &cert)?)
}

/// What is spelled of a certificate that is read one byte at a time, with empty pieces between them.
fn again_by_bytes(alloc: Global, text: &[u8]) -> Result<Text, CertErr> {
    let mut reader = CertReader::new(alloc);
    for byte in text {
        reader.feed(&[*byte])?;
        reader.feed(b"")?;
    }
    let cert = reader.finish()?;
    Ok(write_cert(alloc, &cert)?)
}

/// Whether a text is spelled again, both ways.
fn is_text_again(alloc: Global, text: &[u8]) -> bool {
    match (again(alloc, text), again_by_bytes(alloc, text)) {
        (Ok(whole), Ok(by_bytes)) => whole.as_slice() == text && by_bytes.as_slice() == text,
        _ => false,
    }
}

const AGAIN: &[Cert] = &[
    NOT_CERT,
    AND_CERT,
    FIRST_CERT,
    ROTATIONS_CERT,
    ONE_VALUE_CERT,
    PLUS_CERT,
    CONSTANT_CERT,
    SEEDED_CERT,
    PAIRS_CERT,
];

#[test]
fn texts_are_spelled_again(rt: HostRuntime) -> Result<(), Fail> {
    for cert in AGAIN {
        let text = text_of(rt.alloc(), *cert)?;
        assert!(rt; is_text_again(rt.alloc(), text.as_bytes()), "{text}");
    }
    Ok(())
}

/// The line that is refused, where it is the same one whether the text is read whole or one byte at a time.
fn refused_line(alloc: Global, text: &[u8]) -> Option<u64> {
    match (again(alloc, text), again_by_bytes(alloc, text)) {
        (Err(CertErr::Form { line }), Err(CertErr::Form { line: other })) if line == other => {
            Some(line)
        }
        _ => None,
    }
}

/// What stands in the certificate of conjunction in place of what, and the line that then has no reading.
type Row = (&'static str, &'static str, u64);

const HEADS: &[Row] = &[
    ("certificate 1\n", "certificate 2\n", 1),
    ("certificate 1\n", "lawlist 1\n", 1),
    ("vars 2\n", "vars 02\n", 3),
    ("fun and B B -> B\n", "", 12),
    ("end\npool\n", "end\n", 20),
    ("end\npool\nvalues B F T\n", "end\npool\n", 21),
    ("end\npool\nvalues B F T\n", "end\npool\nvalues B\n", 21),
    (
        "end\npool\nvalues B F T\n",
        "end\npool\nvalues B F B.0\n",
        21,
    ),
];

const ENTRIES: &[Row] = &[
    ("spread B.0\n", "step - 1 lr B.0 B.0\n", 22),
    ("live B.0\n", "step - 1 lr\n", 23),
    ("spread B.0\n", "spread B.0 \n", 22),
    ("spread B.0\n", "spread\n", 22),
    ("law 1 saturated", "law 1", 26),
    ("law 1 saturated", "law 1 plain", 26),
    ("law 1 saturated", "law 01 saturated", 26),
    (
        "law 1 saturated and B.0 B.0 = B.0",
        "law 1 spent and B.0 B.0",
        26,
    ),
    ("step - 1 lr B.0 B.0\n", "step - 1 lr B.0\n", 28),
    ("step - 1 lr B.0 B.0\n", "step 0. 1 lr B.0 B.0\n", 28),
    (
        "step - 1 lr B.0 B.0\n",
        "step 0.4294967296 1 lr B.0 B.0\n",
        28,
    ),
    ("step - 1 lr B.0 B.0\n", "step - 1 xx B.0 B.0\n", 28),
    ("step - 1 lr B.0 B.0\n", "step - 1 lr B B.0\n", 28),
    ("step - 1 lr B.0 B.0\n", "step - 1 lr B.0 (B.0)\n", 28),
    ("step - 1 lr B.0 B.0\n", "step - 1 lr B.0 (and B.0\n", 28),
    // the step has a reading, so that the line behind it is the first without one
    (
        "step - 1 lr B.0 B.0\n",
        "step 0.1.0 7 rl B.0 (and B.0 (and F T)) C.4294967295 x\nstep - 0\n",
        29,
    ),
];

const TREES: &[Row] = &[
    ("tree B\n", "tree 1\n", 35),
    ("class 1 2\n", "class\n", 36),
    ("class 1 2\n", "split 1 1\n", 36),
    ("class 1 2\n", "leaf 1\n", 36),
    ("split 1 2\n", "split 1 1\n", 37),
    ("split 1 2\n", "class 1\n", 37),
    ("split 2 2\n", "split 2 3\n", 42),
    ("leaf 1\n", "leaf 1\nleaf 1\n", 40),
    ("leaf 3\nend\n", "leaf 3\nlive B.0\nend\n", 42),
    ("leaf 3\nend\n", "leaf 3\npool\n", 42),
    ("leaf 3\nend\n", "leaf 3\n", 42),
    ("leaf 3\nend\n", "leaf 3\nend\nend\n", 43),
    ("leaf 3\nend\n", "leaf 3\nend\n\n", 43),
    ("leaf 3\nend\n", "leaf 3\nend", 42),
    ("leaf 3\nend\n", "leaf 3\nend\ne", 43),
];

/// The place of the first row, from 0, whose line isn't the one that is refused.
fn first_other(alloc: Global, whole: &str, rows: &[Row]) -> Result<Option<usize>, AllocError> {
    for (at, (from, to, line)) in rows.iter().enumerate() {
        let text = whole.replacen(alloc, from, to, 1)?;
        if refused_line(alloc, text.as_bytes()) != Some(*line) {
            return Ok(Some(at));
        }
    }
    Ok(None)
}

#[test]
fn damaged_lines(rt: HostRuntime) -> Result<(), Fail> {
    let whole = text_of(rt.alloc(), AND_CERT)?;
    assert_eq!(rt; first_other(rt.alloc(), whole.as_str(), HEADS)?, None);
    assert_eq!(rt; first_other(rt.alloc(), whole.as_str(), ENTRIES)?, None);
    assert_eq!(rt; first_other(rt.alloc(), whole.as_str(), TREES)?, None);
    for (text, line) in [("", 1), ("certificate 1\n", 2)] {
        assert_eq!(rt;
            refused_line(rt.alloc(), text.as_bytes()),
            Some(line),
            "{text}"
        );
    }
    Ok(())
}

/// Whether a piece with a line that has no reading is refused for the second line, and each later call for the same.
fn stays_refused(alloc: Global, pieces: &[&str]) -> Result<bool, CertErr> {
    let mut reader = CertReader::new(alloc);
    reader.feed(b"certificate 1\nsig")?;
    for piece in pieces {
        if !matches!(
            reader.feed(piece.as_bytes()),
            Err(CertErr::Form { line: 2 })
        ) {
            return Ok(false);
        }
    }
    Ok(matches!(reader.finish(), Err(CertErr::Form { line: 2 })))
}

#[test]
fn readers_stay_refused(rt: HostRuntime) -> Result<(), Fail> {
    assert!(rt; stays_refused(rt.alloc(), &["n\nvars", "certificate 1\n"])?);
    Ok(())
}
