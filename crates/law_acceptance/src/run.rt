//! The program's words, its streams where they fail, and inputs that are too long.
ghost use Rattle.std.specs.Prelude.{◌≤◌};

use crate::program::{Outcome, ran, sink_of, source_of};
use crate::samples::{AND_CERT, NOT, text_of};
use law_io::MemSource;
use std::alloc::{AllocError, Global};
use std::test::Fail;

/// Whether words are answered by the usage line, and the source isn't asked.
fn is_usage(alloc: Global, words: &str) -> Result<bool, AllocError> {
    let source = source_of(alloc, NOT.as_bytes(), 16, &[])?;
    let sink = sink_of(alloc, 16, &[])?;
    let ran = ran(alloc, words, source, sink)?;
    let usage = "usage: lawfind plain | explore | check | laws | demo N\n";
    Ok(ran.code == 2 && ran.source.calls == 0 && ran.sink.bytes.as_slice() == usage.as_bytes())
}

const OTHER_WORDS: &[&str] = &["", "explore", "plain plain", "check plain", "demo 01"];

#[test]
fn other_words(rt: HostRuntime) -> Result<(), Fail> {
    for words in OTHER_WORDS {
        assert!(rt; is_usage(rt.alloc(), words)?, "{words}");
    }
    Ok(())
}

/// Whether a run ends with this code over a source that fails at one call, or, where that call came, prints nothing.
fn reads(
    alloc: Global,
    words: &str,
    input: &str,
    failing: u64,
    code: u8,
) -> Result<bool, AllocError> {
    let source = source_of(alloc, input.as_bytes(), 16, &[failing])?;
    let sink = sink_of(alloc, 16, &[])?;
    let ran = ran(alloc, words, source, sink)?;
    if ran.source.count == 0 {
        Ok(ran.code == code)
    } else {
        Ok(ran.code == 7 && ran.sink.bytes.is_empty())
    }
}

/// Whether a run prints this text over a sink that fails at one call, or, where that call came, its first bytes.
fn writes(
    alloc: Global,
    words: &str,
    input: &str,
    failing: u64,
    text: &str,
) -> Result<bool, AllocError> {
    let source = source_of(alloc, input.as_bytes(), 4096, &[])?;
    let sink = sink_of(alloc, 16, &[failing])?;
    let ran = ran(alloc, words, source, sink)?;
    let printed = ran.sink.bytes.as_slice();
    if ran.sink.count == 0 {
        Ok(printed == text.as_bytes())
    } else {
        Ok(ran.code == 8 && printed.len() < text.len() && text.as_bytes().starts_with(printed))
    }
}

/// Whether both hold for each call that may come, and for one that never does.
fn fails_well(
    alloc: Global,
    words: &str,
    input: &str,
    code: u8,
    text: &str,
) -> Result<bool, AllocError> {
    for failing in 0..50u64 {
        if !reads(alloc, words, input, failing, code)? {
            return Ok(false);
        }
        if !writes(alloc, words, input, failing, text)? {
            return Ok(false);
        }
    }
    Ok(true)
}

const NOT_LIST: &str = "pool\nvalues B F T\nlaw 1 plain not (not B.0) = B.0\nend\n";

const AND_YES: &str =
    "yes laws 2 live 3 moved 3 killed 0\nlaw 1 saturated and B.0 B.0 = B.0\nlaw 2 saturated and B.1 B.0 = and B.0 B.1\n";

/// Words, an input, the code that the program ends with and what is printed. A fault of the source comes before one of form.
const UNREAD: &[(&str, &str, u8, &str)] = &[
    (
        "plain",
        "signature 9\nsignature 9\nsignature 9\n",
        3,
        "line 1: Word\n",
    ),
    ("check", NOT, 3, "line 1: Certificate\n"),
];

#[test]
fn failing_calls(rt: HostRuntime) -> Result<(), Fail> {
    let alloc = rt.alloc();
    let list = format!(in alloc; "lawlist 1\n{NOT}{NOT_LIST}")?;
    assert!(rt; fails_well(alloc, "plain", NOT, 0, list.as_str())?);
    let cert = text_of(alloc, AND_CERT)?;
    assert!(rt; fails_well(alloc, "check", cert.as_str(), 0, AND_YES)?);
    for (words, input, code, text) in UNREAD {
        assert!(rt; fails_well(alloc, words, input, *code, text)?, "{words}");
    }
    Ok(())
}

/// A run of `plain` over so many letters, of which a call gives so many.
fn long(alloc: Global, length: usize, step: usize) -> Result<Outcome, AllocError>
    requires { 1 ≤ step }
{
    let bytes = vec![in alloc; b'a'; length]?;
    let source = MemSource::new(bytes, step, Vec::new(alloc));
    let sink = sink_of(alloc, 4096, &[])?;
    ran(alloc, "plain", source, sink)
}

/// Whether such a run ends with this code and line once so many bytes were given, whatever a call gives.
fn reads_up_to(
    alloc: Global,
    length: usize,
    given: usize,
    code: u8,
    line: &str,
) -> Result<bool, AllocError> {
    let small = long(alloc, length, 999)?;
    let large = long(alloc, length, 2000000)?;
    Ok(is_cut(&small, given, code, line) && is_cut(&large, given, code, line))
}

fn is_cut(ran: &Outcome, given: usize, code: u8, line: &str) -> bool {
    ran.source.at == given && ran.code == code && ran.sink.bytes.as_slice() == line.as_bytes()
}

/// How long the input is, how much of it is given, and how the run ends.
const LENGTHS: &[(usize, usize, u8, &str)] = &[
    (1048576, 1048576, 3, "line 1: Missing\n"),
    (1048577, 1048577, 4, "limit Bytes\n"),
    (1060000, 1048577, 4, "limit Bytes\n"),
];

#[test]
fn long_inputs(rt: HostRuntime) -> Result<(), Fail> {
    for (length, given, code, line) in LENGTHS {
        assert!(rt;
            reads_up_to(rt.alloc(), *length, *given, *code, line)?,
            "{length}"
        );
    }
    Ok(())
}
