//! The top call over bytes in memory.
ghost use Rattle.std.specs.Prelude.{◌≤◌};

use law_cli::{code, run};
use law_io::{MemSink, MemSource};
use std::alloc::{AllocError, Global};

/// What is left of a run: the code that the program ends with, and the streams.
#[derive(Drop)]
pub struct Outcome {
    pub code: u8,
    pub source: MemSource,
    pub sink: MemSink,
}

/// These bytes as a source that gives so many a call, and fails at the calls of these numbers.
pub fn source_of(
    alloc: Global,
    bytes: &[u8],
    step: usize,
    failing: &[u64],
) -> Result<MemSource, AllocError>
    requires { 1 ≤ step }
{
    let bytes = Vec::from_slice(alloc, bytes)?;
    let failing = Vec::from_slice(alloc, failing)?;
    Ok(MemSource::new(bytes, step, failing))
}

/// A sink that takes so many bytes a call, and fails at the calls of these numbers.
pub fn sink_of(alloc: Global, step: usize, failing: &[u64]) -> Result<MemSink, AllocError>
    requires { 1 ≤ step }
{
    let failing = Vec::from_slice(alloc, failing)?;
    MemSink::new(alloc, step, 4096, failing)
}

/// The program's words, of a text that has them behind spaces.
fn words_of(alloc: Global, text: &str) -> Result<Vec<String>, AllocError> {
    let mut words = Vec::new(alloc);
    for word in text.split_whitespace() {
        words.push(String::from_str(alloc, word)?)?;
    }
    Ok(words)
}

/// Runs these words from a source to a sink.
pub fn ran(
    alloc: Global,
    words: &str,
    source: MemSource,
    sink: MemSink,
) -> Result<Outcome, AllocError> {
    let words = words_of(alloc, words)?;
    let mut source = source;
    let mut sink = sink;
    let status = run(alloc, words.as_slice(), &mut source, &mut sink);
    Ok(Outcome {
        code: code(&status),
        source,
        sink,
    })
}

/// Whether a run ends with this code and prints this text, over streams that move so many bytes a call.
fn answers_by(
    alloc: Global,
    words: &str,
    input: &str,
    step: usize,
    code: u8,
    text: &str,
) -> Result<bool, AllocError>
    requires { 1 ≤ step }
{
    let source = source_of(alloc, input.as_bytes(), step, &[])?;
    let sink = sink_of(alloc, step, &[])?;
    let ran = ran(alloc, words, source, sink)?;
    Ok(ran.code == code && ran.sink.bytes.as_slice() == text.as_bytes())
}

/// Whether a run does so over whole pieces and byte by byte, where the input has something in place of something.
pub fn answers(
    alloc: Global,
    words: &str,
    input: &str,
    change: (&str, &str),
    code: u8,
    text: &str,
) -> Result<bool, AllocError> {
    let input = input.replacen(alloc, change.0, change.1, 1)?;
    let whole = answers_by(alloc, words, input.as_str(), 4096, code, text)?;
    let by_bytes = answers_by(alloc, words, input.as_str(), 1, code, text)?;
    Ok(whole && by_bytes)
}
