ghost use Rattle.std.specs.Prelude.{◌≡◌, Bool, true, List, [], ◌∷◌, ◌++◌, length, None, Some, IfOk, OnErr, IfErr, MatchResult, min, ◌+◌, ◌-◌, ◌^◌};
ghost use Rattle.std.specs.List.{list_all};
ghost use Rattle.law_lines.specs.Faults.{is_closed_by, is_printed, is_spaced, spaces_fit};
ghost use Rattle.law_lines.specs.Walk.{line_fault};
ghost use Rattle.law_places.specs.Progress.{Added, Finished, LineTaken, NotFinished, Refused};
ghost use Rattle.law_lines.specs.Texts.{next_number};
ghost use Rattle.law_lines.specs.Reads.{Stops};

use crate::line::read_line;
use law_lines::{Key, RawLine, RawSig, ReadErr, ReadKind, Stage, Stop, Version};
use law_sig::Seq;
use std::alloc::Global;
use std::marker::Model;

/// The reader of a signature text, fed line by line. Once a line has no reading, every later call
/// gives that same answer.
#[derive(Debug, Drop)]
pub struct SigLines {
    alloc: Global,
    stage: Stage,
    lines: Seq<RawLine>,
    refused: Option<(u64, ReadKind)>,
}

impl Model for SigLines {
    ghost use Rattle.std.specs.Coded.{codes, coded_list};
    ghost use Rattle.law_lines.specs.contracts.raw.RawTerm as term;
    ghost use Rattle.law_places.specs.Progress.{Progress, IsProgress};

    ghost Value = { Progress };

    ghost coded = { Prim.hlevel (codes, term.the_row.coded) };

    ghost view = { λ reader. record { lines = reader.lines; refused = reader.refused } };

    ghost invariant = { λ reader. IsProgress reader.stage reader.lines };
}

impl SigLines {
    /// The reader before the first line.
    pub fn new(alloc: Global) -> SigLines
        ensures lines { result.lines ≡ [] }
        ensures refused { result.refused ≡ None }
    {
        SigLines {
            alloc,
            stage: Stage {
                version: Version::First,
                given: false,
                last: None,
            },
            lines: Seq::new(alloc),
            refused: None,
        }
    }

    /// Reads one more line, without its line feed; true exactly at `end`. Want of memory leaves the
    /// reader as it was.
    pub fn add(&mut self, line: &[u8]) -> Result<bool, ReadErr>
        ensures ok { IfOk result (λ done. Added self.old self.new line.now done) }
        ensures err { IfErr result (λ error. Refused self.old self.new line.now error) }
    {
        if let Some((number, kind)) = self.refused {
            return Err(ReadErr::Form { line: number, kind });
        }
        match take_line(self.alloc, self.stage, line) {
            Ok(raw) => {
                let stage = self.stage.after(&raw);
                match self.lines.push(raw) {
                    Ok(()) => {
                        self.stage = stage;
                        Ok(is_closed(stage))
                    }
                    Err(_) => Err(ReadErr::NoMemory),
                }
            }
            Err(Stop::Form(kind)) => {
                let number = next_number(self.lines.len());
                self.refused = Some((number, kind));
                Err(ReadErr::Form { line: number, kind })
            }
            Err(Stop::NoMemory) => Err(ReadErr::NoMemory),
        }
    }

    /// The signature of the lines, up to and with `end`.
    pub fn finish(self) -> Result<RawSig, ReadErr>
        ensures ok { IfOk result (λ sig. Finished self sig) }
        ensures err { IfErr result (NotFinished self) }
    {
        if let Some((number, kind)) = self.refused {
            return Err(ReadErr::Form { line: number, kind });
        }
        if is_closed(self.stage) {
            Ok(RawSig::build(self.lines))
        } else {
            Err(ReadErr::Form {
                line: next_number(self.lines.len()),
                kind: ReadKind::Missing,
            })
        }
    }

    /// The number of the next line, counted from 1.
    pub(crate) fn next_line(&self) -> u64
        ensures { result ≡ next_number self.now.lines }
    {
        next_number(self.lines.len())
    }
}

fn next_number(count: usize) -> u64
    ensures { result ≡ min (count + 1) (2 ^ 64 - 1) }
{
    (count as u64).saturating_add(1)
}

fn is_closed(stage: Stage) -> bool
    ensures { result ≡ is_closed_by stage.last }
{
    match stage.last {
        None => false,
        Some(last) => last.is(Key::End),
    }
}

fn is_printed(byte: u8) -> bool
    ensures { result ≡ is_printed byte }
{
    byte >= b' ' && byte <= b'~'
}

pub fn all_printed(bytes: &[u8]) -> bool
    ensures { result ≡ list_all is_printed bytes.now }
{
    for byte in bytes {
        if !is_printed(*byte) {
            return false;
        }
    }
    true
}

/// Whether no space leads, trails or is doubled.
pub fn is_spaced(bytes: &[u8]) -> bool
    ensures { result ≡ is_spaced bytes.now }
{
    if bytes.is_empty() {
        return true;
    }
    let mut behind = true;
    for byte in bytes {
        if behind && *byte == b' ' {
            return false;
        }
        behind = *byte == b' ';
    }
    !behind
}

/// A line that may come at this stage, by all that a line must be.
fn take_line(alloc: Global, stage: Stage, line: &[u8]) -> Result<RawLine, Stop>
    ensures { MatchResult result (LineTaken stage line.now) (λ stop. Stops stop (line_fault stage line.now)) }
{
    if !all_printed(line) {
        return Err(Stop::Form(ReadKind::Byte));
    }
    if !is_spaced(line) {
        return Err(Stop::Form(ReadKind::Doubled));
    }
    if is_closed(stage) {
        return Err(Stop::Form(ReadKind::Word));
    }
    read_line(alloc, stage, line)
}
