ghost use Rattle.std.specs.Prelude.{◌≡◌, false, Some, None, List, [], ◌∷◌, ◌++◌, IfOk, IfErr, MatchOption, MatchResult};
ghost use Rattle.law_lines.specs.Pieces.{pieces};
ghost use Rattle.law_lines.specs.declared.want.Bounds.TheVariants.{Kept};
ghost use Rattle.law_lines.specs.declared.want.Place.TheVariants as p;
ghost use Rattle.law_lines.specs.declared.want.Want.TheVariants as w;
ghost use Rattle.law_lines.specs.declared.want.Ending.TheVariants as e;
ghost use Rattle.law_lines.specs.Walk.{walk, term_fault};
ghost use Rattle.law_lines.specs.Spelling.{sig_spelling, term_spelling};
ghost use Rattle.law_lines.specs.Terms.{IsTerm};
ghost use Rattle.law_lines.specs.Reads.{Stops};
ghost use Rattle.law_lines.specs.Signature.{IsRawSig};
ghost use Rattle.law_places.specs.Progress.{StoppedBy, TermFound};
ghost use Rattle.law_lines.specs.Texts.{FirstLine, IsReadAs, RefusedBy, TermFault, TermTaken, has_feed};

use crate::part::end;
use crate::sig_lines::{SigLines, all_printed, is_spaced};
use crate::term::term;
use law_lines::{Ending, Place, RawSig, RawTerm, ReadErr, ReadKind, Stop};
use law_text::Line;
use std::alloc::Global;

/// The signature that a text spells, which is the only one. A refusal names the first line that has no reading, and why.
#[tactic(auto, using(law_places::proofs::TextReads::text_steps))]
pub fn read_sig(alloc: Global, text: &[u8]) -> Result<RawSig, ReadErr>
    ensures ok { IfOk result (IsReadAs text.now) }
    ensures form { IfErr result (RefusedBy text.now) }
{
    match read_lines(alloc, text) {
        Ok(sig) => Ok(sig),
        Err(error) => Err(error),
    }
}

fn read_lines(alloc: Global, text: &[u8]) -> Result<RawSig, ReadErr>
    ensures ok { IfOk result (λ sig. IsRawSig sig × (sig_spelling sig ≡ text.now)) }
    ensures form { IfErr result (StoppedBy text.now) }
{
    let mut reader = SigLines::new(alloc);
    let mut rest = text;
    while let Some((line, after)) = first_line(rest) {
        match reader.add(line) {
            Ok(_) => rest = after,
            Err(error) => return Err(error),
        }
    }
    if !rest.is_empty() {
        return Err(ReadErr::Form {
            line: reader.next_line(),
            kind: ReadKind::Missing,
        });
    }
    reader.finish()
}

/// The first line of a text, without its line feed, and what stands behind that; `None` where there is
/// no line feed.
fn first_line(text: &[u8]) -> Option<(&[u8], &[u8])>
    ensures { MatchOption result (has_feed text.now ≡ false) (λ parts. FirstLine text.now parts.0.now parts.1.now) }
{
    for (at, byte) in text.iter().enumerate() {
        if *byte == b'\n' {
            return Some((&text[..at], &text[at + 1..]));
        }
    }
    None
}

/// The term that some bytes spell, with the atoms of equations; a refusal counts them as line 1.
#[tactic(auto, using(law_places::proofs::TextReads::term_steps))]
pub fn read_term(alloc: Global, bytes: &[u8]) -> Result<RawTerm, ReadErr>
    ensures ok { IfOk result (TermTaken bytes.now) }
    ensures form { IfErr result (TermFault bytes.now) }
{
    match take_term(alloc, bytes) {
        Ok(term) => Ok(term),
        Err(Stop::Form(kind)) => Err(ReadErr::Form { line: 1, kind }),
        Err(Stop::NoMemory) => Err(ReadErr::NoMemory),
    }
}

fn take_term(alloc: Global, bytes: &[u8]) -> Result<RawTerm, Stop>
    ensures { MatchResult result (TermFound bytes.now) (λ stop. Stops stop (term_fault bytes.now)) }
{
    if !all_printed(bytes) {
        return Err(Stop::Form(ReadKind::Byte));
    }
    if !is_spaced(bytes) {
        return Err(Stop::Form(ReadKind::Doubled));
    }
    whole_term(alloc, bytes)
}

#[tactic(auto, using(law_places::proofs::LineSteps::line_steps))]
fn whole_term(alloc: Global, bytes: &[u8]) -> Result<RawTerm, Stop>
    ensures { MatchResult result
        (λ term. IsTerm Kept p.Equation term × (term_spelling term ≡ bytes.now) × (walk 0 (w.Root p.Equation e.Line ∷ []) (pieces bytes.now) ≡ None))
        (λ stop. Stops stop (walk 0 (w.Root p.Equation e.Line ∷ []) (pieces bytes.now))) }
{
    let mut line = Line::new(bytes);
    let found = term(alloc, &mut line, Place::Equation, Ending::Line)?;
    end(&mut line)?;
    Ok(found)
}
