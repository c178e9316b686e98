ghost use Rattle.std.specs.Prelude.{IfOk, IfErr};
ghost use Rattle.law_lines.specs.Signature.{IsRawSig};
ghost use Rattle.law_cert.specs.declared.phase.Phase.TheVariants as p;
ghost use Rattle.law_cert_text.specs.Drafts.{IsDraft};
ghost use Rattle.law_cert.specs.Phases.{IsPhase, IsPhaseWith};
ghost use Rattle.law_cert.specs.Finishes.{IsFinished, NotFinished};

use crate::draft::with_line;
use crate::line::read_line;
use crate::part::same;
use law_cert_text::{Cert, CertErr, Draft};
use law_lines::{RawSig, ReadErr};
use law_read::SigLines;
use law_sig::NoMemory;
use std::alloc::Global;

/// How far a text is: before its first line, in the signature, or behind that; or the number of the line
/// that was refused, or that memory was.
#[derive(Debug, Drop)]
pub enum Phase {
    Head,
    Sig(SigLines),
    Body(RawSig, Draft),
    Refused(u64),
    Starved,
}

impl Phase {
    /// The phase behind one more line; `None` where the line may not come.
    pub fn with(self, alloc: Global, line: &[u8]) -> Result<Option<Phase>, NoMemory>
        requires { IsPhase self }
        ensures { IfOk result (IsPhaseWith self line.now) }
    {
        match self {
            Phase::Head => Ok(headed(alloc, line)),
            Phase::Sig(reader) => signed(reader, line),
            Phase::Body(sig, draft) => bodied(alloc, sig, draft, line),
            _ => Ok(None),
        }
    }

    /// The certificate, where the text is over; the line that is absent has this number.
    pub fn finish(self, line: u64) -> Result<Cert, CertErr>
        requires { IsPhase self }
        ensures ok { IfOk result (IsFinished self) }
        ensures err { IfErr result (NotFinished self line) }
    {
        match self {
            Phase::Head => Err(CertErr::Form { line }),
            Phase::Sig(_reader) => Err(CertErr::Form { line }),
            Phase::Body(sig, draft) => whole(sig, draft, line),
            Phase::Refused(number) => Err(CertErr::Form { line: number }),
            Phase::Starved => Err(CertErr::NoMemory),
        }
    }
}

fn whole(sig: RawSig, draft: Draft, line: u64) -> Result<Cert, CertErr>
    requires { IsPhase (p.Body sig draft) }
    ensures ok { IfOk result (IsFinished (p.Body sig draft)) }
    ensures err { IfErr result (NotFinished (p.Body sig draft) line) }
{
    match draft {
        Draft::Over {
            pools,
            entries,
            trees,
        } => Ok(Cert {
            sig,
            pools,
            entries,
            trees,
        }),
        _draft => Err(CertErr::Form { line }),
    }
}

fn headed(alloc: Global, line: &[u8]) -> Option<Phase>
    ensures { IsPhaseWith p.Head line.now result }
{
    if same(line, b"certificate 1") {
        Some(Phase::Sig(SigLines::new(alloc)))
    } else {
        None
    }
}

fn signed(mut reader: SigLines, line: &[u8]) -> Result<Option<Phase>, NoMemory>
    requires { IsPhase (p.Sig reader) }
    ensures { IfOk result (IsPhaseWith (p.Sig reader) line.now) }
{
    match reader.add(line) {
        Ok(false) => Ok(Some(Phase::Sig(reader))),
        Ok(true) => match reader.finish() {
            Ok(sig) => Ok(Some(Phase::Body(sig, Draft::Start))),
            Err(_) => Ok(None),
        },
        Err(ReadErr::Form { .. }) => Ok(None),
        Err(ReadErr::NoMemory) => Err(NoMemory),
    }
}

fn bodied(alloc: Global, sig: RawSig, draft: Draft, line: &[u8]) -> Result<Option<Phase>, NoMemory>
    requires { IsPhase (p.Body sig draft) }
    ensures { IfOk result (IsPhaseWith (p.Body sig draft) line.now) }
{
    match read_line(alloc, line)? {
        None => Ok(None),
        Some(line) => match with_line(alloc, draft, line)? {
            None => Ok(None),
            Some(draft) => Ok(Some(Phase::Body(sig, draft))),
        },
    }
}
