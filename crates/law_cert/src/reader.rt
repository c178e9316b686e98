ghost use Rattle.std.specs.Prelude.{◌≡◌, [], ◌∷◌, None, false, IfOk, IfErr, MatchResult};
ghost use Rattle.law_lines.specs.Texts.{IsUnbroken};
ghost use Rattle.law_cert_text.specs.Readings.{HasReading};
ghost use Rattle.law_cert_text.specs.Readers.{IsClosedTo, IsFed, IsOpen, IsReadAs, IsStopped, IsWhole, NotWhole, RefusedBy, Stops};

use crate::phase::Phase;
use law_cert_text::{Cert, CertErr};
use law_sig::Text;
use memchr::memchr;
use std::alloc::Global;
use std::marker::Model;
use std::mem;

/// The reader of a certificate, fed piece by piece. It keeps what the lines so far say and the unfinished
/// line, or the number of the line that was refused, or that memory was refused.
#[derive(Debug, Drop)]
pub struct CertReader {
    alloc: Global,
    count: u64,
    phase: Phase,
    unfinished: Text,
}

impl Model for CertReader {
    ghost use Rattle.law_cert_text.specs.Readers.{Heard};
    ghost use Rattle.law_cert.specs.Phases.{IsReader, phase_lines, phase_refused, phase_starved};

    ghost Value = { Heard };

    ghost view = { λ reader. record { lines = phase_lines reader.phase; unfinished = reader.unfinished; refused = phase_refused reader.phase; starved = phase_starved reader.phase } };

    ghost invariant = { λ reader. IsReader reader.phase reader.count reader.unfinished };
}

impl CertReader {
    /// The reader of no bytes.
    pub fn new(alloc: Global) -> CertReader
        ensures open { IsOpen result }
        ensures lines { result.lines ≡ [] }
        ensures unfinished { result.unfinished ≡ [] }
    {
        CertReader {
            alloc,
            count: 0,
            phase: Phase::Head,
            unfinished: Text::new(alloc),
        }
    }

    /// Reads more bytes. Once a line or memory is refused, each later call answers the same.
    pub fn feed(&mut self, piece: &[u8]) -> Result<(), CertErr>
        ensures ok { MatchResult result (λ _. IsFed self.old self.new piece.now) (IsStopped self.old self.new piece.now) }
    {
        self.answer()?;
        let mut rest = piece;
        while let Some(end) = memchr(b'\n', rest) {
            self.keep(&rest[..end])?;
            self.turn()?;
            rest = &rest[end + 1..];
        }
        self.keep(rest)
    }

    /// Bytes of the unfinished line.
    fn keep(&mut self, part: &[u8]) -> Result<(), CertErr>
        requires open { IsOpen self.old }
        requires part { IsUnbroken part.now }
        ensures { MatchResult result (λ _. IsFed self.old self.new part.now) (IsStopped self.old self.new part.now) }
    {
        self.reads();
        match self.unfinished.push_slice(part) {
            Ok(()) => {
                self.reads();
                Ok(())
            }
            Err(_) => {
                self.phase = Phase::Starved;
                Err(CertErr::NoMemory)
            }
        }
    }

    /// A line feed.
    fn turn(&mut self) -> Result<(), CertErr>
        requires { IsOpen self.old }
        ensures { MatchResult result (λ _. IsFed self.old self.new (10 ∷ [])) (IsStopped self.old self.new (10 ∷ [])) }
    {
        self.close();
        self.answer()
    }

    /// The unfinished line is over.
    fn close(&mut self)
        requires { IsOpen self.old }
        ensures fed { IsOpen self.new → IsFed self.old self.new (10 ∷ []) }
        ensures refused { IsClosedTo self.old self.new.refused }
    {
        let phase = mem::replace(&mut self.phase, Phase::Starved);
        let line = mem::replace(&mut self.unfinished, Text::new(self.alloc));
        let number = self.count.saturating_add(1);
        self.phase = match phase.with(self.alloc, line.as_slice()) {
            Ok(Some(phase)) => phase,
            Ok(None) => Phase::Refused(number),
            Err(_) => Phase::Starved,
        };
        self.count = number;
        self.reads();
    }

    /// What was read can be completed, and what is left is one line.
    fn reads(&self)
        ensures reads { HasReading self.now.lines }
        ensures whole { IsOpen self.now → IsUnbroken self.now.unfinished }
    {
        let _count = self.count;
    }

    fn answer(&self) -> Result<(), CertErr>
        ensures answer { MatchResult result (λ _. IsOpen self.now) (Stops self.now) }
        ensures reads { HasReading self.now.lines }
        ensures whole { IsOpen self.now → IsUnbroken self.now.unfinished }
    {
        self.reads();
        match self.phase {
            Phase::Refused(line) => Err(CertErr::Form { line }),
            Phase::Starved => Err(CertErr::NoMemory),
            _ => Ok(()),
        }
    }

    /// The certificate of the joined pieces.
    pub fn finish(self) -> Result<Cert, CertErr>
        ensures ok { IfOk result (IsWhole self) }
        ensures err { IfErr result (NotWhole self) }
    {
        let line = self.count.saturating_add(1);
        if self.unfinished.len() == 0 {
            return self.phase.finish(line);
        }
        match self.answer() {
            Ok(()) => Err(CertErr::Form { line }),
            Err(error) => Err(error),
        }
    }
}

/// The certificate that a text spells.
#[tactic(auto, using(law_cert_text::proofs::BodyText::reads))]
pub fn read_cert(alloc: Global, text: &[u8]) -> Result<Cert, CertErr>
    ensures ok { IfOk result (IsReadAs text.now) }
    ensures err { IfErr result (RefusedBy text.now) }
{
    let mut reader = CertReader::new(alloc);
    reader.feed(text)?;
    reader.finish()
}
