ghost use Rattle.std.specs.Prelude.{◌≡◌, ℕ, ◌++◌, [], List, OnOk};
ghost use Rattle.law_cert_text.specs.Readers.{HasHeard};
ghost use Rattle.law_cli.specs.Reading.{StandsFor};
ghost use Rattle.law_cli.specs.declared.command.Command.{Command};

use crate::command::Command;
use law_cert::{CertErr, CertReader};
use law_sig::{NoMemory, Text};
use std::alloc::Global;

/// What is kept of an input, piece by piece: the text of a signature, or what a reader of certificates has, which
/// doesn't keep the text.
#[derive(Debug, Drop)]
pub enum Pieces {
    Signature(Text),
    Certificate(CertReader),
}

impl Pieces {
    /// What is kept of no bytes.
    pub fn new(alloc: Global, asked: Command) -> Pieces
        ensures { StandsFor asked result [] }
    {
        match asked {
            Command::Plain => Pieces::Signature(Text::new(alloc)),
            Command::Check => Pieces::Certificate(CertReader::new(alloc)),
        }
    }

    /// Takes more bytes. Those of a certificate with a line that has no reading are passed over.
    pub fn take(&mut self, piece: &[u8]) -> Result<(), NoMemory>
        ensures { OnOk result ((asked : Command) (text : List ℕ) → StandsFor asked self.old text → StandsFor asked self.new (text ++ piece.now)) }
    {
        match self {
            Pieces::Signature(text) => text.push_slice(piece),
            Pieces::Certificate(reader) => hear(reader, piece),
        }
    }
}

/// Gives more bytes to a reader of certificates, which keeps a line that it refuses.
fn hear(reader: &mut CertReader, piece: &[u8]) -> Result<(), NoMemory>
    ensures { OnOk result ((text : List ℕ) → HasHeard reader.old text → HasHeard reader.new (text ++ piece.now)) }
{
    match reader.feed(piece) {
        Ok(()) => Ok(()),
        Err(CertErr::Form { .. }) => Ok(()),
        Err(CertErr::NoMemory) => Err(NoMemory),
    }
}
