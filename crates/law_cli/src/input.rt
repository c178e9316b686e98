ghost use Rattle.std.specs.Prelude.{◌≡◌, ◌≢◌, ◌+◌, ◌≤◌, [], OnOk};
ghost use Rattle.law_io.specs.Counts.{Rose};
ghost use Rattle.law_cli.specs.Commands.{most_bytes};
ghost use Rattle.law_cli.specs.Reading.{IsRead, GaveTooMany, GaveAtMost, StandsFor};
ghost use Rattle.law_cli.specs.declared.input.Refusal.TheVariants as refusal;

use crate::command::Command;
use crate::pieces::Pieces;
use law_io::Source;

/// Why the input could not be read whole.
#[derive(Clone, Copy, Debug)]
pub enum Refusal {
    /// The source failed.
    Fault,
    /// There are more bytes than the command's limit.
    TooLong,
    /// Memory ran out.
    NoMemory,
}

/// Reads the whole input, piece by piece. Of a longer input one byte past the limit is asked for, and no more.
pub fn read_all<S: Source>(
    asked: Command,
    input: &mut S,
    pieces: &mut Pieces,
) -> Result<(), Refusal>
    requires { StandsFor asked pieces.old [] }
    ensures read { OnOk result (IsRead asked (S.left input.old) (S.left input.new) pieces.new) }
    ensures long { result ≡ Err refusal.TooLong → GaveTooMany (S.left input.old) (S.left input.new) (most_bytes asked) }

    // Whatever the answer, the source is asked for at most one byte past the limit; a fault stands before it.
    ensures asked { GaveAtMost (S.left input.old) (S.left input.new) (most_bytes asked + 1) }
    ensures fault_before { result ≡ Err refusal.Fault → GaveAtMost (S.left input.old) (S.left input.new) (most_bytes asked) }

    // A failed call is the answer, and no other call raised the count.
    ensures fault { result ≡ Err refusal.Fault → Rose (S.faults input.old) (S.faults input.new) }
    ensures kept { result ≢ Err refusal.Fault → S.faults input.new ≡ S.faults input.old }
    ensures later { S.faults input.old ≤ S.faults input.new }
{
    let most = asked.most_bytes();
    let mut count = 0u64;
    let mut buffer = [0u8; 4096];
    loop {
        let room = (most + 1 - count).min(4096) as usize;
        let got = match input.pull(&mut buffer[..room]) {
            Ok(got) => got,
            Err(_) => return Err(Refusal::Fault),
        };
        if got == 0 {
            return Ok(());
        }
        count += got as u64;
        if count > most {
            return Err(Refusal::TooLong);
        }
        if pieces.take(&buffer[..got]).is_err() {
            return Err(Refusal::NoMemory);
        }
    }
}
