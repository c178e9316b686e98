ghost use Rattle.std.specs.Prelude.{◌≡◌, ◌≢◌, ℕ, ◌+◌, ◌≤◌, List, Err, IfOk};
ghost use Rattle.law_io.specs.Counts.{Rose};
ghost use Rattle.law_cli.specs.Commands.{most_bytes};
ghost use Rattle.law_cli.specs.Laws.{IsAnswer, IsAnswerFrom};
ghost use Rattle.law_cli.specs.Reading.{GaveAtMost, GaveTooMany, StandsFor};
ghost use Rattle.law_cli.specs.declared.command.Command.{Command};
ghost use Rattle.law_cli.specs.declared.input.Refusal.TheVariants as refusal;

use crate::check::answer_to_certificate;
use crate::command::Command;
use crate::input::{Refusal, read_all};
use crate::pieces::Pieces;
use crate::plain::{Answer, answer_to};
use law_io::Source;
use law_sig::NoMemory;
use std::alloc::Global;

/// The answer to the whole input, or why it could not be read.
#[tactic(auto, using(crate::proofs::Answered::from_read))]
pub fn answer_from<S: Source>(
    alloc: Global,
    asked: Command,
    input: &mut S,
) -> Result<Answer, Refusal>
    ensures answer { IfOk result (λ found. IsAnswerFrom asked (S.left input.old) (S.left input.new) found.status found.text) }
    ensures long { result ≡ Err refusal.TooLong → GaveTooMany (S.left input.old) (S.left input.new) (most_bytes asked) }
    ensures asked { GaveAtMost (S.left input.old) (S.left input.new) (most_bytes asked + 1) }
    ensures fault_before { result ≡ Err refusal.Fault → GaveAtMost (S.left input.old) (S.left input.new) (most_bytes asked) }
    ensures fault { result ≡ Err refusal.Fault → Rose (S.faults input.old) (S.faults input.new) }
    ensures kept { result ≢ Err refusal.Fault → S.faults input.new ≡ S.faults input.old }
    ensures later { S.faults input.old ≤ S.faults input.new }
{
    let mut pieces = Pieces::new(alloc, asked);
    match read_all(asked, input, &mut pieces) {
        Ok(()) => match answer(alloc, pieces) {
            Ok(found) => Ok(found),
            Err(_) => Err(Refusal::NoMemory),
        },
        Err(why) => Err(why),
    }
}

/// The answer to an input that was read to its end.
#[tactic(auto, using(crate::proofs::Answered::of_signature, crate::proofs::Answered::of_reader))]
fn answer(alloc: Global, pieces: Pieces) -> Result<Answer, NoMemory>
    ensures { IfOk result (λ found. (asked : Command) (bytes : List ℕ) → StandsFor asked pieces bytes → IsAnswer asked bytes found.status found.text) }
{
    match pieces {
        Pieces::Signature(text) => answer_to(alloc, text.as_slice()),
        Pieces::Certificate(reader) => answer_to_certificate(alloc, reader),
    }
}
