ghost use Rattle.std.specs.Prelude.{◌≡◌, ◌≢◌, ◌<◌, ◌≤◌, ◌⊎◌, map, string_bytes};
ghost use Rattle.law_io.specs.Counts.{Rose};
ghost use Rattle.law_io.specs.Takings.{Grows, GrewByPrefix};
ghost use Rattle.law_cli.specs.Printed.{IsPrinted};
ghost use Rattle.law_cli.specs.Commands.{AreOtherWords};
ghost use Rattle.law_cli.specs.Promise.{AsksAtMost, CanSucceed, Means, IsCutOff};
ghost use Rattle.law_cli.specs.declared.status.Status.TheVariants as status;

use crate::answer::answer_from;
use crate::command::Command;
use crate::input::Refusal;
use crate::laws::answer_laws;
use crate::plain::Answer;
use crate::status::{Status, Which, too_long_line, usage_line};
use law_io::{Sink, Source, push_all};
use std::alloc::Global;

/// The top call: it does all that the program does. All memory is taken before the first byte is pushed.
#[tactic(auto, using(crate::proofs::Answered::asks, crate::proofs::Answered::asks_nothing, crate::proofs::Answered::is_printed))]
pub fn run<S: Source, K: Sink>(
    alloc: Global,
    words: &[String],
    input: &mut S,
    out: &mut K,
) -> Status
    ensures means { Means (map string_bytes words.now) (S.left input.old) (S.left input.new) (K.taken out.old) (K.taken out.new) result }

    // Where the words name no command, the usage line is the answer, and the source isn't asked.
    ensures usage_always { AreOtherWords (map string_bytes words.now) → (result ≡ status.Usage) ⊎ (result ≡ status.WriteFault) }
    ensures unasked { AreOtherWords (map string_bytes words.now) → input.new ≡ input.old }

    // A signature within all limits has its law list, and a valid certificate its yes, or memory runs out.
    ensures complete { CanSucceed (map string_bytes words.now) (S.left input.old) (S.faults input.old) (S.faults input.new) (K.faults out.old) (K.faults out.new)
        → (result ≡ status.Done) ⊎ (result ≡ status.NoMemory) }

    // Nothing past one byte more than the limit is asked for.
    ensures asked { AsksAtMost (map string_bytes words.now) (S.left input.old) (S.left input.new) }

    // While a count is below its last value, a failed call of the source or the sink is never passed over.
    ensures read_fault { result ≡ status.ReadFault → Rose (S.faults input.old) (S.faults input.new) }
    ensures read_fault_always { S.faults input.old < S.faults input.new → (result ≡ status.ReadFault) ⊎ (result ≡ status.NoMemory) }
    ensures write_fault { result ≡ status.WriteFault →
        IsCutOff (map string_bytes words.now) (S.left input.old) (S.left input.new) (K.taken out.old) (K.taken out.new) (K.faults out.old) (K.faults out.new) }
    ensures write_fault_always { K.faults out.old < K.faults out.new → result ≡ status.WriteFault }
    ensures read_faults_later { S.faults input.old ≤ S.faults input.new }
    ensures write_faults_later { K.faults out.old ≤ K.faults out.new }

    // Where nothing was printed, the sink is as before.
    ensures read_fault_prints_nothing { result ≡ status.ReadFault → out.new ≡ out.old }
    ensures no_memory_prints_nothing { result ≡ status.NoMemory → out.new ≡ out.old }
{
    let Some(asked) = Command::of(words) else {
        return finish(out, usage_line(), Status::Usage);
    };
    answer_laws();
    match answer_from(alloc, asked, input) {
        Ok(Answer { status, text }) => finish(out, text.as_slice(), status),
        Err(Refusal::TooLong) => finish(
            out,
            too_long_line(),
            Status::Limit {
                which: Which::Bytes,
            },
        ),
        Err(Refusal::Fault) => Status::ReadFault,
        Err(Refusal::NoMemory) => Status::NoMemory,
    }
}

/// Prints the text, and then this status is the answer; the one place that pushes.
fn finish<K: Sink>(out: &mut K, text: &[u8], planned: Status) -> Status
    requires { IsPrinted planned }
    ensures whole { result ≢ status.WriteFault → Grows (K.taken out.old) (K.taken out.new) text.now }
    ensures answer { (result ≡ planned) ⊎ (result ≡ status.WriteFault) }
    ensures kept { result ≢ status.WriteFault → K.faults out.new ≡ K.faults out.old }
    ensures part { result ≡ status.WriteFault → GrewByPrefix (K.taken out.old) (K.taken out.new) text.now }
    ensures fault { result ≡ status.WriteFault → Rose (K.faults out.old) (K.faults out.new) }
    ensures later { K.faults out.old ≤ K.faults out.new }
{
    match push_all(out, text) {
        Ok(()) => planned,
        Err(_) => Status::WriteFault,
    }
}
