ghost use Rattle.std.specs.Prelude.{◌≡◌, ℕ, List, IfOk};
ghost use Rattle.law_lines.specs.Spelling.{sig_spelling};
ghost use Rattle.law_lines.specs.Signature.{IsRawSig};
ghost use Rattle.law_typing.specs.Typed.{IsTypedAs};
ghost use Rattle.law_cli.specs.Answers.{Cause, IsAnswerTo, IsStated, IsRefusedFor};
ghost use Rattle.law_cli.specs.Printed.{status_text};

use crate::status::{FormKind, Status, Which, status_line};
use law_cert::write_list;
use law_explore::{ExploreErr, plain};
use law_read::{RawSig, ReadErr, read_sig};
use law_sig::{NoMemory, Sig, Text};
use law_types::{TypeErr, check_sig};
use std::alloc::Global;

/// How many terms the universe of a signature may have.
const MOST_TERMS: u64 = 8192;

/// A status, and the text that is printed with it.
#[derive(Debug, Drop)]
pub struct Answer {
    pub status: Status,
    pub text: Text,
}

/// The answer to a text: the law list of the signature that it states, or the line that says why there is none.
pub fn answer_to(alloc: Global, bytes: &[u8]) -> Result<Answer, NoMemory>
    ensures { IfOk result (λ found. IsAnswerTo bytes.now found.status found.text) }
{
    match read_sig(alloc, bytes) {
        Ok(raw) => of_lines(alloc, raw),
        Err(ReadErr::Form { line, kind }) => {
            let kind = FormKind::Read(kind);
            refusal(alloc, Status::Form { line, kind })
        }
        Err(ReadErr::NoMemory) => Err(NoMemory),
    }
}

/// The answer to the text of these lines.
fn of_lines(alloc: Global, raw: RawSig) -> Result<Answer, NoMemory>
    requires { IsRawSig raw }
    ensures { IfOk result (λ found. IsAnswerTo (sig_spelling raw) found.status found.text) }
{
    match check_sig(alloc, &raw) {
        Ok(sig) => of_signature(alloc, raw, &sig),
        Err(TypeErr::At { line, kind }) => {
            let kind = FormKind::Sort(kind);
            refusal(alloc, Status::Form { line, kind })
        }
        Err(TypeErr::NoMemory) => Err(NoMemory),
    }
}

/// The answer to the text of these lines, which state this signature.
fn of_signature(alloc: Global, raw: RawSig, sig: &Sig) -> Result<Answer, NoMemory>
    requires raw { IsRawSig raw }
    requires typed { IsTypedAs raw sig.now }
    ensures { IfOk result (λ found. IsAnswerTo (sig_spelling raw) found.status found.text) }
{
    match plain(alloc, raw, sig, MOST_TERMS) {
        Ok(list) => {
            let text = write_list(alloc, &list)?;
            Ok(Answer {
                status: Status::Done,
                text,
            })
        }
        Err(why) => refusal(alloc, status_for(why)?),
    }
}

/// The status of a signature that has no law list.
fn status_for(why: ExploreErr) -> Result<Status, NoMemory>
    ensures { IfOk result (λ status. (bytes : List ℕ) → IsRefusedFor bytes why → Cause bytes status) }
{
    Ok(match why {
        ExploreErr::Over { term, test } => Status::Over {
            entry: 0,
            test,
            term,
        },
        ExploreErr::BackgroundFails { law, test } => Status::BackgroundFails { law, test },
        ExploreErr::Assignments => Status::Limit {
            which: Which::Assignments,
        },
        ExploreErr::TooManyTerms => Status::Limit {
            which: Which::Terms,
        },
        ExploreErr::ValueTooLarge { .. } => Status::Limit {
            which: Which::Value,
        },
        ExploreErr::NoMemory => return Err(NoMemory),
    })
}

/// The answer with the line of this status.
pub fn refusal(alloc: Global, status: Status) -> Result<Answer, NoMemory>
    ensures { IfOk result (λ found. (found.status ≡ status) × (found.text ≡ status_text status)) }
{
    let text = status_line(alloc, &status)?;
    Ok(Answer { status, text })
}
