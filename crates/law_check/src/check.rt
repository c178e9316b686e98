ghost use Rattle.std.specs.Prelude.{IfOk, IfErr};
ghost use Rattle.law_cert_text.specs.Certificates.{IsCertText};
ghost use Rattle.law_typing.specs.Typed.{IsTypedAs};
ghost use Rattle.law_checking.specs.Verdicts.{StatesNone, JudgedOver, IsVerdict, IsExact, IsCovering, IsOver};

use crate::counts::counted;
use crate::judge::judge;
use law_cert_text::Cert;
use law_checking::{CheckErr, Verdict};
use law_named::certificate_laws;
use law_sig::{NoMemory, Sig};
use law_types::{TypeErr, check_sig, raw_term};
use law_valid::{Answer, Rule};
use std::alloc::Global;

/// What is said of an answer.
fn told(alloc: Global, sig: &Sig, cert: &Cert, answer: Answer) -> Result<Verdict, CheckErr>
    requires text { IsCertText cert.now }
    requires typed { IsTypedAs cert.now.sig sig.now }
    requires judged { JudgedOver sig.now cert.now answer }
    ensures verdict { IfOk result (IsVerdict cert.now) }
    ensures exact { IfOk result (IsExact cert.now) }
    ensures covers { IfOk result (IsCovering cert.now) }
    ensures over { IfErr result (IsOver cert.now) }
{
    certificate_laws();
    match answer {
        Answer::Yes => Ok(Verdict::Yes(counted(cert.entries.as_slice()))),
        Answer::No(rule, entry) => Ok(Verdict::No { rule, entry }),
        Answer::Over(entry, test, term) => match raw_term(alloc, sig, &term) {
            Ok(term) => Err(CheckErr::Over { entry, test, term }),
            Err(NoMemory) => Err(CheckErr::NoMemory),
        },
    }
}

/// The verdict on a certificate whose lines state no signature.
fn untyped(cert: &Cert) -> Verdict
    requires { StatesNone cert.now.sig }
    ensures verdict { IsVerdict cert.now result }
    ensures exact { IsExact cert.now result }
    ensures covers { IsCovering cert.now result }
{
    Verdict::No {
        rule: Rule::V1,
        entry: 0,
    }
}

/// Whether a certificate that the grammar spells is valid, with its counts; else the first rule that fails in the order of
/// checking, or the first evaluation that is over where it stands before every failing rule.
pub fn verify(alloc: Global, cert: &Cert) -> Result<Verdict, CheckErr>
    requires { IsCertText cert.now }
    ensures verdict { IfOk result (IsVerdict cert.now) }
    ensures exact { IfOk result (IsExact cert.now) }
    ensures covers { IfOk result (IsCovering cert.now) }
    ensures over { IfErr result (IsOver cert.now) }
{
    match check_sig(alloc, &cert.sig) {
        Ok(sig) => {
            let answer = judge(alloc, &sig, cert)?;
            told(alloc, &sig, cert, answer)
        }
        Err(TypeErr::At { line: _, kind: _ }) => Ok(untyped(cert)),
        Err(TypeErr::NoMemory) => Err(CheckErr::NoMemory),
    }
}
