ghost use Rattle.std.specs.Prelude.{◌≡◌, ℕ, List, [], ◌∷◌, ◌++◌, IfOk, OnOk};
ghost use Rattle.std.specs.List.{AllByRecursion};
ghost use Rattle.law_cert_text.specs.Certificates.{IsCertText, IsEntry};
ghost use Rattle.law_cert_text.specs.Readers.{HasHeard, IsReadAs};
ghost use Rattle.law_cli.specs.Checks.{IsCheckAnswer, law_lines, yes_line};

use crate::plain::{Answer, refusal};
use crate::status::{FormKind, Status, put_count, put_last_count};
use law_cert::{Cert, CertErr, CertReader, Entry, write_law};
use law_check::{CheckErr, Counts, Verdict, verify};
use law_sig::{NoMemory, Text};
use std::alloc::Global;

/// The answer to the bytes that a reader of certificates was given, whole: its counts and laws where it is valid, or the
/// line that says why it isn't, or that they spell none.
pub fn answer_to_certificate(alloc: Global, reader: CertReader) -> Result<Answer, NoMemory>
    ensures { IfOk result (λ found. (bytes : List ℕ) → HasHeard reader bytes → IsCheckAnswer bytes found.status found.text) }
{
    match reader.finish() {
        Ok(cert) => of_certificate(alloc, &cert),
        Err(CertErr::Form { line }) => {
            let kind = FormKind::Certificate;
            refusal(alloc, Status::Form { line, kind })
        }
        Err(CertErr::NoMemory) => Err(NoMemory),
    }
}

/// The answer to the text of this certificate.
fn of_certificate(alloc: Global, cert: &Cert) -> Result<Answer, NoMemory>
    requires { IsCertText cert.now }
    ensures { IfOk result (λ found. (bytes : List ℕ) → IsReadAs bytes cert.now → IsCheckAnswer bytes found.status found.text) }
{
    match verify(alloc, cert) {
        Ok(Verdict::Yes(counts)) => {
            let text = yes_text(alloc, counts, cert.entries.as_slice())?;
            Ok(Answer {
                status: Status::Done,
                text,
            })
        }
        Ok(Verdict::No { rule, entry }) => refusal(alloc, Status::Rejected { rule, entry }),
        Err(CheckErr::Over { entry, test, term }) => {
            refusal(alloc, Status::Over { entry, test, term })
        }
        Err(CheckErr::NoMemory) => Err(NoMemory),
    }
}

/// The counts of a valid certificate, and the laws among its entries.
fn yes_text(alloc: Global, counts: Counts, entries: &[Entry]) -> Result<Text, NoMemory>
    requires { AllByRecursion IsEntry entries.now }
    ensures { IfOk result (λ text. text ≡ yes_line counts ++ law_lines entries.now) }
{
    let mut text = Text::new(alloc);
    put_yes(&mut text, counts)?;
    put_laws(alloc, &mut text, entries)?;
    Ok(text)
}

/// The counts, on a line.
fn put_yes(out: &mut Text, counts: Counts) -> Result<(), NoMemory>
    ensures { OnOk result (out.new ≡ out.old ++ yes_line counts) }
{
    put_count(out, b"yes laws ", counts.laws)?;
    put_count(out, b" live ", counts.live)?;
    put_count(out, b" moved ", counts.moved)?;
    put_last_count(out, b" killed ", counts.killed)
}

/// The lines of the laws among these entries.
fn put_laws(alloc: Global, out: &mut Text, entries: &[Entry]) -> Result<(), NoMemory>
    requires { AllByRecursion IsEntry entries.now }
    ensures { OnOk result (out.new ≡ out.old ++ law_lines entries.now) }
{
    for entry in entries {
        put_law(alloc, out, entry)?;
    }
    Ok(())
}

/// The line of an entry that is a law, and nothing of any other.
fn put_law(alloc: Global, out: &mut Text, entry: &Entry) -> Result<(), NoMemory>
    requires { IsEntry entry.now }
    ensures { OnOk result (out.new ≡ out.old ++ law_lines (entry.now ∷ [])) }
{
    match entry {
        Entry::Law { .. } => {
            let line = write_law(alloc, entry)?;
            out.push_slice(line.as_slice())
        }
        _ => Ok(()),
    }
}
