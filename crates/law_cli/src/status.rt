ghost use Rattle.std.specs.Prelude.{◌≡◌, ◌++◌, ◌∷◌, [], decimal, IfOk, OnOk};
ghost use Rattle.law_cli.specs.declared.status.Which.TheVariants as which;
ghost use Rattle.law_cli.specs.declared.status.Status.TheVariants as status;
ghost use Rattle.law_cli.specs.Printed.{status_text, code_of, read_kind_name, rule_name, sort_kind_name, kind_name, which_name};

use law_check::Rule;
use law_read::{RawTerm, ReadKind, write_term};
use law_sig::{NoMemory, Text};
use law_text::put_number;
use law_types::TypeKind;
use std::alloc::Global;

/// What is wrong with a line of the input.
#[derive(Clone, Copy, Debug)]
pub enum FormKind {
    /// The line has no reading.
    Read(ReadKind),
    /// The text has a reading, but the line shows that it states no signature.
    Sort(TypeKind),
    /// The line has no reading in a certificate.
    Certificate,
}

/// A limit that the input passes.
#[derive(Clone, Copy, Debug)]
pub enum Which {
    /// 1,048,576 bytes of a signature text, 2^63 - 1 of a certificate.
    Bytes,
    /// 4,096 ways to give places in a pool to all variables.
    Assignments,
    /// 8,192 terms of the universe.
    Terms,
    /// 4,096 nodes of a generated value.
    Value,
}

/// How a call of `run` ended.
#[derive(Debug, Drop)]
pub enum Status {
    /// What was asked for was printed whole.
    Done,
    /// The input spells a certificate that isn't valid: the first rule that fails, and its entry. Entries are counted from
    /// 1, trees go on counting, and 0 is what stands before the entries.
    Rejected {
        rule: Rule,
        entry: u64,
    },
    /// The words name no command; the input was not asked for anything.
    Usage,
    /// The input states no signature, or spells no certificate: the first line that shows it, counted from 1, and why.
    Form {
        line: u64,
        kind: FormKind,
    },
    /// The input passes a limit.
    Limit {
        which: Which,
    },
    /// A term has no value at a test, counted from 0: an application in it needs more steps than the budget. The entry
    /// is that of a certificate which asks for the value, or 0.
    Over {
        entry: u64,
        test: u64,
        term: RawTerm,
    },
    /// The two sides of a background equation, counted from 1, differ at a test, counted from 0.
    BackgroundFails {
        law: u64,
        test: u64,
    },
    /// The input failed; nothing was printed.
    ReadFault,
    /// The output failed; it took the first bytes of what would have been printed.
    WriteFault,
    /// Memory ran out; nothing was printed.
    NoMemory,
}

/// The line that names the words.
pub fn usage_line() -> &'static [u8]
    ensures { result.now ≡ status_text status.Usage }
{
    b"usage: lawfind plain | explore | check | laws | demo N\n"
}

/// The line of an input with too many bytes.
pub fn too_long_line() -> &'static [u8]
    ensures { result.now ≡ status_text (status.Limit which.Bytes) }
{
    b"limit Bytes\n"
}

/// The name of a kind of a line without a reading.
fn read_kind_name(kind: ReadKind) -> &'static [u8]
    ensures { result.now ≡ read_kind_name kind }
{
    match kind {
        ReadKind::Byte => b"Byte",
        ReadKind::Word => b"Word",
        ReadKind::Number => b"Number",
        ReadKind::Missing => b"Missing",
        ReadKind::Doubled => b"Doubled",
        ReadKind::TooLong => b"TooLong",
    }
}

/// The name of a kind of a fault in what the lines state.
fn sort_kind_name(kind: TypeKind) -> &'static [u8]
    ensures { result.now ≡ sort_kind_name kind }
{
    match kind {
        TypeKind::UnknownSort => b"UnknownSort",
        TypeKind::UnknownName => b"UnknownName",
        TypeKind::NameTwice => b"NameTwice",
        TypeKind::Arity => b"Arity",
        TypeKind::SortMismatch { .. } => b"SortMismatch",
        TypeKind::CaseMissing => b"CaseMissing",
        TypeKind::CaseTwice => b"CaseTwice",
        TypeKind::NotSmaller => b"NotSmaller",
        TypeKind::LaterCall => b"LaterCall",
        TypeKind::EmptySort => b"EmptySort",
        TypeKind::SettingRange => b"SettingRange",
    }
}

/// The name of a kind.
fn kind_name(kind: FormKind) -> &'static [u8]
    ensures { result.now ≡ kind_name kind }
{
    match kind {
        FormKind::Read(kind) => read_kind_name(kind),
        FormKind::Sort(kind) => sort_kind_name(kind),
        FormKind::Certificate => b"Certificate",
    }
}

/// The name of a rule of certificates.
fn rule_name(rule: Rule) -> &'static [u8]
    ensures { result.now ≡ rule_name rule }
{
    match rule {
        Rule::V1 => b"V1",
        Rule::V2 => b"V2",
        Rule::V3 => b"V3",
        Rule::V4 => b"V4",
        Rule::V5 => b"V5",
        Rule::V6 => b"V6",
        Rule::V7 => b"V7",
        Rule::V8 => b"V8",
        Rule::V9 => b"V9",
    }
}

/// The name of a limit.
fn which_name(which: Which) -> &'static [u8]
    ensures { result.now ≡ which_name which }
{
    match which {
        Which::Bytes => b"Bytes",
        Which::Assignments => b"Assignments",
        Which::Terms => b"Terms",
        Which::Value => b"Value",
    }
}

/// The one line that is printed for a status, with its line feed, or nothing.
pub fn status_line(alloc: Global, status: &Status) -> Result<Text, NoMemory>
    ensures { IfOk result (λ text. text ≡ status_text status.now) }
{
    let mut text = Text::new(alloc);
    match status {
        Status::Rejected { rule, entry } => put_rejected(&mut text, *rule, *entry)?,
        Status::Usage => text.push_slice(usage_line())?,
        Status::Form { line, kind } => put_form(&mut text, *line, *kind)?,
        Status::Limit { which } => put_limit(&mut text, *which)?,
        Status::Over { entry, test, term } => put_over(alloc, &mut text, *entry, *test, term)?,
        Status::BackgroundFails { law, test } => put_background(&mut text, *law, *test)?,
        Status::Done | Status::ReadFault | Status::WriteFault | Status::NoMemory => {}
    }
    Ok(text)
}

/// A word of a line and a number behind it.
pub fn put_count(out: &mut Text, word: &[u8], count: u64) -> Result<(), NoMemory>
    ensures { OnOk result (out.new ≡ out.old ++ (word.now ++ decimal count)) }
{
    out.push_slice(word)?;
    put_number(out, count)
}

/// The same, at the end of a line.
pub fn put_last_count(out: &mut Text, word: &[u8], count: u64) -> Result<(), NoMemory>
    ensures { OnOk result (out.new ≡ out.old ++ (word.now ++ (decimal count ++ 10 ∷ []))) }
{
    put_count(out, word, count)?;
    out.push(b'\n')
}

fn put_rejected(out: &mut Text, rule: Rule, entry: u64) -> Result<(), NoMemory>
    ensures { OnOk result (out.new ≡ out.old ++ status_text (status.Rejected rule entry)) }
{
    out.push_slice(b"no ")?;
    out.push_slice(rule_name(rule))?;
    put_last_count(out, b" ", entry)
}

fn put_form(out: &mut Text, line: u64, kind: FormKind) -> Result<(), NoMemory>
    ensures { OnOk result (out.new ≡ out.old ++ status_text (status.Form line kind)) }
{
    put_count(out, b"line ", line)?;
    out.push_slice(b": ")?;
    out.push_slice(kind_name(kind))?;
    out.push(b'\n')
}

fn put_limit(out: &mut Text, which: Which) -> Result<(), NoMemory>
    ensures { OnOk result (out.new ≡ out.old ++ status_text (status.Limit which)) }
{
    out.push_slice(b"limit ")?;
    out.push_slice(which_name(which))?;
    out.push(b'\n')
}

fn put_over(
    alloc: Global,
    out: &mut Text,
    entry: u64,
    test: u64,
    term: &RawTerm,
) -> Result<(), NoMemory>
    ensures { OnOk result (out.new ≡ out.old ++ status_text (status.Over entry test term.now)) }
{
    let spelled = write_term(alloc, term)?;
    put_count(out, b"over ", entry)?;
    put_count(out, b" ", test)?;
    out.push(b' ')?;
    out.push_slice(spelled.as_slice())?;
    out.push(b'\n')
}

fn put_background(out: &mut Text, law: u64, test: u64) -> Result<(), NoMemory>
    ensures { OnOk result (out.new ≡ out.old ++ status_text (status.BackgroundFails law test)) }
{
    put_count(out, b"background ", law)?;
    put_last_count(out, b" fails at ", test)
}

/// The number that the program ends with.
pub fn code(status: &Status) -> u8
    ensures { result ≡ code_of status.now }
{
    match status {
        Status::Done => 0,
        Status::Rejected { .. } => 1,
        Status::Usage => 2,
        Status::Form { .. } => 3,
        Status::Limit { .. } => 4,
        Status::Over { .. } => 5,
        Status::BackgroundFails { .. } => 6,
        Status::ReadFault => 7,
        Status::WriteFault => 8,
        Status::NoMemory => 9,
    }
}
