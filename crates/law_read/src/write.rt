ghost use Rattle.std.specs.Prelude.{◌≡◌, ◌++◌, ◌∷◌, [], map, decimal, IfOk, OnOk};
ghost use Rattle.law_lines.specs.Lines.{IsDeclaration};
ghost use Rattle.law_lines.specs.declared.raw.RawLine.TheVariants.{Background, PoolsSeed};
ghost use Rattle.law_lines.specs.Spelling.{head_spelling, arg_spelling, term_spelling, term_words, line_spelling, sig_spelling, spaced};

use law_lines::{RawHead, RawLine, RawSig, RawTerm};
use law_sig::{NoMemory, Text};
use law_text::put_number;
use std::alloc::Global;

/// The text of a signature: each line and its line feed.
pub fn write_sig(alloc: Global, raw: &RawSig) -> Result<Text, NoMemory>
    ensures { IfOk result (λ text. text ≡ sig_spelling raw.now) }
{
    let mut text = Text::new(alloc);
    put_lines(&mut text, raw.lines())?;
    Ok(text)
}

/// Adds these lines, each with its line feed.
fn put_lines(out: &mut Text, lines: &[RawLine]) -> Result<(), NoMemory>
    ensures { OnOk result (out.new ≡ out.old ++ sig_spelling lines.now) }
{
    for line in lines {
        put_line(out, line)?;
        out.push(b'\n')?;
    }
    Ok(())
}

/// The text of a term that stands by itself.
pub fn write_term(alloc: Global, term: &RawTerm) -> Result<Text, NoMemory>
    ensures { IfOk result (λ text. text ≡ term_spelling term.now) }
{
    let mut text = Text::new(alloc);
    put_term(&mut text, term)?;
    Ok(text)
}

/// The text of a term as an argument: in brackets where it has arguments of its own.
pub fn write_arg(alloc: Global, term: &RawTerm) -> Result<Text, NoMemory>
    ensures { IfOk result (λ text. text ≡ arg_spelling term.now) }
{
    let mut text = Text::new(alloc);
    put_arg(&mut text, term)?;
    Ok(text)
}

fn put_head(out: &mut Text, head: &RawHead) -> Result<(), NoMemory>
    ensures { OnOk result (out.new ≡ out.old ++ head_spelling head.now) }
{
    match head {
        RawHead::Name(name) => out.push_slice(name.as_slice()),
        RawHead::Var(sort, index) => {
            out.push_slice(sort.as_slice())?;
            out.push(b'.')?;
            put_number(out, u64::from(*index))
        }
        RawHead::Param(number) => {
            out.push(b'#')?;
            put_number(out, u64::from(*number))
        }
        RawHead::Field(number) => {
            out.push(b'@')?;
            put_number(out, u64::from(*number))
        }
    }
}

/// Adds a term as an argument.
fn put_arg(out: &mut Text, term: &RawTerm) -> Result<(), NoMemory>
    ensures { OnOk result (out.new ≡ out.old ++ arg_spelling term.now) }
{
    if term.args.len() == 0 {
        return put_head(out, &term.head);
    }
    out.push(b'(')?;
    put_head(out, &term.head)?;
    for arg in term.args.as_slice() {
        out.push(b' ')?;
        put_arg(out, arg)?;
    }
    out.push(b')')
}

fn put_term(out: &mut Text, term: &RawTerm) -> Result<(), NoMemory>
    ensures { OnOk result (out.new ≡ out.old ++ term_spelling term.now) }
{
    put_head(out, &term.head)?;
    put_args(out, term.args.as_slice())
}

/// Adds each word of the term, behind a space.
fn put_words(out: &mut Text, term: &RawTerm) -> Result<(), NoMemory>
    ensures { OnOk result (out.new ≡ out.old ++ spaced (term_words term.now)) }
{
    out.push(b' ')?;
    put_term(out, term)
}

fn put_background(out: &mut Text, left: &RawTerm, right: &RawTerm) -> Result<(), NoMemory>
    ensures { OnOk result (out.new ≡ out.old ++ line_spelling (Background left.now right.now)) }
{
    out.push_slice(b"background")?;
    put_words(out, left)?;
    put_word(out, b"=")?;
    put_words(out, right)
}

/// Adds each argument, behind a space.
fn put_args(out: &mut Text, terms: &[RawTerm]) -> Result<(), NoMemory>
    ensures { OnOk result (out.new ≡ out.old ++ spaced (map arg_spelling terms.now)) }
{
    for term in terms {
        out.push(b' ')?;
        put_arg(out, term)?;
    }
    Ok(())
}

/// Each name behind a space.
fn put_names(out: &mut Text, names: &[Text]) -> Result<(), NoMemory>
    ensures { OnOk result (out.new ≡ out.old ++ spaced names.now) }
{
    for name in names {
        put_word(out, name.as_slice())?;
    }
    Ok(())
}

/// Adds a word, behind a space.
fn put_word(out: &mut Text, word: &[u8]) -> Result<(), NoMemory>
    ensures { OnOk result (out.new ≡ out.old ++ 32 ∷ word.now) }
{
    out.push(b' ')?;
    out.push_slice(word)
}

/// Adds a number, behind a space.
fn put_numeral(out: &mut Text, n: u64) -> Result<(), NoMemory>
    ensures { OnOk result (out.new ≡ out.old ++ 32 ∷ decimal n) }
{
    out.push(b' ')?;
    put_number(out, n)
}

fn put_line(out: &mut Text, line: &RawLine) -> Result<(), NoMemory>
    ensures { OnOk result (out.new ≡ out.old ++ line_spelling line.now) }
{
    match line {
        RawLine::Head => out.push_slice(b"signature 1"),
        RawLine::Head2 => out.push_slice(b"signature 2"),
        RawLine::Head3 => out.push_slice(b"signature 3"),
        RawLine::Vars(n) => put_setting(out, b"vars", *n),
        RawLine::Size(n) => put_setting(out, b"size", *n),
        RawLine::Width(n) => put_setting(out, b"width", *n),
        RawLine::Budget(n) => put_setting(out, b"budget", *n),
        RawLine::Pairs(n) => put_setting(out, b"pairs", *n),
        RawLine::PoolsGiven => out.push_slice(b"pools given"),
        RawLine::PoolsSeed {
            seed,
            height,
            count,
        } => put_seed(out, *seed, *height, *count),
        RawLine::MatchLine(n) => put_setting(out, b"match", *n),
        RawLine::BodyLine(body) => {
            out.push_slice(b"body = ")?;
            put_term(out, body)
        }
        RawLine::CaseLine { con, body } => {
            out.push_slice(b"case ")?;
            out.push_slice(con.as_slice())?;
            out.push_slice(b" = ")?;
            put_term(out, body)
        }
        RawLine::Background { left, right } => put_background(out, left, right),
        RawLine::Pool => out.push_slice(b"pool"),
        RawLine::Values { sort, values } => {
            out.push_slice(b"values ")?;
            out.push_slice(sort.as_slice())?;
            put_args(out, values.as_slice())
        }
        RawLine::End => out.push_slice(b"end"),
        _ => put_declaration(out, line),
    }
}

fn put_declaration(out: &mut Text, line: &RawLine) -> Result<(), NoMemory>
    requires { IsDeclaration line.now }
    ensures { OnOk result (out.new ≡ out.old ++ line_spelling line.now) }
{
    match line {
        RawLine::SortLine(name) => put_named(out, b"sort", name.as_slice()),
        RawLine::SortLine2 { name, vars, width } => {
            put_named(out, b"sort", name.as_slice())?;
            put_numeral(out, *vars)?;
            put_numeral(out, *width)
        }
        RawLine::ConLine { name, args } => {
            put_named(out, b"con", name.as_slice())?;
            put_names(out, args.as_slice())
        }
        RawLine::ConLine3 { weight, name, args } => {
            put_setting(out, b"con", *weight)?;
            put_word(out, name.as_slice())?;
            put_names(out, args.as_slice())
        }
        RawLine::FunLine { name, args, result } => {
            put_named(out, b"fun", name.as_slice())?;
            put_names(out, args.as_slice())?;
            put_named(out, b" ->", result.as_slice())
        }
        RawLine::FunLine3 {
            weight,
            name,
            args,
            result,
        } => {
            put_setting(out, b"fun", *weight)?;
            put_word(out, name.as_slice())?;
            put_names(out, args.as_slice())?;
            put_named(out, b" ->", result.as_slice())
        }
        RawLine::Explore(names) => {
            out.push_slice(b"explore")?;
            put_names(out, names.as_slice())
        }
        _ => unreachable!(),
    }
}

fn put_seed(out: &mut Text, seed: u64, height: u64, count: u64) -> Result<(), NoMemory>
    ensures { OnOk result (out.new ≡ out.old ++ line_spelling (PoolsSeed seed height count)) }
{
    put_setting(out, b"pools seed", seed)?;
    put_setting(out, b" height", height)?;
    put_setting(out, b" count", count)
}

/// A word and a number behind it.
fn put_setting(out: &mut Text, word: &[u8], n: u64) -> Result<(), NoMemory>
    ensures { OnOk result (out.new ≡ out.old ++ word.now ++ 32 ∷ decimal n) }
{
    out.push_slice(word)?;
    put_numeral(out, n)
}

/// A word and a name behind it.
fn put_named(out: &mut Text, word: &[u8], name: &[u8]) -> Result<(), NoMemory>
    ensures { OnOk result (out.new ≡ out.old ++ word.now ++ 32 ∷ name.now) }
{
    out.push_slice(word)?;
    put_word(out, name)
}
