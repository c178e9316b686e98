ghost use Rattle.std.specs.Prelude.{◌≡◌, ℕ, ◌<◌, ◌^◌, true, false, ◌≤◌, ◌++◌, List, [], ◌∷◌, Some, None, decimal, length, take, IfOk, MatchOption};
ghost use Rattle.std.specs.List.{AllByRecursion};
ghost use Rattle.std.specs.Str.{bytes_eq};
ghost use Rattle.law_lines.specs.declared.raw.RawTerm.{RawTerm};
ghost use Rattle.law_lines.specs.declared.want.Bounds.TheVariants.{Kept};
ghost use Rattle.law_lines.specs.Lines.{IsName, IsNumber};
ghost use Rattle.law_lines.specs.Spelling.{arg_spelling, term_spelling};
ghost use Rattle.law_lines.specs.FirstArg.{word_at};
ghost use Rattle.law_cert_text.specs.declared.cert.Mark.{Mark};
ghost use Rattle.law_sig.specs.declared.chain.Dir.{Dir};
ghost use Rattle.law_cert_text.specs.declared.cert.RawBind.{RawBind};
ghost use Rattle.law_cert_text.specs.Spelling.{bind_text, dir_text, dotted, mark_text, pos_text, var_text};
ghost use Rattle.law_cert_text.specs.Certificates.{IsBind, IsEarned, IsIndex, IsWritten};
ghost use Rattle.law_cert_text.specs.Words.{AreSides, Exact, IsBehind, IsCut, IsFirst, IsDotted, IsNextWord, NoFirst, NoSpace, alone_text, has_args, is_behind, IsArgWord, inner_level, level_above, next_level, is_undotted, row_text, sides_text};

use law_cert_text::{Mark, RawBind};
use law_lines::{RawTerm, ReadErr};
use law_read::{read_equation, read_term};
use law_sig::{Dir, NoMemory, Seq, Text};
use law_text::{index, is_name, number};
use std::alloc::Global;

pub fn same(word: &[u8], text: &[u8]) -> bool
    ensures { result ≡ bytes_eq word.now text.now }
{
    word == text
}

/// The bytes before the first space, and those from there on.
pub fn first_word(bytes: &[u8]) -> (&[u8], &[u8])
    ensures { IsCut bytes.now result.0.now result.1.now }
{
    for (at, byte) in bytes.iter().enumerate() {
        if *byte == b' ' {
            return (&bytes[..at], &bytes[at..]);
        }
    }
    (bytes, &[])
}

/// The next word, behind its space, and what stands behind that.
pub fn next_word(bytes: &[u8]) -> Option<(&[u8], &[u8])>
    ensures { MatchOption result (NoSpace bytes.now) (λ found. IsNextWord bytes.now found.0.now found.1.now) }
{
    match bytes {
        [b' ', rest @ ..] => Some(first_word(rest)),
        _ => None,
    }
}

pub fn next_number(bytes: &[u8]) -> Option<(u64, &[u8])>
    ensures { MatchOption result (NoFirst ℕ IsNumber decimal bytes.now) (λ found. IsFirst ℕ IsNumber decimal bytes.now found.0 found.1.now) }
{
    match next_word(bytes) {
        None => None,
        Some((word, behind)) => match number(word) {
            None => None,
            Some(found) => Some((found, behind)),
        },
    }
}

pub fn next_name(bytes: &[u8]) -> Option<(&[u8], &[u8])>
    ensures { MatchOption result (NoFirst (List ℕ) (IsName Kept) (λ name. name) bytes.now) (λ found. IsFirst (List ℕ) (IsName Kept) (λ name. name) bytes.now found.0.now found.1.now) }
{
    match next_word(bytes) {
        None => None,
        Some((word, behind)) => {
            if is_name(word) {
                Some((word, behind))
            } else {
                None
            }
        }
    }
}

/// The number at the end of a line.
pub fn last_number(bytes: &[u8]) -> Option<u64>
    ensures { Exact ℕ IsNumber (λ n. 32 ∷ decimal n) bytes.now result }
{
    match next_number(bytes) {
        None => None,
        Some((found, behind)) => { if behind.is_empty() { Some(found) } else { None } }
    }
}

/// The name at the end of a line.
pub fn last_name(bytes: &[u8]) -> Option<&[u8]>
    ensures { MatchOption result
        ((name : List ℕ) → IsName Kept name → 32 ∷ name ≡ bytes.now → ⊥)
        (λ name. IsName Kept name.now × (32 ∷ name.now ≡ bytes.now)) }
{
    match next_name(bytes) {
        None => None,
        Some((found, behind)) => { if behind.is_empty() { Some(found) } else { None } }
    }
}

fn mark_of(word: &[u8]) -> Option<Mark>
    ensures { Exact Mark IsEarned mark_text word.now result }
{
    if same(word, b"saturated") {
        return Some(Mark::Saturated);
    }
    if same(word, b"spent") {
        return Some(Mark::Spent);
    }
    if same(word, b"aside") {
        return Some(Mark::Aside);
    }
    None
}

/// The mark of a law in a certificate.
pub fn next_mark(bytes: &[u8]) -> Option<(Mark, &[u8])>
    ensures { MatchOption result (NoFirst Mark IsEarned mark_text bytes.now) (λ found. IsFirst Mark IsEarned mark_text bytes.now found.0 found.1.now) }
{
    match next_word(bytes) {
        None => None,
        Some((word, behind)) => match mark_of(word) {
            None => None,
            Some(mark) => Some((mark, behind)),
        },
    }
}

fn dir_of(word: &[u8]) -> Option<Dir>
    ensures { Exact Dir (λ dir. Unit {0}) dir_text word.now result }
{
    if same(word, b"lr") {
        return Some(Dir::LeftToRight);
    }
    if same(word, b"rl") {
        return Some(Dir::RightToLeft);
    }
    None
}

pub fn next_dir(bytes: &[u8]) -> Option<(Dir, &[u8])>
    ensures { MatchOption result (NoFirst Dir (λ dir. Unit {0}) dir_text bytes.now) (λ found. IsFirst Dir (λ dir. Unit {0}) dir_text bytes.now found.0 found.1.now) }
{
    match next_word(bytes) {
        None => None,
        Some((word, behind)) => match dir_of(word) {
            None => None,
            Some(dir) => Some((dir, behind)),
        },
    }
}

/// The bytes before and behind the first dot; `None` where there is none.
fn at_dot(bytes: &[u8]) -> Option<(&[u8], &[u8])>
    ensures { MatchOption result (is_undotted bytes.now ≡ true) (λ parts. IsDotted bytes.now parts.0.now parts.1.now) }
{
    for (at, byte) in bytes.iter().enumerate() {
        if *byte == b'.' {
            return Some((&bytes[..at], &bytes[at + 1..]));
        }
    }
    None
}

/// The argument numbers of a position other than the root.
fn path(alloc: Global, word: &[u8]) -> Result<Option<Seq<u32>>, NoMemory>
    ensures { IfOk result (Exact (List ℕ) (AllByRecursion IsIndex) dotted (46 ∷ word.now)) }
{
    let mut numbers = Seq::new(alloc);
    let mut rest = word;
    while let Some((digits, more)) = at_dot(rest) {
        match index(digits) {
            None => return Ok(None),
            Some(number) => {
                numbers.push(number)?;
                rest = more;
            }
        }
    }
    match index(rest) {
        None => Ok(None),
        Some(number) => {
            numbers.push(number)?;
            Ok(Some(numbers))
        }
    }
}

fn position(alloc: Global, word: &[u8]) -> Result<Option<Seq<u32>>, NoMemory>
    ensures { IfOk result (Exact (List ℕ) (AllByRecursion IsIndex) pos_text word.now) }
{
    if same(word, b"-") {
        return Ok(Some(Seq::new(alloc)));
    }
    path(alloc, word)
}

pub fn next_pos(alloc: Global, bytes: &[u8]) -> Result<Option<(Seq<u32>, &[u8])>, NoMemory>
    ensures { IfOk result (λ found. MatchOption found (NoFirst (List ℕ) (AllByRecursion IsIndex) pos_text bytes.now) (λ found. IsFirst (List ℕ) (AllByRecursion IsIndex) pos_text bytes.now found.0 found.1.now)) }
{
    match next_word(bytes) {
        None => Ok(None),
        Some((word, behind)) => match position(alloc, word)? {
            None => Ok(None),
            Some(pos) => Ok(Some((pos, behind))),
        },
    }
}

/// Both sides of an equation, to the end of the line.
pub fn sides(alloc: Global, bytes: &[u8]) -> Result<Option<(RawTerm, RawTerm)>, NoMemory>
    ensures { IfOk result (Exact (RawTerm × RawTerm) AreSides sides_text bytes.now) }
{
    match bytes {
        [b' ', rest @ ..] => read_equation(alloc, rest),
        _ => Ok(None),
    }
}

fn term(alloc: Global, bytes: &[u8]) -> Result<Option<RawTerm>, NoMemory>
    ensures { IfOk result (Exact RawTerm IsWritten term_spelling bytes.now) }
{
    match read_term(alloc, bytes) {
        Ok(term) => Ok(Some(term)),
        Err(ReadErr::Form { .. }) => Ok(None),
        Err(ReadErr::NoMemory) => Err(NoMemory),
    }
}

/// A term, to the end of the line.
pub fn alone(alloc: Global, bytes: &[u8]) -> Result<Option<RawTerm>, NoMemory>
    ensures { IfOk result (Exact RawTerm IsWritten alone_text bytes.now) }
{
    match bytes {
        [b' ', rest @ ..] => term(alloc, rest),
        _ => Ok(None),
    }
}

/// How deep in brackets one is behind a byte; `None` where it ends an argument: a space or a closing
/// bracket outside of brackets.
fn next_level(level: usize, byte: u8) -> Option<usize>
    requires { level < 2 ^ 63 }
    ensures { result ≡ next_level level byte }
{
    if byte == b'(' {
        return Some(level + 1);
    }
    if byte == b')' {
        return above(level);
    }
    if byte == b' ' {
        return inner(level);
    }
    Some(level)
}

fn inner(level: usize) -> Option<usize>
    ensures { result ≡ inner_level level }
{
    if level == 0 { None } else { Some(level) }
}

fn above(level: usize) -> Option<usize>
    ensures { result ≡ level_above level }
{
    if level == 0 { None } else { Some(level - 1) }
}

/// How long the first argument is.
fn arg_len(bytes: &[u8]) -> usize
    ensures text { take result bytes.now ≡ word_at 0 bytes.now }
    ensures within { result ≤ length bytes.now }
{
    let mut level = 0usize;
    for (at, byte) in bytes.iter().enumerate() {
        match next_level(level, *byte) {
            None => return at,
            Some(next) => level = next,
        }
    }
    bytes.len()
}

/// The first argument, behind its space, and what stands behind it.
fn arg_word(bytes: &[u8]) -> Option<(&[u8], &[u8])>
    ensures { MatchOption result (NoSpace bytes.now) (λ found. IsArgWord bytes.now found.0.now found.1.now) }
{
    match bytes {
        [b' ', rest @ ..] => Some(first_arg(rest)),
        _ => None,
    }
}

fn first_arg(bytes: &[u8]) -> (&[u8], &[u8])
    ensures text { bytes.now ≡ result.0.now ++ result.1.now }
    ensures first { result.0.now ≡ word_at 0 bytes.now }
{
    bytes.split_at(arg_len(bytes))
}

/// A term that has arguments.
fn applied(alloc: Global, bytes: &[u8]) -> Result<Option<RawTerm>, NoMemory>
    ensures { IfOk result (Exact RawTerm (λ term. IsWritten term × (has_args term ≡ true)) term_spelling bytes.now) }
{
    match term(alloc, bytes)? {
        None => Ok(None),
        Some(found) => {
            if has_args(&found) {
                Ok(Some(found))
            } else {
                Ok(None)
            }
        }
    }
}

/// A term that has none.
fn atom(alloc: Global, bytes: &[u8]) -> Result<Option<RawTerm>, NoMemory>
    ensures { IfOk result (Exact RawTerm (λ term. IsWritten term × (has_args term ≡ false)) term_spelling bytes.now) }
{
    match term(alloc, bytes)? {
        None => Ok(None),
        Some(found) => {
            if has_args(&found) {
                Ok(None)
            } else {
                Ok(Some(found))
            }
        }
    }
}

fn has_args(term: &RawTerm) -> bool
    ensures { result ≡ has_args term.now }
{
    match term.args.as_slice() {
        [] => false,
        [_, ..] => true,
    }
}

/// The term that stands as this argument.
fn arg(alloc: Global, word: &[u8]) -> Result<Option<RawTerm>, NoMemory>
    ensures { IfOk result (Exact RawTerm IsWritten arg_spelling word.now) }
{
    match inside(word) {
        None => atom(alloc, word),
        Some(inner) => applied(alloc, inner),
    }
}

/// What stands in brackets, where a word begins and ends with them.
fn inside(word: &[u8]) -> Option<&[u8]>
    ensures { MatchOption result
        ((inner : List ℕ) → 40 ∷ (inner ++ 41 ∷ []) ≡ word.now → ⊥)
        (λ inner. 40 ∷ (inner.now ++ 41 ∷ []) ≡ word.now) }
{
    match word {
        [b'(', rest @ ..] => before_closing(rest),
        _ => None,
    }
}

fn before_closing(bytes: &[u8]) -> Option<&[u8]>
    ensures { MatchOption result
        ((inner : List ℕ) → inner ++ 41 ∷ [] ≡ bytes.now → ⊥)
        (λ inner. inner.now ++ 41 ∷ [] ≡ bytes.now) }
{
    if bytes.is_empty() {
        return None;
    }
    let last = bytes.len() - 1;
    if bytes[last] == b')' {
        Some(&bytes[..last])
    } else {
        None
    }
}

/// Whether another part may stand there, or nothing.
fn is_behind(bytes: &[u8]) -> bool
    ensures { result ≡ is_behind bytes.now }
{
    match bytes {
        [] => true,
        [first, ..] => *first == b' ',
    }
}

fn next_arg(alloc: Global, bytes: &[u8]) -> Result<Option<(RawTerm, &[u8])>, NoMemory>
    ensures { IfOk result (λ found. MatchOption found (NoFirst RawTerm IsWritten arg_spelling bytes.now) (λ found. IsFirst RawTerm IsWritten arg_spelling bytes.now found.0 found.1.now)) }
{
    match arg_word(bytes) {
        None => Ok(None),
        Some((word, behind)) => {
            if !is_behind(behind) {
                return Ok(None);
            }
            match arg(alloc, word)? {
                None => Ok(None),
                Some(term) => Ok(Some((term, behind))),
            }
        }
    }
}

pub fn owned(alloc: Global, word: &[u8]) -> Result<Text, NoMemory>
    ensures { IfOk result (λ text. text ≡ word.now) }
{
    let mut text = Text::new(alloc);
    text.push_slice(word)?;
    Ok(text)
}

fn variable(word: &[u8]) -> Option<(&[u8], u32)>
    ensures { MatchOption result
        ((sort : List ℕ) (index : ℕ) → IsName Kept sort → IsIndex index → var_text sort index ≡ word.now → ⊥)
        (λ found. IsName Kept found.0.now × IsIndex found.1 × (var_text found.0.now found.1 ≡ word.now)) }
{
    match at_dot(word) {
        None => None,
        Some((sort, digits)) => {
            if !is_name(sort) {
                return None;
            }
            match index(digits) {
                None => None,
                Some(number) => Some((sort, number)),
            }
        }
    }
}

pub fn next_bind(alloc: Global, bytes: &[u8]) -> Result<Option<(RawBind, &[u8])>, NoMemory>
    ensures { IfOk result (λ found. MatchOption found (NoFirst RawBind IsBind bind_text bytes.now) (λ found. IsFirst RawBind IsBind bind_text bytes.now found.0 found.1.now)) }
{
    match next_word(bytes) {
        None => Ok(None),
        Some((word, behind)) => match variable(word) {
            None => Ok(None),
            Some((sort, index)) => match next_arg(alloc, behind)? {
                None => Ok(None),
                Some((term, behind)) => {
                    let sort = owned(alloc, sort)?;
                    Ok(Some((RawBind { sort, index, term }, behind)))
                }
            },
        },
    }
}

/// The numbers to the end of the line.
pub fn numbers(alloc: Global, bytes: &[u8]) -> Result<Option<Seq<u64>>, NoMemory>
    ensures { IfOk result (Exact (List ℕ) (AllByRecursion IsNumber) (row_text ℕ decimal) bytes.now) }
{
    let mut found = Seq::new(alloc);
    let mut rest = bytes;
    loop {
        if rest.is_empty() {
            return Ok(Some(found));
        }
        match next_number(rest) {
            None => return Ok(None),
            Some((number, behind)) => {
                found.push(number)?;
                rest = behind;
            }
        }
    }
}

/// What stands for the variables of a step, to the end of the line.
pub fn binds(alloc: Global, bytes: &[u8]) -> Result<Option<Seq<RawBind>>, NoMemory>
    ensures { IfOk result (Exact (List RawBind) (AllByRecursion IsBind) (row_text RawBind bind_text) bytes.now) }
{
    let mut found = Seq::new(alloc);
    let mut rest = bytes;
    loop {
        if rest.is_empty() {
            return Ok(Some(found));
        }
        match next_bind(alloc, rest)? {
            None => return Ok(None),
            Some((bind, behind)) => {
                found.push(bind)?;
                rest = behind;
            }
        }
    }
}
