ghost use Rattle.std.specs.Prelude.{◌≡◌, ℕ, List, ◌++◌, IfOk};
ghost use Rattle.law_sig.specs.declared.chain.Dir.{Dir};
ghost use Rattle.law_cert_text.specs.declared.cert.RawBind.{RawBind};
ghost use Rattle.law_cert_text.specs.Words.{Exact, IsMove, move_text};
ghost use Rattle.law_cert_text.specs.declared.line.Key.TheVariants as k;
ghost use Rattle.law_cert_text.specs.CertLines.{LineRead, TailRead, key_in, key_of, key_text, later_keys};

use crate::part::{
    alone, binds, first_word, last_name, last_number, next_dir, next_mark, next_number, next_pos,
    numbers, owned, same, sides,
};
use law_cert_text::{CertLine, Entry, Key, RawBind, RawStep, RawValues, TreeLine};
use law_read::read_values;
use law_sig::{Dir, NoMemory, Seq, Text};
use std::alloc::Global;

fn key_of(word: &[u8]) -> Option<Key>
    ensures { result ≡ key_of word.now }
{
    if same(word, b"pool") {
        return Some(Key::Pool);
    }
    if same(word, b"values") {
        return Some(Key::Values);
    }
    if same(word, b"law") {
        return Some(Key::Law);
    }
    if same(word, b"lemma") {
        return Some(Key::Lemma);
    }
    if same(word, b"spread") {
        return Some(Key::Spread);
    }
    if same(word, b"killed") {
        return Some(Key::Killed);
    }
    if same(word, b"live") {
        return Some(Key::Live);
    }
    later_key(word)
}

fn later_key(word: &[u8]) -> Option<Key>
    ensures { result ≡ key_in later_keys word.now }
{
    if same(word, b"moved") {
        return Some(Key::Moved);
    }
    if same(word, b"step") {
        return Some(Key::Step);
    }
    if same(word, b"tree") {
        return Some(Key::Tree);
    }
    if same(word, b"split") {
        return Some(Key::Split);
    }
    if same(word, b"class") {
        return Some(Key::Class);
    }
    if same(word, b"leaf") {
        return Some(Key::Leaf);
    }
    if same(word, b"end") {
        return Some(Key::End);
    }
    None
}

/// The line that some bytes spell; `None` where they spell none.
pub fn read_line(alloc: Global, bytes: &[u8]) -> Result<Option<CertLine>, NoMemory>
    ensures { IfOk result (LineRead bytes.now) }
{
    let (word, behind) = first_word(bytes);
    match key_of(word) {
        None => Ok(None),
        Some(key) => tail(alloc, key, bytes, behind),
    }
}

/// What stands behind the key of some bytes.
fn tail(alloc: Global, key: Key, bytes: &[u8], behind: &[u8]) -> Result<Option<CertLine>, NoMemory>
    requires { bytes.now ≡ key_text key ++ behind.now }
    ensures { IfOk result (TailRead key behind.now) }
{
    match key {
        Key::Pool => Ok(pool(behind)),
        Key::Values => values(alloc, bytes, behind),
        Key::Law => law(alloc, behind),
        Key::Lemma => lemma(alloc, behind),
        Key::Spread => spread(alloc, behind),
        Key::Killed => killed(alloc, behind),
        Key::Live => live(alloc, behind),
        Key::Moved => moved(alloc, behind),
        Key::Step => step(alloc, behind),
        Key::Tree => tree(alloc, behind),
        Key::Split => Ok(split(behind)),
        Key::Class => class(alloc, behind),
        Key::Leaf => Ok(leaf(behind)),
        Key::End => Ok(end(behind)),
    }
}

fn pool(bytes: &[u8]) -> Option<CertLine>
    ensures { TailRead k.Pool bytes.now result }
{
    if bytes.is_empty() {
        Some(CertLine::Pool)
    } else {
        None
    }
}

fn end(bytes: &[u8]) -> Option<CertLine>
    ensures { TailRead k.End bytes.now result }
{
    if bytes.is_empty() {
        Some(CertLine::End)
    } else {
        None
    }
}

fn values(alloc: Global, bytes: &[u8], behind: &[u8]) -> Result<Option<CertLine>, NoMemory>
    requires { bytes.now ≡ key_text k.Values ++ behind.now }
    ensures { IfOk result (TailRead k.Values behind.now) }
{
    match read_values(alloc, bytes)? {
        None => Ok(None),
        Some((sort, values)) => Ok(Some(CertLine::Values(RawValues { sort, values }))),
    }
}

fn law(alloc: Global, bytes: &[u8]) -> Result<Option<CertLine>, NoMemory>
    ensures { IfOk result (TailRead k.Law bytes.now) }
{
    match next_number(bytes) {
        None => Ok(None),
        Some((number, behind)) => match next_mark(behind) {
            None => Ok(None),
            Some((mark, rest)) => match sides(alloc, rest)? {
                None => Ok(None),
                Some((left, right)) => Ok(Some(CertLine::Entry(Entry::Law {
                    number,
                    mark,
                    left,
                    right,
                }))),
            },
        },
    }
}

fn lemma(alloc: Global, bytes: &[u8]) -> Result<Option<CertLine>, NoMemory>
    ensures { IfOk result (TailRead k.Lemma bytes.now) }
{
    match next_number(bytes) {
        None => Ok(None),
        Some((number, behind)) => match sides(alloc, behind)? {
            None => Ok(None),
            Some((left, right)) => Ok(Some(CertLine::Entry(Entry::Lemma {
                number,
                left,
                right,
                steps: Seq::new(alloc),
            }))),
        },
    }
}

fn spread(alloc: Global, bytes: &[u8]) -> Result<Option<CertLine>, NoMemory>
    ensures { IfOk result (TailRead k.Spread bytes.now) }
{
    match alone(alloc, bytes)? {
        None => Ok(None),
        Some(term) => Ok(Some(CertLine::Entry(Entry::Spread(term)))),
    }
}

fn live(alloc: Global, bytes: &[u8]) -> Result<Option<CertLine>, NoMemory>
    ensures { IfOk result (TailRead k.Live bytes.now) }
{
    match alone(alloc, bytes)? {
        None => Ok(None),
        Some(term) => Ok(Some(CertLine::Entry(Entry::Live(term)))),
    }
}

fn killed(alloc: Global, bytes: &[u8]) -> Result<Option<CertLine>, NoMemory>
    ensures { IfOk result (TailRead k.Killed bytes.now) }
{
    match sides(alloc, bytes)? {
        None => Ok(None),
        Some((general, target)) => Ok(Some(CertLine::Entry(Entry::Killed {
            general,
            target,
            steps: Seq::new(alloc),
        }))),
    }
}

fn moved(alloc: Global, bytes: &[u8]) -> Result<Option<CertLine>, NoMemory>
    ensures { IfOk result (TailRead k.Moved bytes.now) }
{
    match sides(alloc, bytes)? {
        None => Ok(None),
        Some((term, target)) => Ok(Some(CertLine::Entry(Entry::Moved {
            term,
            target,
            steps: Seq::new(alloc),
        }))),
    }
}

fn step(alloc: Global, bytes: &[u8]) -> Result<Option<CertLine>, NoMemory>
    ensures { IfOk result (TailRead k.Step bytes.now) }
{
    match next_pos(alloc, bytes)? {
        None => Ok(None),
        Some((pos, behind)) => match numbered(alloc, behind)? {
            None => Ok(None),
            Some((eq, dir, binds)) => Ok(Some(CertLine::Step(RawStep {
                pos,
                eq,
                dir,
                binds,
            }))),
        },
    }
}

/// A step behind its position.
fn numbered(alloc: Global, bytes: &[u8]) -> Result<Option<(u64, Dir, Seq<RawBind>)>, NoMemory>
    ensures { IfOk result (Exact (ℕ × Dir × List RawBind) IsMove move_text bytes.now) }
{
    match next_number(bytes) {
        None => Ok(None),
        Some((eq, behind)) => match next_dir(behind) {
            None => Ok(None),
            Some((dir, rest)) => match binds(alloc, rest)? {
                None => Ok(None),
                Some(found) => Ok(Some((eq, dir, found))),
            },
        },
    }
}

fn tree(alloc: Global, bytes: &[u8]) -> Result<Option<CertLine>, NoMemory>
    ensures { IfOk result (TailRead k.Tree bytes.now) }
{
    match last_name(bytes) {
        None => Ok(None),
        Some(name) => Ok(Some(CertLine::Tree(owned(alloc, name)?))),
    }
}

fn split(bytes: &[u8]) -> Option<CertLine>
    ensures { TailRead k.Split bytes.now result }
{
    match next_number(bytes) {
        None => None,
        Some((test, behind)) => match last_number(behind) {
            None => None,
            Some(count) => {
                if count >= 2 {
                    Some(CertLine::Node(TreeLine::Split { test, count }))
                } else {
                    None
                }
            }
        },
    }
}

fn class(alloc: Global, bytes: &[u8]) -> Result<Option<CertLine>, NoMemory>
    ensures { IfOk result (TailRead k.Class bytes.now) }
{
    match numbers(alloc, bytes)? {
        None => Ok(None),
        Some(found) => {
            if found.len() > 0 {
                Ok(Some(CertLine::Node(TreeLine::Class(found))))
            } else {
                Ok(None)
            }
        }
    }
}

fn leaf(bytes: &[u8]) -> Option<CertLine>
    ensures { TailRead k.Leaf bytes.now result }
{
    match last_number(bytes) {
        None => None,
        Some(number) => Some(CertLine::Node(TreeLine::Leaf(number))),
    }
}
