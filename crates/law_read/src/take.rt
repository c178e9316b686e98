ghost use Rattle.std.specs.Prelude.{◌≡◌, IsTrue, length, is_some, option_map};
ghost use Rattle.std.specs.Str.{bytes_eq};
ghost use Rattle.law_lines.specs.Pieces.{piece_of};
ghost use Rattle.law_lines.specs.Terms.{is_name_in, within};
ghost use Rattle.law_lines.specs.Walk.{below, has_mark, is_atom, is_item, is_mark, is_mended, is_numbered, is_pools, is_special, is_variable, is_version, key_in, key_of, later_keys, allows_found, kind_at, may_come, may_open, number_fault, takes, takes_closing, takes_opening, takes_space, takes_word};
ghost use Rattle.law_lines.specs.Numbers.{cut, is_index, is_number, is_bad_index, is_bad_behind};

use law_lines::{Bounds, Ending, Key, Place, ReadKind, Row, Stage, Token, Want};
use law_text::{index, is_word_of_letters, number};

fn within(bounds: Bounds, most: usize, n: usize) -> bool
    ensures { result ≡ within bounds most n }
{
    match bounds {
        Bounds::Kept => n <= most,
        Bounds::Free => true,
    }
}

fn below(bounds: Bounds, most: usize, n: usize) -> bool
    ensures { result ≡ below bounds most n }
{
    match bounds {
        Bounds::Kept => n < most,
        Bounds::Free => true,
    }
}

pub fn same(word: &[u8], text: &[u8]) -> bool
    ensures { result ≡ bytes_eq word.now text.now }
{
    word == text
}

/// The parts of a word before and behind its first dot.
pub fn cut(word: &[u8]) -> Option<(&[u8], &[u8])>
    ensures { option_map (λ parts. (parts.0.now, parts.1.now)) result ≡ cut word.now }
{
    for (at, byte) in word.iter().enumerate() {
        if *byte == b'.' {
            return Some((&word[..at], &word[at + 1..]));
        }
    }
    None
}

pub fn is_name_in(bounds: Bounds, word: &[u8]) -> bool
    ensures { result ≡ is_name_in bounds word.now }
{
    is_word_of_letters(word) && within(bounds, 32, word.len())
}

fn is_index(word: &[u8]) -> bool
    ensures { result ≡ is_index word.now }
{
    index(word).is_some()
}

fn is_number(word: &[u8]) -> bool
    ensures { result ≡ is_number word.now }
{
    number(word).is_some()
}

fn is_variable(bounds: Bounds, word: &[u8]) -> bool
    ensures { result ≡ is_variable bounds (cut word.now) }
{
    match cut(word) {
        None => false,
        Some((sort, index)) => is_name_in(bounds, sort) && is_index(index),
    }
}

fn is_numbered(word: &[u8]) -> bool
    ensures { result ≡ is_numbered word.now }
{
    match word {
        [] => false,
        [first, rest @ ..] => (*first == b'#' || *first == b'@') && is_index(rest),
    }
}

fn is_special(bounds: Bounds, place: Place, word: &[u8]) -> bool
    ensures { result ≡ is_special bounds place word.now }
{
    match place {
        Place::Equation => is_variable(bounds, word),
        Place::Body => is_numbered(word),
        Place::Value => false,
    }
}

fn is_atom(bounds: Bounds, place: Place, word: &[u8]) -> bool
    ensures { result ≡ is_atom bounds place word.now }
{
    is_name_in(bounds, word) || is_special(bounds, place, word)
}

fn is_item(bounds: Bounds, row: Row, word: &[u8]) -> bool
    ensures { result ≡ is_item bounds row word.now }
{
    match row {
        Row::Sorts => is_name_in(bounds, word),
        Row::Names => is_name_in(bounds, word),
        Row::Args(place) => is_atom(bounds, place, word),
        Row::Values => is_atom(bounds, Place::Value, word),
    }
}

fn may_come(bounds: Bounds, nodes: u32, row: Row, depth: u32, count: usize) -> bool
    ensures { result ≡ may_come bounds nodes row depth count }
{
    match row {
        Row::Sorts => below(bounds, 8, count),
        Row::Names => true,
        Row::Args(_) => below(bounds, 8, count)
            && below(bounds, 4096, nodes as usize)
            && within(bounds, 256, depth as usize),
        Row::Values => true,
    }
}

fn may_open(bounds: Bounds, nodes: u32, row: Row, depth: u32, count: usize) -> bool
    ensures { result ≡ may_open bounds nodes row depth count }
{
    match row {
        Row::Sorts => false,
        Row::Names => false,
        Row::Args(_) => below(bounds, 8, count)
            && below(bounds, 4095, nodes as usize)
            && below(bounds, 256, depth as usize),
        Row::Values => true,
    }
}

pub fn is_mark(ending: Ending, word: &[u8]) -> bool
    ensures { result ≡ is_mark ending word.now }
{
    match ending {
        Ending::Line => false,
        Ending::Bracket => false,
        Ending::Mark(mark) => same(word, mark.text()),
    }
}

fn has_mark(ending: Ending) -> bool
    ensures { result ≡ has_mark ending }
{
    match ending {
        Ending::Line => false,
        Ending::Bracket => false,
        Ending::Mark(_) => true,
    }
}

fn takes_space(bounds: Bounds, nodes: u32, want: Want) -> bool
    ensures { result ≡ takes_space bounds nodes want }
{
    match want {
        Want::Gap => true,
        Want::Row {
            row,
            depth,
            count,
            ending,
        } => has_mark(ending) || may_come(bounds, nodes, row, depth, count),
        _ => false,
    }
}

fn takes_opening(bounds: Bounds, nodes: u32, want: Want) -> bool
    ensures { result ≡ takes_opening bounds nodes want }
{
    match want {
        Want::Item {
            row,
            depth,
            count,
            ending: _,
        } => may_open(bounds, nodes, row, depth, count),
        _ => false,
    }
}

fn takes_closing(want: Want) -> bool
    ensures { result ≡ takes_closing want }
{
    match want {
        Want::Row {
            row: _,
            depth: _,
            count,
            ending: Ending::Bracket,
        } => count > 0,
        _ => false,
    }
}

/// The key that a word is.
pub fn key_of(word: &[u8]) -> Option<Key>
    ensures { result ≡ key_of word.now }
{
    if same(word, b"signature") {
        return Some(Key::Signature);
    }
    if same(word, b"vars") {
        return Some(Key::Vars);
    }
    if same(word, b"size") {
        return Some(Key::Size);
    }
    if same(word, b"width") {
        return Some(Key::Width);
    }
    if same(word, b"budget") {
        return Some(Key::Budget);
    }
    if same(word, b"pairs") {
        return Some(Key::Pairs);
    }
    if same(word, b"pools") {
        return Some(Key::Pools);
    }
    if same(word, b"sort") {
        return Some(Key::Sort);
    }
    if same(word, b"con") {
        return Some(Key::Con);
    }
    later_key(word)
}

fn later_key(word: &[u8]) -> Option<Key>
    ensures { result ≡ key_in later_keys word.now }
{
    if same(word, b"fun") {
        return Some(Key::Fun);
    }
    if same(word, b"match") {
        return Some(Key::Match);
    }
    if same(word, b"body") {
        return Some(Key::Body);
    }
    if same(word, b"case") {
        return Some(Key::Case);
    }
    if same(word, b"explore") {
        return Some(Key::Explore);
    }
    if same(word, b"background") {
        return Some(Key::Background);
    }
    if same(word, b"pool") {
        return Some(Key::Pool);
    }
    if same(word, b"values") {
        return Some(Key::Values);
    }
    if same(word, b"end") {
        return Some(Key::End);
    }
    None
}

fn is_version(word: &[u8]) -> bool
    ensures { result ≡ is_version word.now }
{
    same(word, b"1") || same(word, b"2") || same(word, b"3")
}

fn is_pools(word: &[u8]) -> bool
    ensures { result ≡ is_pools word.now }
{
    same(word, b"given") || same(word, b"seed")
}

fn allows(stage: Stage, word: &[u8]) -> bool
    ensures { result ≡ allows_found stage (key_of word.now) }
{
    match key_of(word) {
        None => false,
        Some(key) => stage.allows(key),
    }
}

fn takes_word(bounds: Bounds, nodes: u32, want: Want, word: &[u8]) -> bool
    ensures { result ≡ takes_word bounds nodes want word.now }
{
    match want {
        Want::Key(stage) => allows(stage, word),
        Want::Version => is_version(word),
        Want::Pools => is_pools(word),
        Want::Gap => false,
        Want::Fixed(mark) => same(word, mark.text()),
        Want::Number => is_number(word),
        Want::Name => is_name_in(bounds, word),
        Want::Head => is_name_in(bounds, word),
        Want::Root { place, ending: _ } => is_atom(bounds, place, word),
        Want::Row { .. } => false,
        Want::Item {
            row,
            depth,
            count,
            ending,
        } => {
            is_mark(ending, word)
                || (may_come(bounds, nodes, row, depth, count) && is_item(bounds, row, word))
        }
    }
}

/// Whether a piece may come where this is wanted, by the nodes that the term at work has so far.
pub fn takes(bounds: Bounds, nodes: u32, want: Want, token: Token<'_>) -> bool
    ensures { result ≡ takes bounds nodes want (piece_of token.entry) }
{
    match token {
        Token::Space => takes_space(bounds, nodes, want),
        Token::Open => takes_opening(bounds, nodes, want),
        Token::Close => takes_closing(want),
        Token::Word(word) => takes_word(bounds, nodes, want, word),
    }
}

fn is_bad_index(word: &[u8]) -> bool
    ensures { result ≡ is_bad_index (cut word.now) }
{
    match cut(word) {
        None => false,
        Some((_, index)) => !is_index(index),
    }
}

fn is_bad_behind(sign: u8, word: &[u8]) -> bool
    ensures { result ≡ is_bad_behind sign word.now }
{
    match word {
        [] => false,
        [first, rest @ ..] => *first == sign && !is_index(rest),
    }
}

/// Whether the word would be taken, with or without the bounds, if its number were one.
fn is_mended(nodes: u32, want: Want, word: &[u8]) -> bool
    ensures { result ≡ is_mended nodes want word.now }
{
    (!is_number(word) && takes_word(Bounds::Free, nodes, want, b"0"))
        || (is_bad_index(word) && takes_word(Bounds::Free, nodes, want, b"A.0"))
        || (is_bad_behind(b'#', word) && takes_word(Bounds::Free, nodes, want, b"#0"))
        || (is_bad_behind(b'@', word) && takes_word(Bounds::Free, nodes, want, b"@0"))
}

/// The kind of a place that isn't taken.
pub fn kind_at(nodes: u32, want: Want, token: Token<'_>) -> ReadKind
    ensures { result ≡ kind_at nodes want (piece_of token.entry) }
{
    if number_fault(nodes, want, token) {
        return ReadKind::Number;
    }
    if takes(Bounds::Free, nodes, want, token) {
        return ReadKind::TooLong;
    }
    ReadKind::Word
}

fn number_fault(nodes: u32, want: Want, token: Token<'_>) -> bool
    ensures { result ≡ number_fault nodes want (piece_of token.entry) }
{
    match token {
        Token::Space => false,
        Token::Open => false,
        Token::Close => false,
        Token::Word(word) => is_mended(nodes, want, word),
    }
}
