ghost use Rattle.std.specs.Prelude.{◌≡◌, ℕ, ◌≢◌, ◌+◌, ◌-◌, ◌*◌, ◌^◌, ◌<◌, ◌≤◌, IsTrue, ◌++◌, [], ◌∷◌, None, nat_lt, decimal, IfSome, OnOk, OnErr};
ghost use Rattle.std.specs.List.{list_all};
ghost use Rattle.law_lines.specs.Words.{is_digit, is_letter, is_name, is_name_byte, is_numeral, is_word_of_letters, digits_on, some_if, number_below};

use itoa::Buffer;
use law_sig::{NoMemory, Text};

/// Whether a word is a name: a letter, then letters, digits and `_`, at most 32 bytes in all.
pub fn is_name(word: &[u8]) -> bool
    ensures { result ≡ is_name word.now }
{
    is_word_of_letters(word) && word.len() <= 32
}

/// Whether a word is a letter, then letters, digits and `_`, however long.
pub fn is_word_of_letters(word: &[u8]) -> bool
    ensures { result ≡ is_word_of_letters word.now }
{
    match word {
        [] => false,
        [first, rest @ ..] => is_letter(*first) && all_name_bytes(rest),
    }
}

/// The number that a word spells in decimal without leading zeros, up to 2^63 - 1; `None` exactly
/// where the word spells none.
pub fn number(word: &[u8]) -> Option<u64>
    ensures value { result ≡ number_below (2 ^ 63) word.now }
    ensures some { IfSome result (λ n. (n < 2 ^ 63) × (word.now ≡ decimal n)) }
    ensures none { result ≡ None → (n : ℕ) → n < 2 ^ 63 → word.now ≢ decimal n }
{
    if is_numeral(word) {
        digits_value(word)
    } else {
        None
    }
}

/// The index that a word spells in decimal without leading zeros, up to 2^32 - 1; `None` exactly
/// where the word spells none.
pub fn index(word: &[u8]) -> Option<u32>
    ensures value { result ≡ number_below (2 ^ 32) word.now }
    ensures some { IfSome result (λ n. (n < 2 ^ 32) × (word.now ≡ decimal n)) }
    ensures none { result ≡ None → (n : ℕ) → n < 2 ^ 32 → word.now ≢ decimal n }
{
    match number(word) {
        Some(value) if value < 1 << 32 => Some(value as u32),
        _ => None,
    }
}

/// Adds the decimal digits of a number at the end. After a refusal the text is as before.
pub fn put_number(out: &mut Text, n: u64) -> Result<(), NoMemory>
    ensures ok { OnOk result (out.new ≡ out.old ++ decimal n) }
    ensures err { OnErr result (out.new ≡ out.old) }
{
    let mut buffer = Buffer::new();
    out.push_slice(buffer.format(n).as_bytes())
}

fn is_digit(byte: u8) -> bool
    ensures { result ≡ is_digit byte }
{
    byte >= b'0' && byte <= b'9'
}

fn is_letter(byte: u8) -> bool
    ensures { result ≡ is_letter byte }
{
    (byte >= b'A' && byte <= b'Z') || (byte >= b'a' && byte <= b'z')
}

fn is_name_byte(byte: u8) -> bool
    ensures { result ≡ is_name_byte byte }
{
    is_letter(byte) || is_digit(byte) || byte == b'_'
}

fn all_name_bytes(bytes: &[u8]) -> bool
    ensures { result ≡ list_all is_name_byte bytes.now }
{
    for byte in bytes {
        if !is_name_byte(*byte) {
            return false;
        }
    }
    true
}

fn all_digits(bytes: &[u8]) -> bool
    ensures { result ≡ list_all is_digit bytes.now }
{
    for byte in bytes {
        if !is_digit(*byte) {
            return false;
        }
    }
    true
}

fn is_numeral(word: &[u8]) -> bool
    ensures { result ≡ is_numeral word.now }
{
    match word {
        [] => false,
        [only] => is_digit(*only),
        [first, rest @ ..] => is_digit(*first) && *first > b'0' && all_digits(rest),
    }
}

/// The value of digits, where it is below 2^63.
fn digits_value(digits: &[u8]) -> Option<u64>
    requires { IsTrue (list_all is_digit digits.now) }
    ensures { result ≡ some_if (nat_lt (digits_on 0 digits.now) (2 ^ 63)) (digits_on 0 digits.now) }
{
    let mut value = 0u64;
    for digit in digits {
        let more = u64::from(*digit - b'0');
        if value > ((1 << 63) - 1 - more) / 10 {
            return None;
        }
        value = 10 * value + more;
    }
    Some(value)
}
