//! Names and numbers, byte by byte.

ghost use Rattle.std.specs.Prelude.{◌≡◌, ◌∷◌, ◌==◌, ◌*◌, ◌+◌, ◌-◌, ◌^◌, ◌<◌, ◌≤◌, option_map, IsTrue, IfOk, IfSome, map, position, length};
ghost use Rattle.std.specs.Option.{SomeIff};
ghost use Rattle.std.specs.List.{slice_split, list_all};
ghost use Rattle.std.specs.Str.{bytes_eq};
ghost use Rattle.schedule_text.specs.Left.{parts_left, size_left};
ghost use Rattle.schedule_text.specs.Bytes.{is_name_byte, is_lower, is_digit, is_name, is_digits, value_from, has_leading_zero, number_of, number_in, cut_at, has_mark, without_mark};

use std::alloc::Global;
use wire_bcs::OutOfMemory;

/// Whether the word is this text. Takes no memory.
pub fn is_word(word: &[u8], text: &[u8]) -> bool
    ensures { result ≡ bytes_eq word.now text.now }
{
    word == text
}

fn is_digit(byte: u8) -> bool
    ensures { result ≡ is_digit byte }
{
    byte.is_ascii_digit()
}

fn is_lower(byte: u8) -> bool
    ensures { result ≡ is_lower byte }
{
    byte.is_ascii_lowercase()
}

fn is_name_byte(byte: u8) -> bool
    ensures { result ≡ is_name_byte byte }
{
    matches!(byte, b'a'..=b'z' | b'0'..=b'9' | b'_')
}

fn are_digits(bytes: &[u8]) -> bool
    ensures { result ≡ list_all is_digit bytes.now }
{
    bytes.iter().all(|byte| is_digit(*byte))
}

fn are_name_bytes(bytes: &[u8]) -> bool
    ensures { result ≡ list_all is_name_byte bytes.now }
{
    bytes.iter().all(|byte| is_name_byte(*byte))
}

/// Whether the word is a lower-case letter and at most 15 lower-case letters, digits or `_`.
#[tactic(auto, unfolding(crate::specs::Bytes::is_name))]
pub(crate) fn is_name(word: &[u8]) -> bool
    ensures { result ≡ is_name word.now }
{
    match word {
        [] => false,
        [first, rest @ ..] => is_lower(*first) && rest.len() <= 15 && are_name_bytes(rest),
    }
}

/// Whether the word is one digit or more.
#[tactic(auto, unfolding(crate::specs::Bytes::is_digits))]
pub(crate) fn is_digits(word: &[u8]) -> bool
    ensures { result ≡ is_digits word.now }
{
    match word {
        [] => false,
        [first, rest @ ..] => is_digit(*first) && are_digits(rest),
    }
}

/// The value of `value` with one more digit after it.
fn push_digit(value: u64, digit: u8) -> Option<u64>
    requires { 48 ≤ digit }
    ensures { SomeIff result (value * 10 + (digit - 48) < 2 ^ 64) (value * 10 + (digit - 48)) }
{
    value.checked_mul(10)?.checked_add(u64::from(digit - b'0'))
}

/// The value of decimal digits, if it has at most 64 bits.
#[tactic(auto, using(crate::proofs::Values::value_from_grows), unfolding(crate::specs::Bytes::value_from))]
fn value_of(digits: &[u8]) -> Option<u64>
    requires { IsTrue (list_all is_digit digits.now) }
    ensures { SomeIff result (value_from 0 digits.now < 2 ^ 64) (value_from 0 digits.now) }
{
    let mut value = 0;
    let mut rest = digits;
    while let [digit, after @ ..] = rest {
        let Some(more) = push_digit(value, *digit) else {
            return None;
        };
        value = more;
        rest = after;
    }
    Some(value)
}

/// Whether a 0 stands before other digits.
fn has_leading_zero(word: &[u8]) -> bool
    ensures { result ≡ has_leading_zero word.now }
{
    matches!(word, [b'0', _, ..])
}

/// The number that the word denotes: digits without a leading zero, of at most 64 bits.
#[tactic(auto, unfolding(crate::specs::Bytes::number_of, crate::specs::Bytes::is_digits))]
pub(crate) fn number_of(word: &[u8]) -> Option<u64>
    ensures { result ≡ number_of word.now }
{
    if !is_digits(word) || has_leading_zero(word) {
        return None;
    }
    value_of(word)
}

/// The number that the word denotes in decimal digits with no leading zero, if it is in the range. Takes no memory.
#[tactic(auto, unfolding(crate::specs::Bytes::number_in))]
pub fn number_in(low: u64, high: u64, word: &[u8]) -> Option<u64>
    ensures value { result ≡ number_in low high word.now }
    ensures least { IfSome result (λ n. low ≤ n) }
    ensures bound { IfSome result (λ n. n ≤ high) }
{
    number_of(word).filter(|number| low <= *number && *number <= high)
}

/// The place of the first byte of this value; none if it is not there.
fn place_of(byte: u8, word: &[u8]) -> Option<usize>
    ensures value { result ≡ position (λ b. b == byte) word.now }
    ensures low { IfSome result (λ at. at < length word.now) }
{
    word.iter().position(|b| *b == byte)
}

/// Cuts the word at the first byte of this value: what stands before it, and what stands after it; none if it is not
/// there.
#[tactic(auto, unfolding(crate::specs::Bytes::cut_at))]
pub(crate) fn cut_at(byte: u8, word: &[u8]) -> Option<(&[u8], &[u8])>
    ensures value { option_map (λ p. (p.0.now, p.1.now)) result ≡ cut_at byte word.now }
    ensures shorter { IfSome result (λ p. length p.1.now < length word.now) }
{
    let at = place_of(byte, word)?;
    Some((&word[..at], &word[at + 1..]))
}

/// The part before the first byte of this value, and the rest after it; the whole text and no rest if it is not there.
/// Takes no memory.
pub fn cut_part(byte: u8, text: &[u8]) -> (&[u8], Option<&[u8]>)
    ensures parts { slice_split (λ b. b == byte) text.now ≡ result.0.now ∷ parts_left byte result.1 }
    ensures shorter { size_left result.1 ≤ length text.now }
{
    match cut_at(byte, text) {
        Some((part, after)) => (part, Some(after)),
        None => (text, None),
    }
}

/// Whether the word ends with this byte.
#[tactic(auto, unfolding(crate::specs::Bytes::has_mark))]
pub(crate) fn has_mark(byte: u8, word: &[u8]) -> bool
    ensures { result ≡ has_mark byte word.now }
{
    !word.is_empty() && word[word.len() - 1] == byte
}

/// The word without this byte at its end.
#[tactic(auto, unfolding(crate::specs::Bytes::without_mark, crate::specs::Bytes::has_mark))]
pub(crate) fn without_mark(byte: u8, word: &[u8]) -> &[u8]
    ensures { result.now ≡ without_mark byte word.now }
{
    if has_mark(byte, word) {
        &word[..word.len() - 1]
    } else {
        word
    }
}

/// The parts of the text between bytes of this value.
pub fn parts_of(alloc: Global, byte: u8, text: &[u8]) -> Result<Vec<&[u8]>, OutOfMemory>
    ensures { IfOk result (λ v. map (λ x. x.now) v.items ≡ slice_split (λ b. b == byte) text.now) }
{
    Ok(text.split(move |b| *b == byte).collect(alloc)?)
}
