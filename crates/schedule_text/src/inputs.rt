//! The input words of a transaction: a letter for the kind, `:`, and a value.

ghost use Rattle.std.specs.Prelude.{◌≡◌, IfOk, option_map};
ghost use Rattle.std.specs.List.{list_all};
ghost use Rattle.schedule_text.specs.Inputs.{is_hex_byte, is_hex, hex_of, input_kind, input_parts, input_form, shared_input, input_value, is_input, input_of};

use crate::bytes::{cut_at, is_digits, is_name, number_of};
use crate::refs::{is_ref, is_shared, ref_of};
use crate::words::{InputWord, RefWord};
use hex::FromHexError;
use std::alloc::Global;
use wire_bcs::{OutOfMemory, Seq};

/// The kind of an input, by its letter.
#[derive(Clone, Copy)]
pub(crate) enum InputKind {
    /// `n`
    Number,
    /// `a`
    Address,
    /// `x`
    Bytes,
    /// `o`
    Owned,
    /// `i`
    Immutable,
    /// `s`
    Mutable,
    /// `r`
    ReadOnly,
}

fn is_hex_byte(byte: u8) -> bool
    ensures { result ≡ is_hex_byte byte }
{
    matches!(byte, b'0'..=b'9' | b'a'..=b'f')
}

/// Whether each byte is a hexadecimal digit in lower case. Takes no memory.
pub fn are_hex_bytes(word: &[u8]) -> bool
    ensures { result ≡ list_all is_hex_byte word.now }
{
    word.iter().all(|byte| is_hex_byte(*byte))
}

/// Whether the word is an even number of hexadecimal digits in lower case. Takes no memory.
#[tactic(auto, unfolding(crate::specs::Inputs::is_hex))]
pub fn is_hex(word: &[u8]) -> bool
    ensures { result ≡ is_hex word.now }
{
    word.len() % 2 == 0 && are_hex_bytes(word)
}

/// The bytes of hexadecimal digits.
#[tactic(auto, unfolding(crate::specs::Inputs::hex_of))]
pub fn hex_of(alloc: Global, word: &[u8]) -> Result<Option<Seq<u8>>, OutOfMemory>
    ensures { IfOk result (λ r. r ≡ hex_of word.now) }
{
    match hex::decode(alloc, word) {
        Ok(bytes) => Ok(Some(Seq::from_vec(bytes))),
        Err(FromHexError::OutOfMemory) => Err(OutOfMemory),
        Err(_) => Ok(None),
    }
}

#[tactic(auto, unfolding(crate::specs::Inputs::input_kind))]
fn input_kind(letter: &[u8]) -> Option<InputKind>
    ensures { result ≡ input_kind letter.now }
{
    let [letter] = letter else {
        return None;
    };
    match *letter {
        b'n' => Some(InputKind::Number),
        b'a' => Some(InputKind::Address),
        b'x' => Some(InputKind::Bytes),
        b'o' => Some(InputKind::Owned),
        b'i' => Some(InputKind::Immutable),
        b's' => Some(InputKind::Mutable),
        b'r' => Some(InputKind::ReadOnly),
        _ => None,
    }
}

/// The kind of an input word, and what stands after the `:`.
#[tactic(auto, unfolding(crate::specs::Inputs::input_parts))]
fn input_parts(word: &[u8]) -> Option<(InputKind, &[u8])>
    ensures { option_map (λ p. (p.0, p.1.now)) result ≡ input_parts word.now }
{
    let Some((letter, rest)) = cut_at(b':', word) else {
        return None;
    };
    let Some(kind) = input_kind(letter) else {
        return None;
    };
    Some((kind, rest))
}

fn input_form(kind: InputKind, rest: &[u8]) -> bool
    ensures { result ≡ input_form kind rest.now }
{
    match kind {
        InputKind::Number => is_digits(rest),
        InputKind::Address => is_name(rest),
        InputKind::Bytes => is_hex(rest),
        InputKind::Owned | InputKind::Immutable => is_ref(rest),
        InputKind::Mutable | InputKind::ReadOnly => is_shared(rest),
    }
}

/// Whether the word is an input.
#[tactic(auto, unfolding(crate::specs::Inputs::is_input))]
pub(crate) fn is_input(word: &[u8]) -> bool
    ensures { result ≡ is_input word.now }
{
    match input_parts(word) {
        Some((kind, rest)) => input_form(kind, rest),
        None => false,
    }
}

fn shared_input(mutable: bool, word: RefWord) -> InputWord
    ensures { result ≡ shared_input mutable word }
{
    let RefWord {
        object,
        version,
        spoiled: _,
    } = word;
    InputWord::Shared {
        object,
        initial: version,
        mutable,
    }
}

fn input_value(
    alloc: Global,
    kind: InputKind,
    rest: &[u8],
) -> Result<Option<InputWord>, OutOfMemory>
    ensures { IfOk result (λ r. r ≡ input_value kind rest.now) }
{
    match kind {
        InputKind::Number => Ok(number_of(rest).map(InputWord::Number)),
        InputKind::Address => Ok(Some(InputWord::Address(Seq::from_slice(alloc, rest)?))),
        InputKind::Bytes => Ok(hex_of(alloc, rest)?.map(InputWord::Bytes)),
        InputKind::Owned => Ok(ref_of(alloc, rest)?.map(InputWord::Owned)),
        InputKind::Immutable => Ok(ref_of(alloc, rest)?.map(InputWord::Immutable)),
        InputKind::Mutable => Ok(ref_of(alloc, rest)?.map(|word| shared_input(true, word))),
        InputKind::ReadOnly => Ok(ref_of(alloc, rest)?.map(|word| shared_input(false, word))),
    }
}

/// The input that the word is.
#[tactic(auto, unfolding(crate::specs::Inputs::input_of))]
pub(crate) fn input_of(alloc: Global, word: &[u8]) -> Result<Option<InputWord>, OutOfMemory>
    ensures { IfOk result (λ r. r ≡ input_of word.now) }
{
    match input_parts(word) {
        Some((kind, rest)) => input_value(alloc, kind, rest),
        None => Ok(None),
    }
}
