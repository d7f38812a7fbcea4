//! The words of `check`: the stakes of a committee, and the digest of a transaction.

ghost use Rattle.std.specs.Prelude.{◌≡◌, ◌∷◌, [], length, map, IfSome, bytes_eq, codes};
ghost use Rattle.std.specs.String.{string_bytes};
ghost use Rattle.hex.specs.Hex.{decode_of};
ghost use Rattle.command_words.specs.Words.{IsInRange};
ghost use Rattle.command_words.specs.CheckWords.{check_in, check_words, digest_in, digest_of_bytes, stakes_in};

use crate::list_words::read_numbers;
use crate::words::Command;
use digest_core::Digest;
use hex::decode_to_slice;
use quorum_core::Committee;
use schedule_text::are_hex_bytes;

/// The highest stake.
const MOST_STAKE: u64 = 4_294_967_295;

/// The committee whose stakes the word denotes, joined by commas.
#[tactic(auto, using(crate::proofs::CheckWords::read_is_committee))]
fn committee_in(word: &[u8]) -> Option<Committee>
    ensures { result ≡ stakes_in word.now }
{
    let mut row = [0; 64];
    let Some(count) = read_numbers(1, MOST_STAKE, word, row.as_mut_slice()) else {
        return None;
    };
    match Committee::new(&row[..count]) {
        Ok(committee) => Some(committee),
        Err(_) => unreachable!(),
    }
}

/// The bytes of 64 hexadecimal digits.
#[tactic(auto, using(crate::proofs::CheckWords::decoded, crate::proofs::CheckWords::not_decoded))]
fn decoded(word: &[u8]) -> Option<Digest>
    requires { length word.now ≡ 64 }
    ensures { result ≡ digest_of_bytes (decode_of word.now) }
{
    let mut bytes = [0; 32];
    match decode_to_slice(word, bytes.as_mut_slice()) {
        Ok(()) => Some(Digest(bytes)),
        Err(_) => None,
    }
}

/// The digest that the word denotes: 64 hexadecimal digits in lower case.
#[tactic(auto, unfolding(crate::specs::CheckWords::digest_in))]
fn digest_in(word: &[u8]) -> Option<Digest>
    ensures { result ≡ digest_in word.now }
{
    if word.len() != 64 {
        return None;
    }
    if !are_hex_bytes(word) {
        return None;
    }
    decoded(word)
}

/// The command of the two words after `check`: stakes and a digest.
#[tactic(auto, unfolding(crate::specs::CheckWords::check_words))]
fn check_words(stakes: &[u8], tx: &[u8]) -> Option<Command>
    ensures is { result ≡ check_words stakes.now tx.now }
    ensures range { IfSome result IsInRange }
{
    match committee_in(stakes) {
        Some(committee) => match digest_in(tx) {
            Some(tx) => Some(Command::Check { committee, tx }),
            None => None,
        },
        None => None,
    }
}

/// Whether the word is `check`.
fn is_check(word: &str) -> bool
    ensures { result ≡ bytes_eq word.now (codes "check") }
{
    word == "check"
}

fn check_named(name: &str, stakes: &str, tx: &str) -> Option<Command>
    ensures is { result ≡ check_in (name.now ∷ stakes.now ∷ tx.now ∷ []) }
    ensures range { IfSome result IsInRange }
{
    if !is_check(name) {
        return None;
    }
    check_words(stakes.as_bytes(), tx.as_bytes())
}

/// The `check` command that the words are, none if they are no such command. Takes no memory.
pub(crate) fn check_of(words: &[String]) -> Option<Command>
    ensures is { result ≡ check_in (map string_bytes words.now) }
    ensures range { IfSome result IsInRange }
{
    match words {
        [name, stakes, tx] => check_named(name.as_str(), stakes.as_str(), tx.as_str()),
        _ => None,
    }
}
