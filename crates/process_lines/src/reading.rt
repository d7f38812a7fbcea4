//! Which request a line is.

ghost use Rattle.std.specs.Prelude.{◌≡◌, ◌<◌, ◌≤◌, IfOk, IfSome};
ghost use Rattle.schedule_text.specs.Bytes.{number_in};
ghost use Rattle.process_lines.specs.Requests.{HasWorkers, bytes_in, digest_in, digest_of_bytes, number_of_word, request_of, request_of_one, request_of_three, request_of_two, see_with, version_with};

use crate::request::Request;
use digest_core::Digest;
use schedule_text::{hex_of, is_hex, is_word, number_in, parts_of};
use std::alloc::Global;
use wire_bcs::{OutOfMemory, Seq};

/// The bytes that the word denotes.
#[tactic(auto, unfolding(crate::specs::Requests::bytes_in))]
fn bytes_in(alloc: Global, word: &[u8]) -> Result<Option<Seq<u8>>, OutOfMemory>
    ensures { IfOk result (λ r. r ≡ bytes_in word.now) }
{
    if is_hex(word) {
        hex_of(alloc, word)
    } else {
        Ok(None)
    }
}

/// The digest of these bytes, if there are 32.
fn digest_of_bytes(bytes: Option<Seq<u8>>) -> Option<Digest>
    ensures { result ≡ digest_of_bytes bytes }
{
    let Some(bytes) = bytes else {
        return None;
    };
    if bytes.as_slice().len() != 32 {
        return None;
    }
    let mut cells = [0; 32];
    cells.copy_from_slice(bytes.as_slice());
    Some(Digest(cells))
}

/// The digest that the word denotes.
#[tactic(auto, unfolding(crate::specs::Requests::digest_in))]
fn digest_in(alloc: Global, word: &[u8]) -> Result<Option<Digest>, OutOfMemory>
    ensures { IfOk result (λ r. r ≡ digest_in word.now) }
{
    if word.len() != 64 {
        return Ok(None);
    }
    let bytes = bytes_in(alloc, word)?;
    Ok(digest_of_bytes(bytes))
}

/// The number of 64 bits that the word denotes. Takes no memory.
fn number_of(word: &[u8]) -> Option<u64>
    ensures { result ≡ number_of_word word.now }
{
    number_in(0, u64::MAX, word)
}

/// The number of workers that the word denotes. Takes no memory.
fn workers_of(word: &[u8]) -> Option<u32>
    ensures number { result ≡ number_in 1 16 word.now }
    ensures range { IfSome result (λ workers. (0 < workers) × (workers ≤ 16)) }
{
    match number_in(1, 16, word) {
        Some(number) => Some(number as u32),
        None => None,
    }
}

/// A request of one word. Takes no memory.
#[tactic(auto, unfolding(crate::specs::Requests::request_of_one))]
fn request_of_one(word: &[u8]) -> Option<Request>
    ensures request { result ≡ request_of_one word.now }
    ensures workers { IfSome result HasWorkers }
{
    if is_word(word, b"close") {
        return Some(Request::Close);
    }
    if is_word(word, b"end") {
        return Some(Request::End);
    }
    if is_word(word, b"turn") {
        return Some(Request::Turn);
    }
    if is_word(word, b"state") {
        return Some(Request::State);
    }
    None
}

/// A request of a word and another one.
#[tactic(auto, unfolding(crate::specs::Requests::request_of_two))]
fn request_of_two(alloc: Global, word: &[u8], text: &[u8]) -> Result<Option<Request>, OutOfMemory>
    ensures request { IfOk result (λ r. r ≡ request_of_two word.now text.now) }
    ensures workers { IfOk result (λ r. IfSome r HasWorkers) }
{
    if is_word(word, b"vote") {
        return Ok(bytes_in(alloc, text)?.map(Request::Vote));
    }
    if is_word(word, b"hold") {
        return Ok(bytes_in(alloc, text)?.map(Request::Hold));
    }
    if is_word(word, b"run") {
        return Ok(workers_of(text).map(|workers| Request::Run { workers }));
    }
    if is_word(word, b"checkpoint") {
        return Ok(number_of(text).map(|number| Request::Checkpoint { number }));
    }
    if is_word(word, b"ack") {
        return Ok(digest_in(alloc, text)?.map(|tx| Request::Ack { tx }));
    }
    if is_word(word, b"object") {
        return Ok(digest_in(alloc, text)?.map(|id| Request::Object { id }));
    }
    if is_word(word, b"effects") {
        return Ok(digest_in(alloc, text)?.map(|tx| Request::Effects { tx }));
    }
    Ok(None)
}

/// `see N ENTRY`, after its word.
fn see_of(alloc: Global, number: &[u8], entry: &[u8]) -> Result<Option<Request>, OutOfMemory>
    ensures request { IfOk result (λ r. r ≡ see_with (number_of_word number.now) (bytes_in entry.now)) }
    ensures workers { IfOk result (λ r. IfSome r HasWorkers) }
{
    let Some(number) = number_of(number) else {
        return Ok(None);
    };
    match bytes_in(alloc, entry)? {
        Some(entry) => Ok(Some(Request::See { number, entry })),
        None => Ok(None),
    }
}

/// `version ID V`, after its word.
fn version_of(alloc: Global, id: &[u8], version: &[u8]) -> Result<Option<Request>, OutOfMemory>
    ensures request { IfOk result (λ r. r ≡ version_with (digest_in id.now) (number_of_word version.now)) }
    ensures workers { IfOk result (λ r. IfSome r HasWorkers) }
{
    let Some(id) = digest_in(alloc, id)? else {
        return Ok(None);
    };
    match number_of(version) {
        Some(version) => Ok(Some(Request::Version { id, version })),
        None => Ok(None),
    }
}

/// A request of a word and two others.
#[tactic(auto, unfolding(crate::specs::Requests::request_of_three))]
fn request_of_three(
    alloc: Global,
    word: &[u8],
    text: &[u8],
    more: &[u8],
) -> Result<Option<Request>, OutOfMemory>
    ensures request { IfOk result (λ r. r ≡ request_of_three word.now text.now more.now) }
    ensures workers { IfOk result (λ r. IfSome r HasWorkers) }
{
    if is_word(word, b"see") {
        return see_of(alloc, text, more);
    }
    if is_word(word, b"version") {
        return version_of(alloc, text, more);
    }
    Ok(None)
}

/// The request that a line is, read without its end; none if it is not a request.
#[tactic(auto, unfolding(crate::specs::Requests::request_of))]
pub fn read_request(alloc: Global, line: &[u8]) -> Result<Option<Request>, OutOfMemory>
    ensures request { IfOk result (λ r. r ≡ request_of line.now) }
    ensures workers { IfOk result (λ r. IfSome r HasWorkers) }
{
    let words = parts_of(alloc, b' ', line)?;
    match words.as_slice() {
        [word] => Ok(request_of_one(word)),
        [word, text] => request_of_two(alloc, word, text),
        [word, text, more] => request_of_three(alloc, word, text, more),
        _ => Ok(None),
    }
}
