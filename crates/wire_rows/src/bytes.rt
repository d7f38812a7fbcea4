//! The bytes that the words of a row say.

use std::alloc::Global;

/// A byte this many times.
fn repeated(alloc: Global, byte: &str, count: &str) -> Option<Vec<u8>> {
    let byte = u8::from_str_radix(byte, 16).ok()?;
    let count = count.parse::<usize>().ok()?;
    vec![in alloc; byte; count].ok()
}

/// The bytes of one word: hexadecimal digits; `09*32`, a byte this many times; `<33`, the first 33 of the bytes that
/// were kept.
fn piece_of(alloc: Global, word: &str, kept: &[u8]) -> Option<Vec<u8>> {
    if let Some(count) = word.strip_prefix('<') {
        let count = count.parse::<usize>().ok()?;
        return Vec::from_slice(alloc, kept.get(..count)?).ok();
    }
    match word.split_once('*') {
        Some((byte, count)) => repeated(alloc, byte, count),
        None => hex::decode(alloc, word).ok(),
    }
}

/// The bytes of the words, one after the other; none if a word says none.
pub(crate) fn bytes_of(alloc: Global, words: &str, kept: &[u8]) -> Option<Vec<u8>> {
    let mut bytes = Vec::new(alloc);
    for word in words.split_whitespace() {
        let piece = piece_of(alloc, word, kept)?;
        bytes.extend_from_slice(piece.as_slice()).ok()?;
    }
    Some(bytes)
}
