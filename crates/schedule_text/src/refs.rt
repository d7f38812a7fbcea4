//! The words for objects and references: `NAME` or `T.N`, `OBJ@V` and `OBJ@V!`.
//!
//! In this module and the next ones `is_..` says whether a word has the form, numbers taken as
//! any digits, and `.._of` gives its value, or `None` if a number is bad.

ghost use Rattle.std.specs.Prelude.{◌≡◌, IfOk};
ghost use Rattle.schedule_text.specs.Refs.{is_object, object_of, is_ref, ref_of, is_shared};

use crate::bytes::{cut_at, has_mark, is_digits, is_name, number_of, without_mark};
use crate::words::{ObjWord, RefWord};
use std::alloc::Global;
use wire_bcs::{OutOfMemory, Seq};

#[tactic(auto, unfolding(crate::specs::Refs::is_object))]
pub(crate) fn is_object(word: &[u8]) -> bool
    ensures { result ≡ is_object word.now }
{
    match cut_at(b'.', word) {
        Some((tx, number)) => is_name(tx) && is_digits(number),
        None => is_name(word),
    }
}

#[tactic(auto, unfolding(crate::specs::Refs::object_of))]
pub(crate) fn object_of(alloc: Global, word: &[u8]) -> Result<Option<ObjWord>, OutOfMemory>
    ensures { IfOk result (λ r. r ≡ object_of word.now) }
{
    match cut_at(b'.', word) {
        Some((tx, number)) => {
            let Some(number) = number_of(number) else {
                return Ok(None);
            };
            let tx = Seq::from_slice(alloc, tx)?;
            Ok(Some(ObjWord::Created { tx, number }))
        }
        None => Ok(Some(ObjWord::Setup(Seq::from_slice(alloc, word)?))),
    }
}

#[tactic(auto, unfolding(crate::specs::Refs::is_ref))]
pub(crate) fn is_ref(word: &[u8]) -> bool
    ensures { result ≡ is_ref word.now }
{
    match cut_at(b'@', word) {
        Some((object, version)) => is_object(object) && is_digits(without_mark(b'!', version)),
        None => false,
    }
}

#[tactic(auto, unfolding(crate::specs::Refs::ref_of))]
pub(crate) fn ref_of(alloc: Global, word: &[u8]) -> Result<Option<RefWord>, OutOfMemory>
    ensures { IfOk result (λ r. r ≡ ref_of word.now) }
{
    let Some((object, version)) = cut_at(b'@', word) else {
        return Ok(None);
    };
    let spoiled = has_mark(b'!', version);
    let Some(object) = object_of(alloc, object)? else {
        return Ok(None);
    };
    let Some(version) = number_of(without_mark(b'!', version)) else {
        return Ok(None);
    };
    Ok(Some(RefWord {
        object,
        version,
        spoiled,
    }))
}

/// Whether the word is a reference without a `!`.
#[tactic(auto, unfolding(crate::specs::Refs::is_shared))]
pub(crate) fn is_shared(word: &[u8]) -> bool
    ensures { result ≡ is_shared word.now }
{
    match cut_at(b'@', word) {
        Some((object, version)) => is_object(object) && is_digits(version),
        None => false,
    }
}
