//! The command words of a transaction: a name, and arguments in parentheses.

ghost use Rattle.std.specs.Prelude.{◌≡◌, ◌==◌, IfOk, IfSome, option_map, option_copied, is_some, ◌<◌, position, length};
ghost use Rattle.std.specs.Str.{bytes_eq};
ghost use Rattle.std.specs.List.{list_all};
ghost use Rattle.schedule_text.specs.Bytes.{each_of};
ghost use Rattle.schedule_text.specs.Left.{parts_left};
ghost use Rattle.schedule_text.specs.Commands.{place_of, is_place, place_value, is_arg, arg_of, comma_parts, call_words, native_of, kind_of, command_kind, command_parts, command_form, command_value, is_command, command_of, vector_form, vector_value};

use crate::bytes::{cut_at, cut_part, has_mark, is_digits, is_word, number_in, without_mark};
use crate::words::{ArgWord, CommandWord};
use chain_types::{NATIVES, Native};
use std::alloc::Global;
use wire_bcs::{OutOfMemory, Seq};

/// The kind of a command, by its name.
#[derive(Clone, Copy)]
pub(crate) enum CommandKind {
    Split,
    Merge,
    Transfer,
    MakeVec,
    /// A call of the native of this number.
    Call(u8),
}

/// The kinds of a vector's values, by number.
static KINDS: [&[u8]; 6] = [b"coin", b"cap", b"counter", b"vault", b"key", b"limit"];

/// The place of a name in the list; none if it is not there.
fn place_among(names: &[&[u8]], name: &[u8]) -> Option<usize>
    ensures value { result ≡ position (λ n. bytes_eq n.now name.now) names.now }
    ensures low { IfSome result (λ place. place < length names.now) }
{
    names.iter().position(|known| *known == name)
}

/// The place of a name among natives.
fn native_among(natives: &[Native], name: &[u8]) -> Option<usize>
    ensures value { result ≡ position (λ n. bytes_eq n.0.now name.now) natives.now }
    ensures low { IfSome result (λ place. place < length natives.now) }
{
    natives.iter().position(|native| native.0 == name)
}

#[tactic(auto, unfolding(crate::specs::Commands::native_of))]
fn native_of(name: &[u8]) -> Option<u8>
    ensures { result ≡ native_of name.now }
{
    let place = native_among(NATIVES.as_slice(), name)?;
    Some(place as u8)
}

#[tactic(auto, unfolding(crate::specs::Commands::kind_of))]
fn kind_of(name: &[u8]) -> Option<u8>
    ensures { result ≡ kind_of name.now }
{
    let place = place_among(KINDS.as_slice(), name)?;
    Some(place as u8)
}

/// The number of an input, a result or a value of a result: 0 to 65535.
fn place_of(word: &[u8]) -> Option<u16>
    ensures { result ≡ place_of word.now }
{
    let place = number_in(0, u64::from(u16::MAX), word)?;
    Some(place as u16)
}

/// Whether the word is `iN`, `rN` or `rN.K`.
#[tactic(auto, unfolding(crate::specs::Commands::is_place))]
fn is_place(word: &[u8]) -> bool
    ensures { result ≡ is_place word.now }
{
    match word {
        [b'i', input @ ..] => is_digits(input),
        [b'r', rest @ ..] => match cut_at(b'.', rest) {
            Some((command, number)) => is_digits(command) && is_digits(number),
            None => is_digits(rest),
        },
        _ => false,
    }
}

#[tactic(auto, unfolding(crate::specs::Commands::place_value))]
fn place_value(word: &[u8]) -> Option<ArgWord>
    ensures { result ≡ place_value word.now }
{
    match word {
        [b'i', input @ ..] => place_of(input).map(ArgWord::Input),
        [b'r', rest @ ..] => match cut_at(b'.', rest) {
            Some((command, number)) => {
                Some(ArgWord::Nested(place_of(command)?, place_of(number)?))
            }
            None => place_of(rest).map(ArgWord::Result),
        },
        _ => None,
    }
}

#[tactic(auto, unfolding(crate::specs::Commands::is_arg))]
fn is_arg(word: &[u8]) -> bool
    ensures { result ≡ is_arg word.now }
{
    is_word(word, b"gas") || is_place(word)
}

#[tactic(auto, unfolding(crate::specs::Commands::arg_of))]
fn arg_of(word: &[u8]) -> Option<ArgWord>
    ensures { result ≡ arg_of word.now }
{
    if is_word(word, b"gas") {
        Some(ArgWord::Gas)
    } else {
        place_value(word)
    }
}

/// The kind of a command, by its name.
#[tactic(auto, unfolding(crate::specs::Commands::command_kind))]
fn command_kind(name: &[u8]) -> Option<CommandKind>
    ensures { result ≡ command_kind name.now }
{
    if is_word(name, b"split") {
        return Some(CommandKind::Split);
    }
    if is_word(name, b"merge") {
        return Some(CommandKind::Merge);
    }
    if is_word(name, b"transfer") {
        return Some(CommandKind::Transfer);
    }
    if is_word(name, b"vec") {
        return Some(CommandKind::MakeVec);
    }
    native_of(name).map(CommandKind::Call)
}

/// The kind of a command word, and what stands between the parentheses.
#[tactic(auto, unfolding(crate::specs::Commands::command_parts))]
fn command_parts(word: &[u8]) -> Option<(CommandKind, &[u8])>
    ensures { option_map (λ p. (p.0, p.1.now)) result ≡ command_parts word.now }
{
    let Some((name, rest)) = cut_at(b'(', word) else {
        return None;
    };
    if !has_mark(b')', rest) {
        return None;
    }
    let Some(kind) = command_kind(name) else {
        return None;
    };
    Some((kind, without_mark(b')', rest)))
}

/// Whether each word that is left between commas is an argument.
fn are_args(mut left: Option<&[u8]>) -> bool
    ensures { result ≡ list_all is_arg (parts_left 44 left.entry) }
{
    while let Some(text) = left {
        let (word, after) = cut_part(b',', text);
        if !is_arg(word) {
            return false;
        }
        left = after;
    }
    true
}

/// The arguments that are left between commas.
#[tactic(auto, using(crate::proofs::Each::each_more), unfolding(crate::specs::Bytes::each_of))]
fn args_of(alloc: Global, mut left: Option<&[u8]>) -> Result<Option<Seq<ArgWord>>, OutOfMemory>
    ensures { IfOk result (λ r. r ≡ each_of arg_of (parts_left 44 left.entry)) }
{
    let mut args = Seq::new(alloc);
    while let Some(text) = left {
        let (word, after) = cut_part(b',', text);
        let Some(arg) = arg_of(word) else {
            return Ok(None);
        };
        args.push(arg)?;
        left = after;
    }
    Ok(Some(args))
}

/// The text to be cut at commas for a native's arguments: none if it is empty, since a native may have no arguments.
fn call_words(inside: &[u8]) -> Option<&[u8]>
    ensures { parts_left 44 result ≡ call_words inside.now }
{
    match inside {
        [] => None,
        _ => Some(inside),
    }
}

fn vector_form(inside: &[u8]) -> bool
    ensures { result ≡ vector_form (comma_parts inside.now) }
{
    let (kind, values) = cut_part(b',', inside);
    kind_of(kind).is_some() && are_args(values)
}

fn vector_value(alloc: Global, inside: &[u8]) -> Result<Option<CommandWord>, OutOfMemory>
    ensures { IfOk result (λ r. r ≡ vector_value (comma_parts inside.now)) }
{
    let (kind, values) = cut_part(b',', inside);
    let Some(kind) = kind_of(kind) else {
        return Ok(None);
    };
    let Some(values) = args_of(alloc, values)? else {
        return Ok(None);
    };
    Ok(Some(CommandWord::MakeVec { kind, values }))
}

fn command_form(kind: CommandKind, inside: &[u8]) -> bool
    ensures { result ≡ command_form kind inside.now }
{
    match kind {
        CommandKind::Split | CommandKind::Merge | CommandKind::Transfer => are_args(Some(inside)),
        CommandKind::MakeVec => vector_form(inside),
        CommandKind::Call(_) => are_args(call_words(inside)),
    }
}

/// Whether the word is a command.
#[tactic(auto, unfolding(crate::specs::Commands::is_command))]
pub(crate) fn is_command(word: &[u8]) -> bool
    ensures { result ≡ is_command word.now }
{
    match command_parts(word) {
        Some((kind, inside)) => command_form(kind, inside),
        None => false,
    }
}

fn command_value(
    alloc: Global,
    kind: CommandKind,
    inside: &[u8],
) -> Result<Option<CommandWord>, OutOfMemory>
    ensures { IfOk result (λ r. r ≡ command_value kind inside.now) }
{
    match kind {
        CommandKind::Split => Ok(args_of(alloc, Some(inside))?.map(CommandWord::Split)),
        CommandKind::Merge => Ok(args_of(alloc, Some(inside))?.map(CommandWord::Merge)),
        CommandKind::Transfer => Ok(args_of(alloc, Some(inside))?.map(CommandWord::Transfer)),
        CommandKind::MakeVec => vector_value(alloc, inside),
        CommandKind::Call(native) => Ok(args_of(alloc, call_words(inside))?.map(
            |args| CommandWord::Call { native, args },
        )),
    }
}

/// The command that the word is.
#[tactic(auto, unfolding(crate::specs::Commands::command_of))]
pub(crate) fn command_of(alloc: Global, word: &[u8]) -> Result<Option<CommandWord>, OutOfMemory>
    ensures { IfOk result (λ r. r ≡ command_of word.now) }
{
    match command_parts(word) {
        Some((kind, inside)) => command_value(alloc, kind, inside),
        None => Ok(None),
    }
}
