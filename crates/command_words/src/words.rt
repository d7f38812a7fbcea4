//! The words of the program's commands.

ghost use Rattle.std.specs.Prelude.{◌≡◌, ◌∷◌, [], IfSome, bytes_eq, map};
ghost use Rattle.std.specs.String.{string_bytes};
ghost use Rattle.command_words.specs.Words.{IsInRange, command_in, desk_in, follow_in, make_in, replay_in, run_in};

use crate::check_words::check_of;
use digest_core::Digest;
use quorum_core::Committee;
use schedule_text::number_in;

/// The most transactions that are made.
const MOST_MADE: u64 = 10_000;

/// The highest number of a member.
const MOST_MEMBER: u64 = 63;

/// The most callers at a desk.
const MOST_CALLERS: u64 = 16;

/// A command of the program.
#[derive(Drop)]
pub enum Command {
    /// `run`
    Run,
    /// `make N`: the number of transactions, from 1 to 10,000.
    Make { number: u32 },
    /// `check STAKES TX`: the committee of these stakes, and the digest of a transaction.
    Check { committee: Committee, tx: Digest },
    /// `follow M`: the number of a member, from 0 to 63.
    Follow { member: u32 },
    /// `desk N`: the number of callers, from 1 to 16.
    Desk { callers: u32 },
    /// `replay M`: the number of a member, from 0 to 63.
    Replay { member: u32 },
}

/// Whether the word has this name.
pub(crate) fn is_word(word: &str, name: &str) -> bool
    ensures { result ≡ bytes_eq word.now name.now }
{
    word == name
}

fn run_named(name: &str) -> Option<Command>
    ensures is { result ≡ run_in (name.now ∷ []) }
    ensures range { IfSome result IsInRange }
{
    if is_word(name, "run") {
        Some(Command::Run)
    } else {
        None
    }
}

/// The `run` command, if the words are just `run`.
fn run_of(words: &[String]) -> Option<Command>
    ensures is { result ≡ run_in (map string_bytes words.now) }
    ensures range { IfSome result IsInRange }
{
    match words {
        [name] => run_named(name.as_str()),
        _ => None,
    }
}

fn make_named(name: &str, number: &str) -> Option<Command>
    ensures is { result ≡ make_in (name.now ∷ number.now ∷ []) }
    ensures range { IfSome result IsInRange }
{
    if !is_word(name, "make") {
        return None;
    }
    match number_in(1, MOST_MADE, number.as_bytes()) {
        Some(number) => Some(Command::Make {
            number: number as u32,
        }),
        None => None,
    }
}

/// The `make` command, if the words are `make` and a number in its range.
fn make_of(words: &[String]) -> Option<Command>
    ensures is { result ≡ make_in (map string_bytes words.now) }
    ensures range { IfSome result IsInRange }
{
    match words {
        [name, number] => make_named(name.as_str(), number.as_str()),
        _ => None,
    }
}

fn follow_named(name: &str, number: &str) -> Option<Command>
    ensures is { result ≡ follow_in (name.now ∷ number.now ∷ []) }
    ensures range { IfSome result IsInRange }
{
    if !is_word(name, "follow") {
        return None;
    }
    match number_in(0, MOST_MEMBER, number.as_bytes()) {
        Some(member) => Some(Command::Follow {
            member: member as u32,
        }),
        None => None,
    }
}

/// The `follow` command, if the words are `follow` and a number in its range.
fn follow_of(words: &[String]) -> Option<Command>
    ensures is { result ≡ follow_in (map string_bytes words.now) }
    ensures range { IfSome result IsInRange }
{
    match words {
        [name, number] => follow_named(name.as_str(), number.as_str()),
        _ => None,
    }
}

fn desk_named(name: &str, number: &str) -> Option<Command>
    ensures is { result ≡ desk_in (name.now ∷ number.now ∷ []) }
    ensures range { IfSome result IsInRange }
{
    if !is_word(name, "desk") {
        return None;
    }
    match number_in(1, MOST_CALLERS, number.as_bytes()) {
        Some(callers) => Some(Command::Desk {
            callers: callers as u32,
        }),
        None => None,
    }
}

/// The `desk` command, if the words are `desk` and a number in its range.
fn desk_of(words: &[String]) -> Option<Command>
    ensures is { result ≡ desk_in (map string_bytes words.now) }
    ensures range { IfSome result IsInRange }
{
    match words {
        [name, number] => desk_named(name.as_str(), number.as_str()),
        _ => None,
    }
}

fn replay_named(name: &str, number: &str) -> Option<Command>
    ensures is { result ≡ replay_in (name.now ∷ number.now ∷ []) }
    ensures range { IfSome result IsInRange }
{
    if !is_word(name, "replay") {
        return None;
    }
    match number_in(0, MOST_MEMBER, number.as_bytes()) {
        Some(member) => Some(Command::Replay {
            member: member as u32,
        }),
        None => None,
    }
}

/// The `replay` command, if the words are `replay` and a number in its range.
fn replay_of(words: &[String]) -> Option<Command>
    ensures is { result ≡ replay_in (map string_bytes words.now) }
    ensures range { IfSome result IsInRange }
{
    match words {
        [name, number] => replay_named(name.as_str(), number.as_str()),
        _ => None,
    }
}

/// The command that the words are, without the program's name. Takes no memory.
#[tactic(auto, unfolding(crate::specs::Words::command_in))]
pub fn command_of(words: &[String]) -> Option<Command>
    ensures is { result ≡ command_in (map string_bytes words.now) }
    ensures range { IfSome result IsInRange }
{
    if let Some(run) = run_of(words) {
        return Some(run);
    }
    if let Some(make) = make_of(words) {
        return Some(make);
    }
    if let Some(check) = check_of(words) {
        return Some(check);
    }
    if let Some(follow) = follow_of(words) {
        return Some(follow);
    }
    if let Some(desk) = desk_of(words) {
        return Some(desk);
    }
    replay_of(words)
}
