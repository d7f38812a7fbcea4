//! What the words of the program ask.

ghost use Rattle.std.specs.Prelude.{◌≡◌, ◌∷◌, [], bytes_eq, map};
ghost use Rattle.std.specs.String.{string_bytes};
ghost use Rattle.inspect.specs.Words.{blame_in, chain_in, chain_with, digests_in, question_in, members_in, states_in};
ghost use Rattle.schedule_text.specs.Bytes.{number_in};

use crate::members::{MOST_MEMBER, MemberList};
use schedule_text::number_in;

/// The highest number of a line.
const MOST_LINE: u64 = 16_777_216;

/// What is asked of the world after a schedule.
#[derive(Drop)]
pub enum Question {
    /// `chain M MEMBERS`: the chain of what member M built, under seals of these members; the numbers are from 0 to 63.
    Chain { member: u32, sealers: MemberList },
    /// `digests`: of the transactions that lines made, and of what the lowest-numbered member that is honest and up has.
    Digests,
    /// `blame`: who sealed two votes of which an honest member casts at most one.
    Blame,
    /// `states`: how each member stands after the last line, and its live objects.
    States,
    /// `states L`: the same after line L, from 1 on.
    StatesAt { line: u64 },
}

/// Whether the word is this one.
fn is_word(word: &str, name: &str) -> bool
    ensures { result ≡ bytes_eq word.now name.now }
{
    word == name
}

/// What follows `chain`.
fn chain_words(member: &[u8], members: &[u8]) -> Option<Question>
    ensures { result ≡ chain_with (number_in 0 63 member.now) (members_in members.now) }
{
    match number_in(0, MOST_MEMBER, member) {
        Some(member) => match MemberList::read(members) {
            Some(sealers) => Some(Question::Chain {
                member: member as u32,
                sealers,
            }),
            None => None,
        },
        None => None,
    }
}

fn chain_named(name: &str, member: &str, members: &str) -> Option<Question>
    ensures { result ≡ chain_in (name.now ∷ member.now ∷ members.now ∷ []) }
{
    if !is_word(name, "chain") {
        return None;
    }
    chain_words(member.as_bytes(), members.as_bytes())
}

/// `chain`, a member and members
fn chain_of(words: &[String]) -> Option<Question>
    ensures { result ≡ chain_in (map string_bytes words.now) }
{
    match words {
        [name, member, members] => { chain_named(name.as_str(), member.as_str(), members.as_str()) }
        _ => None,
    }
}

fn digests_named(name: &str) -> Option<Question>
    ensures { result ≡ digests_in (name.now ∷ []) }
{
    if is_word(name, "digests") {
        Some(Question::Digests)
    } else {
        None
    }
}

/// `digests`
fn digests_of(words: &[String]) -> Option<Question>
    ensures { result ≡ digests_in (map string_bytes words.now) }
{
    match words {
        [name] => digests_named(name.as_str()),
        _ => None,
    }
}

fn blame_named(name: &str) -> Option<Question>
    ensures { result ≡ blame_in (name.now ∷ []) }
{
    if is_word(name, "blame") {
        Some(Question::Blame)
    } else {
        None
    }
}

/// `blame`
fn blame_of(words: &[String]) -> Option<Question>
    ensures { result ≡ blame_in (map string_bytes words.now) }
{
    match words {
        [name] => blame_named(name.as_str()),
        _ => None,
    }
}

fn states_named(name: &str) -> Option<Question>
    ensures { result ≡ states_in (name.now ∷ []) }
{
    if is_word(name, "states") {
        Some(Question::States)
    } else {
        None
    }
}

fn states_at_named(name: &str, line: &str) -> Option<Question>
    ensures { result ≡ states_in (name.now ∷ line.now ∷ []) }
{
    if !is_word(name, "states") {
        return None;
    }
    match number_in(1, MOST_LINE, line.as_bytes()) {
        Some(line) => Some(Question::StatesAt { line }),
        None => None,
    }
}

/// `states`, or `states` and a line
fn states_of(words: &[String]) -> Option<Question>
    ensures { result ≡ states_in (map string_bytes words.now) }
{
    match words {
        [name] => states_named(name.as_str()),
        [name, line] => states_at_named(name.as_str(), line.as_str()),
        _ => None,
    }
}

/// What the words ask, without the program's name. Takes no memory.
#[tactic(auto, unfolding(crate::specs::Words::question_in))]
pub(crate) fn question_of(words: &[String]) -> Option<Question>
    ensures { result ≡ question_in (map string_bytes words.now) }
{
    if let Some(chain) = chain_of(words) {
        return Some(chain);
    }
    if let Some(digests) = digests_of(words) {
        return Some(digests);
    }
    if let Some(blame) = blame_of(words) {
        return Some(blame);
    }
    states_of(words)
}
