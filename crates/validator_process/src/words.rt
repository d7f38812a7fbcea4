//! The words of the program.

ghost use Rattle.std.specs.Prelude.{◌≡◌, ◌∷◌, ◌≤◌, [], IfSome, bytes_eq, map};
ghost use Rattle.std.specs.String.{string_bytes};
ghost use Rattle.validator_process.specs.Words.{IsInRange, genesis_place, make_in, member_in, serve_in, task_in};

use schedule_text::number_in;

/// The highest number of a member.
const MOST_MEMBER: u64 = 63;

/// What a process of a member is to do.
#[derive(Clone, Copy, Debug, PartialEq, Eq)]
pub enum Task {
    /// `init M GENESIS in FILE`: the journal is made.
    Make { member: u32 },
    /// `M GENESIS in FILE`: the member starts from its journal, and answers.
    Serve { member: u32 },
}

impl Task {
    /// The place of the word that names the set-up; that of the journal stands two further.
    pub fn genesis_place(self) -> usize
        ensures is { result ≡ genesis_place self }
        ensures most { result ≤ 2 }
    {
        match self {
            Task::Make { .. } => 2,
            Task::Serve { .. } => 1,
        }
    }
}

/// The number of a member, from 0 to 63.
fn member_in(word: &str) -> Option<u32>
    ensures is { result ≡ member_in word.now }
    ensures range { IfSome result (λ member. member ≤ 63) }
{
    match number_in(0, MOST_MEMBER, word.as_bytes()) {
        Some(member) => Some(member as u32),
        None => None,
    }
}

/// Whether the word is this one.
fn is_word(word: &str, name: &str) -> bool
    ensures { result ≡ bytes_eq word.now name.now }
{
    word == name
}

/// `M GENESIS in FILE`
fn serve_of(member: &str, between: &str) -> Option<Task>
    ensures is { result ≡ serve_in member.now between.now }
    ensures range { IfSome result IsInRange }
{
    if !is_word(between, "in") {
        return None;
    }
    match member_in(member) {
        Some(member) => Some(Task::Serve { member }),
        None => None,
    }
}

/// `init M GENESIS in FILE`
fn make_of(name: &str, member: &str, between: &str) -> Option<Task>
    ensures is { result ≡ make_in name.now member.now between.now }
    ensures range { IfSome result IsInRange }
{
    if !is_word(name, "init") || !is_word(between, "in") {
        return None;
    }
    match member_in(member) {
        Some(member) => Some(Task::Make { member }),
        None => None,
    }
}

/// What the words ask for, without the program's name. Takes no memory.
#[tactic(auto, unfolding(crate::specs::Words::task_in))]
pub fn task_of(words: &[String]) -> Option<Task>
    ensures is { result ≡ task_in (map string_bytes words.now) }
    ensures range { IfSome result IsInRange }
{
    let [first, second, third, rest @ ..] = words else {
        return None;
    };
    match rest {
        [_file] => serve_of(first.as_str(), third.as_str()),
        [between, _file] => make_of(first.as_str(), second.as_str(), between.as_str()),
        _ => None,
    }
}
