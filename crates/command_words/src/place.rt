//! Where the words name a journal file, and which command reads one.

ghost use Rattle.std.specs.Prelude.{◌≡◌, map};
ghost use Rattle.std.specs.String.{string_bytes};
ghost use Rattle.command_words.specs.Words.{names_replay, place_in};

use crate::words::is_word;

/// The place of the last word, exactly if there are at least three words and the last but one is
/// `in`: the word there is the path of a journal file, and the words before `in` are a command.
/// Takes no memory.
pub fn place_of(words: &[String]) -> Option<u64>
    ensures { result ≡ place_in (map string_bytes words.now) }
{
    let count = words.len();
    if count < 3 {
        return None;
    }
    if is_word(words[count - 2].as_str(), "in") {
        Some((count - 1) as u64)
    } else {
        None
    }
}

/// Whether the first word is `replay`. Takes no memory.
pub fn names_replay(words: &[String]) -> bool
    ensures { result ≡ names_replay (map string_bytes words.now) }
{
    match words {
        [name, ..] => is_word(name.as_str(), "replay"),
        [] => false,
    }
}
