//! Words that are numbers joined by commas.

ghost use Rattle.std.specs.Prelude.{◌≡◌, ◌≤◌, take, length, option_map, IfSome};
ghost use Rattle.schedule_text.specs.Bytes.{number_in};
ghost use Rattle.command_words.specs.ListWords.{numbers_in};

use schedule_text::{cut_part, number_in};

/// The most numbers in a word.
const MOST_NUMBERS: usize = 64;

/// The number from `low` to `high` that the part denotes.
fn number_of(low: u64, high: u64, part: &[u8]) -> Option<u32>
    requires { high ≤ 4294967295 }
    ensures { result ≡ number_in low high part.now }
{
    match number_in(low, high, part) {
        Some(number) => Some(number as u32),
        None => None,
    }
}

/// Writes the numbers from `low` to `high` that the word denotes, joined by commas, to the start of the row. Answers
/// how many; none exactly if it does not denote 1 to 64. Takes no memory.
pub fn read_numbers(low: u64, high: u64, word: &[u8], row: &mut [u32]) -> Option<usize>
    requires size { length row.old ≡ 64 }
    requires high { high ≤ 4294967295 }
    ensures numbers { option_map (λ count. take count row.new) result ≡ numbers_in low high word.now }
    ensures most { IfSome result (λ count. count ≤ length row.new) }
{
    let mut count = 0;
    let mut left = Some(word);
    while let Some(text) = left {
        let (part, after) = cut_part(b',', text);
        let Some(number) = number_of(low, high, part) else {
            return None;
        };
        if count == MOST_NUMBERS {
            return None;
        }
        row[count] = number;
        count += 1;
        left = after;
    }
    Some(count)
}
