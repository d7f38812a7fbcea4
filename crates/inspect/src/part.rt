//! The part of a schedule that a question runs.

ghost use Rattle.std.specs.Prelude.{◌≡◌, ◌==◌, ◌≤◌, count_by, length};
ghost use Rattle.schedule_text.specs.Schedule.{lines_of};
ghost use Rattle.inspect.specs.Part.{first_lines, line_end, part_of, past};

use crate::questions::Question;

/// How many ends of lines are still to be passed after a byte; none if it ends the last of these lines.
#[tactic(auto, unfolding(crate::specs::Part::past))]
fn past(more: u64, byte: u8) -> Option<u64>
    ensures { result ≡ past more byte }
{
    if byte != b'\n' {
        return Some(more);
    }
    if 0 < more { Some(more - 1) } else { None }
}

/// Where the line ends that comes after this many line ends.
#[tactic(auto, unfolding(crate::specs::Part::line_end))]
fn line_end(text: &[u8], more: u64) -> usize
    ensures value { result ≡ line_end 0 more text.now }
    ensures within { result ≤ length text.now }
{
    let mut rest = text;
    let mut more = more;
    let mut place = 0usize;
    while let [byte, after @ ..] = rest {
        let Some(left) = past(more, *byte) else {
            return place;
        };
        more = left;
        place += 1;
        rest = after;
    }
    place
}

/// The first lines of a text.
#[tactic(auto, using(crate::proofs::Fronts::no_lines, crate::proofs::Fronts::first_is))]
fn first_lines(text: &[u8], lines: u64) -> &[u8]
    ensures { result.now ≡ first_lines lines text.now }
{
    if lines < 1 {
        return &text[..0];
    }
    &text[..line_end(text, lines - 1)]
}

/// The number of ends of lines in a text.
#[tactic(auto, using(crate::proofs::Fronts::few_ends))]
fn line_ends(text: &[u8]) -> usize
    ensures value { result ≡ count_by (λ b. b == 10) text.now }
    ensures within { result ≤ length text.now }
{
    text.iter().filter(|byte| **byte == b'\n').count()
}

/// The number of lines of a text. Takes no memory.
#[tactic(auto, using(crate::proofs::Fronts::lines_counted))]
pub(crate) fn line_count(text: &[u8]) -> u64
    ensures { result ≡ length (lines_of text.now) }
{
    line_ends(text) as u64 + 1
}

/// What a question runs of a text. Takes no memory.
pub(crate) fn part_of<'a>(question: &Question, text: &'a [u8]) -> &'a [u8]
    ensures { result.now ≡ part_of question.now text.now }
{
    match question {
        Question::StatesAt { line } => first_lines(text, *line),
        Question::Chain { .. } | Question::Digests | Question::Blame | Question::States => text,
    }
}
