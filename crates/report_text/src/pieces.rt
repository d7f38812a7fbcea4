//! Printing a line piece by piece: texts, names and numbers, and the heads that lines share.

ghost use Rattle.std.specs.Prelude.{◌∷◌, [], decimal, codes};
ghost use Rattle.std.specs.List.{concat, flat_map};
ghost use Rattle.report_text.specs.Text.{origin_word, origins_text, names_text, numbers_text, part_text, taken_text, only_if, kept_text};
ghost use Rattle.report_text.specs.Pieces.{piece_text};
ghost use Rattle.wire_bcs.specs.Wrote.{Writes};

use itoa::Buffer;
use wire_bcs::{OutOfMemory, Seq};

/// A part of a line: bytes as they stand, or a number in decimal digits.
#[derive(Clone, Copy)]
pub(crate) enum Piece<'a> {
    Text(&'a [u8]),
    Name(&'a Seq<u8>),
    Number(u64),
    Wide(u128),
}

#[tactic(auto, using(crate::proofs::Appends::fronts))]
pub(crate) fn print_number(out: &mut Seq<u8>, number: u64) -> Result<(), OutOfMemory>
    ensures { Writes out.old out.new (decimal number) result }
{
    let mut buffer = Buffer::new();
    out.extend(buffer.format(number).as_bytes())
}

#[tactic(auto, using(crate::proofs::Appends::fronts))]
pub(crate) fn print_piece(out: &mut Seq<u8>, piece: Piece<'_>) -> Result<(), OutOfMemory>
    ensures { Writes out.old out.new (piece_text piece.entry) result }
{
    match piece {
        Piece::Text(text) => out.extend(text),
        Piece::Name(name) => out.extend(name.as_slice()),
        Piece::Number(number) => print_number(out, number),
        Piece::Wide(number) => {
            let mut buffer = Buffer::new();
            out.extend(buffer.format(number).as_bytes())
        }
    }
}

#[tactic(auto, using(crate::proofs::Appends::fronts))]
pub(crate) fn print(out: &mut Seq<u8>, pieces: &[Piece<'_>]) -> Result<(), OutOfMemory>
    ensures { Writes out.old out.new (flat_map piece_text pieces.now) result }
{
    for piece in pieces {
        print_piece(out, *piece)?;
    }
    Ok(())
}

/// A text, then a name.
pub(crate) fn print_with_name<'a>(
    out: &mut Seq<u8>,
    text: &'a [u8],
    name: &'a Seq<u8>,
) -> Result<(), OutOfMemory>
    ensures { Writes out.old out.new (concat (text.now ∷ name.now ∷ [])) result }
{
    print(out, &[Piece::Text(text), Piece::Name(name)])
}

/// A text, then a number.
pub(crate) fn print_with_number(
    out: &mut Seq<u8>,
    text: &[u8],
    number: u64,
) -> Result<(), OutOfMemory>
    ensures { Writes out.old out.new (concat (text.now ∷ decimal number ∷ [])) result }
{
    print(out, &[Piece::Text(text), Piece::Number(number)])
}

/// Two names, each after its text.
pub(crate) fn print_two_names<'a>(
    out: &mut Seq<u8>,
    text: &'a [u8],
    name: &'a Seq<u8>,
    between: &'a [u8],
    other: &'a Seq<u8>,
) -> Result<(), OutOfMemory>
    ensures { Writes out.old out.new (concat (text.now ∷ name.now ∷ between.now ∷ other.now ∷ [])) result }
{
    print(
        out,
        &[
            Piece::Text(text),
            Piece::Name(name),
            Piece::Text(between),
            Piece::Name(other),
        ],
    )
}

/// Two numbers, each after its text.
pub(crate) fn print_two_numbers<'a>(
    out: &mut Seq<u8>,
    text: &'a [u8],
    number: u64,
    between: &'a [u8],
    other: u64,
) -> Result<(), OutOfMemory>
    ensures { Writes out.old out.new (concat (text.now ∷ decimal number ∷ between.now ∷ decimal other ∷ [])) result }
{
    print(
        out,
        &[
            Piece::Text(text),
            Piece::Number(number),
            Piece::Text(between),
            Piece::Number(other),
        ],
    )
}

/// The two certificates that stopped a member.
pub(crate) fn print_halted<'a>(
    out: &mut Seq<u8>,
    first: &'a Seq<u8>,
    second: &'a Seq<u8>,
) -> Result<(), OutOfMemory>
    ensures { Writes out.old out.new (concat (codes "halted " ∷ first.now ∷ codes " " ∷ second.now ∷ [])) result }
{
    print_two_names(out, b"halted ", first, b" ", second)
}

/// A key and the two transactions that consume it.
pub(crate) fn print_fork<'a>(
    out: &mut Seq<u8>,
    key: &'a Seq<u8>,
    first: &'a Seq<u8>,
    second: &'a Seq<u8>,
) -> Result<(), OutOfMemory>
    ensures { Writes out.old out.new (concat (codes "fork " ∷ key.now ∷ codes " " ∷ first.now ∷ codes " " ∷ second.now ∷ [])) result }
{
    print(
        out,
        &[
            Piece::Text(b"fork "),
            Piece::Name(key),
            Piece::Text(b" "),
            Piece::Name(first),
            Piece::Text(b" "),
            Piece::Name(second),
        ],
    )
}

/// The head of a line on a member: the word, the member, and the text after it.
pub(crate) fn print_member_head<'a>(
    out: &mut Seq<u8>,
    word: &'a [u8],
    member: u64,
    end: &'a [u8],
) -> Result<(), OutOfMemory>
    ensures { Writes out.old out.new (concat (word.now ∷ decimal member ∷ end.now ∷ [])) result }
{
    print(
        out,
        &[Piece::Text(word), Piece::Number(member), Piece::Text(end)],
    )
}

/// The head of a line on a transaction: the word, the transaction, and the text after it.
pub(crate) fn print_tx_head<'a>(
    out: &mut Seq<u8>,
    word: &'a [u8],
    tx: &'a Seq<u8>,
    end: &'a [u8],
) -> Result<(), OutOfMemory>
    ensures { Writes out.old out.new (concat (word.now ∷ tx.now ∷ end.now ∷ [])) result }
{
    print(out, &[Piece::Text(word), Piece::Name(tx), Piece::Text(end)])
}

/// The head of a line on a member and a transaction: the word, both, and the text after them.
pub(crate) fn print_pair_head<'a>(
    out: &mut Seq<u8>,
    word: &'a [u8],
    member: u64,
    tx: &'a Seq<u8>,
    end: &'a [u8],
) -> Result<(), OutOfMemory>
    ensures { Writes out.old out.new (concat (word.now ∷ decimal member ∷ codes " " ∷ tx.now ∷ end.now ∷ [])) result }
{
    print(
        out,
        &[
            Piece::Text(word),
            Piece::Number(member),
            Piece::Text(b" "),
            Piece::Name(tx),
            Piece::Text(end),
        ],
    )
}

#[tactic(auto, using(crate::proofs::Appends::fronts))]
pub(crate) fn print_origin(out: &mut Seq<u8>, origin: &Option<Seq<u8>>) -> Result<(), OutOfMemory>
    ensures { Writes out.old out.new (32 ∷ origin_word origin.now) result }
{
    match origin {
        Some(tx) => print_name(out, tx.as_slice()),
        None => out.extend(b" -"),
    }
}

#[tactic(auto, using(crate::proofs::Appends::fronts))]
pub(crate) fn print_name(out: &mut Seq<u8>, name: &[u8]) -> Result<(), OutOfMemory>
    ensures { Writes out.old out.new (32 ∷ name.now) result }
{
    out.push(b' ')?;
    out.extend(name)
}

#[tactic(auto, using(crate::proofs::Appends::fronts), unfolding(crate::specs::Text::origins_text))]
pub(crate) fn print_origins(
    out: &mut Seq<u8>,
    origins: &Seq<Option<Seq<u8>>>,
) -> Result<(), OutOfMemory>
    ensures { Writes out.old out.new (origins_text origins.now) result }
{
    for origin in origins.as_slice() {
        print_origin(out, origin)?;
    }
    Ok(())
}

#[tactic(auto, using(crate::proofs::Appends::fronts), unfolding(crate::specs::Text::names_text))]
pub(crate) fn print_names(out: &mut Seq<u8>, names: &Seq<Seq<u8>>) -> Result<(), OutOfMemory>
    ensures { Writes out.old out.new (names_text names.now) result }
{
    for name in names.as_slice() {
        print_name(out, name.as_slice())?;
    }
    Ok(())
}

#[tactic(auto, using(crate::proofs::Appends::fronts))]
pub(crate) fn print_spaced_number(out: &mut Seq<u8>, number: u64) -> Result<(), OutOfMemory>
    ensures { Writes out.old out.new (32 ∷ decimal number) result }
{
    out.push(b' ')?;
    print_number(out, number)
}

#[tactic(auto, using(crate::proofs::Appends::fronts), unfolding(crate::specs::Text::numbers_text))]
pub(crate) fn print_numbers(out: &mut Seq<u8>, numbers: &Seq<u64>) -> Result<(), OutOfMemory>
    ensures { Writes out.old out.new (numbers_text numbers.now) result }
{
    for number in numbers.as_slice() {
        print_spaced_number(out, *number)?;
    }
    Ok(())
}

/// Prints a word and the names after it, each after a space, or nothing if there are none.
#[tactic(auto, using(crate::proofs::Appends::fronts))]
pub(crate) fn print_part(
    out: &mut Seq<u8>,
    word: &[u8],
    names: &Seq<Seq<u8>>,
) -> Result<(), OutOfMemory>
    ensures { Writes out.old out.new (part_text word.now names.now) result }
{
    if names.is_empty() {
        return Ok(());
    }
    out.extend(word)?;
    print_names(out, names)
}

#[tactic(auto, using(crate::proofs::Appends::fronts))]
pub(crate) fn print_taken(
    out: &mut Seq<u8>,
    admitted: &Seq<Seq<u8>>,
    dropped: &Seq<Seq<u8>>,
) -> Result<(), OutOfMemory>
    ensures { Writes out.old out.new (taken_text admitted.now dropped.now) result }
{
    if admitted.is_empty() {
        return print_part(out, b"dropped", dropped);
    }
    print_part(out, b"admitted", admitted)?;
    print_part(out, b" dropped", dropped)
}

#[tactic(auto, using(crate::proofs::Appends::fronts))]
pub(crate) fn print_only_if(out: &mut Seq<u8>, holds: bool, text: &[u8]) -> Result<(), OutOfMemory>
    ensures { Writes out.old out.new (only_if holds text.now) result }
{
    if holds { out.extend(text) } else { Ok(()) }
}

#[tactic(auto, using(crate::proofs::Appends::fronts))]
pub(crate) fn print_kept(out: &mut Seq<u8>, kept: bool) -> Result<(), OutOfMemory>
    ensures { Writes out.old out.new (kept_text kept) result }
{
    if kept {
        out.extend(b"kept")
    } else {
        out.extend(b"lost")
    }
}
