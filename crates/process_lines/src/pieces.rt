//! Answers, piece by piece.

ghost use Rattle.std.specs.Prelude.{◌≡◌, ◌++◌, ◌∷◌, OnOk, decimal};
ghost use Rattle.std.specs.List.{flat_map};
ghost use Rattle.process_lines.specs.Pieces.{digest_text, hex_text, key_text, piece_text};

use chain_types::ObjectKey;
use digest_core::Digest;
use hex::encode_to_slice;
use itoa::Buffer;
use wire_bcs::{OutOfMemory, Seq};

/// A part of an answer: bytes as they stand, bytes or a digest in hexadecimal digits, a number in decimal digits, or a
/// version.
#[derive(Clone, Copy)]
pub(crate) enum Piece<'a> {
    Text(&'a [u8]),
    Bytes(&'a [u8]),
    Number(u64),
    Id(Digest),
    Key(ObjectKey),
}

/// Adds a number in decimal digits.
fn print_number(out: &mut Seq<u8>, number: u64) -> Result<(), OutOfMemory>
    ensures { OnOk result (out.new ≡ out.old ++ decimal number) }
{
    let mut buffer = Buffer::new();
    out.extend(buffer.format(number).as_bytes())
}

/// Adds bytes in hexadecimal digits.
#[tactic(auto, unfolding(crate::specs::Pieces::hex_text))]
fn print_bytes(out: &mut Seq<u8>, bytes: &[u8]) -> Result<(), OutOfMemory>
    ensures { OnOk result (out.new ≡ out.old ++ hex_text bytes.now) }
{
    let digits = hex::encode(out.allocator(), bytes)?;
    out.extend(digits.as_bytes())
}

/// Adds a digest in hexadecimal digits.
#[tactic(auto, unfolding(crate::specs::Pieces::hex_text))]
fn print_digest(out: &mut Seq<u8>, digest: &Digest) -> Result<(), OutOfMemory>
    ensures { OnOk result (out.new ≡ out.old ++ digest_text digest.now) }
{
    let mut digits = [0; 64];
    match encode_to_slice(digest.0.as_slice(), digits.as_mut_slice()) {
        Ok(()) => out.extend(digits.as_slice()),
        Err(_) => unreachable!(),
    }
}

/// Adds `ID@V`.
fn print_key(out: &mut Seq<u8>, key: &ObjectKey) -> Result<(), OutOfMemory>
    ensures { OnOk result (out.new ≡ out.old ++ key_text key.now) }
{
    print_digest(out, &key.id.0)?;
    out.push(b'@')?;
    print_number(out, key.version)
}

/// Adds a piece.
fn print_piece(out: &mut Seq<u8>, piece: Piece<'_>) -> Result<(), OutOfMemory>
    ensures { OnOk result (out.new ≡ out.old ++ piece_text piece.entry) }
{
    match piece {
        Piece::Text(text) => out.extend(text),
        Piece::Bytes(bytes) => print_bytes(out, bytes),
        Piece::Number(number) => print_number(out, number),
        Piece::Id(digest) => print_digest(out, &digest),
        Piece::Key(key) => print_key(out, &key),
    }
}

/// Adds pieces.
pub(crate) fn print(out: &mut Seq<u8>, pieces: &[Piece<'_>]) -> Result<(), OutOfMemory>
    ensures { OnOk result (out.new ≡ out.old ++ flat_map piece_text pieces.now) }
{
    for piece in pieces {
        print_piece(out, *piece)?;
    }
    Ok(())
}
