//! Reading a whole text, and writing a piece whole.

ghost use Rattle.std.specs.Prelude.{◌≡◌, ◌+◌, ◌<◌, ◌≤◌, ◌++◌, ℕ, List, IfOk, OnOk, OnErr, IsErrOf, length, take};
ghost use Rattle.std.specs.Io.KnownBytes.{Appends, Consumes, IsAtEnd, Keeps};
ghost use Rattle.outside.specs.Causes.{Rose};
ghost use Rattle.outside.specs.declared.faults.OutFault.TheVariants as fault;
ghost use Rattle.outside.specs.Streams.{AppendsFront, ReadsText};

use crate::faults::OutFault;
use crate::sink::Sink;
use crate::source::Source;
use std::alloc::Global;
use wire_bcs::Seq;

/// How many bytes are asked for at once.
const PIECE: usize = 65_536;

/// Reads one piece, of at most `room` bytes, after the text. Answers how many; zero is the end.
fn read_piece<S: Source>(
    source: &mut S,
    buffer: &mut [u8],
    room: usize,
    text: &mut Seq<u8>,
) -> Result<usize, OutFault>
    requires some { 0 < length buffer.old }
    requires room { 0 < room }
    ensures count { IfOk result (λ n. n ≤ room) }
    ensures piece { IfOk result (λ n. (bytes : List ℕ) × (text.new ≡ text.old ++ bytes) × (length bytes ≡ n) × Consumes (S.left source.old) (S.left source.new) bytes) }
    ensures end { IfOk result (λ n. n ≡ 0 → IsAtEnd (S.left source.new)) }
    ensures later { S.faults source.old ≤ S.faults source.new }
    ensures fault { IsErrOf result fault.Failed → Rose (S.faults source.old) (S.faults source.new) }
{
    let most = buffer.len().min(room);
    let (piece, _) = buffer.split_at_mut(most);
    match source.read(piece) {
        Ok(count) => {
            let (bytes, _) = piece.split_at(count);
            text.extend(bytes)?;
            Ok(count)
        }
        Err(_) => Err(OutFault::Failed),
    }
}

/// Reads the source to its end, or to one byte more than the limit, in bytes.
pub fn read_text<S: Source>(alloc: Global, limit: u32, source: &mut S) -> Result<Seq<u8>, OutFault>
    ensures ok { IfOk result (λ text. ReadsText limit (S.left source.old) (S.left source.new) text) }
    ensures later { S.faults source.old ≤ S.faults source.new }
    ensures fault { IsErrOf result fault.Failed → Rose (S.faults source.old) (S.faults source.new) }
{
    let mut buffer = zeros(alloc, PIECE)?;
    let mut text = Seq::new(alloc);
    let mut room = limit as usize + 1;
    while room > 0 {
        let count = read_piece(source, buffer.as_mut_slice(), room, &mut text)?;
        if count == 0 {
            break;
        }
        room -= count;
    }
    Ok(text)
}

/// A buffer of so many bytes.
fn zeros(alloc: Global, count: usize) -> Result<Vec<u8>, OutFault>
    ensures room { IfOk result (λ buffer. length buffer.items ≡ count) }
    ensures only { IsErrOf result fault.Failed → ⊥ }
{
    match vec![in alloc; 0u8; count] {
        Ok(buffer) => Ok(buffer),
        Err(_) => Err(OutFault::OutOfMemory),
    }
}

/// Writes one piece or a part of it. Answers how many bytes, at least one.
fn write_piece<K: Sink>(sink: &mut K, bytes: &[u8]) -> Result<usize, OutFault>
    requires { 0 < length bytes.now }
    ensures count { IfOk result (λ n. (0 < n) × (n ≤ length bytes.now)) }
    ensures taken { IfOk result (λ n. Appends (K.held sink.old) (K.held sink.new) (take n bytes.now)) }
    ensures kept { OnErr result (Keeps (K.held sink.old) (K.held sink.new)) }
    ensures later { K.faults sink.old ≤ K.faults sink.new }
    ensures fault { IsErrOf result fault.Failed → Rose (K.faults sink.old) (K.faults sink.new) }
{
    match sink.write(bytes) {
        Ok(0) => Err(OutFault::Failed),
        Ok(count) => Ok(count),
        Err(OutFault::Failed) => Err(OutFault::Failed),
        Err(OutFault::OutOfMemory) => Err(OutFault::OutOfMemory),
    }
}

/// Writes the bytes whole.
#[tactic(auto, using(crate::proofs::Ends::owes_all, crate::proofs::Ends::owes_some, crate::proofs::Ends::owes_none))]
pub fn write_all<K: Sink>(sink: &mut K, bytes: &[u8]) -> Result<(), OutFault>
    ensures ok { OnOk result (Appends (K.held sink.old) (K.held sink.new) bytes.now) }
    ensures some { AppendsFront (K.held sink.old) (K.held sink.new) bytes.now }
    ensures later { K.faults sink.old ≤ K.faults sink.new }
    ensures fault { IsErrOf result fault.Failed → Rose (K.faults sink.old) (K.faults sink.new) }
{
    let mut rest = bytes;
    while !rest.is_empty() {
        let count = write_piece(sink, rest)?;
        let (_, after) = rest.split_at(count);
        rest = after;
    }
    Ok(())
}
