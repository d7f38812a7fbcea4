//! Cutting what a source gives into lines.

ghost use Rattle.std.specs.Prelude.{◌≡◌, ◌<◌, ◌≤◌, ◌==◌, ◌∷◌, ◌++◌, [], None, IfOk, IfSome, IsErrOf, OnOk, drop, length, position};
ghost use Rattle.std.specs.Io.KnownBytes.{Consumes, IsAtEnd};
ghost use Rattle.outside.specs.Causes.{Rose};
ghost use Rattle.outside.specs.declared.faults.OutFault.TheVariants as fault;
ghost use Rattle.process_lines.specs.Lines.{Fills, HasNoEnd, IsCutAt, Reads, Takes, added, got_in};

use outside::{OutFault, Source};
use std::alloc::Global;
use std::marker::Model;
use wire_bcs::{OutOfMemory, Seq};

/// The most bytes that the source is asked for at once.
const PIECE: usize = 65_536;

/// The most bytes of a line, without its end.
const LONGEST_LINE: u64 = 4_194_304;

/// The answer of a [`LineReader`].
#[derive(Debug, Drop)]
pub enum Got {
    /// A line, without its end.
    Line(Seq<u8>),
    /// A line that is too long, which was read to its end.
    TooLong,
    /// The end of input. Bytes that stand after the last line end are not a line.
    End,
}

/// A reader of lines. Contracts see what it has read and not given yet.
#[derive(Drop)]
pub struct LineReader {
    alloc: Global,
    room: Vec<u8>,
    bytes: Seq<u8>,
    at: usize,
}

impl Model for LineReader {
    ghost use Rattle.std.specs.Prelude.{ℕ, List, ◌<◌, ◌≤◌, drop, length};

    ghost Value = { List ℕ };

    ghost view = { λ r. drop r.at r.bytes };

    ghost invariant = { λ r. (r.at ≤ length r.bytes) × (0 < length r.room.items) };
}

/// The bytes of a line so far; of one that is too long they are not kept.
#[derive(Drop)]
struct Part {
    text: Seq<u8>,
    too_long: bool,
}

impl Part {
    /// Adds the next bytes of the line.
    fn add(&mut self, bytes: &[u8]) -> Result<(), OutOfMemory>
        ensures { OnOk result (self.new ≡ added self.old bytes.now) }
    {
        if self.too_long {
            return Ok(());
        }
        if self.text.len().saturating_add(bytes.len() as u64) > LONGEST_LINE {
            self.too_long = true;
            return Ok(());
        }
        self.text.extend(bytes)
    }

    /// The answer for the line that is read whole now.
    fn whole(self) -> Got
        ensures { result ≡ got_in self }
    {
        let Part { text, too_long } = self;
        if too_long {
            drop(text);
            Got::TooLong
        } else {
            Got::Line(text)
        }
    }
}

/// The place of the first byte that ends a line.
fn line_end(bytes: &[u8]) -> Option<usize>
    ensures value { result ≡ position (λ b. b == 10) bytes.now }
    ensures low { IfSome result (λ at. at < length bytes.now) }
{
    bytes.iter().position(|byte| *byte == b'\n')
}

/// The bytes of the first line without its end, and how many bytes it has with it; none if no line ends there.
#[tactic(auto, using(crate::proofs::Cuts::ends_at, crate::proofs::Cuts::ends_nowhere))]
fn first_line(bytes: &[u8]) -> Option<(&[u8], usize)>
    ensures some { IfSome result (λ r. IsCutAt bytes.now r.0.now r.1) }
    ensures none { result ≡ None → HasNoEnd bytes.now }
{
    match line_end(bytes) {
        Some(place) => {
            let (line, _) = bytes.split_at(place);
            Some((line, place + 1))
        }
        None => None,
    }
}

/// The next bytes of the source, none at its end.
fn read_some<S: Source>(alloc: Global, source: &mut S, room: &mut [u8]) -> Result<Seq<u8>, OutFault>
    requires { 0 < length room.old }
    ensures read { IfOk result (λ bytes. Consumes (S.left source.old) (S.left source.new) bytes) }
    ensures end { IfOk result (λ bytes. bytes ≡ [] → IsAtEnd (S.left source.new)) }
    ensures later { S.faults source.old ≤ S.faults source.new }
    ensures fault { IsErrOf result fault.Failed → Rose (S.faults source.old) (S.faults source.new) }
{
    match source.read(room) {
        Ok(count) => {
            let (piece, _) = room.split_at(count);
            Ok(Seq::from_slice(alloc, piece)?)
        }
        Err(_) => Err(OutFault::Failed),
    }
}

/// Room for what is read at once.
fn make_room(alloc: Global) -> Result<Vec<u8>, OutOfMemory>
    ensures { IfOk result (λ room. length room.items ≡ 65536) }
{
    Ok(vec![in alloc; 0u8; PIECE]?)
}

impl LineReader {
    /// A reader that has read nothing yet.
    pub fn new(alloc: Global) -> Result<LineReader, OutOfMemory>
        ensures { IfOk result (λ r. r ≡ []) }
    {
        let room = make_room(alloc)?;
        Ok(LineReader {
            alloc,
            room,
            bytes: Seq::new(alloc),
            at: 0,
        })
    }

    /// Takes the line's bytes that were read. Answers whether the line ends there.
    fn take(&mut self, part: &mut Part) -> Result<bool, OutOfMemory>
        ensures { IfOk result (Takes self.old self.new part.old part.new) }
    {
        let (_, pending) = self.bytes.as_slice().split_at(self.at);
        match first_line(pending) {
            Some((line, used)) => {
                part.add(line)?;
                self.at += used;
                Ok(true)
            }
            None => {
                part.add(pending)?;
                self.at += pending.len();
                Ok(false)
            }
        }
    }

    /// Reads on. Answers whether the source gave something.
    fn fill<S: Source>(&mut self, source: &mut S) -> Result<bool, OutFault>
        ensures fills { IfOk result (Fills self.new (S.left source.old) (S.left source.new)) }
        ensures later { S.faults source.old ≤ S.faults source.new }
        ensures fault { IsErrOf result fault.Failed → Rose (S.faults source.old) (S.faults source.new) }
    {
        let bytes = read_some(self.alloc, source, self.room.as_mut_slice())?;
        let some = !bytes.is_empty();
        self.bytes = bytes;
        self.at = 0;
        Ok(some)
    }

    /// The next line. One that is too long is read to its end.
    #[tactic(auto, using(crate::proofs::Cuts::line_starts, crate::proofs::Cuts::line_ends, crate::proofs::Cuts::line_goes, crate::proofs::Cuts::line_more, crate::proofs::Cuts::line_never))]
    pub fn next<S: Source>(&mut self, source: &mut S) -> Result<Got, OutFault>
        ensures reads { IfOk result (Reads self.old self.new (S.left source.old) (S.left source.new)) }
        ensures later { S.faults source.old ≤ S.faults source.new }
        ensures fault { IsErrOf result fault.Failed → Rose (S.faults source.old) (S.faults source.new) }
    {
        let mut part = Part {
            text: Seq::new(self.alloc),
            too_long: false,
        };
        for _ in 0..u64::MAX {
            if self.take(&mut part)? {
                return Ok(part.whole());
            }
            if !self.fill(source)? {
                return Ok(Got::End);
            }
        }
        Err(OutFault::OutOfMemory)
    }
}
