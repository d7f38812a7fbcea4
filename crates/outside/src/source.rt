//! Where bytes come from.

ghost use Rattle.std.specs.Prelude.{◌≡◌, ℕ, ◌+◌, ◌<◌, ◌≤◌, ◌++◌, List, [], length, take, drop, IsErr, IfOk, Option, Some, is_err};
ghost use Rattle.std.specs.Io.KnownBytes.{ReadConsumes};
ghost use Rattle.outside.specs.Causes.{Rose};
ghost use Rattle.outside.specs.Turns.{after_call, fails_next, faults_after};

use crate::faults::Failed;
use crate::turns::Turns;
use std::alloc::Global;
use std::marker::Model;
use wire_bcs::{OutOfMemory, Seq};

/// A source of bytes.
pub trait Source {
    /// The bytes that are left, if they are observable.
    ghost left: { Self → Option (List ℕ) };

    /// The count of faults.
    ghost faults: { Self → ℕ };

    /// Fills the start of the buffer, which has room, and takes as many bytes from what is left.
    /// Answers how many; zero is the end of input. Takes no memory.
    fn read(&mut self, buffer: &mut [u8]) -> Result<usize, Failed>
        requires { 0 < length buffer.old }
        ensures count { IfOk result (λ n. n ≤ length buffer.new) }
        ensures reads { ReadConsumes (left self.old) (left self.new) result buffer.new }
        ensures later { faults self.old ≤ faults self.new }
        ensures failed { IsErr result → Rose (faults self.old) (faults self.new) };
}

/// Copies a prefix of what is left after `at` to the start of the buffer, at most `most` bytes,
/// and answers how many.
fn copy_front(bytes: &[u8], at: usize, most: usize, buffer: &mut [u8]) -> usize
    requires at { at ≤ length bytes.now }
    requires most { 0 < most }
    ensures room { result ≤ length buffer.new }
    ensures most { result ≤ most }
    ensures within { at + result ≤ length bytes.now }
    ensures given { drop at bytes.now ≡ take result buffer.new ++ drop (at + result) bytes.now }
    ensures end { result ≡ 0 → 0 < length buffer.old → drop (at + result) bytes.now ≡ [] }
{
    let (_, left) = bytes.split_at(at);
    let count = left.len().min(buffer.len()).min(most);
    let (front, _) = left.split_at(count);
    buffer[..count].copy_from_slice(front);
    count
}

/// A source in memory, which gives its bytes in pieces and fails at the calls of given numbers.
#[derive(Drop)]
pub struct MemSource {
    bytes: Seq<u8>,
    at: usize,
    piece: u32,
    turns: Turns,
    faults: u64,
}

impl Model for MemSource {
    ghost use Rattle.std.specs.Prelude.{◌≤◌, ◌<◌, length, drop};
    ghost use Rattle.outside.specs.Fakes.{SourceState};

    ghost Value = { SourceState };

    ghost view = { λ s. record { left = drop s.at s.bytes; piece = s.piece; turns = s.turns; faults = s.faults } };

    ghost invariant = { λ s. (s.at ≤ length s.bytes) × (0 < s.piece) };
}

impl MemSource {
    /// A source of these bytes, which gives at most `piece` bytes a read and fails at exactly the
    /// reads with the numbers in `failing`, counted from 1.
    pub fn new(
        alloc: Global,
        bytes: &[u8],
        piece: u32,
        failing: &[u64],
    ) -> Result<MemSource, OutOfMemory>
        requires { 0 < piece }
        ensures { IfOk result (λ s. s ≡ record { left = bytes.now; piece = piece; turns = record { calls = 0; failing = failing.now }; faults = 0 }) }
    {
        let bytes = Seq::from_slice(alloc, bytes)?;
        let failing = Seq::from_slice(alloc, failing)?;
        Ok(MemSource {
            bytes,
            at: 0,
            piece,
            turns: Turns { calls: 0, failing },
            faults: 0,
        })
    }
}

impl Source for MemSource {
    ghost left = { λ s. Some s.left };

    ghost faults = { λ s. s.faults };

    fn read(&mut self, buffer: &mut [u8]) -> Result<usize, Failed>
        requires { 0 < length buffer.old }
        ensures count { IfOk result (λ n. n ≤ length buffer.new) }
        ensures reads { ReadConsumes (Some self.old.left) (Some self.new.left) result buffer.new }
        ensures later { self.old.faults ≤ self.new.faults }
        ensures failed { IsErr result → Rose self.old.faults self.new.faults }
        ensures exactly { is_err result ≡ fails_next self.old.turns }
        ensures turns { self.new.turns ≡ after_call self.old.turns }
        ensures counts { self.new.faults ≡ faults_after self.old.turns self.old.faults }
        ensures most { IfOk result (λ n. n ≤ self.old.piece) }
    {
        if self.turns.next_fails() {
            self.faults = self.faults.saturating_add(1);
            return Err(Failed);
        }
        let count = copy_front(self.bytes.as_slice(), self.at, self.piece as usize, buffer);
        self.at += count;
        Ok(count)
    }
}

/// A source in memory that never fails: its count of faults is the constant 0.
#[derive(Drop)]
pub struct FreeSource {
    bytes: Seq<u8>,
    at: usize,
}

impl Model for FreeSource {
    ghost use Rattle.std.specs.Prelude.{ℕ, List, ◌≤◌, length, drop};

    ghost Value = { List ℕ };

    ghost view = { λ s. drop s.at s.bytes };

    ghost invariant = { λ s. s.at ≤ length s.bytes };
}

impl FreeSource {
    /// A source of these bytes.
    pub fn new(alloc: Global, bytes: &[u8]) -> Result<FreeSource, OutOfMemory>
        ensures { IfOk result (λ s. s ≡ bytes.now) }
    {
        let bytes = Seq::from_slice(alloc, bytes)?;
        Ok(FreeSource { bytes, at: 0 })
    }
}

impl Source for FreeSource {
    ghost left = { λ s. Some s };

    ghost faults = { λ _. 0 };

    fn read(&mut self, buffer: &mut [u8]) -> Result<usize, Failed> {
        let count = copy_front(self.bytes.as_slice(), self.at, usize::MAX, buffer);
        self.at += count;
        Ok(count)
    }
}
