//! A sink that takes only so many bytes of a piece.

ghost use Rattle.std.specs.Prelude.{◌≡◌, ◌<◌, ◌≤◌, [], length, min, IfOk, Some, IsErrOf, true, false};
ghost use Rattle.std.specs.Io.KnownBytes.{WriteAppends};
ghost use Rattle.outside.specs.Causes.{WriteCause};
ghost use Rattle.outside.specs.Turns.{after_call, fails_next, narrow_faults_after};
ghost use Rattle.outside.specs.declared.faults.OutFault.TheVariants as fault;

use crate::faults::OutFault;
use crate::sink::Sink;
use crate::turns::Turns;
use std::alloc::Global;
use std::marker::Model;
use wire_bcs::{OutOfMemory, Seq};

/// A sink in memory, which takes at most so many bytes of a piece, and fails at the calls of given
/// numbers.
#[derive(Drop)]
pub struct NarrowSink {
    held: Seq<u8>,
    most: u32,
    turns: Turns,
    faults: u64,
}

impl Model for NarrowSink {
    ghost use Rattle.outside.specs.Fakes.{NarrowState};

    ghost Value = { NarrowState };

    ghost view = { λ s. record { held = s.held; most = s.most; turns = s.turns; faults = s.faults } };
}

impl NarrowSink {
    /// An empty sink, which takes at most `most` bytes of a piece. It fails at exactly the writes
    /// with the numbers in `failing`, counted from 1. If `most` is 0 every other write takes
    /// nothing and answers zero; each write counts one fault then.
    pub fn new(alloc: Global, most: u32, failing: &[u64]) -> Result<NarrowSink, OutOfMemory>
        ensures { IfOk result (λ s. s ≡ record { held = []; most = most; turns = record { calls = 0; failing = failing.now }; faults = 0 }) }
    {
        let failing = Seq::from_slice(alloc, failing)?;
        Ok(NarrowSink {
            held: Seq::new(alloc),
            most,
            turns: Turns { calls: 0, failing },
            faults: 0,
        })
    }

    /// The bytes that it took.
    pub fn bytes(&self) -> &[u8]
        ensures { result.now ≡ self.now.held }
    {
        self.held.as_slice()
    }
}

impl Sink for NarrowSink {
    ghost held = { λ s. Some s.held };

    ghost faults = { λ s. s.faults };

    fn write(&mut self, bytes: &[u8]) -> Result<usize, OutFault>
        requires { 0 < length bytes.now }
        ensures count { IfOk result (λ n. n ≤ length bytes.now) }
        ensures takes { WriteAppends (Some self.old.held) (Some self.new.held) result bytes.now }
        ensures cause { WriteCause self.old.faults self.new.faults result }
        ensures whole { IfOk result (λ n. n ≡ min (length bytes.now) self.old.most) }
        ensures most { self.new.most ≡ self.old.most }
        ensures turns { self.new.turns ≡ after_call self.old.turns }
        ensures counts { self.new.faults ≡ narrow_faults_after self.old.most self.old.turns self.old.faults }
        ensures fails { fails_next self.old.turns ≡ true → IsErrOf result fault.Failed }
        ensures otherwise { fails_next self.old.turns ≡ false → IsErrOf result fault.Failed → ⊥ }
    {
        let fails = self.turns.next_fails();
        if fails || self.most == 0 {
            self.faults = self.faults.saturating_add(1);
        }
        if fails {
            return Err(OutFault::Failed);
        }
        let count = bytes.len().min(self.most as usize);
        let (front, _) = bytes.split_at(count);
        self.held.extend(front)?;
        Ok(count)
    }
}
