//! Where bytes go.

ghost use Rattle.std.specs.Prelude.{◌≡◌, ℕ, ◌<◌, ◌≤◌, List, [], length, IfOk, Option, Some, IsErrOf, true, false};
ghost use Rattle.std.specs.Io.KnownBytes.{WriteAppends};
ghost use Rattle.outside.specs.Causes.{WriteCause};
ghost use Rattle.outside.specs.Turns.{after_call, fails_next, faults_after};
ghost use Rattle.outside.specs.declared.faults.OutFault.TheVariants as fault;

use crate::faults::OutFault;
use crate::turns::Turns;
use std::alloc::Global;
use std::marker::Model;
use wire_bcs::{OutOfMemory, Seq};

/// A sink of bytes.
pub trait Sink {
    /// The bytes that it took, if they are observable.
    ghost held: { Self → Option (List ℕ) };

    /// The count of faults.
    ghost faults: { Self → ℕ };

    /// Takes a prefix of the bytes, of which there is at least one, and answers how many it took;
    /// zero only if the count of faults rose. A refused write takes nothing.
    fn write(&mut self, bytes: &[u8]) -> Result<usize, OutFault>
        requires { 0 < length bytes.now }
        ensures count { IfOk result (λ n. n ≤ length bytes.now) }
        ensures takes { WriteAppends (held self.old) (held self.new) result bytes.now }
        ensures cause { WriteCause (faults self.old) (faults self.new) result };
}

/// A sink in memory, which takes every piece whole and fails at the calls of given numbers.
#[derive(Drop)]
pub struct MemSink {
    held: Seq<u8>,
    turns: Turns,
    faults: u64,
}

impl Model for MemSink {
    ghost use Rattle.outside.specs.Fakes.{SinkState};

    ghost Value = { SinkState };

    ghost view = { λ s. record { held = s.held; turns = s.turns; faults = s.faults } };
}

impl MemSink {
    /// An empty sink, which fails at exactly the writes with the numbers in `failing`, counted
    /// from 1. If memory is refused it takes nothing and counts no fault.
    pub fn new(alloc: Global, failing: &[u64]) -> Result<MemSink, OutOfMemory>
        ensures { IfOk result (λ s. s ≡ record { held = []; turns = record { calls = 0; failing = failing.now }; faults = 0 }) }
    {
        let failing = Seq::from_slice(alloc, failing)?;
        Ok(MemSink {
            held: Seq::new(alloc),
            turns: Turns { calls: 0, failing },
            faults: 0,
        })
    }

    /// The bytes that it took.
    pub fn bytes(&self) -> &[u8]
        ensures { result.now ≡ self.now.held }
    {
        self.held.as_slice()
    }
}

impl Sink for MemSink {
    ghost held = { λ s. Some s.held };

    ghost faults = { λ s. s.faults };

    fn write(&mut self, bytes: &[u8]) -> Result<usize, OutFault>
        requires { 0 < length bytes.now }
        ensures count { IfOk result (λ n. n ≤ length bytes.now) }
        ensures takes { WriteAppends (Some self.old.held) (Some self.new.held) result bytes.now }
        ensures cause { WriteCause self.old.faults self.new.faults result }
        ensures whole { IfOk result (λ n. n ≡ length bytes.now) }
        ensures turns { self.new.turns ≡ after_call self.old.turns }
        ensures counts { self.new.faults ≡ faults_after self.old.turns self.old.faults }
        ensures fails { fails_next self.old.turns ≡ true → IsErrOf result fault.Failed }
        ensures otherwise { fails_next self.old.turns ≡ false → IsErrOf result fault.Failed → ⊥ }
    {
        if self.turns.next_fails() {
            self.faults = self.faults.saturating_add(1);
            return Err(OutFault::Failed);
        }
        self.held.extend(bytes)?;
        Ok(bytes.len())
    }
}
