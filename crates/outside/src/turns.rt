//! Which calls of an object in memory are to fail.

ghost use Rattle.std.specs.Prelude.{◌≡◌};
ghost use Rattle.outside.specs.Turns.{after_call, fails_next};

use wire_bcs::Seq;

/// Which calls of an object in memory fail, for tests: the numbers, from 1, of those that do, and how many calls were
/// made so far. The count stops at the greatest u64.
#[derive(Debug, Drop)]
pub struct Turns {
    pub calls: u64,
    pub failing: Seq<u64>,
}

impl Turns {
    /// Counts a call, and answers whether it is to fail. Takes no memory.
    pub fn next_fails(&mut self) -> bool
        ensures fails { result ≡ fails_next self.old }
        ensures after { self.new ≡ after_call self.old }
    {
        self.calls = self.calls.saturating_add(1);
        self.failing.as_slice().contains(&self.calls)
    }
}
