//! The number of threads that execute.

ghost use Rattle.std.specs.Prelude.{◌≡◌, ◌<◌, ◌≤◌};
ghost use Rattle.sui_validator.specs.Members.{workers_of};

use std::marker::Model;

/// A number of threads, 1 to 16. Contracts see the number.
#[derive(Drop)]
pub struct Workers {
    count: u32,
}

impl Model for Workers {
    ghost use Rattle.std.specs.Prelude.{ℕ, ◌<◌, ◌≤◌};

    ghost Value = { ℕ };

    ghost view = { λ w. w.count };

    ghost invariant = { λ w. (0 < w.count) × (w.count ≤ 16) };
}

impl Workers {
    /// This number of threads; none if it is not 1 to 16.
    pub fn new(count: u32) -> Option<Workers>
        ensures { result ≡ workers_of count }
    {
        if count == 0 || count > 16 {
            return None;
        }
        Some(Workers { count })
    }

    /// One thread.
    pub fn one() -> Workers
        ensures { result ≡ 1 }
    {
        Workers { count: 1 }
    }

    /// The number of threads.
    pub fn count(&self) -> u32
        ensures value { result ≡ self.now }
        ensures some { 0 < result }
        ensures most { result ≤ 16 }
    {
        self.count
    }
}
