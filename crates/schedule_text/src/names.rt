//! The names that were given so far, in their order, found without a scan.

ghost use Rattle.std.specs.Prelude.{◌≡◌, ◌∷◌, [], ◌++◌, length, OnOk, false};
ghost use Rattle.std.specs.List.{list_any};
ghost use Rattle.std.specs.Str.{bytes_eq};
ghost use Rattle.schedule_text.specs.Known.{is_among};

use indexmap::IndexSet;
use std::alloc::Global;
use std::marker::Model;
use wire_bcs::OutOfMemory;

/// A list of names, each once. Contracts see it as that list.
#[derive(Drop)]
pub(crate) struct Names {
    set: IndexSet<Vec<u8>>,
}

impl Model for Names {
    ghost use Rattle.std.specs.Prelude.{ℕ, List, map};

    ghost Value = { List (List ℕ) };

    ghost view = { λ n. map (λ k. k.items) n.set.keys };
}

impl Names {
    /// An empty list of names.
    pub(crate) fn new(alloc: Global) -> Names
        ensures { result ≡ [] }
    {
        Names {
            set: IndexSet::new(alloc),
        }
    }

    /// The number of names.
    pub(crate) fn len(&self) -> usize
        ensures { result ≡ length self.now }
    {
        self.set.len()
    }

    /// Whether the name is one of them.
    pub(crate) fn has(&self, name: &[u8]) -> bool
        ensures { result ≡ is_among self.now name.now }
    {
        self.set.contains(name)
    }

    /// Adds a name that is not among them yet.
    pub(crate) fn add(&mut self, alloc: Global, name: &[u8]) -> Result<(), OutOfMemory>
        requires { is_among self.old name.now ≡ false }
        ensures { OnOk result (self.new ≡ self.old ++ name.now ∷ []) }
    {
        self.set.insert(Vec::from_slice(alloc, name)?)?;
        Ok(())
    }
}
