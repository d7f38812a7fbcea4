//! Values by their name.

ghost use Rattle.std.specs.Prelude.{◌≡◌, ◌==◌, ℕ, List, [], OnOk, OnErr, map, length, option_copied, is_some};
ghost use Rattle.tables.specs.Named.{named, with_name};

use crate::entries::insert_new;
use indexmap::IndexMap;
use std::alloc::Global;
use std::marker::Model;
use wire_bcs::OutOfMemory;

/// What is known under names. Contracts see the pairs of name and value, in the order of naming.
#[derive(Drop)]
pub struct NameMap<T> {
    values: IndexMap<Vec<u8>, T>,
    alloc: Global,
}

impl<T> Model for NameMap<T> {
    ghost use Rattle.std.specs.Prelude.{ℕ, List, map};
    ghost use Rattle.tables.specs.Named.{Named};

    ghost Value = { Named T };

    ghost view = { λ n. map (λ e. (e.0.items, e.1)) n.values.entries };
}

impl<T> NameMap<T> {
    /// No names. Takes no memory.
    pub fn new(alloc: Global) -> NameMap<T>
        ensures { result ≡ [] }
    {
        NameMap {
            values: IndexMap::new(alloc),
            alloc,
        }
    }

    /// The number of names. Takes no memory.
    pub fn len(&self) -> usize
        ensures { result ≡ length self.now }
    {
        self.values.len()
    }

    /// Whether no name was given. Takes no memory.
    pub fn is_empty(&self) -> bool
        ensures { result ≡ (length self.now == 0) }
    {
        self.values.len() == 0
    }

    /// What is known under the name. Takes no memory.
    pub fn get(&self, name: &[u8]) -> Option<&T>
        ensures { option_copied result ≡ named self.now name.now }
    {
        self.values.get(name)
    }

    /// Whether the name was given. Takes no memory.
    pub fn has(&self, name: &[u8]) -> bool
        ensures { result ≡ is_some (named self.now name.now) }
    {
        self.values.contains_key(name)
    }

    /// Gives a name, unless it was given before. A refusal changes nothing.
    pub fn add(&mut self, name: &[u8], value: T) -> Result<(), OutOfMemory>
    where
        T: Drop,
        ensures ok { OnOk result (self.new ≡ with_name self.old name.now value) }
        ensures err { OnErr result (self.new ≡ self.old) }
    {
        if self.has(name) {
            return Ok(());
        }
        let name = Vec::from_slice(self.alloc, name)?;
        insert_new(&mut self.values, name, value)?;
        Ok(())
    }
}
