//! The first name of each thing.

ghost use Rattle.std.specs.Prelude.{◌≡◌, [], OnOk, OnErr, Some, None, option_copied, option_map, unwrap_or, codes};
ghost use Rattle.tables.specs.Named.{FirstOf, first_of, with_first};

use crate::entries::insert_new;
use indexmap::IndexMap;
use std::alloc::Global;
use std::hash::Hash;
use std::marker::Model;
use wire_bcs::{OutOfMemory, Seq};

/// The first name of each key. Contracts see the pairs of key and name, in the order of naming.
#[derive(Drop)]
pub struct FirstNames<K: Eq + Hash> {
    names: IndexMap<K, Seq<u8>>,
    alloc: Global,
}

impl<K: Eq + Hash> Model for FirstNames<K> {
    ghost use Rattle.tables.specs.Named.{FirstOf};

    ghost Value = { FirstOf K };

    ghost view = { λ n. n.names.entries };
}

impl<K: Eq + Hash + Drop> FirstNames<K> {
    /// No names. Takes no memory.
    pub fn new(alloc: Global) -> FirstNames<K>
        ensures { result ≡ [] }
    {
        FirstNames {
            names: IndexMap::new(alloc),
            alloc,
        }
    }

    /// The first name of the key, or a question mark. Takes no memory.
    pub fn name_of(&self, key: &K) -> &[u8]
        ensures { result.now ≡ unwrap_or (first_of K.eq self.now key.now) (codes "?") }
    {
        match self.names.get(key) {
            Some(name) => name.as_slice(),
            None => b"?".as_slice(),
        }
    }

    /// Names the key, unless it has a name. A refusal changes nothing.
    pub fn add(&mut self, key: K, name: &[u8]) -> Result<(), OutOfMemory>
        ensures ok { OnOk result (self.new ≡ with_first K.eq self.old key name.now) }
        ensures err { OnErr result (self.new ≡ self.old) }
    {
        if self.names.contains_key(&key) {
            return Ok(());
        }
        let name = Seq::from_slice(self.alloc, name)?;
        insert_new(&mut self.names, key, name)?;
        Ok(())
    }
}
